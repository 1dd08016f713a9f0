// Into which pages a list of cells goes.
ghost use Rattle.std.specs.Prelude.{◌≡◌, ◌⊎◌, ℕ, ◌+◌, ◌-◌, ◌^◌, ◌<◌, ◌≤◌, IfOk, length, take, drop, min};
ghost use Rattle.std.specs.List.{All};
ghost use Rattle.format_spec.specs.Page.{cell_room};
ghost use Rattle.format_spec.specs.Sizes.{IsUsable};
ghost use Rattle.page_spec.specs.Rooms.{IsOneCell, needs as bytes_needed};
ghost use Rattle.tree_balance.specs.Cuts.{page_room, risen as cells_risen};
ghost use Rattle.tree_balance.specs.Shares.{Cover, FitPages, HaveCells, AreFilled, HaveDividers, AreLaid};

use crate::cutting::{filled, need, risen, room_of};
use crate::share::Share;
use cell_codec::PageKind;
use page_layout::needs;
use rbu_value::Bytes;
use std::alloc::{AllocError, Global};

// How many of some cells stay in front of the last page, of those that its front has: cells go over as long as the last page needs no more than the front, which keeps `least` of them.
fn evened(cells: &[Bytes], front: usize, least: usize, room: u64) -> usize
    requires room { room ≤ 65536 }
    requires front { bytes_needed (take front cells.now) ≤ room }
    requires back { bytes_needed (drop front cells.now) ≤ room }
    requires within { front ≤ length cells.now }
    requires each { All (λ cell. cell_room cell + 2 ≤ room) cells.now }
    ensures within { result ≤ front }
    ensures least { min least front ≤ result }
    ensures moved { (result ≡ front) ⊎ (bytes_needed (drop result cells.now) ≤ bytes_needed (take result cells.now)) }
    ensures even { least < result → bytes_needed (take (result - 1) cells.now) < bytes_needed (drop (result - 1) cells.now) }
{
    let mut before = needs(&cells[..front]);
    let mut last = needs(&cells[front..]);
    let mut at = front;
    while least < at {
        let one = need(&cells[at - 1]);
        if before - one < last + one {
            return at;
        }
        before -= one;
        last += one;
        at -= 1;
    }
    at
}

// The shares of cells that the first page has no room for. Each page is filled from the left, and the last two are evened out.
fn several(
    alloc: Global,
    cells: &[Bytes],
    up: usize,
    first: u64,
    room: u64,
) -> Result<Vec<Share>, AllocError>
    requires over { first < bytes_needed cells.now }
    requires first { first ≤ room }
    requires room { room ≤ 65536 }
    requires few { length cells.now < 2 ^ 32 }
    requires up { up ≤ 1 }
    requires each { All (λ cell. cell_room cell + 2 ≤ room) cells.now }
    ensures { IfOk result (λ shares. AreLaid cells.now up room 0 first shares.items) }
{
    let mut shares = Vec::new(alloc);
    let mut free = first;
    let mut from = 0;
    let mut here = filled(cells, first);
    let mut next = filled(&cells[here..], room);
    while from + here + next < cells.len() {
        shares.push(share(from, from + here))?;
        from += here;
        here = next;
        next = filled(&cells[from + here..], room);
        free = room;
    }
    let front = evened(&cells[from..], here, up + 1, room);
    shares.push(share(from, from + front))?;
    shares.push(share(from + front, cells.len()))?;
    Ok(shares)
}

// The cells from an index up to another one.
fn share(from: usize, to: usize) -> Share
    requires from { from < 2 ^ 32 }
    requires to { to < 2 ^ 32 }
    ensures from { result.from ≡ from }
    ensures to { result.to ≡ to }
{
    Share {
        from: from as u32,
        to: to as u32,
    }
}

// One share, which has all cells, or none where there is no cell.
fn one(alloc: Global, cells: &[Bytes]) -> Result<Vec<Share>, AllocError>
    requires few { length cells.now < 2 ^ 32 }
    ensures { (up room first : ℕ) → bytes_needed cells.now ≤ first → IfOk result (λ shares. AreLaid cells.now up room 0 first shares.items) }
{
    let mut shares = Vec::new(alloc);
    if !cells.is_empty() {
        shares.push(share(0, cells.len()))?;
    }
    Ok(shares)
}

/// Cuts a list of cells into the pages that hold it: pages are filled from the left, and the last two evened out. The first page may be page 1, which has 100 bytes less. A cell that goes up to a parent belongs to the end of the share before it: where cells are those of a page, each share but the last has one more. No cells are no share; more than 2^32 - 1 of them want memory. The time is linear in the cells.
pub fn layout(
    alloc: Global,
    cells: &[Bytes],
    kind: PageKind,
    usable: u32,
    first_usable: u32,
) -> Result<Vec<Share>, AllocError>
    requires usable { IsUsable usable }
    requires first { (first_usable ≡ usable) ⊎ (first_usable + 100 ≡ usable) }
    requires cells { All (λ cell. cell_room cell + 2 ≤ page_room kind usable) cells.now }
    ensures cover { IfOk result (λ shares. Cover 0 shares.items (length cells.now)) }
    ensures fits { IfOk result (λ shares. FitPages cells.now (page_room kind usable) (page_room kind first_usable) shares.items) }
    ensures cells { IfOk result (λ shares. HaveCells (page_room kind usable) (page_room kind first_usable) shares.items) }
    ensures filled { IfOk result (λ shares. AreFilled cells.now (cells_risen kind) (page_room kind usable) (page_room kind first_usable) shares.items) }
    ensures dividers { 1 ≤ cells_risen kind → All (IsOneCell kind usable) cells.now → IfOk result (λ shares. HaveDividers (cells_risen kind) shares.items) }
{
    if u32::try_from(cells.len()).is_err() {
        return Err(AllocError);
    }
    let first = room_of(kind, first_usable);
    if needs(cells) <= first {
        return one(alloc, cells);
    }
    several(alloc, cells, risen(kind), first, room_of(kind, usable))
}
