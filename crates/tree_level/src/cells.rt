// What becomes of the cells of a page, and their bytes.
ghost use Rattle.std.specs.Prelude.{◌≡◌, ◌≤◌, ◌<◌, ◌+◌, ◌*◌, ◌-◌, ◌^◌, ◌↔◌, ℕ, List, [], ◌∷◌, ◌++◌, IfOk, IsTrue, OnOk, length, min, sum_by, take, drop, slice_index_or};
ghost use Rattle.format_spec.specs.Sizes.{IsUsable};
ghost use Rattle.page_spec.specs.Rooms.{free_bytes, needs as bytes_needed};
ghost use Rattle.put_spec.specs.Steps.{Spelled, bytes_in};
ghost use Rattle.tree_level.specs.Changes.{HasSpelled, IsReadable, behind as index_behind, bytes_changed};
ghost use Rattle.tree_level.specs.Views.{view_room};

use crate::spreading::push_cell;
use cell_codec::{CellView, PageKind};
use page_layout::{needs, place_of};
use rbu_value::Bytes;
use std::alloc::{AllocError, Global};
use tree_balance::room_of;
use tree_walk::TreePage;

/// What becomes of the cells of a page: at an index of its array one goes, or none does, and others come there.
#[derive(Clone, Copy)]
pub struct Change {
    /// The index.
    pub at: usize,
    /// Whether the cell at the index goes.
    pub goes: bool,
    /// The right child that the page has then. That of a leaf is not read.
    pub right: u32,
}

// The index behind the cell that goes.
fn behind(at: usize, goes: bool) -> usize
    requires { at ≤ 65536 }
    ensures { result ≡ index_behind at goes }
{
    if goes { at + 1 } else { at }
}

// The bytes that cells need, as their views tell; at most 2^64 - 1.
fn views_need(views: &[CellView]) -> u64
    ensures { result ≡ min (sum_by view_room views.now + 2 * length views.now) (2 ^ 64 - 1) }
{
    let mut total = 0u64;
    for view in views {
        total = total.saturating_add(u64::from(view.size.max(4)) + 2);
    }
    total
}

/// The bytes that a page has for cells and their places.
pub fn room_in(number: u32, kind: PageKind, usable: u32) -> u64
    requires { IsUsable usable }
    ensures { result ≡ free_bytes number usable kind [] }
{
    let room = room_of(kind, usable);
    if number == 1 { room - 100 } else { room }
}

/// Whether a page has room for the cells that it is to have. No cell is decoded: the views tell the sizes.
pub fn has_room(page: &TreePage, usable: u32, change: Change, comes: &[Bytes]) -> bool
    requires usable { IsUsable usable }
    requires within { index_behind change.at change.goes ≤ length page.now.views }
    ensures { (cells : List Spelled) → HasSpelled usable page.now cells
        → IsTrue result ↔ (bytes_needed (bytes_changed cells change comes.now) ≤ free_bytes page.now.number usable page.now.kind []) }
{
    let views = page.views.as_slice();
    let front = views_need(&views[..change.at]);
    let back = views_need(&views[behind(change.at, change.goes)..]);
    let total = front.saturating_add(back).saturating_add(needs(comes));
    total <= room_in(page.number, page.kind, usable)
}

// The bytes of a cell.
fn cell_of(page: &TreePage, at: usize) -> &[u8]
    requires page { IsReadable page.now }
    requires within { at < length page.now.views }
    ensures { (usable : ℕ) (cells : List Spelled) → HasSpelled usable page.now cells → result.now ≡ slice_index_or (bytes_in cells) at [] }
{
    let bytes = page.bytes.as_slice();
    let start = place_of(bytes, page.number, page.kind, at as u32);
    &bytes[start..start + page.view_at(at).size as usize]
}

// Puts copies of the cells from one index up to another behind others.
fn copy_cells(
    alloc: Global,
    page: &TreePage,
    from: usize,
    to: usize,
    cells: &mut Vec<Bytes>,
) -> Result<(), AllocError>
    requires page { IsReadable page.now }
    requires within { to ≤ length page.now.views }
    ensures { OnOk result ((usable : ℕ) (all : List Spelled) → HasSpelled usable page.now all → cells.new.items ≡ cells.old.items ++ take (to - from) (drop from (bytes_in all))) }
{
    for at in from..to {
        let cell = Bytes::of(alloc, cell_of(page, at))?;
        push_cell(cells, cell)?;
    }
    Ok(())
}

// Puts cells behind others.
fn push_all(cells: &mut Vec<Bytes>, more: Vec<Bytes>) -> Result<(), AllocError>
    ensures { OnOk result (cells.new.items ≡ cells.old.items ++ more.items) }
{
    for cell in more {
        push_cell(cells, cell)?;
    }
    Ok(())
}

/// The cells that a page is to have, with those that stay copied out of it.
pub fn changed_cells(
    alloc: Global,
    page: &TreePage,
    change: Change,
    comes: Vec<Bytes>,
) -> Result<Vec<Bytes>, AllocError>
    requires page { IsReadable page.now }
    requires within { index_behind change.at change.goes ≤ length page.now.views }
    ensures { IfOk result (λ made. (usable : ℕ) (cells : List Spelled) → HasSpelled usable page.now cells → made.items ≡ bytes_changed cells change comes.items) }
{
    let mut cells = Vec::new(alloc);
    copy_cells(alloc, page, 0, change.at, &mut cells)?;
    push_all(&mut cells, comes)?;
    let end = page.views.as_slice().len();
    copy_cells(alloc, page, behind(change.at, change.goes), end, &mut cells)?;
    Ok(cells)
}
