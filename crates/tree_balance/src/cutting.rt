// Where the cells of a page are cut.
ghost use Rattle.std.specs.Prelude.{◌≡◌, ◌+◌, ◌-◌, ◌*◌, ◌<◌, ◌≤◌, length, take, drop};
ghost use Rattle.std.specs.List.{All};
ghost use Rattle.format_spec.specs.Page.{cell_room};
ghost use Rattle.format_spec.specs.Sizes.{IsUsable};
ghost use Rattle.page_spec.specs.Rooms.{IsOneCell, needs as bytes_needed};
ghost use Rattle.tree_balance.specs.Cuts.{page_room, risen as cells_risen};

use cell_codec::PageKind;
use page_layout::needs;
use rbu_value::Bytes;

/// The bytes that a page other than page 1 has for cells and their places.
pub fn room_of(kind: PageKind, usable: u32) -> u64
    requires { 12 ≤ usable }
    ensures { result ≡ page_room kind usable }
{
    match kind {
        PageKind::TableLeaf | PageKind::IndexLeaf => u64::from(usable) - 8,
        PageKind::TableInterior | PageKind::IndexInterior => u64::from(usable) - 12,
    }
}

/// How many cells go up where a page is cut: one, but none of a table's leaf, which keeps them all.
pub fn risen(kind: PageKind) -> usize
    ensures { result ≡ cells_risen kind }
{
    match kind {
        PageKind::TableLeaf => 0,
        PageKind::TableInterior | PageKind::IndexLeaf | PageKind::IndexInterior => 1,
    }
}

/// The bytes that one cell needs.
pub fn need(cell: &Bytes) -> u64
    requires { cell_room cell.now ≤ 65536 }
    ensures { result ≡ cell_room cell.now + 2 }
{
    cell.as_slice().len().max(4) as u64 + 2
}

/// How many cells from the left need no more bytes than a limit.
pub fn filled(cells: &[Bytes], limit: u64) -> usize
    requires limit { limit ≤ 65536 }
    requires each { All (λ cell. cell_room cell ≤ 65536) cells.now }
    ensures within { result ≤ length cells.now }
    ensures fits { bytes_needed (take result cells.now) ≤ limit }
    ensures full { result < length cells.now → limit < bytes_needed (take (result + 1) cells.now) }
{
    let mut sum = 0;
    for (at, cell) in cells.iter().enumerate() {
        let more = sum + need(cell);
        if more > limit {
            return at;
        }
        sum = more;
    }
    cells.len()
}

// How many cells at the front need no more than a limit, one at least and not more than `most`.
fn front_within(cells: &[Bytes], room: u64, limit: u64, most: usize) -> usize
    requires room { room ≤ 65536 }
    requires limit { limit ≤ room }
    requires each { All (λ cell. cell_room cell + 2 ≤ room) cells.now }
    requires some { 1 ≤ most }
    requires within { most ≤ length cells.now }
    ensures some { 1 ≤ result }
    ensures most { result ≤ most }
    ensures fits { bytes_needed (take result cells.now) ≤ room }
    ensures full { result < most → limit < bytes_needed (take (result + 1) cells.now) }
{
    filled(&cells[..most], limit).max(1)
}

/// Where cells that one page has no room for are cut: so many of them go to a new page in front, and of the others the first goes up to the parent, but in a table's leaf. `place` is the index of the cell that is new. Where it comes last a new page begins with it, so that cells that come in order leave full pages; else the front takes half of the bytes. The time is linear in the cells.
pub fn cut(cells: &[Bytes], kind: PageKind, usable: u32, place: usize) -> usize
    requires usable { IsUsable usable }
    requires cells { All (IsOneCell kind usable) cells.now }
    requires over { page_room kind usable < bytes_needed cells.now }
    requires place { place < length cells.now }
    ensures front { 1 ≤ result }
    ensures back { result + cells_risen kind < length cells.now }
    ensures fits { bytes_needed (take result cells.now) ≤ page_room kind usable }
    ensures last { place + 1 ≡ length cells.now → bytes_needed (take (length cells.now - (cells_risen kind + 1)) cells.now) ≤ page_room kind usable
        → result + (cells_risen kind + 1) ≡ length cells.now }
    ensures half { bytes_needed cells.now ≤ 2 * page_room kind usable → 2 * bytes_needed (drop (result + (cells_risen kind + 1)) cells.now) ≤ bytes_needed cells.now }
{
    let room = room_of(kind, usable);
    let most = cells.len() - (risen(kind) + 1);
    if place + 1 == cells.len() && needs(&cells[..most]) <= room {
        return most;
    }
    let half = needs(cells) / 2;
    front_within(cells, room, half.min(room), most)
}
