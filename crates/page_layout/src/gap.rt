// Puts a cell into a page that is not decoded.
ghost use Rattle.std.specs.Prelude.{◌≡◌, ◌+◌, ◌<◌, ◌≤◌, ℕ, List, false, IsTrue, length};
ghost use Rattle.std.specs.List.{insert};
ghost use Rattle.format_spec.specs.Page.{IsPage, cell_count, cell_place};
ghost use Rattle.format_spec.specs.Sizes.{IsUsable};
ghost use Rattle.page_spec.specs.Rooms.{IsOneCell, KeepsRest, array_end};
ghost use Rattle.page_layout.specs.Views.{HasKind};

use crate::pack::tells_of_holes;
use crate::places::{count_of, place_of};
use crate::put::{header_length, header_place, put_at, room};
use cell_codec::PageKind;

// Where the lowest of so many cells begins, or the end of the usable bytes.
fn lowest_place(page: &[u8], number: u32, usable: u32, kind: PageKind, count: usize) -> usize
    requires array { array_end number kind count ≤ length page.now }
    requires few { count < 65536 }
    ensures lowest { (k : ℕ) → k < count → result ≤ cell_place page.now number kind k }
    ensures most { result ≤ usable }
{
    let mut lowest = usable as usize;
    for index in 0..count {
        lowest = lowest.min(place_of(page, number, kind, index as u32));
    }
    lowest
}

/// Puts a cell into a page of this kind whose cells are not decoded, at an index of its array, and answers whether it did (Database File Format, section 1.6). No other cell moves. It does not, and leaves the page as it was, where the bytes between the array and the lowest cell are too few for the cell and its place, or the header tells of a freeblock or of fragments: `insert_cell` may have room for it then.
pub fn insert_in_gap(
    page: &mut [u8],
    number: u32,
    usable: u32,
    kind: PageKind,
    at: usize,
    cell: &[u8],
) -> bool
    requires usable { IsUsable usable }
    requires whole { usable ≤ length page.old }
    requires long { length page.old ≤ 65536 }
    requires array { array_end number kind (cell_count page.old number) ≤ usable }
    requires at { at ≤ cell_count page.old number }
    requires cell { IsOneCell kind usable cell.now }
    ensures inserted { IsTrue result → (cells : List (List ℕ)) (right : ℕ) → IsPage page.old number usable kind cells right → IsPage page.new number usable kind (insert cells at cell.now) right }
    ensures full { result ≡ false → page.new ≡ page.old }
    ensures whole { length page.new ≡ length page.old }
    ensures rest { KeepsRest number usable page.old page.new }
{
    if tells_of_holes(page, number) {
        return false;
    }
    let header = header_place(number);
    let array = header + header_length(kind);
    let count = count_of(page, number);
    let lowest = lowest_place(page, number, usable, kind, count);
    let room = room(cell.len());
    if array + 2 * (count + 1) + room > lowest {
        return false;
    }
    put_at(page, header, array, count, at, lowest - room, cell);
    true
}
