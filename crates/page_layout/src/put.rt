// Puts a cell into a page.
ghost use Rattle.std.specs.Prelude.{◌≡◌, ◌+◌, ◌*◌, ◌<◌, ◌≤◌, ◌^◌, ℕ, List, [], length, max};
ghost use Rattle.std.specs.List.{insert};
ghost use Rattle.format_spec.specs.Page.{header_place as place_of_header, header_length as length_of_header, kind_byte, cell_room};
ghost use Rattle.format_spec.specs.Sizes.{IsUsable};
ghost use Rattle.page_spec.specs.Rooms.{array_end, IsOneCell, KeepsRest, right_kept};
ghost use Rattle.page_layout.specs.Written.{PutsCounts, PutsPlace, PutsCell, IsPacked, IsLaid, KeepsPlaces, laid_more};

use byte_fields::{put_u8, put_u16};
use cell_codec::PageKind;

/// A page that is being written.
#[derive(Clone, Copy)]
pub struct Layout {
    pub number: u32,
    pub usable: u32,
    pub kind: PageKind,
    /// How many cells it has.
    pub count: usize,
    /// Where they begin, without a hole up to the end of the usable bytes.
    pub bottom: usize,
}

/// Where a page's header begins: behind the database header on page 1.
pub fn header_place(number: u32) -> usize
    ensures value { result ≡ place_of_header number }
    ensures most { result ≤ 100 }
{
    if number == 1 { 100 } else { 0 }
}

/// How many bytes a page's header has.
pub fn header_length(kind: PageKind) -> usize
    ensures value { result ≡ length_of_header kind }
    ensures least { 8 ≤ result }
    ensures most { result ≤ 12 }
{
    match kind {
        PageKind::TableLeaf | PageKind::IndexLeaf => 8,
        PageKind::TableInterior | PageKind::IndexInterior => 12,
    }
}

/// How many bytes of a page a cell of this size takes: at least four.
pub fn room(size: usize) -> usize
    ensures { result ≡ max 4 size }
{
    4.max(size)
}

/// Writes into a page's header how many cells it has and where they begin, without a freeblock and without a fragment.
pub fn put_counts(page: &mut [u8], header: usize, count: usize, bottom: usize)
    requires room { header + 8 ≤ length page.old }
    requires count { count < 65536 }
    ensures { PutsCounts page.old page.new header count bottom }
{
    put_u16(page, header + 1, 0);
    put_u16(page, header + 3, count as u16);
    put_u16(page, header + 5, (bottom % 65536) as u16);
    put_u8(page, header + 7, 0);
}

// Puts a place into an array of so many, at an index.
fn put_place(page: &mut [u8], array: usize, count: usize, at: usize, place: u16)
    requires at { at ≤ count }
    requires room { array + 2 * (count + 1) ≤ length page.old }
    requires long { length page.old ≤ 65536 }
    ensures { PutsPlace page.old page.new array count at place }
{
    let pointer = array + 2 * at;
    page.copy_within(pointer..array + 2 * count, pointer + 2);
    put_u16(page, pointer, place);
}

/// Puts a cell at a place in front of the others, and its place into the array at an index.
pub fn put_at(
    page: &mut [u8],
    header: usize,
    array: usize,
    count: usize,
    at: usize,
    place: usize,
    cell: &[u8],
)
    requires at { at ≤ count }
    requires header { header + 8 ≤ array }
    requires room { array + 2 * (count + 1) ≤ place }
    requires some { 0 < length cell.now }
    requires within { place + length cell.now ≤ length page.old }
    requires long { length page.old ≤ 65536 }
    ensures { PutsCell page.old page.new header array count at place cell.now }
{
    put_place(page, array, count, at, place as u16);
    put_counts(page, header, count + 1, place);
    page[place..place + cell.len()].copy_from_slice(cell);
}

/// Puts a cell in front of the others, at an index of the array. No other cell moves.
pub fn put_cell(page: &mut [u8], layout: &mut Layout, at: usize, cell: &[u8])
    requires at { at ≤ layout.old.count }
    requires cell { IsOneCell layout.old.kind layout.old.usable cell.now }
    requires room { array_end layout.old.number layout.old.kind (layout.old.count + 1) + cell_room cell.now ≤ layout.old.bottom }
    requires within { layout.old.bottom ≤ layout.old.usable }
    requires whole { layout.old.usable ≤ length page.old }
    requires long { length page.old ≤ 65536 }
    ensures cells { (cells : List (List ℕ)) (right : ℕ) → IsPacked page.old layout.old cells right → IsLaid page.new layout.new (insert cells at cell.now) right }
    ensures layout { layout.new ≡ laid_more layout.old (cell_room cell.now) }
    ensures still { KeepsPlaces page.old page.new layout.old.number layout.old.kind layout.old.count at }
    ensures rest { KeepsRest layout.old.number layout.old.usable page.old page.new }
{
    let header = header_place(layout.number);
    let array = header + header_length(layout.kind);
    let place = layout.bottom - room(cell.len());
    put_at(page, header, array, layout.count, at, place, cell);
    layout.count += 1;
    layout.bottom = place;
}
