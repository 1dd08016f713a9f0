// Takes a cell out of a page.
ghost use Rattle.std.specs.Prelude.{◌≡◌, ◌+◌, ◌*◌, ◌<◌, ◌≤◌, ℕ, List, length};
ghost use Rattle.std.specs.List.{remove};
ghost use Rattle.format_spec.specs.Sizes.{IsUsable};
ghost use Rattle.page_spec.specs.Rooms.{IsWritten, KeepsRest, array_end};
ghost use Rattle.page_layout.specs.Taken.{DropsPlace, Moves, MovesPlaces, TakesCell};
ghost use Rattle.page_layout.specs.Written.{IsPacked};

use crate::places::{Span, span_of};
use crate::put::{Layout, header_length, header_place, put_counts, room};
use byte_fields::{put_u16, u16_at};

// A cell's place, moved up by so much where it is below a place.
fn moved_up(found: usize, place: usize, by: usize) -> usize
    requires found { found < 65536 }
    requires most { place + by ≤ 65536 }
    ensures value { Moves place by found result }
    ensures fits { result < 65536 }
{
    if found < place { found + by } else { found }
}

// Moves up by so much each place of an array of so many that is below a place.
fn move_places(page: &mut [u8], array: usize, count: usize, place: usize, by: usize)
    requires array { array + 2 * count ≤ length page.old }
    requires most { place + by ≤ 65536 }
    ensures { MovesPlaces page.old page.new array count place by }
{
    for index in 0..count {
        let pointer = array + 2 * index;
        let found = usize::from(u16_at(page, pointer));
        put_u16(page, pointer, moved_up(found, place, by) as u16);
    }
}

// Takes the place at an index out of an array of so many.
fn drop_place(page: &mut [u8], array: usize, count: usize, at: usize)
    requires at { at < count }
    requires array { array + 2 * count ≤ length page.old }
    ensures { DropsPlace page.old page.new array count at }
{
    let pointer = array + 2 * at;
    page.copy_within(pointer + 2..array + 2 * count, pointer);
}

// Takes the cell at an index out of a page of so many, of which the lowest begins at `bottom`.
fn take_at(
    page: &mut [u8],
    header: usize,
    array: usize,
    count: usize,
    at: usize,
    bottom: usize,
    cell: Span,
)
    requires at { at < count }
    requires header { header + 8 ≤ array }
    requires array { array + 2 * count ≤ bottom }
    requires place { bottom ≤ cell.place }
    requires within { cell.place + cell.size ≤ length page.old }
    requires long { length page.old ≤ 65536 }
    ensures { TakesCell page.old page.new header array count at bottom cell.place cell.size }
{
    page.copy_within(bottom..cell.place, bottom + cell.size);
    move_places(page, array, count, cell.place, cell.size);
    drop_place(page, array, count, at);
    put_counts(page, header, count - 1, bottom + cell.size);
}

/// Takes the cell at an index of the array out of a page without a hole, and closes its place.
pub fn take_cell(page: &mut [u8], layout: Layout, at: usize)
    requires usable { IsUsable layout.usable }
    requires whole { layout.usable ≤ length page.old }
    requires long { length page.old ≤ 65536 }
    requires packed { (cells : List (List ℕ)) × (right : ℕ) × IsPacked page.old layout cells right }
    requires at { at < layout.count }
    ensures written { (cells : List (List ℕ)) (right : ℕ) → IsPacked page.old layout cells right → IsWritten page.new layout.number layout.usable layout.kind (remove cells at) right }
    ensures rest { KeepsRest layout.number layout.usable page.old page.new }
{
    let header = header_place(layout.number);
    let array = header + header_length(layout.kind);
    let cell = span_of(page, layout.number, layout.usable, layout.kind, at);
    let room = Span {
        place: cell.place,
        size: room(cell.size),
    };
    take_at(page, header, array, layout.count, at, layout.bottom, room);
}
