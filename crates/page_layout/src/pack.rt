// Measures the cells of an accepted page, and lays them without a hole.
ghost use Rattle.std.specs.Prelude.{◌≡◌, ◌+◌, ◌*◌, ◌<◌, ◌≤◌, ℕ, List, length};
ghost use Rattle.format_spec.specs.declared.PageKind.{PageKind};
ghost use Rattle.format_spec.specs.Sizes.{IsUsable};
ghost use Rattle.page_spec.specs.Rooms.{KeepsRest};
ghost use Rattle.page_layout.specs.Accepted.{IsAccepted, OfCells};
ghost use Rattle.page_layout.specs.Measuring.{IsMeasured};
ghost use Rattle.page_layout.specs.Written.{IsLaid};

use crate::places::{count_of, kind_of, right_child, span_of};
use crate::put::{Layout, header_place, put_cell, room};
use crate::rebuilding::clear;
use byte_fields::u16_at;

/// What the cells of a page take.
#[derive(Clone, Copy)]
pub struct Measured {
    /// The page as it is once its cells lie without a hole.
    pub layout: Layout,
    /// They lie so already.
    pub packed: bool,
}

/// Whether the header of a page tells of a freeblock or of fragments. It may lie.
pub fn tells_of_holes(page: &[u8], number: u32) -> bool
    requires { 480 ≤ length page.now }
{
    let header = header_place(number);
    u16_at(page, header + 1) != 0 || page[header + 7] != 0
}

/// Measures the cells of a page.
pub fn measure(page: &[u8], number: u32, usable: u32) -> Measured
    requires usable { IsUsable usable }
    requires whole { usable ≤ length page.now }
    requires accepted { IsAccepted page.now number usable }
    ensures { OfCells page.now number usable (λ kind cells right. IsMeasured page.now number usable kind cells result) }
{
    let kind = kind_of(page, number);
    let count = count_of(page, number);
    let mut bottom = usable as usize;
    let mut lowest = bottom;
    for index in 0..count {
        let cell = span_of(page, number, usable, kind, index);
        bottom -= room(cell.size);
        lowest = lowest.min(cell.place);
    }
    Measured {
        layout: Layout {
            number,
            usable,
            kind,
            count,
            bottom,
        },
        packed: bottom <= lowest,
    }
}

/// Writes a page over a buffer of its size, with its cells in order and without a hole, and measures them.
pub fn pack_into(page: &[u8], buffer: &mut [u8], number: u32, usable: u32) -> Measured
    requires usable { IsUsable usable }
    requires whole { usable ≤ length page.now }
    requires long { length page.now ≤ 65536 }
    requires accepted { IsAccepted page.now number usable }
    requires size { length buffer.old ≡ length page.now }
    ensures measured { OfCells page.now number usable (λ kind cells right. IsMeasured page.now number usable kind cells result) }
    ensures laid { OfCells page.now number usable (λ kind cells right. IsLaid buffer.new result.layout cells right) }
    ensures rest { KeepsRest number usable page.now buffer.new }
{
    buffer.copy_from_slice(page);
    let kind = kind_of(page, number);
    let count = count_of(page, number);
    let right = right_child(page, number, kind);
    let mut layout = clear(buffer, number, usable, kind, right);
    let mut lowest = usable as usize;
    for index in 0..count {
        let cell = span_of(page, number, usable, kind, index);
        lowest = lowest.min(cell.place);
        put_cell(
            buffer,
            &mut layout,
            index,
            &page[cell.place..cell.place + cell.size],
        );
    }
    Measured {
        layout,
        packed: layout.bottom <= lowest,
    }
}
