// Writes a page anew.
ghost use Rattle.std.specs.Prelude.{◌≡◌, ◌+◌, ◌*◌, ◌-◌, ◌<◌, ◌≤◌, ◌^◌, ◌⊎◌, ℕ, List, [], ◌++◌, OnOk, OnErr, min, length, slice_index};
ghost use Rattle.std.specs.List.{All};
ghost use Rattle.format_spec.specs.Page.{RightChild, header_length as length_of_header, kind_byte as byte_of};
ghost use Rattle.format_spec.specs.Sizes.{IsUsable};
ghost use Rattle.page_spec.specs.Rooms.{IsOneCell, IsWritten, KeepsRest, array_end, free_bytes, needs as bytes_needed, right_kept, rooms};
ghost use Rattle.page_layout.specs.Written.{HasEmptyHeader, IsLaid, LaidOn};
ghost use Rattle.page_layout.specs.NoRoom.{Fits};

use crate::put::{Layout, header_length, header_place, put_cell, put_counts, room};
use byte_fields::{put_u8, put_u32};
use cell_codec::PageKind;
use rbu_value::Bytes;
use thiserror::Error;

/// Cells have no room in a page. Both numbers are bytes.
#[derive(Clone, Copy, Debug, PartialEq, Eq, Error)]
#[error("{needs} bytes are needed, and {free} are free")]
pub struct NoRoom {
    /// The room of the cells, and two bytes for the place of each; at most 2^64 - 1.
    pub needs: u64,
    /// The free bytes of the page.
    pub free: u64,
}

/// The byte that stands for a kind of page.
pub fn kind_byte(kind: PageKind) -> u8
    ensures { result ≡ byte_of kind }
{
    match kind {
        PageKind::TableLeaf => 13,
        PageKind::TableInterior => 5,
        PageKind::IndexLeaf => 10,
        PageKind::IndexInterior => 2,
    }
}

// Writes the right child that a page of the kind has.
fn put_right(page: &mut [u8], header: usize, kind: PageKind, right: u32)
    requires { header + length_of_header kind ≤ length page.old }
    ensures right { RightChild kind page.new header (right_kept kind right) }
    ensures rest { (k : ℕ) → (k < header + 8) ⊎ (header + length_of_header kind ≤ k) → slice_index page.new k ≡ slice_index page.old k }
{
    match kind {
        PageKind::TableLeaf | PageKind::IndexLeaf => {}
        PageKind::TableInterior | PageKind::IndexInterior => put_u32(page, header + 8, right),
    }
}

// Writes a page's header for no cells, but for the right child.
fn put_header(page: &mut [u8], header: usize, usable: u32, kind: PageKind)
    requires { header + 8 ≤ length page.old }
    ensures { HasEmptyHeader page.old page.new header usable kind }
{
    put_u8(page, header, kind_byte(kind));
    put_counts(page, header, 0, usable as usize);
}

/// Writes a page without cells.
pub fn clear(page: &mut [u8], number: u32, usable: u32, kind: PageKind, right: u32) -> Layout
    requires usable { IsUsable usable }
    requires whole { usable ≤ length page.old }
    ensures laid { IsLaid page.new result [] (right_kept kind right) }
    ensures layout { result ≡ record { number = number; usable = usable; kind = kind; count = 0; bottom = usable } }
    ensures rest { KeepsRest number usable page.old page.new }
{
    let header = header_place(number);
    put_header(page, header, usable, kind);
    put_right(page, header, kind, right);
    Layout {
        number,
        usable,
        kind,
        count: 0,
        bottom: usable as usize,
    }
}

/// The bytes that cells need: their room, and two bytes for the place of each; at most 2^64 - 1.
pub fn needs(cells: &[Bytes]) -> u64
    ensures { result ≡ min (bytes_needed cells.now) (2 ^ 64 - 1) }
{
    let mut total = 0u64;
    for cell in cells {
        total = total.saturating_add(room(cell.as_slice().len()) as u64 + 2);
    }
    total
}

// Puts cells one behind the other in the array.
fn put_all(page: &mut [u8], layout: &mut Layout, cells: &[Bytes])
    requires cells { All (IsOneCell layout.old.kind layout.old.usable) cells.now }
    requires room { array_end layout.old.number layout.old.kind (layout.old.count + length cells.now) + rooms cells.now ≤ layout.old.bottom }
    requires within { layout.old.bottom ≤ layout.old.usable }
    requires whole { layout.old.usable ≤ length page.old }
    requires long { length page.old ≤ 65536 }
    ensures cells { (before : List (List ℕ)) (right : ℕ) → IsLaid page.old layout.old before right → IsLaid page.new layout.new (before ++ cells.now) right }
    ensures layout { LaidOn layout.old layout.new cells.now }
    ensures rest { KeepsRest layout.old.number layout.old.usable page.old page.new }
{
    for cell in cells {
        let at = layout.count;
        put_cell(page, layout, at, cell.as_slice());
    }
}

/// Writes a page with these cells in order, in place. Where they have no room the page stays as it was.
pub fn rebuild(
    page: &mut [u8],
    number: u32,
    usable: u32,
    kind: PageKind,
    cells: &[Bytes],
    right: u32,
) -> Result<(), NoRoom>
    requires usable { IsUsable usable }
    requires whole { usable ≤ length page.old }
    requires long { length page.old ≤ 65536 }
    requires cells { All (IsOneCell kind usable) cells.now }
    ensures room { Fits (bytes_needed cells.now) (free_bytes number usable kind []) result }
    ensures written { OnOk result (IsWritten page.new number usable kind cells.now (right_kept kind right)) }
    ensures full { OnErr result (page.new ≡ page.old) }
    ensures rest { KeepsRest number usable page.old page.new }
{
    let needs = needs(cells);
    let free = u64::from(usable) - (header_place(number) + header_length(kind)) as u64;
    if needs > free {
        return Err(NoRoom { needs, free });
    }
    let mut layout = clear(page, number, usable, kind, right);
    put_all(page, &mut layout, cells);
    Ok(())
}
