// Changes a page by one cell.
ghost use Rattle.std.specs.Prelude.{◌≡◌, ◌+◌, ◌*◌, ◌-◌, ◌<◌, ◌≤◌, ℕ, List, OnOk, OnErr, max, length};
ghost use Rattle.std.specs.List.{insert, remove};
ghost use Rattle.format_spec.specs.declared.PageKind.{PageKind};
ghost use Rattle.format_spec.specs.Page.{cell_count, cell_room};
ghost use Rattle.page_spec.specs.Rooms.{HasNoHole, IsOneCell, IsWritten, KeepsRest, array_end, free_bytes};
ghost use Rattle.page_layout.specs.Accepted.{IsChangeable, OfCells};
ghost use Rattle.page_layout.specs.NoRoom.{Fits};
ghost use Rattle.page_layout.specs.Views.{HasKind};
ghost use Rattle.page_layout.specs.Written.{KeepsPlaces};
ghost use Rattle.page_layout.specs.Changed.{Inserts};

use crate::pack::{measure, pack_into, tells_of_holes};
use crate::put::{Layout, header_length, header_place, put_cell, room};
use crate::rebuilding::NoRoom;
use crate::take::take_cell;

// Whether a page has room for one cell of this size more, and for its place.
fn check_room(layout: &Layout, size: usize) -> Result<(), NoRoom>
    requires { array_end layout.now.number layout.now.kind layout.now.count ≤ layout.now.bottom }
    ensures { Fits (max 4 size + 2) (layout.now.bottom - array_end layout.now.number layout.now.kind layout.now.count) result }
{
    let array = header_place(layout.number) + header_length(layout.kind);
    let needs = (room(size) as u64).saturating_add(2);
    let free = (layout.bottom - (array + 2 * layout.count)) as u64;
    if needs > free {
        return Err(NoRoom { needs, free });
    }
    Ok(())
}

// The same as `insert_cell`, over a buffer of 65536 bytes, where the page may have holes.
fn insert_over(
    page: &mut [u8],
    buffer: &mut [u8],
    number: u32,
    usable: u32,
    at: u32,
    cell: &[u8],
) -> Result<(), NoRoom>
    requires page { IsChangeable page.old number usable }
    requires buffer { length buffer.old ≡ 65536 }
    requires at { at ≤ cell_count page.old number }
    requires cell { (kind : PageKind) × HasKind page.old number kind × IsOneCell kind usable cell.now }
    ensures room { OfCells page.old number usable (λ kind cells right. Fits (cell_room cell.now + 2) (free_bytes number usable kind cells) result) }
    ensures inserts { OnOk result (Inserts page.old page.new number usable at cell.now) }
    ensures full { OnErr result (page.new ≡ page.old) }
{
    let buffer = &mut buffer[..page.len()];
    let measured = pack_into(page, buffer, number, usable);
    let mut layout = measured.layout;
    if let Err(full) = check_room(&layout, cell.len()) {
        return Err(full);
    }
    if measured.packed {
        put_cell(page, &mut layout, at as usize, cell);
        return Ok(());
    }
    put_cell(buffer, &mut layout, at as usize, cell);
    page.copy_from_slice(buffer);
    Ok(())
}

// The same as `insert_cell`, where the page may have holes.
fn insert_packing(
    page: &mut [u8],
    number: u32,
    usable: u32,
    at: u32,
    cell: &[u8],
) -> Result<(), NoRoom>
    requires page { IsChangeable page.old number usable }
    requires at { at ≤ cell_count page.old number }
    requires cell { (kind : PageKind) × HasKind page.old number kind × IsOneCell kind usable cell.now }
    ensures room { OfCells page.old number usable (λ kind cells right. Fits (cell_room cell.now + 2) (free_bytes number usable kind cells) result) }
    ensures inserts { OnOk result (Inserts page.old page.new number usable at cell.now) }
    ensures full { OnErr result (page.new ≡ page.old) }
{
    let mut buffer = [0u8; 65536];
    insert_over(page, &mut buffer, number, usable, at, cell)
}

/// Puts a cell into a page that `cells` accepts, at an index of its array, in place (Database File Format, section 1.6). Where the page has no hole between its cells no other cell moves, else the page is packed once. `NoRoom` where the cell and its place need more than the free bytes, and then the page stays as it was. The cells are decoded once, but for a page whose header does not tell of the holes that it has.
pub fn insert_cell(
    page: &mut [u8],
    number: u32,
    usable: u32,
    at: u32,
    cell: &[u8],
) -> Result<(), NoRoom>
    requires page { IsChangeable page.old number usable }
    requires at { at ≤ cell_count page.old number }
    requires cell { (kind : PageKind) × HasKind page.old number kind × IsOneCell kind usable cell.now }
    ensures room { OfCells page.old number usable (λ kind cells right. Fits (cell_room cell.now + 2) (free_bytes number usable kind cells) result) }
    ensures written { OnOk result (OfCells page.old number usable (λ kind cells right. IsWritten page.new number usable kind (insert cells at cell.now) right)) }
    ensures still { OnOk result (OfCells page.old number usable (λ kind cells right. HasNoHole page.old number usable kind cells → KeepsPlaces page.old page.new number kind (length cells) at)) }
    ensures full { OnErr result (page.new ≡ page.old) }
    ensures rest { KeepsRest number usable page.old page.new }
{
    if tells_of_holes(page, number) {
        return insert_packing(page, number, usable, at, cell);
    }
    let measured = measure(page, number, usable);
    if !measured.packed {
        return insert_packing(page, number, usable, at, cell);
    }
    let mut layout = measured.layout;
    if let Err(full) = check_room(&layout, cell.len()) {
        return Err(full);
    }
    put_cell(page, &mut layout, at as usize, cell);
    Ok(())
}

// The same as `remove_cell`, over a buffer of 65536 bytes, where the page may have holes.
fn remove_over(page: &mut [u8], buffer: &mut [u8], number: u32, usable: u32, at: u32)
    requires page { IsChangeable page.old number usable }
    requires buffer { length buffer.old ≡ 65536 }
    requires at { at < cell_count page.old number }
    ensures written { OfCells page.old number usable (λ kind cells right. IsWritten page.new number usable kind (remove cells at) right) }
    ensures rest { KeepsRest number usable page.old page.new }
{
    let buffer = &mut buffer[..page.len()];
    let measured = pack_into(page, buffer, number, usable);
    page.copy_from_slice(buffer);
    take_cell(page, measured.layout, at as usize);
}

// The same as `remove_cell`, where the page may have holes.
fn remove_packing(page: &mut [u8], number: u32, usable: u32, at: u32)
    requires page { IsChangeable page.old number usable }
    requires at { at < cell_count page.old number }
    ensures written { OfCells page.old number usable (λ kind cells right. IsWritten page.new number usable kind (remove cells at) right) }
    ensures rest { KeepsRest number usable page.old page.new }
{
    let mut buffer = [0u8; 65536];
    remove_over(page, &mut buffer, number, usable, at);
}

/// Takes the cell at an index of the array out of a page that `cells` accepts, in place (Database File Format, section 1.6). No hole is left, also none that stood there before. The cells are decoded once, and the one that goes once more.
pub fn remove_cell(page: &mut [u8], number: u32, usable: u32, at: u32)
    requires page { IsChangeable page.old number usable }
    requires at { at < cell_count page.old number }
    ensures written { OfCells page.old number usable (λ kind cells right. IsWritten page.new number usable kind (remove cells at) right) }
    ensures rest { KeepsRest number usable page.old page.new }
{
    if tells_of_holes(page, number) {
        remove_packing(page, number, usable, at);
        return;
    }
    let measured = measure(page, number, usable);
    if !measured.packed {
        remove_packing(page, number, usable, at);
        return;
    }
    take_cell(page, measured.layout, at as usize);
}
