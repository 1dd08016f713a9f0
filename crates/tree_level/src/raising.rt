// The cells that go up to a parent.
ghost use Rattle.std.specs.Prelude.{◌≡◌, ◌≤◌, ◌<◌, ◌+◌, ◌-◌, ◌++◌, IfOk, List, [], ℕ, length, slice_index_or, drop};
ghost use Rattle.std.specs.List.{All};
ghost use Rattle.byteorder.specs.Endian.{big_bytes};
ghost use Rattle.cell_codec.specs.Cells.{interior_cell};
ghost use Rattle.format_spec.specs.declared.CellView.{CellView};
ghost use Rattle.format_spec.specs.declared.PageKind.TheVariants.{TableInterior, TableLeaf};
ghost use Rattle.format_spec.specs.Cell.{IsCell, cell_bytes, child_size};
ghost use Rattle.format_spec.specs.Sizes.{IsUsable};
ghost use Rattle.page_spec.specs.Rooms.{IsOneCell};
ghost use Rattle.tree_level.specs.Levels.{IsDivider, IsEndDivider, left_child};

use byte_fields::{put_u32, u32_at};
use cell_codec::{CellView, PageKind, read_cell, write_cell};
use rbu_value::Bytes;
use std::alloc::{AllocError, Global};

// The view of a cell of a table's leaf.
fn view_of(cell: &[u8], usable: u32) -> CellView
    requires usable { IsUsable usable }
    requires cell { IsOneCell TableLeaf usable cell.now }
    ensures { (view : CellView) → IsCell TableLeaf usable cell.now view → result ≡ view }
{
    match read_cell(PageKind::TableLeaf, usable, cell) {
        Ok(view) => view,
        Err(_) => unreachable!(),
    }
}

/// The cell of a table's interior page with a child and a rowid.
pub fn key_cell(alloc: Global, child: u32, rowid: i64) -> Result<Bytes, AllocError>
    ensures { IfOk result (λ cell. cell ≡ cell_bytes TableInterior (interior_cell child rowid) []) }
{
    let view = CellView {
        size: 0,
        rowid,
        child,
        payload: 0,
        local_at: 0,
        local: 0,
        overflow: 0,
    };
    let mut buffer = [0; 13];
    let size = write_cell(PageKind::TableInterior, &view, &[], &mut buffer);
    Bytes::of(alloc, &buffer[..size])
}

// The cell of a table's interior page with a child and the rowid of a leaf's cell.
fn end_divider(alloc: Global, end: &[u8], usable: u32, child: u32) -> Result<Bytes, AllocError>
    requires usable { IsUsable usable }
    requires cell { IsOneCell TableLeaf usable end.now }
    ensures { IfOk result (IsEndDivider usable end.now child) }
{
    let view = view_of(end, usable);
    key_cell(alloc, child, view.rowid)
}

// A cell that begins with a child, and goes on with these bytes.
fn raised(alloc: Global, child: u32, rest: &[u8]) -> Result<Bytes, AllocError>
    ensures { IfOk result (λ cell. cell ≡ big_bytes 4 child ++ rest.now) }
{
    let mut front = [0; 4];
    put_u32(&mut front, 0, child);
    let mut cell = Vec::from_slice(alloc, &front)?;
    cell.extend_from_slice(rest)?;
    Ok(Bytes::from_vec(cell))
}

// What stands in a cell of an interior page behind its child.
fn behind_child(cell: &[u8]) -> &[u8]
    requires { 4 ≤ length cell.now }
    ensures { result.now ≡ drop 4 cell.now }
{
    &cell[4..]
}

/// The cell that goes up where cells are cut behind a front, which has a page of its own: it names that page as its child. Behind a front of a table's leaf it has the rowid of the front's last cell; else it is the cell behind the front.
pub fn divider_behind(
    alloc: Global,
    cells: &[Bytes],
    front: usize,
    kind: PageKind,
    usable: u32,
    child: u32,
) -> Result<Bytes, AllocError>
    requires usable { IsUsable usable }
    requires cells { All (IsOneCell kind usable) cells.now }
    requires some { 1 ≤ front }
    requires within { front < length cells.now }
    ensures { IfOk result (IsDivider kind usable cells.now front child) }
{
    match kind {
        PageKind::TableLeaf => end_divider(alloc, cells[front - 1].as_slice(), usable, child),
        PageKind::IndexLeaf => raised(alloc, child, cells[front].as_slice()),
        PageKind::TableInterior | PageKind::IndexInterior => {
            raised(alloc, child, behind_child(cells[front].as_slice()))
        }
    }
}

/// The page that a cell names as its left child; 0 for a leaf's cell, which names none.
pub fn child_of(kind: PageKind, cell: &[u8]) -> u32
    requires { child_size kind ≤ length cell.now }
    ensures { result ≡ left_child kind cell.now }
{
    match kind {
        PageKind::TableLeaf | PageKind::IndexLeaf => 0,
        PageKind::TableInterior | PageKind::IndexInterior => u32_at(cell, 0),
    }
}
