// Puts a row into the leaf in which it belongs.
ghost use Rattle.std.specs.Prelude.{◌≡◌, ◌≢◌, ◌≤◌, ℕ, ℤ, false, IfErr, IfOk, IfSome, IsTrue, List, length, slice_get};
ghost use Rattle.format_spec.specs.declared.PageKind.TheVariants.{TableLeaf};
ghost use Rattle.page_layout.specs.Views.{HasKind};
ghost use Rattle.page_spec.specs.Rooms.{IsOneCell, KeepsRest};
ghost use Rattle.format_spec.specs.Sizes.{IsUsable};
ghost use Rattle.page_store.specs.Store.{HasSizes, OwesBy};
ghost use Rattle.put_spec.specs.Children.{Meets};
ghost use Rattle.put_spec.specs.Steps.{Spelled, views_in};
ghost use Rattle.tree_pages.specs.Writers.{Becomes, sizes_of};
ghost use Rattle.tree_spec.specs.Faults.{IsOther, fault_in};
ghost use Rattle.table_leaf.specs.Leaves.{PlacesRow, PutsAlone};
ghost use Rattle.page_shape.specs.Shapes.{AreCells, HasShape};

use crate::finding::find_leaf;
use crate::searching::index_of;
use cell_codec::CellView;
use page_layout::insert_in_gap;
use page_shape::{Shape, shape_of, view_at};
use page_store::{PageWrite, page_buffer};
use std::alloc::Global;
use tree_spec::TreeFault;

// Whether a cell has a rowid.
fn has_rowid(view: &CellView, rowid: i64) -> bool
    ensures met { IsTrue result → view.now.rowid ≡ rowid }
    ensures other { result ≡ false → view.now.rowid ≢ rowid }
{
    view.rowid == rowid
}

// Whether no cell has a rowid at the index at which it belongs. False also where the cell there does not decode.
fn is_new(page: &[u8], shape: Shape, at: usize, rowid: i64) -> bool
    requires { HasShape page.now shape }
    ensures { IsTrue result → (cells : List Spelled) (right : ℕ) → AreCells page.now shape.number shape.usable shape.kind cells right → ¬ Meets rowid at (views_in cells) }
{
    if at >= shape.count {
        return true;
    }
    match view_at(page, shape, at) {
        Some(view) => !has_rowid(&view, rowid),
        None => false,
    }
}

// Puts the cell of a row into the bytes of a leaf, where that has no row of the rowid, and room for the cell between its array and its cells.
fn place_row(page: &mut [u8], number: u32, usable: u32, rowid: i64, cell: &[u8]) -> bool
    requires usable { IsUsable usable }
    requires whole { usable ≤ length page.old }
    requires long { length page.old ≤ 65536 }
    requires kind { HasKind page.old number TableLeaf }
    requires cell { IsOneCell TableLeaf usable cell.now }
    ensures placed { IsTrue result → PlacesRow number usable rowid cell.now page.old page.new }
    ensures rest { KeepsRest number usable page.old page.new }
    ensures whole { length page.new ≡ length page.old }
{
    let Some(shape) = shape_of(page, number, usable) else {
        return false;
    };
    let Some(at) = index_of(page, shape, rowid) else {
        return false;
    };
    if !is_new(page, shape, at, rowid) {
        return false;
    }
    insert_in_gap(page, number, usable, shape.kind, at, cell)
}

/// Puts a row into the leaf in which it belongs below a page that has at most so many levels of pages below it, and answers whether it did: it does not where the leaf has a row of the rowid, where there is no room for the cell between its array and its cells, and where no leaf is found. Then nothing changed.
pub fn put_in_leaf<S: PageWrite>(
    alloc: Global,
    store: &mut S,
    number: u32,
    levels: u32,
    rowid: i64,
    cell: &[u8],
) -> Result<bool, TreeFault<S::Fault>>
    requires sizes { HasSizes S.PageRead store.old }
    requires first { 1 ≤ number }
    requires within { number ≤ S.count store.old }
    requires cell { IsOneCell TableLeaf (S.usable store.old) cell.now }
    ensures put { IfOk result (λ did. IsTrue did → Becomes S.PageRead store.old store.new (PutsAlone (sizes_of S.PageRead store.old) number rowid cell.now)) }
    ensures same { IfOk result (λ did. did ≡ false → S.pages store.new ≡ S.pages store.old) }
    ensures count { S.count store.new ≡ S.count store.old }
    ensures other { IfErr result IsOther }
    ensures owes { OwesBy S.PageRead fault_in store.old store.new result }
{
    let mut buffer = page_buffer(alloc, store.page_size())?;
    let page = buffer.as_mut_slice();
    let found = find_leaf(store, number, levels, rowid, page)?;
    let Some(leaf) = found else {
        return Ok(false);
    };
    if !place_row(page, leaf, store.usable(), rowid, cell) {
        return Ok(false);
    }
    match store.set_page(leaf, page) {
        Ok(()) => Ok(true),
        Err(fault) => Err(TreeFault::Store(fault)),
    }
}
