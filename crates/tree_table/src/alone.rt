// Deletes a row from the leaf in which it belongs, where that changes no other page.
ghost use Rattle.std.specs.Prelude.{◌≡◌, ◌≤◌, [], IfErr, IfNone, IfOk, IfSome, Some, length};
ghost use Rattle.format_spec.specs.declared.PageKind.TheVariants.{TableLeaf};
ghost use Rattle.delete_spec.specs.Steps.{GrowsUnder};
ghost use Rattle.page_spec.specs.Pages.{Pages};
ghost use Rattle.page_store.specs.Store.{HasSizes, OwesBy};
ghost use Rattle.table_leaf.specs.Leaves.{LeadsTo};
ghost use Rattle.tree_pages.specs.Writers.{Becomes, paged, sizes_of};
ghost use Rattle.tree_spec.specs.Faults.{IsOther, fault_in};
ghost use Rattle.tree_walk.specs.Pages.{IsDecoded};
ghost use Rattle.tree_table.specs.Needs.{IsOtherTable, RefusesAt};
ghost use Rattle.tree_table.specs.Deletes.{DeletesTable, gone_of};

use crate::taking::{Taken, find_row, write_without};
use cell_codec::PageKind;
use page_store::{PageRead, PageWrite, page_buffer};
use std::alloc::Global;
use table_leaf::find_leaf;
use tree_pages::TreeFault;
use tree_walk::{TreePage, read_page};

// The leaf in which a rowid belongs below a page that has at most so many levels of pages below it.
fn leaf_number<S: PageRead>(
    alloc: Global,
    store: &mut S,
    root: u32,
    levels: u32,
    rowid: i64,
) -> Result<Option<u32>, TreeFault<S::Fault>>
    requires sizes { HasSizes S.PageRead store.old }
    requires first { 1 ≤ root }
    requires within { root ≤ S.count store.old }
    ensures leads { (m : Pages) → S.pages store.old ≡ Some m → IfOk result (λ found. IfSome found (LeadsTo (sizes_of S.PageRead store.old) (paged S.PageRead store.old m) rowid root)) }
    ensures first { IfOk result (λ found. IfSome found (λ leaf. 1 ≤ leaf)) }
    ensures within { IfOk result (λ found. IfSome found (λ leaf. leaf ≤ S.count store.old)) }
    ensures same { S.pages store.new ≡ S.pages store.old }
    ensures count { S.count store.new ≡ S.count store.old }
    ensures other { IfErr result IsOther }
    ensures owes { OwesBy S.PageRead fault_in store.old store.new result }
{
    let mut buffer = page_buffer(alloc, store.page_size())?;
    find_leaf(store, root, levels, rowid, buffer.as_mut_slice())
}

// Deletes the row of a rowid from a leaf that keeps a cell. None where it has no such row or no other cell, and then nothing changed. Refuses [55] with `chain`.
fn shrink_alone<S: PageWrite>(
    alloc: Global,
    store: &mut S,
    page: TreePage,
    rowid: i64,
) -> Result<Option<Taken>, TreeFault<S::Fault>>
    requires sizes { HasSizes S.PageRead store.old }
    requires first { 1 ≤ page.number }
    requires on_page { page.number ≤ S.count store.old }
    requires page { IsDecoded page.bytes page.number (S.usable store.old) page }
    requires whole { length page.bytes ≡ S.size store.old }
    requires kind { page.kind ≡ TableLeaf }
    ensures deleted { IfOk result (λ taken. IfSome taken (λ row. Becomes S.PageRead store.old store.new (λ a b. a.pages page.number ≡ page.bytes
        → GrowsUnder (sizes_of S.PageRead store.old) (gone_of rowid row) page.number a b [] row.old.first row.old.bytes))) }
    ensures none { IfOk result (λ taken. IfNone taken (S.pages store.new ≡ S.pages store.old)) }
    ensures count { S.count store.new ≡ S.count store.old }
    ensures refuses { RefusesAt S.PageRead page store.old result }
    ensures owes { OwesBy S.PageRead fault_in store.old store.new result }
{
    if page.views.as_slice().len() < 2 {
        return Ok(None);
    }
    let sought = find_row(alloc, store, &page, rowid)?;
    match sought {
        None => Ok(None),
        Some(found) => {
            write_without(alloc, store, page, found.change)?;
            Ok(Some(found.row))
        }
    }
}

/// Deletes the row of a rowid from the table of a root, where its leaf is not the root and keeps a cell: then no other page is changed. None where that is not so, or no such row or no leaf is found, and then nothing changed. Refuses [55] with `kind`, `cells` or `chain`.
pub fn delete_alone<S: PageWrite>(
    alloc: Global,
    store: &mut S,
    root: u32,
    levels: u32,
    rowid: i64,
) -> Result<Option<Taken>, TreeFault<S::Fault>>
    requires sizes { HasSizes S.PageRead store.old }
    requires first { 1 ≤ root }
    requires within { root ≤ S.count store.old }
    ensures deleted { IfOk result (λ taken. IfSome taken (λ row. Becomes S.PageRead store.old store.new (DeletesTable (sizes_of S.PageRead store.old) root rowid row))) }
    ensures none { IfOk result (λ taken. IfNone taken (S.pages store.new ≡ S.pages store.old)) }
    ensures count { S.count store.new ≡ S.count store.old }
    ensures refuses { (m : Pages) → S.pages store.old ≡ Some m → IfErr result (IsOtherTable (sizes_of S.PageRead store.old) root (paged S.PageRead store.old m)) }
    ensures owes { OwesBy S.PageRead fault_in store.old store.new result }
{
    let found = leaf_number(alloc, store, root, levels, rowid)?;
    let Some(number) = found else {
        return Ok(None);
    };
    if number == root {
        return Ok(None);
    }
    let page = read_page(alloc, store, number)?;
    match page.kind {
        PageKind::TableLeaf => shrink_alone(alloc, store, page, rowid),
        PageKind::TableInterior | PageKind::IndexLeaf | PageKind::IndexInterior => Ok(None),
    }
}
