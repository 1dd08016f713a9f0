// Takes a row out of a leaf.
ghost use Rattle.std.specs.Prelude.{◌≡◌, ◌≤◌, ◌<◌, true, [], IfErr, IfOk, IfSome, OnOk, Some, length};
ghost use Rattle.format_spec.specs.declared.PageKind.TheVariants.{TableLeaf};
ghost use Rattle.page_spec.specs.Pages.{Pages};
ghost use Rattle.page_store.specs.Store.{HasSizes, OwesBy};
ghost use Rattle.tree_level.specs.Changes.{WritesChange};
ghost use Rattle.tree_pages.specs.Takes.{UsesBy};
ghost use Rattle.tree_pages.specs.Writers.{Becomes, paged, sizes_of};
ghost use Rattle.tree_spec.specs.Faults.{IsOther, fault_in};
ghost use Rattle.tree_walk.specs.Pages.{IsDecoded};
ghost use Rattle.tree_table.specs.Needs.{RefusesAt, Whenever};
ghost use Rattle.tree_table.specs.Deletes.{DeletesUnder, IsFit, IsFound, Shrinks};

use crate::leaf::{OldChain, chain_of, meets};
use page_store::{PageRead, PageWrite};
use rbu_value::Bytes;
use std::alloc::Global;
use tree_level::{Change, write_changed};
use tree_pages::TreeFault;
use tree_walk::{TreePage, index_of, read_payload};

/// A row that is taken out of its table.
#[derive(Drop)]
pub struct Taken {
    pub payload: Bytes,
    /// The overflow chain of its cell, which is still to be given back.
    pub old: OldChain,
}

/// What a delete left of a page below a root.
#[derive(Drop)]
pub enum Left {
    /// It has a cell, and these cells go up to its parent.
    Cells(Vec<Bytes>),
    /// A leaf, which would have no cell and is not written.
    NoCell,
    /// An interior page, which would have no cell and is not written, and its only child.
    OnlyChild(u32),
}

/// What a delete made of a page and those below it.
#[derive(Drop)]
pub struct Removed {
    pub row: Taken,
    pub left: Left,
}

/// A row of a leaf, and what becomes of the leaf's cells without it.
#[derive(Drop)]
pub struct Found {
    pub row: Taken,
    pub change: Change,
}

/// Looks for the row of a rowid in a leaf. Refuses [55] with `chain`.
pub fn find_row<S: PageRead>(
    alloc: Global,
    store: &mut S,
    page: &TreePage,
    rowid: i64,
) -> Result<Option<Found>, TreeFault<S::Fault>>
    requires sizes { HasSizes S.PageRead store.old }
    requires page { IsDecoded page.now.bytes page.now.number (S.usable store.old) page.now }
    requires kind { page.now.kind ≡ TableLeaf }
    ensures found { IfOk result (λ found. (m : Pages) → S.pages store.old ≡ Some m → IsFound (sizes_of S.PageRead store.old) rowid page.now (paged S.PageRead store.old m) found) }
    ensures goes { IfOk result (λ found. IfSome found (λ it. it.change.goes ≡ true)) }
    ensures within { IfOk result (λ found. IfSome found (λ it. it.change.at < length page.now.views)) }
    ensures same { S.pages store.new ≡ S.pages store.old }
    ensures count { S.count store.new ≡ S.count store.old }
    ensures refuses { RefusesAt S.PageRead page.now store.old result }
    ensures owes { OwesBy S.PageRead fault_in store.old store.new result }
{
    let views = page.views.as_slice();
    let at = index_of(views, rowid);
    if !meets(views, at, rowid) {
        return Ok(None);
    }
    let payload = read_payload(alloc, store, page, at)?;
    let old = chain_of(&page.view_at(at));
    Ok(Some(Found {
        row: Taken { payload, old },
        change: Change {
            at,
            goes: true,
            right: page.right,
        },
    }))
}

/// Writes a page without one of its cells.
pub fn write_without<S: PageWrite>(
    alloc: Global,
    store: &mut S,
    page: TreePage,
    change: Change,
) -> Result<(), TreeFault<S::Fault>>
    requires sizes { HasSizes S.PageRead store.old }
    requires first { 1 ≤ page.number }
    requires on_page { page.number ≤ S.count store.old }
    requires page { IsDecoded page.bytes page.number (S.usable store.old) page }
    requires whole { length page.bytes ≡ S.size store.old }
    requires goes { change.goes ≡ true }
    requires within { change.at < length page.views }
    ensures written { OnOk result (Becomes S.PageRead store.old store.new (WritesChange (sizes_of S.PageRead store.old) page change [])) }
    ensures count { S.count store.new ≡ S.count store.old }
    ensures uses { OnOk result (Whenever S.PageRead store.old store.new (UsesBy (sizes_of S.PageRead store.old) 0)) }
    ensures other { IfErr result IsOther }
    ensures owes { OwesBy S.PageRead fault_in store.old store.new result }
{
    write_changed(alloc, store, page, change, Vec::new(alloc))
}

// Writes a leaf without one of its cells, unless it has no other.
fn shrink_leaf<S: PageWrite>(
    alloc: Global,
    store: &mut S,
    page: TreePage,
    change: Change,
) -> Result<Left, TreeFault<S::Fault>>
    requires sizes { HasSizes S.PageRead store.old }
    requires first { 1 ≤ page.number }
    requires on_page { page.number ≤ S.count store.old }
    requires page { IsDecoded page.bytes page.number (S.usable store.old) page }
    requires whole { length page.bytes ≡ S.size store.old }
    requires kind { page.kind ≡ TableLeaf }
    requires goes { change.goes ≡ true }
    requires within { change.at < length page.views }
    ensures left { IfOk result (λ left. Becomes S.PageRead store.old store.new (Shrinks (sizes_of S.PageRead store.old) page change left)) }
    ensures fit { IfOk result (IsFit (S.usable store.old)) }
    ensures count { S.count store.new ≡ S.count store.old }
    ensures uses { OnOk result (Whenever S.PageRead store.old store.new (UsesBy (sizes_of S.PageRead store.old) 0)) }
    ensures other { IfErr result IsOther }
    ensures owes { OwesBy S.PageRead fault_in store.old store.new result }
{
    if page.views.as_slice().len() == 1 {
        return Ok(Left::NoCell);
    }
    write_without(alloc, store, page, change)?;
    Ok(Left::Cells(Vec::new(alloc)))
}

/// Deletes the row of a rowid from a leaf below a root. Refuses [55] with `chain`.
pub fn delete_in_leaf<S: PageWrite>(
    alloc: Global,
    store: &mut S,
    page: TreePage,
    rowid: i64,
) -> Result<Option<Removed>, TreeFault<S::Fault>>
    requires sizes { HasSizes S.PageRead store.old }
    requires first { 1 ≤ page.number }
    requires on_page { page.number ≤ S.count store.old }
    requires page { IsDecoded page.bytes page.number (S.usable store.old) page }
    requires whole { length page.bytes ≡ S.size store.old }
    requires kind { page.kind ≡ TableLeaf }
    ensures deleted { IfOk result (λ removed. Becomes S.PageRead store.old store.new (λ a b. a.pages page.number ≡ page.bytes → DeletesUnder (sizes_of S.PageRead store.old) page.number rowid removed a b)) }
    ensures fit { IfOk result (λ removed. IfSome removed (λ it. IsFit (S.usable store.old) it.left)) }
    ensures count { S.count store.new ≡ S.count store.old }
    ensures uses { OnOk result (Whenever S.PageRead store.old store.new (UsesBy (sizes_of S.PageRead store.old) 0)) }
    ensures refuses { RefusesAt S.PageRead page store.old result }
    ensures owes { OwesBy S.PageRead fault_in store.old store.new result }
{
    let sought = find_row(alloc, store, &page, rowid)?;
    match sought {
        None => Ok(None),
        Some(found) => {
            let left = shrink_leaf(alloc, store, page, found.change)?;
            Ok(Some(Removed {
                row: found.row,
                left,
            }))
        }
    }
}
