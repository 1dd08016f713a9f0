// Deletes an entry from the tree of a root.
ghost use Rattle.std.specs.Prelude.{◌≡◌, ◌≤◌, ◌<◌, ◌+◌, IfErr, IfOk, OnOk, Some, length, max};
ghost use Rattle.format_spec.specs.declared.PageKind.TheVariants.{IndexInterior, IndexLeaf};
ghost use Rattle.key_order.specs.Orders.{IsEntry};
ghost use Rattle.page_spec.specs.Pages.{Pages};
ghost use Rattle.page_store.specs.Store.{HasSizes, OwesBy};
ghost use Rattle.index_delete_spec.specs.Steps.{DeleteInto};
ghost use Rattle.tree_pages.specs.Takes.{RisesBy};
ghost use Rattle.tree_pages.specs.Writers.{Becomes, paged, sizes_of};
ghost use Rattle.tree_spec.specs.Faults.{IsOther, fault_in};
ghost use Rattle.tree_spec.specs.Trees.{IsFullRoot};
ghost use Rattle.tree_walk.specs.Pages.{IsDecoded};
ghost use Rattle.index_cells.specs.Respelling.{IsCellAt, cell_of};
ghost use Rattle.index_delete.specs.Needs.{IsShortWhere, RefusesWhere};
ghost use Rattle.tree_index.specs.Needs.{RefusesFull};
ghost use Rattle.tree_index.specs.Searches.{IsWithin};
ghost use Rattle.index_removal.specs.Deletes.{DeletesEntry, DeletesInto, DeletesRoot};
ghost use Rattle.index_removal.specs.Needs.{IsFullRootIndex, delete_pages};

use crate::finding::{Found, find};
use crate::removing::delete_below;
use cell_codec::PageKind;
use index_cells::{Taken, take_cell};
use index_delete::{Step, child_number, pass_to_root, replace_in_root, take_from_root, take_last};
use page_store::PageWrite;
use refusal::Rule;
use std::alloc::Global;
use tree_index::{KeyOrder, Sought};
use tree_pages::{TreeFault, give_back};
use tree_spec::damaged;
use tree_walk::TreePage;

// The most pages below a root, from its children to the leaves.
const LEVELS: u32 = 24;

// Deletes the entry that was sought in a root that is a leaf, where it stands there, but for its overflow chain.
fn delete_in_leaf<S: PageWrite>(
    alloc: Global,
    store: &mut S,
    found: Found,
) -> Result<Option<Taken>, TreeFault<S::Fault>>
    requires sizes { HasSizes S.PageRead store.old }
    requires first { 1 ≤ found.page.number }
    requires on_page { found.page.number ≤ S.count store.old }
    requires page { IsDecoded found.page.bytes found.page.number (S.usable store.old) found.page }
    requires whole { length found.page.bytes ≡ S.size store.old }
    requires kind { found.page.kind ≡ IndexLeaf }
    requires within { IsWithin found.page found.sought }
    ensures deleted { IfOk result (λ taken. Becomes S.PageRead store.old store.new (DeletesRoot (sizes_of S.PageRead store.old) found taken)) }
    ensures count { S.count store.new ≡ S.count store.old }
    ensures other { IfErr result IsOther }
    ensures owes { OwesBy S.PageRead fault_in store.old store.new result }
{
    match found.sought {
        Sought::At(_) => Ok(None),
        Sought::Present(at) => {
            let taken = take_from_root(alloc, store, found.page, at)?;
            Ok(Some(taken))
        }
    }
}

// Deletes the cell at an index of an interior root: the last one below its child takes its place. Refuses [55] with `kind`, `cells`, `child`, `depth` or `empty`, [51] and [50].
fn replace_below<S: PageWrite>(
    alloc: Global,
    store: &mut S,
    page: TreePage,
    at: usize,
    limit: u32,
) -> Result<Taken, TreeFault<S::Fault>>
    requires sizes { HasSizes S.PageRead store.old }
    requires first { 1 ≤ page.number }
    requires on_page { page.number ≤ S.count store.old }
    requires page { IsDecoded page.bytes page.number (S.usable store.old) page }
    requires whole { length page.bytes ≡ S.size store.old }
    requires kind { page.kind ≡ IndexInterior }
    requires at { at < length page.views }
    ensures row { IfOk result (IsCellAt page at) }
    ensures deleted { IfOk result (λ taken. Becomes S.PageRead store.old store.new (λ a b. a.pages page.number ≡ page.bytes → DeleteInto (sizes_of S.PageRead store.old) (cell_of taken) page.number a b)) }
    ensures count { OnOk result (S.count store.old ≤ S.count store.new) }
    ensures most { OnOk result (S.count store.new ≤ max limit (S.count store.old)) }
    ensures rises { OnOk result (RisesBy S.PageRead 51 store.old store.new) }
    ensures refuses { (m : Pages) → S.pages store.old ≡ Some m → m page.number ≡ page.bytes → IfErr result (IsShortWhere (sizes_of S.PageRead store.old) IsFullRoot 24 3 limit page.number (paged S.PageRead store.old m) (S.count store.new)) }
    ensures owes { OwesBy S.PageRead fault_in store.old store.new result }
{
    let row = take_cell(alloc, &page, at)?;
    let child = child_number(store, &page, at)?;
    let below = take_last(alloc, store, child, LEVELS - 1, limit)?;
    let step = Step { at, child };
    let lower = below.left;
    replace_in_root(alloc, store, page, step, &below.row, lower, limit)?;
    Ok(row)
}

// Deletes an entry from the tree of a root, but for its overflow chain. Refuses [55], [51] and [50].
fn delete_root<S: PageWrite>(
    alloc: Global,
    store: &mut S,
    root: u32,
    payload: &[u8],
    order: &KeyOrder,
    limit: u32,
) -> Result<Option<Taken>, TreeFault<S::Fault>>
    requires sizes { HasSizes S.PageRead store.old }
    requires first { 1 ≤ root }
    requires within { root ≤ S.count store.old }
    requires entry { IsEntry order.now payload.now }
    ensures deleted { IfOk result (λ taken. Becomes S.PageRead store.old store.new (DeletesInto (sizes_of S.PageRead store.old) order.now payload.now root taken)) }
    ensures count { OnOk result (S.count store.old ≤ S.count store.new) }
    ensures most { OnOk result (S.count store.new ≤ max limit (S.count store.old)) }
    ensures rises { OnOk result (RisesBy S.PageRead 51 store.old store.new) }
    ensures refuses { RefusesWhere S.PageRead (IsFullRootIndex order.now) 24 3 limit root store.old store.new result }
    ensures owes { OwesBy S.PageRead fault_in store.old store.new result }
{
    let found = find(alloc, store, root, payload, order)?;
    match found.page.kind {
        PageKind::IndexLeaf => delete_in_leaf(alloc, store, found),
        PageKind::IndexInterior => {
            if root != 1 && found.page.views.as_slice().is_empty() {
                return Err(damaged(root, Rule::Empty));
            }
            match found.sought {
                Sought::Present(at) => {
                    let taken = replace_below(alloc, store, found.page, at, limit)?;
                    Ok(Some(taken))
                }
                Sought::At(at) => {
                    let child = child_number(store, &found.page, at)?;
                    let below = delete_below(
                        alloc,
                        store,
                        child,
                        LEVELS - 1,
                        payload,
                        order,
                        limit,
                    )?;
                    match below {
                        None => Ok(None),
                        Some(removed) => {
                            let step = Step { at, child };
                            pass_to_root(alloc, store, found.page, step, removed.left, limit)?;
                            Ok(Some(removed.row))
                        }
                    }
                }
            }
        }
        PageKind::TableLeaf | PageKind::TableInterior => Err(damaged(root, Rule::Kind)),
    }
}

/// Deletes the entry that is equal, by an order, from the index at a root, and answers whether there was one; where there was none nothing changed. The payload is a record that has the values which the order compares. The pages that the index has no longer go to the freelist, also those of the entry's overflow chain. Pages are taken from the freelist, and where that is empty past the end, up to a limit, but only where a page has no room for a cell that comes. Refuses [55] where it meets a damaged page or an entry that is none, [50] a damaged freelist, and [51] where a page is needed and none can be taken.
///
/// The count of pages rises by at most 54, and [51] comes only where free pages and pages up to the limit were together fewer. After an error the store may hold part of the change.
pub fn delete<S: PageWrite>(
    alloc: Global,
    store: &mut S,
    root: u32,
    payload: &[u8],
    order: &KeyOrder,
    limit: u32,
) -> Result<bool, TreeFault<S::Fault>>
    requires sizes { HasSizes S.PageRead store.old }
    requires first { 1 ≤ root }
    requires within { root ≤ S.count store.old }
    requires entry { IsEntry order.now payload.now }
    ensures deleted { IfOk result (λ deleted. Becomes S.PageRead store.old store.new (DeletesEntry (sizes_of S.PageRead store.old) root order.now payload.now limit deleted)) }
    ensures count { OnOk result (S.count store.old ≤ S.count store.new) }
    ensures most { OnOk result (S.count store.new ≤ max limit (S.count store.old)) }
    ensures rises { OnOk result (S.count store.new ≤ S.count store.old + delete_pages) }
    ensures refuses { RefusesFull S.PageRead order.now root delete_pages limit store.old store.new result }
    ensures owes { OwesBy S.PageRead fault_in store.old store.new result }
{
    let taken = delete_root(alloc, store, root, payload, order, limit)?;
    match taken {
        None => Ok(false),
        Some(row) => {
            let view = row.view;
            let behind = view.payload.saturating_sub(view.local as u64);
            give_back(alloc, store, view.overflow, behind)?;
            Ok(true)
        }
    }
}
