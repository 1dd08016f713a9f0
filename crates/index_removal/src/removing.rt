// Deletes an entry below a page.
ghost use Rattle.std.specs.Prelude.{◌≡◌, ◌≤◌, ◌<◌, IfErr, IfOk, IfSome, OnOk, Some, false, length, max};
ghost use Rattle.format_spec.specs.declared.PageKind.TheVariants.{IndexInterior, IndexLeaf};
ghost use Rattle.key_order.specs.Orders.{IsEntry};
ghost use Rattle.page_spec.specs.Pages.{Pages};
ghost use Rattle.page_store.specs.Store.{HasSizes, IsNumber, OwesBy};
ghost use Rattle.tree_pages.specs.Takes.{RisesBy, UsesBy};
ghost use Rattle.tree_pages.specs.Writers.{Becomes, paged, sizes_of};
ghost use Rattle.tree_spec.specs.Faults.{IsOther, fault_in};
ghost use Rattle.tree_spec.specs.Trees.{IsFull};
ghost use Rattle.tree_walk.specs.Pages.{IsDecoded};
ghost use Rattle.index_cells.specs.Respelling.{IsCellAt};
ghost use Rattle.index_delete.specs.Deletes.{IsFit, Leaves, below_most};
ghost use Rattle.index_delete.specs.Needs.{IsShortWhere, RefusesWhere, UsesBelow, Whenever};
ghost use Rattle.tree_index.specs.Searches.{IsWithin};
ghost use Rattle.index_removal.specs.Deletes.{DeletesFound, DeletesUnder};
ghost use Rattle.index_removal.specs.Needs.{IsFullIndex, UsesUnder, removed_most};

use crate::finding::{Found, find};
use cell_codec::PageKind;
use index_cells::take_cell;
use index_delete::{
    Removed, Step, check_inner, child_number, pass_on, pass_replaced, take_from_leaf, take_last,
};
use page_store::PageWrite;
use refusal::Rule;
use std::alloc::Global;
use tree_index::{KeyOrder, Sought};
use tree_pages::TreeFault;
use tree_spec::damaged;
use tree_walk::TreePage;

// Deletes the entry that was sought in a leaf below a root, where it stands there.
fn delete_in_leaf<S: PageWrite>(
    alloc: Global,
    store: &mut S,
    found: Found,
) -> Result<Option<Removed>, TreeFault<S::Fault>>
    requires sizes { HasSizes S.PageRead store.old }
    requires first { 1 ≤ found.page.number }
    requires on_page { found.page.number ≤ S.count store.old }
    requires page { IsDecoded found.page.bytes found.page.number (S.usable store.old) found.page }
    requires whole { length found.page.bytes ≡ S.size store.old }
    requires kind { found.page.kind ≡ IndexLeaf }
    requires within { IsWithin found.page found.sought }
    ensures deleted { IfOk result (λ removed. Becomes S.PageRead store.old store.new (DeletesFound (sizes_of S.PageRead store.old) found removed)) }
    ensures fit { IfOk result (λ removed. IfSome removed (λ it. IsFit (S.usable store.old) it.left)) }
    ensures count { S.count store.new ≡ S.count store.old }
    ensures uses { OnOk result (Whenever S.PageRead store.old store.new (UsesBy (sizes_of S.PageRead store.old) 0)) }
    ensures other { IfErr result IsOther }
    ensures owes { OwesBy S.PageRead fault_in store.old store.new result }
{
    match found.sought {
        Sought::At(_) => Ok(None),
        Sought::Present(at) => {
            let taken = take_from_leaf(alloc, store, found.page, at)?;
            Ok(Some(taken))
        }
    }
}

// Deletes the cell at an index of an interior page below a root: the last one below its child takes its place. Refuses [55] with `kind`, `cells`, `child`, `depth` or `empty`, [51] and [50].
fn replace_below<S: PageWrite>(
    alloc: Global,
    store: &mut S,
    page: TreePage,
    at: usize,
    levels: u32,
    limit: u32,
) -> Result<Removed, TreeFault<S::Fault>>
    requires sizes { HasSizes S.PageRead store.old }
    requires number { IsNumber S.PageRead store.old page.number }
    requires page { IsDecoded page.bytes page.number (S.usable store.old) page }
    requires whole { length page.bytes ≡ S.size store.old }
    requires kind { page.kind ≡ IndexInterior }
    requires at { at < length page.views }
    ensures row { IfOk result (λ removed. IsCellAt page at removed.row) }
    ensures left { IfOk result (λ removed. Becomes S.PageRead store.old store.new (λ a b. a.pages page.number ≡ page.bytes → Leaves (sizes_of S.PageRead store.old) false removed.row page.number removed.left a b)) }
    ensures fit { IfOk result (λ removed. IsFit (S.usable store.old) removed.left) }
    ensures count { OnOk result (S.count store.old ≤ S.count store.new) }
    ensures most { OnOk result (S.count store.new ≤ max limit (S.count store.old)) }
    ensures rises { IfOk result (λ removed. RisesBy S.PageRead (below_most levels removed.left) store.old store.new) }
    ensures uses { IfOk result (λ removed. Whenever S.PageRead store.old store.new (λ a b. a.pages page.number ≡ page.bytes → UsesBelow (sizes_of S.PageRead store.old) page.number removed.left a b)) }
    ensures refuses { (m : Pages) → S.pages store.old ≡ Some m → m page.number ≡ page.bytes → IfErr result (IsShortWhere (sizes_of S.PageRead store.old) IsFull levels 2 limit page.number (paged S.PageRead store.old m) (S.count store.new)) }
    ensures owes { OwesBy S.PageRead fault_in store.old store.new result }
{
    check_inner(&page, levels)?;
    let row = take_cell(alloc, &page, at)?;
    let child = child_number(store, &page, at)?;
    let below = take_last(alloc, store, child, levels - 1, limit)?;
    let step = Step { at, child };
    let lower = below.left;
    let left = pass_replaced(alloc, store, page, step, &below.row, lower, limit)?;
    Ok(Removed { row, left })
}

/// Deletes an entry below a page that has at most so many levels of pages below it. Refuses [55] with `kind`, `cells`, `child`, `depth`, `empty`, `chain` or `record`, [51] and [50].
pub fn delete_below<S: PageWrite>(
    alloc: Global,
    store: &mut S,
    number: u32,
    levels: u32,
    payload: &[u8],
    order: &KeyOrder,
    limit: u32,
) -> Result<Option<Removed>, TreeFault<S::Fault>>
    requires sizes { HasSizes S.PageRead store.old }
    requires number { IsNumber S.PageRead store.old number }
    requires entry { IsEntry order.now payload.now }
    ensures deleted { IfOk result (λ removed. Becomes S.PageRead store.old store.new (DeletesUnder (sizes_of S.PageRead store.old) order.now payload.now number removed)) }
    ensures fit { IfOk result (λ removed. IfSome removed (λ it. IsFit (S.usable store.old) it.left)) }
    ensures count { OnOk result (S.count store.old ≤ S.count store.new) }
    ensures most { OnOk result (S.count store.new ≤ max limit (S.count store.old)) }
    ensures rises { IfOk result (λ removed. RisesBy S.PageRead (removed_most levels removed) store.old store.new) }
    ensures uses { IfOk result (λ removed. Whenever S.PageRead store.old store.new (UsesUnder (sizes_of S.PageRead store.old) number removed)) }
    ensures refuses { RefusesWhere S.PageRead (IsFullIndex order.now) levels 2 limit number store.old store.new result }
    ensures owes { OwesBy S.PageRead fault_in store.old store.new result }
{
    let found = find(alloc, store, number, payload, order)?;
    match found.page.kind {
        PageKind::IndexLeaf => delete_in_leaf(alloc, store, found),
        PageKind::IndexInterior => match found.sought {
            Sought::Present(at) => {
                let removed = replace_below(alloc, store, found.page, at, levels, limit)?;
                Ok(Some(removed))
            }
            Sought::At(at) => {
                check_inner(&found.page, levels)?;
                let child = child_number(store, &found.page, at)?;
                let below = delete_below(alloc, store, child, levels - 1, payload, order, limit)?;
                match below {
                    None => Ok(None),
                    Some(removed) => {
                        let step = Step { at, child };
                        let left = pass_on(alloc, store, found.page, step, removed.left, limit)?;
                        Ok(Some(Removed {
                            row: removed.row,
                            left,
                        }))
                    }
                }
            }
        },
        PageKind::TableLeaf | PageKind::TableInterior => Err(damaged(number, Rule::Kind)),
    }
}
