// Takes the last cell below a page out.
ghost use Rattle.std.specs.Prelude.{◌≡◌, ◌*◌, ◌+◌, ◌≤◌, ◌<◌, ◌⊎◌, IfErr, IfOk, None, OnOk, length, max, true};
ghost use Rattle.format_spec.specs.declared.PageKind.TheVariants.{IndexLeaf};
ghost use Rattle.page_store.specs.Store.{HasSizes, IsNumber, OwesBy};
ghost use Rattle.index_delete_spec.specs.Steps.{IsOfIndex};
ghost use Rattle.tree_pages.specs.Takes.{RisesBy, UsesBy};
ghost use Rattle.tree_pages.specs.Writers.{Becomes, sizes_of};
ghost use Rattle.tree_spec.specs.Faults.{IsOther, fault_in};
ghost use Rattle.tree_spec.specs.Trees.{IsFull};
ghost use Rattle.tree_walk.specs.Pages.{IsDecoded};
ghost use Rattle.index_cells.specs.Respelling.{IsWhole};
ghost use Rattle.index_delete.specs.Deletes.{IsFit, Leaves, below_most};
ghost use Rattle.index_delete.specs.Needs.{RefusesWhere, UsesBelow, Whenever};

use crate::beside::child_number;
use crate::closing::{Removed, pass_on, take_from_leaf};
use crate::levels::Step;
use cell_codec::PageKind;
use page_store::PageWrite;
use refusal::Rule;
use std::alloc::Global;
use tree_pages::TreeFault;
use tree_spec::damaged;
use tree_walk::{TreePage, read_page};

// Whether a page has a cell. Refuses [55] with `empty`.
fn check_some<F>(page: &TreePage) -> Result<(), TreeFault<F>>
    ensures some { OnOk result (0 < length page.now.views) }
    ensures refused { IfErr result (λ _. length page.now.views ≡ 0) }
    ensures cause { IfErr result (λ fault. fault_in fault ≡ None) }
{
    if page.views.as_slice().is_empty() {
        return Err(damaged(page.number, Rule::Empty));
    }
    Ok(())
}

/// Whether an interior page may have pages below it, with so many levels at most. Refuses [55] with `depth`, and with `empty` where it has no cell.
pub fn check_inner<F>(page: &TreePage, levels: u32) -> Result<(), TreeFault<F>>
    ensures deep { OnOk result (0 < levels) }
    ensures some { OnOk result (0 < length page.now.views) }
    ensures refused { IfErr result (λ _. (levels ≡ 0) ⊎ (length page.now.views ≡ 0)) }
    ensures cause { IfErr result (λ fault. fault_in fault ≡ None) }
{
    if levels == 0 {
        return Err(damaged(page.number, Rule::Depth));
    }
    if page.views.as_slice().is_empty() {
        return Err(damaged(page.number, Rule::Empty));
    }
    Ok(())
}

// Takes the last cell out of a leaf. Refuses [55] with `empty`.
fn take_last_of_leaf<S: PageWrite>(
    alloc: Global,
    store: &mut S,
    page: TreePage,
) -> Result<Removed, TreeFault<S::Fault>>
    requires sizes { HasSizes S.PageRead store.old }
    requires first { 1 ≤ page.number }
    requires on_page { page.number ≤ S.count store.old }
    requires page { IsDecoded page.bytes page.number (S.usable store.old) page }
    requires whole { length page.bytes ≡ S.size store.old }
    requires kind { page.kind ≡ IndexLeaf }
    ensures of { IfOk result (λ removed. IsOfIndex removed.row.kind) }
    ensures row { IfOk result (λ removed. IsWhole (S.usable store.old) removed.row) }
    ensures left { IfOk result (λ removed. Becomes S.PageRead store.old store.new (λ a b. a.pages page.number ≡ page.bytes → Leaves (sizes_of S.PageRead store.old) true removed.row page.number removed.left a b)) }
    ensures fit { IfOk result (λ removed. IsFit (S.usable store.old) removed.left) }
    ensures count { S.count store.new ≡ S.count store.old }
    ensures uses { OnOk result (Whenever S.PageRead store.old store.new (UsesBy (sizes_of S.PageRead store.old) 0)) }
    ensures refuses { IfErr result (λ fault. IsOther fault ⊎ (length page.views ≡ 0)) }
    ensures owes { OwesBy S.PageRead fault_in store.old store.new result }
{
    check_some(&page)?;
    let end = page.views.as_slice().len() - 1;
    take_from_leaf(alloc, store, page, end)
}

/// Takes the last cell below a page out, which has at most so many levels of pages below it. Refuses [55] with `kind`, `cells`, `child`, `depth` or `empty`, [51] and [50].
pub fn take_last<S: PageWrite>(
    alloc: Global,
    store: &mut S,
    number: u32,
    levels: u32,
    limit: u32,
) -> Result<Removed, TreeFault<S::Fault>>
    requires sizes { HasSizes S.PageRead store.old }
    requires number { IsNumber S.PageRead store.old number }
    ensures of { IfOk result (λ removed. IsOfIndex removed.row.kind) }
    ensures row { IfOk result (λ removed. IsWhole (S.usable store.old) removed.row) }
    ensures left { IfOk result (λ removed. Becomes S.PageRead store.old store.new (Leaves (sizes_of S.PageRead store.old) true removed.row number removed.left)) }
    ensures fit { IfOk result (λ removed. IsFit (S.usable store.old) removed.left) }
    ensures count { OnOk result (S.count store.old ≤ S.count store.new) }
    ensures most { OnOk result (S.count store.new ≤ max limit (S.count store.old)) }
    ensures rises { IfOk result (λ removed. RisesBy S.PageRead (below_most levels removed.left) store.old store.new) }
    ensures uses { IfOk result (λ removed. Whenever S.PageRead store.old store.new (UsesBelow (sizes_of S.PageRead store.old) number removed.left)) }
    ensures refuses { RefusesWhere S.PageRead IsFull levels 2 limit number store.old store.new result }
    ensures owes { OwesBy S.PageRead fault_in store.old store.new result }
{
    let page = read_page(alloc, store, number)?;
    match page.kind {
        PageKind::IndexLeaf => take_last_of_leaf(alloc, store, page),
        PageKind::IndexInterior => {
            check_inner(&page, levels)?;
            let at = page.views.as_slice().len();
            let child = child_number(store, &page, at)?;
            let below = take_last(alloc, store, child, levels - 1, limit)?;
            let step = Step { at, child };
            let left = pass_on(alloc, store, page, step, below.left, limit)?;
            Ok(Removed {
                row: below.row,
                left,
            })
        }
        PageKind::TableLeaf | PageKind::TableInterior => Err(damaged(number, Rule::Kind)),
    }
}
