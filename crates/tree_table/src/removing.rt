// Deletes a row below a page.
ghost use Rattle.std.specs.Prelude.{◌≡◌, ◌*◌, ◌≤◌, ◌<◌, ◌⊎◌, IfErr, IfOk, IfSome, None, OnOk, length, max};
ghost use Rattle.page_store.specs.Store.{HasSizes, IsNumber, OwesBy};
ghost use Rattle.tree_pages.specs.Takes.{RisesBy};
ghost use Rattle.tree_pages.specs.Writers.{Becomes, sizes_of};
ghost use Rattle.tree_spec.specs.Faults.{fault_in};
ghost use Rattle.tree_table.specs.Deletes.{DeletesUnder, IsFit};
ghost use Rattle.tree_table.specs.Needs.{RefusesBelow, UsesUnder, Whenever};

use crate::closing::pass_on;
use crate::opening::step_below;
use crate::taking::{Removed, delete_in_leaf};
use cell_codec::PageKind;
use page_store::PageWrite;
use refusal::Rule;
use std::alloc::Global;
use tree_pages::TreeFault;
use tree_spec::damaged;
use tree_walk::{TreePage, read_page};

// Whether an interior page may have pages below it, with so many levels at most. Refuses [55] with `depth`, and with `empty` where it has no cell.
fn check_inner<F>(page: &TreePage, levels: u32) -> Result<(), TreeFault<F>>
    ensures deep { OnOk result (0 < levels) }
    ensures some { OnOk result (0 < length page.now.views) }
    ensures refused { IfErr result (λ _. (levels ≡ 0) ⊎ (length page.now.views ≡ 0)) }
    ensures cause { IfErr result (λ fault. fault_in fault ≡ None) }
{
    if levels == 0 {
        return Err(damaged(page.number, Rule::Depth));
    }
    if page.views.as_slice().is_empty() {
        return Err(damaged(page.number, Rule::Empty));
    }
    Ok(())
}

/// Deletes the row of a rowid below a page that has at most so many levels of pages below it. Refuses [55] with `kind`, `cells`, `child`, `depth`, `empty` or `chain`, [51] and [50].
pub fn delete_below<S: PageWrite>(
    alloc: Global,
    store: &mut S,
    number: u32,
    levels: u32,
    rowid: i64,
    limit: u32,
) -> Result<Option<Removed>, TreeFault<S::Fault>>
    requires sizes { HasSizes S.PageRead store.old }
    requires number { IsNumber S.PageRead store.old number }
    ensures deleted { IfOk result (λ removed. Becomes S.PageRead store.old store.new (DeletesUnder (sizes_of S.PageRead store.old) number rowid removed)) }
    ensures fit { IfOk result (λ removed. IfSome removed (λ it. IsFit (S.usable store.old) it.left)) }
    ensures count { OnOk result (S.count store.old ≤ S.count store.new) }
    ensures most { OnOk result (S.count store.new ≤ max limit (S.count store.old)) }
    ensures rises { OnOk result (RisesBy S.PageRead (2 * levels) store.old store.new) }
    ensures uses { OnOk result (Whenever S.PageRead store.old store.new (UsesUnder (sizes_of S.PageRead store.old) number)) }
    ensures refuses { RefusesBelow S.PageRead levels 1 limit number store.old store.new result }
    ensures owes { OwesBy S.PageRead fault_in store.old store.new result }
{
    let page = read_page(alloc, store, number)?;
    match page.kind {
        PageKind::TableLeaf => delete_in_leaf(alloc, store, page, rowid),
        PageKind::TableInterior => {
            check_inner(&page, levels)?;
            let step = step_below(store, &page, rowid)?;
            let below = delete_below(alloc, store, step.child, levels - 1, rowid, limit)?;
            match below {
                None => Ok(None),
                Some(removed) => {
                    let left = pass_on(alloc, store, page, step, removed.left, limit)?;
                    Ok(Some(Removed {
                        row: removed.row,
                        left,
                    }))
                }
            }
        }
        PageKind::IndexLeaf | PageKind::IndexInterior => Err(damaged(number, Rule::Kind)),
    }
}
