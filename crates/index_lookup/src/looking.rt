// Looks for an entry that agrees with another one in the columns of an index.
ghost use Rattle.std.specs.Prelude.{◌≡◌, ◌≤◌, slice_get};
ghost use Rattle.key_order.specs.Orders.{IsEntry};
ghost use Rattle.page_store.specs.Store.{HasSizes, OwesBy};
ghost use Rattle.tree_spec.specs.Faults.{fault_in};
ghost use Rattle.tree_walk.specs.Places.{child_or};
ghost use Rattle.tree_walk.specs.Stores.{SeesTree};
ghost use Rattle.index_lookup.specs.Alikes.{FindsAlike, FindsUnder};

use crate::nulls::has_null;
use key_order::KeyOrder;
use page_store::{PageRead, is_in_range};
use refusal::Rule;
use std::alloc::Global;
use tree_index::{Sought, search};
use tree_spec::{TreeFault, TreeKind, damaged};
use tree_walk::{TreePage, is_leaf, read_page, tree_kind};

// The most pages below a root, from its children to the leaves.
const LEVELS: u32 = 24;

// The page that a page names at an index: the left child of a cell, or behind all cells the right child.
fn child_of(page: &TreePage, at: usize) -> u32
    ensures { result ≡ child_or page.now.right (slice_get page.now.views at) }
{
    match page.views.as_slice().get(at) {
        Some(view) => view.child,
        None => page.right,
    }
}

// Whether an equal entry stands below a page that has at most so many levels of pages below it. Refuses [55] with `kind`, `cells`, `child`, `depth`, `chain` or `record`.
fn has_equal<S: PageRead>(
    alloc: Global,
    store: &mut S,
    number: u32,
    levels: u32,
    payload: &[u8],
    order: &KeyOrder,
) -> Result<bool, TreeFault<S::Fault>>
    requires sizes { HasSizes S.PageRead store.old }
    requires first { 1 ≤ number }
    requires within { number ≤ S.count store.old }
    requires entry { IsEntry order.now payload.now }
    ensures pages { SeesTree S.PageRead store.old store.new (λ sizes base. FindsUnder sizes base number levels order.now payload.now result) }
    ensures owes { OwesBy S.PageRead fault_in store.old store.new result }
{
    let page = read_page(alloc, store, number)?;
    if tree_kind(page.kind) != TreeKind::Index {
        return Err(damaged(number, Rule::Kind));
    }
    let sought = search(alloc, store, &page, payload, order)?;
    match sought {
        Sought::Present(_) => Ok(true),
        Sought::At(at) => {
            if is_leaf(page.kind) {
                return Ok(false);
            }
            if levels == 0 {
                return Err(damaged(number, Rule::Depth));
            }
            let child = child_of(&page, at);
            if !is_in_range(store.page_size(), store.count(), child) {
                return Err(damaged(number, Rule::Child));
            }
            has_equal(alloc, store, child, levels - 1, payload, order)
        }
    }
}

/// Whether the index at a root holds an entry that agrees with another one in its columns; one with a NULL among them agrees with none (CREATE INDEX, section 1.1). The order is by the columns alone, without the rowid, and the payload is a record that has a value for each of them. The index stands in order by these columns and then by the rowid. The store stays as it is. Refuses [55] where a page, an overflow chain or an entry that is met is damaged.
pub fn has_alike<S: PageRead>(
    alloc: Global,
    store: &mut S,
    root: u32,
    payload: &[u8],
    order: &KeyOrder,
) -> Result<bool, TreeFault<S::Fault>>
    requires sizes { HasSizes S.PageRead store.old }
    requires first { 1 ≤ root }
    requires within { root ≤ S.count store.old }
    requires entry { IsEntry order.now payload.now }
    ensures pages { SeesTree S.PageRead store.old store.new (λ sizes base. FindsAlike sizes base root order.now payload.now result) }
    ensures owes { OwesBy S.PageRead fault_in store.old store.new result }
{
    if has_null(alloc, payload, order)? {
        return Ok(false);
    }
    has_equal(alloc, store, root, LEVELS, payload, order)
}
