// Puts an entry into its leaf alone, where that has room.
ghost use Rattle.std.specs.Prelude.{◌≡◌, ◌≤◌, ◌+◌, IfErr, IfOk, IfSome, None, OnOk, length, max};
ghost use Rattle.format_spec.specs.Cell.{payload_limit};
ghost use Rattle.key_order.specs.Orders.{IsEntry};
ghost use Rattle.page_store.specs.Store.{HasSizes, OwesBy};
ghost use Rattle.tree_pages.specs.Takes.{RisesBy};
ghost use Rattle.tree_pages.specs.Writers.{Becomes, sizes_of};
ghost use Rattle.tree_spec.specs.Faults.{IsOther, fault_in};
ghost use Rattle.tree_index.specs.Needs.{RefusesUnder, overflow_pages};
ghost use Rattle.tree_index.specs.Puts.{EntersInto, TriesInto};

use crate::entries::whole_cell;
use crate::putting::{Inserted, LEVELS, put_root};
use index_leaf::{Attempt, put_in_leaf};
use key_order::KeyOrder;
use page_store::PageWrite;
use std::alloc::Global;
use tree_pages::TreeFault;

// Puts an entry into its leaf alone, in the tree of a root, unless an equal one stands there. Given up where the entry needs an overflow chain.
fn put_alone<S: PageWrite>(
    alloc: Global,
    store: &mut S,
    root: u32,
    payload: &[u8],
    order: &KeyOrder,
) -> Result<Attempt, TreeFault<S::Fault>>
    requires sizes { HasSizes S.PageRead store.old }
    requires first { 1 ≤ root }
    requires within { root ≤ S.count store.old }
    requires payload { length payload.now ≤ payload_limit }
    requires entry { IsEntry order.now payload.now }
    ensures tried { IfOk result (λ did. Becomes S.PageRead store.old store.new (TriesInto (sizes_of S.PageRead store.old) order.now payload.now root did)) }
    ensures count { S.count store.new ≡ S.count store.old }
    ensures other { IfErr result IsOther }
    ensures owes { OwesBy S.PageRead fault_in store.old store.new result }
{
    let made = whole_cell(alloc, store.usable(), payload)?;
    let Some(cell) = made else {
        return Ok(Attempt::GivenUp);
    };
    put_in_leaf(alloc, store, root, LEVELS, payload, order, cell.as_slice())
}

/// Puts an entry into the tree of a root, into its leaf alone where that has room, unless an equal one stands there. Refuses [55], [51] and [50].
pub fn put_entry<S: PageWrite>(
    alloc: Global,
    store: &mut S,
    root: u32,
    payload: &[u8],
    order: &KeyOrder,
    limit: u32,
) -> Result<Inserted, TreeFault<S::Fault>>
    requires sizes { HasSizes S.PageRead store.old }
    requires first { 1 ≤ root }
    requires within { root ≤ S.count store.old }
    requires payload { length payload.now ≤ payload_limit }
    requires entry { IsEntry order.now payload.now }
    ensures enters { IfOk result (λ inserted. Becomes S.PageRead store.old store.new (EntersInto (sizes_of S.PageRead store.old) order.now payload.now root inserted)) }
    ensures count { OnOk result (S.count store.old ≤ S.count store.new) }
    ensures most { OnOk result (S.count store.new ≤ max limit (S.count store.old)) }
    ensures rises { OnOk result (RisesBy S.PageRead (51 + overflow_pages (S.usable store.old) (length payload.now)) store.old store.new) }
    ensures refuses { RefusesUnder S.PageRead order.now 24 (3 + overflow_pages (S.usable store.old) (length payload.now)) limit root store.old store.new result }
    ensures owes { OwesBy S.PageRead fault_in store.old store.new result }
{
    let did = put_alone(alloc, store, root, payload, order)?;
    match did {
        Attempt::Put => Ok(Inserted::New),
        Attempt::Present => Ok(Inserted::Present),
        Attempt::GivenUp => put_root(alloc, store, root, payload, order, limit),
    }
}
