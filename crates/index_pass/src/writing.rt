// An entry goes out of the tree of an index, or into it.
ghost use Rattle.std.specs.Prelude.{◌≡◌, ◌≤◌, OnOk, length};
ghost use Rattle.format_spec.specs.Cell.{payload_limit};
ghost use Rattle.page_store.specs.Store.{HasSizes, OwesBy};
ghost use Rattle.tree_pages.specs.Writers.{Becomes, sizes_of};
ghost use Rattle.tree_index.specs.Needs.{put_pages};
ghost use Rattle.index_removal.specs.Needs.{delete_pages};
ghost use Rattle.pass_fault.specs.Faults.{fault_in};
ghost use Rattle.key_order.specs.Orders.{IsEntry};
ghost use Rattle.index_pass.specs.Changes.{Adds, RefusesWrite, Removes};

use crate::target::Target;
use index_removal::delete;
use page_store::PageWrite;
use pass_fault::PassFault;
use std::alloc::Global;
use tree_index::put;

// The most pages of a database.
const MOST_PAGES: u32 = 16_777_216;

/// Takes an entry out of the index, by its record. Refuses [55], [50] and [51].
pub(crate) fn delete_entry<S: PageWrite>(
    alloc: Global,
    store: &mut S,
    target: &Target,
    payload: &[u8],
) -> Result<(), PassFault<S::Fault>>
    requires sizes { HasSizes S.PageRead store.old }
    requires first { 1 ≤ target.now.root }
    requires within { target.now.root ≤ S.count store.old }
    requires entry { IsEntry target.now.order payload.now }
    ensures removed { OnOk result (Becomes S.PageRead store.old store.new (Removes (sizes_of S.PageRead store.old) target.now payload.now)) }
    ensures count { OnOk result (S.count store.old ≤ S.count store.new) }
    ensures refuses { RefusesWrite S.PageRead target.now delete_pages store.old store.new result }
    ensures owes { OwesBy S.PageRead fault_in store.old store.new result }
{
    match delete(
        alloc,
        store,
        target.root,
        payload,
        &target.order,
        MOST_PAGES,
    ) {
        Ok(_) => Ok(()),
        Err(fault) => Err(PassFault::Tree(fault)),
    }
}

/// Puts an entry into the index, by its record, which a cell can have. Refuses [55], [50] and [51].
pub(crate) fn put_entry<S: PageWrite>(
    alloc: Global,
    store: &mut S,
    target: &Target,
    payload: &[u8],
) -> Result<(), PassFault<S::Fault>>
    requires sizes { HasSizes S.PageRead store.old }
    requires first { 1 ≤ target.now.root }
    requires within { target.now.root ≤ S.count store.old }
    requires payload { length payload.now ≤ payload_limit }
    requires entry { IsEntry target.now.order payload.now }
    ensures added { OnOk result (Becomes S.PageRead store.old store.new (Adds (sizes_of S.PageRead store.old) target.now payload.now)) }
    ensures count { OnOk result (S.count store.old ≤ S.count store.new) }
    ensures refuses { RefusesWrite S.PageRead target.now (put_pages (S.usable store.old) (length payload.now)) store.old store.new result }
    ensures owes { OwesBy S.PageRead fault_in store.old store.new result }
{
    match put(
        alloc,
        store,
        target.root,
        payload,
        &target.order,
        MOST_PAGES,
    ) {
        Ok(_) => Ok(()),
        Err(fault) => Err(PassFault::Tree(fault)),
    }
}
