// What a step writes goes into the tree of its table.
ghost use Rattle.std.specs.Prelude.{◌≡◌, ◌≤◌, IfErr, None, OnOk};
ghost use Rattle.page_store.specs.Store.{HasSizes, OwesBy};
ghost use Rattle.tree_pages.specs.Writers.{Becomes, sizes_of};
ghost use Rattle.pass_fault.specs.Faults.{RefusesLong, fault_in};
ghost use Rattle.row_writes.specs.declared.write.RowWrite.TheVariants.{Put, Delete};
ghost use Rattle.imposter.specs.Writes.{DoesWrite, IsTreeOrLong, RefusesWrite};

use crate::target::Target;
use page_store::PageWrite;
use pass_fault::{PassFault, refuse_long};
use row_writes::RowWrite;
use std::alloc::Global;
use tree_table::{delete, put};

// The most bytes of a payload.
const MOST_BYTES: usize = 2_147_483_647;

// The most pages of a database.
const MOST_PAGES: u32 = 16_777_216;

// Puts a row with a record into the table.
fn put_record<S: PageWrite>(
    alloc: Global,
    store: &mut S,
    target: &Target,
    rowid: i64,
    payload: &[u8],
) -> Result<(), PassFault<S::Fault>>
    requires sizes { HasSizes S.PageRead store.old }
    requires first { 1 ≤ target.now.root }
    requires within { target.now.root ≤ S.count store.old }
    ensures wrote { OnOk result (Becomes S.PageRead store.old store.new (DoesWrite (sizes_of S.PageRead store.old) target.now.root rowid (Put payload.now))) }
    ensures count { OnOk result (S.count store.old ≤ S.count store.new) }
    ensures refuses { RefusesWrite S.PageRead target.now rowid (Put payload.now) store.old store.new result }
    ensures records { IfErr result (IsTreeOrLong target.now rowid) }
    ensures owes { OwesBy S.PageRead fault_in store.old store.new result }
{
    if payload.len() > MOST_BYTES {
        return Err(refuse_long(alloc, target.name.as_slice(), rowid));
    }
    match put(alloc, store, target.root, rowid, payload, MOST_PAGES) {
        Ok(()) => Ok(()),
        Err(fault) => Err(PassFault::Tree(fault)),
    }
}

// Takes the row of a rowid out of the table.
fn delete_row<S: PageWrite>(
    alloc: Global,
    store: &mut S,
    target: &Target,
    rowid: i64,
) -> Result<(), PassFault<S::Fault>>
    requires sizes { HasSizes S.PageRead store.old }
    requires first { 1 ≤ target.now.root }
    requires within { target.now.root ≤ S.count store.old }
    ensures wrote { OnOk result (Becomes S.PageRead store.old store.new (DoesWrite (sizes_of S.PageRead store.old) target.now.root rowid Delete)) }
    ensures count { OnOk result (S.count store.old ≤ S.count store.new) }
    ensures refuses { RefusesWrite S.PageRead target.now rowid Delete store.old store.new result }
    ensures records { IfErr result (IsTreeOrLong target.now rowid) }
    ensures owes { OwesBy S.PageRead fault_in store.old store.new result }
{
    match delete(alloc, store, target.root, rowid, MOST_PAGES) {
        Ok(_) => Ok(()),
        Err(fault) => Err(PassFault::Tree(fault)),
    }
}

/// Writes what a step writes, to the row of a rowid.
pub(crate) fn write_row<S: PageWrite>(
    alloc: Global,
    store: &mut S,
    target: &Target,
    rowid: i64,
    write: &RowWrite,
) -> Result<(), PassFault<S::Fault>>
    requires sizes { HasSizes S.PageRead store.old }
    requires first { 1 ≤ target.now.root }
    requires within { target.now.root ≤ S.count store.old }
    ensures wrote { OnOk result (Becomes S.PageRead store.old store.new (DoesWrite (sizes_of S.PageRead store.old) target.now.root rowid write.now)) }
    ensures count { OnOk result (S.count store.old ≤ S.count store.new) }
    ensures refuses { RefusesWrite S.PageRead target.now rowid write.now store.old store.new result }
    ensures records { IfErr result (IsTreeOrLong target.now rowid) }
    ensures owes { OwesBy S.PageRead fault_in store.old store.new result }
{
    match write {
        RowWrite::Nothing => Ok(()),
        RowWrite::Put(payload) => { put_record(alloc, store, target, rowid, payload.as_slice()) },
        RowWrite::Delete => delete_row(alloc, store, target, rowid),
    }
}
