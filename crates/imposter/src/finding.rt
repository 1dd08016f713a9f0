// The row that a prepared row meets.
ghost use Rattle.std.specs.Prelude.{◌≡◌, ◌≤◌, IfErr, None};
ghost use Rattle.page_store.specs.Store.{HasSizes, OwesBy};
ghost use Rattle.tree_walk.specs.Stores.{SeesTree};
ghost use Rattle.pass_fault.specs.Faults.{fault_in};
ghost use Rattle.imposter.specs.Finds.{FindsMet, ReadsMet, ReadsRow, RefusesUnread};

use crate::target::Target;
use found_row::find_row;
use owned_list::OwnedList;
use page_store::PageRead;
use pass_fault::PassFault;
use rbu_value::{Bytes, Value};
use row_values::{Unread, row_values};
use std::alloc::Global;
use tree_walk::{Row, TreeFault};

// The refusal of a record that is none of a row, unless memory is wanting.
fn refuse_record<F>(alloc: Global, target: &Target, row: &Row, unread: Unread) -> PassFault<F>
    ensures refuses { RefusesUnread target.now.name row.now.rowid unread result }
    ensures cause { fault_in result ≡ None }
{
    match unread {
        Unread::Memory(error) => PassFault::Tree(TreeFault::Memory(error)),
        Unread::Cause(cause) => match Bytes::of(alloc, target.name.as_slice()) {
            Ok(table) => PassFault::TargetRecord {
                table,
                rowid: row.rowid,
                cause,
            },
            Err(error) => PassFault::Tree(TreeFault::Memory(error)),
        },
    }
}

// A row by its rowid and its values.
fn read_row<F>(
    alloc: Global,
    target: &Target,
    row: &Row,
) -> Result<(i64, OwnedList<Value>), PassFault<F>>
    ensures reads { ReadsRow target.now row.now result }
    ensures cause { IfErr result (λ fault. fault_in fault ≡ None) }
{
    match row_values(alloc, &target.table, row) {
        Ok(values) => Ok((row.rowid, OwnedList::from_vec(values))),
        Err(unread) => Err(refuse_record(alloc, target, row, unread)),
    }
}

// The same of a row that was found, if one was.
fn read_found<F>(
    alloc: Global,
    target: &Target,
    found: Option<Row>,
) -> Result<Option<(i64, OwnedList<Value>)>, PassFault<F>>
    ensures reads { ReadsMet target.now found result }
    ensures cause { IfErr result (λ fault. fault_in fault ≡ None) }
{
    match found {
        Some(row) => match read_row(alloc, target, &row) {
            Ok(met) => Ok(Some(met)),
            Err(fault) => Err(fault),
        },
        None => Ok(None),
    }
}

/// The row of a rowid in a table, by its rowid and its values, or `None` where the table has none. Refuses [55], and [96] where its record is none of a row.
pub(crate) fn find_met<S: PageRead>(
    alloc: Global,
    store: &mut S,
    target: &Target,
    rowid: i64,
) -> Result<Option<(i64, OwnedList<Value>)>, PassFault<S::Fault>>
    requires sizes { HasSizes S.PageRead store.old }
    requires first { 1 ≤ target.now.root }
    requires within { target.now.root ≤ S.count store.old }
    ensures pages { SeesTree S.PageRead store.old store.new (λ sizes base. FindsMet sizes base target.now rowid result) }
    ensures owes { OwesBy S.PageRead fault_in store.old store.new result }
{
    match find_row(alloc, store, target.root, rowid) {
        Ok(found) => read_found(alloc, target, found),
        Err(fault) => Err(PassFault::Tree(fault)),
    }
}
