// The projection of a table for an index: the entries of all its rows, in order (Database File Format, section 2.4).
ghost use Rattle.std.specs.Prelude.{◌≡◌, ◌≤◌, [], IfErr, IfNone, IfOk, IfSome, List, None, map};
ghost use Rattle.std.specs.List.{AllZip};
ghost use Rattle.std.specs.List.Sorted.{IsPermutation, IsSortedBy};
ghost use Rattle.std.specs.Ordering.{is_lt};
ghost use Rattle.page_store.specs.Store.{HasSizes, OwesBy};
ghost use Rattle.prepared_laws.specs.PaddedKeysLaws.{first_value, rest_values, padded_cmp};
ghost use Rattle.tree_rows.specs.Rows.{members_of};
ghost use Rattle.tree_spec.specs.Faults.{fault_in as tree_fault_in};
ghost use Rattle.tree_walk.specs.Stores.{SeesTree};
ghost use Rattle.database_spec.specs.Rows.{TableRow, IsRow};
ghost use Rattle.database_spec.specs.Keys.{column_cmp, order_of};
ghost use Rattle.db_check.specs.Answers.{fault_in};
ghost use Rattle.db_check.specs.Projections.{IsProjectionOf, Projects, TellsUnread, by_entry};

use crate::fault::CheckFault;
use crate::members::{column_order, last_order};
use crate::rows::row_entries;
use owned_list::OwnedList;
use page_store::PageRead;
use rbu_value::{Collation, Value};
use schema_spec::{Index, Table};
use std::alloc::{AllocError, Global};
use std::cmp::Ordering;
use tree_rows::table_rows;
use tree_walk::{Row, TreeFault};

/// The collation of each column of an index, and whether it descends.
pub fn order_of_index(
    alloc: Global,
    index: &Index,
) -> Result<OwnedList<(Collation, bool)>, AllocError>
    ensures { IfOk result (λ order. order ≡ order_of index.now) }
{
    let mut order = Vec::new(alloc);
    let mut left = index.columns.as_slice();
    while let [column, rest @ ..] = left {
        order.push((column.1, column.2))?;
        left = rest;
    }
    Ok(OwnedList::from_vec(order))
}

// How the first values of two keys compare in a column: one that is not there is NULL.
fn first_order(column: (Collation, bool), a: &[Value], b: &[Value]) -> Ordering
    ensures { result ≡ column_cmp column (first_value a.now) (first_value b.now) }
{
    let null = Value::Null;
    match (a, b) {
        ([x, ..], [y, ..]) => column_order(column, x, y),
        ([x, ..], []) => column_order(column, x, &null),
        ([], [y, ..]) => column_order(column, &null, y),
        ([], []) => column_order(column, &null, &null),
    }
}

// The values behind the first one.
fn behind(values: &[Value]) -> &[Value]
    ensures { result.now ≡ rest_values values.now }
{
    match values {
        [_, rest @ ..] => rest,
        [] => values,
    }
}

// How keys compare of which one that is too short has NULL for what it lacks. Unlike the order of entries, this one is total over all lists.
fn padded_order(columns: &[(Collation, bool)], a: &[Value], b: &[Value]) -> Ordering
    ensures { result ≡ padded_cmp columns.now a.now b.now }
{
    match columns {
        [column, columns @ ..] => {
            first_order(*column, a, b).then(padded_order(columns, behind(a), behind(b)))
        }
        [] => Ordering::Equal,
    }
}

// The order in which entries are sorted.
fn sort_order(columns: &[(Collation, bool)], a: &[Value], b: &[Value]) -> Ordering
    ensures { result ≡ by_entry columns.now a.now b.now }
{
    padded_order(columns, a, b).then(last_order(columns.len(), a, b))
}

// Sorts entries.
fn sort_entries(columns: &[(Collation, bool)], entries: &mut Vec<OwnedList<Value>>)
    ensures permutes { IsPermutation entries.old.items entries.new.items }
    ensures sorted { IsSortedBy (λ a b. is_lt (by_entry columns.now a b)) entries.new.items }
{
    entries.sort_unstable_by(|a, b| sort_order(columns, a.as_slice(), b.as_slice()));
}

// The projection of rows for an index. `None` where a record is none of the table.
fn project_rows(
    alloc: Global,
    table: &Table,
    index: &Index,
    columns: &[(Collation, bool)],
    rows: &[Row],
) -> Result<Option<Vec<OwnedList<Value>>>, AllocError>
    requires { columns.now ≡ order_of index.now }
    ensures found { IfOk result (λ read. IfSome read (λ entries. IsProjectionOf table.now index.now (members_of rows.now) entries.items)) }
    ensures none { IfOk result (λ read. IfNone read ((others : List TableRow) → ¬ AllZip (IsRow table.now) (members_of rows.now) others)) }
{
    let mut entries = match row_entries(alloc, table, index, rows) {
        Ok(Some(entries)) => entries,
        Ok(None) => return Ok(None),
        Err(error) => return Err(error),
    };
    sort_entries(columns, &mut entries);
    Ok(Some(entries))
}

// What is answered of a tree that is not read to its end: `None` where it is damaged.
fn unread<F>(fault: TreeFault<F>) -> Result<Option<Vec<OwnedList<Value>>>, CheckFault<F>>
    ensures is { TellsUnread fault result }
{
    match fault {
        TreeFault::TreeDamaged { page: _, rule: _ } => Ok(None),
        TreeFault::TrunkDamaged { page: _ } => Ok(None),
        TreeFault::TargetFull { pages: _, limit: _ } => Ok(None),
        TreeFault::Store(fault) => Err(CheckFault::Store(fault)),
        TreeFault::Memory(error) => Err(CheckFault::Memory(error)),
    }
}

/// The projection of the table at a root for an index with these columns. `None` where the table is not plain: a cursor does not come to the end of its tree, or a record is none of the table. Only a fault of the store and want of memory are errors.
pub fn projection<S: PageRead>(
    alloc: Global,
    store: &mut S,
    root: u32,
    table: &Table,
    index: &Index,
    columns: &[(Collation, bool)],
) -> Result<Option<Vec<OwnedList<Value>>>, CheckFault<S::Fault>>
    requires sizes { HasSizes S.PageRead store.old }
    requires first { 1 ≤ root }
    requires within { root ≤ S.count store.old }
    requires columns { columns.now ≡ order_of index.now }
    ensures pages { SeesTree S.PageRead store.old store.new (λ sizes base. Projects sizes base root table.now index.now result) }
    ensures owes { OwesBy S.PageRead fault_in store.old store.new result }
{
    let rows = match table_rows(alloc, store, root) {
        Ok(rows) => rows,
        Err(fault) => return unread(fault),
    };
    match project_rows(alloc, table, index, columns, rows.as_slice()) {
        Ok(entries) => Ok(entries),
        Err(error) => Err(CheckFault::Memory(error)),
    }
}
