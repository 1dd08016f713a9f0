// The entries of rows in an index.
ghost use Rattle.std.specs.Prelude.{◌≡◌, IfOk};
ghost use Rattle.rbu_value.specs.declared.value.Value.TheVariants.{Null, Int};
ghost use Rattle.database_spec.specs.Keys.{column_cmp, columns_cmp};
ghost use Rattle.prepared_spec.specs.Tables.{same_values};
ghost use Rattle.index_changes.specs.Pairs.{row_in, value_in, entry_over, order_over};

use owned_list::OwnedList;
use rbu_value::{Collation, Value, compare};
use schema_spec::Table;
use std::alloc::{AllocError, Global};
use std::cmp::Ordering;
use value_copies::copy_value;

// The value of a row at a place: the rowid for the INTEGER PRIMARY KEY, and NULL where the row has none.
fn value_at<'a>(
    table: &Table,
    row: &'a (i64, OwnedList<Value>),
    at: u32,
    rowid: &'a Value,
    null: &'a Value,
) -> &'a Value
    requires of_row { rowid.now ≡ Int row.now.0 }
    requires is_null { null.now ≡ Null }
    ensures { result.now ≡ value_in table.now row.now at }
{
    match row.1.as_slice().get(at as usize) {
        Some(value) => {
            if table.rowid_column == Some(at) {
                rowid
            } else {
                value
            }
        }
        None => null,
    }
}

// How two rows compare in a column of an index.
fn compare_at(
    table: &Table,
    column: &(u32, Collation, bool),
    a: &(i64, OwnedList<Value>),
    b: &(i64, OwnedList<Value>),
) -> Ordering
    ensures { result ≡ column_cmp (column.now.1, column.now.2) (value_in table.now a.now column.now.0) (value_in table.now b.now column.now.0) }
{
    let null = Value::Null;
    let a_rowid = Value::Int(a.0);
    let b_rowid = Value::Int(b.0);
    let x = value_at(table, a, column.0, &a_rowid, &null);
    let y = value_at(table, b, column.0, &b_rowid, &null);
    let order = compare(x, y, column.1);
    if column.2 { order.reverse() } else { order }
}

/// How the entries of two rows compare by the columns of an index.
pub(crate) fn compare_columns(
    table: &Table,
    columns: &[(u32, Collation, bool)],
    a: &(i64, OwnedList<Value>),
    b: &(i64, OwnedList<Value>),
) -> Ordering
    ensures { result ≡ columns_cmp (order_over columns.now) (entry_over columns.now (row_in table.now a.now)) (entry_over columns.now (row_in table.now b.now)) }
{
    let mut left = columns;
    while let [column, rest @ ..] = left {
        match compare_at(table, column, a, b) {
            Ordering::Less => return Ordering::Less,
            Ordering::Equal => {}
            Ordering::Greater => return Ordering::Greater,
        }
        left = rest;
    }
    Ordering::Equal
}

/// Whether two rows have one entry: the same values in the columns of an index, and the same rowid.
pub(crate) fn has_same_entry(
    table: &Table,
    columns: &[(u32, Collation, bool)],
    a: &(i64, OwnedList<Value>),
    b: &(i64, OwnedList<Value>),
) -> bool
    ensures { result ≡ same_values (entry_over columns.now (row_in table.now a.now)) (entry_over columns.now (row_in table.now b.now)) }
{
    let mut left = columns;
    while let [column, rest @ ..] = left {
        if !compare_at(table, &(column.0, Collation::Binary, false), a, b).is_eq() {
            return false;
        }
        left = rest;
    }
    a.0.cmp(&b.0).is_eq()
}

// A copy of the value of a row at a place.
fn copy_at(
    alloc: Global,
    table: &Table,
    row: &(i64, OwnedList<Value>),
    at: u32,
) -> Result<Value, AllocError>
    ensures { IfOk result (λ copy. copy ≡ value_in table.now row.now at) }
{
    let null = Value::Null;
    let rowid = Value::Int(row.0);
    copy_value(alloc, value_at(table, row, at, &rowid, &null))
}

/// The entry of a row: its values in the columns of an index, and its rowid.
pub(crate) fn entry_of(
    alloc: Global,
    table: &Table,
    columns: &[(u32, Collation, bool)],
    row: &(i64, OwnedList<Value>),
) -> Result<Vec<Value>, AllocError>
    ensures { IfOk result (λ entry. entry.items ≡ entry_over columns.now (row_in table.now row.now)) }
{
    let mut entry = Vec::new(alloc);
    let mut left = columns;
    while let [column, rest @ ..] = left {
        let value = copy_at(alloc, table, row, column.0)?;
        entry.push(value)?;
        left = rest;
    }
    entry.push(Value::Int(row.0))?;
    Ok(entry)
}
