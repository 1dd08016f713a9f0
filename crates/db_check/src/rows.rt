// The entries of the rows of a table for an index (Database File Format, section 2.4).
ghost use Rattle.std.specs.Prelude.{◌≡◌, IfNone, IfOk, IfSome, List, slice_index_or};
ghost use Rattle.std.specs.List.{AllZip};
ghost use Rattle.rbu_value.specs.declared.value.Value.TheVariants.{Null};
ghost use Rattle.tree_rows.specs.Rows.{member_of, members_of};
ghost use Rattle.database_spec.specs.Rows.{TableRow, IsRow, with_rowid as with_rowid_of};
ghost use Rattle.db_check.specs.Projections.{HaveEntries, HasEntry, entry_over, row_with};

use crate::members::read_values;
use owned_list::OwnedList;
use rbu_value::{Collation, Value};
use schema_spec::{Index, Table};
use std::alloc::{AllocError, Global};
use tree_walk::Row;
use value_copies::copy_value;

// Stored values with the rowid in the place of the INTEGER PRIMARY KEY.
fn with_rowid(mut values: Vec<Value>, column: Option<u32>, rowid: i64) -> Vec<Value>
    ensures { result.items ≡ with_rowid_of column rowid values.items }
{
    if let Some(column) = column {
        let at = column as usize;
        if at < values.len() {
            values[at] = Value::Int(rowid);
        }
    }
    values
}

// The values of a row of a table. `None` where its record is none of the table.
fn row_values(alloc: Global, table: &Table, row: &Row) -> Result<Option<Vec<Value>>, AllocError>
    ensures found { IfOk result (λ read. IfSome read (λ values. IsRow table.now (member_of row.now) (row_with row.now values.items))) }
    ensures none { IfOk result (λ read. IfNone read ((other : TableRow) → ¬ IsRow table.now (member_of row.now) other)) }
{
    let stored = match read_values(alloc, row.payload.as_slice()) {
        Ok(Some(stored)) => stored,
        Ok(None) => return Ok(None),
        Err(error) => return Err(error),
    };
    if stored.len() != table.columns.as_slice().len() {
        return Ok(None);
    }
    Ok(Some(with_rowid(stored, table.rowid_column, row.rowid)))
}

// A copy of the value at a place, which is NULL where there is none.
fn copy_at(alloc: Global, values: &[Value], at: u32) -> Result<Value, AllocError>
    ensures { IfOk result (λ copy. copy ≡ slice_index_or values.now at Null) }
{
    match values.get(at as usize) {
        Some(value) => copy_value(alloc, value),
        None => Ok(Value::Null),
    }
}

// The entry of a row: its values in the columns of an index, and its rowid.
fn entry_of(
    alloc: Global,
    columns: &[(u32, Collation, bool)],
    values: &[Value],
    rowid: i64,
) -> Result<Vec<Value>, AllocError>
    ensures { IfOk result (λ entry. entry.items ≡ entry_over columns.now values.now rowid) }
{
    let mut entry = Vec::new(alloc);
    let mut left = columns;
    while let [column, rest @ ..] = left {
        let value = copy_at(alloc, values, column.0)?;
        entry.push(value)?;
        left = rest;
    }
    entry.push(Value::Int(rowid))?;
    Ok(entry)
}

// The entry of a row of a table for an index. `None` where its record is none of the table.
fn row_entry(
    alloc: Global,
    table: &Table,
    index: &Index,
    row: &Row,
) -> Result<Option<OwnedList<Value>>, AllocError>
    ensures found { IfOk result (λ read. IfSome read (HasEntry table.now index.now (member_of row.now))) }
    ensures none { IfOk result (λ read. IfNone read ((other : TableRow) → ¬ IsRow table.now (member_of row.now) other)) }
{
    let values = match row_values(alloc, table, row) {
        Ok(Some(values)) => values,
        Ok(None) => return Ok(None),
        Err(error) => return Err(error),
    };
    match entry_of(
        alloc,
        index.columns.as_slice(),
        values.as_slice(),
        row.rowid,
    ) {
        Ok(entry) => Ok(Some(OwnedList::from_vec(entry))),
        Err(error) => Err(error),
    }
}

/// The entries of the rows of a table for an index, in the order of the rows. `None` where a record is none of the table.
pub fn row_entries(
    alloc: Global,
    table: &Table,
    index: &Index,
    rows: &[Row],
) -> Result<Option<Vec<OwnedList<Value>>>, AllocError>
    ensures found { IfOk result (λ read. IfSome read (λ entries. HaveEntries table.now index.now (members_of rows.now) entries.items)) }
    ensures none { IfOk result (λ read. IfNone read ((others : List TableRow) → ¬ AllZip (IsRow table.now) (members_of rows.now) others)) }
{
    let mut entries = Vec::new(alloc);
    let mut left = rows;
    while let [row, rest @ ..] = left {
        let entry = match row_entry(alloc, table, index, row) {
            Ok(Some(entry)) => entry,
            Ok(None) => return Ok(None),
            Err(error) => return Err(error),
        };
        entries.push(entry)?;
        left = rest;
    }
    Ok(Some(entries))
}
