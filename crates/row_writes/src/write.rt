// What a prepared row writes.
ghost use Rattle.std.specs.Prelude.{◌≡◌, IfOk};
ghost use Rattle.prepared_spec.specs.Tables.{same_values as same_values_of, stored_values as stored_values_of};
ghost use Rattle.row_writes.specs.RowWrites.{Writes, WritesMet, WritesNew, WritesValues, record_of as record_in};

use owned_list::OwnedList;
use rbu_rows::Prepared;
use rbu_value::{Bytes, Collation, Value, compare};
use record_codec::write_record;
use row_steps::{makes_row, met_values};
use schema_spec::Table;
use std::alloc::{AllocError, Global};
use value_copies::copy_values;

/// What a prepared row writes into the tree of its table.
#[derive(Drop)]
pub enum RowWrite {
    /// Nothing: it meets no row and makes none, or the row that it meets stays as it is.
    Nothing,
    /// A row with this record, in the place of the one that it meets if there is one.
    Put(Bytes),
    /// The row that it meets goes.
    Delete,
}

// Values with NULL in the place of the INTEGER PRIMARY KEY.
fn stored_values(mut values: Vec<Value>, column: Option<u32>) -> Vec<Value>
    ensures { result.items ≡ stored_values_of column values.items }
{
    if let Some(column) = column {
        let at = column as usize;
        if at < values.len() {
            values[at] = Value::Null;
        }
    }
    values
}

// The record of a row with these values.
fn record_of(
    alloc: Global,
    table: &Table,
    format: u32,
    values: Vec<Value>,
) -> Result<Bytes, AllocError>
    ensures { IfOk result (λ bytes. bytes ≡ record_in format table.now values.items) }
{
    let stored = stored_values(values, table.rowid_column);
    let record = write_record(alloc, stored.as_slice(), format)?;
    Ok(Bytes::from_vec(record))
}

// Whether two lists have the same values.
fn has_same_values(a: &[Value], b: &[Value]) -> bool
    ensures { result ≡ same_values_of a.now b.now }
{
    let mut left = a;
    let mut others = b;
    while let [value, rest @ ..] = left {
        let [other, more @ ..] = others else {
            return false;
        };
        if !compare(value, other, Collation::Binary).is_eq() {
            return false;
        }
        left = rest;
        others = more;
    }
    others.is_empty()
}

// What is written of a row whose values become others.
fn values_write(
    alloc: Global,
    table: &Table,
    format: u32,
    old: &[Value],
    values: OwnedList<Value>,
) -> Result<RowWrite, AllocError>
    ensures { IfOk result (WritesValues format table.now old.now values) }
{
    if has_same_values(old, values.as_slice()) {
        return Ok(RowWrite::Nothing);
    }
    let record = record_of(alloc, table, format, values.into_vec())?;
    Ok(RowWrite::Put(record))
}

// What is written of the row that is met.
fn met_write(
    alloc: Global,
    table: &Table,
    format: u32,
    row: &(i64, OwnedList<Value>),
    prepared: &Prepared,
) -> Result<RowWrite, AllocError>
    ensures { IfOk result (WritesMet format table.now row.now prepared.now) }
{
    match met_values(alloc, table, row, prepared) {
        Ok(Some(values)) => values_write(alloc, table, format, row.1.as_slice(), values),
        Ok(None) => Ok(RowWrite::Delete),
        Err(error) => Err(error),
    }
}

// What is written where no row is met.
fn new_write(
    alloc: Global,
    table: &Table,
    format: u32,
    prepared: &Prepared,
) -> Result<RowWrite, AllocError>
    ensures { IfOk result (WritesNew format table.now prepared.now) }
{
    if !makes_row(&prepared.control) {
        return Ok(RowWrite::Nothing);
    }
    let values = copy_values(alloc, prepared.values.as_slice())?;
    let record = record_of(alloc, table, format, values)?;
    Ok(RowWrite::Put(record))
}

/// What a prepared row writes under a schema format, where it meets this row, given by its rowid and its values, or none. Fails where memory runs out.
pub fn row_write(
    alloc: Global,
    table: &Table,
    format: u32,
    met: &Option<(i64, OwnedList<Value>)>,
    prepared: &Prepared,
) -> Result<RowWrite, AllocError>
    ensures { IfOk result (Writes format table.now met.now prepared.now) }
{
    match met {
        Some(row) => met_write(alloc, table, format, row, prepared),
        None => new_write(alloc, table, format, prepared),
    }
}
