// The values of rows.
ghost use Rattle.std.specs.Prelude.{◌≡◌, ◌≢◌, ◌⊎◌, IfErr, IfOk, length, slice_index_or};
ghost use Rattle.prepared_spec.specs.declared.input_fault.RecordCause.TheVariants.{ShortRecord};
ghost use Rattle.rbu_value.specs.declared.value.Value.TheVariants.{Null};
ghost use Rattle.database_spec.specs.Rows.{with_rowid as with_rowid_of};
ghost use Rattle.rbu_input.specs.declared.values.Unread.{Unread as AnyUnread};
ghost use Rattle.rbu_input.specs.Layouts.{values_at};
ghost use Rattle.rbu_input.specs.RowAnswers.{HasValues, IsUnread, IsUnreadWant, IsCauseOf};

use prepared_spec::RecordCause;
use rbu_value::{Bytes, Value};
use record_codec::{RecordFault, read_record};
use schema_spec::Table;
use std::alloc::{AllocError, Global};
use tree_walk::Row;

/// Why a record is not read as a row.
#[derive(Debug, Clone, Copy, PartialEq, Eq)]
pub(crate) enum Unread {
    Cause(RecordCause),
    /// There is no memory for the values.
    Memory(AllocError),
}

fn copy_value(alloc: Global, value: &Value) -> Result<Value, AllocError>
    ensures { IfOk result (λ copy. copy ≡ value.now) }
{
    match value {
        Value::Null => Ok(Value::Null),
        Value::Int(z) => Ok(Value::Int(*z)),
        Value::Text(text) => Ok(Value::Text(Bytes::of(alloc, text.as_slice())?)),
        Value::Blob(blob) => Ok(Value::Blob(Bytes::of(alloc, blob.as_slice())?)),
    }
}

/// A copy of the value at a place, which is NULL where there is none.
pub(crate) fn copy_at(alloc: Global, values: &[Value], at: usize) -> Result<Value, AllocError>
    ensures { IfOk result (λ copy. copy ≡ slice_index_or values.now at Null) }
{
    match values.get(at) {
        Some(value) => copy_value(alloc, value),
        None => Ok(Value::Null),
    }
}

/// Copies of the values at places.
pub(crate) fn copy_all(
    alloc: Global,
    values: &[Value],
    places: &[usize],
) -> Result<Vec<Value>, AllocError>
    ensures { IfOk result (λ copies. copies.items ≡ values_at values.now places.now) }
{
    let mut copies = Vec::new(alloc);
    let mut left = places;
    while let [at, rest @ ..] = left {
        let copy = copy_at(alloc, values, *at)?;
        copies.push(copy)?;
        left = rest;
    }
    Ok(copies)
}

// Stored values with the rowid in the place of the INTEGER PRIMARY KEY.
fn with_rowid(mut values: Vec<Value>, column: Option<u32>, row: &Row) -> Vec<Value>
    ensures { result.items ≡ with_rowid_of column row.now.rowid values.items }
{
    if let Some(column) = column {
        let at = column as usize;
        if at < values.len() {
            values[at] = Value::Int(row.rowid);
        }
    }
    values
}

fn cause_of(fault: RecordFault) -> Unread
    ensures { IsCauseOf fault result }
{
    match fault {
        RecordFault::ShortHeader => Unread::Cause(RecordCause::ShortHeader),
        RecordFault::ReservedType => Unread::Cause(RecordCause::ReservedType),
        RecordFault::RealValue => Unread::Cause(RecordCause::RealValue),
        RecordFault::BodyLength => Unread::Cause(RecordCause::BodyLength),
        RecordFault::Memory(error) => Unread::Memory(error),
    }
}

// Values of which there is one for each column.
fn fit(values: Vec<Value>, columns: usize) -> Result<Vec<Value>, Unread>
    ensures found { IfOk result (λ fit. (fit.items ≡ values.items) × (length values.items ≡ columns)) }
    ensures fault { IfErr result (λ fault. (fault ≡ AnyUnread.Cause ShortRecord) × (length values.items ≢ columns)) }
{
    if values.len() == columns {
        return Ok(values);
    }
    Err(Unread::Cause(RecordCause::ShortRecord))
}

/// The values of a row of a table: those of its record, of which there has to be one for each column, and its rowid for an INTEGER PRIMARY KEY.
pub(crate) fn row_values(alloc: Global, own: &Table, row: &Row) -> Result<Vec<Value>, Unread>
    ensures found { IfOk result (λ values. HasValues own.now row.now.rowid row.now.payload values.items) }
    ensures fault { IfErr result (λ fault. IsUnreadWant fault ⊎ IsUnread own.now row.now.payload fault) }
{
    match read_record(alloc, row.payload.as_slice()) {
        Ok(stored) => match fit(stored, own.columns.as_slice().len()) {
            Ok(values) => Ok(with_rowid(values, own.rowid_column, row)),
            Err(unread) => Err(unread),
        },
        Err(fault) => Err(cause_of(fault)),
    }
}
