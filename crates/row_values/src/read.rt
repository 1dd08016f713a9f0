// The values of rows.
ghost use Rattle.std.specs.Prelude.{◌≡◌, ◌≢◌, ◌⊎◌, IfErr, IfOk, length};
ghost use Rattle.prepared_spec.specs.declared.input_fault.RecordCause.TheVariants.{ShortRecord};
ghost use Rattle.database_spec.specs.Rows.{with_rowid as with_rowid_of};
ghost use Rattle.row_values.specs.declared.read.Unread.{Unread as AnyUnread};
ghost use Rattle.row_values.specs.Values.{HasValues, IsCauseOf, IsUnread, IsWant};

use prepared_spec::RecordCause;
use rbu_value::Value;
use record_codec::{RecordFault, read_record};
use schema_spec::Table;
use std::alloc::{AllocError, Global};
use tree_walk::Row;

/// Why a record is not read as a row.
#[derive(Debug, Clone, Copy, PartialEq, Eq)]
pub enum Unread {
    /// It is none, for this cause.
    Cause(RecordCause),
    /// There is no memory for the values.
    Memory(AllocError),
}

// Stored values with the rowid in the place of the INTEGER PRIMARY KEY.
fn with_rowid(mut values: Vec<Value>, column: Option<u32>, row: &Row) -> Vec<Value>
    ensures { result.items ≡ with_rowid_of column row.now.rowid values.items }
{
    if let Some(column) = column {
        let at = column as usize;
        if at < values.len() {
            values[at] = Value::Int(row.rowid);
        }
    }
    values
}

fn cause_of(fault: RecordFault) -> Unread
    ensures { IsCauseOf fault result }
{
    match fault {
        RecordFault::ShortHeader => Unread::Cause(RecordCause::ShortHeader),
        RecordFault::ReservedType => Unread::Cause(RecordCause::ReservedType),
        RecordFault::RealValue => Unread::Cause(RecordCause::RealValue),
        RecordFault::BodyLength => Unread::Cause(RecordCause::BodyLength),
        RecordFault::Memory(error) => Unread::Memory(error),
    }
}

// Values of which there is one for each column.
fn fit(values: Vec<Value>, columns: usize) -> Result<Vec<Value>, Unread>
    ensures found { IfOk result (λ fit. (fit.items ≡ values.items) × (length values.items ≡ columns)) }
    ensures fault { IfErr result (λ fault. (fault ≡ AnyUnread.Cause ShortRecord) × (length values.items ≢ columns)) }
{
    if values.len() == columns {
        return Ok(values);
    }
    Err(Unread::Cause(RecordCause::ShortRecord))
}

/// The values of a row of a table: those of its record, of which there has to be one for each column, and its rowid for an INTEGER PRIMARY KEY.
pub fn row_values(alloc: Global, table: &Table, row: &Row) -> Result<Vec<Value>, Unread>
    ensures found { IfOk result (λ values. HasValues table.now row.now.rowid row.now.payload values.items) }
    ensures fault { IfErr result (λ fault. IsWant fault ⊎ IsUnread table.now row.now.payload fault) }
{
    match read_record(alloc, row.payload.as_slice()) {
        Ok(stored) => match fit(stored, table.columns.as_slice().len()) {
            Ok(values) => Ok(with_rowid(values, table.rowid_column, row)),
            Err(unread) => Err(unread),
        },
        Err(fault) => Err(cause_of(fault)),
    }
}
