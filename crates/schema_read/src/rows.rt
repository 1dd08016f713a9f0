// Rows of the schema (Database File Format, section 2.6).
ghost use Rattle.std.specs.Prelude.{◌≡◌, [], ◌∷◌, None, IfOk};
ghost use Rattle.common_spec.specs.Reading.{OrNone};
ghost use Rattle.database_spec.specs.SchemaRows.{IsRootValue, IsSchemaRow, IsSqlValue, kind_word};
ghost use Rattle.rbu_value.specs.declared.value.Value.{Value};
ghost use Rattle.record_codec.specs.Faults.{IsMemory as IsWant};
ghost use Rattle.schema_read.specs.Rows.{IsRowIn, IsRowOf, member_of};

use database_spec::{SchemaKind, SchemaRow};
use rbu_value::{Bytes, Value};
use record_codec::{RecordFault, read_record};
use std::alloc::{AllocError, Global};
use tree_walk::Row;

// The values of a row.
#[derive(Drop)]
struct RowValues {
    kind: Value,
    name: Value,
    table: Value,
    root: Value,
    sql: Value,
}

// What a word in the column `type` says.
fn kind_of(word: &[u8]) -> Option<SchemaKind>
    ensures { OrNone (λ kind. word.now ≡ kind_word kind) result }
{
    if word == b"table".as_slice() {
        return Some(SchemaKind::Table);
    }
    if word == b"index".as_slice() {
        return Some(SchemaKind::Index);
    }
    if word == b"view".as_slice() {
        return Some(SchemaKind::View);
    }
    if word == b"trigger".as_slice() {
        return Some(SchemaKind::Trigger);
    }
    None
}

fn text_of(value: Value) -> Option<Bytes>
    ensures { OrNone (λ text. value ≡ Value.Text text) result }
{
    match value {
        Value::Null => None,
        Value::Int(_) => None,
        Value::Text(text) => Some(text),
        Value::Blob(_) => None,
    }
}

fn kind_in(value: Value) -> Option<SchemaKind>
    ensures { OrNone (λ kind. value ≡ Value.Text (kind_word kind)) result }
{
    match text_of(value) {
        Some(word) => kind_of(word.as_slice()),
        None => None,
    }
}

fn number_of(number: i64) -> Option<u64>
    ensures { OrNone (IsRootValue (Value.Int number)) result }
{
    if number < 0 {
        return None;
    }
    Some(number as u64)
}

fn root_of(value: Value) -> Option<u64>
    ensures { OrNone (IsRootValue value) result }
{
    match value {
        Value::Null => Some(0),
        Value::Int(number) => number_of(number),
        Value::Text(_) => None,
        Value::Blob(_) => None,
    }
}

fn sql_of(value: Value) -> Option<Option<Bytes>>
    ensures { OrNone (IsSqlValue value) result }
{
    match value {
        Value::Null => Some(None),
        Value::Int(_) => None,
        Value::Text(text) => Some(Some(text)),
        Value::Blob(_) => None,
    }
}

// The values of a record, where it has five.
fn five_of(mut values: Vec<Value>) -> Option<RowValues>
    ensures { OrNone (λ five. values.items ≡ five.kind ∷ five.name ∷ five.table ∷ five.root ∷ five.sql ∷ []) result }
{
    let sql = values.pop()?;
    let root = values.pop()?;
    let table = values.pop()?;
    let name = values.pop()?;
    let kind = values.pop()?;
    if values.is_empty() {
        return Some(RowValues {
            kind,
            name,
            table,
            root,
            sql,
        });
    }
    None
}

// The row that the values say.
fn row_of(rowid: i64, values: RowValues) -> Option<SchemaRow>
    ensures { OrNone (IsRowOf rowid values) result }
{
    let kind = kind_in(values.kind)?;
    let name = text_of(values.name)?;
    let table = text_of(values.table)?;
    let root = root_of(values.root)?;
    let sql = sql_of(values.sql)?;
    Some(SchemaRow {
        rowid,
        kind,
        name,
        table,
        root,
        sql,
    })
}

// A record with this fault is no row, unless memory is wanting.
fn no_row(fault: RecordFault) -> Result<Option<SchemaRow>, AllocError>
    ensures { IfOk result (λ found. (found ≡ None) × ¬ IsWant fault) }
{
    match fault {
        RecordFault::ShortHeader
        | RecordFault::ReservedType
        | RecordFault::RealValue
        | RecordFault::BodyLength => Ok(None),
        RecordFault::Memory(error) => Err(error),
    }
}

// The row of the values of a record.
fn row_in(rowid: i64, values: Vec<Value>) -> Option<SchemaRow>
    ensures { OrNone (IsRowIn rowid values.items) result }
{
    match five_of(values) {
        Some(five) => row_of(rowid, five),
        None => None,
    }
}

// The row that a record says, or `None` where it says none.
fn record_row(alloc: Global, rowid: i64, bytes: &[u8]) -> Result<Option<SchemaRow>, AllocError>
    ensures { IfOk result (OrNone (IsSchemaRow (record { rowid = rowid; payload = bytes.now }))) }
{
    match read_record(alloc, bytes) {
        Ok(values) => Ok(row_in(rowid, values)),
        Err(fault) => no_row(fault),
    }
}

/// The row of the schema that a member of its tree is, or `None` where it is none.
pub(crate) fn schema_row(alloc: Global, member: &Row) -> Result<Option<SchemaRow>, AllocError>
    ensures { IfOk result (OrNone (IsSchemaRow (member_of member.now))) }
{
    let rowid = member.rowid;
    record_row(alloc, rowid, member.payload.as_slice())
}
