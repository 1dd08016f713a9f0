// Prints the rows of the schema table (Database File Format, section 2.6).
ghost use Rattle.std.specs.Prelude.{◌≡◌, IfOk, None, option_map};
ghost use Rattle.common_spec.specs.Reading.{OrFault, OrNone, Reads, ReadsOrWants};
ghost use Rattle.record_codec.specs.Faults.{IsMemory as IsWant};
ghost use Rattle.dump_spec.specs.SchemaRows.{IsSchemaRecord};
ghost use Rattle.rbu_query.specs.declared.schema.SchemaFault.{SchemaFault};
ghost use Rattle.rbu_query.specs.Rows.{Appends, HasLines, HasFault, IsMemory};

use rbu_value::Value;
use record_codec::{RecordFault, read_record};
use std::alloc::{AllocError, Global};
use table_dump::push_row;
use tree_walk::Row;

/// Why the rows of a schema table have no lines.
#[derive(Debug, Clone, Copy, PartialEq, Eq)]
pub enum SchemaFault {
    /// The record of this row does not decode, or does not have five values: refusal 62.
    SchemaRow { rowid: i64 },
    /// There is no memory for the lines.
    Memory(AllocError),
}

impl From<AllocError> for SchemaFault {
    ghost from_gives = { λ error fault. fault ≡ SchemaFault.Memory error };

    fn from(error: AllocError) -> SchemaFault {
        SchemaFault::Memory(error)
    }
}

// Bytes with this fault have no values, unless memory is wanting.
fn no_values(fault: RecordFault) -> Result<Option<Vec<Value>>, AllocError>
    ensures { IfOk result (λ found. (found ≡ None) × ¬ IsWant fault) }
{
    match fault {
        RecordFault::ShortHeader
        | RecordFault::ReservedType
        | RecordFault::RealValue
        | RecordFault::BodyLength => Ok(None),
        RecordFault::Memory(error) => Err(error),
    }
}

// The five values of a record, or `None` where it has no five.
fn schema_values(alloc: Global, bytes: &[u8]) -> Result<Option<Vec<Value>>, AllocError>
    ensures { IfOk result (λ found. Reads (OrNone (IsSchemaRecord bytes.now)) (option_map (λ values. values.items) found)) }
{
    match read_record(alloc, bytes) {
        Ok(values) if values.len() == 5 => Ok(Some(values)),
        Ok(_) => Ok(None),
        Err(fault) => no_values(fault),
    }
}

// Appends the line of a row. Refuses one whose record is none of the schema table.
fn push_schema_row(alloc: Global, text: &mut Vec<u8>, row: &Row) -> Result<(), SchemaFault>
    ensures { Appends row.now text.old.items text.new.items result }
{
    let rowid = row.rowid;
    match schema_values(alloc, row.payload.as_slice())? {
        Some(values) => Ok(push_row(alloc, text, rowid, &values)?),
        None => Err(SchemaFault::SchemaRow { rowid }),
    }
}

/// The lines of the rows of a schema table, in order: of each its rowid and its five values. Refuses [62], the first row whose record
/// does not decode or does not have five values.
pub fn schema_lines(alloc: Global, rows: &[Row]) -> Result<Vec<u8>, SchemaFault>
    ensures { ReadsOrWants (λ text. text.items) IsMemory (OrFault (HasLines rows.now) (HasFault rows.now)) result }
{
    let mut text = Vec::new(alloc);
    let mut left = rows;
    while let [row, rest @ ..] = left {
        match push_schema_row(alloc, &mut text, row) {
            Ok(()) => left = rest,
            Err(fault) => return Err(fault),
        }
    }
    Ok(text)
}
