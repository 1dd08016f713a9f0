// Reads the rows of a state file. What is no state file may be read as some values: it is told by writing them again.
ghost use Rattle.std.specs.Prelude.{◌≡◌, ◌+◌, ◌*◌, ◌<◌, ◌≤◌, ◌^◌, [], ◌∷◌, ℕ, List, Some, IfOk, MatchOption, length};
ghost use Rattle.rbu_value.specs.declared.value.Value.{Value};
ghost use Rattle.rbu_value.specs.declared.value.Value.TheVariants.{Null};
ghost use Rattle.format_spec.specs.Record.{canonical_record};
ghost use Rattle.record_codec.specs.Records.{HaveRecord, IsStored};
ghost use Rattle.state_file.specs.Reading.{HasRows};
ghost use Rattle.state_file.specs.StateFile.{row_cell};

use byte_fields::u16_at;
use cell_codec::read_varint;
use rbu_value::Value;
use record_codec::{RecordFault, read_record};
use std::alloc::{AllocError, Global};

// The second of two values.
fn second_of(mut values: Vec<Value>) -> Option<Value>
    ensures { (value : Value) → values.items ≡ Null ∷ value ∷ [] → result ≡ Some value }
{
    if values.len() == 2 {
        values.pop()
    } else {
        None
    }
}

// The value of a row with this payload.
fn read_payload(alloc: Global, payload: &[u8]) -> Result<Option<Value>, AllocError>
    ensures { (value : Value) → HaveRecord 4 (Null ∷ value ∷ []) → payload.now ≡ canonical_record 4 (Null ∷ value ∷ []) → IfOk result (λ answer. answer ≡ Some value) }
{
    match read_record(alloc, payload) {
        Ok(values) => Ok(second_of(values)),
        Err(fault) => match fault {
            RecordFault::Memory(error) => Err(error),
            _ => Ok(None),
        },
    }
}

// The value of a row.
fn read_row(alloc: Global, cell: &[u8]) -> Result<Option<Value>, AllocError>
    ensures { (key : ℕ) (value : Value) → key < 2 ^ 32 → length cell.now < 2 ^ 32 → IsStored value → cell.now ≡ row_cell key value → IfOk result (λ answer. answer ≡ Some value) }
{
    let Some((_, payload_bytes)) = read_varint(cell) else {
        return Ok(None);
    };
    let behind = &cell[payload_bytes..];
    let Some((_, key_bytes)) = read_varint(behind) else {
        return Ok(None);
    };
    read_payload(alloc, &behind[key_bytes..])
}

/// The values in the rows of a page, where that has at most nine.
pub fn read_rows(alloc: Global, page: &[u8]) -> Result<Option<Vec<Value>>, AllocError>
    requires { length page.now ≡ 4096 }
    ensures { (values : List Value) → HasRows page.now values → IfOk result (λ answer. MatchOption answer ⊥ (λ read. read.items ≡ values)) }
{
    let count = usize::from(u16_at(page, 3));
    if count > 9 {
        return Ok(None);
    }
    let mut values = Vec::new(alloc);
    let mut end = page.len();
    for index in 0..count {
        let start = usize::from(u16_at(page, 8 + 2 * index));
        if start > end {
            return Ok(None);
        }
        let Some(value) = read_row(alloc, &page[start..end])? else {
            return Ok(None);
        };
        values.push(value)?;
        end = start;
    }
    Ok(Some(values))
}
