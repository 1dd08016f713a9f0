// Reads the records of rows, which in small files are canonical (Database File Format, section 2.1).
ghost use Rattle.std.specs.Prelude.{◌≡◌, ℤ, ◌≤◌, ◌↔◌, List, IfOk, IfSome, IfNone, IsTrue, MatchOption, FitsSigned, length};
ghost use Rattle.std.specs.Int.{w64};
ghost use Rattle.rbu_value.specs.declared.value.Value.{Value};
ghost use Rattle.format_spec.specs.Record.{canonical_record};
ghost use Rattle.record_codec.specs.Records.{HaveRecord};
ghost use Rattle.small_spec.specs.SmallFile.{IsNullOrText};
ghost use Rattle.small_file.specs.Records.{prepared_values, AreTargetValues, IsTargetRecord};

use rbu_value::Value;
use record_codec::{RecordFault, read_record, write_record};
use std::alloc::{AllocError, Global};

// The values of a payload that is their canonical record. `None` where it is no canonical record.
fn read_canonical(alloc: Global, payload: &[u8]) -> Result<Option<Vec<Value>>, AllocError>
    ensures found { IfOk result (λ answer. IfSome answer (λ values. payload.now ≡ canonical_record 4 values.items)) }
    ensures only { (values : List Value) → HaveRecord 4 values → payload.now ≡ canonical_record 4 values → IfOk result (λ answer. MatchOption answer ⊥ (λ read. read.items ≡ values)) }
{
    let values = match read_record(alloc, payload) {
        Ok(values) => values,
        Err(fault) => match fault {
            RecordFault::Memory(error) => return Err(error),
            _ => return Ok(None),
        },
    };
    let canonical = write_record(alloc, &values, 4)?;
    if canonical.as_slice() == payload {
        Ok(Some(values))
    } else {
        Ok(None)
    }
}

fn is_null_or_text(value: &Value) -> bool
    ensures { IsTrue result ↔ IsNullOrText value.now }
{
    matches!(value, Value::Null | Value::Text(_))
}

// Whether the values are those of a target's row.
fn are_target_values(values: &[Value]) -> bool
    ensures { IsTrue result ↔ AreTargetValues values.now }
{
    match values {
        [Value::Null, value] => is_null_or_text(value),
        _ => false,
    }
}

// The key and the value of a prepared row with these values. `None` where they are not those of an insert.
fn inserted_values(mut values: Vec<Value>) -> Option<(i64, Value)>
    ensures found { IfSome result (λ row. IsNullOrText row.1 × (values.items ≡ prepared_values row.0 row.1)) }
    ensures none { IfNone result ((key : ℤ) (value : Value) → IsNullOrText value → values.items ≡ prepared_values key value → ⊥) }
{
    let key = match values.as_slice() {
        [Value::Int(key), value, Value::Int(0)] if is_null_or_text(value) => *key,
        _ => return None,
    };
    Some((key, values.remove(1)))
}

/// Whether the payload is the record of a target's row: NULL, and NULL or a text.
pub fn is_target_record(alloc: Global, payload: &[u8]) -> Result<bool, AllocError>
    requires { length payload.now ≤ 4096 }
    ensures { IfOk result (λ is. IsTrue is ↔ IsTargetRecord payload.now) }
{
    match read_canonical(alloc, payload)? {
        Some(values) => Ok(are_target_values(values.as_slice())),
        None => Ok(false),
    }
}

/// The key and the value of a prepared row with this payload. `None` where it is not the record of an insert.
pub fn read_prepared(alloc: Global, payload: &[u8]) -> Result<Option<(i64, Value)>, AllocError>
    requires { length payload.now ≤ 4096 }
    ensures found { IfOk result (λ answer. IfSome answer (λ row. IsNullOrText row.1 × (payload.now ≡ canonical_record 4 (prepared_values row.0 row.1)))) }
    ensures only { (key : ℤ) (value : Value) → FitsSigned w64 key → IsNullOrText value → payload.now ≡ canonical_record 4 (prepared_values key value) → IfOk result (λ answer. MatchOption answer ⊥ (λ row. (row.0 ≡ key) × (row.1 ≡ value))) }
{
    match read_canonical(alloc, payload)? {
        Some(values) => Ok(inserted_values(values)),
        None => Ok(None),
    }
}
