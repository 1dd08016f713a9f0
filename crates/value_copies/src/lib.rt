//! Copies of values.
//!
//! The layer above lends a value, or a list of them, and gets one of its own.
#![tactic(auto)]

ghost use Rattle.std.specs.Prelude.{◌≡◌, IfOk};

use rbu_value::{Bytes, Value};
use std::alloc::{AllocError, Global};

/// A copy of a value. Fails where memory runs out.
pub fn copy_value(alloc: Global, value: &Value) -> Result<Value, AllocError>
    ensures { IfOk result (λ copy. copy ≡ value.now) }
{
    match value {
        Value::Null => Ok(Value::Null),
        Value::Int(z) => Ok(Value::Int(*z)),
        Value::Text(text) => Ok(Value::Text(Bytes::of(alloc, text.as_slice())?)),
        Value::Blob(blob) => Ok(Value::Blob(Bytes::of(alloc, blob.as_slice())?)),
    }
}

/// A copy of a list of values. Fails where memory runs out.
pub fn copy_values(alloc: Global, values: &[Value]) -> Result<Vec<Value>, AllocError>
    ensures { IfOk result (λ copies. copies.items ≡ values.now) }
{
    let mut copies = Vec::new(alloc);
    let mut left = values;
    while let [value, rest @ ..] = left {
        let copy = copy_value(alloc, value)?;
        copies.push(copy)?;
        left = rest;
    }
    Ok(copies)
}
