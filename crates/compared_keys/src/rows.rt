// The keys of rows.
ghost use Rattle.std.specs.Prelude.{◌≡◌, IfOk, map, slice_index_or};
ghost use Rattle.std.specs.List.{list_any};
ghost use Rattle.rbu_value.specs.declared.value.Value.TheVariants.{Int, Null};
ghost use Rattle.database_spec.specs.Keys.{is_null as is_null_of};
ghost use Rattle.compared_keys.specs.Keys.{given_key, met_key};

use crate::keys::{ComparedKey, compared_key};
use owned_list::OwnedList;
use rbu_value::{Collation, Value};
use schema_spec::Table;
use std::alloc::{AllocError, Global};
use value_copies::copy_value;

fn is_null(value: &Value) -> bool
    ensures { result ≡ is_null_of value.now }
{
    match value {
        Value::Null => true,
        Value::Int(_) => false,
        Value::Text(_) => false,
        Value::Blob(_) => false,
    }
}

fn has_null(values: &[Value]) -> bool
    ensures { result ≡ list_any is_null_of values.now }
{
    let mut left = values;
    while let [value, rest @ ..] = left {
        if is_null(value) {
            return true;
        }
        left = rest;
    }
    false
}

// A copy of the value at a place, which is NULL where there is none.
fn copy_at(alloc: Global, values: &[Value], at: u32) -> Result<Value, AllocError>
    ensures { IfOk result (λ copy. copy ≡ slice_index_or values.now at Null) }
{
    match values.get(at as usize) {
        Some(value) => copy_value(alloc, value),
        None => Ok(Value::Null),
    }
}

// Copies of the values at places.
fn values_at(alloc: Global, values: &[Value], places: &[u32]) -> Result<Vec<Value>, AllocError>
    ensures { IfOk result (λ copies. copies.items ≡ map (λ at. slice_index_or values.now at Null) places.now) }
{
    let mut copies = Vec::new(alloc);
    let mut left = places;
    while let [at, rest @ ..] = left {
        let copy = copy_at(alloc, values, *at)?;
        copies.push(copy)?;
        left = rest;
    }
    Ok(copies)
}

// The key of a row, by its rowid and its values.
fn row_key(
    alloc: Global,
    table: &Table,
    row: &(i64, OwnedList<Value>),
) -> Result<Vec<Value>, AllocError>
    ensures { IfOk result (λ key. key.items ≡ given_key table.now row.now) }
{
    match table.key.as_slice() {
        [] => {
            let mut key = Vec::new(alloc);
            key.push(Value::Int(row.0))?;
            Ok(key)
        }
        [_, ..] => values_at(alloc, row.1.as_slice(), table.key.as_slice()),
    }
}

/// The key by which prepared rows meet a row, which is given by its rowid and its values; or none where there is a NULL in it, since then none does. Fails where memory runs out.
pub fn key_of_row(
    alloc: Global,
    table: &Table,
    collations: &[Collation],
    row: &(i64, OwnedList<Value>),
) -> Result<Option<ComparedKey>, AllocError>
    ensures { IfOk result (λ key. key ≡ met_key collations.now table.now row.now) }
{
    let key = row_key(alloc, table, row)?;
    if has_null(&key) {
        return Ok(None);
    }
    Ok(Some(compared_key(alloc, collations, &key)?))
}
