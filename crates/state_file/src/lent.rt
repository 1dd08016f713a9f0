// Values whose bytes are lent.
ghost use Rattle.std.specs.Prelude.{◌≡◌, ◌++◌, ◌∷◌, [], map, unwrap_or, IfSome};
ghost use Rattle.std.specs.List.{AllByRecursion};
ghost use Rattle.rbu_value.specs.declared.value.Value.TheVariants as variant;
ghost use Rattle.state_file.specs.State.{eight_values, values_by_key};
ghost use Rattle.state_file.specs.Lent.{IsInRange, value_of};

use crate::state::KeyValues;
use rbu_value::Value;

/// A value of a record, whose bytes are lent.
#[derive(Clone, Copy)]
pub enum Lent<'a> {
    Null,
    Int(i64),
    Text(&'a [u8]),
    Blob(&'a [u8]),
}

/// The value, lent.
pub fn lend(value: &Value) -> Lent<'_>
    ensures value { value_of result ≡ value.now }
    ensures range { IsInRange value.now }
{
    match value {
        Value::Null => Lent::Null,
        Value::Int(number) => Lent::Int(*number),
        Value::Text(bytes) => Lent::Text(bytes.as_slice()),
        Value::Blob(bytes) => Lent::Blob(bytes.as_slice()),
    }
}

/// The values under the keys of a file, lent; where key 10 does not stand, NULL in its place.
pub fn lend_values(values: &KeyValues) -> [Lent<'_>; 9]
    ensures values { map value_of result ≡ eight_values values.now ++ unwrap_or values.now.batch variant.Null ∷ [] }
    ensures range { AllByRecursion IsInRange (values_by_key values.now) }
{
    [
        lend(&values.stage),
        lend(&values.table),
        lend(&values.index),
        lend(&values.row),
        lend(&values.progress),
        lend(&values.sums),
        lend(&values.change_counter),
        lend(&values.log_size),
        lend_any(&values.batch),
    ]
}

// The value, or NULL.
fn lend_any(value: &Option<Value>) -> Lent<'_>
    ensures value { value_of result ≡ unwrap_or value.now variant.Null }
    ensures range { IfSome value.now IsInRange }
{
    match value {
        Some(value) => lend(value),
        None => Lent::Null,
    }
}
