// The order of values under a collation.
ghost use Rattle.std.specs.Prelude.{◌≡◌, map};
ghost use Rattle.std.specs.Char.{to_ascii_lowercase};
ghost use Rattle.std.specs.Cmp.{IsTotalOrder};
ghost use Rattle.std.specs.Cmp.Lexicographic.{slice_cmp};
ghost use Rattle.std.specs.Ordering.{nat_cmp};
ghost use Rattle.rbu_value.specs.declared.value.Value.{Value};
ghost use Rattle.rbu_value.specs.Order.{class_place, without_end_spaces, collated, value_cmp};

use crate::Value;
use std::cmp::Ordering;

/// How texts compare (Datatypes In SQLite, section 7).
#[derive(Clone, Copy, Debug, PartialEq, Eq)]
pub enum Collation {
    /// By their bytes.
    Binary,
    /// By their bytes, with the 26 ASCII letters in lower case. Bytes behind a byte 0 count too, where SQLite passes over them.
    NoCase,
    /// By their bytes, without the spaces at the end.
    RTrim,
}

/// The order of two values: NULL first, then integers by value, then texts by the collation, then blobs by their bytes (Datatypes In SQLite, section 4.1). Takes no memory.
#[tactic(auto, unfolding(crate::specs::Order::value_cmp))]
pub fn compare(a: &Value, b: &Value, collation: Collation) -> Ordering
    ensures { result ≡ value_cmp collation a.now b.now }
{
    match (a, b) {
        (Value::Int(x), Value::Int(y)) => x.cmp(y),
        (Value::Text(x), Value::Text(y)) => compare_texts(x.as_slice(), y.as_slice(), collation),
        (Value::Blob(x), Value::Blob(y)) => x.as_slice().cmp(y.as_slice()),
        _ => class_place(a).cmp(&class_place(b)),
    }
}

/// Under each collation the values are in a total order, up to the values that it holds equal. BINARY holds no two different values equal.
pub fn values_are_ordered()
    ensures total { (collation : Collation) → IsTotalOrder (value_cmp collation) }
    ensures reflexive { (collation : Collation) (a : Value) → value_cmp collation a a ≡ Ordering.Equal }
    ensures binary { (a b : Value) → value_cmp Collation.Binary a b ≡ Ordering.Equal → a ≡ b }
{}

// The place of a value's class in the order.
fn class_place(value: &Value) -> u8
    ensures { result ≡ class_place value.now }
{
    match value {
        Value::Null => 0,
        Value::Int(_) => 1,
        Value::Text(_) => 2,
        Value::Blob(_) => 3,
    }
}

fn compare_texts(a: &[u8], b: &[u8], collation: Collation) -> Ordering
    ensures { result ≡ slice_cmp nat_cmp (collated collation a.now) (collated collation b.now) }
{
    match collation {
        Collation::Binary => a.cmp(b),
        Collation::NoCase => compare_folded(a, b),
        Collation::RTrim => without_end_spaces(a).cmp(without_end_spaces(b)),
    }
}

// The order of two texts whose ASCII letters are read in lower case.
fn compare_folded(a: &[u8], b: &[u8]) -> Ordering
    ensures { result ≡ slice_cmp nat_cmp (map to_ascii_lowercase a.now) (map to_ascii_lowercase b.now) }
{
    let folded = b.iter().map(|byte| byte.to_ascii_lowercase());
    a.iter().map(|byte| byte.to_ascii_lowercase()).cmp(folded)
}

// The text without the spaces at its end.
fn without_end_spaces(mut text: &[u8]) -> &[u8]
    ensures { result.now ≡ without_end_spaces text.entry.now }
{
    while let [front @ .., b' '] = text {
        text = front;
    }
    text
}
