// Compares records.
ghost use Rattle.std.specs.Prelude.{◌≡◌, ◌↔◌, ℕ, List, IfSome, IsTrue, None, map};
ghost use Rattle.std.specs.Char.{to_ascii_lowercase};
ghost use Rattle.std.specs.Cmp.Lexicographic.{slice_cmp};
ghost use Rattle.std.specs.Ordering.{nat_cmp};
ghost use Rattle.record_codec.specs.Faults.{HasHeader};
ghost use Rattle.rbu_value.specs.Order.{class_place, collated, value_cmp, without_end_spaces};
ghost use Rattle.database_spec.specs.Keys.{column_cmp};
ghost use Rattle.key_order.specs.Fields.{AreCompared, CannotCompare, ComparesWith, value_of};
ghost use Rattle.key_order.specs.Orders.{Compares, IsEntry};

use crate::fields::{Field, has_values, header_of, next_field};
use crate::order::KeyOrder;
use rbu_value::Collation;
use std::cmp::Ordering;

// The place of a value's class in the order.
fn class_of(field: Field<'_>) -> u8
    ensures { result ≡ class_place (value_of field.entry) }
{
    match field {
        Field::Null => 0,
        Field::Int(_) => 1,
        Field::Text(_) => 2,
        Field::Blob(_) => 3,
    }
}

// The text without the spaces at its end.
fn trimmed(mut text: &[u8]) -> &[u8]
    ensures { result.now ≡ without_end_spaces text.entry.now }
{
    while let [front @ .., b' '] = text {
        text = front;
    }
    text
}

// The order of two texts whose ASCII letters are read in lower case.
fn compare_folded(a: &[u8], b: &[u8]) -> Ordering
    ensures { result ≡ slice_cmp nat_cmp (map to_ascii_lowercase a.now) (map to_ascii_lowercase b.now) }
{
    let folded = b.iter().map(|byte| byte.to_ascii_lowercase());
    a.iter().map(|byte| byte.to_ascii_lowercase()).cmp(folded)
}

fn compare_texts(a: &[u8], b: &[u8], collation: Collation) -> Ordering
    ensures { result ≡ slice_cmp nat_cmp (collated collation a.now) (collated collation b.now) }
{
    match collation {
        Collation::Binary => a.cmp(b),
        Collation::NoCase => compare_folded(a, b),
        Collation::RTrim => trimmed(a).cmp(trimmed(b)),
    }
}

// The order of two values under a collation.
#[tactic(auto, unfolding(rbu_value::specs::Order::value_cmp))]
fn compare_values(a: Field<'_>, b: Field<'_>, collation: Collation) -> Ordering
    ensures { result ≡ value_cmp collation (value_of a.entry) (value_of b.entry) }
{
    match (a, b) {
        (Field::Int(x), Field::Int(y)) => x.cmp(&y),
        (Field::Text(x), Field::Text(y)) => compare_texts(x, y, collation),
        (Field::Blob(x), Field::Blob(y)) => x.cmp(y),
        _ => class_of(a).cmp(&class_of(b)),
    }
}

// The order of two values in a column of a key.
fn compare_column(a: Field<'_>, b: Field<'_>, column: (Collation, bool)) -> Ordering
    ensures { result ≡ column_cmp column (value_of a.entry) (value_of b.entry) }
{
    let found = compare_values(a, b, column.0);
    if column.1 { found.reverse() } else { found }
}

// The order of two records by their serial types and bodies; None where one has too few values.
fn compare_fields(
    a_types: &[u8],
    a_bodies: &[u8],
    b_types: &[u8],
    b_bodies: &[u8],
    order: &KeyOrder,
) -> Option<Ordering>
    ensures found { IfSome result (AreCompared order.now a_types.now a_bodies.now b_types.now b_bodies.now) }
    ensures none { result ≡ None → CannotCompare order.now a_types.now a_bodies.now b_types.now b_bodies.now }
{
    let mut types = a_types;
    let mut bodies = a_bodies;
    let mut other_types = b_types;
    let mut other_bodies = b_bodies;
    for at in 0..order.length() {
        let Some(next) = next_field(types, bodies) else {
            return None;
        };
        let Some(other) = next_field(other_types, other_bodies) else {
            return None;
        };
        match compare_column(next.field, other.field, order.column(at)) {
            Ordering::Less => return Some(Ordering::Less),
            Ordering::Greater => return Some(Ordering::Greater),
            Ordering::Equal => {}
        }
        types = next.types;
        bodies = next.bodies;
        other_types = other.types;
        other_bodies = other.bodies;
    }
    Some(Ordering::Equal)
}

/// An entry that others are compared with: its serial types, and its bodies.
#[derive(Clone, Copy)]
pub struct Key<'a> {
    pub types: &'a [u8],
    pub bodies: &'a [u8],
}

/// An entry to compare others with; None where the header of its record is not whole.
pub fn key_of(bytes: &[u8]) -> Option<Key<'_>>
    ensures { IfSome result (λ key. HasHeader bytes.now key.types.now key.bodies.now) }
{
    let Some((types, bodies)) = header_of(bytes) else {
        return None;
    };
    Some(Key { types, bodies })
}

/// The order of bytes and a key, where both are of records that have the values which it compares: of other bytes no more is looked at than of these, and they may have any order. None where they are not. Takes no memory.
pub fn compare_with(bytes: &[u8], key: Key<'_>, order: &KeyOrder) -> Option<Ordering>
    ensures { IfSome result (λ found. ComparesWith order.now bytes.now key.entry.types.now key.entry.bodies.now found) }
{
    let Some((types, bodies)) = header_of(bytes) else {
        return None;
    };
    compare_fields(types, bodies, key.types, key.bodies, order)
}

/// Whether bytes are a record that has the values which an order compares.
pub fn is_entry(bytes: &[u8], order: &KeyOrder) -> bool
    ensures { IsTrue result ↔ IsEntry order.now bytes.now }
{
    match header_of(bytes) {
        Some((types, bodies)) => has_values(types, bodies, order.length()),
        None => false,
    }
}

/// The order of two records that have the values which it compares; None where one of them is no such record. Takes no memory.
pub fn compare_entries(a: &[u8], b: &[u8], order: &KeyOrder) -> Option<Ordering>
    ensures found { IfSome result (λ found. IsEntry order.now a.now × IsEntry order.now b.now × Compares order.now found a.now b.now) }
    ensures none { result ≡ None → IsEntry order.now a.now → IsEntry order.now b.now → ⊥ }
{
    let Some((a_types, a_bodies)) = header_of(a) else {
        return None;
    };
    let Some((b_types, b_bodies)) = header_of(b) else {
        return None;
    };
    let many = order.length();
    if !has_values(a_types, a_bodies, many) {
        return None;
    }
    if !has_values(b_types, b_bodies, many) {
        return None;
    }
    compare_fields(a_types, a_bodies, b_types, b_bodies, order)
}
