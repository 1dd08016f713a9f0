// Keys as they compare.
ghost use Rattle.std.specs.Prelude.{◌≡◌, IfOk, map, bytes_eq};
ghost use Rattle.std.specs.Char.{to_ascii_lowercase as lower_of};
ghost use Rattle.std.specs.Ordering.{as_partial_cmp, eq_by_cmp};
ghost use Rattle.std.specs.Cmp.{eq_by_cmp_equiv, partial_equiv_from_equiv, partial_order_from_total};
ghost use Rattle.rbu_value.specs.declared.order.Collation.TheVariants.{Binary};
ghost use Rattle.rbu_value.specs.Order.{collated as collated_of, without_end_spaces as without_end_spaces_of};
ghost use Rattle.prepared_spec.specs.RowKeys.{collations_among as collations_among_of, key_collations as key_collations_of};
ghost use Rattle.compared_keys.specs.Keys.{compared as compared_of, compared_key as compared_key_of, key_order, values_order};
ghost use Rattle.compared_keys.specs.KeysLaws.{key_order-total};

use owned_list::OwnedList;
use rbu_value::{Bytes, Collation, Value, compare};
use schema_spec::Table;
use std::alloc::{AllocError, Global};
use std::cmp::Ordering;

/// A key as it compares: each text has the bytes by which it compares, so that two keys of a table are one exactly where these values are the same.
#[derive(Drop)]
pub struct ComparedKey {
    pub values: OwnedList<Value>,
}

// The order of values one by one, the first that differ deciding.
fn compare_values(a: &[Value], b: &[Value]) -> Ordering
    ensures { result ≡ values_order a.now b.now }
{
    let mut a_left = a;
    let mut b_left = b;
    while let [x, a_rest @ ..] = a_left {
        let [y, b_rest @ ..] = b_left else {
            return Ordering::Greater;
        };
        match compare(x, y, Collation::Binary) {
            Ordering::Less => return Ordering::Less,
            Ordering::Equal => {}
            Ordering::Greater => return Ordering::Greater,
        }
        a_left = a_rest;
        b_left = b_rest;
    }
    if b_left.is_empty() {
        return Ordering::Equal;
    }
    Ordering::Less
}

impl PartialEq for ComparedKey {
    ghost eq = { eq_by_cmp key_order };

    ghost laws = { partial_equiv_from_equiv (eq_by_cmp_equiv key_order-total) };

    fn eq(&self, other: &ComparedKey) -> bool {
        compare_values(self.values.as_slice(), other.values.as_slice()).is_eq()
    }
}

impl Eq for ComparedKey {
    ghost laws = { eq_by_cmp_equiv key_order-total };
}

impl PartialOrd for ComparedKey {
    ghost partial_cmp = { as_partial_cmp key_order };

    ghost laws = { partial_order_from_total key_order-total };

    fn partial_cmp(&self, other: &ComparedKey) -> Option<Ordering> {
        Some(self.cmp(other))
    }
}

impl Ord for ComparedKey {
    ghost use Rattle.std.proofs.Common.{refl};

    ghost cmp = { key_order };

    ghost total = { key_order-total };

    ghost matches_partial_cmp = { λ a b. refl };

    ghost matches_eq = { λ a b. refl };

    fn cmp(&self, other: &ComparedKey) -> Ordering {
        compare_values(self.values.as_slice(), other.values.as_slice())
    }
}

// The text without the spaces at its end.
fn without_end_spaces(mut text: &[u8]) -> &[u8]
    ensures { result.now ≡ without_end_spaces_of text.entry.now }
{
    while let [front @ .., b' '] = text {
        text = front;
    }
    text
}

// The text with the 26 ASCII letters in lower case.
fn lower_case(alloc: Global, text: &[u8]) -> Result<Bytes, AllocError>
    ensures { IfOk result (λ lower. lower ≡ map lower_of text.now) }
{
    let mut lower = Vec::new(alloc);
    let mut left = text;
    while let [byte, rest @ ..] = left {
        lower.push(byte.to_ascii_lowercase())?;
        left = rest;
    }
    Ok(Bytes::from_vec(lower))
}

// The bytes by which a text compares.
fn collated(alloc: Global, collation: Collation, text: &[u8]) -> Result<Bytes, AllocError>
    ensures { IfOk result (λ bytes. bytes ≡ collated_of collation text.now) }
{
    match collation {
        Collation::Binary => Bytes::of(alloc, text),
        Collation::NoCase => lower_case(alloc, text),
        Collation::RTrim => Bytes::of(alloc, without_end_spaces(text)),
    }
}

// A value with the bytes by which it compares.
fn compared(alloc: Global, collation: Collation, value: &Value) -> Result<Value, AllocError>
    ensures { IfOk result (λ seen. seen ≡ compared_of collation value.now) }
{
    match value {
        Value::Null => Ok(Value::Null),
        Value::Int(z) => Ok(Value::Int(*z)),
        Value::Text(text) => Ok(Value::Text(collated(alloc, collation, text.as_slice())?)),
        Value::Blob(blob) => Ok(Value::Blob(Bytes::of(alloc, blob.as_slice())?)),
    }
}

// The values of a key as they compare.
fn compared_values(
    alloc: Global,
    collations: &[Collation],
    key: &[Value],
) -> Result<Vec<Value>, AllocError>
    ensures { IfOk result (λ values. values.items ≡ compared_key_of collations.now key.now) }
{
    let mut values = Vec::new(alloc);
    let mut collations_left = collations;
    let mut left = key;
    while let [collation, more @ ..] = collations_left {
        let [value, rest @ ..] = left else {
            return Ok(values);
        };
        let value = compared(alloc, *collation, value)?;
        values.push(value)?;
        collations_left = more;
        left = rest;
    }
    Ok(values)
}

/// A key as it compares, under the collation of each of its columns. Fails where memory runs out.
pub fn compared_key(
    alloc: Global,
    collations: &[Collation],
    key: &[Value],
) -> Result<ComparedKey, AllocError>
    ensures { IfOk result (λ seen. seen.values ≡ compared_key_of collations.now key.now) }
{
    let values = compared_values(alloc, collations, key)?;
    Ok(ComparedKey {
        values: OwnedList::from_vec(values),
    })
}

// Whether the columns of an index are those of a key.
fn is_over(columns: &[(u32, Collation)], key: &[u32]) -> bool
    ensures { result ≡ bytes_eq (map (λ column. column.0) columns.now) key.now }
{
    let mut columns_left = columns;
    let mut key_left = key;
    while let [column, more @ ..] = columns_left {
        let [place, rest @ ..] = key_left else {
            return false;
        };
        if column.0 != *place {
            return false;
        }
        columns_left = more;
        key_left = rest;
    }
    key_left.is_empty()
}

// The collations of an index.
fn collations_of(alloc: Global, columns: &[(u32, Collation)]) -> Result<Vec<Collation>, AllocError>
    ensures { IfOk result (λ collations. collations.items ≡ map (λ column. column.1) columns.now) }
{
    let mut collations = Vec::new(alloc);
    let mut left = columns;
    while let [column, rest @ ..] = left {
        collations.push(column.1)?;
        left = rest;
    }
    Ok(collations)
}

// BINARY for each column of a key.
fn binary_for(alloc: Global, key: &[u32]) -> Result<Vec<Collation>, AllocError>
    ensures { IfOk result (λ collations. collations.items ≡ map (λ place. Binary) key.now) }
{
    let mut collations = Vec::new(alloc);
    let mut left = key;
    while let [_, rest @ ..] = left {
        collations.push(Collation::Binary)?;
        left = rest;
    }
    Ok(collations)
}

// The collations of a key's columns, by the automatic index over these.
fn collations_among(
    alloc: Global,
    indexes: &[OwnedList<(u32, Collation)>],
    key: &[u32],
) -> Result<Vec<Collation>, AllocError>
    ensures { IfOk result (λ collations. collations.items ≡ collations_among_of indexes.now key.now) }
{
    let mut left = indexes;
    while let [columns, rest @ ..] = left {
        if is_over(columns.as_slice(), key) {
            return collations_of(alloc, columns.as_slice());
        }
        left = rest;
    }
    binary_for(alloc, key)
}

/// The collations of the columns of a table's key; that of its rowid, where it has no PRIMARY KEY (CREATE TABLE, section 3.5). Fails where memory runs out.
pub fn key_collations(alloc: Global, table: &Table) -> Result<Vec<Collation>, AllocError>
    ensures { IfOk result (λ collations. collations.items ≡ key_collations_of table.now) }
{
    if table.key.as_slice().is_empty() {
        let mut collations = Vec::new(alloc);
        collations.push(Collation::Binary)?;
        return Ok(collations);
    }
    collations_among(alloc, table.unique.as_slice(), table.key.as_slice())
}
