// Prepared rows in the order of their keys.
ghost use Rattle.std.specs.Prelude.{◌≡◌, IfOk, List, false, map};
ghost use Rattle.rbu_value.specs.declared.value.Value.TheVariants.{Null};
ghost use Rattle.rbu_value.specs.Order.{value_cmp};
ghost use Rattle.schema_spec.specs.declared.schema.Table.{Table as AnyTable};
ghost use Rattle.prepared_spec.specs.RowKeys.{IsInKeyOrder, key_collations as key_collations_of};
ghost use Rattle.prepared_laws.specs.PaddedKeysLaws.{first_value, padded_cmp, rest_values};
ghost use Rattle.prepared_laws.specs.TablesMadeLaws.{HaveKeys};

use compared_keys::key_collations;
use owned_list::OwnedList;
use rbu_rows::Prepared;
use rbu_value::{Collation, Value, compare};
use schema_spec::Table;
use std::alloc::{AllocError, Global};
use std::cmp::Ordering;

// The first of values, or NULL where there is none.
fn first_or<'a>(values: &'a [Value], null: &'a Value) -> &'a Value
    requires { null.now ≡ Null }
    ensures { result.now ≡ first_value values.now }
{
    match values {
        [value, ..] => value,
        [] => null,
    }
}

// The values behind the first.
fn behind_first(values: &[Value]) -> &[Value]
    ensures { result.now ≡ rest_values values.now }
{
    match values {
        [_, rest @ ..] => rest,
        [] => values,
    }
}

// How two keys compare in their first column.
fn compare_first(collation: Collation, a: &[Value], b: &[Value]) -> Ordering
    ensures { result ≡ value_cmp collation (first_value a.now) (first_value b.now) }
{
    let null = Value::Null;
    compare(first_or(a, &null), first_or(b, &null), collation)
}

// How two keys compare, value by value. A value that is wanting counts as NULL, which makes the order total.
fn compare_keys(collations: &[Collation], a: &[Value], b: &[Value]) -> Ordering
    ensures { result ≡ padded_cmp (map (λ collation. (collation, false)) collations.now) a.now b.now }
{
    let mut left = collations;
    let mut a_left = a;
    let mut b_left = b;
    while let [collation, rest @ ..] = left {
        match compare_first(*collation, a_left, b_left) {
            Ordering::Less => return Ordering::Less,
            Ordering::Equal => {}
            Ordering::Greater => return Ordering::Greater,
        }
        left = rest;
        a_left = behind_first(a_left);
        b_left = behind_first(b_left);
    }
    Ordering::Equal
}

// The rows by their keys, under the collation of each column.
fn sorted_rows(collations: &[Collation], rows: Vec<Prepared>) -> Vec<Prepared>
    ensures { (table : AnyTable) → collations.now ≡ key_collations_of table → HaveKeys table rows.items → IsInKeyOrder table rows.items result.items }
{
    let mut sorted = rows;
    sorted.sort_unstable_by(|a, b| compare_keys(collations, a.key.as_slice(), b.key.as_slice()));
    sorted
}

/// The rows of a batch in the order of their keys, which have a value for each column of the table's key and of which no two are one. Fails where memory runs out.
pub fn rows_in_order(
    alloc: Global,
    table: &Table,
    rows: OwnedList<Prepared>,
) -> Result<OwnedList<Prepared>, AllocError>
    ensures { IfOk result (λ ordered. HaveKeys table.now rows → IsInKeyOrder table.now rows ordered) }
{
    let collations = key_collations(alloc, table)?;
    let sorted = sorted_rows(collations.as_slice(), rows.into_vec());
    Ok(OwnedList::from_vec(sorted))
}
