// Compares the entries of an index with those of the rows of its table (Database File Format, section 2.4).
ghost use Rattle.std.specs.Prelude.{◌≡◌, ◌≢◌, ◌+◌, ◌<◌, ◌↔◌, ◌∷◌, ◌++◌, [], ℤ, List, IfNone, IsTrue, false, length, take};
ghost use Rattle.rbu_value.specs.Order.{value_cmp};
ghost use Rattle.std.specs.List.{list_any};
ghost use Rattle.rbu_value.specs.declared.value.Value.{Value};
ghost use Rattle.rbu_value.specs.declared.value.Value.TheVariants.{Int};
ghost use Rattle.schema_spec.specs.declared.schema.Index.{Index};
ghost use Rattle.tree_spec.specs.Trees.{Member};
ghost use Rattle.database_spec.specs.Keys.{IsProjection, is_null as is_null_of, last_value, order_of};
ghost use Rattle.database_spec.specs.Rows.{TableRow};
ghost use Rattle.db_check.specs.Compares.{AreMembersOf, ClashIn, ClashesWith, FirstOf, IsComparison, Tells, TellsOfFirst};

use crate::members::{columns_order, entry_order};
use crate::walk::{CheckedTree, Comparison};
use owned_list::OwnedList;
use rbu_value::{Collation, Value, compare};
use std::cmp::Ordering;

// Whether two values are the same.
fn is_same(a: &Value, b: &Value) -> bool
    ensures { IsTrue result ↔ (value_cmp Collation.Binary a.now b.now ≡ Ordering.Equal) }
{
    compare(a, b, Collation::Binary) == Ordering::Equal
}

// Whether two lists of values are the same.
fn are_same(a: &[Value], b: &[Value]) -> bool
    ensures same { IsTrue result → a.now ≡ b.now }
    ensures unlike { result ≡ false → a.now ≢ b.now }
{
    if a.len() != b.len() {
        return false;
    }
    for at in 0..a.len() {
        if !is_same(&a[at], &b[at]) {
            return false;
        }
    }
    true
}

// The rowid of an entry.
fn rowid_of(columns: &[(Collation, bool)], entry: &[Value]) -> i64
    ensures { (rowid : ℤ) → last_value columns.now entry.now ≡ Int rowid → result ≡ rowid }
{
    match entry.get(columns.len()) {
        Some(Value::Int(rowid)) => *rowid,
        _ => 0,
    }
}

// Whether a value is NULL.
fn is_null(value: &Value) -> bool
    ensures { result ≡ is_null_of value.now }
{
    match value {
        Value::Null => true,
        Value::Int(_) => false,
        Value::Text(_) => false,
        Value::Blob(_) => false,
    }
}

// Whether a NULL stands among the first values of an entry.
fn has_null(columns: &[(Collation, bool)], entry: &[Value]) -> bool
    ensures { result ≡ list_any is_null_of (take (length columns.now) entry.now) }
{
    match (columns, entry) {
        ([_, columns @ ..], [value, entry @ ..]) => is_null(value) || has_null(columns, entry),
        _ => false,
    }
}

// Whether two entries agree in the columns of an index, and no NULL is among these.
fn clash(columns: &[(Collation, bool)], a: &[Value], b: &[Value]) -> bool
    ensures { IsTrue result ↔ ClashIn columns.now a.now b.now }
{
    columns_order(columns, a, b) == Ordering::Equal
        && !has_null(columns, a)
        && !has_null(columns, b)
}

// The rowid of that of two entries which stands first; where neither does, both have one rowid.
fn first_of(columns: &[(Collation, bool)], a: &[Value], b: &[Value]) -> i64
    ensures { FirstOf columns.now a.now b.now result }
{
    if entry_order(columns, b, a) == Ordering::Less {
        return rowid_of(columns, b);
    }
    rowid_of(columns, a)
}

// Whether an entry of a unique index clashes with the last one.
fn clashes(tree: &CheckedTree<'_>, compared: &Comparison, entry: &[Value]) -> bool
    ensures { IsTrue result ↔ IsTrue tree.now.unique × ClashesWith tree.now.columns compared.now.last entry.now }
{
    if !tree.unique {
        return false;
    }
    match &compared.last {
        Some(last) => clash(tree.columns.as_slice(), last.as_slice(), entry),
        None => false,
    }
}

// The rowid of the next entry, or of the next row's, where one of them disagrees and all before agree.
fn told_at(tree: &CheckedTree<'_>, compared: &Comparison, entry: &[Value]) -> Option<i64>
    requires { compared.now.told ≡ None }
    ensures few { IfNone result (compared.now.agreed < usize.MAX) }
    ensures tells { (entries : List (List Value)) → IsComparison tree.now entries compared.now
        → TellsOfFirst tree.now (entries ++ entry.now ∷ []) (compared.now.agreed + 1) result }
{
    let columns = tree.columns.as_slice();
    let Some(row) = tree.expected.get(compared.agreed) else {
        return Some(rowid_of(columns, entry));
    };
    if !are_same(entry, row.as_slice()) {
        return Some(first_of(columns, entry, row.as_slice()));
    }
    if clashes(tree, compared, entry) {
        return Some(rowid_of(columns, entry));
    }
    None
}

// Compares the next entry, where all before agree.
fn compare_next(tree: &CheckedTree<'_>, compared: &mut Comparison, entry: &[Value])
    ensures last { compared.new.last ≡ compared.old.last }
    ensures tells { (entries : List (List Value)) → IsComparison tree.now entries compared.old
        → TellsOfFirst tree.now (entries ++ entry.now ∷ []) compared.new.agreed compared.new.told }
{
    if compared.told.is_some() {
        return;
    }
    match told_at(tree, compared, entry) {
        Some(rowid) => compared.told = Some(rowid),
        None => compared.agreed += 1,
    }
}

/// Takes an entry of an index that stands behind all that were found before.
pub fn compare_entry(tree: &CheckedTree<'_>, compared: &mut Comparison, entry: OwnedList<Value>)
    ensures { (entries : List (List Value)) → IsComparison tree.now entries compared.old → IsComparison tree.now (entries ++ entry ∷ []) compared.new }
{
    compare_next(tree, compared, entry.as_slice());
    compared.last = Some(entry);
}

/// The rowid of the first entry that disagrees, among those of an index, all of which were found in order, and those of the rows of its table: one that stands on one side only, or that clashes with the one before it in a unique index.
pub fn first_that_disagrees(tree: &CheckedTree<'_>, compared: &Comparison) -> Option<i64>
    ensures { (index : Index) (rows : List TableRow) (members : List Member) (entries : List (List Value)) → order_of index ≡ tree.now.columns → index.unique ≡ tree.now.unique
        → AreMembersOf index members entries → IsProjection index rows tree.now.expected.now → IsComparison tree.now entries compared.now → Tells index rows members result }
{
    if compared.told.is_some() {
        return compared.told;
    }
    match tree.expected.get(compared.agreed) {
        Some(row) => Some(rowid_of(tree.columns.as_slice(), row.as_slice())),
        None => None,
    }
}
