// What is wrong with a prepared row.
ghost use Rattle.std.specs.Prelude.{◌≡◌, ◌+◌, ◌↔◌, ◌≤◌, IsTrue, None, option_copied, true, false, slice_index_or, replicate};
ghost use Rattle.std.specs.List.{list_any};
ghost use Rattle.common_spec.specs.Reading.{OrNone};
ghost use Rattle.rbu_value.specs.declared.value.Value.TheVariants.{Null};
ghost use Rattle.database_spec.specs.Keys.{is_null as is_null_of};
ghost use Rattle.prepared_spec.specs.RowKeys.{has_rowid_key as has_rowid_key_of};
ghost use Rattle.prepared_spec.specs.PreparedRows.{FirstChanged, IsChanged, is_integer as is_integer_of, is_key as is_key_of, key_changed as key_changed_of, marked_key as marked_key_of, uses as uses_of};

use rbu_rows::Control;
use rbu_value::{Bytes, Value, keeps_class};
use schema_spec::{Column, Table};

fn is_null(value: &Value) -> bool
    ensures { result ≡ is_null_of value.now }
{
    match value {
        Value::Null => true,
        Value::Int(_) => false,
        Value::Text(_) => false,
        Value::Blob(_) => false,
    }
}

/// Whether a NULL is among values.
pub(crate) fn has_null(values: &[Value]) -> bool
    ensures { result ≡ list_any is_null_of values.now }
{
    values.iter().any(is_null)
}

/// Whether the first value of a key is an integer.
pub(crate) fn is_integer_key(key: &[Value]) -> bool
    ensures { result ≡ is_integer_of (slice_index_or key.now 0 Null) }
{
    match key {
        [Value::Int(_), ..] => true,
        [Value::Null, ..] => false,
        [Value::Text(_), ..] => false,
        [Value::Blob(_), ..] => false,
        [] => false,
    }
}

/// Whether the key of a table is its rowid.
pub(crate) fn has_rowid_key(table: &Table) -> bool
    ensures { result ≡ has_rowid_key_of table.now }
{
    match table.key.as_slice() {
        [] => true,
        [_, ..] => table.rowid_column.is_some(),
    }
}

// Whether the column at a place is one of a key.
fn is_key(at: usize, key: &[u32]) -> bool
    ensures { result ≡ is_key_of at key.now }
{
    key.iter().any(|place| *place as usize == at)
}

// The name of the first marked column that is one of the key.
fn marked_key<'a>(key: &[u32], columns: &'a [Column], marks: &[bool]) -> Option<&'a Bytes>
    ensures { option_copied result ≡ marked_key_of key.now 0 columns.now marks.now }
{
    let mut at = 0;
    let mut columns_left = columns;
    let mut marks_left = marks;
    while let [column, more @ ..] = columns_left {
        let [mark, rest @ ..] = marks_left else {
            return None;
        };
        if *mark && is_key(at, key) {
            return Some(&column.name);
        }
        at += 1;
        columns_left = more;
        marks_left = rest;
    }
    None
}

/// The name of the first column of a target's key that an update marks.
pub(crate) fn key_changed<'a>(target: &'a Table, control: &Control) -> Option<&'a Bytes>
    ensures { option_copied result ≡ key_changed_of target.now control.now }
{
    match control {
        Control::Update(marks) => marked_key(
            target.key.as_slice(),
            target.columns.as_slice(),
            marks.as_slice(),
        ),
        Control::Insert => None,
        Control::Replace => None,
        Control::Delete => None,
    }
}

// Whether a column stores its value in another class, where it uses it.
fn is_changed(key: &[u32], at: usize, column: &Column, used: bool, value: &Value) -> bool
    ensures { IsTrue result ↔ IsChanged key.now at column.now used value.now }
{
    (used || is_key(at, key)) && !keeps_class(value, column.affinity)
}

/// The name of the first column that is used, or is one of the key, and would store its value in another class.
pub(crate) fn class_changed<'a>(
    key: &[u32],
    columns: &'a [Column],
    used: &[bool],
    values: &[Value],
) -> Option<&'a Bytes>
    ensures { OrNone (FirstChanged key.now 0 columns.now used.now values.now) (option_copied result) }
{
    let mut at = 0;
    let mut columns_left = columns;
    let mut used_left = used;
    let mut values_left = values;
    while let [column, more @ ..] = columns_left {
        let [uses, others @ ..] = used_left else {
            return None;
        };
        let [value, rest @ ..] = values_left else {
            return None;
        };
        if is_changed(key, at, column, *uses, value) {
            return Some(&column.name);
        }
        at += 1;
        columns_left = more;
        used_left = others;
        values_left = rest;
    }
    None
}

/// Which columns a control uses, of which there are as many as items in `every`, all of them true, and in `no`, all of them false.
pub(crate) fn uses<'a>(
    control: &'a Control,
    every: &'a [bool],
    no: &'a [bool],
    count: usize,
) -> &'a [bool]
    requires every { every.now ≡ replicate count true }
    requires no { no.now ≡ replicate count false }
    ensures { result.now ≡ uses_of control.now count }
{
    match control {
        Control::Insert => every,
        Control::Replace => every,
        Control::Delete => no,
        Control::Update(marks) => marks.as_slice(),
    }
}
