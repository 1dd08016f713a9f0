// NULLs that a prepared row writes.
ghost use Rattle.std.specs.Prelude.{◌≡◌, length, option_copied, replicate, true};
ghost use Rattle.database_spec.specs.Keys.{is_null as is_null_of};
ghost use Rattle.prepared_spec.specs.StepFaults.{is_place as is_place_of, null_column};
ghost use Rattle.row_steps.specs.RowSteps.{written_null as written_null_of};

use rbu_rows::{Control, Prepared};
use rbu_value::{Bytes, Value};
use schema_spec::{Column, Table};

fn is_null(value: &Value) -> bool
    ensures { result ≡ is_null_of value.now }
{
    match value {
        Value::Null => true,
        Value::Int(_) => false,
        Value::Text(_) => false,
        Value::Blob(_) => false,
    }
}

fn is_place(at: usize, place: Option<u32>) -> bool
    ensures { result ≡ is_place_of at place }
{
    match place {
        Some(place) => at == place as usize,
        None => false,
    }
}

// The name of the first column whose value is NULL and may not be, where all are written.
fn null_among<'a>(rowid: Option<u32>, columns: &'a [Column], values: &[Value]) -> Option<&'a Bytes>
    ensures { option_copied result ≡ null_column rowid 0 columns.now (replicate (length columns.now) true) values.now }
{
    let mut at = 0;
    let mut columns_left = columns;
    let mut values_left = values;
    while let [column, more @ ..] = columns_left {
        let [value, rest @ ..] = values_left else {
            return None;
        };
        if column.not_null && is_null(value) && !is_place(at, rowid) {
            return Some(&column.name);
        }
        at += 1;
        columns_left = more;
        values_left = rest;
    }
    None
}

// The name of the first marked column whose value is NULL and may not be.
fn null_marked<'a>(
    rowid: Option<u32>,
    columns: &'a [Column],
    marks: &[bool],
    values: &[Value],
) -> Option<&'a Bytes>
    ensures { option_copied result ≡ null_column rowid 0 columns.now marks.now values.now }
{
    let mut at = 0;
    let mut columns_left = columns;
    let mut marks_left = marks;
    let mut values_left = values;
    while let [column, more @ ..] = columns_left {
        let [mark, others @ ..] = marks_left else {
            return None;
        };
        let [value, rest @ ..] = values_left else {
            return None;
        };
        if *mark && column.not_null && is_null(value) && !is_place(at, rowid) {
            return Some(&column.name);
        }
        at += 1;
        columns_left = more;
        marks_left = others;
        values_left = rest;
    }
    None
}

/// The name of the first column that a prepared row writes as NULL and that may not be.
pub(crate) fn written_null<'a>(
    table: &'a Table,
    met: bool,
    prepared: &Prepared,
) -> Option<&'a Bytes>
    ensures { option_copied result ≡ written_null_of table.now met prepared.now }
{
    let columns = table.columns.as_slice();
    let values = prepared.values.as_slice();
    match &prepared.control {
        Control::Insert => null_among(table.rowid_column, columns, values),
        Control::Replace => null_among(table.rowid_column, columns, values),
        Control::Delete => None,
        Control::Update(marks) => {
            if met {
                null_marked(table.rowid_column, columns, marks.as_slice(), values)
            } else {
                None
            }
        }
    }
}
