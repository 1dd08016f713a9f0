// What becomes of the values of a row.
ghost use Rattle.std.specs.Prelude.{◌≡◌, ◌++◌, ℕ, IfOk, List};
ghost use Rattle.std.specs.Option.{option_map};
ghost use Rattle.database_spec.specs.Rows.{with_rowid as with_rowid_of};
ghost use Rattle.prepared_spec.specs.Tables.{marked, met_row};
ghost use Rattle.row_steps.specs.RowSteps.{row_of, values_where};

use owned_list::OwnedList;
use rbu_rows::{Control, Prepared};
use rbu_value::Value;
use schema_spec::Table;
use std::alloc::{AllocError, Global};
use value_copies::{copy_value, copy_values};

// Values with the rowid of a row in the place of the INTEGER PRIMARY KEY.
fn with_rowid(
    mut values: Vec<Value>,
    column: Option<u32>,
    row: &(i64, OwnedList<Value>),
) -> Vec<Value>
    ensures { result.items ≡ with_rowid_of column row.now.0 values.items }
{
    if let Some(column) = column {
        let at = column as usize;
        if at < values.len() {
            values[at] = Value::Int(row.0);
        }
    }
    values
}

// Values, and behind them copies of others.
fn with_rest(
    alloc: Global,
    mut values: Vec<Value>,
    rest: &[Value],
) -> Result<Vec<Value>, AllocError>
    ensures { IfOk result (λ all. all.items ≡ values.items ++ rest.now) }
{
    let mut left = rest;
    while let [value, others @ ..] = left {
        let copy = copy_value(alloc, value)?;
        values.push(copy)?;
        left = others;
    }
    Ok(values)
}

// Copies of old values, the marked ones taken from others.
fn marked_values(
    alloc: Global,
    marks: &[bool],
    values: &[Value],
    old: &[Value],
) -> Result<Vec<Value>, AllocError>
    ensures { IfOk result (λ all. all.items ≡ marked marks.now values.now old.now) }
{
    let mut made = Vec::new(alloc);
    let mut marks_left = marks;
    let mut values_left = values;
    let mut left = old;
    while let [before, rest @ ..] = left {
        let [mark, more @ ..] = marks_left else {
            return with_rest(alloc, made, left);
        };
        let [value, others @ ..] = values_left else {
            return with_rest(alloc, made, left);
        };
        let copy = copy_value(alloc, if *mark { value } else { before })?;
        made.push(copy)?;
        marks_left = more;
        values_left = others;
        left = rest;
    }
    Ok(made)
}

// The same by the row's values alone.
fn values_by(
    alloc: Global,
    table: &Table,
    row: &(i64, OwnedList<Value>),
    prepared: &Prepared,
) -> Result<Option<OwnedList<Value>>, AllocError>
    ensures { IfOk result (λ values. values ≡ values_where table.now row.now.0 row.now.1 prepared.now.control prepared.now.values) }
{
    let given = prepared.values.as_slice();
    let old = row.1.as_slice();
    match &prepared.control {
        Control::Insert => Ok(Some(OwnedList::from_vec(copy_values(alloc, old)?))),
        Control::Replace => {
            let values = copy_values(alloc, given)?;
            Ok(Some(OwnedList::from_vec(with_rowid(values, table.rowid_column, row))))
        }
        Control::Delete => Ok(None),
        Control::Update(marks) => {
            let values = marked_values(alloc, marks.as_slice(), given, old)?;
            Ok(Some(OwnedList::from_vec(with_rowid(values, table.rowid_column, row))))
        }
    }
}

/// The values of a row behind a prepared row that meets it, or none where it goes. The row is given by its rowid and its values; an insertion leaves it.
pub fn met_values(
    alloc: Global,
    table: &Table,
    row: &(i64, OwnedList<Value>),
    prepared: &Prepared,
) -> Result<Option<OwnedList<Value>>, AllocError>
    ensures { IfOk result (λ values. (format : ℕ) (payload : List ℕ)
        → values ≡ option_map (λ after. after.values) (met_row format table.now (row_of row.now payload) prepared.now.control prepared.now.values)) }
{
    values_by(alloc, table, row, prepared)
}
