// The row that a prepared row makes.
ghost use Rattle.std.specs.Prelude.{◌≡◌, ◌≤ℤ◌, [], false, ℤ, pos, suc, IfOk, slice_index_or};
ghost use Rattle.rbu_value.specs.declared.value.Value.TheVariants.{Null};
ghost use Rattle.database_spec.specs.Rows.{with_rowid as with_rowid_of};
ghost use Rattle.prepared_spec.specs.Tables.{integer_in as integer_in_of, new_rowid as new_rowid_of};
ghost use Rattle.prepared_spec.specs.StepFaults.{is_spent as is_spent_of};
ghost use Rattle.row_steps.specs.RowSteps.{made_values};

use crate::fault::has_rowid_key;
use owned_list::OwnedList;
use rbu_rows::Prepared;
use rbu_value::Value;
use schema_spec::Table;
use std::alloc::{AllocError, Global};
use value_copies::copy_values;

fn integer_in(value: &Value) -> i64
    ensures { result ≡ integer_in_of value.now }
{
    match value {
        Value::Null => 0,
        Value::Int(number) => *number,
        Value::Text(_) => 0,
        Value::Blob(_) => 0,
    }
}

/// The integer of a key that is the rowid, and 0 of any other.
pub fn key_integer(key: &[Value]) -> i64
    ensures { result ≡ integer_in_of (slice_index_or key.now 0 Null) }
{
    match key {
        [first, ..] => integer_in(first),
        [] => 0,
    }
}

// The rowid of the next new row.
fn new_rowid(table: &Table, g: &i64, taken: u64, prepared: &Prepared) -> i64
    requires from { pos 0 ≤ℤ g.now }
    requires fits { is_spent_of table.now g.now (suc taken) ≡ false }
    ensures { result ≡ new_rowid_of table.now g.now (suc taken) prepared.now }
{
    if has_rowid_key(table) {
        return key_integer(prepared.key.as_slice());
    }
    *g + (taken + 1) as i64
}

// Values with a rowid in the place of the INTEGER PRIMARY KEY.
fn with_rowid(mut values: Vec<Value>, column: Option<u32>, rowid: i64) -> Vec<Value>
    ensures { result.items ≡ with_rowid_of column rowid values.items }
{
    if let Some(column) = column {
        let at = column as usize;
        if at < values.len() {
            values[at] = Value::Int(rowid);
        }
    }
    values
}

/// The row that a prepared row makes where it meets none, by its rowid and its values, so many rows of its group being new before it. New rowids count from `g`, which is not negative; this one may not be over the greatest. Fails where memory runs out.
pub fn made_row(
    alloc: Global,
    table: &Table,
    g: &i64,
    taken: u64,
    prepared: &Prepared,
) -> Result<(i64, OwnedList<Value>), AllocError>
    requires from { pos 0 ≤ℤ g.now }
    requires fits { is_spent_of table.now g.now (suc taken) ≡ false }
    ensures { IfOk result (λ row. row ≡ made_values table.now g.now taken prepared.now) }
{
    let rowid = new_rowid(table, g, taken, prepared);
    let values = copy_values(alloc, prepared.values.as_slice())?;
    Ok((
        rowid,
        OwnedList::from_vec(with_rowid(values, table.rowid_column, rowid)),
    ))
}
