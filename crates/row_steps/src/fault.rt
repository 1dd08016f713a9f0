// The constraint that a prepared row breaks.
ghost use Rattle.std.specs.Prelude.{◌≡◌, ◌≤ℤ◌, ℕ, ℤ, pos, suc, IfOk, List};
ghost use Rattle.database_spec.specs.Rows.{TableRow};
ghost use Rattle.prepared_spec.specs.RowKeys.{has_rowid_key as has_rowid_key_of, is_met};
ghost use Rattle.prepared_spec.specs.Tables.{makes_row as makes_row_of};
ghost use Rattle.prepared_spec.specs.StepFaults.{is_insert as is_insert_of, is_spent as is_spent_of, row_fault as row_fault_of};
ghost use Rattle.row_steps.specs.RowSteps.{fault_where};

use crate::nulls::written_null;
use prepared_spec::Violation;
use rbu_rows::{Control, Prepared};
use rbu_value::Bytes;
use schema_spec::Table;
use std::alloc::{AllocError, Global};

// Whether the key of a table is its rowid.
pub(crate) fn has_rowid_key(table: &Table) -> bool
    ensures { result ≡ has_rowid_key_of table.now }
{
    match table.key.as_slice() {
        [] => true,
        [_, ..] => table.rowid_column.is_some(),
    }
}

fn is_insert(control: &Control) -> bool
    ensures { result ≡ is_insert_of control.now }
{
    match control {
        Control::Insert => true,
        Control::Replace => false,
        Control::Delete => false,
        Control::Update(_) => false,
    }
}

/// Whether a prepared row of this control makes a row where it meets none: an insertion or a replacement.
pub fn makes_row(control: &Control) -> bool
    ensures { result ≡ makes_row_of control.now }
{
    match control {
        Control::Insert => true,
        Control::Replace => true,
        Control::Delete => false,
        Control::Update(_) => false,
    }
}

// Whether the next new row would have a rowid over the greatest.
fn is_spent(table: &Table, g: &i64, taken: u64) -> bool
    requires { pos 0 ≤ℤ g.now }
    ensures { result ≡ is_spent_of table.now g.now (suc taken) }
{
    !has_rowid_key(table) && (i64::MAX - *g) as u64 <= taken
}

// The same by whether a row is met.
fn fault_by(
    alloc: Global,
    name: &[u8],
    table: &Table,
    g: &i64,
    taken: u64,
    met: bool,
    prepared: &Prepared,
) -> Result<Option<Violation>, AllocError>
    requires { pos 0 ≤ℤ g.now }
    ensures { IfOk result (λ fault. fault ≡ fault_where name.now table.now g.now taken met prepared.now) }
{
    if let Some(column) = written_null(table, met, prepared) {
        return Ok(Some(Violation::NotNull {
            table: Bytes::of(alloc, name)?,
            data_rowid: prepared.data_rowid,
            column: Bytes::of(alloc, column.as_slice())?,
        }));
    }
    if is_insert(&prepared.control) && met {
        return Ok(Some(Violation::KeyPresent {
            table: Bytes::of(alloc, name)?,
            data_rowid: prepared.data_rowid,
        }));
    }
    if makes_row(&prepared.control) && !met && is_spent(table, g, taken) {
        return Ok(Some(Violation::RowidsSpent {
            table: Bytes::of(alloc, name)?,
        }));
    }
    Ok(None)
}

/// The constraint that a prepared row breaks of a table of this name, or none, where it is known whether it meets a row of the table as it stands before its batch, and so many rows of its group are new. New rowids count from `g`, which is not negative.
pub fn row_fault(
    alloc: Global,
    name: &[u8],
    table: &Table,
    g: &i64,
    taken: u64,
    met: bool,
    prepared: &Prepared,
) -> Result<Option<Violation>, AllocError>
    requires { pos 0 ≤ℤ g.now }
    ensures of_rows { IfOk result (λ fault. (before : List TableRow) → is_met table.now before prepared.now ≡ met → fault ≡ row_fault_of name.now table.now g.now taken before prepared.now) }
    ensures known { IfOk result (λ fault. fault ≡ fault_where name.now table.now g.now taken met prepared.now) }
{
    fault_by(alloc, name, table, g, taken, met, prepared)
}
