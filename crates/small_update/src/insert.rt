// The rows that prepared inserts make.
ghost use Rattle.std.specs.Prelude.{◌≡◌, IfOk};
ghost use Rattle.format_spec.specs.Cell.{table_leaf_cell};
ghost use Rattle.small_spec.specs.declared.TargetRow.{TargetRow};
ghost use Rattle.small_spec.specs.Inserts.{inserted, all_rows};

use cell_codec::push_varint;
use rbu_value::{Bytes, Value};
use record_codec::write_record;
use small_spec::{PreparedRow, TargetRow};
use std::alloc::{AllocError, Global};

// The cell of a row with this rowid and payload.
fn cell_of(alloc: Global, rowid: i64, payload: &[u8]) -> Result<Bytes, AllocError>
    ensures { IfOk result (λ cell. cell ≡ table_leaf_cell rowid payload.now) }
{
    let mut cell = Vec::new(alloc);
    push_varint(payload.len() as u64, &mut cell)?;
    push_varint(rowid.cast_unsigned(), &mut cell)?;
    cell.extend_from_slice(payload)?;
    Ok(Bytes::from_vec(cell))
}

// The row that a prepared one makes.
fn inserted_row(alloc: Global, prepared: PreparedRow) -> Result<TargetRow, AllocError>
    ensures { IfOk result (λ row. row ≡ inserted prepared) }
{
    let PreparedRow { key, value, .. } = prepared;
    let payload = write_record(alloc, &[Value::Null, value], 4)?;
    let cell = cell_of(alloc, key, &payload)?;
    Ok(TargetRow { rowid: key, cell })
}

// The old rows, and behind them the rows that the prepared ones make.
pub fn with_inserted(
    alloc: Global,
    old: Vec<TargetRow>,
    prepared: Vec<PreparedRow>,
) -> Result<Vec<TargetRow>, AllocError>
    ensures { IfOk result (λ rows. rows.items ≡ all_rows old.items prepared.items) }
{
    let mut rows = old;
    for row in prepared {
        rows.push(inserted_row(alloc, row)?)?;
    }
    Ok(rows)
}
