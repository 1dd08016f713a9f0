// Writes a state file.
ghost use Rattle.std.specs.Prelude.{◌≡◌, ◌+◌, ◌*◌, ◌<◌, ◌≤◌, ◌^◌, ◌++◌, ◌∷◌, [], pos, length, map};
ghost use Rattle.rbu_value.specs.declared.value.Value.TheVariants as value;
ghost use Rattle.state_file.specs.Lent.{value_of};
ghost use Rattle.state_file.specs.State.{CanSave, IsShortBatch, batch_value, if_any, state_values, sums_number as number_of_sums, text_or_null, values_by_key};
ghost use Rattle.state_file.specs.StateFile.{rows_from, leaf_room, state_file};

use crate::lent::Lent;
use crate::rows::write_rows;
use crate::schema::write_first_page;
use crate::state::{DataKey, SavedState};
use rbu_value::Bytes;

// Writes the file with these values under the keys from 1 on.
pub fn write_file(into: &mut [u8], values: &[Lent])
    requires long { length into.old ≡ 8192 }
    requires few { length values.now ≤ 9 }
    requires room { leaf_room (rows_from 1 (map value_of values.now)) ≤ 4096 }
    ensures { into.new ≡ state_file (map value_of values.now) }
{
    write_first_page(&mut into[..4096]);
    write_rows(&mut into[4096..], values);
}

// A number, lent as a value.
fn lend_number(number: u64) -> Lent<'static>
    requires { number < 2 ^ 63 }
    ensures { value_of result ≡ value.Int (pos number) }
{
    Lent::Int(number as i64)
}

// A name or NULL, lent.
fn lend_name(name: &Option<Bytes>) -> Lent<'_>
    ensures { value_of result ≡ text_or_null name.now }
{
    match name {
        Some(bytes) => Lent::Text(bytes.as_slice()),
        None => Lent::Null,
    }
}

// What stands under key 10, lent.
fn lend_batch(batch: &DataKey) -> Lent<'_>
    requires { IsShortBatch batch.now }
    ensures { if_any (batch_value batch.now) ≡ value_of result ∷ [] }
{
    match batch {
        DataKey::Absent | DataKey::Null => Lent::Null,
        DataKey::Name(bytes) => Lent::Text(bytes.as_slice()),
    }
}

// A checksum as one number.
fn sums_number(sums: [u32; 2]) -> i64
    ensures { result ≡ number_of_sums sums }
{
    (u64::from(sums[0]) * 0x1_0000_0000 + u64::from(sums[1])).cast_signed()
}

// The values of a state under its keys, lent.
fn lend_state(state: &SavedState) -> [Lent<'_>; 9]
    requires { CanSave state.now }
    ensures { map value_of result ≡ values_by_key (state_values state.now) }
{
    [
        lend_number(u64::from(state.stage)),
        lend_name(&state.table),
        lend_name(&state.index),
        lend_number(state.row),
        lend_number(state.progress),
        Lent::Int(sums_number(state.sums)),
        lend_number(u64::from(state.change_counter)),
        lend_number(state.log_size),
        lend_batch(&state.batch),
    ]
}

/// Writes the 8192 bytes of a state file with nine keys. The state's names have at most 255 bytes and its numbers are below 2^63, and its `batch` is not absent.
pub fn state_bytes(state: &SavedState, into: &mut [u8; 8192])
    requires { CanSave state.now }
    ensures { into.new ≡ state_file (values_by_key (state_values state.now)) }
{
    let values = lend_state(state);
    write_file(into, &values);
}
