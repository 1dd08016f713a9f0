// Reads a state file: its values are read, and written again to see that the bytes are theirs.
ghost use Rattle.std.specs.Prelude.{◌≡◌, ◌≤◌, ◌⊎◌, ◌↔◌, ◌++◌, IsTrue, IfOk, IfSome, IfNone, length, map, vec_len};
ghost use Rattle.common_spec.specs.Reading.{OrFault, OrNone, Reads, ReadsOrWants};
ghost use Rattle.state_file.specs.declared.state.KeyValues.{KeyValues};
ghost use Rattle.state_file.specs.Keys.{IsFirstFault, IsMemory, IsSpelled, IsStateFile};
ghost use Rattle.state_file.specs.Lent.{value_of};
ghost use Rattle.state_file.specs.State.{if_any, values_by_key};
ghost use Rattle.state_file.specs.StateFile.{leaf_room, rows_from, state_file};

use crate::keys::{StateFault, state_of};
use crate::lent::{Lent, lend_values};
use crate::reading::read_rows;
use crate::sizes::fits;
use crate::state::{KeyValues, SavedState};
use crate::writing::write_file;
use rbu_value::Value;
use std::alloc::{AllocError, Global};

// Takes the last of nine values, and leaves eight.
fn take_batch(values: &mut Vec<Value>) -> Option<Value>
    requires { (vec_len values.old ≡ 8) ⊎ (vec_len values.old ≡ 9) }
    ensures items { values.old.items ≡ values.new.items ++ if_any result }
    ensures len { vec_len values.new ≡ 8 }
{
    if values.len() == 9 {
        values.pop()
    } else {
        None
    }
}

// The values under the keys in order, where they are eight or nine.
fn by_keys(mut values: Vec<Value>) -> Option<KeyValues>
    ensures found { IfSome result (λ keyed. values_by_key keyed ≡ values.items) }
    ensures none { IfNone result ((keyed : KeyValues) → values_by_key keyed ≡ values.items → ⊥) }
{
    if values.len() != 8 && values.len() != 9 {
        return None;
    }
    let batch = take_batch(&mut values);
    let log_size = values.pop()?;
    let change_counter = values.pop()?;
    let sums = values.pop()?;
    let progress = values.pop()?;
    let row = values.pop()?;
    let index = values.pop()?;
    let table = values.pop()?;
    let stage = values.pop()?;
    Some(KeyValues {
        stage,
        table,
        index,
        row,
        progress,
        sums,
        change_counter,
        log_size,
        batch,
    })
}

// Whether the bytes are the file with these values under the keys from 1 on.
fn is_file_of(values: &[Lent], bytes: &[u8]) -> bool
    requires { length values.now ≤ 9 }
    ensures { IsTrue result ↔ ((leaf_room (rows_from 1 (map value_of values.now)) ≤ 4096) × (bytes.now ≡ state_file (map value_of values.now))) }
{
    if !fits(values) {
        return false;
    }
    let mut written = [0; 8192];
    write_file(&mut written, values);
    bytes == written.as_slice()
}

// Whether the bytes are the file with these values under its keys.
fn is_spelled(values: &KeyValues, bytes: &[u8]) -> bool
    ensures { IsTrue result ↔ IsSpelled bytes.now values.now }
{
    let lent = lend_values(values);
    match values.batch {
        Some(_) => is_file_of(&lent, bytes),
        None => is_file_of(&lent[..8], bytes),
    }
}

// The values of a state file, or `None` where the bytes are the file of none.
fn read_values(alloc: Global, bytes: &[u8]) -> Result<Option<KeyValues>, AllocError>
    ensures { IfOk result (λ answer. Reads (OrNone (IsSpelled bytes.now)) answer) }
{
    if bytes.len() != 8192 {
        return Ok(None);
    }
    let Some(values) = read_rows(alloc, &bytes[4096..])? else {
        return Ok(None);
    };
    let Some(keyed) = by_keys(values) else {
        return Ok(None);
    };
    if is_spelled(&keyed, bytes) {
        Ok(Some(keyed))
    } else {
        Ok(None)
    }
}

/// Reads a state file, with the keys 1 to 8 alone or with key 10. It is recognized by writing what was read again, so a file of other spellings is none.
pub fn read_state(alloc: Global, bytes: &[u8]) -> Result<SavedState, StateFault>
    ensures { ReadsOrWants (λ state. state) IsMemory (OrFault (IsStateFile bytes.now) (IsFirstFault bytes.now)) result }
{
    match read_values(alloc, bytes)? {
        Some(values) => match state_of(values) {
            Ok(state) => Ok(state),
            Err(key) => Err(StateFault::StateKey(key)),
        },
        None => Err(StateFault::NotState),
    }
}
