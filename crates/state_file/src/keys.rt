// Which values may stand under the keys of a state file.
ghost use Rattle.std.specs.Prelude.{◌≡◌, ◌<◌, ◌≤◌, ◌^◌, ◌⊎◌, ℕ, ℤ, pos, IfSome, IfNone, IfOk, IfErr, IsTrue, List, ◌↔◌};
ghost use Rattle.common_spec.specs.Reading.{IsFirst};
ghost use Rattle.rbu_value.specs.declared.value.Value.TheVariants as variant;
ghost use Rattle.state_file.specs.declared.keys.StateFault.{StateFault};
ghost use Rattle.state_file.specs.declared.keys.StateKey.{StateKey};
ghost use Rattle.state_file.specs.State.{batch_value, state_values, sums_number, text_or_null};
ghost use Rattle.state_file.specs.Numbers.{HaveNumbers};
ghost use Rattle.state_file.specs.Keys.{AreTwoWords, IsCount, IsName, IsPast, IsStage, Meets, key_number};

use crate::state::{DataKey, KeyValues, SavedState};
use rbu_value::{Bytes, Value};
use std::alloc::AllocError;

/// A key of a state file.
#[derive(Clone, Copy, Debug, PartialEq, Eq)]
pub enum StateKey {
    Stage,
    Table,
    Index,
    Row,
    Progress,
    Sums,
    ChangeCounter,
    LogSize,
    Batch,
}

impl StateKey {
    ghost use Rattle.state_file.specs.Keys.{key_number};

    /// The key's number: 1 to 8, or 10.
    pub fn number(self) -> u64
        ensures { result ≡ key_number self }
    {
        match self {
            StateKey::Stage => 1,
            StateKey::Table => 2,
            StateKey::Index => 3,
            StateKey::Row => 4,
            StateKey::Progress => 5,
            StateKey::Sums => 6,
            StateKey::ChangeCounter => 7,
            StateKey::LogSize => 8,
            StateKey::Batch => 10,
        }
    }
}

/// Why bytes are no state file.
#[derive(Debug, Clone, Copy, PartialEq, Eq)]
pub enum StateFault {
    /// The bytes are not the file of any eight or nine values: refusal 110.
    NotState,
    /// The value under this key may not stand there, and it is the least such key: refusal 111.
    StateKey(StateKey),
    /// There is no memory for the values.
    Memory(AllocError),
}

impl From<AllocError> for StateFault {
    ghost from_gives = { λ error fault. fault ≡ StateFault.Memory error };

    fn from(error: AllocError) -> StateFault {
        StateFault::Memory(error)
    }
}

// A number that is not negative.
fn count_of(value: &Value) -> Option<u64>
    ensures found { IfSome result (λ n. value.now ≡ variant.Int (pos n)) }
    ensures none { IfNone result (¬ IsCount value.now) }
{
    match value {
        Value::Int(number) if *number >= 0 => Some(*number as u64),
        _ => None,
    }
}

fn stage_of(value: &Value) -> Option<u8>
    ensures found { IfSome result (λ n. (value.now ≡ variant.Int (pos n)) × IsStage value.now) }
    ensures none { IfNone result (¬ IsStage value.now) }
{
    match count_of(value) {
        Some(number) if number == 1 || number == 2 || number == 4 || number == 5 => {
            Some(number as u8)
        }
        _ => None,
    }
}

// Whether the value is a text or NULL.
fn is_name(value: &Value) -> bool
    ensures { IsTrue result ↔ IsName value.now }
{
    matches!(value, Value::Null | Value::Text(_))
}

// The name of a text; NULL has none.
fn name_in(value: Value) -> Option<Bytes>
    ensures { IsName value → value ≡ text_or_null result }
{
    match value {
        Value::Text(bytes) => Some(bytes),
        Value::Null | Value::Int(_) | Value::Blob(_) => None,
    }
}

// Whether the first value is a greater integer than the second.
fn is_past(a: &Value, b: &Value) -> bool
    ensures { IsTrue result ↔ IsPast a.now b.now }
{
    match (a, b) {
        (Value::Int(x), Value::Int(y)) => *y < *x,
        _ => false,
    }
}

// The steps done in a pass, which are at most those done in all.
fn row_of(row: &Value, progress: &Value) -> Option<u64>
    ensures found { IfSome result (λ n. (row.now ≡ variant.Int (pos n)) × ¬ IsPast row.now progress.now) }
    ensures none { IfNone result (¬ (IsCount row.now × ¬ IsPast row.now progress.now)) }
{
    if is_past(row, progress) {
        return None;
    }
    count_of(row)
}

// Both words of a checksum.
fn sums_of(value: &Value) -> Option<[u32; 2]>
    ensures found { IfSome result (λ sums. (value.now ≡ variant.Int (sums_number sums)) × AreTwoWords sums) }
    ensures none { IfNone result ((z : ℤ) → value.now ≡ variant.Int z → ⊥) }
{
    match value {
        Value::Int(number) => {
            let both = number.cast_unsigned();
            Some([(both / 0x1_0000_0000) as u32, (both % 0x1_0000_0000) as u32])
        }
        _ => None,
    }
}

fn change_counter_of(value: &Value) -> Option<u32>
    ensures found { IfSome result (λ n. (value.now ≡ variant.Int (pos n)) × (n < 2 ^ 32)) }
    ensures none { IfNone result ((n : ℕ) → value.now ≡ variant.Int (pos n) → n < 2 ^ 32 → ⊥) }
{
    match count_of(value) {
        Some(number) if number < 0x1_0000_0000 => Some(number as u32),
        _ => None,
    }
}

fn log_size_of(value: &Value) -> Option<u64>
    ensures found { IfSome result (λ n. (value.now ≡ variant.Int (pos n)) × (32 ≤ n)) }
    ensures none { IfNone result ((n : ℕ) → value.now ≡ variant.Int (pos n) → 32 ≤ n → ⊥) }
{
    match count_of(value) {
        Some(number) if number >= 32 => Some(number),
        _ => None,
    }
}

// Whether key 10 is missing, or has a text or NULL.
fn is_batch(value: &Option<Value>) -> bool
    ensures { IsTrue result ↔ IfSome value.now IsName }
{
    match value {
        Some(value) => is_name(value),
        None => true,
    }
}

// What stands under key 10.
fn batch_in(value: Option<Value>) -> DataKey
    ensures { IfSome value IsName → value ≡ batch_value result }
{
    let Some(value) = value else {
        return DataKey::Absent;
    };
    match value {
        Value::Text(bytes) => DataKey::Name(bytes),
        Value::Null | Value::Int(_) | Value::Blob(_) => DataKey::Null,
    }
}

// The numbers of a state.
#[derive(Clone, Copy)]
struct Numbers {
    stage: u8,
    row: u64,
    progress: u64,
    sums: [u32; 2],
    change_counter: u32,
    log_size: u64,
}

// The numbers under the keys, or the least key whose value may not stand there.
fn numbers_of(values: &KeyValues) -> Result<Numbers, StateKey>
    ensures found { IfOk result (HaveNumbers values.now) }
    ensures fault { IfErr result (IsFirst key_number (λ key. ¬ Meets values.now key)) }
{
    let Some(stage) = stage_of(&values.stage) else {
        return Err(StateKey::Stage);
    };
    if !is_name(&values.table) {
        return Err(StateKey::Table);
    }
    if !is_name(&values.index) {
        return Err(StateKey::Index);
    }
    let Some(row) = row_of(&values.row, &values.progress) else {
        return Err(StateKey::Row);
    };
    let Some(progress) = count_of(&values.progress) else {
        return Err(StateKey::Progress);
    };
    let Some(sums) = sums_of(&values.sums) else {
        return Err(StateKey::Sums);
    };
    let Some(change_counter) = change_counter_of(&values.change_counter) else {
        return Err(StateKey::ChangeCounter);
    };
    let Some(log_size) = log_size_of(&values.log_size) else {
        return Err(StateKey::LogSize);
    };
    if !is_batch(&values.batch) {
        return Err(StateKey::Batch);
    }
    Ok(Numbers {
        stage,
        row,
        progress,
        sums,
        change_counter,
        log_size,
    })
}

// The state with these values, whose numbers are these.
fn state_with(values: KeyValues, numbers: Numbers) -> SavedState
    requires { HaveNumbers values numbers }
    ensures values { state_values result ≡ values }
    ensures sums { result.sums ≡ numbers.sums }
{
    let KeyValues {
        stage: _,
        table,
        index,
        row: _,
        progress: _,
        sums: _,
        change_counter: _,
        log_size: _,
        batch,
    } = values;
    let sums = numbers.sums;
    SavedState {
        stage: numbers.stage,
        table: name_in(table),
        index: name_in(index),
        row: numbers.row,
        progress: numbers.progress,
        sums,
        change_counter: numbers.change_counter,
        log_size: numbers.log_size,
        batch: batch_in(batch),
    }
}

/// The state with these values under its keys, or the least key whose value may not stand there.
pub fn state_of(values: KeyValues) -> Result<SavedState, StateKey>
    ensures found { IfOk result (λ state. (state_values state ≡ values) × ((key : StateKey) → Meets values key) × AreTwoWords state.sums) }
    ensures fault { IfErr result (IsFirst key_number (λ key. ¬ Meets values key)) }
{
    match numbers_of(&values) {
        Ok(numbers) => Ok(state_with(values, numbers)),
        Err(key) => Err(key),
    }
}
