// The state of an update, and the values that stand under its keys.

use rbu_value::{Bytes, Value};

/// The state of an update between two calls.
#[derive(Drop)]
pub struct SavedState {
    /// 1 while the log is built, 2 where it is built and not yet moved, 4 while its pages are copied, 5 where the update is done.
    pub stage: u8,
    /// The target table of the next step.
    pub table: Option<Bytes>,
    /// The index of the next step.
    pub index: Option<Bytes>,
    /// In stage 1 the steps done in the pass of the next step, in stage 4 the pages copied and synced.
    pub row: u64,
    /// In stages 1 and 2 the steps done, in stage 4 the distinct pages of the log.
    pub progress: u64,
    /// The checksum of the log at its saved size.
    pub sums: [u32; 2],
    /// The target's change counter before the update.
    pub change_counter: u32,
    /// The log's size in bytes.
    pub log_size: u64,
    /// The `data_` table of the next table step.
    pub batch: DataKey,
}

/// What stands under key 10, the name of a `data_` table.
#[derive(Drop)]
pub enum DataKey {
    /// The file has the keys 1 to 8 alone.
    Absent,
    /// The next step is an index step, or there is none.
    Null,
    Name(Bytes),
}

/// The values that stand under the keys 1 to 8, and 10 where it stands.
#[derive(Drop)]
pub struct KeyValues {
    pub stage: Value,
    pub table: Value,
    pub index: Value,
    pub row: Value,
    pub progress: Value,
    pub sums: Value,
    pub change_counter: Value,
    pub log_size: Value,
    pub batch: Option<Value>,
}
