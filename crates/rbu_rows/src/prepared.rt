// The rows that an update was prepared with.
use crate::Control;
use owned_list::OwnedList;
use rbu_value::{Bytes, Value};

/// One row of a `data_` table. Values and marks stand in the order of the target's columns.
#[derive(Drop)]
pub struct Prepared {
    /// The row's rowid in the `data_` table.
    pub data_rowid: i64,
    /// The values that say which row of the target is meant.
    pub key: OwnedList<Value>,
    pub values: OwnedList<Value>,
    pub control: Control,
}

/// The rows of one `data_` table.
#[derive(Drop)]
pub struct Batch {
    /// The name of the target's table.
    pub table: Bytes,
    /// The name of the `data_` table.
    pub source: Bytes,
    /// By rowid of the `data_` table.
    pub rows: OwnedList<Prepared>,
}
