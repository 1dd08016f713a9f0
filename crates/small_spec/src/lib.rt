//! The update that can be made today: inserts into one table of one page.
//!
//! A crate of definitions, and of the types that they speak of. It goes when the general reader and the passes come.
//! Crates above cite, from `specs/`:
//!
//! - `SmallFile`: the databases that can be updated today, and the rows that they hold;
//! - `Inserts`: what the prepared rows make of the target, to the byte;
//! - `SmallUpdate`: which outcome files have, which pages hold the new database, and what an update that is done leaves;
//! - `SmallLaws`: what a reader sees of small files.
#![tactic(auto)]

use rbu_value::{Bytes, Value};

/// A row of the target's table, with the bytes of its cell.
#[derive(Drop)]
pub struct TargetRow {
    pub rowid: i64,
    pub cell: Bytes,
}

/// A row that is to be inserted, with its rowid in the `data_` table. The value is NULL or a text.
#[derive(Drop)]
pub struct PreparedRow {
    pub data_rowid: i64,
    pub key: i64,
    pub value: Value,
}

mod laws;
mod worked;

pub use laws::{finished_is_done, small_file_has_two_pages};
pub use worked::worked_rows;
