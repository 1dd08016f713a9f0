//! What a prepared row writes into the tree of its table.
//!
//! The layer above knows the row that a prepared row meets, and the schema format of the database. `row_write` answers what is written then: a record, that the row goes, or nothing. What it means is said by `RowWrites` in the `specs/`, in the words of `Tables` of `prepared_spec`.
#![tactic(auto)]

mod write;

pub use write::{RowWrite, row_write};
