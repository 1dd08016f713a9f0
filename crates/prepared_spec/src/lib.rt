//! What an update is: the transaction of all prepared rows, its steps, its faults and its outcome.
//!
//! A crate of definitions. Crates above cite, from `specs/`:
//!
//! - `DataTables`, `PreparedRows` and `Inputs`: the prepared rows of an RBU database for a target, as groups of batches, or the first refusal (The RBU Extension, section 2.1);
//! - `TargetRecords`: the first record of a targeted table that is not read as a row;
//! - `RowKeys`: the keys of rows, and which row a prepared row means;
//! - `Tables`: a table after the batches of a group;
//! - `StepFaults`: the constraint faults of prepared rows, and the changes of an index with theirs;
//! - `Plans`: the steps of a transaction in order;
//! - `Outcomes`: the database midway, and the outcome;
//! - `StepRecords` and `NeededPages`: what each step puts into a tree, and whether the database has room for all of it.
//!
//! `LittleUpdate`, `LittleGroups`, `LittleRows` and `LittleSteps` were worked out by hand. The modules that end in `Laws` say what follows; the functions without parameters promise the main laws.
#![tactic(auto)]

mod input_fault;
mod laws;
mod violation;
mod worked;

pub use input_fault::{InputFault, RecordCause};
pub use laws::{
    midway_begins_with_the_old_database, midway_ends_with_the_new_lists,
    no_rows_change_only_counters, order_of_data_tables_plays_no_part, order_of_rows_plays_no_part,
    prepared_rows_or_one_refusal, targets_are_plain_or_have_one_fault,
    transaction_has_one_list_of_steps, transaction_has_one_outcome,
};
pub use violation::{Change, Violation};
pub use worked::{
    worked_batches, worked_clash, worked_exchange, worked_faults, worked_freeing, worked_keyless,
    worked_room, worked_rows, worked_too_long, worked_update,
};
