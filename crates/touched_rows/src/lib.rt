//! The rows of a table that a group of batches touches.
//!
//! A crate of definitions and laws. In `specs/`, `TouchedRows` says which rowids prepared rows meet or make and what pairs of rows hold for these, and `TouchedRowsLaws` that the changes of an index between the rows of such pairs are all its changes. `PartedRowsLaws` has that rows which no prepared row meets play no part. `LittleTouched` was worked out by hand.
#![tactic(auto)]

mod laws;
mod worked;

pub use laws::{
    groups_without_a_fault_touch_all_their_rows, rows_that_are_not_met_play_no_part,
    touched_pairs_are_of_one_rowid, touched_pairs_give_the_steps_of_indexes,
    touched_pairs_have_all_changes,
};
pub use worked::worked_touched;
