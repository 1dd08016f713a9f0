//! What one step of a pass over a table makes of its rows.
//!
//! A crate of definitions and laws. In `specs/`, `TableSteps` says what a step leaves of the rows of a table as they stand when it is due (`IsStepped`), and where a pass stands in a batch (`IsInBatch`). `BatchStepsLaws` has that such steps make the table behind a whole batch, where each prepared row meets its own row alone, `RowidKeysLaws` that it does where the key is the rowid, `BatchesLaws` that a table behind the first steps of a group stands in one of its batches, `GroupsLaws` that so does that of a group which can be used, and `StepListsLaws` what a put, a delete or neither makes of the rows. `LittleTableSteps` was worked out by hand.
#![tactic(auto)]

mod laws;
mod worked;

pub use laws::{
    groups_midway_stand_in_a_batch, puts_and_deletes_make_steps, steps_by_rowid_make_a_batch,
    steps_meet_rows_as_they_stood_before_the_batch, tables_midway_stand_in_a_batch,
};
pub use worked::worked_steps;
