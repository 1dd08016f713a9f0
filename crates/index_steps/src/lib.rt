//! What one step of a pass over an index makes of its list.
//!
//! A crate of definitions and laws. In `specs/`, `IndexSteps` says what a change makes of the list of an index (`IsStepped`), and what changes a pass over it goes through (`AreChangesOf`). `StandingLaws` has which entries stand behind the changes that are done, `StepsLaws` that a step over such a list brings the index behind one change more, and `ClashesLaws` that an addition has a fault exactly where an entry stands by then that agrees with it in the columns. `Databases` says where a step of an index stands among the steps of a transaction, and `DatabasesLaws` has that it brings the database midway on by one step. `ListsLaws` is of lists.
#![tactic(auto)]

mod laws;

pub use laws::{
    additions_meet_their_faults, changes_have_entries, indexes_midway_rise,
    steps_find_what_they_change, steps_lead_on, steps_of_indexes_lead_databases_on,
};
