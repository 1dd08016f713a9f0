//! One step of a pass over a table (The RBU Extension, section 2.1): a prepared row is applied to the tree of its table.
//!
//! `step_row` makes the step over any store. What it leaves is said by `StepsRow` of `Steps` in the `specs/`: in every world with the table, whose members are rows, the table's list is then the one that the step leaves of these rows, or the step has a constraint fault, and nothing was done. What it refuses is said by `RefusesStep`.
//!
//! `TablePass` goes over the prepared rows of a batch, in the order of their keys, where the key of the table is its rowid. What it answers is said by `PassesOn` of `Passes`: from a table behind some prepared rows of the batch it comes to the table behind one more. Where it begins is said by `Begins`, and that it stands in its batch there, also in the middle, by `passes_begin_in_their_batch`.
#![tactic(auto)]

mod finding;
mod laws;
mod pass;
mod step;
mod target;
mod writing;

pub use laws::passes_begin_in_their_batch;
pub use pass::TablePass;
pub use step::{RowStep, step_row};
pub use target::Target;
