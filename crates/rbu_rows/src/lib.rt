//! The prepared rows of an RBU database (The RBU Extension, section 2.1).
//!
//! The layer above reads a value of the column `rbu_control` by `read_control`, and gives the rows of a `data_` table as a `Batch` of `Prepared`.
//!
//! What a control says, and why a value is none, is said by `Controls` in `specs/`. `ControlsLaws` has that a value is one control or has one fault.
#![tactic(auto)]

mod control;
mod prepared;
mod worked;

pub use control::{Control, ControlFault, read_control};
pub use owned_list::OwnedList;
pub use prepared::{Batch, Prepared};
pub use worked::worked_controls;

#[cfg(test)]
mod tests;
