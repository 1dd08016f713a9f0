//! One step of a pass over an index (The RBU Extension, section 2.1): an entry goes out of the tree of an index, or into it.
//!
//! `IndexPass` goes over the changes of an index, in their order. What its `step` answers is said by `PassesOn` of `Passes` in the `specs/`: where none of the changes that are done had a fault, it comes from the index behind these to the index behind one more, or answers the constraint fault of the one that is due, exactly where that has one, and then nothing was done. What it refuses is said by `RefusesPass`.
//!
//! `Target` is the index that a pass goes over. What one change does with its tree, over any store, stands in `Changes` of the `specs/`.
#![tactic(auto)]

mod change;
mod clash;
mod entry;
mod pass;
mod target;
mod writing;

pub use pass::IndexPass;
pub use target::Target;
