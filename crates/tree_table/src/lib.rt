//! Rows go into table trees and out of them (Database File Format, section 1.6).
//!
//! `put` writes a row into the table at a root. What it leaves is said by `PutsRow` of `Puts` in the `specs/`: in every world, with a table at that root, the table's list has the row, and all other trees are as they were.
//!
//! `delete` takes the row of a rowid out of it. What it leaves is said by `DeletesRow` of `Deletes`: in every world, the table's list has no row of the rowid, the payload that stood there is the answer, and all other trees are as they were; where there was none nothing changed.
#![tactic(auto)]

mod alone;
mod closing;
mod deleting;
mod descending;
mod joining;
mod leaf;
mod opening;
mod putting;
mod removing;
mod rows;
mod sinking;
mod taking;

pub use deleting::delete;
pub use putting::put;
pub use tree_spec::TreeFault;
