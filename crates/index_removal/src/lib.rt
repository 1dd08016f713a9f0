//! Entries go out of index trees (Database File Format, section 1.6).
//!
//! `delete` takes the entry that is equal, by a `KeyOrder`, out of the index at a root, and answers whether one stood there. What it leaves is said by `DeletesEntry` of `Deletes` in the `specs/`: in every world with an index at that root whose list rises, the list has lost the one entry that was equal and rises still, and all other trees are as they were; or no equal entry stands in the list, and nothing changed.
#![tactic(auto)]

mod deleting;
mod finding;
mod removing;

pub use deleting::delete;
pub use tree_index::KeyOrder;
pub use tree_spec::TreeFault;
