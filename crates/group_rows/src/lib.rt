//! The rows that a group of batches touches, in memory.
//!
//! The layer above has read the rows of a table that prepared rows meet. `group_pairs` answers which prepared rows make a row, and the rows of each rowid that the group touches, before it and behind it, for `index_changes`. The rows are kept by their keys as they compare over all batches, so a batch costs what its prepared rows cost.
//!
//! `GivenRows` in `specs/` says which rows are given; what is answered is said by `TouchedRows` in the `specs/` of `touched_rows`. `KeyedRows`, `Runs` and `Sides` say what the steps make of these rows.
#![tactic(auto)]

mod group;
mod keyed;
mod ordered;
mod pairs;
mod progress;

pub use group::{GroupPairs, group_pairs};
