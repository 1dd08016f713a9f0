//! The leaf of a table in which a rowid belongs, found without decoding the pages on the way, and a row that is put into it in place.
//!
//! The layer above finds the leaf by `find_leaf`, and puts a row by `put_in_leaf` where that changes no other page. Each page on the way is searched by halves of its array, so that some eight of its cells are read in place of hundreds. What is found is said by `Leaves` in the `specs/`: in every table whose rowids are in order, the leaf is the one in which the rowid belongs. A page whose cells do not decode where they are read has no leaf below it here; whoever needs to know why reads it whole.
#![tactic(auto)]

mod finding;
mod placing;
mod searching;

pub use finding::find_leaf;
pub use placing::put_in_leaf;
