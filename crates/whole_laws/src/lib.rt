//! That a world whose trees are those of a catalog is a whole database, and that puts into tables and deletes from them keep it so.
//!
//! A crate of laws over the definitions of `database_spec` and the contracts of `tree_table`. `WholeWorlds` in `specs/` says when a world is whole by a catalog, and `KeptLaws` has what a put and a delete keep so.
#![tactic(auto)]

mod laws;

pub use laws::{puts_and_deletes_keep_whole, worlds_are_whole};
