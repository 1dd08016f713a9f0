//! That something is found of each RBU database.
//!
//! A crate of laws over the definitions of `prepared_spec`. In `specs/`, `PreparedDecidedLaws` has that a member prepares a row or none; `CatalogNamesLaws` that the tables of a catalog have names that differ, and texts that are read or have a fault; and `InputsMadeLaws`, by that, what is found, whatever the trees hold.
#![tactic(auto)]

mod laws;

pub use laws::something_is_found_of_each_rbu_database;
