//! The keys of rows as they compare (CREATE TABLE, section 3.5).
//!
//! `compared_key` makes a `ComparedKey` of a key's values, by the collations that `key_collations` reads from a table, and `key_of_row` one of a row. `Keys` in `specs/` says what it is, and `KeysLaws` that two keys are one exactly where they compare so, in a total order.
#![tactic(auto)]

mod keys;
mod rows;

pub use keys::{ComparedKey, compared_key, key_collations};
pub use rows::key_of_row;
