//! The order of index entries by their records, compared field by field from their bytes.
//!
//! `KeyOrder` says how the entries of an index compare, or the keys of another tree. `is_entry` tells whether bytes are a record that has the values which it compares, and `compare_entries` compares two such records without making values of them.
//!
//! What the order is, and what a list in it is, stands in `Orders` of the `specs/`; `OrdersLaws` says that it is one, and where an entry belongs in a list.
#![tactic(auto)]

mod comparing;
mod fields;
mod order;

pub use comparing::{Key, compare_entries, compare_with, is_entry, key_of};
pub use order::KeyOrder;
