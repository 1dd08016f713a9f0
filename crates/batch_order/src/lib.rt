//! The rows of a batch in the order of their keys (The RBU Extension, section 2).
//!
//! `rows_in_order` sorts the rows of a batch, whose keys have a value for each column and of which no two are one. What it answers is said by `IsInKeyOrder` of `RowKeys` in the `specs/` of `prepared_spec`.
#![tactic(auto)]

mod order;

pub use order::rows_in_order;
