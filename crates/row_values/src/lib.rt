//! Finds a table of a catalog by its name, and reads its rows as values (Database File Format, section 2.1).
//!
//! `row_values` reads a row, or says for which cause its record is none, as `Values` in `specs/` says in the words of `database_spec` and `prepared_spec`.
#![tactic(auto)]

mod named;
mod read;

pub use named::table_named;
pub use read::{Unread, row_values};
