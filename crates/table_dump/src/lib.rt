//! Prints the rows of a table.
//!
//! `push_row` prints one row, and `dump_named` a table of any store of pages by its name in the catalog, or refuses it, exactly as `TableDumps` of `dump_spec` says.
//! `Answers` in `specs/` says what is answered where the store may fail, and `Rows` what each row adds.
#![tactic(auto)]

mod fault;
mod named;
mod printing;
mod refused;
mod rows;

pub use fault::PrintFault;
pub use named::dump_named;
pub use printing::push_row;
