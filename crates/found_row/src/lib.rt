//! The row of a rowid in a table of any store (Database File Format, section 1.6).
//!
//! `find_row` reads it, or says that there is none. What it answers is said by `FindsRow` of `Finds` in the `specs/`.
#![tactic(auto)]

mod find;

pub use find::find_row;
