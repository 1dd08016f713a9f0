//! Checks a whole file (PRAGMA integrity_check, as far as this project has its rules).
//!
//! `check` goes through all that is found in a file, by the parts of `db_check`, in the order of `FileFindings` of `database_spec`: it answers whether the file is sound, or its first fault. Contracts cite, from `specs/`:
//!
//! - `Answers`: what is answered of a file;
//! - `Trees`: the trees of a catalog, with what a walk over each finds;
//! - `Parts`: what a part of a check leaves, and what it answers.
#![tactic(auto)]

mod counting;
mod pages;
mod roots;
mod trees;
mod whole;

pub use counting::Census;
pub use whole::check;
