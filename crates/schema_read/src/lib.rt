//! Reads the catalog of a database: the tables and indexes that its schema names (Database File Format, section 2.6; The Schema Table).
//!
//! `read_catalog` is what the layer above calls, over any store of pages. Which catalog it answers, and which refusal, is said by `RightRows` and `Catalogs` in the `specs/` of `database_spec`, and by `Answers` in `specs/`.
#![tactic(auto)]

mod catalog;
mod check;
mod firsts;
mod found;
mod lookup;
mod meanings;
mod members;
mod names;
mod numbers;
mod read;
mod rows;

pub use lookup::Catalog;
pub use read::{CatalogFault, read_catalog};
