//! Reads the texts of tables, views, virtual tables and indexes into their parts (CREATE TABLE; CREATE VIEW; CREATE VIRTUAL TABLE; CREATE INDEX).
//!
//! Each function has the production that it reads in its contract. The productions stand in `ColumnGrammar` and `TableGrammar` in the `specs/` of `schema_spec`, and what a function answers for one in `Parses`.
#![tactic(auto)]

mod brackets;
mod clauses;
mod columns;
mod constraints;
mod definitions;
mod fronts;
mod indexes;
mod items;
mod references;
mod tables;
mod types;

pub use indexes::index_statement;
pub use tables::table_statement;
