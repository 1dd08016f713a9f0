//! Reads what the texts of tables and indexes mean (The Schema Table, section 2.1; CREATE TABLE; CREATE INDEX).
//!
//! `read_table` and `read_index` are what the layer above calls. What a text means, and which fault another one has, is said by `Texts`, `Names` and `Causes` in the `specs/` of `schema_spec`; what stands between, once the parts of a table are known, by `Parts`.
#![tactic(auto)]

mod causes;
mod clauses;
mod columns;
mod indexes;
mod keys;
mod names;
mod parts;
mod places;
mod repeated;
mod rowid;
mod tables;
mod wrong;

pub use indexes::read_index;
pub use tables::read_table;
