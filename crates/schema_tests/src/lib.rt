//! Tests of the crates that read a schema: tokens, texts of tables and indexes, the first fault of a text, and catalogs by rows.
//!
//! They stand in a crate of their own, over the crates that they call, since a crate with tests is proved twice.
#![tactic(auto)]

#[cfg(test)]
mod catalogs;
#[cfg(test)]
mod databases;
#[cfg(test)]
mod ensure;
#[cfg(test)]
mod schema_texts;
