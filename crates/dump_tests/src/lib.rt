//! Tests of what prints the rows of a table, over pages in memory.
//!
//! They stand in a crate of their own, since a crate with tests is proved twice.
#![tactic(auto)]

#[cfg(test)]
mod tables;
