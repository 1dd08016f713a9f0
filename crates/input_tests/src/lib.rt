//! Tests of the reader of RBU databases, over pages in memory.
//!
//! They stand in a crate of their own, since a crate with tests is proved twice.
#![tactic(auto)]

#[cfg(test)]
mod databases;
#[cfg(test)]
mod leaves;
#[cfg(test)]
mod limits;
#[cfg(test)]
mod lines;
#[cfg(test)]
mod orders;
#[cfg(test)]
mod prepared;
#[cfg(test)]
mod sums;
