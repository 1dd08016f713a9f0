//! Tests of the check of a file: whole files, the trees of small databases, sound and damaged, freelists, chains, and indexes beside their tables.
//!
//! They stand in a crate of their own, since a crate with tests is proved twice.
#![tactic(auto)]

#[cfg(test)]
mod files;
#[cfg(test)]
mod freelists;
#[cfg(test)]
mod indexes;
#[cfg(test)]
mod stores;
#[cfg(test)]
mod trees;
