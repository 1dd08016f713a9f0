//! Tests of the crates of the thread layer: whole runs of threads, and of a reader; and of the locks of readers and an updater.
//!
//! They stand in a crate of their own, over the crates that they call, since a crate with tests is proved twice.
#![tactic(auto)]

#[cfg(test)]
mod file_locks;
#[cfg(test)]
mod frames;
#[cfg(test)]
mod locks;
#[cfg(test)]
mod readers;
