//! Tests of logs and of the state file, over disks in memory.
//!
//! Of files under a log: what is read of a log of SQLite, and the overlay by it. Of the hidden log: a log that is not the one that was saved, commits behind SQLite's own,
//! commits whose calls fail, and what crashes leave of them. Of the state: saves whose calls fail, and what crashes leave.
//!
//! They stand in a crate of their own, over the crates that they call, since a crate with tests is proved twice.
#![tactic(auto)]

#[cfg(test)]
mod commits;
#[cfg(test)]
mod ensure;
#[cfg(test)]
mod logs;
#[cfg(test)]
mod pages;
#[cfg(test)]
mod saves;
#[cfg(test)]
mod starts;
