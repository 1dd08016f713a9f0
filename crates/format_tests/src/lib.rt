//! Tests of the crates that read and write SQLite's formats, against bytes and answers of SQLite.
//!
//! They stand in a crate of their own, over the crates that they call, since a crate with tests is proved twice.
#![tactic(auto)]

#[cfg(test)]
mod cells;
#[cfg(test)]
mod ensure;
#[cfg(test)]
mod headers;
#[cfg(test)]
mod logs;
#[cfg(test)]
mod records;
#[cfg(test)]
mod small_files;
#[cfg(test)]
mod small_updates;
#[cfg(test)]
mod states;
#[cfg(test)]
mod values;
