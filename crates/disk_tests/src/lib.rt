//! Tests of the disks and the output in memory, and of whole commands over them.
//!
//! Of the disks: each call once, calls that fail, and what crashes leave. Of commands: rows, refusals in their order, constraint faults,
//! each failing call, crashes of an update that was stopped after each call, a failing output, and words; dumps of the schema and of tables; checks.
//!
//! They stand in a crate of their own, over the crates that they call, since a crate with tests is proved twice.
#![tactic(auto)]

#[cfg(test)]
mod calls;
#[cfg(test)]
mod changes;
#[cfg(test)]
mod checks;
#[cfg(test)]
mod crashes;
#[cfg(test)]
mod dumps;
#[cfg(test)]
mod ensure;
#[cfg(test)]
mod example;
#[cfg(test)]
mod faults;
#[cfg(test)]
mod images;
#[cfg(test)]
mod refusals;
#[cfg(test)]
mod runs;
#[cfg(test)]
mod stops;
#[cfg(test)]
mod target;
#[cfg(test)]
mod updates;
