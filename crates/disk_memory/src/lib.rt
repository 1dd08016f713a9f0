//! A disk and an output in memory that tell all that they hold, and a disk that fails from some call on, for tests and
//! trials.
//!
//! The layer above may use `MemoryDisk`, `FusedDisk` and `MemorySink`. Which call fails is settled by a list of the numbers
//! of calls, and beyond it only by want of memory, which is counted. What each holds and counts is defined in `specs/`:
//!
//! - `Disk`, `Sink`, `Fused` and `Calls`: what they hold and count;
//! - `Volume`: the files that a disk was given and its calls since, and the trail that follows from them;
//! - `Crash`: what a crash by a choice leaves.
//!
//! `Replay` says what is computed of the list of calls before a crash.
#![tactic(auto)]

mod calls;
mod disk;
mod file;
mod fused;
mod replay;
mod sink;
mod volume;

pub use disk::MemoryDisk;
pub use fused::FusedDisk;
pub use sink::MemorySink;
