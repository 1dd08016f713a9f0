//! The loop of one reader: so many reads, each begun and ended once.
//!
//! The layer above may use `run_reader`; `ReadTurns`, which says what a reader's calls owe, with the answers `Begun` and
//! `Stepped`; and `Gate`, which is told of each `Point` that an actor reaches, with `OpenGate`, which lets all pass. What
//! the calls do is defined in `specs/` by `Tallies`.
//!
//! No clause says that a read begins or ends.
#![tactic(auto)]

mod gate;
mod reader;
mod turns;

pub use gate::{Gate, OpenGate, Point};
pub use reader::run_reader;
pub use turns::{Begun, ReadTurns, Stepped};
