//! The commands of the program, from the words in to the line out.
//!
//! The layer above makes a disk and an output, and calls `run_command`; `Ran` hands the disk back with the status.
//! What words, answers and lines mean is said by `Words`, `Answer` and `Text` in the `specs/` of `update_spec`, what a
//! dump and a check print by `Questions` in those of `check_spec`, and in this crate's `specs/` by:
//!
//! - `Status`: what each status of a command says;
//! - `Commands`: how a command ended, by what its words ask for;
//! - `Told`: how an answer is told by the status and the output;
//! - `Phases`, `Crash`: what a crash may leave in each phase of the handover, and however the update ended;
//! - `Inspection`, `Handover`, `Halt`: what is known of the files, how new pages reach the target, and which calls that fail change
//!   files; what ends a call before its outcome is the `Halt` of `rbu_query`.
#![tactic(auto)]

mod files;
mod handover;
mod inspect;
mod query;
mod run;
mod text;
mod update;
mod words;

pub use run::{Ran, run_command};
