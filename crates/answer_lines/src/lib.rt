//! The text of each answer, and its status.
//!
//! The layer above takes an answer with its text by `tellable`, and writes it at once. What is written of an answer is said by `Text` of
//! `update_spec`; which answers take memory for it, by `Fields` in `specs/`.
#![tactic(auto)]

mod fields;
mod lines;

pub use lines::{Line, status_of, tellable, text_of};
