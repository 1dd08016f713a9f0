//! That a text of a schema leaves the grammar at its first misfit: the first token such that no text of the grammar begins with the tokens up to it.
//!
//! A crate of laws over the definitions of `schema_spec`. `Beginnings` in `specs/` says when a text of a grammar begins with the tokens of another text, and where that one leaves the grammar.
#![tactic(auto)]

mod laws;
mod worked;

pub use laws::{a_stop_is_the_first_misfit, what_stands_behind_a_stop_does_not_matter};
pub use worked::worked_first_misfits;
