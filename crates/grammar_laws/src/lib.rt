//! That a text of a schema can go on behind each of its tokens, and what is known of productions of the grammar: `ProductionsLaws` in `specs/`.
//!
//! A crate of laws over the definitions of `schema_spec`. `Misfits` in `specs/` says when two texts begin with the same tokens, and `Lexemes` what a text may go on with.
#![tactic(auto)]

mod laws;
mod worked;

pub use laws::texts_go_on_behind_their_tokens;
pub use worked::{worked_lexemes, worked_misfits};
