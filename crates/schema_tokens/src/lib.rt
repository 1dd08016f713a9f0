//! The tokens of the texts of a schema, and the words, names and numbers that they are (SQLite Keywords; Literal Values; SQL Comment Syntax).
//!
//! What they are is said by `Tokens` and `Words` in the `specs/` of `schema_spec`.
#![tactic(auto)]

mod tokenizer;
mod words;

pub use schema_spec::{Token, TokenKind};
pub use tokenizer::tokens;
pub use words::{
    begins_constraint, is_blob, is_keyword, is_literal, is_name, is_number_token, is_sign, is_sql,
    is_type_word, is_word_of, name_of, part, same_name, spelling,
};
