//! What the texts of a schema mean (The Schema Table, section 2.1; CREATE TABLE; CREATE INDEX).
//!
//! `Tokens` in `specs/` says which tokens a text has, and `Parts` what these look like. That a text has one list of them, and that each looks so, is promised by `token_parts`, with the laws `TokensLaws`.
#![tactic(auto)]

mod laws;
mod schema;
mod syntax;
mod token;
mod worked;

pub use laws::{text_answers, token_parts};
pub use schema::{Clause, Column, Index, SqlFault, Table};
pub use syntax::{
    ColumnConstraint, ColumnRule, ColumnText, IndexText, IndexedPart, Key, ListedColumn,
    TableConstraint, TableOption, TableRule, TableStatement, TableText,
};
pub use token::{Token, TokenKind};
pub use worked::{worked_stops, worked_texts, worked_tokens};
