//! Answers a dump of a table, and a check.
//!
//! `answer_question` is the answer to a question over the files of a disk, as `Questions` of `check_spec` says it. To a dump it is that of the table of the
//! schema, whose rows `schema_lines` prints as `Rows` in `specs/` says, or of any other by `table_dump`, in the catalog of `schema_read`; to a check it
//! is what `file_check` says of the file by its catalog.
#![tactic(auto)]

mod files;
mod halt;
mod pages;
mod question;
mod schema;
mod soundness;
mod tables;

pub use files::answer_question;
pub use halt::Halt;
pub use question::Question;
pub use schema::{SchemaFault, schema_lines};
