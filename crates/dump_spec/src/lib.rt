//! What `dump` prints of a database, and what files answer to a command that only reads them.
//!
//! A crate of definitions. Crates above cite, from `specs/`:
//!
//! - `Printing`: how a value and a row are printed;
//! - `Refusals`: what the faults of a header, a schema, a text and a record are refused as;
//! - `SchemaRows` and `SchemaDumps`: the lines of the schema table's members, the first member that is no row of it, and what a dump of that table answers;
//! - `TableDumps`: what a dump of a table of the catalog answers, by the first of its causes;
//! - `FileAnswers`: what the files answer, by what their pages answer: a journal, a log and the header come first;
//! - `Dumps`: what `dump` of a name answers of the files.
//!
//! The modules that end in `Laws` say that members, pages and files have one answer, as `schema_rows_have_one_answer` and `dump_has_one_answer`
//! promise, and `TableDumpsLaws` that a table is printed exactly where it is plain, as `plain_tables_are_printed` does.
#![tactic(auto)]

mod laws;
mod worked;

pub use laws::{dump_has_one_answer, plain_tables_are_printed, schema_rows_have_one_answer};
pub use worked::{worked_dumps, worked_lines};
