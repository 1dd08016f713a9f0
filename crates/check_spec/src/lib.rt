//! What `check` answers of a database, and what is answered to each command that only reads.
//!
//! A crate of definitions. Crates above cite, from `specs/`:
//!
//! - `Checks`: the line of a sound database, and what a check answers of pages and of the files;
//! - `Questions`: what is answered to a dump or a check.
//!
//! The modules that end in `Laws` say that pages and files have one answer, as `check_has_one_answer` and `question_has_one_answer` promise.
#![tactic(auto)]

mod laws;
mod worked;

pub use laws::{check_has_one_answer, question_has_one_answer, questions_are_dumps_and_checks};
pub use worked::worked_checks;
