//! The rows of a table, read by a cursor (Database File Format, section 1.6).
//!
//! `next_row` gives the row at which a cursor stands and moves it on; `table_rows` reads all of a table. Contracts cite, from `specs/`:
//!
//! - `Remaining`: what is left of a walk where a cursor stands, as the walk's findings (`Walks` of `database_spec`);
//! - `Rows`: what each call makes of it.
//!
//! `CoursesLaws` has the law on which they stand: a walk with findings has a course, which comes to the members found up to the first thing that ends it.
#![tactic(auto)]

mod laws;
mod rows;

pub use laws::walks_have_courses;
pub use rows::{next_row, table_rows};
