//! What a database holds: the catalog of its tables and indexes, their rows and entries, and whether it is sound.
//!
//! A crate of definitions, over a count and a map of pages. Crates above cite, from `specs/`:
//!
//! - `Walks`: what a walk over a tree finds, whatever the pages hold, and what a cursor gives of it (Database File Format, section 1.6);
//! - `SchemaRows` and `Catalogs`: the rows of the schema, and the catalog that they say (section 2.6; The Schema Table);
//! - `RightRows`: which rows are right, the first fault of one that is not, and `HasCatalog`;
//! - `Rows` and `Keys`: the rows of a table, and the entries of an index: their order, and the projection of a table;
//! - `Databases`: a database by its header and lists, and when pages are whole and sound; `SameDatabases`: which pages matter;
//! - `FileFindings` and `FileFaults`: all that is found in a file, in order, and its first fault.
//!
//! `LittleTarget` is a database that SQLite wrote. The modules that end in `Laws` say what follows; the functions without parameters promise the main laws, and that the definitions hold of that database.
#![tactic(auto)]

mod catalog;
mod fault;
mod laws;
mod worked;

pub use catalog::{Catalog, Entry, NamedEntry, SchemaKind, SchemaRow};
pub use fault::FileFault;
pub use laws::{
    database_has_one_catalog, file_has_one_fault, same_pages_are_the_same_database,
    table_has_one_projection, walks_find_one_list,
};
pub use worked::{worked_file_faults, worked_target};
