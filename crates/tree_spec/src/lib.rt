//! B-trees as values that stand in numbered pages.
//!
//! A crate of definitions. Crates above cite, from `specs/`:
//!
//! - `Trees`: trees as values, their pages, their lists of members, and which of their pages have cells (Database File Format, section 1.6);
//! - `Bounds`: the order of a table tree's rowids;
//! - `Standing`: which bytes of which pages are a tree, and `IsTree`, that a tree with this list and these pages stands at a root;
//! - `Worlds`: all pages of a database, each once, and how many can still be taken (sections 1.4 to 1.6);
//! - `Faults`: what stops a call on a tree;
//! - `Changes`: a change of some pages and of the freelist, which leaves all other pages.
//!
//! `LittleWorld` is a database that SQLite wrote. The modules that end in `Laws` say what follows; the functions without parameters promise the main laws, and that the definitions hold of that database.
#![tactic(auto)]

/// The two kinds of tree (Database File Format, section 1.6).
#[derive(Clone, Copy, Debug, PartialEq, Eq)]
pub enum TreeKind {
    /// A table's tree, whose members have rowids.
    Table,
    /// An index's tree, whose members are entries.
    Index,
}

mod fault;
mod laws;
mod worked;

pub use fault::{TreeFault, damaged};
pub use laws::{
    changed_world, changes_join, kept_pages_keep_a_tree, one_tree_at_a_root, slack_is_kept,
    table_rowids_rise, trees_are_not_deep, world_has_trees,
};
pub use worked::worked_world;
