//! Whether a file is sound (PRAGMA integrity_check, as far as this project has its rules), and its first fault where it is not.
//!
//! A check goes through all that is found in a file, in the order of `FileFindings` of `database_spec`: the trees, the freelist, the pages that have to stand somewhere, and the plain indexes. Each of these stands, over whatever was found before it: `pass_tree`, `check_freelist`, `check_pages` and `first_that_disagrees`. `pass_members` and `pass_index` go through the tree of a table and of an index by the first; the second compares a plain index with its table too, of which `projection` reads what the index has to hold. Contracts cite, from `specs/`:
//!
//! - `Passes`: what a part of a check leaves, and what it answers; `TreeSteps`: `PassesTree`, the same of a tree;
//! - `Steps`: what is known of a tree by what was found of it, and what one step of a walk over it leaves;
//! - `Compares`: what a comparison of an index with its table answers;
//! - `Projections`: what is read of a table for an index, and `Indexes`: what a walk over an index answers with it.
#![tactic(auto)]

mod cells;
mod chain;
mod compare;
mod fault;
mod freelist;
mod indexes;
mod members;
mod pages;
mod projections;
mod rows;
mod trees;
mod walk;

pub use chain::pass_chain;
pub use compare::{compare_entry, first_that_disagrees};
pub use fault::CheckFault;
pub use freelist::check_freelist;
pub use indexes::{pass_index, pass_members};
pub use pages::{check_pages, mark, page_flags};
pub use projections::{order_of_index, projection};
pub use trees::pass_tree;
pub use walk::{CheckedTree, Comparison, Members};
