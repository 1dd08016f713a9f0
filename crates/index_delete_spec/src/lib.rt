//! What a delete makes of an index's tree, level by level.
//!
//! A crate of definitions, which writers of indexes stand on. Crates above cite, from `specs/`:
//!
//! - `Deletes`: what stands before and after a delete below a page, as trees beside one another, and what it has made of a root and of a world.
//! - `Steps`: what a writer does page by page, and that this is a delete from whatever tree stands there.
//!
//! An entry that goes from a leaf is the cell of that leaf. One that goes from an interior page is replaced by the entry before it, the last one below the child that its cell names, with payload and overflow chain. A page without a cell is joined with a neighbour over the entry between them, leaves and interior pages alike.
//!
//! `PartsLaws`, `DeletesLaws`, `StepsLaws`, `CutsLaws`, `JoinsLaws` and `WorldsLaws` say what follows, each level from the one below, and in the end that a world holds again. `UnderLaws` has these steps whatever levels a tree has, as writers use them.
#![tactic(auto)]

mod laws;

pub use laws::{
    entry_takes_the_place_of_another, leaf_loses_an_entry, neighbours_are_joined,
    opened_page_is_written, parent_of_a_delete, root_takes_its_only_child, world_has_the_delete,
};
