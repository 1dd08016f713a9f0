//! What a delete makes of a table's tree, level by level.
//!
//! A crate of definitions, which writers of trees stand on. Crates above cite, from `specs/`:
//!
//! - `Deletes`: what stands before and after a delete below a page, as trees beside one another, and what it has made of a root and of a world.
//! - `Steps`: what a writer does page by page, and that this is a delete from whatever tree stands there.
//!
//! `NeighboursLaws`, `DeletesLaws`, `StepsLaws`, `CutsLaws`, `JoinsLaws`, `MissingLaws` and `WorldsLaws` say what follows, each level from the one below, and in the end that a world holds again. `UnderLaws` has these steps whatever levels a tree has, as writers use them.
#![tactic(auto)]

mod laws;

pub use laws::{
    cell_is_taken_out_of_a_leaf, children_are_groups, delete_changes_one_row, emptied_leaf_goes,
    group_makes_its_parent, interior_neighbours_are_joined, leaf_loses_a_row,
    leaf_that_goes_leaves_its_parent, missing_row_is_not_there, neighbour_of_a_delete_stays,
    neighbours_are_joined, opened_page_is_cut, parent_of_a_delete, root_has_the_delete,
    root_takes_its_only_child, world_has_the_delete, writer_deletes_in_a_world,
    written_page_has_the_delete,
};
