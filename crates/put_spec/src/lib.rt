//! What a put makes of a tree, level by level.
//!
//! A crate of definitions, which writers of trees stand on. Crates above cite, from `specs/`:
//!
//! - `Children`: the children of an interior page by their places, the place where a rowid belongs, and a list with one member put in;
//! - `Puts`: what stands before and after a put below a page, a cut of a page, and what a put has made of a root;
//! - `Steps`: what a writer does page by page, as cells that stand in their page and in new pages before it, and that this is a put of whatever tree stands there.
//!
//! `ChildrenLaws`, `LeavesLaws` and `PutsLaws` say what follows of trees, `SpelledLaws`, `SettledLaws`, `ParentsLaws` and `StepsLaws` what follows page by page, each level from the one below, and `WorldsLaws` that in the end a world holds again.
#![tactic(auto)]

mod laws;

pub use laws::{
    cell_is_put_in_a_leaf, cell_is_replaced_in_a_leaf, cut_page_is_opened, depth_need_not_be_known,
    leaf_has_the_cell, page_tells_its_tree, parent_has_the_cell, put_begins_in_a_world,
    put_changes_one_row, put_child_opens_its_parent, put_gives_a_world, root_gets_a_level,
    root_has_the_cell, root_keeps_or_moves_out, root_moves_out, root_stays, writer_keeps_the_world,
    written_page_is_put,
};
