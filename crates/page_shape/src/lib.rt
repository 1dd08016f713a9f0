//! Pages whose cells are read one by one, where they are looked at, and not decoded (Database File Format, section 1.6).
//!
//! `shape_of` reads the header of a page, `view_at` a cell by its index in the array, and `child_at` the page that is named there. What is read is said of every list of cells that the page has, by `AreCells` of the `specs/`, so that nothing has to be known of the page beforehand; `OwnCellsLaws` says which cells these are where a tree stands at the page. A cell that does not decode where it is read is None: whoever needs to know why reads the page whole.
#![tactic(auto)]

mod fetching;
mod shape;

pub use fetching::fetch;
pub use shape::{Shape, child_at, shape_of, view_at};
