//! Cells of an index that go from one page to another.
//!
//! In an index an interior page has entries too, and where one goes another takes its place, or pages are joined over it. `take_cell` copies a cell out of a page that was read, and `spell` spells it as a cell of a page of either kind: behind the child, which a leaf's cell has not, the two are the same. What that means stands in `Respelling` of the `specs/`, and in `RespellingLaws` that the payload and the overflow chain stay.
#![tactic(auto)]

mod cells;
mod laws;

pub use cells::{Taken, spell, take_cell};
pub use laws::cell_keeps_its_payload;
