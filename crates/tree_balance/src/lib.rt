//! Which cells go to which page where one page has no room for them.
//!
//! The layer above asks `cut` where a page is cut when it writes it, `room_of` what a page has room for, `risen` how many cells go up to the parent, and `layout` for the pages of any list of cells. `Cuts` in the `specs/`
//! says how many cells go up, and what a page has room for, `Shares` what shares of a list of cells are, and `NeedsLaws` what cells need.
#![tactic(auto)]

mod cutting;
mod share;
mod shares;

pub use cutting::{cut, risen, room_of};
pub use share::Share;
pub use shares::layout;
