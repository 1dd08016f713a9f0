//! B-tree pages as lists of cells (Database File Format, section 1.6).
//!
//! The layer above reads a page by `cells`, `page_kind`, `place_of` and `right_child`, changes one by `insert_cell` and `remove_cell`, puts a cell into one that is not decoded by `insert_in_gap`, and writes one anew by `rebuild`. Which bytes are a page, with which cells, is said by `Page` in the `specs/` of `format_spec`, and what a written page has by `Rooms` in those of `page_spec`. Of the modules in the `specs/` here contracts cite `Accepted` (which pages may be changed), `Views` and `NoRoom` (what is answered), and `KeepsPlaces` of `Written`.
#![tactic(auto)]

mod change;
mod gap;
mod marks;
mod pack;
mod places;
mod put;
mod reading;
mod rebuilding;
mod take;

pub use change::{insert_cell, remove_cell};
pub use gap::insert_in_gap;
pub use places::{count_of, place_of, right_child};
pub use put::{header_length, header_place};
pub use reading::{PageFault, cells, page_kind};
pub use rebuilding::{NoRoom, needs, rebuild};
