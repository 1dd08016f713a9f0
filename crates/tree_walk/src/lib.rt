//! Cursors over b-trees (Database File Format, section 1.6).
//!
//! The layer above stands a `Cursor` at the first member of a tree by `first`, or at the first whose rowid is not less than another by `seek`, moves it by `next`, and reads the member there by `row`. A writer reads one page by `read_page`, and finds the place of a rowid in it by `index_of`. Contracts cite, from `specs/`:
//!
//! - `Courses`: what a walk from a root comes to, whatever the store holds, and `SoughtCourses`, from where a rowid belongs on;
//! - `Walks`: `StandsAt`, which members of a standing tree are left where a cursor stands, and what each call makes of them; `Seeks`, the same of `seek`;
//! - `Rising`: the rowids of a table rise, whatever the store holds.
//!
//! The functions without parameters promise laws of these.
#![tactic(auto)]

mod bounds;
mod cursor;
mod entering;
mod laws;
mod page;
mod path;
mod payload;
mod place;
mod reading;
mod seeking;

pub use bounds::is_in_order;
pub use cursor::Row;
pub use laws::{no_cell_is_left_past_the_last, standing_trees_have_courses, stores_have_courses};
pub use page::TreePage;
pub use path::Cursor;
pub use payload::read_payload;
pub use reading::{is_leaf, read_page, tree_kind};
pub use seeking::index_of;
pub use tree_spec::{TreeFault, TreeKind};
