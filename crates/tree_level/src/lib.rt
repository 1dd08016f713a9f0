//! One level of a tree is changed: the cells that a page is to have are written, over as many pages as they need.
//!
//! The layer above changes a page that it read with `change_page`, and that of a root with `change_root`: of its cells one goes at most, and others come. The cells of such a page are written to another one by `settle_elsewhere` and `move_cells`. Below these stand `write_node`, which writes a page, `settle`, which spreads cells that one page has no room for, and `move_out`, which moves a root's cells out. What these leave is said by `Changes` and `Levels` in the `specs/`, in the words of `put_spec`.
#![tactic(auto)]

mod cells;
mod changing;
mod in_place;
mod moving;
mod raising;
mod settling;
mod spreading;
mod writing;

pub use cells::Change;
pub use changing::{change_page, change_root, write_changed};
pub use moving::{move_cells, settle_elsewhere};
pub use raising::key_cell;
pub use settling::{move_out, settle};
pub use spreading::push_cell;
pub use writing::{Node, write_node, write_page};
