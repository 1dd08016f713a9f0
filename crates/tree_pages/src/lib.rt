//! Pages that a writer of trees takes and gives back, and the overflow chains that it writes.
//!
//! The layer above takes a page by `take_page`, writes the part of a payload that its cell does not keep by `write_overflow`, and gives a page or a chain back by `give_page` and `give_back`. What these leave is said in the words of `put_spec`, by `Becomes` of `Writers` in the `specs/`.
#![tactic(auto)]

mod giving;
mod taking;
mod writing;

pub use giving::{give_back, give_page};
pub use taking::take_page;
pub use tree_spec::TreeFault;
pub use writing::write_overflow;
