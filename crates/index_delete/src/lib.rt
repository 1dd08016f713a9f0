//! One level of a delete from an index: what becomes of a page, by what became of a child of it.
//!
//! `take_from_leaf` takes a cell out of a leaf. Where an entry goes from an interior page, the last one below the child that its cell names takes its place: `pass_replaced`. Every other page between the leaf and the root is passed by `pass_on`: it gets the cells that come from its child, or joins a child that has no cell any more with a neighbour over the entry between them, leaves and interior pages alike. `take_last` goes down to the last leaf below a page and back. `pass_to_root`, `replace_in_root` and `take_from_root` do so at a root, which may get a level or lose one. What that means for whatever tree stands there is said by `Deletes` in the `specs/`, in the words of `index_delete_spec`.
#![tactic(auto)]

mod beside;
mod closing;
mod ending;
mod joining;
mod levels;
mod opening;
mod rooting;

pub use beside::child_number;
pub use closing::{Removed, pass_on, pass_replaced, take_from_leaf};
pub use ending::{check_inner, take_last};
pub use levels::{Emptied, Left, Step};
pub use rooting::{pass_to_root, replace_in_root, take_from_root};
