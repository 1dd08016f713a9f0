// The path from the root of a tree to a cell.
ghost use Rattle.std.specs.Prelude.{reverse};
ghost use Rattle.tree_walk.specs.Paths.{IsPath};
ghost use Rattle.tree_walk.specs.PathsLaws.{path-prop};

use crate::place::Place;
use arrayvec::ArrayVec;
use std::alloc::Global;

/// A place in a tree: at one of its members, or past the last. Its path has at most 25 pages, of which `here` is the last.
#[derive(Drop)]
pub struct Cursor {
    pub(crate) above: ArrayVec<Place, 24, Global>,
    pub(crate) here: Place,
    ghost path: { IsPath (reverse above.items) here } by { path-prop (reverse above.items) here },
}
