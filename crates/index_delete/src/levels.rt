// What a delete makes of the pages of an index.
ghost use Rattle.std.specs.Prelude.{◌≡◌, ◌↔◌, IsTrue, List, length};
ghost use Rattle.index_delete.specs.Deletes.{IsEmptied, IsStill};

use cell_codec::PageKind;
use rbu_value::Bytes;
use tree_level::Change;
use tree_walk::TreePage;

/// A child of an interior page, by its index and its page.
#[derive(Clone, Copy)]
pub struct Step {
    pub at: usize,
    pub child: u32,
}

/// A page that would have no cell: its kind, and the only child that an interior page keeps, 0 for a leaf.
#[derive(Clone, Copy)]
pub struct Emptied {
    pub kind: PageKind,
    pub only: u32,
}

/// What a delete left of a page below a root.
#[derive(Drop)]
pub enum Left {
    /// It has a cell, and these cells go up to its parent.
    Cells(Vec<Bytes>),
    /// It would have no cell, and is not written.
    NoCell(Emptied),
}

/// What becomes of the cells of a page, and the cells that come.
#[derive(Drop)]
pub struct Opened {
    pub change: Change,
    pub comes: Vec<Bytes>,
}

/// Whether nothing changes in the parent of a page that is left so: it has a cell, and none goes up.
pub fn is_still(left: &Left) -> bool
    ensures { IsTrue result ↔ IsStill left.now }
{
    match left {
        Left::Cells(dividers) => dividers.is_empty(),
        Left::NoCell(_) => false,
    }
}

/// Whether a page would have no cell any more.
pub fn is_emptied(page: &TreePage, opened: &Opened) -> bool
    ensures { IsTrue result ↔ IsEmptied page.now opened.now }
{
    let kept = page.views.as_slice().len();
    opened.comes.is_empty() && kept == usize::from(opened.change.goes)
}
