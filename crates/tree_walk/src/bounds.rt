// The order of a table tree's rowids.
ghost use Rattle.std.specs.Prelude.{◌≡◌, ◌↔◌, ◌<ℤ◌, ◌≤ℤ◌, ℤ, IsTrue, Some, map};
ghost use Rattle.format_spec.specs.declared.CellView.{CellView};
ghost use Rattle.tree_spec.specs.Bounds.{RisesIn};
ghost use Rattle.tree_walk.specs.Places.{Rises, high_at, low_at, low_bound, rowids};
ghost use Rattle.tree_walk.specs.Pages.{tree_kind as tree_kind_of};

use crate::page::TreePage;
use crate::place::Place;
use crate::reading::tree_kind;
use cell_codec::CellView;
use tree_spec::TreeKind;

// Whether the rowid of a cell is above a bound, if there is one.
fn is_above(view: &CellView, low: Option<i64>) -> bool
    ensures { IsTrue result ↔ (low_bound low <ℤ view.now.rowid) }
{
    let rowid = view.rowid;
    match low {
        Some(low) => low < rowid,
        None => true,
    }
}

// The bound that a cell gives to what follows it.
fn bound_behind(view: &CellView) -> Option<i64>
    ensures { result ≡ Some view.now.rowid }
{
    Some(view.rowid)
}

// Whether a bound, if there is one, is not above another.
fn is_within(low: Option<i64>, high: i64) -> bool
    ensures { IsTrue result ↔ (low_bound low ≤ℤ high) }
{
    match low {
        Some(low) => low <= high,
        None => true,
    }
}

// Whether the rowids of cells strictly rise within bounds.
fn rise(views: &[CellView], low: Option<i64>, high: i64) -> bool
    ensures { IsTrue result ↔ RisesIn (low_bound low) high (rowids views.now) }
{
    let mut last = low;
    for view in views {
        if !is_above(view, last) {
            return false;
        }
        last = bound_behind(view);
    }
    is_within(last, high)
}

/// Whether the rowids of a page of a table strictly rise within bounds. The pages of an index have no bounds.
pub fn is_in_order(page: &TreePage, low: Option<i64>, high: i64) -> bool
    ensures { IsTrue result ↔ Rises (tree_kind_of page.now.kind) low high page.now.views }
{
    match tree_kind(page.kind) {
        TreeKind::Table => rise(page.views.as_slice(), low, high),
        TreeKind::Index => true,
    }
}

impl Place {
    /// The bound below the rowids of the child at which the place is.
    pub fn low_of_child(&self) -> Option<i64>
        ensures { result ≡ low_at self.now }
    {
        if self.at == 0 {
            return self.low;
        }
        match self.page.views.as_slice().get(self.at - 1) {
            Some(view) => Some(view.rowid),
            None => self.low,
        }
    }

    /// The greatest rowid that the child may have at which the place is.
    pub fn high_of_child(&self) -> i64
        ensures { result ≡ high_at self.now }
    {
        match self.page.views.as_slice().get(self.at) {
            Some(view) => view.rowid,
            None => self.high,
        }
    }
}
