// What a put makes of a leaf.
ghost use Rattle.std.specs.Prelude.{◌≡◌, ◌≤◌, ◌-◌, ◌↔◌, ℕ, List, [], ◌∷◌, IsTrue, length, slice_get};
ghost use Rattle.put_spec.specs.Steps.{IsLeafEdit, Spelled};
ghost use Rattle.tree_table.specs.Puts.{HasRowidAt};
ghost use Rattle.tree_level.specs.Changes.{HasSpelled, behind, changed};

use cell_codec::CellView;
use tree_level::Change;
use tree_walk::{TreePage, index_of};

/// The overflow chain of a row that was replaced, by its first page and the bytes that it holds; both 0 where there is none.
#[derive(Clone, Copy)]
pub struct OldChain {
    pub first: u32,
    pub bytes: u64,
}

/// What a put makes of the cells of a leaf.
#[derive(Clone, Copy)]
pub struct LeafEdit {
    pub change: Change,
    pub old: OldChain,
}

// Whether a cell has a rowid.
fn has_rowid(view: &CellView, rowid: i64) -> bool
    ensures { IsTrue result ↔ (view.now.rowid ≡ rowid) }
{
    view.rowid == rowid
}

/// Whether there is a cell at an index, and has a rowid.
pub fn meets(views: &[CellView], at: usize, rowid: i64) -> bool
    ensures { IsTrue result ↔ HasRowidAt rowid (slice_get views.now at) }
{
    match views.get(at) {
        Some(view) => has_rowid(view, rowid),
        None => false,
    }
}

/// The overflow chain of a cell.
pub fn chain_of(view: &CellView) -> OldChain
    ensures first { result.first ≡ view.now.overflow }
    ensures bytes { result.bytes ≡ view.now.payload - view.now.local }
{
    OldChain {
        first: view.overflow,
        bytes: view.payload.saturating_sub(u64::from(view.local)),
    }
}

/// What a put of a row makes of the cells of a leaf: the cell of its rowid goes, if there is one, and its own comes.
pub fn leaf_edit(page: &TreePage, rowid: i64) -> LeafEdit
    ensures within { behind result.change.at result.change.goes ≤ length page.now.views }
    ensures edit { (usable : ℕ) (cells : List Spelled) (cell : Spelled) → HasSpelled usable page.now cells → cell.view.rowid ≡ rowid
        → IsLeafEdit cells cell (changed cells result.change.at result.change.goes (cell ∷ [])) result.old.first result.old.bytes }
{
    let views = page.views.as_slice();
    let at = index_of(views, rowid);
    let right = page.right;
    if !meets(views, at, rowid) {
        return LeafEdit {
            change: Change {
                at,
                goes: false,
                right,
            },
            old: OldChain { first: 0, bytes: 0 },
        };
    }
    LeafEdit {
        change: Change {
            at,
            goes: true,
            right,
        },
        old: chain_of(&page.view_at(at)),
    }
}
