// A page of a tree, read whole.
ghost use Rattle.std.specs.Prelude.{◌+◌, ◌<◌, ◌≤◌, ℕ, length, slice_index_or};
ghost use Rattle.format_spec.specs.declared.CellView.{CellView};
ghost use Rattle.format_spec.specs.Page.{cell_place};
ghost use Rattle.page_spec.specs.Rooms.{array_end};

use cell_codec::{CellView, PageKind};
use owned_list::OwnedList;
use rbu_value::Bytes;

/// A page of a tree with the views of its cells. A leaf's `right` is 0.
#[derive(Drop)]
pub struct TreePage {
    pub number: u32,
    pub kind: PageKind,
    pub bytes: Bytes,
    pub views: OwnedList<CellView>,
    pub right: u32,
    ghost few: { length views ≤ 65536 },
    ghost array: { (k : ℕ) → k < length views → array_end number kind (k + 1) ≤ length bytes },
    ghost parts: { (k : ℕ) (d : CellView) → k < length views →
        cell_place bytes number kind k + (slice_index_or views k d).local_at + (slice_index_or views k d).local ≤ length bytes },
}
