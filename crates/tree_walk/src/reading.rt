// Reads pages of a tree.
ghost use Rattle.std.specs.Prelude.{◌≡◌, ◌⊎◌, ◌+◌, ◌<◌, ◌≤◌, ℕ, List, IfErr, IfOk, None, length, slice_index_or};
ghost use Rattle.byte_fields.specs.Bytes.{part_of};
ghost use Rattle.format_spec.specs.declared.CellView.{CellView};
ghost use Rattle.format_spec.specs.Page.{cell_place};
ghost use Rattle.format_spec.specs.Sizes.{IsUsable};
ghost use Rattle.page_layout.specs.Views.{HasPageFault, IsMemory};
ghost use Rattle.page_store.specs.Store.{HasSizes, Looks, OwesBy, Sees};
ghost use Rattle.tree_spec.specs.Faults.{IsOther, fault_in};
ghost use Rattle.tree_walk.specs.Pages.{IsDecoded, IsReadFault, ReadsPage, has_dividers as has_dividers_of, is_leaf as is_leaf_of, tree_kind as tree_kind_of};

use crate::page::TreePage;
use cell_codec::{CellView, PageKind};
use owned_list::OwnedList;
use page_layout::{PageFault, cells, page_kind, place_of, right_child};
use page_store::{PageRead, page_buffer};
use rbu_value::Bytes;
use refusal::Rule;
use std::alloc::Global;
use tree_spec::{TreeFault, TreeKind, damaged};

/// The kind of the trees that have pages of this kind.
pub fn tree_kind(kind: PageKind) -> TreeKind
    ensures { result ≡ tree_kind_of kind }
{
    match kind {
        PageKind::TableLeaf | PageKind::TableInterior => TreeKind::Table,
        PageKind::IndexLeaf | PageKind::IndexInterior => TreeKind::Index,
    }
}

/// Whether pages of this kind have no children.
pub fn is_leaf(kind: PageKind) -> bool
    ensures { result ≡ is_leaf_of kind }
{
    match kind {
        PageKind::TableLeaf | PageKind::IndexLeaf => true,
        PageKind::TableInterior | PageKind::IndexInterior => false,
    }
}

/// Whether the cells of pages of this kind are no members, as those of a table's interior pages.
pub fn has_dividers(kind: PageKind) -> bool
    ensures { result ≡ has_dividers_of kind }
{
    match kind {
        PageKind::TableInterior => true,
        PageKind::TableLeaf | PageKind::IndexLeaf | PageKind::IndexInterior => false,
    }
}

// The cells of a page. Refuses with `kind` or `cells`.
fn decode(alloc: Global, bytes: Vec<u8>, number: u32, usable: u32) -> Result<TreePage, PageFault>
    requires usable { IsUsable usable }
    requires whole { usable ≤ length bytes.items }
    ensures found { IfOk result (IsDecoded bytes.items number usable) }
    ensures refused { IfErr result (λ fault. IsMemory fault ⊎ HasPageFault bytes.items number usable fault) }
{
    let page = bytes.as_slice();
    let Some(kind) = page_kind(page, number) else {
        return Err(PageFault::BadPage { rule: Rule::Kind });
    };
    let views = cells(alloc, page, number, usable)?;
    let right = right_child(page, number, kind);
    Ok(TreePage {
        number,
        kind,
        bytes: Bytes::from_vec(bytes),
        views: OwnedList::from_vec(views),
        right,
    })
}

// What is refused of a page is refused of its tree.
fn in_tree<F>(fault: PageFault, number: u32) -> TreeFault<F>
    ensures answer { (bytes : List ℕ) (usable : ℕ) → IsMemory fault ⊎ HasPageFault bytes number usable fault → IsReadFault bytes number usable result }
    ensures cause { fault_in result ≡ None }
{
    match fault {
        PageFault::BadPage { rule } => damaged(number, rule),
        PageFault::Memory(error) => TreeFault::Memory(error),
    }
}

// The bytes of a page.
fn load<S: PageRead>(
    alloc: Global,
    store: &mut S,
    number: u32,
) -> Result<Vec<u8>, TreeFault<S::Fault>>
    requires first { 1 ≤ number }
    requires within { number ≤ S.count store.old }
    ensures pages { Looks S.PageRead store.old store.new result (λ bytes m. bytes.items ≡ m number) }
    ensures whole { IfOk result (λ bytes. length bytes.items ≡ S.size store.old) }
    ensures other { IfErr result IsOther }
    ensures owes { OwesBy S.PageRead fault_in store.old store.new result }
{
    let mut buffer = page_buffer(alloc, store.page_size())?;
    match store.page(number, buffer.as_mut_slice()) {
        Ok(()) => Ok(buffer),
        Err(fault) => Err(TreeFault::Store(fault)),
    }
}

/// Reads a page of a tree. Refuses [55] with `kind` or `cells`.
pub fn read_page<S: PageRead>(
    alloc: Global,
    store: &mut S,
    number: u32,
) -> Result<TreePage, TreeFault<S::Fault>>
    requires sizes { HasSizes S.PageRead store.old }
    requires first { 1 ≤ number }
    requires within { number ≤ S.count store.old }
    ensures pages { Sees S.PageRead store.old store.new (λ m. ReadsPage m (S.usable store.old) number result) }
    ensures read { IfOk result (λ page. IsDecoded page.bytes number (S.usable store.old) page) }
    ensures whole { IfOk result (λ page. length page.bytes ≡ S.size store.old) }
    ensures owes { OwesBy S.PageRead fault_in store.old store.new result }
{
    let bytes = load(alloc, store, number)?;
    match decode(alloc, bytes, number, store.usable()) {
        Ok(page) => Ok(page),
        Err(fault) => Err(in_tree(fault, number)),
    }
}

impl TreePage {
    /// The view of a cell.
    pub fn view_at(&self, at: usize) -> CellView
        requires { at < length self.now.views }
        ensures { (d : CellView) → result ≡ slice_index_or self.now.views at d }
    {
        self.views.as_slice()[at]
    }

    /// The rowid of a cell.
    pub fn rowid_at(&self, at: usize) -> i64
        requires { at < length self.now.views }
        ensures { (d : CellView) → result ≡ (slice_index_or self.now.views at d).rowid }
    {
        self.views.as_slice()[at].rowid
    }

    /// The part of a cell's payload that lies in the page.
    pub fn local_part(&self, at: usize) -> &[u8]
        requires { at < length self.now.views }
        ensures { (d : CellView) → result.now ≡ part_of self.now.bytes
            (cell_place self.now.bytes self.now.number self.now.kind at + (slice_index_or self.now.views at d).local_at) (slice_index_or self.now.views at d).local }
    {
        let view = self.views.as_slice()[at];
        let bytes = self.bytes.as_slice();
        let start = place_of(bytes, self.number, self.kind, at as u32) + view.local_at as usize;
        &bytes[start..start + view.local as usize]
    }
}
