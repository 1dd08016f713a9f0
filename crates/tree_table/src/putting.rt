// Puts a row into the tree of a root.
ghost use Rattle.std.specs.Prelude.{◌≡◌, ◌≤◌, ◌<◌, ◌+◌, List, IfOk, OnOk, length, max};
ghost use Rattle.std.specs.List.{All};
ghost use Rattle.format_spec.specs.Cell.{payload_limit};
ghost use Rattle.format_spec.specs.declared.PageKind.TheVariants.{TableInterior, TableLeaf};
ghost use Rattle.page_spec.specs.Rooms.{IsOneCell};
ghost use Rattle.page_store.specs.Store.{HasSizes, OwesBy};
ghost use Rattle.tree_pages.specs.Takes.{RefusesShort, RisesBy};
ghost use Rattle.tree_pages.specs.Writers.{Becomes, sizes_of};
ghost use Rattle.tree_spec.specs.Faults.{fault_in};
ghost use Rattle.tree_walk.specs.Pages.{IsDecoded};
ghost use Rattle.tree_table.specs.Needs.{RefusesFull, RefusesUnder, put_pages};
ghost use Rattle.tree_table.specs.Puts.{IsRow, PutsInto, PutsRow, PutsTable, RaisesRoot};

use crate::descending::{child_number, only, put_below};
use crate::leaf::{OldChain, leaf_edit};
use crate::rows::make_cell;
use cell_codec::PageKind;
use page_store::PageWrite;
use rbu_value::Bytes;
use refusal::Rule;
use std::alloc::Global;
use table_leaf::put_in_leaf;
use tree_level::{Change, change_root};
use tree_pages::{TreeFault, give_back};
use tree_spec::damaged;
use tree_walk::{TreePage, index_of, read_page};

// The most pages below a root, from its children to the leaves.
const LEVELS: u32 = 24;

// Puts a row into a root that is a leaf.
fn put_in_root<S: PageWrite>(
    alloc: Global,
    store: &mut S,
    page: TreePage,
    cell: Bytes,
    rowid: i64,
    limit: u32,
) -> Result<OldChain, TreeFault<S::Fault>>
    requires sizes { HasSizes S.PageRead store.old }
    requires first { 1 ≤ page.number }
    requires on_page { page.number ≤ S.count store.old }
    requires page { IsDecoded page.bytes page.number (S.usable store.old) page }
    requires whole { length page.bytes ≡ S.size store.old }
    requires kind { page.kind ≡ TableLeaf }
    requires cell { IsRow (S.usable store.old) rowid cell }
    ensures put { IfOk result (λ old. Becomes S.PageRead store.old store.new (λ a b. a.pages page.number ≡ page.bytes → PutsInto (sizes_of S.PageRead store.old) page.number rowid cell old.first old.bytes a b)) }
    ensures count { OnOk result (S.count store.old ≤ S.count store.new) }
    ensures most { OnOk result (S.count store.new ≤ max limit (S.count store.old)) }
    ensures rises { OnOk result (RisesBy S.PageRead 3 store.old store.new) }
    ensures refuses { RefusesShort S.PageRead 3 limit store.old store.new result }
    ensures owes { OwesBy S.PageRead fault_in store.old store.new result }
{
    let edit = leaf_edit(&page, rowid);
    let comes = only(alloc, cell)?;
    change_root(alloc, store, page, edit.change, comes, limit)?;
    Ok(edit.old)
}

// Puts the dividers that came from below among the cells of a root.
fn raise_root<S: PageWrite>(
    alloc: Global,
    store: &mut S,
    page: TreePage,
    at: usize,
    came: Vec<Bytes>,
    limit: u32,
) -> Result<(), TreeFault<S::Fault>>
    requires sizes { HasSizes S.PageRead store.old }
    requires first { 1 ≤ page.number }
    requires on_page { page.number ≤ S.count store.old }
    requires page { IsDecoded page.bytes page.number (S.usable store.old) page }
    requires whole { length page.bytes ≡ S.size store.old }
    requires kind { page.kind ≡ TableInterior }
    requires at { at ≤ length page.views }
    requires came { All (IsOneCell TableInterior (S.usable store.old)) came.items }
    requires few { length came.items ≤ 2 }
    ensures raised { OnOk result (Becomes S.PageRead store.old store.new (RaisesRoot (sizes_of S.PageRead store.old) page at came.items)) }
    ensures count { OnOk result (S.count store.old ≤ S.count store.new) }
    ensures most { OnOk result (S.count store.new ≤ max limit (S.count store.old)) }
    ensures rises { OnOk result (RisesBy S.PageRead 3 store.old store.new) }
    ensures refuses { RefusesShort S.PageRead 3 limit store.old store.new result }
    ensures owes { OwesBy S.PageRead fault_in store.old store.new result }
{
    if came.is_empty() {
        return Ok(());
    }
    let change = Change {
        at,
        goes: false,
        right: page.right,
    };
    change_root(alloc, store, page, change, came, limit)
}

// Puts a row into the tree of a root, and answers the overflow chain of the row that it replaced. Refuses [55], [51] and [50].
fn put_root<S: PageWrite>(
    alloc: Global,
    store: &mut S,
    root: u32,
    cell: Bytes,
    rowid: i64,
    limit: u32,
) -> Result<OldChain, TreeFault<S::Fault>>
    requires sizes { HasSizes S.PageRead store.old }
    requires first { 1 ≤ root }
    requires within { root ≤ S.count store.old }
    requires cell { IsRow (S.usable store.old) rowid cell }
    ensures put { IfOk result (λ old. Becomes S.PageRead store.old store.new (PutsInto (sizes_of S.PageRead store.old) root rowid cell old.first old.bytes)) }
    ensures count { OnOk result (S.count store.old ≤ S.count store.new) }
    ensures most { OnOk result (S.count store.new ≤ max limit (S.count store.old)) }
    ensures rises { OnOk result (RisesBy S.PageRead 51 store.old store.new) }
    ensures refuses { RefusesUnder S.PageRead 24 3 limit root store.old store.new result }
    ensures owes { OwesBy S.PageRead fault_in store.old store.new result }
{
    let page = read_page(alloc, store, root)?;
    match page.kind {
        PageKind::TableLeaf => put_in_root(alloc, store, page, cell, rowid, limit),
        PageKind::TableInterior => {
            let at = index_of(page.views.as_slice(), rowid);
            let child = child_number(store, &page, at)?;
            let grown = put_below(alloc, store, child, LEVELS - 1, cell, rowid, limit)?;
            raise_root(alloc, store, page, at, grown.dividers, limit)?;
            Ok(grown.old)
        }
        PageKind::IndexLeaf | PageKind::IndexInterior => Err(damaged(root, Rule::Kind)),
    }
}

// Puts a row into the table of a root, into its leaf alone where that has room, and answers the overflow chain of the row that it replaced. Refuses [55], [51] and [50].
fn put_row<S: PageWrite>(
    alloc: Global,
    store: &mut S,
    root: u32,
    cell: Bytes,
    rowid: i64,
    limit: u32,
) -> Result<OldChain, TreeFault<S::Fault>>
    requires sizes { HasSizes S.PageRead store.old }
    requires first { 1 ≤ root }
    requires within { root ≤ S.count store.old }
    requires cell { IsRow (S.usable store.old) rowid cell }
    ensures put { IfOk result (λ old. Becomes S.PageRead store.old store.new (PutsTable (sizes_of S.PageRead store.old) root rowid cell old.first old.bytes)) }
    ensures count { OnOk result (S.count store.old ≤ S.count store.new) }
    ensures most { OnOk result (S.count store.new ≤ max limit (S.count store.old)) }
    ensures rises { OnOk result (RisesBy S.PageRead 51 store.old store.new) }
    ensures refuses { RefusesUnder S.PageRead 24 3 limit root store.old store.new result }
    ensures owes { OwesBy S.PageRead fault_in store.old store.new result }
{
    let did = put_in_leaf(alloc, store, root, LEVELS, rowid, cell.as_slice())?;
    if did {
        return Ok(OldChain { first: 0, bytes: 0 });
    }
    put_root(alloc, store, root, cell, rowid, limit)
}

/// Puts a row into the table at a root, in place of the row of its rowid if there is one. A payload has at most 2147483647 bytes. Pages are taken from the freelist, and where that is empty past the end, up to a limit. Refuses [55] where it meets a damaged page, [50] a damaged freelist, and [51] where a page is needed and none can be taken.
///
/// The count of pages rises by at most 54 and the overflow pages of the payload, and [51] comes only where free pages and pages up to the limit were together fewer. After an error the store may hold part of the change.
pub fn put<S: PageWrite>(
    alloc: Global,
    store: &mut S,
    root: u32,
    rowid: i64,
    payload: &[u8],
    limit: u32,
) -> Result<(), TreeFault<S::Fault>>
    requires sizes { HasSizes S.PageRead store.old }
    requires first { 1 ≤ root }
    requires within { root ≤ S.count store.old }
    requires payload { length payload.now ≤ payload_limit }
    ensures put { OnOk result (Becomes S.PageRead store.old store.new (PutsRow (sizes_of S.PageRead store.old) root (record { rowid = rowid; payload = payload.now }) limit)) }
    ensures count { OnOk result (S.count store.old ≤ S.count store.new) }
    ensures most { OnOk result (S.count store.new ≤ max limit (S.count store.old)) }
    ensures rises { OnOk result (S.count store.new ≤ S.count store.old + put_pages (S.usable store.old) (length payload.now)) }
    ensures refuses { RefusesFull S.PageRead root (put_pages (S.usable store.old) (length payload.now)) limit store.old store.new result }
    ensures owes { OwesBy S.PageRead fault_in store.old store.new result }
{
    let cell = make_cell(alloc, store, rowid, payload, limit)?;
    let old = put_row(alloc, store, root, cell, rowid, limit)?;
    give_back(alloc, store, old.first, old.bytes)
}
