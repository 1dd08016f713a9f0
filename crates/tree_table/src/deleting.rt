// Deletes a row from the tree of a root.
ghost use Rattle.std.specs.Prelude.{◌≡◌, ◌+◌, ◌≤◌, IfOk, OnOk, length, max};
ghost use Rattle.format_spec.specs.declared.PageKind.TheVariants.{TableLeaf};
ghost use Rattle.page_store.specs.Store.{HasSizes, OwesBy};
ghost use Rattle.tree_pages.specs.Takes.{RisesBy};
ghost use Rattle.tree_pages.specs.Writers.{Becomes, sizes_of};
ghost use Rattle.tree_spec.specs.Faults.{fault_in};
ghost use Rattle.tree_walk.specs.Pages.{IsDecoded};
ghost use Rattle.tree_table.specs.Needs.{RefusesAt, RefusesFull, RefusesRoot, RefusesTable};
ghost use Rattle.tree_table.specs.Deletes.{DeletesFrom, DeletesInto, DeletesRow, delete_pages};

use crate::alone::delete_alone;
use crate::opening::step_below;
use crate::removing::delete_below;
use crate::sinking::pass_to_root;
use crate::taking::{Taken, find_row, write_without};
use cell_codec::PageKind;
use page_store::PageWrite;
use rbu_value::Bytes;
use refusal::Rule;
use std::alloc::Global;
use tree_pages::{TreeFault, give_back};
use tree_spec::damaged;
use tree_walk::{TreePage, read_page};

// The most pages below a root, from its children to the leaves.
const LEVELS: u32 = 24;

// Deletes the row of a rowid from a root that is a leaf. Refuses [55] with `chain`.
fn delete_in_root<S: PageWrite>(
    alloc: Global,
    store: &mut S,
    page: TreePage,
    rowid: i64,
) -> Result<Option<Taken>, TreeFault<S::Fault>>
    requires sizes { HasSizes S.PageRead store.old }
    requires first { 1 ≤ page.number }
    requires on_page { page.number ≤ S.count store.old }
    requires page { IsDecoded page.bytes page.number (S.usable store.old) page }
    requires whole { length page.bytes ≡ S.size store.old }
    requires kind { page.kind ≡ TableLeaf }
    ensures deleted { IfOk result (λ taken. Becomes S.PageRead store.old store.new (λ a b. a.pages page.number ≡ page.bytes → DeletesInto (sizes_of S.PageRead store.old) page.number rowid taken a b)) }
    ensures count { S.count store.new ≡ S.count store.old }
    ensures refuses { RefusesAt S.PageRead page store.old result }
    ensures owes { OwesBy S.PageRead fault_in store.old store.new result }
{
    let sought = find_row(alloc, store, &page, rowid)?;
    match sought {
        None => Ok(None),
        Some(found) => {
            write_without(alloc, store, page, found.change)?;
            Ok(Some(found.row))
        }
    }
}

// Deletes the row of a rowid from the tree of a root, but for its overflow chain. Refuses [55], [51] and [50].
fn delete_root<S: PageWrite>(
    alloc: Global,
    store: &mut S,
    root: u32,
    rowid: i64,
    limit: u32,
) -> Result<Option<Taken>, TreeFault<S::Fault>>
    requires sizes { HasSizes S.PageRead store.old }
    requires first { 1 ≤ root }
    requires within { root ≤ S.count store.old }
    ensures deleted { IfOk result (λ taken. Becomes S.PageRead store.old store.new (DeletesInto (sizes_of S.PageRead store.old) root rowid taken)) }
    ensures count { OnOk result (S.count store.old ≤ S.count store.new) }
    ensures most { OnOk result (S.count store.new ≤ max limit (S.count store.old)) }
    ensures rises { OnOk result (RisesBy S.PageRead 50 store.old store.new) }
    ensures refuses { RefusesRoot S.PageRead 24 2 limit root store.old store.new result }
    ensures owes { OwesBy S.PageRead fault_in store.old store.new result }
{
    let page = read_page(alloc, store, root)?;
    match page.kind {
        PageKind::TableLeaf => delete_in_root(alloc, store, page, rowid),
        PageKind::TableInterior => {
            if root != 1 && page.views.as_slice().is_empty() {
                return Err(damaged(root, Rule::Empty));
            }
            let step = step_below(store, &page, rowid)?;
            let below = delete_below(alloc, store, step.child, LEVELS - 1, rowid, limit)?;
            match below {
                None => Ok(None),
                Some(removed) => {
                    pass_to_root(alloc, store, page, step, removed.left, limit)?;
                    Ok(Some(removed.row))
                }
            }
        }
        PageKind::IndexLeaf | PageKind::IndexInterior => Err(damaged(root, Rule::Kind)),
    }
}

// Deletes the row of a rowid from the table of a root, from its leaf alone where that is enough, but for its overflow chain. Refuses [55], [51] and [50].
fn delete_row<S: PageWrite>(
    alloc: Global,
    store: &mut S,
    root: u32,
    rowid: i64,
    limit: u32,
) -> Result<Option<Taken>, TreeFault<S::Fault>>
    requires sizes { HasSizes S.PageRead store.old }
    requires first { 1 ≤ root }
    requires within { root ≤ S.count store.old }
    ensures deleted { IfOk result (λ taken. Becomes S.PageRead store.old store.new (DeletesFrom (sizes_of S.PageRead store.old) root rowid taken)) }
    ensures count { OnOk result (S.count store.old ≤ S.count store.new) }
    ensures most { OnOk result (S.count store.new ≤ max limit (S.count store.old)) }
    ensures rises { OnOk result (RisesBy S.PageRead 50 store.old store.new) }
    ensures refuses { RefusesTable S.PageRead 24 2 limit root store.old store.new result }
    ensures owes { OwesBy S.PageRead fault_in store.old store.new result }
{
    let alone = delete_alone(alloc, store, root, LEVELS, rowid)?;
    match alone {
        Some(row) => Ok(Some(row)),
        None => delete_root(alloc, store, root, rowid, limit),
    }
}

/// Deletes the row of a rowid from the table at a root, and answers its payload; None exactly where there is none, and then nothing changed. The pages that the table has no longer go to the freelist, also those of the row's overflow chain. Pages are taken, as by `put` up to a limit, only where an interior page has no room for a cell that comes. Refuses [55] where it meets a damaged page, [50] a damaged freelist, and [51] where a page is needed and none can be taken.
///
/// The count of pages rises by at most 54, and [51] comes only where free pages and pages up to the limit were together fewer. After an error the store may hold part of the change.
pub fn delete<S: PageWrite>(
    alloc: Global,
    store: &mut S,
    root: u32,
    rowid: i64,
    limit: u32,
) -> Result<Option<Bytes>, TreeFault<S::Fault>>
    requires sizes { HasSizes S.PageRead store.old }
    requires first { 1 ≤ root }
    requires within { root ≤ S.count store.old }
    ensures deleted { IfOk result (λ payload. Becomes S.PageRead store.old store.new (DeletesRow (sizes_of S.PageRead store.old) root rowid limit payload)) }
    ensures count { OnOk result (S.count store.old ≤ S.count store.new) }
    ensures most { OnOk result (S.count store.new ≤ max limit (S.count store.old)) }
    ensures rises { OnOk result (S.count store.new ≤ S.count store.old + delete_pages) }
    ensures refuses { RefusesFull S.PageRead root delete_pages limit store.old store.new result }
    ensures owes { OwesBy S.PageRead fault_in store.old store.new result }
{
    let taken = delete_row(alloc, store, root, rowid, limit)?;
    match taken {
        None => Ok(None),
        Some(row) => {
            give_back(alloc, store, row.old.first, row.old.bytes)?;
            Ok(Some(row.payload))
        }
    }
}
