// What a delete leaves of a page.
ghost use Rattle.std.specs.Prelude.{◌≡◌, ◌≤◌, ◌<◌, ◌⊎◌, true, [], IfErr, IfOk, OnOk, length, max};
ghost use Rattle.std.specs.List.{All};
ghost use Rattle.format_spec.specs.declared.PageKind.TheVariants.{IndexInterior, IndexLeaf};
ghost use Rattle.page_spec.specs.Rooms.{IsOneCell};
ghost use Rattle.page_store.specs.Store.{HasSizes, IsNumber, OwesBy};
ghost use Rattle.index_delete_spec.specs.Steps.{IsOfIndex};
ghost use Rattle.tree_level.specs.Changes.{WritesChange, behind};
ghost use Rattle.tree_pages.specs.Takes.{RefusesShort, RisesBy, UsesBy};
ghost use Rattle.tree_pages.specs.Writers.{Becomes, sizes_of};
ghost use Rattle.tree_spec.specs.Faults.{IsOther, fault_in};
ghost use Rattle.tree_walk.specs.Pages.{IsDecoded};
ghost use Rattle.index_cells.specs.Respelling.{IsCellAt, IsWhole};
ghost use Rattle.index_delete.specs.Deletes.{Closes, HasCell, IsChildAt, IsFit, Passes, Replaces, Shrinks, closed_most, passed_most};
ghost use Rattle.index_delete.specs.Needs.{ClosesBy, PassesBy, RefusesBeside, Whenever, short_most};

use crate::levels::{Emptied, Left, Opened, Step, is_emptied, is_still};
use crate::opening::{open_page, replace_cell};
use cell_codec::PageKind;
use index_cells::{Taken, take_cell};
use page_store::PageWrite;
use std::alloc::Global;
use tree_level::{Change, change_page, write_changed};
use tree_pages::TreeFault;
use tree_walk::TreePage;

/// What a delete made of a leaf: the cell that was taken out, and what is left.
#[derive(Drop)]
pub struct Removed {
    pub row: Taken,
    pub left: Left,
}

// Writes an interior page with the cells that it is to have, unless it would have none. Refuses [51] and [50].
fn close_page<S: PageWrite>(
    alloc: Global,
    store: &mut S,
    page: TreePage,
    opened: Opened,
    limit: u32,
) -> Result<Left, TreeFault<S::Fault>>
    requires sizes { HasSizes S.PageRead store.old }
    requires number { IsNumber S.PageRead store.old page.number }
    requires page { IsDecoded page.bytes page.number (S.usable store.old) page }
    requires whole { length page.bytes ≡ S.size store.old }
    requires kind { page.kind ≡ IndexInterior }
    requires within { behind opened.change.at opened.change.goes ≤ length page.views }
    requires comes { All (IsOneCell IndexInterior (S.usable store.old)) opened.comes.items }
    requires few { length opened.comes.items ≤ 3 }
    ensures left { IfOk result (λ left. Becomes S.PageRead store.old store.new (Closes (sizes_of S.PageRead store.old) page opened left)) }
    ensures fit { IfOk result (IsFit (S.usable store.old)) }
    ensures count { OnOk result (S.count store.old ≤ S.count store.new) }
    ensures most { OnOk result (S.count store.new ≤ max limit (S.count store.old)) }
    ensures filled { IfOk result (λ left. 0 < length opened.comes.items → HasCell left) }
    ensures none { IfOk result (λ left. HasCell left ⊎ (length opened.comes.items ≡ 0)) }
    ensures rises { IfOk result (λ left. RisesBy S.PageRead (closed_most left) store.old store.new) }
    ensures uses { IfOk result (λ left. ClosesBy S.PageRead (closed_most left) store.old store.new) }
    ensures refuses { RefusesShort S.PageRead 2 limit store.old store.new result }
    ensures owes { OwesBy S.PageRead fault_in store.old store.new result }
{
    if is_emptied(&page, &opened) {
        return Ok(Left::NoCell(Emptied {
            kind: PageKind::IndexInterior,
            only: opened.change.right,
        }));
    }
    let dividers = change_page(alloc, store, page, opened.change, opened.comes, limit)?;
    Ok(Left::Cells(dividers))
}

/// What is left of an interior page with a cell, once a child of it is left so. Refuses [55] with `child`, `kind` or `cells`, [51] and [50].
pub fn pass_on<S: PageWrite>(
    alloc: Global,
    store: &mut S,
    page: TreePage,
    step: Step,
    below: Left,
    limit: u32,
) -> Result<Left, TreeFault<S::Fault>>
    requires sizes { HasSizes S.PageRead store.old }
    requires number { IsNumber S.PageRead store.old page.number }
    requires page { IsDecoded page.bytes page.number (S.usable store.old) page }
    requires whole { length page.bytes ≡ S.size store.old }
    requires kind { page.kind ≡ IndexInterior }
    requires some { 0 < length page.views }
    requires at { step.at ≤ length page.views }
    requires child { IsChildAt page step.at step.child }
    requires in_range { IsNumber S.PageRead store.old step.child }
    requires fit { IsFit (S.usable store.old) below }
    ensures left { IfOk result (λ left. Becomes S.PageRead store.old store.new (Passes (sizes_of S.PageRead store.old) page step.at step.child below left)) }
    ensures fit { IfOk result (IsFit (S.usable store.old)) }
    ensures count { OnOk result (S.count store.old ≤ S.count store.new) }
    ensures most { OnOk result (S.count store.new ≤ max limit (S.count store.old)) }
    ensures filled { IfOk result (λ left. HasCell below → HasCell left) }
    ensures rises { IfOk result (λ left. RisesBy S.PageRead (passed_most below left) store.old store.new) }
    ensures uses { IfOk result (λ left. PassesBy S.PageRead (passed_most below left) page step.at step.child below store.old store.new) }
    ensures refuses { RefusesBeside S.PageRead (short_most below) limit page step.at step.child below store.old store.new result }
    ensures owes { OwesBy S.PageRead fault_in store.old store.new result }
{
    if is_still(&below) {
        return Ok(below);
    }
    let opened = open_page(alloc, store, &page, step, below, limit)?;
    close_page(alloc, store, page, opened, limit)
}

/// What is left of an interior page of which a cell goes, where the last cell below its child takes its place and the child is left so. Refuses [55] with `child`, `kind` or `cells`, [51] and [50].
pub fn pass_replaced<S: PageWrite>(
    alloc: Global,
    store: &mut S,
    page: TreePage,
    step: Step,
    up: &Taken,
    below: Left,
    limit: u32,
) -> Result<Left, TreeFault<S::Fault>>
    requires sizes { HasSizes S.PageRead store.old }
    requires number { IsNumber S.PageRead store.old page.number }
    requires page { IsDecoded page.bytes page.number (S.usable store.old) page }
    requires whole { length page.bytes ≡ S.size store.old }
    requires kind { page.kind ≡ IndexInterior }
    requires at { step.at < length page.views }
    requires child { IsChildAt page step.at step.child }
    requires in_range { IsNumber S.PageRead store.old step.child }
    requires of { IsOfIndex up.now.kind }
    requires up { IsWhole (S.usable store.old) up.now }
    requires fit { IsFit (S.usable store.old) below }
    ensures left { IfOk result (λ left. Becomes S.PageRead store.old store.new (Replaces (sizes_of S.PageRead store.old) page step.at up.now step.child below left)) }
    ensures fit { IfOk result (IsFit (S.usable store.old)) }
    ensures count { OnOk result (S.count store.old ≤ S.count store.new) }
    ensures most { OnOk result (S.count store.new ≤ max limit (S.count store.old)) }
    ensures filled { IfOk result (λ left. HasCell below → HasCell left) }
    ensures rises { IfOk result (λ left. RisesBy S.PageRead (passed_most below left) store.old store.new) }
    ensures uses { IfOk result (λ left. PassesBy S.PageRead (passed_most below left) page step.at step.child below store.old store.new) }
    ensures refuses { RefusesBeside S.PageRead (short_most below) limit page step.at step.child below store.old store.new result }
    ensures owes { OwesBy S.PageRead fault_in store.old store.new result }
{
    let opened = replace_cell(alloc, store, &page, step, up, below, limit)?;
    close_page(alloc, store, page, opened, limit)
}

/// Writes a leaf without one of its cells.
pub fn write_without<S: PageWrite>(
    alloc: Global,
    store: &mut S,
    page: TreePage,
    at: usize,
) -> Result<(), TreeFault<S::Fault>>
    requires sizes { HasSizes S.PageRead store.old }
    requires first { 1 ≤ page.number }
    requires on_page { page.number ≤ S.count store.old }
    requires page { IsDecoded page.bytes page.number (S.usable store.old) page }
    requires whole { length page.bytes ≡ S.size store.old }
    requires at { at < length page.views }
    ensures written { OnOk result (Becomes S.PageRead store.old store.new (WritesChange (sizes_of S.PageRead store.old) page (record { at = at; goes = true; right = page.right }) [])) }
    ensures count { S.count store.new ≡ S.count store.old }
    ensures other { IfErr result IsOther }
    ensures uses { OnOk result (Whenever S.PageRead store.old store.new (UsesBy (sizes_of S.PageRead store.old) 0)) }
    ensures owes { OwesBy S.PageRead fault_in store.old store.new result }
{
    let change = Change {
        at,
        goes: true,
        right: page.right,
    };
    write_changed(alloc, store, page, change, Vec::new(alloc))
}

// Writes a leaf without one of its cells, unless it has no other.
fn shrink_leaf<S: PageWrite>(
    alloc: Global,
    store: &mut S,
    page: TreePage,
    at: usize,
) -> Result<Left, TreeFault<S::Fault>>
    requires sizes { HasSizes S.PageRead store.old }
    requires first { 1 ≤ page.number }
    requires on_page { page.number ≤ S.count store.old }
    requires page { IsDecoded page.bytes page.number (S.usable store.old) page }
    requires whole { length page.bytes ≡ S.size store.old }
    requires kind { page.kind ≡ IndexLeaf }
    requires at { at < length page.views }
    ensures left { IfOk result (λ left. Becomes S.PageRead store.old store.new (Shrinks (sizes_of S.PageRead store.old) page at left)) }
    ensures fit { IfOk result (IsFit (S.usable store.old)) }
    ensures count { S.count store.new ≡ S.count store.old }
    ensures other { IfErr result IsOther }
    ensures uses { OnOk result (Whenever S.PageRead store.old store.new (UsesBy (sizes_of S.PageRead store.old) 0)) }
    ensures owes { OwesBy S.PageRead fault_in store.old store.new result }
{
    if page.views.as_slice().len() == 1 {
        return Ok(Left::NoCell(Emptied {
            kind: PageKind::IndexLeaf,
            only: 0,
        }));
    }
    write_without(alloc, store, page, at)?;
    Ok(Left::Cells(Vec::new(alloc)))
}

/// Takes the cell at an index out of a leaf below a root. Its overflow chain is still to be given back.
pub fn take_from_leaf<S: PageWrite>(
    alloc: Global,
    store: &mut S,
    page: TreePage,
    at: usize,
) -> Result<Removed, TreeFault<S::Fault>>
    requires sizes { HasSizes S.PageRead store.old }
    requires first { 1 ≤ page.number }
    requires on_page { page.number ≤ S.count store.old }
    requires page { IsDecoded page.bytes page.number (S.usable store.old) page }
    requires whole { length page.bytes ≡ S.size store.old }
    requires kind { page.kind ≡ IndexLeaf }
    requires at { at < length page.views }
    ensures row { IfOk result (λ removed. IsCellAt page at removed.row) }
    ensures of { IfOk result (λ removed. removed.row.kind ≡ IndexLeaf) }
    ensures whole { IfOk result (λ removed. IsWhole (S.usable store.old) removed.row) }
    ensures left { IfOk result (λ removed. Becomes S.PageRead store.old store.new (Shrinks (sizes_of S.PageRead store.old) page at removed.left)) }
    ensures fit { IfOk result (λ removed. IsFit (S.usable store.old) removed.left) }
    ensures count { S.count store.new ≡ S.count store.old }
    ensures other { IfErr result IsOther }
    ensures uses { OnOk result (Whenever S.PageRead store.old store.new (UsesBy (sizes_of S.PageRead store.old) 0)) }
    ensures owes { OwesBy S.PageRead fault_in store.old store.new result }
{
    let row = take_cell(alloc, &page, at)?;
    let left = shrink_leaf(alloc, store, page, at)?;
    Ok(Removed { row, left })
}
