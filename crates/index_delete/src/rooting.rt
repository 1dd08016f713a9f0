// What a delete below a root leaves of the root.
ghost use Rattle.std.specs.Prelude.{◌≡◌, ◌≢◌, ◌≤◌, ◌<◌, [], IfErr, IfOk, OnOk, Some, false, length, max, true};
ghost use Rattle.std.specs.List.{All};
ghost use Rattle.format_spec.specs.declared.PageKind.{PageKind};
ghost use Rattle.format_spec.specs.declared.PageKind.TheVariants.{IndexInterior, IndexLeaf};
ghost use Rattle.page_spec.specs.Pages.{Pages};
ghost use Rattle.page_spec.specs.Rooms.{IsOneCell};
ghost use Rattle.page_store.specs.Store.{HasSizes, IsNumber, OwesBy};
ghost use Rattle.index_delete_spec.specs.Steps.{IsOfIndex};
ghost use Rattle.tree_level.specs.Changes.{behind};
ghost use Rattle.tree_level.specs.Levels.{WritesNode};
ghost use Rattle.tree_pages.specs.Takes.{RisesBy};
ghost use Rattle.tree_pages.specs.Writers.{Becomes, sizes_of};
ghost use Rattle.tree_spec.specs.Faults.{IsOther, fault_in};
ghost use Rattle.tree_walk.specs.Pages.{IsDecoded};
ghost use Rattle.index_cells.specs.Respelling.{IsCellAt, IsWhole};
ghost use Rattle.index_cells.specs.declared.cells.Taken.{Taken};
ghost use Rattle.index_delete.specs.Deletes.{ClosesRoot, IsChildAt, IsEmptied, IsFit, Leaves, PassesRoot, ReplacesRoot, ShrinksRoot, root_most};
ghost use Rattle.index_delete.specs.Needs.{HasOnly, RefusesBeside, RefusesOther, RefusesOver, RefusesPassed};

use crate::closing::write_without;
use crate::levels::{Left, Opened, Step, is_emptied, is_still};
use crate::opening::{open_page, replace_cell};
use cell_codec::PageKind;
use index_cells::{Taken, take_cell};
use page_store::{PageRead, PageWrite, is_in_range};
use refusal::Rule;
use std::alloc::Global;
use tree_level::{Change, Node, change_root, move_cells, write_node};
use tree_pages::{TreeFault, give_page};
use tree_spec::damaged;
use tree_walk::{TreePage, read_page};

// Writes the page of a root without a cell.
fn write_empty<S: PageWrite>(
    alloc: Global,
    store: &mut S,
    page: TreePage,
    kind: PageKind,
    right: u32,
) -> Result<(), TreeFault<S::Fault>>
    requires sizes { HasSizes S.PageRead store.old }
    requires first { 1 ≤ page.number }
    requires on_page { page.number ≤ S.count store.old }
    requires whole { length page.bytes ≡ S.size store.old }
    ensures written { OnOk result (Becomes S.PageRead store.old store.new (WritesNode (sizes_of S.PageRead store.old) (record { number = page.number; kind = kind; right = right }) [])) }
    ensures count { S.count store.new ≡ S.count store.old }
    ensures other { IfErr result IsOther }
    ensures owes { OwesBy S.PageRead fault_in store.old store.new result }
{
    let node = Node {
        number: page.number,
        kind,
        right,
    };
    let mut buffer = page.bytes.into_vec();
    write_node(alloc, store, node, &[], buffer.as_mut_slice())
}

// What is left of page 1, where it has no cell, once its only child is left so. Refuses [51] and [50].
fn pass_to_first<S: PageWrite>(
    alloc: Global,
    store: &mut S,
    page: TreePage,
    child: u32,
    below: Left,
    limit: u32,
) -> Result<(), TreeFault<S::Fault>>
    requires sizes { HasSizes S.PageRead store.old }
    requires first { page.number ≡ 1 }
    requires on_page { 1 ≤ S.count store.old }
    requires page { IsDecoded page.bytes page.number (S.usable store.old) page }
    requires whole { length page.bytes ≡ S.size store.old }
    requires kind { page.kind ≡ IndexInterior }
    requires none { length page.views ≡ 0 }
    requires child { IsChildAt page 0 child }
    requires in_range { IsNumber S.PageRead store.old child }
    requires fit { IsFit (S.usable store.old) below }
    ensures passes { OnOk result (Becomes S.PageRead store.old store.new (PassesRoot (sizes_of S.PageRead store.old) page child below)) }
    ensures count { OnOk result (S.count store.old ≤ S.count store.new) }
    ensures most { OnOk result (S.count store.new ≤ max limit (S.count store.old)) }
    ensures rises { OnOk result (RisesBy S.PageRead 3 store.old store.new) }
    ensures refuses { RefusesBeside S.PageRead 3 limit page 0 child below store.old store.new result }
    ensures owes { OwesBy S.PageRead fault_in store.old store.new result }
{
    match below {
        Left::Cells(comes) => {
            let change = Change {
                at: 0,
                goes: false,
                right: page.right,
            };
            change_root(alloc, store, page, change, comes, limit)
        }
        Left::NoCell(emptied) => {
            write_empty(alloc, store, page, emptied.kind, emptied.only)?;
            give_page(alloc, store, child)
        }
    }
}

// Reads the only child of a page. Refuses [55] with `child`, `kind` or `cells`.
fn read_only<S: PageRead>(
    alloc: Global,
    store: &mut S,
    page: &TreePage,
    only: u32,
) -> Result<TreePage, TreeFault<S::Fault>>
    requires sizes { HasSizes S.PageRead store.old }
    ensures number { IfOk result (λ child. child.number ≡ only) }
    ensures in_range { IfOk result (λ child. IsNumber S.PageRead store.old only) }
    ensures read { IfOk result (λ child. IsDecoded child.bytes child.number (S.usable store.old) child) }
    ensures there { IfOk result (λ child. (m : Pages) → S.pages store.old ≡ Some m → m child.number ≡ child.bytes) }
    ensures kind { IfOk result (λ child. IsOfIndex child.kind) }
    ensures whole { IfOk result (λ child. length child.bytes ≡ S.size store.old) }
    ensures same { S.pages store.new ≡ S.pages store.old }
    ensures count { S.count store.new ≡ S.count store.old }
    ensures refuses { (kind : PageKind) → RefusesOther S.PageRead kind only store.old result }
    ensures owes { OwesBy S.PageRead fault_in store.old store.new result }
{
    if !is_in_range(store.page_size(), store.count(), only) {
        return Err(damaged(page.number, Rule::Child));
    }
    let child = read_page(alloc, store, only)?;
    match child.kind {
        PageKind::IndexLeaf | PageKind::IndexInterior => Ok(child),
        PageKind::TableLeaf | PageKind::TableInterior => Err(damaged(only, Rule::Kind)),
    }
}

// A root that would have no cell takes those of its only child, whose page is given back. Page 1 keeps the child where it has no room for them behind the database header. Refuses [55] with `child`, `kind` or `cells`, and [50].
fn take_only_child<S: PageWrite>(
    alloc: Global,
    store: &mut S,
    page: TreePage,
    opened: Opened,
    limit: u32,
) -> Result<(), TreeFault<S::Fault>>
    requires sizes { HasSizes S.PageRead store.old }
    requires first { 1 ≤ page.number }
    requires on_page { page.number ≤ S.count store.old }
    requires page { IsDecoded page.bytes page.number (S.usable store.old) page }
    requires whole { length page.bytes ≡ S.size store.old }
    requires kind { page.kind ≡ IndexInterior }
    requires within { behind opened.change.at opened.change.goes ≤ length page.views }
    requires comes { All (IsOneCell IndexInterior (S.usable store.old)) opened.comes.items }
    requires emptied { IsEmptied page opened }
    ensures closes { OnOk result (Becomes S.PageRead store.old store.new (ClosesRoot (sizes_of S.PageRead store.old) page opened)) }
    ensures count { OnOk result (S.count store.old ≤ S.count store.new) }
    ensures most { OnOk result (S.count store.new ≤ max limit (S.count store.old)) }
    ensures rises { OnOk result (RisesBy S.PageRead 3 store.old store.new) }
    ensures refuses { RefusesOver S.PageRead 3 limit (HasOnly (sizes_of S.PageRead store.old) page.number opened.change.right) store.old store.new result }
    ensures owes { OwesBy S.PageRead fault_in store.old store.new result }
{
    let only = opened.change.right;
    let child = read_only(alloc, store, &page, only)?;
    let moved = move_cells(alloc, store, child, page.number)?;
    if moved {
        return give_page(alloc, store, only);
    }
    change_root(alloc, store, page, opened.change, opened.comes, limit)
}

// Writes the page of a root with the cells that it is to have. Refuses [55] with `child`, `kind` or `cells`, [51] and [50].
fn close_root<S: PageWrite>(
    alloc: Global,
    store: &mut S,
    page: TreePage,
    opened: Opened,
    limit: u32,
) -> Result<(), TreeFault<S::Fault>>
    requires sizes { HasSizes S.PageRead store.old }
    requires first { 1 ≤ page.number }
    requires on_page { page.number ≤ S.count store.old }
    requires page { IsDecoded page.bytes page.number (S.usable store.old) page }
    requires whole { length page.bytes ≡ S.size store.old }
    requires kind { page.kind ≡ IndexInterior }
    requires within { behind opened.change.at opened.change.goes ≤ length page.views }
    requires comes { All (IsOneCell IndexInterior (S.usable store.old)) opened.comes.items }
    requires few { length opened.comes.items ≤ 3 }
    ensures closes { OnOk result (Becomes S.PageRead store.old store.new (ClosesRoot (sizes_of S.PageRead store.old) page opened)) }
    ensures count { OnOk result (S.count store.old ≤ S.count store.new) }
    ensures most { OnOk result (S.count store.new ≤ max limit (S.count store.old)) }
    ensures rises { OnOk result (RisesBy S.PageRead 3 store.old store.new) }
    ensures refuses { RefusesOver S.PageRead 3 limit (HasOnly (sizes_of S.PageRead store.old) page.number opened.change.right) store.old store.new result }
    ensures owes { OwesBy S.PageRead fault_in store.old store.new result }
{
    if is_emptied(&page, &opened) {
        return take_only_child(alloc, store, page, opened, limit);
    }
    change_root(alloc, store, page, opened.change, opened.comes, limit)
}

/// What is left of an interior root, once a child of it is left so. Page 1 alone may have no cell. Refuses [55] with `child`, `kind` or `cells`, [51] and [50].
pub fn pass_to_root<S: PageWrite>(
    alloc: Global,
    store: &mut S,
    page: TreePage,
    step: Step,
    below: Left,
    limit: u32,
) -> Result<(), TreeFault<S::Fault>>
    requires sizes { HasSizes S.PageRead store.old }
    requires first { 1 ≤ page.number }
    requires on_page { page.number ≤ S.count store.old }
    requires page { IsDecoded page.bytes page.number (S.usable store.old) page }
    requires whole { length page.bytes ≡ S.size store.old }
    requires kind { page.kind ≡ IndexInterior }
    requires some { page.number ≢ 1 → 0 < length page.views }
    requires at { step.at ≤ length page.views }
    requires child { IsChildAt page step.at step.child }
    requires in_range { IsNumber S.PageRead store.old step.child }
    requires fit { IsFit (S.usable store.old) below }
    ensures passes { OnOk result (Becomes S.PageRead store.old store.new (PassesRoot (sizes_of S.PageRead store.old) page step.child below)) }
    ensures count { OnOk result (S.count store.old ≤ S.count store.new) }
    ensures most { OnOk result (S.count store.new ≤ max limit (S.count store.old)) }
    ensures rises { OnOk result (RisesBy S.PageRead (root_most below) store.old store.new) }
    ensures refuses { (row : Taken) → RefusesPassed S.PageRead (root_most below) limit page step.at step.child below (Leaves (sizes_of S.PageRead store.old) false row step.child below) store.old store.new result }
    ensures owes { OwesBy S.PageRead fault_in store.old store.new result }
{
    if is_still(&below) {
        return Ok(());
    }
    if page.views.as_slice().is_empty() {
        return pass_to_first(alloc, store, page, step.child, below, limit);
    }
    let opened = open_page(alloc, store, &page, step, below, limit)?;
    close_root(alloc, store, page, opened, limit)
}

/// What is left of an interior root of which a cell goes, where the last cell below its child takes its place and the child is left so. Refuses [55] with `child`, `kind` or `cells`, [51] and [50].
pub fn replace_in_root<S: PageWrite>(
    alloc: Global,
    store: &mut S,
    page: TreePage,
    step: Step,
    up: &Taken,
    below: Left,
    limit: u32,
) -> Result<(), TreeFault<S::Fault>>
    requires sizes { HasSizes S.PageRead store.old }
    requires first { 1 ≤ page.number }
    requires on_page { page.number ≤ S.count store.old }
    requires page { IsDecoded page.bytes page.number (S.usable store.old) page }
    requires whole { length page.bytes ≡ S.size store.old }
    requires kind { page.kind ≡ IndexInterior }
    requires at { step.at < length page.views }
    requires child { IsChildAt page step.at step.child }
    requires in_range { IsNumber S.PageRead store.old step.child }
    requires of { IsOfIndex up.now.kind }
    requires up { IsWhole (S.usable store.old) up.now }
    requires fit { IsFit (S.usable store.old) below }
    ensures replaces { OnOk result (Becomes S.PageRead store.old store.new (ReplacesRoot (sizes_of S.PageRead store.old) page step.at up.now step.child below)) }
    ensures count { OnOk result (S.count store.old ≤ S.count store.new) }
    ensures most { OnOk result (S.count store.new ≤ max limit (S.count store.old)) }
    ensures rises { OnOk result (RisesBy S.PageRead (root_most below) store.old store.new) }
    ensures refuses { (gone : Taken) → IsCellAt page step.at gone → RefusesPassed S.PageRead (root_most below) limit page step.at step.child below (Leaves (sizes_of S.PageRead store.old) true up.now step.child below) store.old store.new result }
    ensures owes { OwesBy S.PageRead fault_in store.old store.new result }
{
    let opened = replace_cell(alloc, store, &page, step, up, below, limit)?;
    close_root(alloc, store, page, opened, limit)
}

/// Takes the cell at an index out of a root that is a leaf. Its overflow chain is still to be given back.
pub fn take_from_root<S: PageWrite>(
    alloc: Global,
    store: &mut S,
    page: TreePage,
    at: usize,
) -> Result<Taken, TreeFault<S::Fault>>
    requires sizes { HasSizes S.PageRead store.old }
    requires first { 1 ≤ page.number }
    requires on_page { page.number ≤ S.count store.old }
    requires page { IsDecoded page.bytes page.number (S.usable store.old) page }
    requires whole { length page.bytes ≡ S.size store.old }
    requires kind { page.kind ≡ IndexLeaf }
    requires at { at < length page.views }
    ensures row { IfOk result (IsCellAt page at) }
    ensures shrinks { OnOk result (Becomes S.PageRead store.old store.new (ShrinksRoot (sizes_of S.PageRead store.old) page at)) }
    ensures count { S.count store.new ≡ S.count store.old }
    ensures other { IfErr result IsOther }
    ensures owes { OwesBy S.PageRead fault_in store.old store.new result }
{
    let row = take_cell(alloc, &page, at)?;
    write_without(alloc, store, page, at)?;
    Ok(row)
}
