// Goes through the cells of a page (Database File Format, section 1.6).
ghost use Rattle.std.specs.Prelude.{◌≡◌, ◌+◌, ◌-◌, ◌<◌, ◌≤◌, true, false, ℕ, List, Bool, IfErr, None, length};
ghost use Rattle.format_spec.specs.declared.CellView.{CellView};
ghost use Rattle.page_store.specs.Store.{HasSizes, OwesBy, Sees};
ghost use Rattle.tree_spec.specs.Standing.{Sizes, Paged};
ghost use Rattle.tree_walk.specs.Pages.{is_leaf as is_leaf_of, tree_kind as tree_kind_of};
ghost use Rattle.tree_walk.specs.Stores.{SeesTree};
ghost use Rattle.db_check.specs.declared.walk.Progress.{Progress};
ghost use Rattle.db_check.specs.Answers.{fault_in};
ghost use Rattle.db_check.specs.Passes.{PassesChain};
ghost use Rattle.db_check.specs.Steps.{Ended, Steps};
ghost use Rattle.db_check.specs.TreeSteps.{CellAt, CellsFrom, DividerAt, MemberAt};

use crate::chain::pass_chain;
use crate::fault::{CheckFault, told};
use crate::members::take_member;
use crate::walk::{CheckedTree, Members, Progress};
use page_store::{PageRead, page_buffer};
use std::alloc::Global;
use tree_walk::{TreeKind, TreePage, read_payload};

// Goes through the overflow chain of so many bytes, whose first number stands in the page of the holder. Most cells have none.
fn pass_overflow<S: PageRead>(
    alloc: Global,
    store: &mut S,
    holder: u32,
    first: u32,
    bytes: u64,
    flags: &mut [bool],
) -> Result<(), CheckFault<S::Fault>>
    requires sizes { HasSizes S.PageRead store.old }
    requires flags { length flags.old ≡ S.count store.old + 1 }
    ensures flags { length flags.new ≡ length flags.old }
    ensures pages { Sees S.PageRead store.old store.new
        (PassesChain (S.size store.old) (S.usable store.old) (S.count store.old) holder first bytes flags.old flags.new result) }
    ensures owes { OwesBy S.PageRead fault_in store.old store.new result }
{
    if first == 0 && bytes == 0 {
        return Ok(());
    }
    let mut buffer = page_buffer(alloc, store.page_size())?;
    match pass_chain(store, holder, first, bytes, buffer.as_mut_slice(), flags) {
        Ok(()) => Ok(()),
        Err(fault) => Err(fault),
    }
}

// Reads the member of a cell whose overflow chain was gone through, and takes it.
fn read_member<S: PageRead>(
    alloc: Global,
    store: &mut S,
    tree: &CheckedTree<'_>,
    page: &TreePage,
    at: usize,
    walk: &mut Progress,
) -> Result<(), CheckFault<S::Fault>>
    requires sizes { HasSizes S.PageRead store.old }
    requires within { at < length page.now.views }
    requires kind { tree_kind_of page.now.kind ≡ tree.now.kind }
    ensures pages { SeesTree S.PageRead store.old store.new (λ sizes base. (flags : List Bool)
        → Steps tree.now (MemberAt sizes base tree.now.kind page.now at) Ended flags flags walk.old walk.new result) }
    ensures owes { OwesBy S.PageRead fault_in store.old store.new result }
{
    match read_payload(alloc, store, page, at) {
        Ok(payload) => take_member(alloc, tree, page.number, payload.as_slice(), walk),
        Err(fault) => Err(told(page.number, fault)),
    }
}

// Takes the member of a cell whose overflow chain was gone through, where members are looked at.
fn pass_member<S: PageRead>(
    alloc: Global,
    store: &mut S,
    tree: &CheckedTree<'_>,
    page: &TreePage,
    at: usize,
    walk: &mut Progress,
) -> Result<(), CheckFault<S::Fault>>
    requires sizes { HasSizes S.PageRead store.old }
    requires within { at < length page.now.views }
    requires kind { tree_kind_of page.now.kind ≡ tree.now.kind }
    ensures pages { SeesTree S.PageRead store.old store.new (λ sizes base. (flags : List Bool)
        → Steps tree.now (MemberAt sizes base tree.now.kind page.now at) Ended flags flags walk.old walk.new result) }
    ensures owes { OwesBy S.PageRead fault_in store.old store.new result }
{
    match tree.members {
        Members::Any => Ok(()),
        Members::Rows => read_member(alloc, store, tree, page, at, walk),
        Members::Entries => read_member(alloc, store, tree, page, at, walk),
    }
}

/// Goes through a cell: its overflow chain, and the member that it is. Refuses 70, 72 and 74.
pub fn pass_cell<S: PageRead>(
    alloc: Global,
    store: &mut S,
    tree: &CheckedTree<'_>,
    page: &TreePage,
    at: usize,
    flags: &mut [bool],
    walk: &mut Progress,
) -> Result<(), CheckFault<S::Fault>>
    requires sizes { HasSizes S.PageRead store.old }
    requires flags { length flags.old ≡ S.count store.old + 1 }
    requires within { at < length page.now.views }
    requires kind { tree_kind_of page.now.kind ≡ tree.now.kind }
    ensures flags { length flags.new ≡ length flags.old }
    ensures pages { SeesTree S.PageRead store.old store.new (λ sizes base.
        Steps tree.now (CellAt sizes base tree.now.kind page.now at) Ended flags.old flags.new walk.old walk.new result) }
    ensures owes { OwesBy S.PageRead fault_in store.old store.new result }
{
    let view = page.view_at(at);
    let rest = view.payload.saturating_sub(u64::from(view.local));
    match pass_overflow(alloc, store, page.number, view.overflow, rest, flags) {
        Ok(()) => pass_member(alloc, store, tree, page, at, walk),
        Err(fault) => Err(fault),
    }
}

/// How many cells a page has.
pub fn count_of(page: &TreePage) -> usize
    ensures { result ≡ length page.now.views }
{
    page.views.as_slice().len()
}

/// Goes through the cells of a leaf.
pub fn pass_cells<S: PageRead>(
    alloc: Global,
    store: &mut S,
    tree: &CheckedTree<'_>,
    page: &TreePage,
    flags: &mut [bool],
    walk: &mut Progress,
) -> Result<(), CheckFault<S::Fault>>
    requires sizes { HasSizes S.PageRead store.old }
    requires flags { length flags.old ≡ S.count store.old + 1 }
    requires kind { tree_kind_of page.now.kind ≡ tree.now.kind }
    requires leaf { is_leaf_of page.now.kind ≡ true }
    ensures flags { length flags.new ≡ length flags.old }
    ensures pages { SeesTree S.PageRead store.old store.new (λ sizes base.
        Steps tree.now (CellsFrom sizes base tree.now.kind page.now 0) Ended flags.old flags.new walk.old walk.new result) }
    ensures owes { OwesBy S.PageRead fault_in store.old store.new result }
{
    let count = count_of(page);
    for at in 0..count {
        match pass_cell(alloc, store, tree, page, at, flags, walk) {
            Ok(()) => {}
            Err(fault) => return Err(fault),
        }
    }
    Ok(())
}

/// Goes through the cell behind a child. In a table it says where the child's rowids end, and nothing more.
pub fn pass_divider<S: PageRead>(
    alloc: Global,
    store: &mut S,
    tree: &CheckedTree<'_>,
    page: &TreePage,
    at: usize,
    flags: &mut [bool],
    walk: &mut Progress,
) -> Result<(), CheckFault<S::Fault>>
    requires sizes { HasSizes S.PageRead store.old }
    requires flags { length flags.old ≡ S.count store.old + 1 }
    requires within { at < length page.now.views }
    requires kind { tree_kind_of page.now.kind ≡ tree.now.kind }
    requires interior { is_leaf_of page.now.kind ≡ false }
    ensures flags { length flags.new ≡ length flags.old }
    ensures pages { SeesTree S.PageRead store.old store.new (λ sizes base.
        Steps tree.now (DividerAt sizes base tree.now.kind page.now at) Ended flags.old flags.new walk.old walk.new result) }
    ensures owes { OwesBy S.PageRead fault_in store.old store.new result }
{
    match tree.kind {
        TreeKind::Table => Ok(()),
        TreeKind::Index => pass_cell(alloc, store, tree, page, at, flags, walk),
    }
}
