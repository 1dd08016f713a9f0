// Goes through the tree at a root, depth first from its left (Database File Format, section 1.6).
ghost use Rattle.std.specs.Prelude.{◌≡◌, ◌≢◌, ◌↔◌, ◌+◌, ◌<◌, ◌≤◌, true, false, List, [], Bool, IfErr, IfOk, IsTrue, None, OnOk, length};
ghost use Rattle.page_store.specs.Store.{HasSizes, OwesBy};
ghost use Rattle.tree_spec.specs.Standing.{Sizes, Paged};
ghost use Rattle.tree_walk.specs.Pages.{is_leaf as is_leaf_of, tree_kind as tree_kind_of};
ghost use Rattle.tree_walk.specs.Places.{low_bound};
ghost use Rattle.tree_walk.specs.Stores.{SeesTree};
ghost use Rattle.db_check.specs.declared.walk.CheckedTree.{CheckedTree};
ghost use Rattle.db_check.specs.declared.walk.Progress.{Progress};
ghost use Rattle.db_check.specs.Answers.{fault_in};
ghost use Rattle.db_check.specs.Steps.{Ended, Steps};
ghost use Rattle.db_check.specs.TreeSteps.{CellsFrom, ChildrenBehind, ChildrenFrom, EndsAt, GoesInto, InPage, IsChildSpot, IsInOrder, PassesTree, VisitsChild, VisitsSpot};

use crate::cells::{count_of, pass_cells, pass_divider};
use crate::fault::{CheckFault, told};
use crate::pages::mark;
use crate::walk::{CheckedTree, Comparison, Progress};
use page_store::{PageRead, is_in_range};
use refusal::Rule;
use std::alloc::Global;
use tree_walk::{TreeKind, TreePage, is_in_order, is_leaf, read_page, tree_kind};

/// A page below which a walk goes: how many pages it and those below it may be above one another, and the bounds of its rowids. The root has 25.
#[derive(Clone, Copy)]
pub struct Spot {
    pub number: u32,
    pub left: u32,
    pub low: Option<i64>,
    pub high: i64,
}

// Reads the page of a spot. Refuses 70 where it was found before, and 74 with `depth` where too many pages stand above it, and with `kind` or `cells` where it is no page.
fn enter<S: PageRead>(
    alloc: Global,
    store: &mut S,
    spot: Spot,
    flags: &mut [bool],
) -> Result<TreePage, CheckFault<S::Fault>>
    requires sizes { HasSizes S.PageRead store.old }
    requires first { 1 ≤ spot.number }
    requires within { spot.number ≤ S.count store.old }
    requires flags { length flags.old ≡ S.count store.old + 1 }
    ensures flags { length flags.new ≡ length flags.old }
    ensures left { OnOk result (1 ≤ spot.left) }
    ensures pages { SeesTree S.PageRead store.old store.new (λ sizes base. (tree : CheckedTree) (walk : Progress)
        → Steps tree (VisitsSpot sizes base tree.kind spot) (InPage sizes base tree.kind spot) flags.old flags.new walk walk result) }
    ensures owes { OwesBy S.PageRead fault_in store.old store.new result }
{
    if mark(flags, spot.number) {
        return Err(CheckFault::PageTwice { page: spot.number });
    }
    if spot.left == 0 {
        return Err(CheckFault::Damaged {
            page: spot.number,
            rule: Rule::Depth,
        });
    }
    match read_page(alloc, store, spot.number) {
        Ok(page) => Ok(page),
        Err(fault) => Err(told(spot.number, fault)),
    }
}

// Notes how deep a leaf stands. Refuses 74 with `depth` where that is not where the first one stands.
fn note_leaf<F>(page: u32, depth: u32, walk: &mut Progress) -> Result<(), CheckFault<F>>
    ensures steps { (tree : CheckedTree) (flags : List Bool) → Steps tree (EndsAt page depth) Ended flags flags walk.old walk.new result }
    ensures cause { IfErr result (λ fault. fault_in fault ≡ None) }
{
    match walk.leaf {
        None => {
            walk.leaf = Some(depth);
            Ok(())
        }
        Some(leaf) => {
            if leaf != depth {
                return Err(CheckFault::Damaged {
                    page,
                    rule: Rule::Depth,
                });
            }
            Ok(())
        }
    }
}

// Whether the cells of a page are in order. Refuses 74 with `empty` where a page that is no root has none, and 72 where its rowids do not rise within their bounds.
fn in_order<F>(spot: Spot, page: &TreePage) -> Result<(), CheckFault<F>>
    ensures answer { IsInOrder spot page.now result }
    ensures cause { IfErr result (λ fault. fault_in fault ≡ None) }
{
    if spot.left != 25 && page.views.as_slice().is_empty() {
        return Err(CheckFault::Damaged {
            page: page.number,
            rule: Rule::Empty,
        });
    }
    if !is_in_order(page, spot.low, spot.high) {
        return Err(CheckFault::KeyOrder { page: page.number });
    }
    Ok(())
}

// Begins a leaf.
fn start_leaf<F>(spot: Spot, page: &TreePage, walk: &mut Progress) -> Result<(), CheckFault<F>>
    requires left { spot.left ≤ 25 }
    requires leaf { is_leaf_of page.now.kind ≡ true }
    ensures steps { (sizes : Sizes) (base : Paged) (tree : CheckedTree) (flags : List Bool) → tree_kind_of page.now.kind ≡ tree.kind
        → Steps tree (InPage sizes base tree.kind spot page.now) (λ _. CellsFrom sizes base tree.kind page.now 0) flags flags walk.old walk.new result }
    ensures cause { IfErr result (λ fault. fault_in fault ≡ None) }
{
    match note_leaf(page.number, 26 - spot.left, walk) {
        Ok(()) => in_order(spot, page),
        Err(fault) => Err(fault),
    }
}

// Whether a page is the root, not page 1, and has no cell.
fn is_bare(spot: Spot, page: &TreePage) -> bool
    ensures { IsTrue result ↔ (spot.left ≡ 25) × (page.now.number ≢ 1) × (page.now.views ≡ []) }
{
    spot.left == 25 && page.number != 1 && page.views.as_slice().is_empty()
}

// Begins an interior page. Refuses 74 with `empty` where it is the root, not page 1, and has no cell.
fn start_interior<F>(spot: Spot, page: &TreePage) -> Result<(), CheckFault<F>>
    requires interior { is_leaf_of page.now.kind ≡ false }
    ensures steps { (sizes : Sizes) (base : Paged) (tree : CheckedTree) (flags : List Bool) (walk : Progress) → tree_kind_of page.now.kind ≡ tree.kind
        → Steps tree (InPage sizes base tree.kind spot page.now) (λ _. ChildrenFrom sizes base tree.kind spot.left page.now (low_bound spot.low) spot.high 0) flags flags walk walk result }
    ensures cause { IfErr result (λ fault. fault_in fault ≡ None) }
{
    if is_bare(spot, page) {
        return Err(CheckFault::Damaged {
            page: page.number,
            rule: Rule::Empty,
        });
    }
    in_order(spot, page)
}

// Whether the page is one of a tree of this kind.
fn has_kind(page: &TreePage, kind: TreeKind) -> bool
    ensures { IsTrue result ↔ (tree_kind_of page.now.kind ≡ kind) }
{
    tree_kind(page.kind) == kind
}

// Begins a page, and answers whether it is a leaf. Refuses 74 with `kind` where it is one of the other trees.
fn start<F>(
    tree: &CheckedTree<'_>,
    spot: Spot,
    page: &TreePage,
    walk: &mut Progress,
) -> Result<bool, CheckFault<F>>
    requires left { spot.left ≤ 25 }
    ensures steps { (sizes : Sizes) (base : Paged) (flags : List Bool)
        → Steps tree.now (InPage sizes base tree.now.kind spot page.now) (GoesInto sizes base tree.now.kind spot page.now) flags flags walk.old walk.new result }
    ensures leaf { IfOk result (λ leaf. is_leaf_of page.now.kind ≡ leaf) }
    ensures kind { OnOk result (tree_kind_of page.now.kind ≡ tree.now.kind) }
    ensures cause { IfErr result (λ fault. fault_in fault ≡ None) }
{
    if !has_kind(page, tree.kind) {
        return Err(CheckFault::Damaged {
            page: page.number,
            rule: Rule::Kind,
        });
    }
    if is_leaf(page.kind) {
        return match start_leaf(spot, page, walk) {
            Ok(()) => Ok(true),
            Err(fault) => Err(fault),
        };
    }
    match start_interior(spot, page) {
        Ok(()) => Ok(false),
        Err(fault) => Err(fault),
    }
}

// The child that a page names at an index: the left child of a cell, or behind all cells the right child.
fn child_of(spot: Spot, page: &TreePage, at: usize, low: Option<i64>) -> Spot
    requires { 1 ≤ spot.left }
    ensures { IsChildSpot spot page.now at low result }
{
    let left = spot.left - 1;
    match page.views.as_slice().get(at) {
        Some(view) => Spot {
            number: view.child,
            left,
            low,
            high: view.rowid,
        },
        None => Spot {
            number: page.right,
            left,
            low,
            high: spot.high,
        },
    }
}

// Goes through the child of a page at an index. Refuses 74 with `child` where its number is out of range.
#[cycle(visit)]
fn pass_child<S: PageRead>(
    alloc: Global,
    store: &mut S,
    tree: &CheckedTree<'_>,
    parent: u32,
    child: Spot,
    flags: &mut [bool],
    walk: &mut Progress,
) -> Result<(), CheckFault<S::Fault>>
    requires sizes { HasSizes S.PageRead store.old }
    requires flags { length flags.old ≡ S.count store.old + 1 }
    requires left { child.left < 25 }
    ensures flags { length flags.new ≡ length flags.old }
    ensures pages { SeesTree S.PageRead store.old store.new (λ sizes base.
        Steps tree.now (VisitsChild sizes base tree.now.kind parent child) Ended flags.old flags.new walk.old walk.new result) }
    ensures owes { OwesBy S.PageRead fault_in store.old store.new result }
{
    if !is_in_range(store.page_size(), store.count(), child.number) {
        return Err(CheckFault::Damaged {
            page: parent,
            rule: Rule::Child,
        });
    }
    visit(alloc, store, tree, child, flags, walk)
}

// Goes through the child of an interior page at the index of a cell, and through this cell.
#[cycle(visit)]
fn pass_step<S: PageRead>(
    alloc: Global,
    store: &mut S,
    tree: &CheckedTree<'_>,
    spot: Spot,
    page: &TreePage,
    at: usize,
    low: Option<i64>,
    flags: &mut [bool],
    walk: &mut Progress,
) -> Result<(), CheckFault<S::Fault>>
    requires sizes { HasSizes S.PageRead store.old }
    requires flags { length flags.old ≡ S.count store.old + 1 }
    requires first { 1 ≤ spot.left }
    requires left { spot.left ≤ 25 }
    requires kind { tree_kind_of page.now.kind ≡ tree.now.kind }
    requires interior { is_leaf_of page.now.kind ≡ false }
    requires within { at < length page.now.views }
    ensures flags { length flags.new ≡ length flags.old }
    ensures pages { SeesTree S.PageRead store.old store.new (λ sizes base.
        Steps tree.now (ChildrenFrom sizes base tree.now.kind spot.left page.now (low_bound low) spot.high at)
        (λ _. ChildrenBehind sizes base tree.now.kind spot.left page.now spot.high at) flags.old flags.new walk.old walk.new result) }
    ensures owes { OwesBy S.PageRead fault_in store.old store.new result }
{
    match pass_child(
        alloc,
        store,
        tree,
        page.number,
        child_of(spot, page, at, low),
        flags,
        walk,
    ) {
        Ok(()) => pass_divider(alloc, store, tree, page, at, flags, walk),
        Err(fault) => Err(fault),
    }
}

// Goes through the children of an interior page.
#[cycle(visit)]
fn pass_children<S: PageRead>(
    alloc: Global,
    store: &mut S,
    tree: &CheckedTree<'_>,
    spot: Spot,
    page: &TreePage,
    flags: &mut [bool],
    walk: &mut Progress,
) -> Result<(), CheckFault<S::Fault>>
    requires sizes { HasSizes S.PageRead store.old }
    requires flags { length flags.old ≡ S.count store.old + 1 }
    requires first { 1 ≤ spot.left }
    requires left { spot.left ≤ 25 }
    requires kind { tree_kind_of page.now.kind ≡ tree.now.kind }
    requires interior { is_leaf_of page.now.kind ≡ false }
    ensures flags { length flags.new ≡ length flags.old }
    ensures pages { SeesTree S.PageRead store.old store.new (λ sizes base.
        Steps tree.now (ChildrenFrom sizes base tree.now.kind spot.left page.now (low_bound spot.low) spot.high 0) Ended flags.old flags.new walk.old walk.new result) }
    ensures owes { OwesBy S.PageRead fault_in store.old store.new result }
{
    let mut low = spot.low;
    let count = count_of(page);
    for at in 0..count {
        match pass_step(alloc, store, tree, spot, page, at, low, flags, walk) {
            Ok(()) => {}
            Err(fault) => return Err(fault),
        }
        low = Some(page.rowid_at(at));
    }
    let last = child_of(spot, page, count, low);
    pass_child(alloc, store, tree, page.number, last, flags, walk)
}

// Goes through the pages from a spot down.
#[cycle(visit)]
fn visit<S: PageRead>(
    alloc: Global,
    store: &mut S,
    tree: &CheckedTree<'_>,
    spot: Spot,
    flags: &mut [bool],
    walk: &mut Progress,
) -> Result<(), CheckFault<S::Fault>>
    requires sizes { HasSizes S.PageRead store.old }
    requires first { 1 ≤ spot.number }
    requires within { spot.number ≤ S.count store.old }
    requires left { spot.left ≤ 25 }
    requires flags { length flags.old ≡ S.count store.old + 1 }
    ensures flags { length flags.new ≡ length flags.old }
    ensures pages { SeesTree S.PageRead store.old store.new (λ sizes base.
        Steps tree.now (VisitsSpot sizes base tree.now.kind spot) Ended flags.old flags.new walk.old walk.new result) }
    ensures owes { OwesBy S.PageRead fault_in store.old store.new result }
{
    let page = match enter(alloc, store, spot, flags) {
        Ok(page) => page,
        Err(fault) => return Err(fault),
    };
    let leaf = match start(tree, spot, &page, walk) {
        Ok(leaf) => leaf,
        Err(fault) => return Err(fault),
    };
    if leaf {
        return pass_cells(alloc, store, tree, &page, flags, walk);
    }
    pass_children(alloc, store, tree, spot, &page, flags, walk)
}

/// Goes through the tree at a root, and sets the flag of each of its pages. Answers how the entries of a plain index compare with those of the rows of its table. Refuses 70, 72 and 74.
pub fn pass_tree<S: PageRead>(
    alloc: Global,
    store: &mut S,
    tree: &CheckedTree<'_>,
    root: u32,
    flags: &mut [bool],
) -> Result<Comparison, CheckFault<S::Fault>>
    requires sizes { HasSizes S.PageRead store.old }
    requires first { 1 ≤ root }
    requires within { root ≤ S.count store.old }
    requires flags { length flags.old ≡ S.count store.old + 1 }
    ensures flags { length flags.new ≡ length flags.old }
    ensures pages { SeesTree S.PageRead store.old store.new (λ sizes base. PassesTree sizes base tree.now root flags.old flags.new result) }
    ensures owes { OwesBy S.PageRead fault_in store.old store.new result }
{
    let spot = Spot {
        number: root,
        left: 25,
        low: None,
        high: i64::MAX,
    };
    let compared = Comparison::new();
    let mut walk = Progress {
        leaf: None,
        compared,
    };
    match visit(alloc, store, tree, spot, flags, &mut walk) {
        Ok(()) => Ok(walk.compared),
        Err(fault) => Err(fault),
    }
}
