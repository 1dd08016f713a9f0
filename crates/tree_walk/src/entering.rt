// Enters the pages of a tree.
ghost use Rattle.std.specs.Prelude.{◌≡◌, ◌<◌, ◌≤◌, ◌↔◌, ℕ, List, [], IfErr, IfOk, IsTrue, None, OnOk};
ghost use Rattle.common_spec.specs.Reading.{OrFault};
ghost use Rattle.page_spec.specs.Pages.{IsInRange};
ghost use Rattle.page_store.specs.Store.{HasSizes, OwesBy, Sees};
ghost use Rattle.tree_spec.specs.Faults.{IsDamage, fault_in};
ghost use Rattle.tree_walk.specs.Pages.{IsDecoded, tree_kind as tree_kind_of};
ghost use Rattle.tree_walk.specs.Paths.{IsFirstUnder, IsKept};
ghost use Rattle.tree_walk.specs.Places.{EntersChild, EntersPage, EntersRoot, IsBounded, IsChildNumber, OutOfOrder, child_at};

use crate::bounds::is_in_order;
use crate::page::TreePage;
use crate::place::Place;
use crate::reading::{read_page, tree_kind};
use page_store::{PageRead, is_in_range};
use refusal::Rule;
use std::alloc::Global;
use tree_spec::{TreeFault, TreeKind, damaged};

// The number of the child at which a place is.
fn child_of(place: &Place) -> u32
    ensures { result ≡ child_at place.now }
{
    match place.page.views.as_slice().get(place.at) {
        Some(view) => view.child,
        None => place.page.right,
    }
}

/// The number of the child at which a place is. Refuses [55] with `child` where it is out of range.
pub fn child_number<S: PageRead>(store: &S, parent: &Place) -> Result<u32, TreeFault<S::Fault>>
    requires { HasSizes S.PageRead store.now }
    ensures answer { IsChildNumber (S.size store.now) (S.count store.now) parent.now result }
    ensures cause { IfErr result (λ fault. fault_in fault ≡ None) }
{
    let number = child_of(parent);
    if !is_in_range(store.page_size(), store.count(), number) {
        return Err(damaged(parent.page.number, Rule::Child));
    }
    Ok(number)
}

// Stands at the first cell or child of a page. Refuses [55] with `cells` where its rowids do not keep the bounds.
fn stand<F>(page: TreePage, low: Option<i64>, high: i64) -> Result<Place, TreeFault<F>>
    ensures answer { OrFault (IsBounded page low high) (IsDamage (OutOfOrder page low high)) result }
    ensures cause { IfErr result (λ fault. fault_in fault ≡ None) }
{
    if !is_in_order(&page, low, high) {
        return Err(damaged(page.number, Rule::Cells));
    }
    Ok(Place {
        page,
        low,
        high,
        at: 0,
    })
}

// Whether the page has no cell.
fn has_no_cell(page: &TreePage) -> bool
    ensures { IsTrue result ↔ (page.now.views ≡ []) }
{
    page.views.as_slice().is_empty()
}

// Whether the page is one of a tree of this kind.
fn has_kind(page: &TreePage, kind: TreeKind) -> bool
    ensures { IsTrue result ↔ (tree_kind_of page.now.kind ≡ kind) }
{
    tree_kind(page.kind) == kind
}

// Stands at the first cell or child of a page below another. Refuses [55] with `kind`, `empty` or `cells`.
fn stand_below<F>(page: TreePage, parent: &Place) -> Result<Place, TreeFault<F>>
    ensures answer { (bytes : List ℕ) (number usable : ℕ) → IsDecoded bytes number usable page → EntersPage bytes number usable parent.now result }
    ensures under { IfOk result (IsFirstUnder parent.now) }
    ensures cause { IfErr result (λ fault. fault_in fault ≡ None) }
{
    if !has_kind(&page, tree_kind(parent.page.kind)) {
        return Err(damaged(page.number, Rule::Kind));
    }
    if has_no_cell(&page) {
        return Err(damaged(page.number, Rule::Empty));
    }
    stand(page, parent.low_of_child(), parent.high_of_child())
}

// Enters a page below another. Refuses [55] with `kind`, `cells` or `empty`.
fn enter_page<S: PageRead>(
    alloc: Global,
    store: &mut S,
    parent: &Place,
    number: u32,
) -> Result<Place, TreeFault<S::Fault>>
    requires sizes { HasSizes S.PageRead store.old }
    requires number { IsInRange (S.size store.old) (S.count store.old) number }
    ensures pages { Sees S.PageRead store.old store.new (λ m. EntersPage (m number) number (S.usable store.old) parent.now result) }
    ensures under { IfOk result (IsFirstUnder parent.now) }
    ensures owes { OwesBy S.PageRead fault_in store.old store.new result }
{
    match read_page(alloc, store, number) {
        Ok(page) => stand_below(page, parent),
        Err(fault) => Err(fault),
    }
}

/// Enters the child at which a place is that has so many pages above it. Refuses [55] with `child`, `depth`, `kind`, `cells` or `empty`.
pub fn enter_child<S: PageRead>(
    alloc: Global,
    store: &mut S,
    parent: &Place,
    above: usize,
) -> Result<Place, TreeFault<S::Fault>>
    requires { HasSizes S.PageRead store.old }
    ensures pages { Sees S.PageRead store.old store.new (λ m. EntersChild m (S.size store.old) (S.usable store.old) (S.count store.old) parent.now above result) }
    ensures under { IfOk result (IsFirstUnder parent.now) }
    ensures named { OnOk result (IsInRange (S.size store.old) (S.count store.old) (child_at parent.now)) }
    ensures room { OnOk result (above < 24) }
    ensures owes { OwesBy S.PageRead fault_in store.old store.new result }
{
    let number = match child_number(store, parent) {
        Ok(number) => number,
        Err(fault) => return Err(fault),
    };
    if above >= 24 {
        return Err(damaged(number, Rule::Depth));
    }
    enter_page(alloc, store, parent, number)
}

// Stands at the first cell or child of the page of the root of a tree of this kind. Refuses [55] with `kind` or `cells`.
fn stand_at_root<F>(page: TreePage, kind: TreeKind) -> Result<Place, TreeFault<F>>
    ensures answer { (bytes : List ℕ) (number usable : ℕ) → IsDecoded bytes number usable page → EntersRoot bytes number usable kind result }
    ensures kept { IfOk result IsKept }
    ensures of_kind { IfOk result (λ place. tree_kind_of place.page.kind ≡ kind) }
    ensures cause { IfErr result (λ fault. fault_in fault ≡ None) }
{
    if !has_kind(&page, kind) {
        return Err(damaged(page.number, Rule::Kind));
    }
    stand(page, None, i64::MAX)
}

/// Enters the page of the root of a tree of this kind. Refuses [55] with `kind` or `cells`.
pub fn enter_root<S: PageRead>(
    alloc: Global,
    store: &mut S,
    root: u32,
    kind: TreeKind,
) -> Result<Place, TreeFault<S::Fault>>
    requires sizes { HasSizes S.PageRead store.old }
    requires first { 1 ≤ root }
    requires within { root ≤ S.count store.old }
    ensures pages { Sees S.PageRead store.old store.new (λ m. EntersRoot (m root) root (S.usable store.old) kind result) }
    ensures kept { IfOk result IsKept }
    ensures of_kind { IfOk result (λ place. tree_kind_of place.page.kind ≡ kind) }
    ensures owes { OwesBy S.PageRead fault_in store.old store.new result }
{
    match read_page(alloc, store, root) {
        Ok(page) => stand_at_root(page, kind),
        Err(fault) => Err(fault),
    }
}
