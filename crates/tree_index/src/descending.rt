// Puts an entry below a page.
ghost use Rattle.std.specs.Prelude.{◌≡◌, ◌≤◌, ◌+◌, ◌*◌, ℕ, List, [], ◌∷◌, IfErr, IfOk, None, OnOk, length, max, slice_get};
ghost use Rattle.std.specs.List.{All};
ghost use Rattle.format_spec.specs.Cell.{payload_limit};
ghost use Rattle.format_spec.specs.declared.PageKind.TheVariants.{IndexInterior, IndexLeaf};
ghost use Rattle.key_order.specs.Orders.{IsEntry};
ghost use Rattle.page_spec.specs.Rooms.{IsOneCell};
ghost use Rattle.page_store.specs.Store.{HasSizes, IsNumber, OwesBy};
ghost use Rattle.put_spec.specs.Steps.{Spelled, child_page};
ghost use Rattle.tree_level.specs.Changes.{HasSpelled};
ghost use Rattle.tree_pages.specs.Takes.{RefusesShort, RisesBy};
ghost use Rattle.tree_pages.specs.Writers.{Becomes, sizes_of};
ghost use Rattle.tree_spec.specs.Faults.{fault_in};
ghost use Rattle.tree_walk.specs.Pages.{IsDecoded};
ghost use Rattle.tree_walk.specs.Places.{child_or};
ghost use Rattle.tree_index.specs.Needs.{RefusesLeaf, RefusesUnder, TakesAt, TakesUnder, overflow_pages};
ghost use Rattle.tree_index.specs.Puts.{EntersLeaf, EntersUnder, PassesOn, Raises, risen_cells};

use crate::entries::make_cell;
use crate::searching::{Sought, search};
use cell_codec::PageKind;
use key_order::KeyOrder;
use page_store::{PageRead, PageWrite, is_in_range};
use rbu_value::Bytes;
use refusal::Rule;
use std::alloc::{AllocError, Global};
use tree_level::{Change, change_page};
use tree_pages::TreeFault;
use tree_spec::damaged;
use tree_walk::{TreePage, read_page};

/// What a put made of a page and those below it.
#[derive(Drop)]
pub enum Below {
    /// Nothing: an equal entry stands there.
    Present,
    /// It has the entry too, and these cells go up to its parent.
    Grown(Vec<Bytes>),
}

/// A list of one cell.
pub fn only(alloc: Global, cell: Bytes) -> Result<Vec<Bytes>, AllocError>
    ensures { IfOk result (λ cells. cells.items ≡ cell ∷ []) }
{
    let mut cells = Vec::new(alloc);
    match cells.push(cell) {
        Ok(()) => Ok(cells),
        Err(failed) => Err(AllocError::from(failed)),
    }
}

// The page that a page names at an index: the left child of a cell, or behind all cells the right child.
fn child_of(page: &TreePage, at: usize) -> u32
    ensures { result ≡ child_or page.now.right (slice_get page.now.views at) }
{
    match page.views.as_slice().get(at) {
        Some(view) => view.child,
        None => page.right,
    }
}

/// The page that a page names at an index. Refuses [55] with `child` where it is out of range.
pub fn child_number<S: PageRead>(
    store: &S,
    page: &TreePage,
    at: usize,
) -> Result<u32, TreeFault<S::Fault>>
    requires { HasSizes S.PageRead store.now }
    ensures child { IfOk result (λ child. (usable : ℕ) (cells : List Spelled) → HasSpelled usable page.now cells → child ≡ child_page at cells page.now.right) }
    ensures in_range { IfOk result (IsNumber S.PageRead store.now) }
    ensures named { IfOk result (λ child. child ≡ child_or page.now.right (slice_get page.now.views at)) }
    ensures out { IfErr result (λ _. ¬ IsNumber S.PageRead store.now (child_or page.now.right (slice_get page.now.views at))) }
    ensures cause { IfErr result (λ fault. fault_in fault ≡ None) }
{
    let child = child_of(page, at);
    if !is_in_range(store.page_size(), store.count(), child) {
        return Err(damaged(page.number, Rule::Child));
    }
    Ok(child)
}

// Puts an entry among the cells of a leaf, in front of the one at an index. Refuses [51] and [50].
fn enter_leaf<S: PageWrite>(
    alloc: Global,
    store: &mut S,
    page: TreePage,
    at: usize,
    payload: &[u8],
    limit: u32,
) -> Result<Vec<Bytes>, TreeFault<S::Fault>>
    requires sizes { HasSizes S.PageRead store.old }
    requires number { IsNumber S.PageRead store.old page.number }
    requires page { IsDecoded page.bytes page.number (S.usable store.old) page }
    requires whole { length page.bytes ≡ S.size store.old }
    requires kind { page.kind ≡ IndexLeaf }
    requires at { at ≤ length page.views }
    requires payload { length payload.now ≤ payload_limit }
    ensures enters { IfOk result (λ dividers. Becomes S.PageRead store.old store.new (EntersLeaf (sizes_of S.PageRead store.old) page at payload.now dividers.items)) }
    ensures dividers { IfOk result (λ dividers. All (IsOneCell IndexInterior (S.usable store.old)) dividers.items) }
    ensures few { IfOk result (λ dividers. length dividers.items ≤ 2) }
    ensures count { OnOk result (S.count store.old ≤ S.count store.new) }
    ensures most { OnOk result (S.count store.new ≤ max limit (S.count store.old)) }
    ensures takes { IfOk result (λ _. Becomes S.PageRead store.old store.new (TakesAt (sizes_of S.PageRead store.old) page.number (2 + overflow_pages (S.usable store.old) (length payload.now)))) }
    ensures rises { OnOk result (RisesBy S.PageRead (2 + overflow_pages (S.usable store.old) (length payload.now)) store.old store.new) }
    ensures refuses { RefusesShort S.PageRead (2 + overflow_pages (S.usable store.old) (length payload.now)) limit store.old store.new result }
    ensures owes { OwesBy S.PageRead fault_in store.old store.new result }
{
    let cell = make_cell(alloc, store, payload, limit)?;
    let comes = only(alloc, cell)?;
    let change = Change {
        at,
        goes: false,
        right: page.right,
    };
    change_page(alloc, store, page, change, comes, limit)
}

// Puts an entry into a leaf, unless an equal one stands there. Refuses [55] with `chain` or `record`, [51] and [50].
fn put_in_leaf<S: PageWrite>(
    alloc: Global,
    store: &mut S,
    page: TreePage,
    payload: &[u8],
    order: &KeyOrder,
    limit: u32,
) -> Result<Below, TreeFault<S::Fault>>
    requires sizes { HasSizes S.PageRead store.old }
    requires number { IsNumber S.PageRead store.old page.number }
    requires page { IsDecoded page.bytes page.number (S.usable store.old) page }
    requires whole { length page.bytes ≡ S.size store.old }
    requires kind { page.kind ≡ IndexLeaf }
    requires payload { length payload.now ≤ payload_limit }
    requires entry { IsEntry order.now payload.now }
    ensures enters { IfOk result (λ below. Becomes S.PageRead store.old store.new (λ a b. a.pages page.number ≡ page.bytes → EntersUnder (sizes_of S.PageRead store.old) order.now payload.now page.number below a b)) }
    ensures dividers { IfOk result (λ below. All (IsOneCell IndexInterior (S.usable store.old)) (risen_cells below)) }
    ensures few { IfOk result (λ below. length (risen_cells below) ≤ 2) }
    ensures count { OnOk result (S.count store.old ≤ S.count store.new) }
    ensures most { OnOk result (S.count store.new ≤ max limit (S.count store.old)) }
    ensures takes { IfOk result (λ _. Becomes S.PageRead store.old store.new (TakesAt (sizes_of S.PageRead store.old) page.number (2 + overflow_pages (S.usable store.old) (length payload.now)))) }
    ensures rises { OnOk result (RisesBy S.PageRead (2 + overflow_pages (S.usable store.old) (length payload.now)) store.old store.new) }
    ensures refuses { RefusesLeaf S.PageRead order.now (2 + overflow_pages (S.usable store.old) (length payload.now)) limit page store.old store.new result }
    ensures owes { OwesBy S.PageRead fault_in store.old store.new result }
{
    let sought = search(alloc, store, &page, payload, order)?;
    match sought {
        Sought::Present(_) => Ok(Below::Present),
        Sought::At(at) => {
            let dividers = enter_leaf(alloc, store, page, at, payload, limit)?;
            Ok(Below::Grown(dividers))
        }
    }
}

// Puts the dividers that came from below among the cells of an interior page.
fn raise<S: PageWrite>(
    alloc: Global,
    store: &mut S,
    page: TreePage,
    at: usize,
    came: Vec<Bytes>,
    limit: u32,
) -> Result<Vec<Bytes>, TreeFault<S::Fault>>
    requires sizes { HasSizes S.PageRead store.old }
    requires number { IsNumber S.PageRead store.old page.number }
    requires page { IsDecoded page.bytes page.number (S.usable store.old) page }
    requires whole { length page.bytes ≡ S.size store.old }
    requires kind { page.kind ≡ IndexInterior }
    requires at { at ≤ length page.views }
    requires came { All (IsOneCell IndexInterior (S.usable store.old)) came.items }
    requires few { length came.items ≤ 2 }
    ensures raised { IfOk result (λ dividers. Becomes S.PageRead store.old store.new (Raises (sizes_of S.PageRead store.old) page at came.items dividers.items)) }
    ensures dividers { IfOk result (λ dividers. All (IsOneCell IndexInterior (S.usable store.old)) dividers.items) }
    ensures few { IfOk result (λ dividers. length dividers.items ≤ 2) }
    ensures count { OnOk result (S.count store.old ≤ S.count store.new) }
    ensures most { OnOk result (S.count store.new ≤ max limit (S.count store.old)) }
    ensures takes { IfOk result (λ _. Becomes S.PageRead store.old store.new (TakesAt (sizes_of S.PageRead store.old) page.number 2)) }
    ensures rises { OnOk result (RisesBy S.PageRead 2 store.old store.new) }
    ensures refuses { RefusesShort S.PageRead 2 limit store.old store.new result }
    ensures owes { OwesBy S.PageRead fault_in store.old store.new result }
{
    if came.is_empty() {
        return Ok(came);
    }
    let change = Change {
        at,
        goes: false,
        right: page.right,
    };
    change_page(alloc, store, page, change, came, limit)
}

// What is made of an interior page, once a put below its child at an index has made this of that. Refuses [51] and [50].
fn pass_on<S: PageWrite>(
    alloc: Global,
    store: &mut S,
    page: TreePage,
    at: usize,
    below: Below,
    limit: u32,
) -> Result<Below, TreeFault<S::Fault>>
    requires sizes { HasSizes S.PageRead store.old }
    requires number { IsNumber S.PageRead store.old page.number }
    requires page { IsDecoded page.bytes page.number (S.usable store.old) page }
    requires whole { length page.bytes ≡ S.size store.old }
    requires kind { page.kind ≡ IndexInterior }
    requires at { at ≤ length page.views }
    requires dividers { All (IsOneCell IndexInterior (S.usable store.old)) (risen_cells below) }
    requires few { length (risen_cells below) ≤ 2 }
    ensures passed { IfOk result (λ passed. Becomes S.PageRead store.old store.new (PassesOn (sizes_of S.PageRead store.old) page at below passed)) }
    ensures dividers { IfOk result (λ passed. All (IsOneCell IndexInterior (S.usable store.old)) (risen_cells passed)) }
    ensures few { IfOk result (λ passed. length (risen_cells passed) ≤ 2) }
    ensures count { OnOk result (S.count store.old ≤ S.count store.new) }
    ensures most { OnOk result (S.count store.new ≤ max limit (S.count store.old)) }
    ensures takes { IfOk result (λ _. Becomes S.PageRead store.old store.new (TakesAt (sizes_of S.PageRead store.old) page.number 2)) }
    ensures rises { OnOk result (RisesBy S.PageRead 2 store.old store.new) }
    ensures refuses { RefusesShort S.PageRead 2 limit store.old store.new result }
    ensures owes { OwesBy S.PageRead fault_in store.old store.new result }
{
    match below {
        Below::Present => Ok(Below::Present),
        Below::Grown(came) => {
            let dividers = raise(alloc, store, page, at, came, limit)?;
            Ok(Below::Grown(dividers))
        }
    }
}

/// Puts an entry below a page that has at most so many levels of pages below it, unless an equal one stands there. Refuses [55] with `kind`, `cells`, `child`, `depth`, `chain` or `record`, [51] and [50].
pub fn put_below<S: PageWrite>(
    alloc: Global,
    store: &mut S,
    number: u32,
    levels: u32,
    payload: &[u8],
    order: &KeyOrder,
    limit: u32,
) -> Result<Below, TreeFault<S::Fault>>
    requires sizes { HasSizes S.PageRead store.old }
    requires number { IsNumber S.PageRead store.old number }
    requires payload { length payload.now ≤ payload_limit }
    requires entry { IsEntry order.now payload.now }
    ensures enters { IfOk result (λ below. Becomes S.PageRead store.old store.new (EntersUnder (sizes_of S.PageRead store.old) order.now payload.now number below)) }
    ensures dividers { IfOk result (λ below. All (IsOneCell IndexInterior (S.usable store.old)) (risen_cells below)) }
    ensures few { IfOk result (λ below. length (risen_cells below) ≤ 2) }
    ensures count { OnOk result (S.count store.old ≤ S.count store.new) }
    ensures most { OnOk result (S.count store.new ≤ max limit (S.count store.old)) }
    ensures takes { IfOk result (λ _. Becomes S.PageRead store.old store.new (TakesUnder (sizes_of S.PageRead store.old) (2 + overflow_pages (S.usable store.old) (length payload.now)) number)) }
    ensures rises { OnOk result (RisesBy S.PageRead (2 * levels + (2 + overflow_pages (S.usable store.old) (length payload.now))) store.old store.new) }
    ensures refuses { RefusesUnder S.PageRead order.now levels (2 + overflow_pages (S.usable store.old) (length payload.now)) limit number store.old store.new result }
    ensures owes { OwesBy S.PageRead fault_in store.old store.new result }
{
    let page = read_page(alloc, store, number)?;
    match page.kind {
        PageKind::IndexLeaf => put_in_leaf(alloc, store, page, payload, order, limit),
        PageKind::IndexInterior => {
            if levels == 0 {
                return Err(damaged(number, Rule::Depth));
            }
            let sought = search(alloc, store, &page, payload, order)?;
            match sought {
                Sought::Present(_) => Ok(Below::Present),
                Sought::At(at) => {
                    let child = child_number(store, &page, at)?;
                    let below = put_below(alloc, store, child, levels - 1, payload, order, limit)?;
                    pass_on(alloc, store, page, at, below, limit)
                }
            }
        }
        PageKind::TableLeaf | PageKind::TableInterior => Err(damaged(number, Rule::Kind)),
    }
}
