// Puts a row below a page.
ghost use Rattle.std.specs.Prelude.{◌≡◌, ◌≤◌, ◌<◌, ◌+◌, ◌*◌, ◌⊎◌, ℕ, List, [], ◌∷◌, IfErr, IfOk, None, OnOk, length, max, slice_get};
ghost use Rattle.std.specs.List.{All};
ghost use Rattle.format_spec.specs.declared.PageKind.TheVariants.{TableInterior, TableLeaf};
ghost use Rattle.page_spec.specs.Pages.{IsInRange};
ghost use Rattle.page_spec.specs.Rooms.{IsOneCell};
ghost use Rattle.page_store.specs.Store.{HasSizes, IsNumber, OwesBy};
ghost use Rattle.put_spec.specs.Steps.{Spelled, child_page};
ghost use Rattle.tree_level.specs.Changes.{Changes, HasSpelled};
ghost use Rattle.tree_pages.specs.Takes.{RefusesShort, RisesBy};
ghost use Rattle.tree_pages.specs.Writers.{Becomes, sizes_of};
ghost use Rattle.tree_spec.specs.Faults.{fault_in};
ghost use Rattle.tree_walk.specs.Pages.{IsDecoded};
ghost use Rattle.tree_walk.specs.Places.{child_or};
ghost use Rattle.tree_table.specs.Needs.{RefusesUnder, TakesAt, TakesUnder};
ghost use Rattle.tree_table.specs.Puts.{IsRow, PutsUnder, Raises};

use crate::leaf::{OldChain, leaf_edit};
use cell_codec::PageKind;
use page_store::{PageRead, PageWrite, is_in_range};
use rbu_value::Bytes;
use refusal::Rule;
use std::alloc::{AllocError, Global};
use tree_level::{Change, change_page};
use tree_pages::TreeFault;
use tree_spec::damaged;
use tree_walk::{TreePage, index_of, read_page};

/// What a put made of a page and those below it.
#[derive(Drop)]
pub struct Grown {
    /// The cells that go up to its parent.
    pub dividers: Vec<Bytes>,
    /// The overflow chain of the row that was replaced.
    pub old: OldChain,
}

/// A list of one cell.
pub fn only(alloc: Global, cell: Bytes) -> Result<Vec<Bytes>, AllocError>
    ensures { IfOk result (λ cells. cells.items ≡ cell ∷ []) }
{
    let mut cells = Vec::new(alloc);
    match cells.push(cell) {
        Ok(()) => Ok(cells),
        Err(failed) => Err(AllocError::from(failed)),
    }
}

// The page that a page names at an index: the left child of a cell, or behind all cells the right child.
fn child_of(page: &TreePage, at: usize) -> u32
    ensures { result ≡ child_or page.now.right (slice_get page.now.views at) }
{
    match page.views.as_slice().get(at) {
        Some(view) => view.child,
        None => page.right,
    }
}

/// The page that a page names at an index. Refuses [55] with `child` where it is out of range.
pub fn child_number<S: PageRead>(
    store: &S,
    page: &TreePage,
    at: usize,
) -> Result<u32, TreeFault<S::Fault>>
    requires { HasSizes S.PageRead store.now }
    ensures child { IfOk result (λ child. (usable : ℕ) (cells : List Spelled) → HasSpelled usable page.now cells → child ≡ child_page at cells page.now.right) }
    ensures in_range { IfOk result (IsNumber S.PageRead store.now) }
    ensures named { IfOk result (λ child. child ≡ child_or page.now.right (slice_get page.now.views at)) }
    ensures out { IfErr result (λ _. ¬ IsNumber S.PageRead store.now (child_or page.now.right (slice_get page.now.views at))) }
    ensures cause { IfErr result (λ fault. fault_in fault ≡ None) }
{
    let child = child_of(page, at);
    if !is_in_range(store.page_size(), store.count(), child) {
        return Err(damaged(page.number, Rule::Child));
    }
    Ok(child)
}

// Puts a row into a leaf.
fn put_in_leaf<S: PageWrite>(
    alloc: Global,
    store: &mut S,
    page: TreePage,
    cell: Bytes,
    rowid: i64,
    limit: u32,
) -> Result<Grown, TreeFault<S::Fault>>
    requires sizes { HasSizes S.PageRead store.old }
    requires number { IsNumber S.PageRead store.old page.number }
    requires page { IsDecoded page.bytes page.number (S.usable store.old) page }
    requires whole { length page.bytes ≡ S.size store.old }
    requires kind { page.kind ≡ TableLeaf }
    requires cell { IsRow (S.usable store.old) rowid cell }
    ensures put { IfOk result (λ grown. Becomes S.PageRead store.old store.new (λ a b. a.pages page.number ≡ page.bytes → PutsUnder (sizes_of S.PageRead store.old) page.number rowid cell grown.dividers.items grown.old.first grown.old.bytes a b)) }
    ensures dividers { IfOk result (λ grown. All (IsOneCell TableInterior (S.usable store.old)) grown.dividers.items) }
    ensures few { IfOk result (λ grown. length grown.dividers.items ≤ 2) }
    ensures count { OnOk result (S.count store.old ≤ S.count store.new) }
    ensures most { OnOk result (S.count store.new ≤ max limit (S.count store.old)) }
    ensures takes { IfOk result (λ _. Becomes S.PageRead store.old store.new (TakesAt (sizes_of S.PageRead store.old) page.number 2)) }
    ensures rises { OnOk result (RisesBy S.PageRead 2 store.old store.new) }
    ensures refuses { RefusesShort S.PageRead 2 limit store.old store.new result }
    ensures owes { OwesBy S.PageRead fault_in store.old store.new result }
{
    let edit = leaf_edit(&page, rowid);
    let comes = only(alloc, cell)?;
    let dividers = change_page(alloc, store, page, edit.change, comes, limit)?;
    Ok(Grown {
        dividers,
        old: edit.old,
    })
}

// Puts the dividers that came from below among the cells of an interior page.
fn raise<S: PageWrite>(
    alloc: Global,
    store: &mut S,
    page: TreePage,
    at: usize,
    came: Vec<Bytes>,
    limit: u32,
) -> Result<Vec<Bytes>, TreeFault<S::Fault>>
    requires sizes { HasSizes S.PageRead store.old }
    requires number { IsNumber S.PageRead store.old page.number }
    requires page { IsDecoded page.bytes page.number (S.usable store.old) page }
    requires whole { length page.bytes ≡ S.size store.old }
    requires kind { page.kind ≡ TableInterior }
    requires at { at ≤ length page.views }
    requires came { All (IsOneCell TableInterior (S.usable store.old)) came.items }
    requires few { length came.items ≤ 2 }
    ensures raised { IfOk result (λ dividers. Becomes S.PageRead store.old store.new (Raises (sizes_of S.PageRead store.old) page at came.items dividers.items)) }
    ensures dividers { IfOk result (λ dividers. All (IsOneCell TableInterior (S.usable store.old)) dividers.items) }
    ensures few { IfOk result (λ dividers. length dividers.items ≤ 2) }
    ensures count { OnOk result (S.count store.old ≤ S.count store.new) }
    ensures most { OnOk result (S.count store.new ≤ max limit (S.count store.old)) }
    ensures takes { IfOk result (λ _. Becomes S.PageRead store.old store.new (TakesAt (sizes_of S.PageRead store.old) page.number 2)) }
    ensures rises { OnOk result (RisesBy S.PageRead 2 store.old store.new) }
    ensures refuses { RefusesShort S.PageRead 2 limit store.old store.new result }
    ensures owes { OwesBy S.PageRead fault_in store.old store.new result }
{
    if came.is_empty() {
        return Ok(came);
    }
    let change = Change {
        at,
        goes: false,
        right: page.right,
    };
    change_page(alloc, store, page, change, came, limit)
}

/// Puts a row below a page that has at most so many levels of pages below it. Refuses [55] with `kind`, `cells`, `child` or `depth`, [51] and [50].
pub fn put_below<S: PageWrite>(
    alloc: Global,
    store: &mut S,
    number: u32,
    levels: u32,
    cell: Bytes,
    rowid: i64,
    limit: u32,
) -> Result<Grown, TreeFault<S::Fault>>
    requires sizes { HasSizes S.PageRead store.old }
    requires number { IsNumber S.PageRead store.old number }
    requires cell { IsRow (S.usable store.old) rowid cell }
    ensures put { IfOk result (λ grown. Becomes S.PageRead store.old store.new (PutsUnder (sizes_of S.PageRead store.old) number rowid cell grown.dividers.items grown.old.first grown.old.bytes)) }
    ensures dividers { IfOk result (λ grown. All (IsOneCell TableInterior (S.usable store.old)) grown.dividers.items) }
    ensures few { IfOk result (λ grown. length grown.dividers.items ≤ 2) }
    ensures count { OnOk result (S.count store.old ≤ S.count store.new) }
    ensures most { OnOk result (S.count store.new ≤ max limit (S.count store.old)) }
    ensures takes { IfOk result (λ _. Becomes S.PageRead store.old store.new (TakesUnder (sizes_of S.PageRead store.old) number)) }
    ensures rises { OnOk result (RisesBy S.PageRead (2 * levels + 2) store.old store.new) }
    ensures refuses { RefusesUnder S.PageRead levels 2 limit number store.old store.new result }
    ensures owes { OwesBy S.PageRead fault_in store.old store.new result }
{
    let page = read_page(alloc, store, number)?;
    match page.kind {
        PageKind::TableLeaf => put_in_leaf(alloc, store, page, cell, rowid, limit),
        PageKind::TableInterior => {
            if levels == 0 {
                return Err(damaged(number, Rule::Depth));
            }
            let at = index_of(page.views.as_slice(), rowid);
            let child = child_number(store, &page, at)?;
            let grown = put_below(alloc, store, child, levels - 1, cell, rowid, limit)?;
            let dividers = raise(alloc, store, page, at, grown.dividers, limit)?;
            Ok(Grown {
                dividers,
                old: grown.old,
            })
        }
        PageKind::IndexLeaf | PageKind::IndexInterior => Err(damaged(number, Rule::Kind)),
    }
}
