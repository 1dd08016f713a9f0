// Pages beside one another, and the cell that comes down between them.
ghost use Rattle.std.specs.Prelude.{◌≡◌, ◌≤◌, ◌<◌, ◌^◌, ◌∷◌, [], IfErr, IfOk, None, Some, length, slice_get};
ghost use Rattle.format_spec.specs.Cell.{child_size};
ghost use Rattle.page_spec.specs.Pages.{Pages};
ghost use Rattle.page_store.specs.Store.{HasSizes, IsNumber, OwesBy};
ghost use Rattle.tree_spec.specs.Faults.{fault_in};
ghost use Rattle.tree_walk.specs.Pages.{IsDecoded};
ghost use Rattle.tree_walk.specs.Places.{child_or};
ghost use Rattle.index_cells.specs.Respelling.{respelled};
ghost use Rattle.index_delete.specs.Deletes.{IsChildAt};
ghost use Rattle.index_delete.specs.Needs.{RefusesOther};

use cell_codec::PageKind;
use index_cells::{Taken, spell};
use page_store::{PageRead, is_in_range};
use rbu_value::Bytes;
use refusal::Rule;
use std::alloc::{AllocError, Global};
use tree_pages::TreeFault;
use tree_spec::damaged;
use tree_walk::{TreePage, read_page};

// The page that a page names at an index: the left child of a cell, or behind all cells the right child.
fn child_of(page: &TreePage, at: usize) -> u32
    ensures { result ≡ child_or page.now.right (slice_get page.now.views at) }
{
    match page.views.as_slice().get(at) {
        Some(view) => view.child,
        None => page.right,
    }
}

/// The page that a page names at an index. Refuses [55] with `child` where it is out of range.
pub fn child_number<S: PageRead>(
    store: &S,
    page: &TreePage,
    at: usize,
) -> Result<u32, TreeFault<S::Fault>>
    requires { HasSizes S.PageRead store.now }
    ensures child { IfOk result (IsChildAt page.now at) }
    ensures in_range { IfOk result (IsNumber S.PageRead store.now) }
    ensures out { IfErr result (λ _. ¬ IsNumber S.PageRead store.now (child_or page.now.right (slice_get page.now.views at))) }
    ensures named { IfOk result (λ child. child ≡ child_or page.now.right (slice_get page.now.views at)) }
    ensures cause { IfErr result (λ fault. fault_in fault ≡ None) }
{
    let child = child_of(page, at);
    if !is_in_range(store.page_size(), store.count(), child) {
        return Err(damaged(page.number, Rule::Child));
    }
    Ok(child)
}

/// Reads the page of a kind that a page names at an index. Refuses [55] with `child`, `kind` or `cells`.
pub fn read_beside<S: PageRead>(
    alloc: Global,
    store: &mut S,
    page: &TreePage,
    at: usize,
    kind: PageKind,
) -> Result<TreePage, TreeFault<S::Fault>>
    requires sizes { HasSizes S.PageRead store.old }
    ensures child { IfOk result (λ beside. IsChildAt page.now at beside.number) }
    ensures in_range { IfOk result (λ beside. IsNumber S.PageRead store.old beside.number) }
    ensures read { IfOk result (λ beside. IsDecoded beside.bytes beside.number (S.usable store.old) beside) }
    ensures there { IfOk result (λ beside. (m : Pages) → S.pages store.old ≡ Some m → m beside.number ≡ beside.bytes) }
    ensures kind { IfOk result (λ beside. beside.kind ≡ kind) }
    ensures whole { IfOk result (λ beside. length beside.bytes ≡ S.size store.old) }
    ensures same { S.pages store.new ≡ S.pages store.old }
    ensures count { S.count store.new ≡ S.count store.old }
    ensures named { IfOk result (λ beside. beside.number ≡ child_or page.now.right (slice_get page.now.views at)) }
    ensures refuses { RefusesOther S.PageRead kind (child_or page.now.right (slice_get page.now.views at)) store.old result }
    ensures owes { OwesBy S.PageRead fault_in store.old store.new result }
{
    let number = child_number(store, page, at)?;
    let beside = read_page(alloc, store, number)?;
    if beside.kind != kind {
        return Err(damaged(number, Rule::Kind));
    }
    Ok(beside)
}

/// A cell that goes to a page of a kind, spelled so, as a list of one.
pub fn spell_once(
    alloc: Global,
    taken: &Taken,
    kind: PageKind,
    child: u32,
) -> Result<Vec<Bytes>, AllocError>
    requires { child_size taken.now.kind ≤ length taken.now.bytes }
    ensures small { child < 2 ^ 32 }
    ensures cells { IfOk result (λ cells. cells.items ≡ respelled taken.now.kind kind child taken.now.bytes ∷ []) }
{
    let cell = spell(alloc, taken, kind, child)?;
    let mut cells = Vec::new(alloc);
    match cells.push(cell) {
        Ok(()) => Ok(cells),
        Err(failed) => Err(AllocError::from(failed)),
    }
}
