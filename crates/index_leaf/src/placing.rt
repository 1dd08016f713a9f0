// Puts an entry into the leaf in which it belongs.
ghost use Rattle.std.specs.Prelude.{◌≡◌, ◌≤◌, IfErr, IfOk, length};
ghost use Rattle.format_spec.specs.declared.PageKind.TheVariants.{IndexLeaf};
ghost use Rattle.format_spec.specs.Sizes.{IsUsable};
ghost use Rattle.key_order.specs.Orders.{IsEntry};
ghost use Rattle.page_layout.specs.Views.{HasKind};
ghost use Rattle.page_spec.specs.Rooms.{IsOneCell, KeepsRest};
ghost use Rattle.page_store.specs.Store.{HasSizes, OwesBy};
ghost use Rattle.tree_pages.specs.Writers.{Becomes, sizes_of};
ghost use Rattle.tree_spec.specs.Faults.{IsOther, fault_in};
ghost use Rattle.index_leaf.specs.Leaves.{PlacesEntry, TriesAlone, TriesLeaf};

use crate::finding::{Lead, find_leaf};
use crate::searching::{Found, look};
use key_order::KeyOrder;
use page_layout::insert_in_gap;
use page_shape::shape_of;
use page_store::{PageWrite, page_buffer};
use std::alloc::Global;
use tree_spec::TreeFault;

/// What came of putting an entry into its leaf alone.
#[derive(Clone, Copy)]
pub enum Attempt {
    /// The leaf has the entry now.
    Put,
    /// An equal entry stands in the index, and nothing changed.
    Present,
    /// It was given up, and nothing changed.
    GivenUp,
}

// Puts the cell of an entry into the bytes of a leaf, unless an equal entry stands there. Given up where there is no room for the cell between the array and the cells, where a cell does not decode that is read, and where one that is compared has an overflow chain.
fn place_entry(
    page: &mut [u8],
    number: u32,
    usable: u32,
    payload: &[u8],
    order: &KeyOrder,
    cell: &[u8],
) -> Attempt
    requires usable { IsUsable usable }
    requires whole { usable ≤ length page.old }
    requires long { length page.old ≤ 65536 }
    requires kind { HasKind page.old number IndexLeaf }
    requires cell { IsOneCell IndexLeaf usable cell.now }
    ensures placed { PlacesEntry order.now payload.now number usable cell.now result page.old page.new }
    ensures rest { KeepsRest number usable page.old page.new }
    ensures whole { length page.new ≡ length page.old }
{
    let Some(shape) = shape_of(page, number, usable) else {
        return Attempt::GivenUp;
    };
    let at = match look(page, shape, payload, order) {
        Some(Found::At(at)) => at,
        Some(Found::Present) => return Attempt::Present,
        None => return Attempt::GivenUp,
    };
    if !insert_in_gap(page, number, usable, shape.kind, at, cell) {
        return Attempt::GivenUp;
    }
    Attempt::Put
}

// Puts the cell of an entry into a leaf whose bytes are in hand.
fn put_in_page<S: PageWrite>(
    store: &mut S,
    leaf: u32,
    page: &mut [u8],
    payload: &[u8],
    order: &KeyOrder,
    cell: &[u8],
) -> Result<Attempt, TreeFault<S::Fault>>
    requires sizes { HasSizes S.PageRead store.old }
    requires first { 1 ≤ leaf }
    requires within { leaf ≤ S.count store.old }
    requires whole { length page.old ≡ S.size store.old }
    requires kind { HasKind page.old leaf IndexLeaf }
    requires cell { IsOneCell IndexLeaf (S.usable store.old) cell.now }
    ensures tried { IfOk result (λ did. Becomes S.PageRead store.old store.new (λ a b. page.old ≡ a.pages leaf → TriesLeaf order.now payload.now (sizes_of S.PageRead store.old) cell.now leaf did a b)) }
    ensures count { S.count store.new ≡ S.count store.old }
    ensures other { IfErr result IsOther }
    ensures owes { OwesBy S.PageRead fault_in store.old store.new result }
{
    match place_entry(page, leaf, store.usable(), payload, order, cell) {
        Attempt::Put => match store.set_page(leaf, page) {
            Ok(()) => Ok(Attempt::Put),
            Err(fault) => Err(TreeFault::Store(fault)),
        },
        Attempt::Present => Ok(Attempt::Present),
        Attempt::GivenUp => Ok(Attempt::GivenUp),
    }
}

/// Puts an entry into the leaf in which it belongs below a page that has at most so many levels of pages below it, unless an equal entry stands there, and answers what came of it. Given up where there is no room for the cell between the leaf's array and its cells, and where the search for the leaf is.
pub fn put_in_leaf<S: PageWrite>(
    alloc: Global,
    store: &mut S,
    number: u32,
    levels: u32,
    payload: &[u8],
    order: &KeyOrder,
    cell: &[u8],
) -> Result<Attempt, TreeFault<S::Fault>>
    requires sizes { HasSizes S.PageRead store.old }
    requires first { 1 ≤ number }
    requires within { number ≤ S.count store.old }
    requires entry { IsEntry order.now payload.now }
    requires cell { IsOneCell IndexLeaf (S.usable store.old) cell.now }
    ensures tried { IfOk result (λ did. Becomes S.PageRead store.old store.new (TriesAlone order.now payload.now (sizes_of S.PageRead store.old) cell.now number did)) }
    ensures count { S.count store.new ≡ S.count store.old }
    ensures other { IfErr result IsOther }
    ensures owes { OwesBy S.PageRead fault_in store.old store.new result }
{
    let mut buffer = page_buffer(alloc, store.page_size())?;
    let page = buffer.as_mut_slice();
    let lead = find_leaf(store, number, levels, payload, order, page)?;
    match lead {
        Lead::To(leaf) => put_in_page(store, leaf, page, payload, order, cell),
        Lead::Present => Ok(Attempt::Present),
        Lead::Nowhere => Ok(Attempt::GivenUp),
    }
}
