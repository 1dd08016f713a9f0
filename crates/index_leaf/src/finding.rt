// Finds the leaf of an index in which an entry belongs.
ghost use Rattle.std.specs.Prelude.{◌≡◌, ◌≤◌, IfErr, IfOk, Some, length};
ghost use Rattle.format_spec.specs.declared.PageKind.TheVariants.{IndexLeaf};
ghost use Rattle.key_order.specs.Orders.{IsEntry};
ghost use Rattle.page_layout.specs.Views.{HasKind};
ghost use Rattle.page_shape.specs.Shapes.{HasShape};
ghost use Rattle.page_spec.specs.Pages.{Pages};
ghost use Rattle.page_store.specs.Store.{HasSizes, OwesBy};
ghost use Rattle.tree_pages.specs.Writers.{paged, sizes_of};
ghost use Rattle.tree_spec.specs.Faults.{IsOther, fault_in};
ghost use Rattle.index_leaf.specs.Leaves.{LeadsTo, Names, OfPage};

use crate::searching::{Found, look};
use cell_codec::PageKind;
use key_order::KeyOrder;
use page_shape::{Shape, child_at, fetch, shape_of};
use page_store::{PageRead, is_in_range};
use tree_spec::TreeFault;

/// Where a search for an entry leads.
#[derive(Clone, Copy)]
pub enum Lead {
    /// To this page.
    To(u32),
    /// To an equal entry.
    Present,
    /// It is given up.
    Nowhere,
}

// Where an interior page leads. Nowhere, where a cell does not decode that is read, or has an overflow chain.
fn lead_of(page: &[u8], shape: Shape, payload: &[u8], order: &KeyOrder) -> Lead
    requires { HasShape page.now shape }
    ensures { Names order.now payload.now page.now shape.number shape.usable shape.kind result }
{
    match look(page, shape, payload, order) {
        Some(Found::At(at)) => match child_at(page, shape, at) {
            Some(child) => Lead::To(child),
            None => Lead::Nowhere,
        },
        Some(Found::Present) => Lead::Present,
        None => Lead::Nowhere,
    }
}

/// Where a search for an entry leads below a page that has at most so many levels of pages below it: to the leaf in which the entry belongs, whose bytes are in a buffer of one page then, or to an equal entry in an interior page. It is given up where a page is met that is no page of an index, or one that is damaged where it is read, and where an entry that is compared has an overflow chain.
pub fn find_leaf<S: PageRead>(
    store: &mut S,
    number: u32,
    levels: u32,
    payload: &[u8],
    order: &KeyOrder,
    page: &mut [u8],
) -> Result<Lead, TreeFault<S::Fault>>
    requires sizes { HasSizes S.PageRead store.old }
    requires first { 1 ≤ number }
    requires within { number ≤ S.count store.old }
    requires whole { length page.old ≡ S.size store.old }
    requires entry { IsEntry order.now payload.now }
    ensures leads { (m : Pages) → S.pages store.old ≡ Some m → IfOk result (LeadsTo order.now payload.now (sizes_of S.PageRead store.old) (paged S.PageRead store.old m) number) }
    ensures bytes { (m : Pages) → S.pages store.old ≡ Some m → IfOk result (OfPage (λ leaf. page.new ≡ m leaf)) }
    ensures kind { IfOk result (OfPage (λ leaf. HasKind page.new leaf IndexLeaf)) }
    ensures first { IfOk result (OfPage (λ leaf. 1 ≤ leaf)) }
    ensures within { IfOk result (OfPage (λ leaf. leaf ≤ S.count store.old)) }
    ensures whole { length page.new ≡ S.size store.old }
    ensures same { S.pages store.new ≡ S.pages store.old }
    ensures count { S.count store.new ≡ S.count store.old }
    ensures other { IfErr result IsOther }
    ensures owes { OwesBy S.PageRead fault_in store.old store.new result }
{
    fetch(store, number, page)?;
    let Some(shape) = shape_of(page, number, store.usable()) else {
        return Ok(Lead::Nowhere);
    };
    match shape.kind {
        PageKind::IndexLeaf => Ok(Lead::To(number)),
        PageKind::IndexInterior => {
            if levels == 0 {
                return Ok(Lead::Nowhere);
            }
            match lead_of(page, shape, payload, order) {
                Lead::To(child) => {
                    if !is_in_range(store.page_size(), store.count(), child) {
                        return Ok(Lead::Nowhere);
                    }
                    find_leaf(store, child, levels - 1, payload, order, page)
                }
                Lead::Present => Ok(Lead::Present),
                Lead::Nowhere => Ok(Lead::Nowhere),
            }
        }
        PageKind::TableLeaf | PageKind::TableInterior => Ok(Lead::Nowhere),
    }
}
