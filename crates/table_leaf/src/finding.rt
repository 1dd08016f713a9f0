// Finds the leaf of a table in which a rowid belongs.
ghost use Rattle.std.specs.Prelude.{◌≡◌, ◌≤◌, IfErr, IfOk, IfSome, OnOk, Some, length};
ghost use Rattle.format_spec.specs.declared.PageKind.TheVariants.{TableInterior, TableLeaf};
ghost use Rattle.page_layout.specs.Views.{HasKind};
ghost use Rattle.page_spec.specs.Pages.{Pages};
ghost use Rattle.page_store.specs.Store.{HasSizes, OwesBy};
ghost use Rattle.tree_pages.specs.Writers.{paged, sizes_of};
ghost use Rattle.tree_spec.specs.Faults.{IsOther, fault_in};
ghost use Rattle.table_leaf.specs.Leaves.{LeadsTo, Names};
ghost use Rattle.page_shape.specs.Shapes.{HasShape};

use crate::searching::index_of;
use cell_codec::PageKind;
use page_shape::{Shape, child_at, fetch, shape_of};
use page_store::{PageRead, is_in_range};
use tree_spec::TreeFault;

// The child of an interior page below which a rowid belongs. None where a cell does not decode that is read.
fn child_below(page: &[u8], shape: Shape, rowid: i64) -> Option<u32>
    requires { HasShape page.now shape }
    ensures { IfSome result (Names page.now shape.number shape.usable shape.kind rowid) }
{
    let Some(at) = index_of(page, shape, rowid) else {
        return None;
    };
    child_at(page, shape, at)
}

/// The leaf in which a rowid belongs below a page that has at most so many levels of pages below it, and its bytes in a buffer of one page. None where a page is met that is no page of a table, or one that is damaged where it is read; the buffer holds any bytes then.
pub fn find_leaf<S: PageRead>(
    store: &mut S,
    number: u32,
    levels: u32,
    rowid: i64,
    page: &mut [u8],
) -> Result<Option<u32>, TreeFault<S::Fault>>
    requires sizes { HasSizes S.PageRead store.old }
    requires first { 1 ≤ number }
    requires within { number ≤ S.count store.old }
    requires whole { length page.old ≡ S.size store.old }
    ensures leads { (m : Pages) → S.pages store.old ≡ Some m → IfOk result (λ found. IfSome found (LeadsTo (sizes_of S.PageRead store.old) (paged S.PageRead store.old m) rowid number)) }
    ensures bytes { (m : Pages) → S.pages store.old ≡ Some m → IfOk result (λ found. IfSome found (λ leaf. page.new ≡ m leaf)) }
    ensures kind { IfOk result (λ found. IfSome found (λ leaf. HasKind page.new leaf TableLeaf)) }
    ensures first { IfOk result (λ found. IfSome found (λ leaf. 1 ≤ leaf)) }
    ensures within { IfOk result (λ found. IfSome found (λ leaf. leaf ≤ S.count store.old)) }
    ensures whole { length page.new ≡ S.size store.old }
    ensures same { S.pages store.new ≡ S.pages store.old }
    ensures count { S.count store.new ≡ S.count store.old }
    ensures other { IfErr result IsOther }
    ensures owes { OwesBy S.PageRead fault_in store.old store.new result }
{
    fetch(store, number, page)?;
    let Some(shape) = shape_of(page, number, store.usable()) else {
        return Ok(None);
    };
    match shape.kind {
        PageKind::TableLeaf => Ok(Some(number)),
        PageKind::TableInterior => {
            if levels == 0 {
                return Ok(None);
            }
            let Some(child) = child_below(page, shape, rowid) else {
                return Ok(None);
            };
            if !is_in_range(store.page_size(), store.count(), child) {
                return Ok(None);
            }
            find_leaf(store, child, levels - 1, rowid, page)
        }
        PageKind::IndexLeaf | PageKind::IndexInterior => Ok(None),
    }
}
