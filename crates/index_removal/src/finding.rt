// Where an entry stands in a page.
ghost use Rattle.std.specs.Prelude.{◌≡◌, ◌≤◌, IfErr, IfOk, None, Some, length};
ghost use Rattle.key_order.specs.Orders.{IsEntry};
ghost use Rattle.page_spec.specs.Pages.{Pages};
ghost use Rattle.page_store.specs.Store.{HasSizes, OwesBy};
ghost use Rattle.tree_pages.specs.Writers.{paged, sizes_of};
ghost use Rattle.tree_spec.specs.Faults.{fault_in};
ghost use Rattle.tree_walk.specs.Pages.{IsDecoded};
ghost use Rattle.tree_index.specs.Searches.{IsWithin};
ghost use Rattle.index_removal.specs.Deletes.{IsFound};
ghost use Rattle.index_removal.specs.Needs.{IsOtherUnder};

use page_store::PageRead;
use std::alloc::Global;
use tree_index::{KeyOrder, Sought, search};
use tree_spec::TreeFault;
use tree_walk::{TreePage, read_page};

/// A page, and where an entry stands among its cells or belongs.
#[derive(Drop)]
pub struct Found {
    pub page: TreePage,
    pub sought: Sought,
}

/// Reads a page, and looks for an entry among its cells. Refuses [55] with `kind`, `cells`, `chain` or `record`.
pub fn find<S: PageRead>(
    alloc: Global,
    store: &mut S,
    number: u32,
    payload: &[u8],
    order: &KeyOrder,
) -> Result<Found, TreeFault<S::Fault>>
    requires sizes { HasSizes S.PageRead store.old }
    requires first { 1 ≤ number }
    requires on_page { number ≤ S.count store.old }
    requires entry { IsEntry order.now payload.now }
    ensures found { IfOk result (λ found. (m : Pages) → S.pages store.old ≡ Some m → IsFound (sizes_of S.PageRead store.old) order.now payload.now number found (paged S.PageRead store.old m)) }
    ensures read { IfOk result (λ found. IsDecoded found.page.bytes number (S.usable store.old) found.page) }
    ensures whole { IfOk result (λ found. length found.page.bytes ≡ S.size store.old) }
    ensures within { IfOk result (λ found. IsWithin found.page found.sought) }
    ensures same { S.pages store.new ≡ S.pages store.old }
    ensures count { S.count store.new ≡ S.count store.old }
    ensures refuses { (m : Pages) → S.pages store.old ≡ Some m → IfErr result (IsOtherUnder (sizes_of S.PageRead store.old) order.now number (paged S.PageRead store.old m)) }
    ensures owes { OwesBy S.PageRead fault_in store.old store.new result }
{
    let page = read_page(alloc, store, number)?;
    let sought = search(alloc, store, &page, payload, order)?;
    Ok(Found { page, sought })
}
