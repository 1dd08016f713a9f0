// Reads a page of a store.
ghost use Rattle.std.specs.Prelude.{◌≡◌, ◌≤◌, IfErr, length};
ghost use Rattle.page_store.specs.Store.{Looks, OwesBy};
ghost use Rattle.tree_spec.specs.Faults.{IsOther, fault_in};

use page_store::PageRead;
use tree_spec::TreeFault;

/// Fills a buffer of one page with the bytes of a page.
pub fn fetch<S: PageRead>(
    store: &mut S,
    number: u32,
    page: &mut [u8],
) -> Result<(), TreeFault<S::Fault>>
    requires first { 1 ≤ number }
    requires within { number ≤ S.count store.old }
    requires whole { length page.old ≡ S.size store.old }
    ensures pages { Looks S.PageRead store.old store.new result (λ _ m. page.new ≡ m number) }
    ensures whole { length page.new ≡ S.size store.old }
    ensures other { IfErr result IsOther }
    ensures owes { OwesBy S.PageRead fault_in store.old store.new result }
{
    match store.page(number, page) {
        Ok(()) => Ok(()),
        Err(fault) => Err(TreeFault::Store(fault)),
    }
}
