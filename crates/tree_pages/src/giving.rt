// Gives pages back.
ghost use Rattle.std.specs.Prelude.{◌≡◌, ◌≤◌, ℕ, IfErr, IfOk, OnOk, List, Some, length};
ghost use Rattle.page_spec.specs.Chains.{IsChain};
ghost use Rattle.page_spec.specs.Freelists.{Trunk, IsFreelist};
ghost use Rattle.page_spec.specs.Pages.{Pages, next_page};
ghost use Rattle.page_store.specs.Store.{HasSizes, IsNumber, OwesBy};
ghost use Rattle.put_spec.specs.Steps.{GivesBack, Releases};
ghost use Rattle.tree_spec.specs.Changes.{Within};
ghost use Rattle.tree_spec.specs.Faults.{IsOther, fault_in};
ghost use Rattle.tree_spec.specs.Worlds.{IsFree};
ghost use Rattle.tree_pages.specs.Writers.{Becomes, paged, sizes_of};

use crate::taking::of_freelist;
use byte_fields::u32_at;
use free_list::release;
use overflow_chain::pages_for;
use page_store::{PageWrite, is_in_range, page_buffer};
use refusal::Rule;
use std::alloc::Global;
use tree_spec::TreeFault;

/// Gives a page back that is not free. Over a sound freelist nothing is refused but for the store's faults and memory.
///
/// The page is from 2 to the store's count and not the lock-byte page. After a fault of the store a part of the change may be written.
pub fn give_page<S: PageWrite>(
    alloc: Global,
    store: &mut S,
    number: u32,
) -> Result<(), TreeFault<S::Fault>>
    requires sizes { HasSizes S.PageRead store.old }
    requires number { IsNumber S.PageRead store.old number }
    ensures released { OnOk result (Becomes S.PageRead store.old store.new (Releases (sizes_of S.PageRead store.old) number)) }
    ensures count { OnOk result (S.count store.new ≡ S.count store.old) }
    ensures sound { (m : Pages) (trunks : List Trunk) → S.pages store.old ≡ Some m → IsFreelist m (S.size store.old) (S.usable store.old) (S.count store.old) trunks → IfErr result IsOther }
    ensures owes { OwesBy S.PageRead fault_in store.old store.new result }
{
    match release(alloc, store, number) {
        Ok(()) => Ok(()),
        Err(fault) => Err(of_freelist(fault)),
    }
}

// Gives a page of a chain back, and answers the number of the next.
fn give_next<S: PageWrite>(
    alloc: Global,
    store: &mut S,
    number: u32,
    page: &mut [u8],
) -> Result<u32, TreeFault<S::Fault>>
    requires sizes { HasSizes S.PageRead store.old }
    requires number { IsNumber S.PageRead store.old number }
    requires whole { length page.old ≡ S.size store.old }
    ensures released { IfOk result (λ next. Becomes S.PageRead store.old store.new (λ a b. (next ≡ next_page (a.pages number)) × Releases (sizes_of S.PageRead store.old) number a b)) }
    ensures count { OnOk result (S.count store.new ≡ S.count store.old) }
    ensures sound { (m : Pages) (trunks : List Trunk) → S.pages store.old ≡ Some m → IsFree (sizes_of S.PageRead store.old) (paged S.PageRead store.old m) trunks → IfErr result IsOther }
    ensures owes { OwesBy S.PageRead fault_in store.old store.new result }
{
    if let Err(fault) = store.page(number, page) {
        return Err(TreeFault::Store(fault));
    }
    match give_page(alloc, store, number) {
        Ok(()) => Ok(u32_at(page, 0)),
        Err(fault) => Err(fault),
    }
}

/// Gives back the pages of the overflow chain of so many bytes, in one pass. Refuses [55] with `chain` where it does not end after as many pages as the bytes fill, or a number is out of range.
///
/// Over a chain and a sound freelist that has none of its pages nothing is refused but for the store's faults and memory. After a fault a part of the chain may be free.
pub fn give_back<S: PageWrite>(
    alloc: Global,
    store: &mut S,
    first: u32,
    bytes: u64,
) -> Result<(), TreeFault<S::Fault>>
    requires sizes { HasSizes S.PageRead store.old }
    ensures given { OnOk result (Becomes S.PageRead store.old store.new (GivesBack (sizes_of S.PageRead store.old) first bytes)) }
    ensures count { OnOk result (S.count store.new ≡ S.count store.old) }
    ensures sound { (m : Pages) (chain : List ℕ) (trunks : List Trunk) → S.pages store.old ≡ Some m → IsChain m (S.size store.old) (S.usable store.old) (S.count store.old) first bytes chain
        → IsFree (sizes_of S.PageRead store.old) (paged S.PageRead store.old m) trunks → Within (sizes_of S.PageRead store.old) (paged S.PageRead store.old m) chain trunks → IfErr result IsOther }
    ensures owes { OwesBy S.PageRead fault_in store.old store.new result }
{
    if bytes == 0 && first == 0 {
        return Ok(());
    }
    let mut buffer = page_buffer(alloc, store.page_size())?;
    let page = buffer.as_mut_slice();
    let mut number = first;
    let mut holder = first;
    for _ in 0..pages_for(store.usable(), bytes) {
        if !is_in_range(store.page_size(), store.count(), number) {
            return Err(TreeFault::TreeDamaged {
                page: u64::from(holder),
                rule: Rule::Chain,
            });
        }
        let next = give_next(alloc, store, number, page)?;
        holder = number;
        number = next;
    }
    if number != 0 {
        return Err(TreeFault::TreeDamaged {
            page: u64::from(holder),
            rule: Rule::Chain,
        });
    }
    Ok(())
}
