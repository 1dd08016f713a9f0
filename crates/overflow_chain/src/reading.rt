// Reads overflow chains (Database File Format, section 1.6).
ghost use Rattle.std.specs.Prelude.{◌≡◌, ◌≤◌, [], IfOk, length};
ghost use Rattle.common_spec.specs.Reading.{ReadsOrWants, OrFault};
ghost use Rattle.page_spec.specs.Pages.{IsInRange, next_page};
ghost use Rattle.page_spec.specs.Chains.{IsChain, pages_for as pages_of};
ghost use Rattle.page_store.specs.Store.{HasSizes, Looks, Owes, OwesBy, Sees};
ghost use Rattle.overflow_chain.specs.Chain.{BreaksAt, IsOther, Walks, fault_in, HoldsBytes};

use crate::fault::ChainFault;
use crate::keeper::Keeper;
use byte_fields::u32_at;
use page_store::{PageRead, is_in_range, page_buffer};
use std::alloc::{AllocError, Global};

/// How many overflow pages so many bytes fill.
pub fn pages_for(usable: u32, bytes: u64) -> u64
    requires { 480 ≤ usable }
    ensures { result ≡ pages_of usable bytes }
{
    let content = u64::from(usable) - 4;
    bytes / content + if bytes % content == 0 { 0 } else { 1 }
}

// Fills the buffer with a page, and answers the number that it names.
fn follow<S: PageRead>(store: &mut S, number: u32, page: &mut [u8]) -> Result<u32, S::Fault>
    requires sizes { HasSizes S.PageRead store.old }
    requires number { IsInRange (S.size store.old) (S.count store.old) number }
    requires whole { length page.old ≡ S.size store.old }
    ensures pages { Looks S.PageRead store.old store.new result (λ next m. (next ≡ next_page (m number)) × (page.new ≡ m number)) }
    ensures owes { Owes S.PageRead store.old store.new result }
{
    store.page(number, page)?;
    Ok(u32_at(page, 0))
}

// Walks over the chain of so many bytes in one pass, and lets the keeper keep of each page what it wants.
fn walk<S: PageRead, K: Keeper>(
    alloc: Global,
    store: &mut S,
    first: u32,
    length: u64,
    keeper: &mut K,
) -> Result<(), ChainFault<S::Fault>>
    requires { HasSizes S.PageRead store.old }
    ensures pages { Sees S.PageRead store.old store.new (Walks (S.size store.old) (S.usable store.old) (S.count store.old) first length
        (K.part (S.usable store.old)) (K.kept keeper.old) (K.kept keeper.new) result) }
    ensures owes { OwesBy S.PageRead fault_in store.old store.new result }
{
    let mut buffer = page_buffer(alloc, store.page_size())?;
    let page = buffer.as_mut_slice();
    let mut number = first;
    let mut holder = first;
    for _ in 0..pages_for(store.usable(), length) {
        if !is_in_range(store.page_size(), store.count(), number) {
            return Err(ChainFault::ChainBroken {
                page: u64::from(holder),
            });
        }
        let next = match follow(store, number, page) {
            Ok(next) => next,
            Err(fault) => return Err(ChainFault::Store(fault)),
        };
        keeper.keep(store.usable(), number, page)?;
        holder = number;
        number = next;
    }
    if number != 0 {
        return Err(ChainFault::ChainBroken {
            page: u64::from(holder),
        });
    }
    Ok(())
}

/// The pages of the overflow chain of so many bytes, in order. Refuses [45] with the page in which the first wrong number stands.
pub fn chain_pages<S: PageRead>(
    alloc: Global,
    store: &mut S,
    first: u32,
    length: u64,
) -> Result<Vec<u32>, ChainFault<S::Fault>>
    requires { HasSizes S.PageRead store.old }
    ensures pages { Sees S.PageRead store.old store.new (λ m. ReadsOrWants (λ numbers. numbers.items) IsOther
        (OrFault (IsChain m (S.size store.old) (S.usable store.old) (S.count store.old) first length)
        (BreaksAt m (S.size store.old) (S.usable store.old) (S.count store.old) first length)) result) }
    ensures owes { OwesBy S.PageRead fault_in store.old store.new result }
{
    let mut numbers = Vec::new(alloc);
    match walk(alloc, store, first, length, &mut numbers) {
        Ok(()) => Ok(numbers),
        Err(fault) => Err(fault),
    }
}

// Room for what a chain of so many bytes holds, in a store of so many pages: a longer chain does not end.
fn room_for(alloc: Global, usable: u32, count: u32, length: u64) -> Result<Vec<u8>, AllocError>
    requires { 480 ≤ usable }
    ensures { IfOk result (λ bytes. bytes.items ≡ []) }
{
    let pages = pages_for(usable, length).min(u64::from(count));
    Vec::with_capacity(alloc, (pages * (u64::from(usable) - 4)) as usize)
}

/// The bytes of an overflow chain, so many of them, in one pass over its pages. Refuses [45] with the page in which the first wrong number stands.
pub fn read_chain<S: PageRead>(
    alloc: Global,
    store: &mut S,
    first: u32,
    length: u64,
) -> Result<Vec<u8>, ChainFault<S::Fault>>
    requires { HasSizes S.PageRead store.old }
    ensures pages { Sees S.PageRead store.old store.new (λ m. ReadsOrWants (λ bytes. bytes.items) IsOther
        (OrFault (HoldsBytes m (S.size store.old) (S.usable store.old) (S.count store.old) first length)
        (BreaksAt m (S.size store.old) (S.usable store.old) (S.count store.old) first length)) result) }
    ensures owes { OwesBy S.PageRead fault_in store.old store.new result }
{
    let mut bytes = room_for(alloc, store.usable(), store.count(), length)?;
    match walk(alloc, store, first, length, &mut bytes) {
        Ok(()) => {
            bytes.truncate(length as usize);
            Ok(bytes)
        }
        Err(fault) => Err(fault),
    }
}
