// Takes a page.
ghost use Rattle.std.specs.Prelude.{◌≡◌, ◌⊎◌, ◌+◌, ◌^◌, ◌<◌, ◌≤◌, IfErr, IfOk, IfSome, OnOk, Some, List, length, max};
ghost use Rattle.common_spec.specs.Reading.{OrFault, ReadsOrWants};
ghost use Rattle.common_spec.specs.Told.{Leads};
ghost use Rattle.page_spec.specs.Pages.{Pages, IsInRange};
ghost use Rattle.page_spec.specs.FreePages.{due_pages, page_past};
ghost use Rattle.page_spec.specs.Freelists.{IsFreelist, Trunk};
ghost use Rattle.page_store.specs.Store.{HasSizes, IsNumber, OwesBy};
ghost use Rattle.free_list.specs.Answers.{IsFull, IsNext, IsOther, IsTakeFault, RefusesNext, fault_in};
ghost use Rattle.free_list.specs.Steps.{ChangesFew, Takes};
ghost use Rattle.free_list.specs.Written.{Appends, StaysRefused, TakesFrom};

use crate::fault::FreeFault;
use crate::pages::{read, read_trunk, write, write_first};
use byte_fields::{put_u32, u32_at};
use page_store::{PageWrite, is_in_range, lock_byte_page, page_buffer};
use std::alloc::Global;

// The next page past the end that may be used.
fn next_past(size: u32, count: u32) -> u64
    requires { 0 < size }
    ensures { result ≡ page_past size count }
{
    let next = u64::from(count) + 1;
    if next == u64::from(lock_byte_page(size)) {
        next + 1
    } else {
        next
    }
}

// Takes the next page past the end, and writes page 1 with the new size. Refuses [51] where that page passes the limit.
fn append<S: PageWrite>(
    store: &mut S,
    first: &mut [u8],
    limit: u32,
) -> Result<u32, FreeFault<S::Fault>>
    requires sizes { HasSizes S.PageRead store.old }
    requires some { 1 ≤ S.count store.old }
    requires whole { length first.old ≡ S.size store.old }
    ensures next { IfOk result (λ page. (page ≡ page_past (S.size store.old) (S.count store.old)) × (page ≤ limit)) }
    ensures count { IfOk result (λ page. S.count store.new ≡ page) }
    ensures pages { IfOk result (λ page. Leads (Appends (S.count store.old) first.old page) (S.pages store.old) (S.pages store.new)) }
    ensures refuses { IfErr result (λ fault. IsOther fault ⊎ IsFull (S.size store.old) (S.count store.old) limit fault) }
    ensures stays { StaysRefused S.PageRead store.old store.new result }
    ensures owes { OwesBy S.PageRead fault_in store.old store.new result }
{
    let count = store.count();
    let next = next_past(store.page_size(), count);
    if next > u64::from(limit) {
        return Err(FreeFault::TargetFull {
            pages: u64::from(count),
            limit: u64::from(limit),
        });
    }
    let page = next as u32;
    put_u32(first, 28, page);
    if let Err(fault) = store.set_count(page) {
        return Err(FreeFault::Store(fault));
    }
    write(store, 1, first)?;
    Ok(page)
}

// Takes the page that the first trunk gives: its last leaf page, or itself where it has none. Refuses [50].
fn take<S: PageWrite>(
    store: &mut S,
    trunk: u32,
    first: &mut [u8],
    page: &mut [u8],
) -> Result<u32, FreeFault<S::Fault>>
    requires sizes { HasSizes S.PageRead store.old }
    requires some { 1 ≤ S.count store.old }
    requires whole_first { length first.old ≡ S.size store.old }
    requires whole { length page.old ≡ S.size store.old }
    ensures in_range { IfOk result (IsNumber S.PageRead store.old) }
    ensures count { OnOk result (S.count store.new ≡ S.count store.old) }
    ensures fits { OnOk result (S.count store.old < 2 ^ 32) }
    ensures pages { IfOk result (λ taken. Leads (TakesFrom (S.size store.old) (S.usable store.old) (S.count store.old) trunk first.old taken)
        (S.pages store.old) (S.pages store.new)) }
    ensures refuses { IfErr result (λ fault. IfSome (S.pages store.old) (λ m.
        IsOther fault ⊎ IsTakeFault m (S.size store.old) (S.usable store.old) (S.count store.old) trunk fault)) }
    ensures stays { StaysRefused S.PageRead store.old store.new result }
    ensures owes { OwesBy S.PageRead fault_in store.old store.new result }
{
    let leaves = read_trunk(store, trunk, page)?;
    let free = u32_at(first, 36).saturating_sub(1);
    if leaves == 0 {
        write_first(store, first, u32_at(page, 0), free)?;
        return Ok(trunk);
    }
    let leaf = u32_at(page, 4 + 4 * leaves as usize);
    if !is_in_range(store.page_size(), store.count(), leaf) {
        return Err(FreeFault::TrunkDamaged {
            page: u64::from(trunk),
        });
    }
    put_u32(page, 4, leaves - 1);
    write(store, trunk, page)?;
    write_first(store, first, trunk, free)?;
    Ok(leaf)
}

/// Takes a free page, or where there is none the next one past the end, which is not the lock-byte page, up to a limit. Its bytes are any. Refuses [50] where the first trunk, the number of its leaf pages, or the number that is taken is wrong, and [51] where the next page past the end would pass the limit.
///
/// The store has at least one page, and gets one more at most, but for the lock-byte page. After a fault of the store a part of the change may be written.
pub fn allocate<S: PageWrite>(
    alloc: Global,
    store: &mut S,
    limit: u32,
) -> Result<u32, FreeFault<S::Fault>>
    requires sizes { HasSizes S.PageRead store.old }
    requires some { 1 ≤ S.count store.old }
    ensures answer { (m : Pages) → S.pages store.old ≡ Some m → ReadsOrWants (λ page. page) IsOther
        (OrFault (IsNext m (S.size store.old) (S.usable store.old) (S.count store.old) limit)
        (RefusesNext m (S.size store.old) (S.usable store.old) (S.count store.old) limit)) result }
    ensures takes { (m : Pages) (trunks : List Trunk) → S.pages store.old ≡ Some m
        → IsFreelist m (S.size store.old) (S.usable store.old) (S.count store.old) trunks
        → IfOk result (λ page. Takes (S.size store.old) (S.usable store.old) limit (S.count store.old) m trunks page (S.pages store.new) (S.count store.new)) }
    ensures changes { (m : Pages) → S.pages store.old ≡ Some m → IfOk result (λ page. ChangesFew (S.count store.old) page m (S.pages store.new)) }
    ensures in_range { IfOk result (IsNumber S.PageRead store.new) }
    ensures count { OnOk result (S.count store.old ≤ S.count store.new) }
    ensures most { OnOk result (S.count store.new ≤ max limit (S.count store.old)) }
    ensures rises { OnOk result (due_pages (S.size store.old) (S.count store.new) ≤ due_pages (S.size store.old) (S.count store.old) + 1) }
    ensures stays { StaysRefused S.PageRead store.old store.new result }
    ensures owes { OwesBy S.PageRead fault_in store.old store.new result }
{
    let mut first_buffer = page_buffer(alloc, store.page_size())?;
    let mut trunk_buffer = page_buffer(alloc, store.page_size())?;
    let first = first_buffer.as_mut_slice();
    read(store, 1, first)?;
    let trunk = u32_at(first, 32);
    if trunk == 0 {
        append(store, first, limit)
    } else {
        take(store, trunk, first, trunk_buffer.as_mut_slice())
    }
}
