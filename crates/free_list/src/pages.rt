// Reads and writes the pages that the freelist has.
ghost use Rattle.std.specs.Prelude.{◌≡◌, ◌⊎◌, ◌^◌, ◌<◌, ◌≤◌, IfErr, IfOk, IfSome, OnOk, length};
ghost use Rattle.page_spec.specs.Pages.{with_page};
ghost use Rattle.page_spec.specs.Freelists.{leaf_count, trunk_limit as limit_of};
ghost use Rattle.page_store.specs.Store.{Goes, HasSizes, IsNumber, Looks, OwesBy};
ghost use Rattle.free_list.specs.Answers.{IsOther, IsTrunkFault, fault_in};
ghost use Rattle.free_list.specs.Written.{IsOfStore, with_freelist};

use crate::fault::FreeFault;
use byte_fields::{put_u32, u32_at};
use page_store::{PageRead, PageWrite, is_in_range};

/// The most leaf pages that a trunk names.
pub fn trunk_limit(usable: u32) -> u32
    requires { 480 ≤ usable }
    ensures { result ≡ limit_of usable }
{
    usable / 4 - 2
}

/// Fills the buffer with a page.
pub fn read<S: PageRead>(
    store: &mut S,
    number: u32,
    page: &mut [u8],
) -> Result<(), FreeFault<S::Fault>>
    requires first { 1 ≤ number }
    requires within { number ≤ S.count store.old }
    requires whole { length page.old ≡ S.size store.old }
    ensures pages { Looks S.PageRead store.old store.new result (λ _ m. page.new ≡ m number) }
    ensures store { IfErr result IsOfStore }
    ensures owes { OwesBy S.PageRead fault_in store.old store.new result }
{
    match store.page(number, page) {
        Ok(()) => Ok(()),
        Err(fault) => Err(FreeFault::Store(fault)),
    }
}

/// Writes a page.
pub fn write<S: PageWrite>(
    store: &mut S,
    number: u32,
    page: &[u8],
) -> Result<(), FreeFault<S::Fault>>
    requires first { 1 ≤ number }
    requires within { number ≤ S.count store.old }
    requires whole { length page.now ≡ S.size store.old }
    ensures pages { Goes S.PageRead store.old store.new result (λ m k. k ≡ with_page m number page.now) }
    ensures store { IfErr result IsOfStore }
    ensures owes { OwesBy S.PageRead fault_in store.old store.new result }
{
    match store.set_page(number, page) {
        Ok(()) => Ok(()),
        Err(fault) => Err(FreeFault::Store(fault)),
    }
}

/// Writes page 1 with this first trunk and so many free pages (Database File Format, section 1.3.8).
pub fn write_first<S: PageWrite>(
    store: &mut S,
    first: &mut [u8],
    trunk: u32,
    free: u32,
) -> Result<(), FreeFault<S::Fault>>
    requires sizes { HasSizes S.PageRead store.old }
    requires some { 1 ≤ S.count store.old }
    requires whole { length first.old ≡ S.size store.old }
    ensures pages { Goes S.PageRead store.old store.new result (λ m k. k ≡ with_page m 1 (with_freelist trunk free first.old)) }
    ensures store { IfErr result IsOfStore }
    ensures owes { OwesBy S.PageRead fault_in store.old store.new result }
{
    put_u32(first, 32, trunk);
    put_u32(first, 36, free);
    write(store, 1, first)
}

/// Fills the buffer with the first trunk page, and answers how many leaf pages it names. Refuses [50] with page 1 where its number is out of range, and with the trunk where that names too many.
pub fn read_trunk<S: PageRead>(
    store: &mut S,
    trunk: u32,
    page: &mut [u8],
) -> Result<u32, FreeFault<S::Fault>>
    requires sizes { HasSizes S.PageRead store.old }
    requires whole { length page.old ≡ S.size store.old }
    ensures in_range { OnOk result (IsNumber S.PageRead store.old trunk) }
    ensures fits { OnOk result (S.count store.old < 2 ^ 32) }
    ensures few { IfOk result (λ leaves. leaves ≤ limit_of (S.usable store.old)) }
    ensures pages { Looks S.PageRead store.old store.new result (λ leaves m. (page.new ≡ m trunk) × (leaves ≡ leaf_count (m trunk))) }
    ensures refuses { IfErr result (λ fault. IfSome (S.pages store.old) (λ m.
        IsOther fault ⊎ IsTrunkFault m (S.size store.old) (S.usable store.old) (S.count store.old) trunk fault)) }
    ensures owes { OwesBy S.PageRead fault_in store.old store.new result }
{
    if !is_in_range(store.page_size(), store.count(), trunk) {
        return Err(FreeFault::TrunkDamaged { page: 1 });
    }
    read(store, trunk, page)?;
    let leaves = u32_at(page, 4);
    if leaves > trunk_limit(store.usable()) {
        return Err(FreeFault::TrunkDamaged {
            page: u64::from(trunk),
        });
    }
    Ok(leaves)
}
