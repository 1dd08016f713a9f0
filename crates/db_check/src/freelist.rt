// Goes through the freelist (Database File Format, section 1.5).
ghost use Rattle.std.specs.Prelude.{◌≡◌, ◌+◌, ◌*◌, ◌<◌, ◌≤◌, [], ◌∷◌, IfErr, IfOk, List, None, length, map};
ghost use Rattle.std.specs.List.{range_with_len};
ghost use Rattle.page_spec.specs.Freelists.{trunk_limit as limit_of};
ghost use Rattle.page_store.specs.Store.{HasSizes, OwesBy, Sees};
ghost use Rattle.tree_spec.specs.Standing.{Sizes, Paged};
ghost use Rattle.database_spec.specs.FileFindings.{Found, leaf_found};
ghost use Rattle.db_check.specs.Answers.{fault_in};
ghost use Rattle.db_check.specs.Passes.{IsMarked, Passes, PassesFreelist, PassesTrunk, PassesTrunks};

use crate::fault::CheckFault;
use crate::pages::{mark, read};
use byte_fields::u32_at;
use page_store::{PageRead, is_in_range, page_buffer};
use refusal::Rule;
use std::alloc::Global;

// The most leaf pages that a trunk names.
fn trunk_limit(usable: u32) -> u32
    requires { 480 ≤ usable }
    ensures { result ≡ limit_of usable }
{
    usable / 4 - 2
}

// Goes through a leaf page that a trunk names.
fn pass_leaf<F>(
    page: &[u8],
    trunk: u32,
    at: u32,
    size: u32,
    count: u32,
    flags: &mut [bool],
) -> Result<(), CheckFault<F>>
    requires some { 0 < size }
    requires within { 8 + 4 * at + 4 ≤ length page.now }
    requires flags { length flags.old ≡ count + 1 }
    ensures flags { length flags.new ≡ length flags.old }
    ensures passes { (sizes : Sizes) (base : Paged) (before : List Found) → sizes.size ≡ size → base.count ≡ count → base.pages trunk ≡ page.now
        → IsMarked flags.old before → Passes before (leaf_found sizes base trunk at ∷ []) flags.new result }
    ensures cause { IfErr result (λ fault. fault_in fault ≡ None) }
{
    let leaf = u32_at(page, 8 + 4 * at as usize);
    if !is_in_range(size, count, leaf) {
        return Err(CheckFault::Damaged {
            page: trunk,
            rule: Rule::Trunk,
        });
    }
    if mark(flags, leaf) {
        return Err(CheckFault::PageTwice { page: leaf });
    }
    Ok(())
}

// Goes through the leaf pages that a trunk names.
fn pass_leaves<F>(
    page: &[u8],
    trunk: u32,
    leaves: u32,
    size: u32,
    count: u32,
    flags: &mut [bool],
) -> Result<(), CheckFault<F>>
    requires some { 0 < size }
    requires within { 8 + 4 * leaves ≤ length page.now }
    requires flags { length flags.old ≡ count + 1 }
    ensures flags { length flags.new ≡ length flags.old }
    ensures passes { (sizes : Sizes) (base : Paged) (before : List Found) → sizes.size ≡ size → base.count ≡ count → base.pages trunk ≡ page.now
        → IsMarked flags.old before → Passes before (map (leaf_found sizes base trunk) (range_with_len 0 leaves)) flags.new result }
    ensures cause { IfErr result (λ fault. fault_in fault ≡ None) }
{
    for at in 0..leaves {
        match pass_leaf(page, trunk, at, size, count, flags) {
            Ok(()) => (),
            Err(fault) => return Err(fault),
        }
    }
    Ok(())
}

// Goes through the trunk with a number, which stands in the page of the holder, and through its leaf pages. Answers how many these are, and leaves the trunk in the buffer.
fn pass_trunk<S: PageRead>(
    store: &mut S,
    holder: u32,
    number: u32,
    page: &mut [u8],
    flags: &mut [bool],
) -> Result<u32, CheckFault<S::Fault>>
    requires sizes { HasSizes S.PageRead store.old }
    requires whole { length page.old ≡ S.size store.old }
    requires flags { length flags.old ≡ S.count store.old + 1 }
    ensures few { IfOk result (λ leaves. leaves ≤ limit_of (S.usable store.old)) }
    ensures flags { length flags.new ≡ length flags.old }
    ensures pages { Sees S.PageRead store.old store.new
        (PassesTrunk (S.size store.old) (S.usable store.old) (S.count store.old) holder number flags.old flags.new page.new result) }
    ensures owes { OwesBy S.PageRead fault_in store.old store.new result }
{
    let size = store.page_size();
    let count = store.count();
    if !is_in_range(size, count, number) {
        return Err(CheckFault::Damaged {
            page: holder,
            rule: Rule::Trunk,
        });
    }
    read(store, number, page)?;
    if mark(flags, number) {
        return Err(CheckFault::PageTwice { page: number });
    }
    let leaves = u32_at(page, 4);
    if leaves > trunk_limit(store.usable()) {
        return Err(CheckFault::Damaged {
            page: number,
            rule: Rule::Trunk,
        });
    }
    match pass_leaves(page, number, leaves, size, count, flags) {
        Ok(()) => Ok(leaves),
        Err(fault) => Err(fault),
    }
}

// Goes through all trunks from the first number on, which stands in page 1, and answers how many free pages there are. A freelist with more trunks than pages has one of them twice.
fn pass_trunks<S: PageRead>(
    store: &mut S,
    first: u32,
    page: &mut [u8],
    flags: &mut [bool],
) -> Result<u64, CheckFault<S::Fault>>
    requires sizes { HasSizes S.PageRead store.old }
    requires whole { length page.old ≡ S.size store.old }
    requires flags { length flags.old ≡ S.count store.old + 1 }
    ensures flags { length flags.new ≡ length flags.old }
    ensures pages { Sees S.PageRead store.old store.new
        (PassesTrunks (S.size store.old) (S.usable store.old) (S.count store.old) first flags.old flags.new result) }
    ensures owes { OwesBy S.PageRead fault_in store.old store.new result }
{
    let mut holder = 1;
    let mut number = first;
    let mut free = 0;
    for _ in 0..u64::from(store.count()) + 1 {
        if number == 0 {
            return Ok(free);
        }
        let leaves = match pass_trunk(store, holder, number, page, flags) {
            Ok(leaves) => leaves,
            Err(fault) => return Err(fault),
        };
        free += 1 + u64::from(leaves);
        holder = number;
        number = u32_at(page, 0);
    }
    Ok(free)
}

/// Goes through the freelist, and sets the flag of each of its pages. Refuses 70 with a page whose flag is set before, and 74 with `trunk` and the page in which a wrong number of a trunk or of its leaf pages stands, and with `count` where page 1 counts another number of free pages (Database File Format, sections 1.3.8 and 1.5).
pub fn check_freelist<S: PageRead>(
    alloc: Global,
    store: &mut S,
    flags: &mut [bool],
) -> Result<(), CheckFault<S::Fault>>
    requires sizes { HasSizes S.PageRead store.old }
    requires some { 1 ≤ S.count store.old }
    requires flags { length flags.old ≡ S.count store.old + 1 }
    ensures flags { length flags.new ≡ length flags.old }
    ensures pages { Sees S.PageRead store.old store.new
        (PassesFreelist (S.size store.old) (S.usable store.old) (S.count store.old) flags.old flags.new result) }
    ensures owes { OwesBy S.PageRead fault_in store.old store.new result }
{
    let mut buffer = page_buffer(alloc, store.page_size())?;
    let page = buffer.as_mut_slice();
    read(store, 1, page)?;
    let first = u32_at(page, 32);
    let counted = u64::from(u32_at(page, 36));
    let free = match pass_trunks(store, first, page, flags) {
        Ok(free) => free,
        Err(fault) => return Err(fault),
    };
    if free != counted {
        return Err(CheckFault::Damaged {
            page: 1,
            rule: Rule::Count,
        });
    }
    Ok(())
}
