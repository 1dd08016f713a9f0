// The pages that a check reads, and those that it has found.
ghost use Rattle.std.specs.Prelude.{◌≡◌, ◌+◌, ◌<◌, ◌≤◌, ◌==◌, ◌&&◌, not, false, true, IfErr, IfOk, List, None, length, map, replicate, slice_index_or, slice_set};
ghost use Rattle.page_spec.specs.Pages.{lock_byte_page as lock_page};
ghost use Rattle.page_store.specs.Store.{Looks, OwesBy};
ghost use Rattle.tree_spec.specs.Standing.{Sizes, Paged};
ghost use Rattle.database_spec.specs.FileFindings.{Found, Needs, pages_needed};
ghost use Rattle.db_check.specs.Answers.{IsOther, fault_in};
ghost use Rattle.db_check.specs.Passes.{IsMarked, Passes};

use crate::fault::CheckFault;
use page_store::{PageRead, lock_byte_page};
use std::alloc::{AllocError, Global};

/// Fills the buffer with a page.
pub fn read<S: PageRead>(
    store: &mut S,
    number: u32,
    page: &mut [u8],
) -> Result<(), CheckFault<S::Fault>>
    requires first { 1 ≤ number }
    requires within { number ≤ S.count store.old }
    requires whole { length page.old ≡ S.size store.old }
    ensures pages { Looks S.PageRead store.old store.new result (λ _ m. page.new ≡ m number) }
    ensures store { IfErr result IsOther }
    ensures owes { OwesBy S.PageRead fault_in store.old store.new result }
{
    match store.page(number, page) {
        Ok(()) => Ok(()),
        Err(fault) => Err(CheckFault::Store(fault)),
    }
}

/// A flag for each page of a file of so many, by their numbers, none of which is set. That of number 0 stands for no page.
pub fn page_flags(alloc: Global, count: u32) -> Result<Vec<bool>, AllocError>
    ensures { IfOk result (λ flags. flags.items ≡ replicate (count + 1) false) }
{
    vec![in alloc; false; count as usize + 1]
}

/// Sets the flag of a page, and tells whether it was set before.
pub fn mark(flags: &mut [bool], page: u32) -> bool
    requires { page < length flags.old }
    ensures before { result ≡ slice_index_or flags.old page false }
    ensures now { flags.new ≡ slice_set flags.old page true }
{
    let before = flags[page as usize];
    flags[page as usize] = true;
    before
}

// Whether a page that has to stand somewhere was not found.
fn is_lost(size: u32, flags: &[bool], page: u32) -> bool
    requires some { 0 < size }
    requires within { page < length flags.now }
    ensures { result ≡ (not (page == lock_page size) && not (slice_index_or flags.now page false)) }
{
    page != lock_byte_page(size) && !flags[page as usize]
}

/// Whether each page was found that has to stand somewhere, which is each but the lock-byte page (Database File Format, section 1.5). Refuses 71 with the first that was not.
pub fn check_pages<F>(size: u32, count: u32, flags: &[bool]) -> Result<(), CheckFault<F>>
    requires some { 0 < size }
    requires flags { length flags.now ≡ count + 1 }
    ensures passes { (sizes : Sizes) (base : Paged) (before : List Found) → sizes.size ≡ size → base.count ≡ count
        → IsMarked flags.now before → Passes before (map Needs (pages_needed sizes base)) flags.now result }
    ensures cause { IfErr result (λ fault. fault_in fault ≡ None) }
{
    for at in 0..count {
        if is_lost(size, flags, at + 1) {
            return Err(CheckFault::PageLost { page: at + 1 });
        }
    }
    Ok(())
}
