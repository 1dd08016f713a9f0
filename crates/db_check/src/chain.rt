// Goes through overflow chains (Database File Format, section 1.6).
ghost use Rattle.std.specs.Prelude.{◌≡◌, ◌+◌, length};
ghost use Rattle.page_store.specs.Store.{HasSizes, OwesBy, Sees};
ghost use Rattle.db_check.specs.Answers.{fault_in};
ghost use Rattle.db_check.specs.Passes.{PassesChain, PassesLink};

use crate::fault::CheckFault;
use crate::pages::{mark, read};
use byte_fields::u32_at;
use overflow_chain::pages_for;
use page_store::{PageRead, is_in_range};
use refusal::Rule;

// Goes through the page of a chain with a number, which stands in the last page before it, and answers the number that it names.
fn pass_link<S: PageRead>(
    store: &mut S,
    last: u32,
    number: u32,
    page: &mut [u8],
    flags: &mut [bool],
) -> Result<u32, CheckFault<S::Fault>>
    requires sizes { HasSizes S.PageRead store.old }
    requires whole { length page.old ≡ S.size store.old }
    requires flags { length flags.old ≡ S.count store.old + 1 }
    ensures flags { length flags.new ≡ length flags.old }
    ensures pages { Sees S.PageRead store.old store.new (PassesLink (S.size store.old) (S.count store.old) last number flags.old flags.new result) }
    ensures owes { OwesBy S.PageRead fault_in store.old store.new result }
{
    if !is_in_range(store.page_size(), store.count(), number) {
        return Err(CheckFault::Damaged {
            page: last,
            rule: Rule::Chain,
        });
    }
    read(store, number, page)?;
    if mark(flags, number) {
        return Err(CheckFault::PageTwice { page: number });
    }
    Ok(u32_at(page, 0))
}

/// Goes through the overflow chain of so many bytes, whose first number stands in the page of the holder, and sets the flag of each of its pages. Refuses 70 with a page whose flag is set before, and 74 with `chain` and the page in which a wrong number stands.
pub fn pass_chain<S: PageRead>(
    store: &mut S,
    holder: u32,
    first: u32,
    bytes: u64,
    page: &mut [u8],
    flags: &mut [bool],
) -> Result<(), CheckFault<S::Fault>>
    requires sizes { HasSizes S.PageRead store.old }
    requires whole { length page.old ≡ S.size store.old }
    requires flags { length flags.old ≡ S.count store.old + 1 }
    ensures flags { length flags.new ≡ length flags.old }
    ensures pages { Sees S.PageRead store.old store.new
        (PassesChain (S.size store.old) (S.usable store.old) (S.count store.old) holder first bytes flags.old flags.new result) }
    ensures owes { OwesBy S.PageRead fault_in store.old store.new result }
{
    let mut last = holder;
    let mut number = first;
    for _ in 0..pages_for(store.usable(), bytes) {
        let next = match pass_link(store, last, number, page, flags) {
            Ok(next) => next,
            Err(fault) => return Err(fault),
        };
        last = number;
        number = next;
    }
    if number != 0 {
        return Err(CheckFault::Damaged {
            page: last,
            rule: Rule::Chain,
        });
    }
    Ok(())
}
