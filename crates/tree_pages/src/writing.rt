// Writes overflow chains over pages that are taken.
ghost use Rattle.std.specs.Prelude.{◌≡◌, ◌+◌, ◌≤◌, IfErr, IfOk, OnOk, length, max};
ghost use Rattle.page_spec.specs.Chains.{pages_for as chain_pages};
ghost use Rattle.page_spec.specs.Pages.{with_page};
ghost use Rattle.page_spec.specs.WrittenChains.{overflow_page};
ghost use Rattle.page_store.specs.Store.{Goes, HasSizes, IsNumber, OwesBy};
ghost use Rattle.tree_spec.specs.Faults.{IsOther, fault_in};
ghost use Rattle.tree_pages.specs.Takes.{RefusesShort, RisesBy};
ghost use Rattle.tree_pages.specs.Writers.{Becomes, WritesOverflow, sizes_of};

use crate::taking::take_page;
use overflow_chain::{fill, pages_for};
use page_store::{PageWrite, page_buffer};
use std::alloc::Global;
use tree_spec::TreeFault;

// Writes one page of a chain, through room for a page.
fn write_page<S: PageWrite>(
    store: &mut S,
    number: u32,
    next: u32,
    content: &[u8],
    page: &mut [u8],
) -> Result<(), TreeFault<S::Fault>>
    requires number { IsNumber S.PageRead store.old number }
    requires whole { length page.old ≡ S.size store.old }
    requires room { 4 + length content.now ≤ S.size store.old }
    ensures pages { Goes S.PageRead store.old store.new result (λ m k. k ≡ with_page m number (overflow_page (S.size store.old) next content.now)) }
    ensures other { IfErr result IsOther }
    ensures owes { OwesBy S.PageRead fault_in store.old store.new result }
{
    fill(page, next, content);
    match store.set_page(number, page) {
        Ok(()) => Ok(()),
        Err(fault) => Err(TreeFault::Store(fault)),
    }
}

// Where a part of the bytes ends that begins at a place and fills one page.
fn end_of(bytes: &[u8], start: usize, content: usize) -> usize
    requires { start ≤ length bytes.now }
    ensures within { result ≤ length bytes.now }
    ensures behind { start ≤ result }
    ensures fits { result ≤ start + content }
    ensures full { (start + content ≤ length bytes.now → result ≡ start + content) }
    ensures last { (length bytes.now ≤ start + content → result ≡ length bytes.now) }
{
    if bytes.len() - start <= content {
        bytes.len()
    } else {
        start + content
    }
}

/// Writes the bytes as an overflow chain over pages that it takes, and answers the first of them; 0 where there are no bytes. The last page is taken first, so that each is written once, with the number of the next, and no list of pages is kept.
///
/// The store has at least one page. Refuses [51] and [50]. After a fault a part of the chain may be written.
pub fn write_overflow<S: PageWrite>(
    alloc: Global,
    store: &mut S,
    bytes: &[u8],
    limit: u32,
) -> Result<u32, TreeFault<S::Fault>>
    requires sizes { HasSizes S.PageRead store.old }
    requires some { 1 ≤ S.count store.old }
    ensures written { IfOk result (λ first. Becomes S.PageRead store.old store.new (WritesOverflow (sizes_of S.PageRead store.old) first bytes.now)) }
    ensures none { length bytes.now ≡ 0 → IfOk result (λ first. first ≡ 0) }
    ensures count { OnOk result (S.count store.old ≤ S.count store.new) }
    ensures most { OnOk result (S.count store.new ≤ max limit (S.count store.old)) }
    ensures rises { OnOk result (RisesBy S.PageRead (chain_pages (S.usable store.old) (length bytes.now)) store.old store.new) }
    ensures refuses { RefusesShort S.PageRead (chain_pages (S.usable store.old) (length bytes.now)) limit store.old store.new result }
    ensures owes { OwesBy S.PageRead fault_in store.old store.new result }
{
    if bytes.is_empty() {
        return Ok(0);
    }
    let mut buffer = page_buffer(alloc, store.page_size())?;
    let page = buffer.as_mut_slice();
    let content = store.usable() as usize - 4;
    let mut next = 0;
    let mut left = pages_for(store.usable(), bytes.len() as u64);
    while left > 0 {
        left -= 1;
        let start = left as usize * content;
        let end = end_of(bytes, start, content);
        let number = take_page(alloc, store, limit)?;
        write_page(store, number, next, &bytes[start..end], page)?;
        next = number;
    }
    Ok(next)
}
