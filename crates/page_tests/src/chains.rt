// A long chain is written, and read again.
ghost use Rattle.std.specs.Prelude.{◌≡◌, ◌+◌, ◌==◌, ◌≤◌, ◌<◌, IfOk, length};
ghost use Rattle.std.specs.List.{All, IsDistinct};

use crate::stores::{ensure, is_whole, store_of};
use overflow_chain::{ChainFault, chain_pages, pages_for, read_chain, write_chain};
use page_store::{PageRead, PlainStore, lock_byte_page};
use std::alloc::{AllocError, Global};
use std::test::Fail;

// The numbers from 2 to the last.
fn numbers(alloc: Global, last: u32) -> Result<Vec<u32>, AllocError>
    requires some { 1 ≤ last }
    requires few { last < 65536 }
    ensures differ { IfOk result (λ pages. IsDistinct (λ x y. x == y) pages.items) }
    ensures within { IfOk result (λ pages. All (λ n. (2 ≤ n) × (n ≤ last)) pages.items) }
{
    let mut pages = Vec::new(alloc);
    for number in 2..last + 1 {
        pages.push(number)?;
    }
    Ok(pages)
}

/// So many bytes, which repeat after 251 of them.
pub fn bytes_of(alloc: Global, size: u32) -> Result<Vec<u8>, AllocError> {
    let mut bytes = Vec::new(alloc);
    for at in 0..size {
        bytes.push((at % 251) as u8)?;
    }
    Ok(bytes)
}

// Writes a chain over all pages from 2 on, in order.
fn write(alloc: Global, store: &mut PlainStore, bytes: &[u8]) -> Result<Vec<u32>, Fail> {
    let last = store.count();
    if !is_whole(store) || last >= 65536 {
        return Err(Fail::new("no store"));
    }
    let pages = numbers(alloc, last)?;
    if pages_for(store.usable(), bytes.len() as u64) != pages.len() as u64 {
        return Err(Fail::new("not so many pages"));
    }
    write_chain(store, pages.as_slice(), bytes)?;
    Ok(pages)
}

// The page that is told of a chain of so many bytes that does not end, or 0.
fn broken_page(alloc: Global, store: &mut PlainStore, first: u32, size: u64) -> u64 {
    if !is_whole(store) {
        return 0;
    }
    match read_chain(alloc, store, first, size) {
        Err(ChainFault::ChainBroken { page }) => page,
        _ => 0,
    }
}

#[test]
fn long_chain_is_written_and_read(rt: HostRuntime) -> Result<(), Fail> {
    let alloc = rt.alloc();
    let mut store = store_of(alloc, 2065)?;
    let bytes = bytes_of(alloc, 1048512)?;
    let pages = write(alloc, &mut store, bytes.as_slice())?;
    ensure(pages.len() == 2064, "2064 pages")?;
    if !is_whole(&store) {
        return Err(Fail::new("no store"));
    }
    let read = read_chain(alloc, &mut store, 2, 1048512)?;
    ensure(read.as_slice() == bytes.as_slice(), "the bytes")?;
    if !is_whole(&store) {
        return Err(Fail::new("no store"));
    }
    let walked = chain_pages(alloc, &mut store, 2, 1048512)?;
    ensure(walked.as_slice() == pages.as_slice(), "the pages")
}

#[test]
fn chains_of_another_length_are_broken(rt: HostRuntime) -> Result<(), Fail> {
    let alloc = rt.alloc();
    let mut store = store_of(alloc, 4)?;
    let bytes = bytes_of(alloc, 1017)?;
    let _pages = write(alloc, &mut store, bytes.as_slice())?;
    ensure(
        broken_page(alloc, &mut store, 2, 1525) == 4,
        "one page more",
    )?;
    ensure(
        broken_page(alloc, &mut store, 2, 1016) == 3,
        "one page less",
    )?;
    ensure(
        broken_page(alloc, &mut store, 5, 1017) == 5,
        "first past the end",
    )?;
    ensure(
        broken_page(alloc, &mut store, 2, 0) == 2,
        "no bytes, but a page",
    )?;
    ensure(
        lock_byte_page(65536) == 16385 && lock_byte_page(512) == 2097153,
        "the lock-byte page",
    )
}
