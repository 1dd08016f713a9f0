// The rest of a payload is written over pages that are taken, and given back.

use crate::chains::bytes_of;
use crate::stores::{ensure, field, is_whole, put_page, store_of};
use byte_fields::put_u32;
use overflow_chain::read_chain;
use page_store::{PageRead, PlainStore};
use refusal::Rule;
use std::alloc::{AllocError, Global};
use std::test::Fail;
use tree_pages::{TreeFault, give_back, write_overflow};

// One page, which says that it is the only one.
fn first_alone(alloc: Global) -> Result<PlainStore, Fail> {
    let mut store = store_of(alloc, 1)?;
    let mut first = [0; 512];
    put_u32(&mut first, 28, 1);
    put_page(&mut store, 1, &first)?;
    Ok(store)
}

// Writes the bytes over at most four pages in all, and answers the first page.
fn write(
    alloc: Global,
    store: &mut PlainStore,
    bytes: &[u8],
) -> Result<u32, TreeFault<AllocError>> {
    if !is_whole(store) {
        return Err(TreeFault::TrunkDamaged { page: 0 });
    }
    write_overflow(alloc, store, bytes, 4)
}

// Gives a chain back.
fn give(
    alloc: Global,
    store: &mut PlainStore,
    first: u32,
    bytes: u64,
) -> Result<(), TreeFault<AllocError>> {
    if !is_whole(store) {
        return Err(TreeFault::TrunkDamaged { page: 0 });
    }
    give_back(alloc, store, first, bytes)
}

// Whether the chain holds these bytes.
fn holds(alloc: Global, store: &mut PlainStore, first: u32, bytes: &[u8]) -> Result<bool, Fail> {
    if !is_whole(store) {
        return Err(Fail::new("no store"));
    }
    let read = read_chain(alloc, store, first, bytes.len() as u64)?;
    Ok(read.as_slice() == bytes)
}

#[test]
fn overflow_takes_pages_up_to_the_limit(rt: HostRuntime) -> Result<(), Fail> {
    let alloc = rt.alloc();
    let mut store = first_alone(alloc)?;
    let bytes = bytes_of(alloc, 1017)?;
    let first = write(alloc, &mut store, bytes.as_slice())?;
    ensure(first == 4 && store.count() == 4, "pages 4, 3 and 2")?;
    ensure(
        holds(alloc, &mut store, first, bytes.as_slice())?,
        "the bytes",
    )?;
    let full = match write(alloc, &mut store, b"x") {
        Err(TreeFault::TargetFull { pages, limit }) => pages == 4 && limit == 4,
        _ => false,
    };
    ensure(full, "both numbers")?;
    give(alloc, &mut store, first, 1017)?;
    ensure(field(&mut store, 36)? == 3, "three free pages")?;
    let again = bytes_of(alloc, 1524)?;
    let first = write(alloc, &mut store, again.as_slice())?;
    ensure(
        store.count() == 4 && field(&mut store, 36)? == 0,
        "the free pages again",
    )?;
    ensure(
        holds(alloc, &mut store, first, again.as_slice())?,
        "the other bytes",
    )?;
    let damaged = match give(alloc, &mut store, first, 508) {
        Err(TreeFault::TreeDamaged { page, rule }) => {
            page == u64::from(first) && rule == Rule::Chain
        }
        _ => false,
    };
    ensure(damaged, "a chain that is longer")
}
