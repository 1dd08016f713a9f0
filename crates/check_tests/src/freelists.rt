// Freelists, flags and chains of small databases, sound and damaged.

use crate::stores::{flagged, is_whole, put_page, set, store_of as pages_of};
use byte_fields::put_u32;
use db_check::{CheckFault, check_freelist, check_pages, page_flags, pass_chain};
use page_store::{PageRead, PlainStore};
use refusal::Rule;
use std::alloc::{AllocError, Global};
use std::test::Fail;

// A store of five pages of 512 bytes: page 1 names a trunk and counts free pages, and page 2 names the next trunk, counts leaf pages, and names two. What a check answers: the number of a refusal, or 0, and its page, or how many pages were found.
struct Row {
    trunk: u32,
    counted: u32,
    next: u32,
    leaves: u32,
    first: u32,
    second: u32,
    refusal: u32,
    page: u32,
}

const ROWS: &[Row] = &[
    Row {
        trunk: 0,
        counted: 0,
        next: 0,
        leaves: 0,
        first: 0,
        second: 0,
        refusal: 0,
        page: 0,
    },
    Row {
        trunk: 2,
        counted: 3,
        next: 0,
        leaves: 2,
        first: 3,
        second: 5,
        refusal: 0,
        page: 3,
    },
    Row {
        trunk: 2,
        counted: 4,
        next: 0,
        leaves: 2,
        first: 3,
        second: 5,
        refusal: 741,
        page: 1,
    },
    Row {
        trunk: 2,
        counted: 3,
        next: 0,
        leaves: 2,
        first: 3,
        second: 3,
        refusal: 70,
        page: 3,
    },
    Row {
        trunk: 2,
        counted: 3,
        next: 2,
        leaves: 1,
        first: 3,
        second: 0,
        refusal: 70,
        page: 2,
    },
    Row {
        trunk: 2,
        counted: 3,
        next: 0,
        leaves: 2,
        first: 3,
        second: 6,
        refusal: 74,
        page: 2,
    },
    Row {
        trunk: 2,
        counted: 2,
        next: 9,
        leaves: 1,
        first: 3,
        second: 0,
        refusal: 74,
        page: 2,
    },
    Row {
        trunk: 1,
        counted: 1,
        next: 0,
        leaves: 0,
        first: 0,
        second: 0,
        refusal: 74,
        page: 1,
    },
    Row {
        trunk: 2,
        counted: 128,
        next: 0,
        leaves: 127,
        first: 3,
        second: 4,
        refusal: 74,
        page: 2,
    },
];

// The store of a row.
fn store_of(alloc: Global, row: &Row) -> Result<PlainStore, Fail> {
    let mut store = pages_of(alloc, 5)?;
    let mut first = [0; 512];
    put_u32(&mut first, 32, row.trunk);
    put_u32(&mut first, 36, row.counted);
    put_page(&mut store, 1, &first)?;
    let mut trunk = [0; 512];
    put_u32(&mut trunk, 0, row.next);
    put_u32(&mut trunk, 4, row.leaves);
    put_u32(&mut trunk, 8, row.first);
    put_u32(&mut trunk, 12, row.second);
    put_page(&mut store, 2, &trunk)?;
    Ok(store)
}

fn check(
    alloc: Global,
    store: &mut PlainStore,
    flags: &mut [bool],
) -> Result<(), CheckFault<AllocError>> {
    if !is_whole(store) || flags.len() != store.count() as usize + 1 {
        return Err(CheckFault::PageLost { page: 0 });
    }
    check_freelist(alloc, store, flags)
}

// Whether the row tells this answer; where the freelist is sound, how many of its pages have flags.
fn is_answered(row: &Row, answer: Result<(), CheckFault<AllocError>>, flagged: u32) -> bool {
    match answer {
        Ok(()) => row.refusal == 0 && row.page == flagged,
        Err(CheckFault::PageTwice { page }) => row.refusal == 70 && row.page == page,
        Err(
            CheckFault::Damaged {
                page,
                rule: Rule::Trunk,
            },
        ) => row.refusal == 74 && row.page == page,
        Err(
            CheckFault::Damaged {
                page,
                rule: Rule::Count,
            },
        ) => row.refusal == 741 && row.page == page,
        Err(_) => false,
    }
}

fn answers(alloc: Global, row: &Row) -> Result<bool, Fail> {
    let mut store = store_of(alloc, row)?;
    let mut flags = page_flags(alloc, 5)?;
    let answer = check(alloc, &mut store, flags.as_mut_slice());
    Ok(is_answered(row, answer, flagged(flags.as_slice())))
}

#[test]
fn freelists_are_checked(rt: HostRuntime) -> Result<(), Fail> {
    let alloc = rt.alloc();
    for row in ROWS {
        if !answers(alloc, row)? {
            return Err(Fail::new("a freelist"));
        }
    }
    Ok(())
}

// The first of five pages that has no flag, or 0.
fn first_lost(flags: &[bool]) -> Option<u32> {
    if flags.len() != 6 {
        return None;
    }
    let answer: Result<(), CheckFault<AllocError>> = check_pages(512, 5, flags);
    match answer {
        Ok(()) => Some(0),
        Err(CheckFault::PageLost { page }) => Some(page),
        Err(_) => None,
    }
}

#[test]
fn lost_pages_are_told(rt: HostRuntime) -> Result<(), Fail> {
    let mut buffer = page_flags(rt.alloc(), 5)?;
    let flags = buffer.as_mut_slice();
    set(flags, &[1, 2, 3, 5]);
    let lost = first_lost(flags);
    set(flags, &[4]);
    if lost == Some(4) && first_lost(flags) == Some(0) {
        return Ok(());
    }
    Err(Fail::new("lost pages"))
}

// A store whose pages 3 and 5 are a chain of 600 bytes, behind which this number stands.
fn chain_of(alloc: Global, behind: u32) -> Result<PlainStore, Fail> {
    let mut store = pages_of(alloc, 5)?;
    let mut page = [0; 512];
    put_u32(&mut page, 0, 5);
    put_page(&mut store, 3, &page)?;
    put_u32(&mut page, 0, behind);
    put_page(&mut store, 5, &page)?;
    Ok(store)
}

// Goes through that chain: the page of a refusal, or 0.
fn pass(store: &mut PlainStore, flags: &mut [bool]) -> Option<u32> {
    if !is_whole(store) || flags.len() != store.count() as usize + 1 || store.page_size() != 512 {
        return None;
    }
    let mut page = [0; 512];
    match pass_chain(store, 2, 3, 600, &mut page, flags) {
        Ok(()) => Some(0),
        Err(
            CheckFault::Damaged {
                page,
                rule: Rule::Chain,
            },
        ) => Some(page),
        Err(_) => None,
    }
}

fn passes(alloc: Global, behind: u32, answer: u32) -> Result<bool, Fail> {
    let mut store = chain_of(alloc, behind)?;
    let mut flags = page_flags(alloc, 5)?;
    let told = pass(&mut store, flags.as_mut_slice());
    Ok(told == Some(answer) && flagged(flags.as_slice()) == 2)
}

#[test]
fn chains_are_gone_through(rt: HostRuntime) -> Result<(), Fail> {
    let alloc = rt.alloc();
    if passes(alloc, 0, 0)? && passes(alloc, 4, 5)? {
        return Ok(());
    }
    Err(Fail::new("a chain"))
}
