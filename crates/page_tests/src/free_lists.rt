// Pages are taken from the freelist that SQLite wrote, and given back.

use crate::stores::{ensure, field, is_whole, put_page, store_of};
use byte_fields::put_u32;
use free_list::{FreeFault, allocate, release};
use page_store::{PageRead, PlainStore, is_in_range};
use std::alloc::{AllocError, Global};
use std::test::Fail;

// How many pages the database has, and how many of them are free.
const PAGES: u32 = 305;

const FREE: u32 = 261;

// A trunk, and the numbers of its leaf pages, each in two bytes.
struct Trunk {
    page: u32,
    next: u32,
    leaves: &'static [u8],
}

// The freelist of a database of 512-byte pages in which SQLite 3.40.1 deleted most rows, with long values, as a program apart from this one read it.
const TRUNKS: &[Trunk] = &[
    Trunk {
        page: 286,
        next: 143,
        leaves: b"\x01\x1d\x01\x20\x01\x1f\x01\x22\x01\x21\x01\x25\x01\x26\x01\x29\x01\x28\x01\x2b\x01\x2a\x01\x2d\x01\x2c\x01\x2f\x01\x2e\x01\x31\x01\x30\x01\x27",
    },
    Trunk {
        page: 143,
        next: 3,
        leaves: b"\x00\x92\x00\x91\x00\x94\x00\x93\x00\x98\x00\x99\x00\x9c\x00\x9b\x00\x9e\x00\x9d\x00\xa0\x00\x9f\x00\xa2\x00\xa1\x00\xa4\x00\xa3\x00\xa6\x00\xa7\x00\xaa\x00\xa9\x00\xac\x00\xab\x00\xae\x00\xad\x00\xb0\x00\xaf\x00\xb2\x00\xb1\x00\xb4\x00\xb5\x00\xb8\x00\xb7\x00\xba\x00\xb9\x00\xbc\x00\xbb\x00\xbe\x00\xbd\x00\xc0\x00\xbf\x00\xc2\x00\xc3\x00\xc6\x00\xc5\x00\xc8\x00\xc7\x00\xca\x00\xc9\x00\xcc\x00\xcb\x00\xce\x00\xcd\x00\xd0\x00\xd1\x00\xd4\x00\xd3\x00\xd6\x00\x95\x00\x96\x00\xd5\x00\xd8\x00\xd7\x00\xda\x00\xd9\x00\xdc\x00\xdb\x00\xde\x00\xdf\x00\xe2\x00\xe1\x00\xe4\x00\xe3\x00\xe6\x00\xe5\x00\xe8\x00\xe7\x00\xea\x00\xe9\x00\xec\x00\xed\x00\xf0\x00\xef\x00\xf2\x00\xf1\x00\xf4\x00\xf3\x00\xf6\x00\xf5\x00\xf8\x00\xf7\x00\xfa\x00\xfb\x00\xfe\x00\xfd\x01\x00\x00\xff\x01\x02\x01\x01\x01\x04\x01\x03\x01\x06\x01\x05\x01\x08\x01\x09\x01\x0c\x01\x0b\x01\x0e\x01\x0d\x01\x10\x01\x0f\x01\x12\x01\x11\x01\x14\x01\x13\x01\x16\x01\x17\x01\x1a\x01\x19\x01\x1c\x01\x1b",
    },
    Trunk {
        page: 3,
        next: 0,
        leaves: b"\x00\x08\x00\x04\x00\x0a\x00\x07\x00\x0c\x00\x0b\x00\x0e\x00\x0d\x00\x10\x00\x0f\x00\x12\x00\x11\x00\x14\x00\x13\x00\x16\x00\x15\x00\x18\x00\x19\x00\x1c\x00\x1b\x00\x1e\x00\x1d\x00\x20\x00\x1f\x00\x22\x00\x21\x00\x24\x00\x23\x00\x26\x00\x27\x00\x2a\x00\x29\x00\x2c\x00\x2b\x00\x2e\x00\x2d\x00\x30\x00\x2f\x00\x32\x00\x31\x00\x34\x00\x35\x00\x38\x00\x37\x00\x3a\x00\x39\x00\x3c\x00\x3b\x00\x3e\x00\x3d\x00\x40\x00\x3f\x00\x42\x00\x43\x00\x46\x00\x45\x00\x48\x00\x47\x00\x4a\x00\x49\x00\x4c\x00\x4b\x00\x4e\x01\x23\x00\x4d\x00\x50\x00\x51\x00\x54\x00\x53\x00\x56\x00\x55\x00\x58\x00\x57\x00\x5a\x00\x59\x00\x5c\x00\x5b\x00\x5e\x00\x5f\x00\x62\x00\x61\x00\x64\x00\x63\x00\x66\x00\x65\x00\x68\x00\x67\x00\x6a\x00\x69\x00\x6c\x00\x6d\x00\x70\x00\x6f\x00\x72\x00\x71\x00\x74\x00\x73\x00\x76\x00\x75\x00\x78\x00\x77\x00\x7a\x00\x7b\x00\x7e\x00\x7d\x00\x80\x00\x7f\x00\x82\x00\x81\x00\x84\x00\x83\x00\x86\x00\x85\x00\x88\x00\x89\x00\x8c\x00\x8b\x00\x8e\x00\x8d\x00\x90",
    },
];

// The pages of that database that are not free, each in two bytes.
const KEPT: &[u8] =
    b"\x00\x01\x00\x02\x00\x05\x00\x06\x00\x09\x00\x17\x00\x1a\x00\x25\x00\x28\x00\x33\x00\x36\x00\x41\x00\x44\x00\x4f\x00\x52\x00\x5d\x00\x60\x00\x6b\x00\x6e\x00\x79\x00\x7c\x00\x87\x00\x8a\x00\x97\x00\x9a\x00\xa5\x00\xa8\x00\xb3\x00\xb6\x00\xc1\x00\xc4\x00\xcf\x00\xd2\x00\xdd\x00\xe0\x00\xeb\x00\xee\x00\xf9\x00\xfc\x01\x07\x01\x0a\x01\x15\x01\x18\x01\x24";

// The page of a trunk.
fn trunk_page(trunk: &Trunk) -> [u8; 512] {
    let mut page = [0; 512];
    let size = trunk.leaves.len().min(240);
    put_u32(&mut page, 0, trunk.next);
    put_u32(&mut page, 4, (size / 2) as u32);
    for at in 0..size {
        page[10 + 4 * (at / 2) + at % 2] = trunk.leaves[at];
    }
    page
}

// That database, as far as its freelist goes.
fn sample(alloc: Global) -> Result<PlainStore, Fail> {
    let mut store = store_of(alloc, PAGES)?;
    let mut first = [0; 512];
    put_u32(&mut first, 28, PAGES);
    put_u32(&mut first, 32, 286);
    put_u32(&mut first, 36, FREE);
    put_page(&mut store, 1, &first)?;
    for trunk in TRUNKS {
        put_page(&mut store, trunk.page, &trunk_page(trunk))?;
    }
    Ok(store)
}

// Takes a page.
fn take(alloc: Global, store: &mut PlainStore, limit: u32) -> Result<u32, FreeFault<AllocError>> {
    if !is_whole(store) {
        return Err(FreeFault::TargetFull { pages: 0, limit: 0 });
    }
    allocate(alloc, store, limit)
}

// Gives a page back.
fn give(alloc: Global, store: &mut PlainStore, page: u32) -> Result<(), FreeFault<AllocError>> {
    if !is_whole(store) || !is_in_range(store.page_size(), store.count(), page) {
        return Err(FreeFault::TargetFull { pages: 0, limit: 0 });
    }
    release(alloc, store, page)
}

// Marks a page that was not marked.
fn mark(marks: &mut [bool; 306], page: usize) -> Result<(), Fail> {
    match marks.get_mut(page) {
        Some(marked) if !*marked => {
            *marked = true;
            Ok(())
        }
        _ => Err(Fail::new("a page twice")),
    }
}

// The pages that are not free, marked.
fn kept() -> Result<[bool; 306], Fail> {
    let mut marks = [false; 306];
    for number in KEPT.chunks(2) {
        if let [high, low] = number {
            mark(&mut marks, usize::from(*high) * 256 + usize::from(*low))?;
        }
    }
    Ok(marks)
}

// Takes as many pages as were free: they are all that are not kept, and then none is left.
fn take_all(alloc: Global, store: &mut PlainStore) -> Result<(), Fail> {
    let mut marks = kept()?;
    for _ in 0..FREE {
        let page = take(alloc, store, PAGES)?;
        mark(&mut marks, page as usize)?;
    }
    ensure(
        !marks[0] && marks[1..].iter().all(|marked| *marked),
        "all free pages",
    )?;
    ensure(
        field(store, 32)? == 0 && field(store, 36)? == 0,
        "no free page",
    )?;
    match take(alloc, store, PAGES) {
        Err(FreeFault::TargetFull { pages, limit }) => {
            ensure(pages == 305 && limit == 305, "full")
        }
        _ => Err(Fail::new("a page past the limit")),
    }
}

// Gives all pages back that are not kept.
fn give_all(alloc: Global, store: &mut PlainStore) -> Result<(), Fail> {
    let kept = kept()?;
    for page in 1..306u32 {
        if !kept[page as usize] {
            give(alloc, store, page)?;
        }
    }
    ensure(
        field(store, 36)? == FREE && field(store, 28)? == PAGES,
        "free pages",
    )
}

#[test]
fn free_pages_of_sqlite_are_taken_and_given_back(rt: HostRuntime) -> Result<(), Fail> {
    let alloc = rt.alloc();
    let mut store = sample(alloc)?;
    take_all(alloc, &mut store)?;
    give_all(alloc, &mut store)?;
    take_all(alloc, &mut store)
}

// A store of three pages whose page 1 names a trunk; page 2 has so many leaf pages and the first of them. What taking a page answers: the number of a refusal, or 0, and its fields or the page.
struct Row {
    trunk: u32,
    leaves: u32,
    leaf: u32,
    limit: u32,
    refusal: u32,
    field: u64,
    limit_told: u64,
}

const ROWS: &[Row] = &[
    Row {
        trunk: 0,
        leaves: 0,
        leaf: 0,
        limit: 3,
        refusal: 51,
        field: 3,
        limit_told: 3,
    },
    Row {
        trunk: 0,
        leaves: 0,
        leaf: 0,
        limit: 4,
        refusal: 0,
        field: 4,
        limit_told: 0,
    },
    Row {
        trunk: 4,
        leaves: 0,
        leaf: 0,
        limit: 9,
        refusal: 50,
        field: 1,
        limit_told: 0,
    },
    Row {
        trunk: 1,
        leaves: 0,
        leaf: 0,
        limit: 9,
        refusal: 50,
        field: 1,
        limit_told: 0,
    },
    Row {
        trunk: 2,
        leaves: 127,
        leaf: 3,
        limit: 9,
        refusal: 50,
        field: 2,
        limit_told: 0,
    },
    Row {
        trunk: 2,
        leaves: 1,
        leaf: 4,
        limit: 9,
        refusal: 50,
        field: 2,
        limit_told: 0,
    },
    Row {
        trunk: 2,
        leaves: 1,
        leaf: 3,
        limit: 3,
        refusal: 0,
        field: 3,
        limit_told: 0,
    },
    Row {
        trunk: 2,
        leaves: 0,
        leaf: 0,
        limit: 3,
        refusal: 0,
        field: 2,
        limit_told: 0,
    },
];

// The store of a row.
fn store_of_row(alloc: Global, row: &Row) -> Result<PlainStore, Fail> {
    let mut store = store_of(alloc, 3)?;
    let mut first = [0; 512];
    put_u32(&mut first, 28, 3);
    put_u32(&mut first, 32, row.trunk);
    put_u32(&mut first, 36, 1);
    put_page(&mut store, 1, &first)?;
    let mut trunk = [0; 512];
    put_u32(&mut trunk, 4, row.leaves);
    put_u32(&mut trunk, 8, row.leaf);
    put_page(&mut store, 2, &trunk)?;
    Ok(store)
}

fn is_answered(row: &Row, answer: Result<u32, FreeFault<AllocError>>) -> bool {
    match answer {
        Ok(page) => row.refusal == 0 && u64::from(page) == row.field,
        Err(FreeFault::TrunkDamaged { page }) => row.refusal == 50 && page == row.field,
        Err(FreeFault::TargetFull { pages, limit }) => {
            row.refusal == 51 && pages == row.field && limit == row.limit_told
        }
        Err(_) => false,
    }
}

#[test]
fn pages_are_taken_or_refused(rt: HostRuntime) -> Result<(), Fail> {
    let alloc = rt.alloc();
    for row in ROWS {
        let mut store = store_of_row(alloc, row)?;
        let answer = take(alloc, &mut store, row.limit);
        ensure(is_answered(row, answer), "a page or a refusal")?;
    }
    let mut store = store_of(alloc, 3)?;
    ensure(take(alloc, &mut store, 4)? == 4, "page 4")?;
    ensure(
        store.count() == 4 && field(&mut store, 28)? == 4,
        "the size",
    )
}
