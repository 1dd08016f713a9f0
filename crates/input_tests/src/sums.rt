// The limits of all prepared rows together. A tree is shared by many tables, so that the pages stay few.

use crate::databases::{catalog_of, catalog_with, ensure, is_whole, named, put};
use crate::lines::{fault_line, push_number};
use database_spec::Catalog;
use page_store::{PageRead, PageWrite, PlainStore};
use rbu_input::{are_rooted, read_prepared};
use rbu_rows::{Batch, OwnedList};
use std::alloc::{AllocError, Global};
use std::rt::HostRuntime;
use std::test::Fail;

// The kind of a leaf of a table of so many cells, of which the first stands here, and the place of each, so many bytes behind the one before.
fn push_head(page: &mut Vec<u8>, count: u16, first: u16, step: u16) -> Result<(), AllocError> {
    page.extend_from_slice(b"\x0d\x00\x00")?;
    page.extend_from_slice(&count.to_be_bytes())?;
    page.extend_from_slice(&first.to_be_bytes())?;
    page.push(0)?;
    let mut place = first;
    for _ in 0..count {
        page.extend_from_slice(&place.to_be_bytes())?;
        place = place.wrapping_add(step);
    }
    Ok(())
}

// A row of 9 bytes, whose record of 6 bytes has NULL, its number as the key, and 0: an insert. Its rowid is its number and 128.
fn push_short_row(page: &mut Vec<u8>, number: u16) -> Result<(), AllocError> {
    let rowid = number.wrapping_add(128);
    page.push(6)?;
    page.push(0x80 | (rowid >> 7 & 0x7f) as u8)?;
    page.push((rowid & 0x7f) as u8)?;
    page.extend_from_slice(b"\x04\x00\x02\x08")?;
    page.extend_from_slice(&number.to_be_bytes())
}

// A leaf of 5000 rows, which fill it to its end.
fn full_leaf(alloc: Global) -> Result<Vec<u8>, AllocError> {
    let mut page = Vec::new(alloc);
    push_head(&mut page, 5000, 20536, 9)?;
    page.resize(20536, 0)?;
    for number in 0..5000 {
        push_short_row(&mut page, number)?;
    }
    Ok(page)
}

// A leaf of one row, whose record has a text of 1048571 bytes, the key 1, and 0. Its chain begins at page 3.
fn long_leaf(alloc: Global) -> Result<Vec<u8>, AllocError> {
    let mut page = Vec::new(alloc);
    push_head(&mut page, 1, 57329, 0)?;
    page.resize(57329, 0)?;
    page.extend_from_slice(b"\xc0\x80\x02\x01\x07\x81\x80\x80\x03\x09\x08")?;
    page.resize(65532, b'x')?;
    page.extend_from_slice(b"\x00\x00\x00\x03")?;
    Ok(page)
}

// Two pages, of which the second is a leaf of 5000 rows.
fn store_of_rows(alloc: Global) -> Result<PlainStore, Fail> {
    let mut store = PlainStore::new(alloc, 65536, 65536);
    store.set_count(2)?;
    let page = full_leaf(alloc)?;
    put(&mut store, 2, page.as_slice())?;
    Ok(store)
}

// The page of a chain that ends at page 18.
fn chain_page(alloc: Global, number: u32) -> Result<Vec<u8>, AllocError> {
    let next = if number == 18 {
        0
    } else {
        number.wrapping_add(1)
    };
    let mut page = Vec::new(alloc);
    page.extend_from_slice(&next.to_be_bytes())?;
    page.resize(65536, b'x')?;
    Ok(page)
}

// 18 pages, of which the second is a leaf of one row with a record of 1048576 bytes.
fn store_of_bytes(alloc: Global) -> Result<PlainStore, Fail> {
    let mut store = PlainStore::new(alloc, 65536, 65536);
    store.set_count(18)?;
    let page = long_leaf(alloc)?;
    put(&mut store, 2, page.as_slice())?;
    for number in 3..19 {
        let page = chain_page(alloc, number)?;
        put(&mut store, number, page.as_slice())?;
    }
    Ok(store)
}

// The name of a `data_` table of `q`.
fn source_name(alloc: Global, number: u16) -> Result<Vec<u8>, AllocError> {
    let mut name = Vec::new(alloc);
    name.extend_from_slice(b"data")?;
    push_number(&mut name, i64::from(number))?;
    name.extend_from_slice(b"_q")?;
    Ok(name)
}

// So many `data_` tables over one tree.
fn sources(alloc: Global, count: u16) -> Result<Catalog, AllocError> {
    let mut tables = Vec::new(alloc);
    for number in 0..count {
        let name = source_name(alloc, number)?;
        let sql = b"CREATE TABLE data_q(a, rbu_rowid, rbu_control)";
        tables.push(named(alloc, name.as_slice(), sql)?)?;
    }
    Ok(catalog_with(alloc, tables))
}

// The line of how many prepared rows there are.
fn count_line(alloc: Global, groups: &[OwnedList<Batch>]) -> Result<Vec<u8>, AllocError> {
    let mut count = 0i64;
    for group in groups {
        for batch in group.as_slice() {
            count = count.saturating_add_unsigned(batch.rows.as_slice().len() as u64);
        }
    }
    let mut line = Vec::new(alloc);
    push_number(&mut line, count)?;
    Ok(line)
}

// How many rows so many tables over the tree of a store prepare, or the refusal.
fn sum_line(alloc: Global, store: &mut PlainStore, count: u16) -> Result<Vec<u8>, Fail> {
    let rbu = sources(alloc, count)?;
    let target = catalog_of(alloc, b"q", b"", b"CREATE TABLE q(a)")?;
    if !is_whole(store) || !are_rooted(&rbu, store.count()) {
        return Err(Fail::new("no database"));
    }
    match read_prepared(alloc, store, &rbu, &target) {
        Ok(groups) => Ok(count_line(alloc, groups.as_slice())?),
        Err(fault) => Ok(fault_line(alloc, &fault)?),
    }
}

fn is_answered(
    alloc: Global,
    store: &mut PlainStore,
    count: u16,
    answer: &str,
) -> Result<bool, Fail> {
    let line = sum_line(alloc, store, count)?;
    Ok(line.as_slice() == answer.as_bytes())
}

#[test]
fn rows_have_a_limit(rt: HostRuntime) -> Result<(), Fail> {
    let alloc = rt.alloc();
    let mut store = store_of_rows(alloc)?;
    for (count, answer) in [(200, "1000000"), (201, "93 rows 1000001 1000000")] {
        ensure(is_answered(alloc, &mut store, count, answer)?, answer)?;
    }
    Ok(())
}

#[test]
fn bytes_have_a_limit(rt: HostRuntime) -> Result<(), Fail> {
    let alloc = rt.alloc();
    let mut store = store_of_bytes(alloc)?;
    for (count, answer) in [(256, "256"), (257, "93 bytes 269484032 268435456")] {
        ensure(is_answered(alloc, &mut store, count, answer)?, answer)?;
    }
    Ok(())
}
