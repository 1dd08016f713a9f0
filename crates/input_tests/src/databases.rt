// Databases of one table for the tests.
ghost use Rattle.std.specs.Prelude.{◌≤◌, IsTrue};
ghost use Rattle.page_store.specs.Store.{HasSizes};

use database_spec::{Catalog, Entry, NamedEntry};
use owned_list::OwnedList;
use page_store::{PageRead, PageWrite, PlainStore};
use rbu_value::Bytes;
use schema_spec::{Index, SqlFault};
use schema_sql::read_table;
use std::alloc::{AllocError, Global};
use std::test::Fail;

/// Fails by name where something does not hold.
pub fn ensure(holds: bool, what: &'static str) -> Result<(), Fail> {
    if holds { Ok(()) } else { Err(Fail::new(what)) }
}

/// Whether there is a page, and the sizes are those of a database.
pub fn is_whole(store: &PlainStore) -> bool
    ensures sizes { IsTrue result → HasSizes ⟦<PlainStore as PageRead>⟧ store.now }
    ensures some { IsTrue result → 1 ≤ ⟦<PlainStore as PageRead>⟧.count store.now }
{
    let size = store.page_size();
    let usable = store.usable();
    480 <= usable && usable <= size && size <= 65536 && 1 <= store.count()
}

// A leaf of a table, of 512 bytes, whose cells stand one after the other at its end: each the length of its record, its rowid, and its record.
fn leaf_of(cells: &[u8]) -> [u8; 512] {
    let mut page = [0; 512];
    let start = 512 - cells.len().min(400);
    for at in 0..cells.len().min(400) {
        page[start + at] = cells[at];
    }
    let mut count = 0;
    let mut place = start;
    for k in 0..40u8 {
        if place < 512 {
            let slot = 8 + 2 * usize::from(k);
            page[slot] = (place / 256) as u8;
            page[slot + 1] = (place % 256) as u8;
            count = k + 1;
            place += 2 + usize::from(page[place]) % 256;
        }
    }
    page[0] = 13;
    page[4] = count;
    page[5] = (start / 256) as u8;
    page[6] = (start % 256) as u8;
    page
}

/// Writes a page that is there.
pub fn put(store: &mut PlainStore, number: u32, page: &[u8]) -> Result<(), Fail> {
    if number < 1 || store.count() < number || store.page_size() as usize != page.len() {
        return Err(Fail::new("no such page"));
    }
    store.set_page(number, page)?;
    Ok(())
}

/// Two pages, of which the second is a leaf with these cells.
pub fn store_of(alloc: Global, cells: &[u8]) -> Result<PlainStore, Fail> {
    let mut store = PlainStore::new(alloc, 512, 512);
    store.set_count(2)?;
    put(&mut store, 2, &leaf_of(cells))?;
    Ok(store)
}

// The root of a table of two leaves, pages 3 and 4: no rowid of the first is above this one.
fn root_of(rowid: u8) -> [u8; 512] {
    let mut page = [0; 512];
    page[0] = 5;
    page[4] = 1;
    page[5] = 1;
    page[6] = 251;
    page[11] = 4;
    page[12] = 1;
    page[13] = 251;
    page[510] = 3;
    page[511] = rowid;
    page
}

/// A table at root 2 of two leaves with these cells, of which the first has no rowid above this one.
pub fn two_leaves(
    alloc: Global,
    rowid: u8,
    first: &[u8],
    second: &[u8],
) -> Result<PlainStore, Fail> {
    let mut store = PlainStore::new(alloc, 512, 512);
    store.set_count(4)?;
    put(&mut store, 2, &root_of(rowid))?;
    put(&mut store, 3, &leaf_of(first))?;
    put(&mut store, 4, &leaf_of(second))?;
    Ok(store)
}

/// A leaf at root 2 with these cells, and one at root 3.
pub fn two_tables(alloc: Global, first: &[u8], second: &[u8]) -> Result<PlainStore, Fail> {
    let mut store = PlainStore::new(alloc, 512, 512);
    store.set_count(3)?;
    put(&mut store, 2, &leaf_of(first))?;
    put(&mut store, 3, &leaf_of(second))?;
    Ok(store)
}

/// A table at a root, without indexes.
pub fn rooted(alloc: Global, root: u32, name: &[u8], sql: &[u8]) -> Result<NamedEntry, AllocError> {
    let indexes: Vec<(u32, Result<Index, SqlFault>)> = Vec::new(alloc);
    Ok(NamedEntry {
        name: Bytes::of(alloc, name)?,
        entry: Entry {
            root,
            meaning: read_table(alloc, sql),
            indexes: OwnedList::from_vec(indexes),
        },
    })
}

/// A table at root 2, without indexes.
pub fn named(alloc: Global, name: &[u8], sql: &[u8]) -> Result<NamedEntry, AllocError> {
    rooted(alloc, 2, name, sql)
}

/// The catalog of tables.
pub fn catalog_with(alloc: Global, tables: Vec<NamedEntry>) -> Catalog {
    Catalog {
        tables: OwnedList::from_vec(tables),
        roots: OwnedList::from_vec(Vec::new(alloc)),
    }
}

/// The catalog of a table at root 2, by one name and perhaps another.
pub fn catalog_of(
    alloc: Global,
    name: &[u8],
    other: &[u8],
    sql: &[u8],
) -> Result<Catalog, AllocError> {
    let mut tables = Vec::new(alloc);
    tables.push(named(alloc, name, sql)?)?;
    if !other.is_empty() {
        tables.push(named(alloc, other, sql)?)?;
    }
    Ok(catalog_with(alloc, tables))
}
