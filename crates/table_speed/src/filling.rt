// Fills a table in memory, and empties it.
ghost use Rattle.std.specs.Prelude.{◌≤◌, IsTrue, length};
ghost use Rattle.page_store.specs.Store.{HasSizes};

use byte_fields::put_u32;
use page_store::{PageRead, PageWrite, PlainStore};
use std::alloc::{AllocError, Global};
use tree_table::{TreeFault, delete, put};

/// The order in which rows or entries are put.
#[derive(Clone, Copy)]
pub enum Order {
    /// The rowids or keys rise from 0.
    Rising,
    /// They are a permutation of some numbers of 32 bits.
    Scattered,
}

// A number of 32 bits that has no order with those of its neighbours; each comes of one number alone.
fn scattered(number: u32) -> u32 {
    let first = (number ^ (number >> 16)).wrapping_mul(0x85EB_CA6B);
    let second = (first ^ (first >> 13)).wrapping_mul(0xC2B2_AE35);
    second ^ (second >> 16)
}

/// The rowid of the row, or the key of the entry, that is put at a place.
pub fn rowid_at(order: Order, at: u32) -> i64 {
    match order {
        Order::Rising => i64::from(at),
        Order::Scattered => i64::from(scattered(at)),
    }
}

/// Whether there are two pages, of sizes that a database may have.
pub fn is_whole(store: &PlainStore) -> bool
    ensures sizes { IsTrue result → HasSizes ⟦<PlainStore as PageRead>⟧ store.now }
    ensures some { IsTrue result → 2 ≤ ⟦<PlainStore as PageRead>⟧.count store.now }
{
    let size = store.page_size();
    let usable = store.usable();
    480 <= usable && usable <= size && size <= 65536 && 2 <= store.count()
}

/// Page 1 with the number of pages, and page 2, which is a leaf without cells. The byte tells whether it is one of a table, 13, or of an index, 10 (Database File Format, section 1.6).
pub fn empty_tree(alloc: Global, kind: u8) -> Result<PlainStore, AllocError> {
    let mut store = PlainStore::new(alloc, 4096, 4096);
    store.set_count(2)?;
    let mut page = [0; 4096];
    put_u32(&mut page, 28, 2);
    store.set_page(1, &page)?;
    let mut leaf = [0; 4096];
    leaf[0] = kind;
    leaf[5] = 16;
    store.set_page(2, &leaf)?;
    Ok(store)
}

// Puts one row of 100 bytes.
fn put_row(
    alloc: Global,
    store: &mut PlainStore,
    rowid: i64,
    payload: &[u8; 100],
) -> Result<(), TreeFault<AllocError>> {
    if !is_whole(store) {
        return Err(TreeFault::TrunkDamaged { page: 0 });
    }
    put(alloc, store, 2, rowid, payload, 16777216)
}

// A table with so many rows.
fn fill(alloc: Global, order: Order, rows: u32) -> Result<PlainStore, TreeFault<AllocError>> {
    let mut store = empty_tree(alloc, 13)?;
    let payload = [7; 100];
    for at in 0..rows {
        put_row(alloc, &mut store, rowid_at(order, at), &payload)?;
    }
    Ok(store)
}

// Deletes one row, and answers whether it was there.
fn delete_row(
    alloc: Global,
    store: &mut PlainStore,
    rowid: i64,
) -> Result<bool, TreeFault<AllocError>> {
    if !is_whole(store) {
        return Err(TreeFault::TrunkDamaged { page: 0 });
    }
    match delete(alloc, store, 2, rowid, 16777216)? {
        Some(_) => Ok(true),
        None => Ok(false),
    }
}

/// Puts so many rows into an empty table, and answers how many pages there are then.
pub fn filled(alloc: Global, order: Order, rows: u32) -> Result<u32, TreeFault<AllocError>> {
    let store = fill(alloc, order, rows)?;
    Ok(store.count())
}

/// Puts so many rows into an empty table whose rowids have no order, deletes them again, and answers how many were there.
pub fn emptied(alloc: Global, rows: u32) -> Result<u32, TreeFault<AllocError>> {
    let mut store = fill(alloc, Order::Scattered, rows)?;
    let mut gone = 0u32;
    for at in 0..rows {
        if delete_row(alloc, &mut store, rowid_at(Order::Scattered, at))? {
            gone = gone.saturating_add(1);
        }
    }
    Ok(gone)
}
