// Rows are deleted from tables.
ghost use Rattle.std.specs.Prelude.{◌≤◌};

use crate::chains::bytes_of;
use crate::stores::{ensure, field, is_whole};
use crate::table_puts::{
    Order, empty_table, fill, first_page_alone, keeps_header, put_row, rowid_at, size_of,
};
use page_store::{PageRead, PlainStore};
use rbu_value::Bytes;
use std::alloc::{AllocError, Global};
use std::test::Fail;
use tree_table::{TreeFault, delete};

// Deletes a row from the table at a root.
fn delete_row(
    alloc: Global,
    store: &mut PlainStore,
    root: u32,
    rowid: i64,
) -> Result<Option<Bytes>, TreeFault<AllocError>> {
    if !is_whole(store) || root < 1 || store.count() < root {
        return Err(TreeFault::TrunkDamaged { page: 0 });
    }
    delete(alloc, store, root, rowid, 16777216)
}

// Whether the delete of a row answers its payload, which has so many bytes.
fn answers_payload(
    alloc: Global,
    store: &mut PlainStore,
    root: u32,
    rowid: u32,
    size: u32,
) -> Result<bool, Fail> {
    let payload = bytes_of(alloc, size)?;
    match delete_row(alloc, store, root, i64::from(rowid))? {
        Some(deleted) => Ok(deleted.as_slice() == payload.as_slice()),
        None => Ok(false),
    }
}

// A page of 512 bytes.
fn page_of(store: &mut PlainStore, number: u32) -> Result<[u8; 512], Fail> {
    if number < 1 || number > store.count() || store.page_size() != 512 {
        return Err(Fail::new("no such page"));
    }
    let mut page = [0; 512];
    store.page(number, &mut page)?;
    Ok(page)
}

// Whether a root is a leaf without cells, and all pages but the first so many are free.
fn is_empty_table(store: &mut PlainStore, root: u32, used: u32) -> Result<bool, Fail> {
    let page = page_of(store, root)?;
    let leaf = if root == 1 {
        page[100] == 13 && page[103] == 0 && page[104] == 0
    } else {
        page[0] == 13 && page[3] == 0 && page[4] == 0
    };
    let free = field(store, 36)?;
    Ok(leaf && u64::from(free) + u64::from(used) == u64::from(store.count()))
}

// Fills the table at root 2 in an order, and deletes its rows in that order.
fn all_are_deleted(alloc: Global, order: Order) -> Result<(), Fail> {
    let mut store = empty_table(alloc)?;
    fill(alloc, &mut store, order)?;
    for at in 1..3001 {
        let rowid = rowid_at(order, at);
        let size = size_of(order, rowid);
        ensure(
            answers_payload(alloc, &mut store, 2, rowid, size)?,
            "its payload",
        )?;
    }
    ensure(
        is_empty_table(&mut store, 2, 2)?,
        "a leaf without cells, and free pages",
    )
}

#[test]
fn rows_are_deleted_in_rising_order(rt: HostRuntime) -> Result<(), Fail> {
    all_are_deleted(rt.alloc(), Order::Rising)
}

#[test]
fn rows_are_deleted_in_falling_order(rt: HostRuntime) -> Result<(), Fail> {
    all_are_deleted(rt.alloc(), Order::Falling)
}

#[test]
fn rows_of_any_size_are_deleted_in_any_order(rt: HostRuntime) -> Result<(), Fail> {
    all_are_deleted(rt.alloc(), Order::Shuffled)
}

// The bytes of all pages, one behind the other.
fn all_bytes(alloc: Global, store: &mut PlainStore) -> Result<Vec<u8>, Fail> {
    let mut bytes = Vec::new(alloc);
    for number in 1..=store.count() {
        let page = page_of(store, number)?;
        bytes.extend_from_slice(&page)?;
    }
    Ok(bytes)
}

// An even rowid.
fn even(at: u32) -> i64
    requires { at ≤ 101 }
{
    i64::from(2 * at)
}

// The odd rowid behind it.
fn odd(at: u32) -> i64
    requires { at ≤ 101 }
{
    i64::from(2 * at + 1)
}

#[test]
fn delete_of_a_missing_row_changes_nothing(rt: HostRuntime) -> Result<(), Fail> {
    let alloc = rt.alloc();
    let mut store = empty_table(alloc)?;
    for at in 1..101 {
        put_row(alloc, &mut store, 2, even(at), 100, 1000)?;
    }
    let before = all_bytes(alloc, &mut store)?;
    for at in 0..101 {
        let deleted = delete_row(alloc, &mut store, 2, odd(at))?;
        ensure(deleted.is_none(), "no payload")?;
    }
    let after = all_bytes(alloc, &mut store)?;
    ensure(before.as_slice() == after.as_slice(), "the pages")
}

#[test]
fn rows_are_deleted_from_page_1(rt: HostRuntime) -> Result<(), Fail> {
    let alloc = rt.alloc();
    let mut store = first_page_alone(alloc)?;
    for rowid in 1..301 {
        put_row(alloc, &mut store, 1, rowid, 100, 1000)?;
    }
    for rowid in 1..301 {
        ensure(
            answers_payload(alloc, &mut store, 1, rowid, 100)?,
            "its payload",
        )?;
    }
    ensure(keeps_header(&mut store)?, "the header")?;
    ensure(
        is_empty_table(&mut store, 1, 1)?,
        "a leaf without cells, and free pages",
    )
}
