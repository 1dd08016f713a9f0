// Rows are put into tables.
ghost use Rattle.std.specs.Prelude.{◌≤◌};

use crate::chains::bytes_of;
use crate::stores::{ensure, field, is_whole, put_page, store_of};
use byte_fields::put_u32;
use page_store::{PageRead, PlainStore};
use std::alloc::{AllocError, Global};
use std::test::Fail;
use tree_table::{TreeFault, put};
use tree_walk::{Cursor, TreeKind};

/// Pages 1 and 2: the first says how many pages there are, the second is a leaf without cells.
pub fn empty_table(alloc: Global) -> Result<PlainStore, Fail> {
    let mut store = store_of(alloc, 2)?;
    let mut first = [0; 512];
    put_u32(&mut first, 28, 2);
    put_page(&mut store, 1, &first)?;
    let mut leaf = [0; 512];
    leaf[0] = 13;
    leaf[5] = 2;
    put_page(&mut store, 2, &leaf)?;
    Ok(store)
}

/// Puts a row of so many bytes into the table at a root.
pub fn put_row(
    alloc: Global,
    store: &mut PlainStore,
    root: u32,
    rowid: i64,
    size: u32,
    limit: u32,
) -> Result<(), TreeFault<AllocError>> {
    let payload = bytes_of(alloc, size)?;
    if !is_whole(store) || root < 1 || store.count() < root || payload.len() > 65536 {
        return Err(TreeFault::TrunkDamaged { page: 0 });
    }
    put(alloc, store, root, rowid, payload.as_slice(), limit)
}

// Stands at the first row of the table at a root.
fn first(
    alloc: Global,
    store: &mut PlainStore,
    root: u32,
) -> Result<Cursor, TreeFault<AllocError>> {
    if !is_whole(store) || root < 1 || store.count() < root {
        return Err(TreeFault::TrunkDamaged { page: 0 });
    }
    Cursor::first(alloc, store, root, TreeKind::Table)
}

// Whether a cursor stands at the row of a rowid, which has so many bytes.
fn stands_at(
    alloc: Global,
    store: &mut PlainStore,
    cursor: &Cursor,
    rowid: i64,
    size: u32,
) -> Result<bool, Fail> {
    let payload = bytes_of(alloc, size)?;
    if !is_whole(store) {
        return Err(Fail::new("no store"));
    }
    match cursor.row(alloc, store)? {
        Some(row) => Ok(row.rowid == rowid && row.payload.as_slice() == payload.as_slice()),
        None => Ok(false),
    }
}

// Moves to the next row.
fn next(alloc: Global, store: &mut PlainStore, cursor: &mut Cursor) -> Result<bool, Fail> {
    if !is_whole(store) {
        return Err(Fail::new("no store"));
    }
    Ok(cursor.next(alloc, store)?)
}

/// The order in which the rows of a test are put, or deleted.
#[derive(Clone, Copy)]
pub enum Order {
    Rising,
    Falling,
    Shuffled,
}

/// The rowid that is put at a place in an order.
pub fn rowid_at(order: Order, at: u32) -> u32
    requires { at ≤ 3000 }
    ensures { result ≤ 3001 }
{
    match order {
        Order::Rising => at,
        Order::Falling => 3001 - at,
        Order::Shuffled => at * 1237 % 3001,
    }
}

/// How many bytes the row of a rowid has.
pub fn size_of(order: Order, rowid: u32) -> u32
    requires { rowid ≤ 3001 }
{
    match order {
        Order::Rising | Order::Falling => 100,
        Order::Shuffled => rowid * 7919 % 3001,
    }
}

/// Puts the rows from 1 to 3000 into the table at root 2.
pub fn fill(
    alloc: Global,
    store: &mut PlainStore,
    order: Order,
) -> Result<(), TreeFault<AllocError>> {
    for at in 1..3001 {
        let rowid = rowid_at(order, at);
        put_row(
            alloc,
            store,
            2,
            i64::from(rowid),
            size_of(order, rowid),
            16777216,
        )?;
    }
    Ok(())
}

// Whether the table at root 2 has these rows in order, and no others.
fn is_filled(alloc: Global, store: &mut PlainStore, order: Order) -> Result<bool, Fail> {
    let mut cursor = first(alloc, store, 2)?;
    for rowid in 1..3001 {
        let size = size_of(order, rowid);
        if !stands_at(alloc, store, &cursor, i64::from(rowid), size)? {
            return Ok(false);
        }
        let moved = next(alloc, store, &mut cursor)?;
        if moved != (rowid < 3000) {
            return Ok(false);
        }
    }
    Ok(true)
}

// Fills a table, and tells how many pages it has then.
fn pages_filled(alloc: Global, order: Order) -> Result<u32, Fail> {
    let mut store = empty_table(alloc)?;
    fill(alloc, &mut store, order)?;
    ensure(is_filled(alloc, &mut store, order)?, "each row in order")?;
    ensure(field(&mut store, 28)? == store.count(), "the size in pages")?;
    ensure(field(&mut store, 36)? == 0, "no free page")?;
    Ok(store.count())
}

#[test]
fn rows_that_rise_leave_full_pages(rt: HostRuntime) -> Result<(), Fail> {
    let pages = pages_filled(rt.alloc(), Order::Rising)?;
    ensure(pages <= 2 + 750 + 14, "four rows a leaf")
}

#[test]
fn rows_that_fall_leave_half_pages(rt: HostRuntime) -> Result<(), Fail> {
    let pages = pages_filled(rt.alloc(), Order::Falling)?;
    ensure(pages <= 2 + 1500 + 60, "two rows a leaf at least")
}

#[test]
fn rows_of_any_size_are_put_in_any_order(rt: HostRuntime) -> Result<(), Fail> {
    let pages = pages_filled(rt.alloc(), Order::Shuffled)?;
    // 7535 overflow pages. Cells and places take 713633 bytes of leaves, which have 504 each: 2360 that are 60 % full, which 65 such pages lead to.
    ensure(
        pages <= 2 + 7535 + 2360 + 65,
        "leaves that are 60 % full on average",
    )
}

// Whether the table at a root has one row, of so many bytes.
fn has_only(alloc: Global, store: &mut PlainStore, rowid: i64, size: u32) -> Result<bool, Fail> {
    let mut cursor = first(alloc, store, 2)?;
    Ok(stands_at(alloc, store, &cursor, rowid, size)? && !next(alloc, store, &mut cursor)?)
}

#[test]
fn replaced_row_gives_its_chain_back(rt: HostRuntime) -> Result<(), Fail> {
    let alloc = rt.alloc();
    let mut store = empty_table(alloc)?;
    put_row(alloc, &mut store, 2, -7, 3000, 100)?;
    ensure(store.count() == 7, "five pages of 508 bytes")?;
    put_row(alloc, &mut store, 2, -7, 10, 100)?;
    ensure(field(&mut store, 36)? == 5, "the chain is free")?;
    ensure(has_only(alloc, &mut store, -7, 10)?, "the shorter row")?;
    put_row(alloc, &mut store, 2, -7, 2999, 7)?;
    ensure(
        store.count() == 7 && field(&mut store, 36)? == 0,
        "the free pages again",
    )?;
    ensure(has_only(alloc, &mut store, -7, 2999)?, "the longer row")
}

#[test]
fn put_at_the_limit_tells_both_numbers(rt: HostRuntime) -> Result<(), Fail> {
    let alloc = rt.alloc();
    let mut store = empty_table(alloc)?;
    for rowid in 1..5 {
        put_row(alloc, &mut store, 2, rowid, 100, 2)?;
    }
    let full = match put_row(alloc, &mut store, 2, 5, 100, 2) {
        Err(TreeFault::TargetFull { pages, limit }) => pages == 2 && limit == 2,
        _ => false,
    };
    ensure(full, "both numbers")
}

/// Page 1 as a leaf without cells, behind a header that is 7 but for the size and the freelist.
pub fn first_page_alone(alloc: Global) -> Result<PlainStore, Fail> {
    let mut store = store_of(alloc, 1)?;
    let mut page = [0; 512];
    for at in 0..100 {
        page[at] = 7;
    }
    put_u32(&mut page, 28, 1);
    put_u32(&mut page, 32, 0);
    put_u32(&mut page, 36, 0);
    page[100] = 13;
    page[105] = 2;
    put_page(&mut store, 1, &page)?;
    Ok(store)
}

/// Whether the header of page 1 is what it was, but for the size and the freelist.
pub fn keeps_header(store: &mut PlainStore) -> Result<bool, Fail> {
    for at in 0..25 {
        let word = field(store, 4 * at)?;
        if (at < 7 || 10 <= at) && word != 117901063 {
            return Ok(false);
        }
    }
    Ok(true)
}

#[test]
fn rows_are_put_into_page_1(rt: HostRuntime) -> Result<(), Fail> {
    let alloc = rt.alloc();
    let mut store = first_page_alone(alloc)?;
    for rowid in 1..301 {
        put_row(alloc, &mut store, 1, rowid, 100, 1000)?;
    }
    ensure(keeps_header(&mut store)?, "the header")?;
    ensure(field(&mut store, 28)? == store.count(), "the size in pages")?;
    let mut cursor = first(alloc, &mut store, 1)?;
    for rowid in 1..301 {
        ensure(
            stands_at(alloc, &mut store, &cursor, rowid, 100)?,
            "each row",
        )?;
        let moved = next(alloc, &mut store, &mut cursor)?;
        ensure(moved == (rowid < 300), "the last row is the last")?;
    }
    Ok(())
}
