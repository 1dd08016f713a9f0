// Cursors over a table's and an index's tree of three levels, and over trees that are damaged.

use crate::stores::{ensure, is_whole, put_page, store_of};
use page_store::{PageRead, PlainStore};
use refusal::Rule;
use std::alloc::{AllocError, Global};
use std::test::Fail;
use tree_rows::{next_row, table_rows};
use tree_walk::{Cursor, Row, TreeFault, TreeKind};

// The rowids of the table. Its interior pages have 20, 45, 60 and 80: SQLite leaves 45 where it was greatest and its row is deleted.
const ROWIDS: [u8; 10] = [10, 20, 30, 40, 50, 60, 70, 80, 90, 100];

// A page of 512 bytes that begins and ends with these, with zeros between them.
fn page_of(front: &[u8], back: &[u8]) -> [u8; 512] {
    let mut page = [0; 512];
    for at in 0..front.len().min(512) {
        page[at] = front[at];
    }
    for at in 0..back.len().min(512) {
        page[511 - at] = back[back.len() - 1 - at];
    }
    page
}

// A leaf with two rows, each with its rowid as the value behind it.
fn leaf(first: u8, second: u8) -> [u8; 512] {
    page_of(
        b"\x0d\x00\x00\x00\x02\x01\xf4\x00\x01\xf4\x01\xfa",
        &[4, first, 3, 0, 1, first, 4, second, 3, 0, 1, second],
    )
}

// An interior page with one cell.
fn interior(child: u8, rowid: u8, right: u8) -> [u8; 512] {
    page_of(
        &[5, 0, 0, 0, 1, 1, 251, 0, 0, 0, 0, right, 1, 251],
        &[0, 0, 0, child, rowid],
    )
}

// A table at root 2, in three levels.
fn table(alloc: Global) -> Result<PlainStore, Fail> {
    let mut store = store_of(alloc, 9)?;
    put_page(&mut store, 2, &interior(3, 60, 4))?;
    let three = page_of(
        b"\x05\x00\x00\x00\x02\x01\xf6\x00\x00\x00\x00\x07\x01\xf6\x01\xfb",
        b"\x00\x00\x00\x05\x14\x00\x00\x00\x06\x2d",
    );
    put_page(&mut store, 3, &three)?;
    put_page(&mut store, 4, &interior(8, 80, 9))?;
    for at in 0..5 {
        let rowid = 10 + 20 * at;
        put_page(&mut store, 5 + u32::from(at), &leaf(rowid, rowid + 10))?;
    }
    Ok(store)
}

// An index's leaf with two entries, each of one value.
fn index_leaf(first: u8, second: u8) -> [u8; 512] {
    page_of(
        b"\x0a\x00\x00\x00\x02\x01\xf8\x00\x01\xf8\x01\xfc",
        &[3, 2, 1, first, 3, 2, 1, second],
    )
}

// An index's interior page with one entry.
fn index_interior(child: u8, value: u8, right: u8) -> [u8; 512] {
    page_of(
        &[2, 0, 0, 0, 1, 1, 248, 0, 0, 0, 0, right, 1, 248],
        &[0, 0, 0, child, 3, 2, 1, value],
    )
}

// An index at root 2, in three levels: its entries are 1 to 14, of which 3, 6, 9 and 12 stand in interior pages.
fn index(alloc: Global) -> Result<PlainStore, Fail> {
    let mut store = store_of(alloc, 9)?;
    put_page(&mut store, 2, &index_interior(3, 9, 4))?;
    let three = page_of(
        b"\x02\x00\x00\x00\x02\x01\xf0\x00\x00\x00\x00\x07\x01\xf0\x01\xf8",
        b"\x00\x00\x00\x05\x03\x02\x01\x03\x00\x00\x00\x06\x03\x02\x01\x06",
    );
    put_page(&mut store, 3, &three)?;
    put_page(&mut store, 4, &index_interior(8, 12, 9))?;
    for at in 0..5 {
        let value = 1 + 3 * at;
        put_page(&mut store, 5 + u32::from(at), &index_leaf(value, value + 1))?;
    }
    Ok(store)
}

// Stands at the first member of the tree of a kind at root 2.
fn first(
    alloc: Global,
    store: &mut PlainStore,
    kind: TreeKind,
) -> Result<Cursor, TreeFault<AllocError>> {
    if !is_whole(store) || store.count() < 2 {
        return Err(TreeFault::TrunkDamaged { page: 0 });
    }
    Cursor::first(alloc, store, 2, kind)
}

// Stands at the first row of that table whose rowid is not less.
fn seek(
    alloc: Global,
    store: &mut PlainStore,
    rowid: i64,
) -> Result<Cursor, TreeFault<AllocError>> {
    if !is_whole(store) || store.count() < 2 {
        return Err(TreeFault::TrunkDamaged { page: 0 });
    }
    Cursor::seek(alloc, store, 2, rowid)
}

// Moves to the next row.
fn next(
    alloc: Global,
    store: &mut PlainStore,
    cursor: &mut Cursor,
) -> Result<bool, TreeFault<AllocError>> {
    if !is_whole(store) {
        return Err(TreeFault::TrunkDamaged { page: 0 });
    }
    cursor.next(alloc, store)
}

// The row at which a cursor stands.
fn row(
    alloc: Global,
    store: &mut PlainStore,
    cursor: &Cursor,
) -> Result<Option<Row>, TreeFault<AllocError>> {
    if !is_whole(store) {
        return Err(TreeFault::TrunkDamaged { page: 0 });
    }
    cursor.row(alloc, store)
}

// Whether a cursor stands at the row of this rowid.
fn stands_at(
    alloc: Global,
    store: &mut PlainStore,
    cursor: &Cursor,
    rowid: u8,
) -> Result<bool, Fail> {
    match row(alloc, store, cursor)? {
        Some(row) => Ok(
            row.rowid == i64::from(rowid) && row.payload.as_slice() == [3, 0, 1, rowid].as_slice(),
        ),
        None => Ok(false),
    }
}

// Whether a cursor stands at the entry of this value, which has no rowid.
fn stands_at_entry(
    alloc: Global,
    store: &mut PlainStore,
    cursor: &Cursor,
    value: u8,
) -> Result<bool, Fail> {
    match row(alloc, store, cursor)? {
        Some(row) => Ok(row.rowid == 0 && row.payload.as_slice() == [2, 1, value].as_slice()),
        None => Ok(false),
    }
}

// Whether a cursor that was sought stands at the row of this rowid.
fn finds(alloc: Global, store: &mut PlainStore, sought: i64, rowid: u8) -> Result<bool, Fail> {
    let cursor = seek(alloc, store, sought)?;
    stands_at(alloc, store, &cursor, rowid)
}

// Whether no row is at a rowid or above it.
fn finds_none(alloc: Global, store: &mut PlainStore, sought: i64) -> Result<bool, Fail> {
    let cursor = seek(alloc, store, sought)?;
    Ok(row(alloc, store, &cursor)?.is_none())
}

#[test]
fn rows_of_three_levels_come_in_order(rt: HostRuntime) -> Result<(), Fail> {
    let alloc = rt.alloc();
    let mut store = table(alloc)?;
    let mut cursor = first(alloc, &mut store, TreeKind::Table)?;
    for rowid in ROWIDS {
        ensure(
            stands_at(alloc, &mut store, &cursor, rowid)?,
            "each row in order",
        )?;
        let moved = next(alloc, &mut store, &mut cursor)?;
        ensure(moved == (rowid < 100), "the last row is the last")?;
    }
    ensure(row(alloc, &mut store, &cursor)?.is_none(), "past the last")
}

#[test]
fn entries_of_three_levels_come_in_order(rt: HostRuntime) -> Result<(), Fail> {
    let alloc = rt.alloc();
    let mut store = index(alloc)?;
    let mut cursor = first(alloc, &mut store, TreeKind::Index)?;
    for value in 1..15u8 {
        ensure(
            stands_at_entry(alloc, &mut store, &cursor, value)?,
            "each entry once, in order",
        )?;
        let moved = next(alloc, &mut store, &mut cursor)?;
        ensure(moved == (value < 14), "the last entry is the last")?;
    }
    ensure(row(alloc, &mut store, &cursor)?.is_none(), "past the last")
}

#[test]
fn rowids_are_sought_in_three_levels(rt: HostRuntime) -> Result<(), Fail> {
    let alloc = rt.alloc();
    let mut store = table(alloc)?;
    for rowid in ROWIDS {
        let sought = i64::from(rowid);
        ensure(finds(alloc, &mut store, sought - 1, rowid)?, "one below")?;
        ensure(finds(alloc, &mut store, sought, rowid)?, "each rowid")?;
        let above = if rowid < 100 {
            finds(alloc, &mut store, sought + 1, rowid + 10)?
        } else {
            finds_none(alloc, &mut store, sought + 1)?
        };
        ensure(above, "one above")?;
    }
    ensure(finds(alloc, &mut store, 45, 50)?, "a divider is no row")?;
    ensure(finds(alloc, &mut store, i64::MIN, 10)?, "the least")?;
    ensure(finds_none(alloc, &mut store, i64::MAX)?, "past the end")
}

// Whether a fault is refusal 55 with this page and rule.
fn is_damage<T: Drop>(answer: Result<T, TreeFault<AllocError>>, wrong: u64, broken: Rule) -> bool {
    match answer {
        Err(TreeFault::TreeDamaged { page, rule }) => page == wrong && rule == broken,
        _ => false,
    }
}

#[test]
fn page_that_stands_twice_breaks_the_order(rt: HostRuntime) -> Result<(), Fail> {
    let alloc = rt.alloc();
    let mut store = store_of(alloc, 4)?;
    put_page(&mut store, 2, &interior(4, 10, 4))?;
    put_page(&mut store, 4, &leaf(1, 2))?;
    let mut cursor = first(alloc, &mut store, TreeKind::Table)?;
    ensure(next(alloc, &mut store, &mut cursor)?, "the second row")?;
    ensure(stands_at(alloc, &mut store, &cursor, 2)?, "its rowid")?;
    let third = next(alloc, &mut store, &mut cursor);
    ensure(is_damage(third, 4, Rule::Cells), "page 4 again")
}

#[test]
fn page_below_itself_is_too_deep(rt: HostRuntime) -> Result<(), Fail> {
    let alloc = rt.alloc();
    let mut store = store_of(alloc, 4)?;
    put_page(&mut store, 2, &interior(2, 10, 4))?;
    put_page(&mut store, 4, &leaf(1, 2))?;
    ensure(
        is_damage(first(alloc, &mut store, TreeKind::Table), 2, Rule::Depth),
        "page 2 below itself",
    )
}

#[test]
fn root_of_the_other_kind_is_refused(rt: HostRuntime) -> Result<(), Fail> {
    let alloc = rt.alloc();
    let mut rows = table(alloc)?;
    let entries = first(alloc, &mut rows, TreeKind::Index);
    ensure(is_damage(entries, 2, Rule::Kind), "a table is no index")?;
    let mut store = index(alloc)?;
    let table = first(alloc, &mut store, TreeKind::Table);
    ensure(is_damage(table, 2, Rule::Kind), "an index is no table")?;
    let sought = seek(alloc, &mut store, 1);
    ensure(is_damage(sought, 2, Rule::Kind), "and has no rowids")
}

// All rows of the table at root 2.
fn all_rows(alloc: Global, store: &mut PlainStore) -> Result<Vec<Row>, TreeFault<AllocError>> {
    if !is_whole(store) || store.count() < 2 {
        return Err(TreeFault::TrunkDamaged { page: 0 });
    }
    table_rows(alloc, store, 2)
}

// Whether rows have the rowids of the table.
fn have_rowids(rows: &[Row]) -> bool {
    let mut all = rows.len() == ROWIDS.len();
    for at in 0..rows.len().min(ROWIDS.len()) {
        all = all && rows[at].rowid == i64::from(ROWIDS[at]);
    }
    all
}

#[test]
fn rows_of_a_table_are_read_whole(rt: HostRuntime) -> Result<(), Fail> {
    let alloc = rt.alloc();
    let mut rows = table(alloc)?;
    let read = all_rows(alloc, &mut rows)?;
    ensure(have_rowids(read.as_slice()), "each row in order")?;
    let mut entries = index(alloc)?;
    ensure(
        is_damage(all_rows(alloc, &mut entries), 2, Rule::Kind),
        "an index is no table",
    )?;
    put_page(&mut rows, 9, &leaf(81, 80))?;
    ensure(
        is_damage(all_rows(alloc, &mut rows), 9, Rule::Cells),
        "the last page is out of order",
    )
}

// The row at which a cursor stands, which it leaves.
fn leave(
    alloc: Global,
    store: &mut PlainStore,
    cursor: &mut Cursor,
) -> Result<Option<Row>, TreeFault<AllocError>> {
    if !is_whole(store) {
        return Err(TreeFault::TrunkDamaged { page: 0 });
    }
    next_row(alloc, store, cursor)
}

// A leaf with two rows, of which the second has 600 bytes; page 9 is to hold 508 of them.
fn torn_leaf() -> [u8; 512] {
    let mut page = page_of(b"\x0d\x00\x00\x00\x02\x01\x97\x00\x01\x97\x01\x9d", &[9]);
    let cells = [4, 1, 3, 0, 1, 1, 132, 88, 2];
    for at in 0..9 {
        page[407 + at] = cells[at];
    }
    page
}

#[test]
fn chain_that_breaks_is_met_behind_the_rows_before(rt: HostRuntime) -> Result<(), Fail> {
    let alloc = rt.alloc();
    let mut store = store_of(alloc, 3)?;
    put_page(&mut store, 2, &torn_leaf())?;
    let mut cursor = first(alloc, &mut store, TreeKind::Table)?;
    let first_row = match leave(alloc, &mut store, &mut cursor)? {
        Some(row) => row.rowid == 1,
        None => false,
    };
    ensure(first_row, "the first row")?;
    let torn = leave(alloc, &mut store, &mut cursor);
    ensure(is_damage(torn, 2, Rule::Chain), "page 9 is out of range")
}
