// Builds a database in memory.
ghost use Rattle.std.specs.Prelude.{◌≤◌, IsTrue};
ghost use Rattle.page_store.specs.Store.{HasSizes};

use byte_fields::put_u32;
use db_header::{Header, write_header};
use page_store::{PageRead, PageWrite, PlainStore};
use rbu_value::{Bytes, Value};
use record_codec::write_record;
use std::alloc::{AllocError, Global};
use tree_table::{TreeFault, delete, put};

/// The most rows that are put.
pub const MOST_ROWS: u32 = 3000;

// The most pages that a database may have.
const PAGE_LIMIT: u32 = 16777216;

// The schema format of the database.
const FORMAT: u32 = 4;

// The root of the schema's table.
const SCHEMA: u32 = 1;

// The root of the table of the rows.
const ROWS: u32 = 2;

// Whether the roots are there, and the pages have sizes that a database may have.
fn is_whole(store: &PlainStore) -> bool
    ensures sizes { IsTrue result → HasSizes ⟦<PlainStore as PageRead>⟧ store.now }
    ensures some { IsTrue result → 2 ≤ ⟦<PlainStore as PageRead>⟧.count store.now }
{
    let size = store.page_size();
    let usable = store.usable();
    480 <= usable && usable <= size && size <= 65536 && 2 <= store.count()
}

// Page 1: the header of a database of two pages, and a leaf without cells (Database File Format, sections 1.3 and 1.6).
fn first_page() -> [u8; 512] {
    let mut page = [0; 512];
    page[..16].copy_from_slice(b"SQLite format 3\0");
    page[18..24].copy_from_slice(b"\x01\x01\x00\x40\x20\x20");
    let header = Header {
        page_size: 512,
        reserved: 0,
        change_counter: 1,
        pages: 2,
        freelist_trunk: 0,
        freelist_pages: 0,
        schema_cookie: 1,
        format: FORMAT,
    };
    write_header(&header, &mut page);
    put_u32(&mut page, 56, 1);
    page[100] = 13;
    page[105] = 2;
    page
}

// Page 2: a leaf without cells.
fn empty_leaf() -> [u8; 512] {
    let mut page = [0; 512];
    page[0] = 13;
    page[5] = 2;
    page
}

// A database with two tables without rows.
fn two_tables(alloc: Global) -> Result<PlainStore, AllocError> {
    let mut store = PlainStore::new(alloc, 512, 512);
    store.set_count(2)?;
    store.set_page(SCHEMA, &first_page())?;
    store.set_page(ROWS, &empty_leaf())?;
    Ok(store)
}

// Puts the record of these values into the table at a root.
fn put_values(
    alloc: Global,
    store: &mut PlainStore,
    root: u32,
    rowid: i64,
    values: &[Value],
) -> Result<(), TreeFault<AllocError>>
    requires first { 1 ≤ root }
    requires within { root ≤ 2 }
{
    let record = write_record(alloc, values, FORMAT)?;
    if !is_whole(store) || record.len() > 65536 {
        return Err(TreeFault::TrunkDamaged { page: 0 });
    }
    put(alloc, store, root, rowid, record.as_slice(), PAGE_LIMIT)
}

// Deletes the row of a rowid.
fn delete_row(
    alloc: Global,
    store: &mut PlainStore,
    rowid: u32,
) -> Result<(), TreeFault<AllocError>> {
    if !is_whole(store) {
        return Err(TreeFault::TrunkDamaged { page: 0 });
    }
    delete(alloc, store, ROWS, i64::from(rowid), PAGE_LIMIT)?;
    Ok(())
}

// Puts the schema's row of the table of the rows.
fn put_schema(alloc: Global, store: &mut PlainStore) -> Result<(), TreeFault<AllocError>> {
    let sql = b"CREATE TABLE rows(id INTEGER PRIMARY KEY, content)";
    let values = [
        Value::Text(Bytes::of(alloc, b"table")?),
        Value::Text(Bytes::of(alloc, b"rows")?),
        Value::Text(Bytes::of(alloc, b"rows")?),
        Value::Int(i64::from(ROWS)),
        Value::Text(Bytes::of(alloc, sql)?),
    ];
    put_values(alloc, store, SCHEMA, 1, &values)
}

// The rowid that is put at a place from 1 on. The places up to 3000 have the rowids from 1 to 3000, each once.
fn rowid_at(place: u32) -> u32
    requires { place ≤ 3000 }
    ensures { result ≤ 3000 }
{
    place * 1237 % 3001
}

// The content of a rowid: from 0 to 2999 letters, in their order, from the rowid's on.
fn content(alloc: Global, rowid: u32) -> Result<Bytes, AllocError>
    requires { rowid ≤ 3000 }
{
    let mut letters = Vec::new(alloc);
    for at in 0..rowid * 7919 % 3000 {
        letters.push(b'a' + ((rowid + at) % 26) as u8)?;
    }
    Ok(Bytes::from_vec(letters))
}

// Puts the row of a rowid, whose content is a text where the rowid is odd, else a blob.
fn put_row(alloc: Global, store: &mut PlainStore, rowid: u32) -> Result<(), TreeFault<AllocError>>
    requires { rowid ≤ 3000 }
{
    let letters = content(alloc, rowid)?;
    let column = if rowid % 2 == 1 {
        Value::Text(letters)
    } else {
        Value::Blob(letters)
    };
    put_values(alloc, store, ROWS, i64::from(rowid), &[Value::Null, column])
}

/// A database of pages of 512 bytes whose one table is `rows(id INTEGER PRIMARY KEY, content)`: so many rows are put, and so many of those that were put first are deleted.
pub fn database(alloc: Global, rows: u32, deleted: u32) -> Result<PlainStore, TreeFault<AllocError>>
    requires most { rows ≤ 3000 }
    requires fewer { deleted ≤ rows }
{
    let mut store = two_tables(alloc)?;
    put_schema(alloc, &mut store)?;
    for place in 1..rows + 1 {
        put_row(alloc, &mut store, rowid_at(place))?;
    }
    for place in 1..deleted + 1 {
        delete_row(alloc, &mut store, rowid_at(place))?;
    }
    Ok(store)
}

/// A page of 512 bytes in lower-case hexadecimal digits; none where there is no such page, or no memory.
pub fn page_digits(alloc: Global, store: &mut PlainStore, number: u32) -> Option<String> {
    if number < 1 || number > store.count() || store.page_size() != 512 {
        return None;
    }
    let mut page = [0; 512];
    store.page(number, &mut page).ok()?;
    hex::encode(alloc, page.as_slice()).ok()
}
