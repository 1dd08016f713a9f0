// A table in memory, at root 2, on pages of 512 bytes.
ghost use Rattle.std.specs.Prelude.{◌≤◌, IsTrue};
ghost use Rattle.page_store.specs.Store.{HasSizes};

use crate::rows::{row_of, values_line};
use byte_fields::put_u32;
use database_spec::Entry;
use itoa::Buffer;
use owned_list::OwnedList;
use page_store::{PageRead, PageWrite, PlainStore};
use rbu_value::Value;
use record_codec::write_record;
use row_values::row_values;
use schema_spec::{Index, SqlFault, Table};
use schema_sql::read_table;
use std::alloc::{AllocError, Global};
use std::test::Fail;
use tree_rows::table_rows;
use tree_table::put;
use tree_walk::Row;

/// Whether there are two pages, of sizes that a database may have.
pub fn is_whole(store: &PlainStore) -> bool
    ensures sizes { IsTrue result → HasSizes ⟦<PlainStore as PageRead>⟧ store.now }
    ensures some { IsTrue result → 2 ≤ ⟦<PlainStore as PageRead>⟧.count store.now }
{
    let size = store.page_size();
    let usable = store.usable();
    480 <= usable && usable <= size && size <= 65536 && 2 <= store.count()
}

// Writes a page of 512 bytes.
fn put_page(store: &mut PlainStore, number: u32, bytes: &[u8; 512]) -> Result<(), Fail> {
    if number < 1 || number > store.count() || store.page_size() != 512 {
        return Err(Fail::new("no such page"));
    }
    store.set_page(number, bytes)?;
    Ok(())
}

// Page 1, which says how many pages there are and that the schema format is 4, and page 2, a leaf of a table without cells.
fn empty_table(alloc: Global) -> Result<PlainStore, Fail> {
    let mut store = PlainStore::new(alloc, 512, 512);
    store.set_count(2)?;
    let mut first = [0; 512];
    put_u32(&mut first, 28, 2);
    put_u32(&mut first, 44, 4);
    put_page(&mut store, 1, &first)?;
    let mut leaf = [0; 512];
    leaf[0] = 13;
    leaf[5] = 2;
    put_page(&mut store, 2, &leaf)?;
    Ok(store)
}

fn put_row(
    alloc: Global,
    store: &mut PlainStore,
    rowid: i64,
    values: &[Value],
) -> Result<(), Fail> {
    let payload = write_record(alloc, values, 4)?;
    if !is_whole(store) || payload.len() > 65536 {
        return Err(Fail::new("no store"));
    }
    put(alloc, store, 2, rowid, payload.as_slice(), 100)?;
    Ok(())
}

// Puts rows, which `;` parts, with the values that are stored.
fn put_rows(alloc: Global, store: &mut PlainStore, text: &str) -> Result<(), Fail> {
    for part in text.split(';') {
        if let Some((rowid, values)) = row_of(alloc, part)? {
            put_row(alloc, store, rowid, values.as_slice())?;
        }
    }
    Ok(())
}

/// The table of these rows, which `;` parts, with the values that are stored.
pub fn table_with(alloc: Global, text: &str) -> Result<PlainStore, Fail> {
    let mut store = empty_table(alloc)?;
    put_rows(alloc, &mut store, text)?;
    Ok(store)
}

/// What a text means, as the table at root 2.
pub fn entry_of(alloc: Global, sql: &str) -> Entry {
    let indexes: Vec<(u32, Result<Index, SqlFault>)> = Vec::new(alloc);
    Entry {
        root: 2,
        meaning: read_table(alloc, sql.as_bytes()),
        indexes: OwnedList::from_vec(indexes),
    }
}

fn push_row(alloc: Global, line: &mut Vec<u8>, table: &Table, row: &Row) -> Result<(), Fail> {
    let Ok(values) = row_values(alloc, table, row) else {
        return Err(Fail::new("no row"));
    };
    let mut digits = Buffer::new();
    line.push(b' ')?;
    line.extend_from_slice(digits.format(row.rowid).as_bytes())?;
    let read = values_line(alloc, values.as_slice())?;
    line.extend_from_slice(read.as_slice())?;
    Ok(())
}

/// The rows of the table, each behind a space: its rowid, and each value behind a bar.
pub fn rows_line(alloc: Global, store: &mut PlainStore, entry: &Entry) -> Result<Vec<u8>, Fail> {
    let Ok(table) = &entry.meaning else {
        return Err(Fail::new("no table"));
    };
    if !is_whole(store) {
        return Err(Fail::new("no store"));
    }
    let rows = table_rows(alloc, store, 2)?;
    let mut line = Vec::new(alloc);
    for row in &rows {
        push_row(alloc, &mut line, table, row)?;
    }
    Ok(line)
}
