// Limits of an RBU database: what is just within one is taken, and what is over it is refused.

use crate::databases::{catalog_of, catalog_with, ensure, named, put, store_of};
use crate::prepared::answer_line;
use database_spec::{Catalog, Entry, NamedEntry};
use owned_list::OwnedList;
use page_store::{PageWrite, PlainStore};
use rbu_value::Bytes;
use schema_spec::{Index, SqlFault};
use schema_sql::read_table;
use std::alloc::{AllocError, Global};
use std::rt::HostRuntime;
use std::test::Fail;

// Whether a line begins so.
fn begins(line: &[u8], answer: &str) -> bool {
    &line[..line.len().min(answer.len())] == answer.as_bytes()
}

// A leaf of a table of so many cells, which stand at its end, one at every 80 bytes.
fn leaf(alloc: Global, count: u8, cells: &[u8]) -> Result<Vec<u8>, AllocError> {
    let start = 512usize.saturating_sub(cells.len());
    let mut page = Vec::new(alloc);
    page.extend_from_slice(b"\x0d\x00\x00\x00")?;
    page.push(count)?;
    let mut place = start as u16;
    page.extend_from_slice(&place.to_be_bytes())?;
    page.push(0)?;
    for _ in 0..count {
        page.extend_from_slice(&place.to_be_bytes())?;
        place = place.wrapping_add(80);
    }
    page.resize(start, 0)?;
    page.extend_from_slice(cells)?;
    Ok(page)
}

// The last three digits of a number.
fn push_digits(text: &mut Vec<u8>, number: u16) -> Result<(), AllocError> {
    text.push(b'0' | (number / 100 % 10) as u8)?;
    text.push(b'0' | (number / 10 % 10) as u8)?;
    text.push(b'0' | (number % 10) as u8)?;
    Ok(())
}

const SOURCE: &[u8] = b"CREATE TABLE data_q(a, rbu_rowid, rbu_control)";

// A row of key 1 whose value is one byte again and again: `=` has a record of 1048576 bytes, `>` and `!` of one more, and the chain of `!` is broken.
fn push_long_row(cells: &mut Vec<u8>, row: u8, fill: u8) -> Result<(), AllocError> {
    let over = u8::from(row != b'=');
    cells.extend_from_slice(b"\xc0\x80")?;
    cells.push(over.wrapping_add(2))?;
    cells.push(over.wrapping_add(1))?;
    cells.extend_from_slice(b"\x07\x81\x80\x80")?;
    cells.push(over.wrapping_mul(2).wrapping_add(3))?;
    cells.extend_from_slice(b"\x09\x08")?;
    let local = cells.len().wrapping_add(usize::from(over)).wrapping_add(59);
    cells.resize(local, fill)?;
    cells.extend_from_slice(b"\x00\x00\x00")?;
    cells.push(if row == b'!' { 0 } else { 3 })?;
    Ok(())
}

// Rows at every 80 bytes.
fn long_cells(alloc: Global, rows: &[u8], fill: u8) -> Result<Vec<u8>, AllocError> {
    let mut cells = Vec::new(alloc);
    let mut end = 0usize;
    for row in rows {
        end = end.wrapping_add(80);
        push_long_row(&mut cells, *row, fill)?;
        cells.resize(end, 0)?;
    }
    Ok(cells)
}

// These rows, and an overflow chain of 2064 pages from page 3 on.
fn long_store(alloc: Global, rows: &[u8], fill: u8) -> Result<PlainStore, Fail> {
    let mut store = PlainStore::new(alloc, 512, 512);
    store.set_count(2066)?;
    let cells = long_cells(alloc, rows, fill)?;
    let page = leaf(alloc, rows.len().min(6) as u8, cells.as_slice())?;
    put(&mut store, 2, page.as_slice())?;
    for number in 3..2067u32 {
        let next = if number == 2066 { 0 } else { number + 1 };
        let mut page = Vec::new(alloc);
        page.extend_from_slice(&next.to_be_bytes())?;
        page.resize(512, fill)?;
        put(&mut store, number, page.as_slice())?;
    }
    Ok(store)
}

// The rows, the byte of their values, the target, and how the answer begins.
const LONG: [(&[u8], u8, &str, &str); 6] = [
    (b"=", b'x', "CREATE TABLE q(a)", "q<data_q 1,1 i,xxxxx"),
    (b">", b'x', "CREATE TABLE q(a)", "93 record 1048577 1048576"),
    // A class before the record, and the record before two rows of one key.
    (b">", b'1', "CREATE TABLE q(a INT)", "92 data_q 2 a"),
    (
        b"=>",
        b'x',
        "CREATE TABLE q(a)",
        "93 record 1048577 1048576",
    ),
    // A chain that breaks, behind a row that is right and one that is wrong.
    (b"=!", b'x', "CREATE TABLE q(a)", "55 chain 2"),
    (b"=!", b'1', "CREATE TABLE q(a INT)", "92 data_q 1 a"),
];

fn is_answered_of_long(
    alloc: Global,
    rows: &[u8],
    fill: u8,
    target: &str,
    answer: &str,
) -> Result<bool, Fail> {
    let mut store = long_store(alloc, rows, fill)?;
    let rbu = catalog_of(alloc, b"data_q", b"", SOURCE)?;
    let target = catalog_of(alloc, b"q", b"", target.as_bytes())?;
    let line = answer_line(alloc, &mut store, &rbu, &target)?;
    Ok(begins(line.as_slice(), answer))
}

#[test]
fn records_have_limits(rt: HostRuntime) -> Result<(), Fail> {
    let alloc = rt.alloc();
    for (rows, fill, target, answer) in LONG {
        ensure(
            is_answered_of_long(alloc, rows, fill, target, answer)?,
            answer,
        )?;
    }
    Ok(())
}

// Columns by the names `c000`, `c001` and so on.
fn wide_text(alloc: Global, columns: u16) -> Result<Vec<u8>, AllocError> {
    let mut text = Vec::new(alloc);
    text.extend_from_slice(b"CREATE TABLE k(")?;
    for number in 0..columns {
        text.push(if number == 0 { b' ' } else { b',' })?;
        text.push(b'c')?;
        push_digits(&mut text, number)?;
    }
    text.push(b')')?;
    Ok(text)
}

// An index with a name of so many bytes.
fn index(alloc: Global, length: usize) -> Result<Index, AllocError> {
    Ok(Index {
        name: Bytes::from_vec(vec![in alloc; b'i'; length]?),
        table: Bytes::of(alloc, b"k")?,
        unique: false,
        columns: OwnedList::from_vec(Vec::new(alloc)),
    })
}

// A table with so many columns and indexes, of which the last has a name of so many bytes.
fn wide_table(
    alloc: Global,
    name: &[u8],
    columns: u16,
    indexes: u16,
    length: usize,
) -> Result<NamedEntry, AllocError> {
    let mut list: Vec<(u32, Result<Index, SqlFault>)> = Vec::new(alloc);
    for _ in 1..indexes {
        list.push((2, Ok(index(alloc, 1)?)))?;
    }
    list.push((2, Ok(index(alloc, length)?)))?;
    let text = wide_text(alloc, columns)?;
    Ok(NamedEntry {
        name: Bytes::of(alloc, name)?,
        entry: Entry {
            root: 2,
            meaning: read_table(alloc, text.as_slice()),
            indexes: OwnedList::from_vec(list),
        },
    })
}

fn one_table(alloc: Global, named: NamedEntry) -> Result<Catalog, AllocError> {
    let mut tables = Vec::new(alloc);
    tables.push(named)?;
    Ok(catalog_with(alloc, tables))
}

// The columns and indexes of the target, the bytes of its last index's name and of its own, the text of its `data_` table, and how the answer begins.
const WIDE: [(u16, u16, usize, usize, &str, &str); 9] = [
    (201, 65, 257, 258, "CREATE TABLE data_k(", "60 data_kk"),
    (
        201,
        65,
        257,
        258,
        "CREATE TABLE data_k(x)",
        "93 columns 201 200",
    ),
    (
        200,
        65,
        257,
        258,
        "CREATE TABLE data_k(x)",
        "93 indexes 65 64",
    ),
    (
        200,
        64,
        257,
        258,
        "CREATE TABLE data_k(x)",
        "93 name 258 255",
    ),
    (
        200,
        64,
        257,
        255,
        "CREATE TABLE data_k(x)",
        "93 name 257 255",
    ),
    (
        200,
        64,
        256,
        255,
        "CREATE TABLE data_k(x)",
        "93 name 256 255",
    ),
    // The name of the `data_` table alone is over the limit.
    (
        200,
        64,
        255,
        255,
        "CREATE TABLE data_k(x)",
        "93 name 260 255",
    ),
    (
        200,
        64,
        255,
        251,
        "CREATE TABLE data_k(x)",
        "93 name 256 255",
    ),
    (200, 64, 255, 250, "CREATE TABLE data_k(x)", "85 data_kk"),
];

fn is_answered_of_wide(
    alloc: Global,
    columns: u16,
    indexes: u16,
    index: usize,
    length: usize,
    sql: &str,
    answer: &str,
) -> Result<bool, Fail> {
    let mut store = store_of(alloc, b"")?;
    let mut name = Vec::new(alloc);
    name.extend_from_slice(b"data_")?;
    name.resize(length.wrapping_add(5), b'k')?;
    let source = named(alloc, name.as_slice(), sql.as_bytes())?;
    let rbu = one_table(alloc, source)?;
    let name = vec![in alloc; b'k'; length]?;
    let target = one_table(
        alloc,
        wide_table(alloc, name.as_slice(), columns, indexes, index)?,
    )?;
    let line = answer_line(alloc, &mut store, &rbu, &target)?;
    Ok(begins(line.as_slice(), answer))
}

#[test]
fn tables_have_limits(rt: HostRuntime) -> Result<(), Fail> {
    let alloc = rt.alloc();
    for (columns, indexes, index, length, sql, answer) in WIDE {
        ensure(
            is_answered_of_wide(alloc, columns, indexes, index, length, sql, answer)?,
            answer,
        )?;
    }
    Ok(())
}
