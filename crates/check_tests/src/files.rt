// Whole files, sound and damaged.

use crate::stores::{is_whole, put_page, store_of as pages_of};
use database_spec::{Catalog, Entry, NamedEntry};
use db_check::CheckFault;
use file_check::{Census, check};
use itoa::Buffer;
use owned_list::OwnedList;
use page_store::{PageRead, PlainStore};
use rbu_value::{Affinity, Bytes, Collation};
use schema_spec::{Clause, Column, Index, SqlFault, Table};
use std::alloc::{AllocError, Global};
use std::test::Fail;

// Bytes of a page of 512, from a place on.
type Part = (u32, usize, &'static [u8]);

// What SQLite 3.40.1 writes for `CREATE TABLE t1(a INTEGER PRIMARY KEY, b TEXT, c UNIQUE)` with the rows (1, 'one', 10), (2, 'two', 20) and (3, 'three', 30): the schema, the table at root 2, and its automatic index at root 3.
const TARGET: &[Part] = &[
    (1, 44, b"\x00\x00\x00\x04"),
    (1, 100, b"\x0d\x01\xf8\x00\x02\x01\x89\x00\x01\x89\x01\xd3"),
    (
        1,
        393,
        b"H\x01\x06\x17\x11\x11\x01}tablet1t1\x02CREATE TABLE t1(a INTEGER PRIMARY KEY, b TEXT, c UNIQUE)#\x02\x06\x177\x11\x01\x00indexsqlite_autoindex_t1_1t1\x03",
    ),
    (
        2,
        0,
        b"\x0d\x00\x00\x00\x03\x01\xe0\x00\x01\xf6\x01\xec\x01\xe0",
    ),
    (
        2,
        480,
        b"\x0a\x03\x04\x00\x17\x01three\x1e\x08\x02\x04\x00\x13\x01two\x14\x08\x01\x04\x00\x13\x01one\x0a",
    ),
    (
        3,
        0,
        b"\x0a\x00\x00\x00\x03\x01\xef\x00\x01\xfb\x01\xf5\x01\xef",
    ),
    (
        3,
        495,
        b"\x05\x03\x01\x01\x1e\x03\x05\x03\x01\x01\x14\x02\x04\x03\x01\x09\x0a",
    ),
];

// How many pages there are, the bytes that are others, and what is answered: how many pages and trees there are, or the number of a refusal and its fields.
type Row = (u32, &'static [Part], &'static str);

// As it is, and what each refusal answers. A row of two values makes a table that is not plain, whose index is not compared with it.
const FILES: &[Row] = &[
    (3, &[], "sound 3 3"),
    (3, &[(2, 494, b"\x03\x00\x17twoxx")], "sound 3 3"),
    (3, &[(1, 35, b"\x03")], "70 3"),
    (4, &[], "71 4"),
    (3, &[(2, 493, b"\x04")], "72 2"),
    (3, &[(3, 505, b"\x1f")], "72 3"),
    (3, &[(3, 505, b"\x15")], "73 sqlite_autoindex_t1_1 2"),
    (3, &[(1, 39, b"\x01")], "74 1 count"),
    (3, &[(1, 35, b"\x09")], "74 1 trunk"),
    (3, &[(2, 497, b"\x0a")], "74 2 record"),
    (3, &[(3, 504, b"\x00")], "74 3 record"),
    (3, &[(3, 0, b"\x00")], "74 3 kind"),
];

// With also a view, and a table `z` without rowids at root 4.
const OUTSIDE: &[Row] = &[(
    4,
    &[
        (1, 104, b"\x04\x01\x12\x00\x01\x89\x01\xd3\x01\x5a\x01\x12"),
        (
            1,
            274,
            b"F\x04\x06\x17\x0f\x0f\x01}tablezz\x04CREATE TABLE z(k TEXT PRIMARY KEY, r REAL) WITHOUT ROWID-\x03\x06\x15\x0f\x0f\x08OviewvvCREATE VIEW v AS SELECT a FROM t1",
        ),
        (4, 0, b"\x0a\x00\x00\x00\x01\x01\xfb\x00\x01\xfb"),
        (4, 507, b"\x04\x03\x0f\x00a"),
    ],
    "sound 4 4",
)];

// Two entries that clash, two with NULL that do not, an entry too few, and one too many.
const INDEXES: &[Row] = &[
    (
        3,
        &[(2, 491, b"\x14"), (3, 499, b"\x14")],
        "73 sqlite_autoindex_t1_1 3",
    ),
    (
        3,
        &[
            (2, 480, b"\x09\x03\x04\x00\x17\x00three"),
            (2, 492, b"\x07\x02\x04\x00\x13\x00two"),
            (3, 8, b"\x01\xf5\x01\xef\x01\xfb"),
            (3, 495, b"\x04\x03\x00\x01\x03"),
            (3, 501, b"\x04\x03\x00\x01\x02"),
        ],
        "sound 3 3",
    ),
    (3, &[(3, 4, b"\x02")], "73 sqlite_autoindex_t1_1 3"),
    (3, &[(2, 4, b"\x02")], "73 sqlite_autoindex_t1_1 3"),
];

// Of two faults the first in order is answered: that of a table and of its index, of an index and of the freelist, of the freelist and a lost page, of its count and a lost page, of a lost page and an index beside its table.
const ORDERS: &[Row] = &[
    (3, &[(3, 0, b"\x00"), (2, 493, b"\x04")], "72 2"),
    (3, &[(1, 35, b"\x09"), (3, 505, b"\x1f")], "72 3"),
    (4, &[(1, 35, b"\x09")], "74 1 trunk"),
    (4, &[(1, 39, b"\x01")], "74 1 count"),
    (4, &[(3, 505, b"\x15")], "71 4"),
];

// Writes bytes into a page, as far as it has them.
fn write(page: &mut [u8; 512], at: usize, bytes: &[u8]) {
    let mut at = at;
    for byte in bytes {
        if let Some(place) = page.get_mut(at) {
            *place = *byte;
        }
        at = at.wrapping_add(1);
    }
}

// Writes those of the parts that are of this page.
fn write_parts(page: &mut [u8; 512], number: u32, parts: &[Part]) {
    for (of, at, bytes) in parts {
        if *of == number {
            write(page, *at, bytes);
        }
    }
}

// The target with so many pages, and with these changes.
fn store_of(alloc: Global, count: u32, changes: &[Part]) -> Result<PlainStore, Fail> {
    let mut store = pages_of(alloc, count)?;
    for number in 1..count.saturating_add(1) {
        let mut page = [0; 512];
        write_parts(&mut page, number, TARGET);
        write_parts(&mut page, number, changes);
        put_page(&mut store, number, &page)?;
    }
    Ok(store)
}

fn column(alloc: Global, name: &[u8], affinity: Affinity) -> Result<Column, AllocError> {
    Ok(Column {
        name: Bytes::of(alloc, name)?,
        affinity,
        collation: Collation::Binary,
        not_null: false,
    })
}

fn columns(alloc: Global) -> Result<OwnedList<Column>, AllocError> {
    let mut columns = Vec::new(alloc);
    columns.push(column(alloc, b"a", Affinity::Integer)?)?;
    columns.push(column(alloc, b"b", Affinity::Text)?)?;
    columns.push(column(alloc, b"c", Affinity::Blob)?)?;
    Ok(OwnedList::from_vec(columns))
}

// The table `t1`. Its constraints are for the catalog alone.
fn table(alloc: Global) -> Result<Table, AllocError> {
    Ok(Table {
        name: Bytes::of(alloc, b"t1")?,
        columns: columns(alloc)?,
        rowid_column: Some(0),
        key: OwnedList::from_vec(Vec::new(alloc)),
        unique: OwnedList::from_vec(Vec::new(alloc)),
    })
}

// Its automatic index.
fn index(alloc: Global) -> Result<Index, AllocError> {
    let mut columns = Vec::new(alloc);
    columns.push((2, Collation::Binary, false))?;
    Ok(Index {
        name: Bytes::of(alloc, b"sqlite_autoindex_t1_1")?,
        table: Bytes::of(alloc, b"t1")?,
        unique: true,
        columns: OwnedList::from_vec(columns),
    })
}

fn target(alloc: Global) -> Result<NamedEntry, AllocError> {
    let mut indexes = Vec::new(alloc);
    indexes.push((3, Ok(index(alloc)?)))?;
    Ok(NamedEntry {
        name: Bytes::of(alloc, b"t1")?,
        entry: Entry {
            root: 2,
            meaning: Ok(table(alloc)?),
            indexes: OwnedList::from_vec(indexes),
        },
    })
}

// A table or a view that is outside the profile.
fn outside(
    alloc: Global,
    name: &[u8],
    root: u32,
    clause: Clause,
) -> Result<NamedEntry, AllocError> {
    Ok(NamedEntry {
        name: Bytes::of(alloc, name)?,
        entry: Entry {
            root,
            meaning: Err(SqlFault::OutsideProfile { clause }),
            indexes: OwnedList::from_vec(Vec::new(alloc)),
        },
    })
}

fn roots(alloc: Global, last: u32) -> Result<OwnedList<u32>, AllocError> {
    let mut roots = Vec::new(alloc);
    for root in 1..last.saturating_add(1) {
        roots.push(root)?;
    }
    Ok(OwnedList::from_vec(roots))
}

// The catalog of the target.
fn catalog(alloc: Global) -> Result<Catalog, AllocError> {
    let mut tables = Vec::new(alloc);
    tables.push(target(alloc)?)?;
    Ok(Catalog {
        tables: OwnedList::from_vec(tables),
        roots: roots(alloc, 3)?,
    })
}

// The same with also a view and a table without rowids.
fn wider_catalog(alloc: Global) -> Result<Catalog, AllocError> {
    let mut tables = Vec::new(alloc);
    tables.push(target(alloc)?)?;
    tables.push(outside(alloc, b"v", 0, Clause::View)?)?;
    tables.push(outside(alloc, b"z", 4, Clause::Without)?)?;
    Ok(Catalog {
        tables: OwnedList::from_vec(tables),
        roots: roots(alloc, 4)?,
    })
}

fn checked(
    alloc: Global,
    store: &mut PlainStore,
    catalog: &Catalog,
) -> Result<Census, CheckFault<AllocError>> {
    if !is_whole(store) || store.count() > 16777216 {
        return Err(CheckFault::PageLost { page: 0 });
    }
    check(alloc, store, catalog)
}

fn push_number(text: &mut Vec<u8>, number: i64) -> Result<(), AllocError> {
    let mut digits = Buffer::new();
    text.extend_from_slice(b" ")?;
    text.extend_from_slice(digits.format(number).as_bytes())
}

fn push_page(text: &mut Vec<u8>, refusal: &[u8], page: u32) -> Result<(), AllocError> {
    text.extend_from_slice(refusal)?;
    push_number(text, i64::from(page))
}

fn push_census(text: &mut Vec<u8>, census: Census) -> Result<(), AllocError> {
    text.extend_from_slice(b"sound")?;
    push_number(text, i64::from(census.pages))?;
    push_number(text, i64::from(census.trees))
}

fn push_word(text: &mut Vec<u8>, word: &[u8]) -> Result<(), AllocError> {
    text.extend_from_slice(b" ")?;
    text.extend_from_slice(word)
}

fn push_fault(text: &mut Vec<u8>, fault: &CheckFault<AllocError>) -> Result<(), AllocError> {
    match fault {
        CheckFault::PageTwice { page } => push_page(text, b"70", *page),
        CheckFault::PageLost { page } => push_page(text, b"71", *page),
        CheckFault::KeyOrder { page } => push_page(text, b"72", *page),
        CheckFault::IndexDisagrees { index, rowid } => {
            text.extend_from_slice(b"73")?;
            push_word(text, index.as_slice())?;
            push_number(text, *rowid)
        }
        CheckFault::Damaged { page, rule } => {
            push_page(text, b"74", *page)?;
            push_word(text, rule.word().as_bytes())
        }
        CheckFault::Store(error) => Err(*error),
        CheckFault::Memory(error) => Err(*error),
    }
}

// What is answered of a file.
fn said(alloc: Global, store: &mut PlainStore, catalog: &Catalog) -> Result<Vec<u8>, AllocError> {
    let mut text = Vec::new(alloc);
    match checked(alloc, store, catalog) {
        Ok(census) => push_census(&mut text, census)?,
        Err(fault) => push_fault(&mut text, &fault)?,
    }
    Ok(text)
}

fn is_said(alloc: Global, catalog: &Catalog, row: &Row) -> Result<(), Fail> {
    let mut store = store_of(alloc, row.0, row.1)?;
    let said = said(alloc, &mut store, catalog)?;
    if said.as_slice() == row.2.as_bytes() {
        Ok(())
    } else {
        Err(Fail::new(row.2))
    }
}

fn are_said(alloc: Global, catalog: &Catalog, rows: &[Row]) -> Result<(), Fail> {
    for row in rows {
        is_said(alloc, catalog, row)?;
    }
    Ok(())
}

#[test]
fn files_are_sound_or_refused(rt: HostRuntime) -> Result<(), Fail> {
    let catalog = catalog(rt.alloc())?;
    are_said(rt.alloc(), &catalog, FILES)
}

#[test]
fn trees_outside_the_profile_are_gone_through(rt: HostRuntime) -> Result<(), Fail> {
    let catalog = wider_catalog(rt.alloc())?;
    are_said(rt.alloc(), &catalog, OUTSIDE)
}

#[test]
fn indexes_stand_beside_their_tables(rt: HostRuntime) -> Result<(), Fail> {
    let catalog = catalog(rt.alloc())?;
    are_said(rt.alloc(), &catalog, INDEXES)
}

#[test]
fn the_first_fault_is_answered(rt: HostRuntime) -> Result<(), Fail> {
    let catalog = catalog(rt.alloc())?;
    are_said(rt.alloc(), &catalog, ORDERS)
}
