// The catalogs of databases, by the rows of their schemas.
ghost use Rattle.std.specs.Prelude.{◌≤◌, IsTrue};
ghost use Rattle.page_store.specs.Store.{HasSizes};

use crate::databases::{database, put_page};
use crate::ensure::ensure;
use crate::schema_texts::push_index_columns;
use database_spec::Entry;
use itoa::Buffer;
use page_store::{PageRead, PageWrite, PlainStore};
use schema_read::{Catalog, CatalogFault, read_catalog};
use schema_spec::{Clause, Index, SqlFault};
use std::alloc::{AllocError, Global};
use std::test::Fail;

// Schemas under format 4, a row a line. Behind each what they say: each table with its root and its indexes, and behind / the roots. An index has its root, and the place of each column with the letter of its collation, and d where it descends; ! and a letter stand for
// what is outside the profile, or s and the offset for what is outside the grammar. Or the refusal: 62 with a rowid, 63 with a name.
const SCHEMAS: [(&str, &str); 25] = [
    (
        "table|t1|t1|2|CREATE TABLE t1(a INTEGER PRIMARY KEY, b TEXT, c UNIQUE)\nindex|sqlite_autoindex_t1_1|t1|3|",
        "t1 2 3:2b/1 2 3",
    ),
    (
        "table|Ab|aB|2|CREATE TABLE AB(a INTEGER PRIMARY KEY, b COLLATE NOCASE UNIQUE)\nindex|SQLITE_AutoIndex_AB_1|ab|3|",
        "Ab 2 3:1n/1 2 3",
    ),
    (
        "index|i|t|9|CREATE INDEX i ON t(b DESC, a)\ntable|t|t|4|CREATE TABLE t(a, b)",
        "t 4 9:1bd0b/1 4 9",
    ),
    (
        "view|v|v|0|CREATE VIEW v AS SELECT 1\ntrigger|v|t|0|CREATE TRIGGER v",
        "v 0!v/1",
    ),
    (
        "table|w|w|3|CREATE TABLE w(k TEXT PRIMARY KEY) WITHOUT ROWID\nindex|i|W|2|CREATE INDEX i ON w(k)",
        "w 3!w 2!w/1 2 3",
    ),
    (
        "table|x|x||CREATE VIRTUAL TABLE x USING fts5(a)\ntable|y|y|2|CREATE TABLE y(",
        "x 0!x,y 2!s15/1 2",
    ),
    (
        "table|t|t|2|CREATE TABLE t(a, b)\nindex|i|t|3|CREATE INDEX i ON t(lower(a))\nindex|j|t|4|CREATE UNIQUE INDEX j ON t(b)",
        "t 2 3!e 4:1b/1 2 3 4",
    ),
    (
        "table|t1|t1|2|CREATE TABLE t1(a INTEGER PRIMARY KEY, b TEXT, c UNIQUE)\nindex|sqlite_autoindex_t1_1|t1|2|",
        "62 2",
    ),
    (
        "table|t|t|2|CREATE TABLE t(a UNIQUE, b UNIQUE)\nindex|sqlite_autoindex_t_2|t|3|\nindex|sqlite_autoindex_t_1|t|4|",
        "t 2 3:1b 4:0b/1 2 3 4",
    ),
    ("table|t|t|2|CREATE TABLE t(a UNIQUE)", "62 1"),
    (
        "table|t|t|2|CREATE TABLE t(a UNIQUE)\nindex|sqlite_autoindex_t_1|t|3|\nindex|sqlite_autoindex_t_01|t|4|",
        "62 3",
    ),
    (
        "table|t|t|2|CREATE TABLE t(a UNIQUE)\nindex|sqlite_autoindex_t_1|t|3|\nindex|sqlite_autoindex_t_+1|t|4|",
        "62 3",
    ),
    (
        "table|t|t|2|CREATE TABLE t(a UNIQUE)\nindex|sqlite_autoindex_t_1|t|3|\nindex|sqlite_autoindex_t_2|t|4|",
        "62 3",
    ),
    (
        "table|t|t|2|CREATE TABLE t(a UNIQUE)\nindex|sqlite_autoindex_t_1|t|3|CREATE INDEX sqlite_autoindex_t_1 ON t(a)",
        "62 1",
    ),
    ("table|t|t|2|CREATE TABLE u(a)", "62 1"),
    ("table|t|u|2|CREATE TABLE t(a)", "62 1"),
    ("table|t|t|801|CREATE TABLE t(a)", "62 1"),
    ("table|t|t|1|CREATE TABLE t(a)", "62 1"),
    ("table|t|t|x|CREATE TABLE t(a)", "62 1"),
    ("table|t|t|2", "62 1"),
    (
        "view|v|v|0|CREATE VIEW v AS SELECT 1\nindex|i|v|2|CREATE INDEX i ON v(a)",
        "62 2",
    ),
    (
        "table|t|t|2|CREATE TABLE t(a)\ntable|T|T|3|CREATE TABLE T(a)",
        "63 T",
    ),
    (
        "table|t|t|2|CREATE TABLE t(a)\nindex|T|t|3|CREATE INDEX T ON t(a)\nview|w|w|4|CREATE VIEW w AS SELECT 1",
        "63 T",
    ),
    (
        "table|t|t|2|CREATE TABLE t(a)\ntable|T|T|2|CREATE TABLE T(a)",
        "62 2",
    ),
    (
        "table|t|t|2|CREATE TABLE t(a)\ntrigger|T|t|0|CREATE TRIGGER T\nindex|i|t|3|CREATE INDEX j ON t(a)",
        "62 3",
    ),
];

// Whether there is a page, and the sizes are those of a database.
fn is_whole(store: &PlainStore) -> bool
    ensures sizes { IsTrue result → HasSizes ⟦<PlainStore as PageRead>⟧ store.now }
    ensures some { IsTrue result → 1 ≤ ⟦<PlainStore as PageRead>⟧.count store.now }
{
    let size = store.page_size();
    let usable = store.usable();
    480 <= usable && usable <= size && size <= 65536 && 1 <= store.count()
}

fn read(alloc: Global, store: &mut PlainStore) -> Result<Catalog, CatalogFault<AllocError>> {
    if !is_whole(store) {
        return Err(CatalogFault::SchemaRow { rowid: 0 });
    }
    read_catalog(alloc, store)
}

fn push_number(line: &mut Vec<u8>, number: u64) -> Result<(), AllocError> {
    let mut digits = Buffer::new();
    line.extend_from_slice(digits.format(number).as_bytes())
}

fn clause_letter(clause: Clause) -> u8 {
    match clause {
        Clause::Without => b'w',
        Clause::View => b'v',
        Clause::Virtual => b'x',
        Clause::Expression => b'e',
        _ => b'?',
    }
}

fn push_fault(line: &mut Vec<u8>, fault: SqlFault) -> Result<(), AllocError> {
    line.push(b'!')?;
    match fault {
        SqlFault::OutsideProfile { clause } => line.push(clause_letter(clause))?,
        SqlFault::SqlSyntax { offset } => {
            line.push(b's')?;
            push_number(line, offset)?;
        }
        SqlFault::Memory(_) => line.push(b'?')?,
    }
    Ok(())
}

fn push_index(
    line: &mut Vec<u8>,
    root: u32,
    meaning: &Result<Index, SqlFault>,
) -> Result<(), AllocError> {
    line.push(b' ')?;
    push_number(line, u64::from(root))?;
    match meaning {
        Ok(index) => {
            line.push(b':')?;
            push_index_columns(line, index)
        }
        Err(fault) => push_fault(line, *fault),
    }
}

fn push_table(line: &mut Vec<u8>, name: &[u8], entry: &Entry) -> Result<(), AllocError> {
    line.extend_from_slice(name)?;
    line.push(b' ')?;
    push_number(line, u64::from(entry.root))?;
    if let Err(fault) = &entry.meaning {
        push_fault(line, *fault)?;
    }
    for (root, meaning) in entry.indexes.as_slice() {
        push_index(line, *root, meaning)?;
    }
    Ok(())
}

fn push_tables(line: &mut Vec<u8>, catalog: &Catalog) -> Result<(), AllocError> {
    for at in 0..catalog.len() {
        if at != 0 {
            line.push(b',')?;
        }
        let (name, entry) = catalog.entry(at);
        push_table(line, name, entry)?;
    }
    Ok(())
}

fn push_catalog(line: &mut Vec<u8>, catalog: &Catalog) -> Result<(), AllocError> {
    push_tables(line, catalog)?;
    let mut mark = b'/';
    for root in catalog.roots() {
        line.push(mark)?;
        push_number(line, u64::from(*root))?;
        mark = b' ';
    }
    Ok(())
}

fn push_refusal(line: &mut Vec<u8>, fault: &CatalogFault<AllocError>) -> Result<(), AllocError> {
    match fault {
        CatalogFault::SchemaRow { rowid } => {
            line.extend_from_slice(b"62 ")?;
            push_number(line, u64::try_from(*rowid).unwrap_or(0))
        }
        CatalogFault::DuplicateName { name } => {
            line.extend_from_slice(b"63 ")?;
            line.extend_from_slice(name.as_slice())
        }
        CatalogFault::TreeDamaged { page: _, rule: _ } => line.extend_from_slice(b"55"),
        CatalogFault::Store(_) => line.extend_from_slice(b"store"),
        CatalogFault::Memory(_) => line.extend_from_slice(b"memory"),
    }
}

// What the schema of a database says.
fn said(alloc: Global, store: &mut PlainStore) -> Result<Vec<u8>, AllocError> {
    let mut line = Vec::new(alloc);
    match read(alloc, store) {
        Ok(catalog) => push_catalog(&mut line, &catalog)?,
        Err(fault) => push_refusal(&mut line, &fault)?,
    }
    Ok(line)
}

fn says(alloc: Global, format: u8, schema: &str, line: &'static str) -> Result<(), Fail> {
    let mut store = database(alloc, format, schema)?;
    let said = said(alloc, &mut store)?;
    ensure(said.as_slice() == line.as_bytes(), line)
}

#[test]
fn schemas_say_catalogs_or_are_refused(rt: HostRuntime) -> Result<(), Fail> {
    for (schema, line) in SCHEMAS {
        says(rt.alloc(), 4, schema, line)?;
    }
    for format in [0, 1, 2, 3] {
        says(
            rt.alloc(),
            format,
            "table|t|t|2|CREATE TABLE t(a, b)\nindex|i|t|3|CREATE INDEX i ON t(b DESC)",
            "t 2 3:1b/1 2 3",
        )?;
    }
    Ok(())
}

// Page 1 as SQLite 3.40.1 wrote it for the two statements CREATE TABLE t1(a INTEGER PRIMARY KEY, b TEXT, c UNIQUE) and CREATE INDEX t1b ON t1(b DESC, c): its first bytes and its last.
const SQLITE_FRONT: &[u8] =
    b"SQLite format 3\0\x02\0\x01\x01\0@  \0\0\0\x02\0\0\0\x04\0\0\0\0\0\0\0\0\0\0\0\x02\0\0\0\x04\0\0\0\0\0\0\0\0\0\0\0\x01\0\0\0\0\0\0\0\0\0\0\0\0\0\0\0\0\0\0\0\0\0\0\0\0\0\0\0\0\0\0\0\0\0\0\0\x02\0.c\x01\x0d\x01\xf8\0\x03\x01U\0\x01\x89\x01\xd3\x01U";

const SQLITE_BACK: &[u8] =
    b"2\x03\x06\x17\x13\x11\x01Oindext1bt1\x04CREATE INDEX t1b ON t1(b DESC, c)H\x01\x06\x17\x11\x11\x01}tablet1t1\x02CREATE TABLE t1(a INTEGER PRIMARY KEY, b TEXT, c UNIQUE)#\x02\x06\x177\x11\x01\0indexsqlite_autoindex_t1_1t1\x03\0\0\0\x08\0\0\0\0";

fn sqlite_database(alloc: Global) -> Result<PlainStore, Fail> {
    let mut store = PlainStore::new(alloc, 512, 512);
    store.set_count(4)?;
    let mut page = Vec::from_slice(alloc, SQLITE_FRONT)?;
    page.resize(512usize.wrapping_sub(SQLITE_BACK.len()), 0)?;
    page.extend_from_slice(SQLITE_BACK)?;
    put_page(&mut store, 1, page.as_slice())?;
    Ok(store)
}

#[test]
fn schema_that_sqlite_wrote_is_read(rt: HostRuntime) -> Result<(), Fail> {
    let mut store = sqlite_database(rt.alloc())?;
    let said = said(rt.alloc(), &mut store)?;
    ensure(
        said.as_slice() == b"t1 2 3:2b 4:1bd2b/1 2 3 4".as_slice(),
        "t1",
    )
}

// A table of this number with its automatic index, whose root is greater by 300.
fn push_numbered(schema: &mut String, number: u32) -> Result<(), AllocError> {
    let mut digits = Buffer::new();
    let name = digits.format(number);
    schema.push_str("\ntable|t")?;
    schema.push_str(name)?;
    schema.push_str("|t")?;
    schema.push_str(name)?;
    schema.push_str("|")?;
    schema.push_str(name)?;
    schema.push_str("|CREATE TABLE t")?;
    schema.push_str(name)?;
    schema.push_str("(a UNIQUE)\nindex|sqlite_autoindex_t")?;
    schema.push_str(name)?;
    schema.push_str("_1|t")?;
    schema.push_str(name)?;
    schema.push_str("|")?;
    schema.push_str(digits.format(number.wrapping_add(300)))?;
    schema.push_str("|")
}

// A view, and tables from 2 to 300: 599 rows on some 60 pages.
fn push_many(schema: &mut String) -> Result<(), AllocError> {
    schema.push_str("view|v|v|0|CREATE VIEW v AS SELECT 1")?;
    for number in 2..301 {
        push_numbered(schema, number)?;
    }
    Ok(())
}

// The root of the table of this name, or 0.
fn root_of(catalog: &Catalog, name: &[u8]) -> u32 {
    match catalog.table(name) {
        Some(entry) => entry.root,
        None => 0,
    }
}

fn is_many(catalog: &Catalog) -> Result<(), Fail> {
    ensure(
        catalog.len() == 300 && catalog.roots().len() == 599,
        "many tables",
    )?;
    for (name, root) in [
        (b"t2".as_slice(), 2),
        (b"T2".as_slice(), 2),
        (b"t300".as_slice(), 300),
        (b"T157".as_slice(), 157),
        (b"v".as_slice(), 0),
        (b"t301".as_slice(), 0),
        (b"t".as_slice(), 0),
        (b"".as_slice(), 0),
    ] {
        ensure(root_of(catalog, name) == root, "look-up")?;
    }
    ensure(
        catalog.table(b"V").is_some() && catalog.table(b"sqlite_autoindex_t2_1").is_none(),
        "look-up of no table",
    )
}

fn many(alloc: Global) -> Result<PlainStore, Fail> {
    let mut schema = String::new(alloc);
    push_many(&mut schema)?;
    database(alloc, 4, schema.as_str())
}

#[test]
fn many_tables_are_read_and_looked_up(rt: HostRuntime) -> Result<(), Fail> {
    let mut store = many(rt.alloc())?;
    match read(rt.alloc(), &mut store) {
        Ok(catalog) => is_many(&catalog),
        Err(_) => Err(Fail::new("many tables are no catalog")),
    }
}
