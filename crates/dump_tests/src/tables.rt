// Tables of a catalog, printed by their names.
ghost use Rattle.std.specs.Prelude.{IsTrue};
ghost use Rattle.page_store.specs.Store.{HasSizes};

use database_spec::{Catalog, Entry, NamedEntry};
use itoa::Buffer;
use owned_list::OwnedList;
use page_store::{PageRead, PageWrite, PlainStore};
use rbu_value::{Affinity, Bytes, Collation};
use refusal::Refusal;
use schema_spec::{Clause, Column, SqlFault, Table};
use std::alloc::{AllocError, Global};
use std::test::Fail;
use table_dump::{PrintFault, dump_named};

// Parts of pages of 512 bytes, by page and place. Page 2 is the leaf that SQLite writes for the rows (1, 'one', 10), (2, 'two', 20) and
// (3, 'three', 30) of `CREATE TABLE t1(a INTEGER PRIMARY KEY, b TEXT, c UNIQUE)`. Page 3 has it as its child, and page 4, which is of no
// kind, as its right child. Page 5 has the row (-1, 'it''s', x'00ff'), and page 6 none.
const PAGES: &[(u32, usize, &[u8])] = &[
    (
        2,
        0,
        b"\x0d\x00\x00\x00\x03\x01\xe0\x00\x01\xf6\x01\xec\x01\xe0",
    ),
    (
        2,
        480,
        b"\x0a\x03\x04\x00\x17\x01three\x1e\x08\x02\x04\x00\x13\x01two\x14\x08\x01\x04\x00\x13\x01one\x0a",
    ),
    (
        3,
        0,
        b"\x05\x00\x00\x00\x01\x01\xfb\x00\x00\x00\x00\x04\x01\xfb",
    ),
    (3, 507, b"\x00\x00\x00\x02\x03"),
    (5, 0, b"\x0d\x00\x00\x00\x01\x01\xec\x00\x01\xec"),
    (
        5,
        492,
        b"\x0a\xff\xff\xff\xff\xff\xff\xff\xff\xff\x04\x00\x15\x10it's\x00\xff",
    ),
    (6, 0, b"\x0d\x00\x00\x00\x00\x02\x00"),
];

// A part of page 2.
type Change = (usize, &'static [u8]);

// Names, changes of page 2, and what is printed, or the number of the refusal and its fields.
const ANSWERS: &[(&str, &[Change], &str)] = &[
    ("t1", &[], "1|1|'one'|10\n2|2|'two'|20\n3|3|'three'|30\n"),
    ("Q", &[], "-1|-1|'it''s'|x'00ff'\n"),
    ("empty", &[], ""),
    ("t9", &[], "84 t9"),
    ("v", &[], "61 V VIEW"),
    ("broken", &[], "60 Broken 38"),
    ("t1", &[(0, b"\x00")], "55 2 kind"),
    // Row 2 has two values, and row 3 a type that is reserved.
    (
        "t1",
        &[(494, b"\x03\x00\x17twoxx"), (484, b"\x0a")],
        "96 T1 2 25",
    ),
    ("t1", &[(482, b"\x0b")], "96 T1 3 20"),
    ("t1", &[(484, b"\x0a")], "96 T1 3 21"),
    ("t1", &[(484, b"\x07\x00")], "96 T1 3 22"),
    ("t1", &[(484, b"\x15")], "96 T1 3 23"),
    // The damage stands behind the rows, and so behind what is wrong with one of them.
    ("far", &[], "55 4 kind"),
    ("far", &[(494, b"\x03\x00\x17twoxx")], "96 far 2 25"),
];

fn column(alloc: Global, name: &[u8]) -> Result<Column, AllocError> {
    Ok(Column {
        name: Bytes::of(alloc, name)?,
        affinity: Affinity::Blob,
        collation: Collation::Binary,
        not_null: false,
    })
}

// A table `t1(a INTEGER PRIMARY KEY, b, c)`.
fn table(alloc: Global) -> Result<Table, AllocError> {
    let mut columns = Vec::new(alloc);
    columns.push(column(alloc, b"a")?)?;
    columns.push(column(alloc, b"b")?)?;
    columns.push(column(alloc, b"c")?)?;
    Ok(Table {
        name: Bytes::of(alloc, b"t1")?,
        columns: OwnedList::from_vec(columns),
        rowid_column: Some(0),
        key: OwnedList::from_vec(Vec::new(alloc)),
        unique: OwnedList::from_vec(Vec::new(alloc)),
    })
}

fn named(
    alloc: Global,
    name: &[u8],
    root: u32,
    meaning: Result<Table, SqlFault>,
) -> Result<NamedEntry, AllocError> {
    Ok(NamedEntry {
        name: Bytes::of(alloc, name)?,
        entry: Entry {
            root,
            meaning,
            indexes: OwnedList::from_vec(Vec::new(alloc)),
        },
    })
}

fn view() -> SqlFault {
    SqlFault::OutsideProfile {
        clause: Clause::View,
    }
}

fn catalog(alloc: Global) -> Result<Catalog, AllocError> {
    let mut tables = Vec::new(alloc);
    tables.push(named(alloc, b"T1", 2, Ok(table(alloc)?))?)?;
    tables.push(named(alloc, b"V", 0, Err(view()))?)?;
    tables.push(named(alloc, b"Broken", 2, Err(SqlFault::SqlSyntax { offset: 38 }))?)?;
    tables.push(named(alloc, b"far", 3, Ok(table(alloc)?))?)?;
    tables.push(named(alloc, b"q", 5, Ok(table(alloc)?))?)?;
    tables.push(named(alloc, b"empty", 6, Ok(table(alloc)?))?)?;
    Ok(Catalog {
        tables: OwnedList::from_vec(tables),
        roots: OwnedList::from_vec(Vec::new(alloc)),
    })
}

// Writes bytes into a page, as far as it has them.
fn write(page: &mut [u8], at: usize, bytes: &[u8]) {
    let mut at = at;
    for byte in bytes {
        if let Some(place) = page.get_mut(at) {
            *place = *byte;
        }
        at = at.wrapping_add(1);
    }
}

fn put_page(store: &mut PlainStore, number: u32, bytes: &[u8]) -> Result<(), Fail> {
    if number < 1 || number > store.count() || store.page_size() as usize != bytes.len() {
        return Err(Fail::new("no such page"));
    }
    store.set_page(number, bytes)?;
    Ok(())
}

fn page_of(alloc: Global, number: u32, changes: &[Change]) -> Result<Vec<u8>, AllocError> {
    let mut page = Vec::new(alloc);
    page.resize(512, 0)?;
    for (of, at, bytes) in PAGES {
        if *of == number {
            write(page.as_mut_slice(), *at, bytes);
        }
    }
    if number == 2 {
        for (at, bytes) in changes {
            write(page.as_mut_slice(), *at, bytes);
        }
    }
    Ok(page)
}

fn store_of(alloc: Global, changes: &[Change]) -> Result<PlainStore, Fail> {
    let mut store = PlainStore::new(alloc, 512, 512);
    store.set_count(6)?;
    for number in 1..7 {
        let page = page_of(alloc, number, changes)?;
        put_page(&mut store, number, page.as_slice())?;
    }
    Ok(store)
}

fn push_rowid(text: &mut Vec<u8>, rowid: i64) -> Result<(), AllocError> {
    let mut digits = Buffer::new();
    text.extend_from_slice(b" ")?;
    text.extend_from_slice(digits.format(rowid).as_bytes())
}

fn push_number(text: &mut Vec<u8>, number: u64) -> Result<(), AllocError> {
    let mut digits = Buffer::new();
    text.extend_from_slice(b" ")?;
    text.extend_from_slice(digits.format(number).as_bytes())
}

fn push_word(text: &mut Vec<u8>, word: &[u8]) -> Result<(), AllocError> {
    text.extend_from_slice(b" ")?;
    text.extend_from_slice(word)
}

// The number of a refusal and its fields.
fn push_refusal(text: &mut Vec<u8>, refusal: &Refusal) -> Result<(), AllocError> {
    match refusal {
        Refusal::TreeDamaged { page, rule } => {
            text.extend_from_slice(b"55")?;
            push_number(text, *page)?;
            push_word(text, rule.word().as_bytes())
        }
        Refusal::SqlSyntax { table, offset } => {
            text.extend_from_slice(b"60")?;
            push_word(text, table.as_slice())?;
            push_number(text, *offset)
        }
        Refusal::OutsideProfile { table, clause } => {
            text.extend_from_slice(b"61")?;
            push_word(text, table.as_slice())?;
            push_word(text, clause.as_slice())
        }
        Refusal::NoTarget { name } => {
            text.extend_from_slice(b"84")?;
            push_word(text, name.as_slice())
        }
        Refusal::TargetRecord {
            table,
            rowid,
            cause,
        } => {
            text.extend_from_slice(b"96")?;
            push_word(text, table.as_slice())?;
            push_rowid(text, *rowid)?;
            push_number(text, *cause)
        }
        _ => text.extend_from_slice(b"another"),
    }
}

// Whether the sizes are those of a database.
fn is_whole(store: &PlainStore) -> bool
    ensures { IsTrue result → HasSizes ⟦<PlainStore as PageRead>⟧ store.now }
{
    let size = store.page_size();
    let usable = store.usable();
    480 <= usable && usable <= size && size <= 65536
}

fn said(
    alloc: Global,
    store: &mut PlainStore,
    catalog: &Catalog,
    name: &str,
) -> Result<Vec<u8>, AllocError> {
    let mut text = Vec::new(alloc);
    if !is_whole(store) {
        return Ok(text);
    }
    match dump_named(alloc, store, catalog, name.as_bytes()) {
        Ok(lines) => text.extend_from_slice(lines.as_slice())?,
        Err(PrintFault::Refused(refusal)) => push_refusal(&mut text, &refusal)?,
        Err(PrintFault::Store(error)) => return Err(error),
        Err(PrintFault::Memory(error)) => return Err(error),
    }
    Ok(text)
}

fn is_said(
    alloc: Global,
    catalog: &Catalog,
    name: &str,
    changes: &[Change],
    text: &'static str,
) -> Result<(), Fail> {
    let mut store = store_of(alloc, changes)?;
    let said = said(alloc, &mut store, catalog, name)?;
    if said.as_slice() == text.as_bytes() {
        Ok(())
    } else {
        Err(Fail::new(text))
    }
}

#[test]
fn tables_are_printed_or_refused(rt: HostRuntime) -> Result<(), Fail> {
    let catalog = catalog(rt.alloc())?;
    for (name, changes, text) in ANSWERS {
        is_said(rt.alloc(), &catalog, name, changes, text)?;
    }
    Ok(())
}
