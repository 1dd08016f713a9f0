// Databases in memory whose schema is a list of rows.
use cell_codec::push_varint;
use page_store::{PageRead, PageWrite, PlainStore};
use rbu_value::{Bytes, Value};
use record_codec::write_record;
use std::alloc::{AllocError, Global};
use std::test::Fail;

// The leaves of a schema's tree stand behind the pages that its rows may name.
const FIRST_LEAF: u32 = 701;

const PAGES: u32 = 800;

const PAGE_SIZE: usize = 1024;

// A word of a row: NULL, a number or a text.
fn value_of(alloc: Global, word: &str) -> Result<Value, AllocError> {
    if word.is_empty() {
        return Ok(Value::Null);
    }
    match word.parse::<u32>() {
        Ok(number) => Ok(Value::Int(i64::from(number))),
        Err(_) => Ok(Value::Text(Bytes::of(alloc, word.as_bytes())?)),
    }
}

fn record_of(alloc: Global, row: &str) -> Result<Vec<u8>, AllocError> {
    let mut values = Vec::new(alloc);
    for word in row.split('|') {
        values.push(value_of(alloc, word)?)?;
    }
    write_record(alloc, values.as_slice(), 4)
}

fn push_big(into: &mut Vec<u8>, number: usize) -> Result<(), AllocError> {
    let number = u16::try_from(number).unwrap_or(0);
    into.extend_from_slice(&number.to_be_bytes())
}

// The cells of a page, and where each begins among them.
#[derive(Drop)]
struct Cells {
    starts: Vec<usize>,
    bytes: Vec<u8>,
}

impl Cells {
    fn new(alloc: Global) -> Cells {
        Cells {
            starts: Vec::new(alloc),
            bytes: Vec::new(alloc),
        }
    }

    // A leaf has room for one more row.
    fn has_room(&self, record: &[u8]) -> bool {
        let places = self.starts.len().wrapping_add(1).wrapping_mul(2);
        let cells = self.bytes.len().wrapping_add(record.len());
        places.wrapping_add(cells).wrapping_add(16) < PAGE_SIZE
    }

    fn push_row(&mut self, rowid: u64, record: &[u8]) -> Result<(), AllocError> {
        self.starts.push(self.bytes.len())?;
        push_varint(record.len() as u64, &mut self.bytes)?;
        push_varint(rowid, &mut self.bytes)?;
        self.bytes.extend_from_slice(record)
    }

    fn push_child(&mut self, child: u32, rowid: u64) -> Result<(), AllocError> {
        self.starts.push(self.bytes.len())?;
        self.bytes.extend_from_slice(&child.to_be_bytes())?;
        push_varint(rowid, &mut self.bytes)
    }

    // The page behind these first bytes, with the cells at its end.
    fn fill(&self, page: &mut Vec<u8>, right: &[u8]) -> Result<(), AllocError> {
        let start = PAGE_SIZE.wrapping_sub(self.bytes.len());
        page.extend_from_slice(b"\0\0")?;
        push_big(page, self.starts.len())?;
        push_big(page, start)?;
        page.push(0)?;
        page.extend_from_slice(right)?;
        for place in &self.starts {
            push_big(page, start.wrapping_add(*place))?;
        }
        page.resize(start, 0)?;
        page.extend_from_slice(self.bytes.as_slice())
    }
}

/// Writes a page.
pub fn put_page(store: &mut PlainStore, number: u32, bytes: &[u8]) -> Result<(), Fail> {
    if number < 1 || number > store.count() || store.page_size() as usize != bytes.len() {
        return Err(Fail::new("no such page"));
    }
    store.set_page(number, bytes)?;
    Ok(())
}

// A schema's tree that is written row by row: its root at page 1, and the leaf that is filled.
#[derive(Drop)]
struct Writer {
    alloc: Global,
    root: Cells,
    leaf: Cells,
    rowid: u64,
    number: u32,
}

impl Writer {
    fn put_leaf(&mut self, store: &mut PlainStore) -> Result<(), Fail> {
        let mut page = Vec::new(self.alloc);
        page.push(13)?;
        self.leaf.fill(&mut page, b"")?;
        put_page(store, self.number, page.as_slice())
    }

    // Goes on to the next leaf.
    fn go_on(&mut self, store: &mut PlainStore) -> Result<(), Fail> {
        self.put_leaf(store)?;
        self.root.push_child(self.number, self.rowid)?;
        self.number = self.number.wrapping_add(1);
        self.leaf = Cells::new(self.alloc);
        Ok(())
    }

    fn push(&mut self, store: &mut PlainStore, row: &str) -> Result<(), Fail> {
        let record = record_of(self.alloc, row)?;
        if !self.leaf.has_room(record.as_slice()) {
            self.go_on(store)?;
        }
        self.rowid = self.rowid.wrapping_add(1);
        self.leaf.push_row(self.rowid, record.as_slice())?;
        Ok(())
    }

    fn put_root(&mut self, store: &mut PlainStore, format: u8) -> Result<(), Fail> {
        let mut page = Vec::new(self.alloc);
        page.resize(47, 0)?;
        page.push(format)?;
        page.resize(100, 0)?;
        page.push(5)?;
        self.root.fill(&mut page, &self.number.to_be_bytes())?;
        put_page(store, 1, page.as_slice())
    }
}

fn write_schema(
    alloc: Global,
    store: &mut PlainStore,
    format: u8,
    schema: &str,
) -> Result<(), Fail> {
    let mut writer = Writer {
        alloc,
        root: Cells::new(alloc),
        leaf: Cells::new(alloc),
        rowid: 0,
        number: FIRST_LEAF,
    };
    for row in schema.split('\n') {
        writer.push(store, row)?;
    }
    writer.put_leaf(store)?;
    writer.put_root(store, format)
}

/// A database of 800 pages of 1024 bytes with this schema: a row a line, its words with | between them, and nothing for NULL.
pub fn database(alloc: Global, format: u8, schema: &str) -> Result<PlainStore, Fail> {
    let mut store = PlainStore::new(alloc, PAGE_SIZE as u32, PAGE_SIZE as u32);
    store.set_count(PAGES)?;
    write_schema(alloc, &mut store, format, schema)?;
    Ok(store)
}
