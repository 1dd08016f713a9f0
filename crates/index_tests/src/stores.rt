// Stores in memory and records for the tests.
ghost use Rattle.std.specs.Prelude.{◌≤◌, IsTrue};
ghost use Rattle.page_store.specs.Store.{HasSizes};

use byte_fields::{put_u32, u32_at};
use key_order::KeyOrder;
use owned_list::OwnedList;
use page_store::{PageRead, PageWrite, PlainStore};
use rbu_value::{Bytes, Collation, Value};
use record_codec::write_record;
use std::alloc::{AllocError, Global};
use std::test::Fail;

/// Fails by name where something does not hold.
pub fn ensure(holds: bool, what: &'static str) -> Result<(), Fail> {
    if holds { Ok(()) } else { Err(Fail::new(what)) }
}

/// Whether there is a page, and the sizes are those of a database.
pub fn is_whole(store: &PlainStore) -> bool
    ensures sizes { IsTrue result → HasSizes ⟦<PlainStore as PageRead>⟧ store.now }
    ensures some { IsTrue result → 1 ≤ ⟦<PlainStore as PageRead>⟧.count store.now }
{
    let size = store.page_size();
    let usable = store.usable();
    480 <= usable && usable <= size && size <= 65536 && 1 <= store.count()
}

// Writes a page of 512 bytes.
fn put_page(store: &mut PlainStore, number: u32, bytes: &[u8; 512]) -> Result<(), Fail> {
    if number < 1 || number > store.count() || store.page_size() != 512 {
        return Err(Fail::new("no such page"));
    }
    store.set_page(number, bytes)?;
    Ok(())
}

/// Pages 1 and 2: the first says how many pages there are, the second is a leaf of an index without cells.
pub fn empty_index(alloc: Global) -> Result<PlainStore, Fail> {
    let mut store = PlainStore::new(alloc, 512, 512);
    store.set_count(2)?;
    let mut first = [0; 512];
    put_u32(&mut first, 28, 2);
    put_page(&mut store, 1, &first)?;
    let mut leaf = [0; 512];
    leaf[0] = 10;
    leaf[5] = 2;
    put_page(&mut store, 2, &leaf)?;
    Ok(store)
}

/// The number in four bytes of page 1.
pub fn field(store: &mut PlainStore, at: usize) -> Result<u32, Fail> {
    if at > 508 || store.count() < 1 || store.page_size() != 512 {
        return Err(Fail::new("no such field"));
    }
    let mut page = [0; 512];
    store.page(1, &mut page)?;
    Ok(u32_at(&page, at))
}

/// A byte of a page.
pub fn byte(store: &mut PlainStore, number: u32, at: usize) -> Result<u8, Fail> {
    if at >= 512 || number < 1 || number > store.count() || store.page_size() != 512 {
        return Err(Fail::new("no such byte"));
    }
    let mut page = [0; 512];
    store.page(number, &mut page)?;
    Ok(page[at])
}

/// The order of an index of one column.
pub fn order_of(
    alloc: Global,
    collation: Collation,
    descends: bool,
    rowid_last: bool,
) -> Result<KeyOrder, Fail> {
    let mut columns = Vec::new(alloc);
    columns.push((collation, descends))?;
    Ok(KeyOrder {
        columns: OwnedList::from_vec(columns),
        rowid_last,
    })
}

/// The record of two values.
pub fn record_of(alloc: Global, first: Value, second: Value) -> Result<Bytes, Fail> {
    let mut values = Vec::new(alloc);
    values.push(first)?;
    values.push(second)?;
    Ok(Bytes::from_vec(write_record(alloc, values.as_slice(), 4)?))
}

/// A text.
pub fn text(alloc: Global, bytes: &[u8]) -> Result<Value, AllocError> {
    Ok(Value::Text(Bytes::of(alloc, bytes)?))
}
