// Stores in memory for the tests.
ghost use Rattle.std.specs.Prelude.{◌≤◌, IsTrue};
ghost use Rattle.page_store.specs.Store.{HasSizes};

use byte_fields::u32_at;
use page_store::{PageRead, PageWrite, PlainStore};
use std::alloc::{AllocError, Global};
use std::test::Fail;

/// Fails by name where something does not hold.
pub fn ensure(holds: bool, what: &'static str) -> Result<(), Fail> {
    if holds { Ok(()) } else { Err(Fail::new(what)) }
}

/// So many pages of 512 bytes, none of them reserved, all zero.
pub fn store_of(alloc: Global, count: u32) -> Result<PlainStore, AllocError> {
    let mut store = PlainStore::new(alloc, 512, 512);
    store.set_count(count)?;
    Ok(store)
}

/// Whether there is a page, and the sizes are those of a database.
pub fn is_whole(store: &PlainStore) -> bool
    ensures sizes { IsTrue result → HasSizes ⟦<PlainStore as PageRead>⟧ store.now }
    ensures some { IsTrue result → 1 ≤ ⟦<PlainStore as PageRead>⟧.count store.now }
{
    let size = store.page_size();
    let usable = store.usable();
    480 <= usable && usable <= size && size <= 65536 && 1 <= store.count()
}

/// Writes a page of 512 bytes.
pub fn put_page(store: &mut PlainStore, number: u32, bytes: &[u8; 512]) -> Result<(), Fail> {
    if number < 1 || number > store.count() || store.page_size() != 512 {
        return Err(Fail::new("no such page"));
    }
    store.set_page(number, bytes)?;
    Ok(())
}

/// The number in four bytes of page 1.
pub fn field(store: &mut PlainStore, at: usize) -> Result<u32, Fail> {
    if at > 508 || store.count() < 1 || store.page_size() != 512 {
        return Err(Fail::new("no such field"));
    }
    let mut page = [0; 512];
    store.page(1, &mut page)?;
    Ok(u32_at(&page, at))
}
