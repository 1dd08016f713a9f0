// Small stores of pages, and what a check answers of them.
ghost use Rattle.std.specs.Prelude.{◌≤◌, IsTrue};
ghost use Rattle.page_store.specs.Store.{HasSizes};

use db_check::CheckFault;
use page_store::{PageRead, PageWrite, PlainStore};
use refusal::Rule;
use std::alloc::{AllocError, Global};
use std::test::Fail;

/// So many pages of 512 bytes, all zero.
pub fn store_of(alloc: Global, count: u32) -> Result<PlainStore, Fail> {
    let mut store = PlainStore::new(alloc, 512, 512);
    store.set_count(count)?;
    Ok(store)
}

/// Whether there is a page, and the sizes are those of a database.
pub fn is_whole(store: &PlainStore) -> bool
    ensures sizes { IsTrue result → HasSizes ⟦<PlainStore as PageRead>⟧ store.now }
    ensures some { IsTrue result → 1 ≤ ⟦<PlainStore as PageRead>⟧.count store.now }
{
    let size = store.page_size();
    let usable = store.usable();
    480 <= usable && usable <= size && size <= 65536 && 1 <= store.count()
}

/// Writes a page of 512 bytes.
pub fn put_page(store: &mut PlainStore, number: u32, bytes: &[u8; 512]) -> Result<(), Fail> {
    if number < 1 || number > store.count() || store.page_size() != 512 {
        return Err(Fail::new("no such page"));
    }
    store.set_page(number, bytes)?;
    Ok(())
}

/// A page of 512 bytes that begins and ends with these, with zeros between them.
pub fn page_of(front: &[u8], back: &[u8]) -> [u8; 512] {
    let mut page = [0; 512];
    for at in 0..front.len().min(512) {
        page[at] = front[at];
    }
    for at in 0..back.len().min(512) {
        page[511 - at] = back[back.len() - 1 - at];
    }
    page
}

/// Whether a fault is this refusal, with this page, and with this rule where it is 74.
pub fn is_told(
    fault: &CheckFault<AllocError>,
    refusal: u32,
    page: u32,
    rule: Option<Rule>,
) -> bool {
    match fault {
        CheckFault::PageTwice { page: told } => refusal == 70 && page == *told,
        CheckFault::PageLost { page: told } => refusal == 71 && page == *told,
        CheckFault::KeyOrder { page: told } => refusal == 72 && page == *told,
        CheckFault::Damaged {
            page: told,
            rule: broken,
        } => refusal == 74 && page == *told && rule == Some(*broken),
        _ => false,
    }
}

/// How many flags are set.
pub fn flagged(flags: &[bool]) -> u32 {
    let mut count = 0u32;
    for flag in flags {
        if *flag {
            count = count.saturating_add(1);
        }
    }
    count
}

/// Sets the flags of pages.
pub fn set(flags: &mut [bool], pages: &[usize]) {
    for page in pages {
        if let Some(flag) = flags.get_mut(*page) {
            *flag = true;
        }
    }
}
