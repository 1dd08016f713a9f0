// The pages of a store.
use page_store::PageRead;
use sha2::{Digest, Sha256};
use std::alloc::{AllocError, Global};
use std::test::Fail;

// Puts a page of 512 bytes behind others.
fn push_page<S: PageRead>(store: &mut S, number: u32, pages: &mut Vec<u8>) -> Result<(), Fail>
where
    S::Fault: Drop,
{
    if number < 1 || number > store.count() || store.page_size() != 512 {
        return Err(Fail::new("no such page"));
    }
    let mut page = [0; 512];
    if store.page(number, &mut page).is_err() {
        return Err(Fail::new("a page that is not read"));
    }
    pages.extend_from_slice(&page)?;
    Ok(())
}

/// Puts all pages of 512 bytes behind others.
pub fn push_pages<S: PageRead>(store: &mut S, pages: &mut Vec<u8>) -> Result<(), Fail>
where
    S::Fault: Drop,
{
    for number in 1..=store.count() {
        push_page(store, number, pages)?;
    }
    Ok(())
}

/// The bytes have this SHA-256.
pub fn has_hash(alloc: Global, bytes: &[u8], sha256: &str) -> Result<bool, AllocError> {
    let digest = hex::encode(alloc, Sha256::digest(bytes).as_slice())?;
    Ok(digest.as_str() == sha256)
}
