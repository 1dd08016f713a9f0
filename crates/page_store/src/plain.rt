// Pages in memory.
ghost use Rattle.std.specs.Prelude.{◌≡◌, ◌≤◌, ◌<◌, ◌^◌, Some, OnOk, map, take, vec_len};
ghost use Rattle.std.specs.List.{All};
ghost use Rattle.page_store.specs.Plain.{numbered};

use crate::numbers::page_buffer;
use crate::store::{PageRead, PageWrite};
use std::alloc::{AllocError, Global};

/// Pages in memory, which fail for want of memory alone.
#[derive(Drop)]
pub struct PlainStore {
    alloc: Global,
    page_size: u32,
    usable: u32,
    pages: Vec<Vec<u8>>,
    ghost whole: { All (λ page. vec_len page ≡ page_size) pages.items },
    ghost few: { vec_len pages < 2 ^ 32 },
}

// Adds pages of zeros up to the count, as long as there is memory.
fn grow(
    alloc: Global,
    pages: &mut Vec<Vec<u8>>,
    page_size: u32,
    count: u32,
) -> Result<(), AllocError>
    requires whole { All (λ page. vec_len page ≡ page_size) pages.old.items }
    requires few { vec_len pages.old ≤ count }
    ensures whole { All (λ page. vec_len page ≡ page_size) pages.new.items }
    ensures few { vec_len pages.new ≤ count }
    ensures count { OnOk result (vec_len pages.new ≡ count) }
    ensures kept { take (vec_len pages.old) pages.new.items ≡ pages.old.items }
{
    for _ in pages.len()..count as usize {
        pages.push(page_buffer(alloc, page_size)?)?;
    }
    Ok(())
}

impl PlainStore {
    /// A store without pages, for pages of this size and so many usable bytes.
    pub fn new(alloc: Global, page_size: u32, usable: u32) -> PlainStore
        ensures size { ⟦<PlainStore as PageRead>⟧.size result ≡ page_size }
        ensures usable { ⟦<PlainStore as PageRead>⟧.usable result ≡ usable }
        ensures empty { ⟦<PlainStore as PageRead>⟧.count result ≡ 0 }
    {
        PlainStore {
            alloc,
            page_size,
            usable,
            pages: Vec::new(alloc),
        }
    }
}

impl PageRead for PlainStore {
    type Fault = AllocError;

    ghost size = { λ store. store.page_size };

    ghost usable = { λ store. store.usable };

    ghost count = { λ store. vec_len store.pages };

    ghost pages = { λ store. Some (numbered (map (λ page. page.items) store.pages.items)) };

    ghost Faults = { Unit {0} };

    ghost faults = { λ _. tt };

    ghost fault_count = { λ _. 0 };

    ghost Fails = { λ _ _ _. Unit {0} };

    ghost Fixed = { Unit {0} };

    ghost fixed = { λ _. tt };

    fn page_size(&self) -> u32 {
        self.page_size
    }

    fn usable(&self) -> u32 {
        self.usable
    }

    fn count(&self) -> u32 {
        self.pages.len() as u32
    }

    fn page(&mut self, number: u32, into: &mut [u8]) -> Result<(), AllocError> {
        into.copy_from_slice(self.pages[number as usize - 1].as_slice());
        Ok(())
    }
}

impl PageWrite for PlainStore {
    fn set_page(&mut self, number: u32, bytes: &[u8]) -> Result<(), AllocError> {
        self.pages[number as usize - 1]
            .as_mut_slice()
            .copy_from_slice(bytes);
        Ok(())
    }

    fn set_count(&mut self, count: u32) -> Result<(), AllocError> {
        self.pages.truncate(count as usize);
        grow(self.alloc, &mut self.pages, self.page_size, count)
    }
}
