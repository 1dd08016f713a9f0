// Commits behind a log of SQLite: what is opened again, calls that fail, and what crashes leave.
use crate::ensure::ensure;
use crate::logs::{disk_with, log_bytes};
use crate::starts::{Saved, THIRD, has_pages, pages_of, start};
use disk_memory::{FusedDisk, MemoryDisk};
use file_pages::file_log;
use oal_store::{OalPages, OalStore};
use page_store::{PageRead, PageWrite};
use rbu_disk::FileName;
use std::alloc::{AllocError, Global};
use std::test::Fail;

// A disk with the log of SQLite as the hidden one.
fn log_disk(alloc: Global) -> Result<MemoryDisk, AllocError> {
    disk_with(alloc, FileName::Oal, log_bytes(alloc, false, 4856)?, &[])
}

// Fills a page with a byte.
fn set_page(pages: &mut OalPages<MemoryDisk>, number: u32, byte: u8) -> Result<(), Fail> {
    if number < 1 || number > pages.count() || pages.page_size() != 512 {
        return Err(Fail::new("no such page"));
    }
    pages.set_page(number, &[byte; 512])?;
    Ok(())
}

// Writes pages 3 and 10, behind which there are no others.
fn change(store: &mut OalStore, disk: &mut MemoryDisk) -> Result<(), Fail> {
    let mut pages = OalPages { store, disk };
    pages.set_count(10)?;
    set_page(&mut pages, 3, 7)?;
    set_page(&mut pages, 10, 9)
}

fn set_count(store: &mut OalStore, disk: &mut MemoryDisk, count: u32) -> Result<(), Fail> {
    let mut pages = OalPages { store, disk };
    pages.set_count(count)?;
    Ok(())
}

fn commit(
    alloc: Global,
    store: &mut OalStore,
    disk: &mut FusedDisk<MemoryDisk>,
) -> Result<bool, Fail> {
    if store.count() == 0 {
        return Err(Fail::new("no page"));
    }
    Ok(store.commit(alloc, disk).is_ok())
}

// Commits on a disk whose calls fail from so many on, and answers the disk, and whether the commit is done.
fn committed(
    alloc: Global,
    store: &mut OalStore,
    disk: MemoryDisk,
    calls: u64,
) -> Result<(MemoryDisk, bool), Fail> {
    let mut fused = FusedDisk::new(disk, calls);
    let is_done = commit(alloc, store, &mut fused)?;
    Ok((fused.into_inner(), is_done))
}

fn saved_of(store: &OalStore) -> Saved {
    Saved {
        size: store.size(),
        sums: store.sums(),
    }
}

// Whether the page of 512 bytes is full of a byte.
fn is_full_of(pages: &[u8], number: usize, byte: u8) -> bool {
    pages
        .chunks(512)
        .nth(number)
        .is_some_and(|page| page.iter().all(|other| *other == byte))
}

// The pages are those that `change` leaves.
fn are_changed(pages: &[u8]) -> bool {
    pages.len() == 5120
        && is_full_of(pages, 2, 7)
        && is_full_of(pages, 7, 0)
        && is_full_of(pages, 8, 0)
        && is_full_of(pages, 9, 9)
}

// The frames behind the six of SQLite are these, and the last commit is of so many pages.
fn has_frames(
    alloc: Global,
    disk: &mut MemoryDisk,
    numbers: &[u32],
    pages: u32,
) -> Result<bool, Fail> {
    let log = file_log(alloc, disk, FileName::Oal, 0)?;
    let frames = log.frames.as_slice();
    Ok(
        frames.get(6..) == Some(numbers)
            && log.committed == frames.len() as u64
            && log.commit_pages == pages,
    )
}

// A crash by any choice leaves a log that was saved, with these pages.
fn crashes_leave(alloc: Global, disk: &MemoryDisk, saved: Saved, pages: &[u8]) -> Result<(), Fail> {
    for choice in 0..9 {
        let mut left = disk.crash(alloc, choice)?;
        let stands = has_pages(alloc, &mut left, saved, pages)?;
        ensure(stands, "the log up to a commit")?;
    }
    Ok(())
}

// A commit of pages 3 and 8 to 10 that is done after eleven calls: two pages are read, four frames written, and the log is synced.
fn check_commit(alloc: Global, calls: u64) -> Result<(), Fail> {
    let mut disk = log_disk(alloc)?;
    let mut store = start(alloc, &mut disk, 512, THIRD)?;
    let before = pages_of(alloc, &mut disk, &mut store)?;
    change(&mut store, &mut disk)?;
    let after = pages_of(alloc, &mut disk, &mut store)?;
    let (disk, is_done) = committed(alloc, &mut store, disk, calls)?;
    ensure(is_done == (calls == 11), "the eleven calls of a commit")?;
    crashes_leave(alloc, &disk, THIRD, before.as_slice())?;
    if is_done {
        crashes_leave(alloc, &disk, saved_of(&store), after.as_slice())?;
    }
    Ok(())
}

#[test]
fn crashes_leave_the_log_up_to_its_last_commit(rt: HostRuntime) -> Result<(), Fail> {
    for calls in 0..=11 {
        check_commit(rt.alloc(), calls)?;
    }
    Ok(())
}

// Pages that were written are read again.
fn reads_changed_pages(alloc: Global) -> Result<(), Fail> {
    let mut disk = log_disk(alloc)?;
    let mut store = start(alloc, &mut disk, 512, THIRD)?;
    change(&mut store, &mut disk)?;
    let (mut disk, _) = committed(alloc, &mut store, disk, u64::MAX)?;
    ensure(store.size() == 5392, "four frames")?;
    let mut again = start(alloc, &mut disk, 512, saved_of(&store))?;
    let pages = pages_of(alloc, &mut disk, &mut again)?;
    ensure(are_changed(pages.as_slice()), "the pages")?;
    let has = has_frames(alloc, &mut disk, &[3, 8, 9, 10], 10)?;
    ensure(has, "the frames")
}

// Where the count alone changes page 1 is appended, and where nothing does no frame.
fn appends_the_first_page(alloc: Global) -> Result<(), Fail> {
    let mut disk = log_disk(alloc)?;
    let mut store = start(alloc, &mut disk, 512, THIRD)?;
    set_count(&mut store, &mut disk, 6)?;
    let (mut disk, _) = committed(alloc, &mut store, disk, u64::MAX)?;
    ensure(store.size() == 3784, "one frame")?;
    ensure(has_frames(alloc, &mut disk, &[1], 6)?, "a frame of page 1")?;
    let saved = saved_of(&store);
    let (mut disk, _) = committed(alloc, &mut store, disk, u64::MAX)?;
    ensure(store.size() == saved.size, "no frame")?;
    let mut again = start(alloc, &mut disk, 512, saved)?;
    ensure(again.count() == 6, "six pages")?;
    let pages = pages_of(alloc, &mut disk, &mut again)?;
    ensure(pages.len() == 3072, "the pages")
}

#[test]
fn commits_go_on_behind_a_log_of_sqlite(rt: HostRuntime) -> Result<(), Fail> {
    reads_changed_pages(rt.alloc())?;
    appends_the_first_page(rt.alloc())
}
