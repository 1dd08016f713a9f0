// Logs that were saved: which are opened, and why others are refused.
ghost use Rattle.std.specs.Prelude.{◌≡◌};

use crate::ensure::ensure;
use crate::logs::{disk_with, log_bytes};
use crate::pages::{has_hash, push_pages};
use db_header::Header;
use disk_memory::MemoryDisk;
use oal_store::{OalFault, OalPages, OalStore};
use rbu_disk::{DiskCall, DiskFault, FileName};
use std::alloc::Global;
use std::test::Fail;

/// What a log that was saved has: its length in bytes, and its last checksum.
#[derive(Clone, Copy)]
pub struct Saved {
    pub size: u64,
    pub sums: [u32; 2],
}

/// The log of SQLite up to its third commit.
pub const THIRD: Saved = Saved {
    size: 3248,
    sums: [0x72e65a5e, 0x3fed4f87],
};

// What the header of its target says, with this page size.
fn header(page_size: u32) -> Header
    ensures { result.reserved ≡ 0 }
{
    Header {
        page_size,
        reserved: 0,
        change_counter: 1,
        pages: 6,
        freelist_trunk: 0,
        freelist_pages: 0,
        schema_cookie: 1,
        format: 4,
    }
}

/// Opens a log that was saved, of pages of this size.
pub fn start(
    alloc: Global,
    disk: &mut MemoryDisk,
    page_size: u32,
    saved: Saved,
) -> Result<OalStore, OalFault> {
    OalStore::start(alloc, disk, &header(page_size), saved.size, saved.sums)
}

/// All pages of a store over the disk.
pub fn pages_of(
    alloc: Global,
    disk: &mut MemoryDisk,
    store: &mut OalStore,
) -> Result<Vec<u8>, Fail> {
    let mut pages = Vec::new(alloc);
    let mut lent = OalPages { store, disk };
    push_pages(&mut lent, &mut pages)?;
    Ok(pages)
}

/// Whether the log that was saved is opened, and has these pages.
pub fn has_pages(
    alloc: Global,
    disk: &mut MemoryDisk,
    saved: Saved,
    pages: &[u8],
) -> Result<bool, Fail> {
    let mut store = start(alloc, disk, 512, saved)?;
    Ok(pages_of(alloc, disk, &mut store)?.as_slice() == pages)
}

// The lengths and checksums of the log's three commits, and SHA-256 of the pages that SQLite's own checkpoint leaves of each.
const COMMITS: [(u64, [u32; 2], &str); 3] = [
    (
        568,
        [0xe6c132a9, 0x5e4c9edc],
        "307764049fab12d44d3bca6ed86742e1a17c57a05d43ca3d0f4f2f0a3e2a254d",
    ),
    (
        2712,
        [0x040f947a, 0x6a7f363a],
        "00e8d61fa3231e3d0afd63f7f4d1a34eacbee1743bb73c22cfaebb3855dec3be",
    ),
    (
        3248,
        [0x72e65a5e, 0x3fed4f87],
        "503b78b5ad7b44648153ede5dd52f41299c1e2f92d48028d208fbc204e369aec",
    ),
];

fn is_opened(alloc: Global, disk: &mut MemoryDisk, saved: Saved, sha256: &str) -> Result<(), Fail> {
    let mut store = start(alloc, disk, 512, saved)?;
    ensure(
        store.size() == saved.size && store.sums() == saved.sums,
        "what was saved",
    )?;
    let pages = pages_of(alloc, disk, &mut store)?;
    ensure(has_hash(alloc, pages.as_slice(), sha256)?, "the pages")
}

fn are_opened(alloc: Global, disk: &mut MemoryDisk) -> Result<(), Fail> {
    for (size, sums, sha256) in COMMITS {
        is_opened(alloc, disk, Saved { size, sums }, sha256)?;
    }
    Ok(())
}

#[test]
fn saved_logs_of_sqlite_are_opened(rt: HostRuntime) -> Result<(), Fail> {
    let alloc = rt.alloc();
    let log = log_bytes(alloc, false, 4856)?;
    let mut disk = disk_with(alloc, FileName::Oal, log, &[])?;
    are_opened(alloc, &mut disk)
}

// How many bytes of the log there are, how many were saved, the size of a page, and why that log is not opened: a byte is wanting, it has no header, a part of one, and
// pages of another size; a frame is no commit, only a part of one was saved, one is of an older log, and the checksum is another.
const REFUSED: [(usize, u64, u32, OalFault); 8] = [
    (
        3247,
        3248,
        512,
        OalFault::OalShort {
            has: 3247,
            needs: 3248,
        },
    ),
    (0, 0, 512, OalFault::LogHeader),
    (4856, 31, 512, OalFault::LogHeader),
    (4856, 3248, 4096, OalFault::LogHeader),
    (4856, 2176, 512, OalFault::OalFrame { number: 4 }),
    (4856, 3249, 512, OalFault::OalFrame { number: 7 }),
    (4856, 4856, 512, OalFault::OalFrame { number: 9 }),
    (4856, 2712, 512, OalFault::OalFrame { number: 5 }),
];

fn is_refused(
    alloc: Global,
    disk: &mut MemoryDisk,
    page_size: u32,
    saved: Saved,
    fault: OalFault,
) -> bool {
    start(alloc, disk, page_size, saved).is_err_and(|other| other == fault)
}

fn are_refused(alloc: Global) -> Result<(), Fail> {
    for (len, size, page_size, fault) in REFUSED {
        let sums = THIRD.sums;
        let log = log_bytes(alloc, false, len)?;
        let mut disk = disk_with(alloc, FileName::Oal, log, &[])?;
        ensure(
            is_refused(alloc, &mut disk, page_size, Saved { size, sums }, fault),
            "a log that was not saved",
        )?;
    }
    Ok(())
}

// A changed byte in the first frame, and calls that fail.
fn changed_first_frame_is_refused(alloc: Global) -> Result<(), Fail> {
    let mut log = log_bytes(alloc, false, 4856)?;
    if log.len() > 100 {
        log[100] = 1;
    }
    let mut disk = disk_with(alloc, FileName::Oal, log, &[])?;
    let fault = OalFault::OalFrame { number: 1 };
    ensure(
        is_refused(alloc, &mut disk, 512, THIRD, fault),
        "a changed byte",
    )
}

fn failing_call_is_told(alloc: Global) -> Result<(), Fail> {
    let log = log_bytes(alloc, false, 4856)?;
    let mut disk = disk_with(alloc, FileName::Oal, log, &[2])?;
    let fault = OalFault::Disk(DiskFault {
        file: FileName::Oal,
        call: DiskCall::Read,
    });
    ensure(
        is_refused(alloc, &mut disk, 512, THIRD, fault),
        "a call that fails",
    )
}

#[test]
fn other_logs_are_refused(rt: HostRuntime) -> Result<(), Fail> {
    are_refused(rt.alloc())?;
    changed_first_frame_is_refused(rt.alloc())?;
    failing_call_is_told(rt.alloc())
}
