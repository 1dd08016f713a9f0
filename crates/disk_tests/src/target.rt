// A target that SQLite made, and how commands end that read it.
use crate::changes::{Change, make};
use crate::ensure::ensure;
use crate::example::{Parts, write_parts};
use crate::runs::{has_same_files, run_with_faults, tells};
use disk_memory::MemoryDisk;
use rbu_disk::{Disk, DiskFault, FileName};
use std::alloc::Global;
use std::test::Fail;

// The target that `CREATE TABLE t1(a INTEGER PRIMARY KEY, b TEXT, c UNIQUE)` and an insert of three rows make: its header and
// schema, a leaf of the table, and one of the automatic index. The page of the schema has a freeblock at its end.
const TARGET: Parts = &[
    (
        0,
        b"SQLite format 3\0\x10\x00\x01\x01\x00\x40\x20\x20\x00\x00\x00\x01\x00\x00\x00\x03",
    ),
    (43, b"\x01\x00\x00\x00\x04"),
    (59, b"\x01"),
    (95, b"\x01\x00\x2e\x63\x01"),
    (100, b"\x0d\x0f\xf8\x00\x02\x0f\x89\x00\x0f\x89\x0f\xd3"),
    (
        3977,
        b"\x48\x01\x06\x17\x11\x11\x01\x7dtablet1t1\x02CREATE TABLE t1(a INTEGER PRIMARY KEY, b TEXT, c UNIQUE)\
        \x23\x02\x06\x17\x37\x11\x01\x00indexsqlite_autoindex_t1_1t1\x03\x00\x00\x00\x08",
    ),
    (
        4096,
        b"\x0d\x00\x00\x00\x03\x0f\xe0\x00\x0f\xf6\x0f\xec\x0f\xe0",
    ),
    (
        8160,
        b"\x0a\x03\x04\x00\x17\x01three\x1e\x08\x02\x04\x00\x13\x01two\x14\x08\x01\x04\x00\x13\x01one\x0a",
    ),
    (
        8192,
        b"\x0a\x00\x00\x00\x03\x0f\xef\x00\x0f\xfb\x0f\xf5\x0f\xef",
    ),
    (
        12271,
        b"\x05\x03\x01\x01\x1e\x03\x05\x03\x01\x01\x14\x02\x04\x03\x01\x09\x0a",
    ),
];

fn write_target(disk: &mut MemoryDisk, changes: &[Change]) -> Result<(), DiskFault> {
    disk.set_len(FileName::Target, 12288)?;
    write_parts(disk, FileName::Target, TARGET)?;
    for change in changes {
        make(disk, *change)?;
    }
    Ok(())
}

/// A disk with this target, in which these calls were made.
pub fn changed_target(alloc: Global, changes: &[Change]) -> Result<MemoryDisk, DiskFault> {
    let mut disk = MemoryDisk::new(alloc, Vec::new(alloc), Vec::new(alloc));
    write_target(&mut disk, changes)?;
    Ok(disk)
}

/// A command ends so, where these calls of the disk and of the output fail, and changes no file.
pub fn ends(
    alloc: Global,
    before: &MemoryDisk,
    words: &str,
    disk_fails: &[u64],
    output_fails: &[u64],
    status: u8,
    line: &'static str,
) -> Result<(), Fail> {
    let left = run_with_faults(alloc, words, before, disk_fails, output_fails)?;
    ensure(
        tells(&left, status, line) && has_same_files(&left.disk, before),
        line,
    )
}

/// Each call on the disk that fails is named, in the order of the calls, and with no failing call the text is written.
pub fn each_call_is_told(
    alloc: Global,
    disk: &MemoryDisk,
    words: &str,
    faults: &'static [&'static str],
    text: &'static str,
) -> Result<(), Fail> {
    let mut call = 0;
    for line in faults {
        ends(alloc, disk, words, &[call], &[], 6, line)?;
        call = call.saturating_add(1);
    }
    ends(alloc, disk, words, &[call], &[], 0, text)
}

/// An output that fails takes a part of the text.
pub fn failing_output_is_told(
    alloc: Global,
    disk: &MemoryDisk,
    words: &str,
    text: &str,
) -> Result<(), Fail> {
    let left = run_with_faults(alloc, words, disk, &[], &[0])?;
    ensure(
        left.status == 8
            && text.as_bytes().starts_with(left.out.written())
            && has_same_files(&left.disk, disk),
        "a failing output",
    )
}
