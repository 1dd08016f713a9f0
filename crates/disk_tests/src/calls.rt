// Each call of the disks and the output on its happy path, and calls that are to fail.
use crate::changes::{Change, make};
use crate::ensure::ensure;
use disk_memory::{FusedDisk, MemoryDisk, MemorySink};
use rbu_disk::{Disk, DiskCall, DiskFault, FileName, Sink};
use std::alloc::{AllocError, Global};
use std::test::Fail;

// A disk without files, whose calls with this number fail, if one does.
fn empty_disk(alloc: Global, failing: &[u64]) -> Result<MemoryDisk, AllocError> {
    Ok(MemoryDisk::new(alloc, Vec::new(alloc), Vec::from_slice(alloc, failing)?))
}

// Each call that changes a disk, once or twice.
const CHANGES: [Change; 9] = [
    Change::Create(FileName::Oal),
    Change::Write(FileName::Oal, 0, b"abcdef"),
    Change::Write(FileName::Oal, 1, b"BC"),
    Change::SetLen(FileName::Oal, 5),
    Change::Sync(FileName::Oal),
    Change::Rename(FileName::Oal, FileName::Wal),
    Change::SyncFolder,
    Change::Create(FileName::Journal),
    Change::Remove(FileName::Journal),
];

fn make_all(disk: &mut FusedDisk<MemoryDisk>) -> Result<(), DiskFault> {
    for change in CHANGES {
        make(disk, change)?;
    }
    Ok(())
}

// Each call that only looks finds what the changes left: four calls.
fn looks(disk: &mut FusedDisk<MemoryDisk>) -> Result<bool, DiskFault> {
    let mut buffer = [b'-'; 6];
    let n = disk.read_at(FileName::Wal, 2, &mut buffer)?;
    let found = n == 3 && buffer == *b"Cde---" && disk.len(FileName::Wal)? == 5;
    Ok(found && disk.exists(FileName::Wal)? && !disk.exists(FileName::Oal)?)
}

fn is_left(disk: &MemoryDisk) -> bool {
    disk.contents(FileName::Wal) == Some(b"aBCde".as_slice())
        && disk.contents(FileName::Oal).is_none()
        && disk.contents(FileName::Journal).is_none()
        && disk.refused() == 0
}

fn passes_its_calls(disk: &mut FusedDisk<MemoryDisk>) -> Result<(), Fail> {
    make_all(disk)?;
    ensure(looks(disk)?, "what the changes left")?;
    let fault = DiskFault {
        file: FileName::Wal,
        call: DiskCall::Sync,
    };
    ensure(disk.sync(FileName::Wal) == Err(fault), "a call more")
}

// A fused disk, which sees the disk below through the trait alone, passes all of these calls on, and fails one more.
fn fused_disk_passes_its_calls(alloc: Global) -> Result<(), Fail> {
    let mut fused = FusedDisk::new(empty_disk(alloc, &[])?, 13);
    passes_its_calls(&mut fused)?;
    ensure(is_left(&fused.into_inner()), "the disk below")
}

// Changes of the target, and its bytes then: zeros come before a write behind the end, and behind an earlier end.
const ZEROS: [(Change, &[u8]); 2] = [
    (Change::Write(FileName::Target, 3, b"ab"), b"\0\0\0ab"),
    (Change::SetLen(FileName::Target, 7), b"\0\0\0ab\0\0"),
];

fn writes_zeros(disk: &mut MemoryDisk) -> Result<(), Fail> {
    for (change, bytes) in ZEROS {
        make(disk, change)?;
        ensure(disk.contents(FileName::Target) == Some(bytes), "zeros")?;
    }
    Ok(())
}

fn zeros_are_written(alloc: Global) -> Result<(), Fail> {
    let mut disk = empty_disk(alloc, &[])?;
    writes_zeros(&mut disk)
}

// Changes that fail, and how many calls found no memory then: an end over the limit is no want of memory, and one at the
// limit is.
const LIMITS: [(Change, u64); 3] = [
    (Change::Write(FileName::Rbu, 1 << 62, b"a"), 0),
    (Change::SetLen(FileName::Rbu, (1 << 62) + 1), 0),
    (Change::SetLen(FileName::Rbu, 1 << 62), 1),
];

fn has_limit(disk: &mut MemoryDisk) -> Result<(), Fail> {
    for (change, refused) in LIMITS {
        ensure(make(disk, change).is_err(), "an end over the limit")?;
        ensure(disk.refused() == refused, "calls without memory")?;
    }
    ensure(disk.contents(FileName::Rbu).is_none(), "no file")
}

fn no_file_ends_over_the_limit(alloc: Global) -> Result<(), Fail> {
    let mut disk = empty_disk(alloc, &[])?;
    has_limit(&mut disk)
}

#[test]
fn each_call_does_its_work(rt: HostRuntime) -> Result<(), Fail> {
    let alloc = rt.alloc();
    fused_disk_passes_its_calls(alloc)?;
    zeros_are_written(alloc)?;
    no_file_ends_over_the_limit(alloc)
}

// Changes of a disk whose third call fails, and the bytes of the state then.
const THIRD_FAILS: [(Change, bool, Option<&[u8]>); 4] = [
    (Change::Write(FileName::State, 0, b"ab"), false, Some(b"ab")),
    (Change::Sync(FileName::State), false, Some(b"ab")),
    (Change::Remove(FileName::State), true, Some(b"ab")),
    (Change::Remove(FileName::State), false, None),
];

fn fails_at_third_call(disk: &mut MemoryDisk) -> Result<(), Fail> {
    for (change, fails, bytes) in THIRD_FAILS {
        ensure(make(disk, change).is_err() == fails, "the third call")?;
        ensure(disk.contents(FileName::State) == bytes, "the state")?;
    }
    ensure(disk.refused() == 0, "no want of memory")
}

fn third_call_fails(alloc: Global) -> Result<(), Fail> {
    let mut disk = empty_disk(alloc, &[2])?;
    fails_at_third_call(&mut disk)
}

// Texts for an output whose third write fails.
const THIRD_WRITE_FAILS: [(&str, bool); 5] = [
    ("one", false),
    ("\n", false),
    ("two", true),
    ("three", false),
    ("\n", false),
];

fn fails_at_third_write(sink: &mut MemorySink) -> Result<(), Fail> {
    for (text, fails) in THIRD_WRITE_FAILS {
        let failed = sink.write_all(text.as_bytes()).is_err();
        ensure(failed == fails, "the third write")?;
    }
    let is_text = sink.written() == b"one\nthree\n".as_slice();
    ensure(is_text && sink.refused() == 0, "the text")
}

fn third_write_fails(alloc: Global) -> Result<(), Fail> {
    let mut sink = MemorySink::new(alloc, Vec::from_slice(alloc, &[2])?);
    fails_at_third_write(&mut sink)
}

#[test]
fn calls_whose_numbers_are_listed_fail(rt: HostRuntime) -> Result<(), Fail> {
    let alloc = rt.alloc();
    third_call_fails(alloc)?;
    third_write_fails(alloc)
}
