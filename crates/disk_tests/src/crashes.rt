// What crashes leave of a disk in memory, worked out by hand.
use crate::changes::{Change, make};
use crate::ensure::ensure;
use disk_memory::MemoryDisk;
use rbu_disk::FileName;
use std::alloc::{AllocError, Global};
use std::test::Fail;

// A disk whose target is 'abcd', and whose calls with this number fail, if one does.
fn small_disk(alloc: Global, failing: &[u64]) -> Result<MemoryDisk, AllocError> {
    let mut files = Vec::new(alloc);
    files.push((FileName::Target, Vec::from_slice(alloc, b"abcd")?))?;
    Ok(MemoryDisk::new(alloc, files, Vec::from_slice(alloc, failing)?))
}

// A byte as it is printed: 0 as a digit, and 0xA5 as a mark.
fn printed(byte: u8) -> u8 {
    match byte {
        0 => b'0',
        0xa5 => b'#',
        _ => byte,
    }
}

// Prints a file, `-` for a missing one, and what stands behind it.
fn push_file(text: &mut Vec<u8>, file: Option<&[u8]>, behind: u8) -> Result<(), AllocError> {
    for byte in file.unwrap_or(b"-") {
        text.push(printed(*byte))?;
    }
    text.push(behind)?;
    Ok(())
}

fn push_files(text: &mut Vec<u8>, disk: &MemoryDisk) -> Result<(), AllocError> {
    push_file(text, disk.contents(FileName::Target), b',')?;
    push_file(text, disk.contents(FileName::Oal), b',')?;
    push_file(text, disk.contents(FileName::Wal), b'|')
}

// The target and its two logs as crashes leave them, by the choices from 0 on.
fn crashes(alloc: Global, disk: &MemoryDisk, choices: u64) -> Result<Vec<u8>, AllocError> {
    let mut text = Vec::new(alloc);
    for choice in 0..choices {
        push_files(&mut text, &disk.crash(alloc, choice)?)?;
    }
    Ok(text)
}

// A change of a disk, whether it fails, and what crashes leave then, by so many choices.
struct Row(Change, bool, u64, &'static str);

const RANGES: [Row; 3] = [
    Row(
        Change::Write(FileName::Target, 1, b"XY"),
        false,
        3,
        "abcd,-,-|aXYd,-,-|a##d,-,-|",
    ),
    Row(
        Change::Sync(FileName::Target),
        false,
        3,
        "aXYd,-,-|aXYd,-,-|aXYd,-,-|",
    ),
    Row(
        Change::Write(FileName::Target, 6, b"Z"),
        false,
        3,
        "aXYd000,-,-|aXYd00Z,-,-|aXYd###,-,-|",
    ),
];

const LENGTHS: [Row; 2] = [
    Row(
        Change::SetLen(FileName::Target, 2),
        false,
        3,
        "ab,-,-|ab,-,-|ab,-,-|",
    ),
    Row(
        Change::SetLen(FileName::Target, 4),
        false,
        3,
        "abcd,-,-|ab00,-,-|ab##,-,-|",
    ),
];

const NAMES: [Row; 5] = [
    Row(Change::Create(FileName::Oal), false, 2, "abcd,-,-|abcd,,-|"),
    Row(
        Change::Write(FileName::Oal, 0, b"log"),
        false,
        6,
        "abcd,-,-|abcd,000,-|abcd,-,-|abcd,log,-|abcd,-,-|abcd,###,-|",
    ),
    Row(
        Change::Rename(FileName::Oal, FileName::Wal),
        false,
        9,
        "abcd,-,-|abcd,000,-|abcd,-,000|abcd,-,-|abcd,log,-|abcd,-,log|abcd,-,-|abcd,###,-|abcd,-,###|",
    ),
    Row(
        Change::Sync(FileName::Wal),
        false,
        6,
        "abcd,-,-|abcd,log,-|abcd,-,log|abcd,-,-|abcd,log,-|abcd,-,log|",
    ),
    Row(Change::SyncFolder, false, 2, "abcd,-,log|abcd,-,log|"),
];

// The first call, the third and the fifth fail.
const FAILURES: [Row; 5] = [
    Row(
        Change::Write(FileName::Target, 0, b"XY"),
        true,
        3,
        "abcd,-,-|abcd,-,-|abcd,-,-|",
    ),
    Row(
        Change::Write(FileName::Target, 3, b"Z"),
        false,
        3,
        "abcd,-,-|abcZ,-,-|abc#,-,-|",
    ),
    Row(
        Change::Sync(FileName::Target),
        true,
        3,
        "abcd,-,-|abcZ,-,-|abc#,-,-|",
    ),
    Row(
        Change::Create(FileName::Oal),
        false,
        6,
        "abcd,-,-|abcd,,-|abcZ,-,-|abcZ,,-|abc#,-,-|abc#,,-|",
    ),
    Row(
        Change::Rename(FileName::Oal, FileName::Wal),
        true,
        6,
        "abcd,-,-|abcd,,-|abcZ,-,-|abcZ,,-|abc#,-,-|abc#,,-|",
    ),
];

fn crashes_are(
    alloc: Global,
    disk: &MemoryDisk,
    choices: u64,
    images: &str,
) -> Result<bool, AllocError> {
    let text = crashes(alloc, disk, choices)?;
    Ok(text.as_slice() == images.as_bytes())
}

fn rows_hold(alloc: Global, disk: &mut MemoryDisk, rows: &[Row]) -> Result<(), Fail> {
    for Row(change, fails, choices, images) in rows {
        ensure(make(disk, *change).is_err() == *fails, images)?;
        ensure(crashes_are(alloc, disk, *choices, images)?, images)?;
    }
    Ok(())
}

fn crashes_leave(alloc: Global, failing: &[u64], rows: &[Row]) -> Result<(), Fail> {
    let mut disk = small_disk(alloc, failing)?;
    rows_hold(alloc, &mut disk, rows)
}

#[test]
fn crashes_leave_what_is_pending_or_not(rt: HostRuntime) -> Result<(), Fail> {
    let alloc = rt.alloc();
    crashes_leave(alloc, &[], &RANGES)?;
    crashes_leave(alloc, &[], &LENGTHS)?;
    crashes_leave(alloc, &[], &NAMES)?;
    crashes_leave(alloc, &[0, 2, 4], &FAILURES)
}
