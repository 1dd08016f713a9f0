// A log that SQLite 3.40.1 wrote over a file: what is read of it over a disk, and the pages of the overlay against those that SQLite's own checkpoint leaves.
ghost use Rattle.file_pages.specs.Overlay.{HasPlaces};

use crate::ensure::ensure;
use crate::pages::{has_hash, push_pages};
use db_header::{Header, read_header};
use disk_memory::MemoryDisk;
use file_pages::{FileLogFault, FilePages, Log, file_log, file_start};
use rbu_disk::{DiskCall, DiskFault, FileName};
use std::alloc::{AllocError, Global};
use std::test::Fail;
use wal_codec::LogFault;

// A database of six pages of 512 bytes. A zero byte stands for as many as the byte behind it says.
const TARGET: &[u8] =
    b"SQLite format 3\0\x01\x02\0\x01\x02\x02\0\x01@  \0\x03\x02\0\x03\x06\0\x03\x05\0\x03\x01\0\x03\x01\0\x03\x04\0\x0b\x01\0#\x02\0\x01.c\x01\x0d\0\x03\x01\x01\xc8\0\x01\x01\xc8\0\xff\0[6\x01\x06\x17\x0f\x0f\x01]tablett\x02CREATE TABLE t(a integer primary key, b)\x05\x01\xf6\0\x01\x02\x01\xf1\0\x04\x06\x01\xfb\x01\xf1\x01\xf1\0\xff\0\xe3\x04\x04\0\x03\x05\0\x04\x03\x02\x0d\0\x03\x02\0\x01\xc6\0\x01\x01\xf9\0\x01\xc6\0\xba\x820\x02\x04\0\x01\x84d\0\xff\0-\x05\x01\x03\0\x01\x10\x01\x01\x0d\0\x03\x01\0\x01\xcd\0\x02\xcd\0\xc3\x820\x04\x04\0\x01\x84d\0\xff\0\xff\0\xff\0/\x0d\0\x03\x02\0\x01\xc6\0\x02\xcd\0\x01\xc6\0\xba\x05\x09\x03\0\x01\x10\x09\x09\x820\x05\x04\0\x01\x84d\0\xff\0-";

// Its log in the same form, on a machine with the least significant byte first: commits of 6, 7 and 7 pages that end at frames 1, 5 and 6, two frames
// that no commit ends, and behind them one of an older log.
const LOG: &[u8] =
    b"7\x7f\x06\x82\0\x01-\xe2\x18\0\x02\x02\0\x04\x02\x17x\xda\xc5\x88\x1e5\xc6\x9c\xa5{*\x1c\xb4qW\0\x03\x03\0\x03\x06\x17x\xda\xc5\x88\x1e5\xc6\xe6\xc12\xa9^L\x9e\xdc\x0d\0\x03\x02\0\x01\xc6\0\x01\x01\xf9\0\x01\xc6\0\xba\x820\x02\x04\0\x01\x84d\0\xff\0-\x05\x01\x03\0\x01\x10\x02\x02\0\x03\x01\0\x04\x17x\xda\xc5\x88\x1e5\xc6\xe5JbX\xc1\x06\x01\x01SQLite format 3\0\x01\x02\0\x01\x02\x02\0\x01@  \0\x03\x02\0\x03\x07\0\x0b\x01\0\x03\x04\0\x0b\x01\0#\x02\0\x01.c\x01\x0d\0\x03\x01\x01\xc8\0\x01\x01\xc8\0\xff\0[6\x01\x06\x17\x0f\x0f\x01]tablett\x02CREATE TABLE t(a integer primary key, b)\0\x03\x02\0\x04\x17x\xda\xc5\x88\x1e5\xc6\xb2K^)\x22\x9bn*\x05\0\x03\x04\x01\xec\0\x04\x07\x01\xfb\x01\xf1\x01\xf6\x01\xec\0\xff\0\xdc\x05\x14\0\x03\x04\x04\0\x03\x06\x09\0\x03\x03\x02\0\x03\x05\0\x04\x17x\xda\xc5\x88\x1e5\xc6a\xb1\0\x01\xc5b\x1dMk\x0d\0\x03\x01\0\x01i\0\x02i\0_\x83\x14\x14\x04\0\x01\x86,\0\xff\0\x94\x07\0\x03\x07\x17x\xda\xc5\x88\x1e5\xc6\x04\x0f\x94zj\x7f6:\x0d\0\x03\x02\0\x01\xc6\0\x02\xc6\0\x01\xcd\0\xba\x05\x15\x03\0\x01\x10!!\x820\x16\x04\0\x01\x84d\0\xff\00\x03\0\x03\x07\x17x\xda\xc5\x88\x1e5\xc6r\xe6Z^?\xedO\x87\x0d\0\x03\x02\0\x01\xc6\0\x01\x01\xf9\0\x01\xc6\0\xba\x820\x02\x04\0\x01\x84d\0\xff\0-\x05\x01\x03\0\x01\x10\x03\x03\0\x03\x08\0\x04\x17x\xda\xc5\x88\x1e5\xc6\xf0\x95\xa2\x19q.\xef\xaa\x0d\0\x03\x01\0\x017\0\x027\0-\x83F\x1e\x04\0\x01\x87\x10\0\xff\0\xc6\x09\0\x04\x17x\xda\xc5\x88\x1e5\xc6KMv\x04\xd0\xb8<b\x0d\0\x03\x01\0\x017\0\x027\0-\x83F\x1f\x04\0\x01\x87\x10\0\xff\0\xc6\x01\0\x04\x17x\xda\xc4\xb8\xeeB9\xb2\xf9\x1d\xd6\xed\x912TSQLite format 3\0\x01\x02\0\x01\x02\x02\0\x01@  \0\x03\x02\0\x03\x06\0\x0b\x01\0\x03\x04\0\x0b\x01\0#\x02\0\x01.c\x01\x0d\0\x03\x01\x01\xc8\0\x01\x01\xc8\0\xff\0[6\x01\x06\x17\x0f\x0f\x01]tablett\x02CREATE TABLE t(a integer primary key, b)";

// The checksums of the header and of the eight frames in the other byte order, summed apart from this project.
const BIG_SUMS: &[u8] =
    b"-}\xa5\x9e\x5ct\xb5\x1f\xa8H\xc0\xce\xb0\x8eM\xef!\x07\x11\x87\xec\xea \xae\x19\xc8r\x91\x81\x06\x03Y!\xfb\xa3cZ\xc3\xa7\xf7\xb2\xc6\x91\xf0@\xa9g\xee\x22\xde\0\08#\xae\x17\xdcm\xaa\xd9]L\x7f\xc6DP\xc7ve\xa9\x0c\xa3";

// The pages of the eight frames.
const FRAMES: [u32; 8] = [3, 1, 2, 5, 7, 3, 8, 9];

// How many bytes of the log there are, how many valid frames, how many of them up to the last commit and how many pages after it, and the
// SHA-256 of the file after SQLite's own checkpoint: the whole log, a torn frame behind the last commit, a torn commit, one commit, and none.
const CUTS: [(usize, usize, u64, u32, &str); 5] = [
    (
        4856,
        8,
        6,
        7,
        "503b78b5ad7b44648153ede5dd52f41299c1e2f92d48028d208fbc204e369aec",
    ),
    (
        4220,
        7,
        6,
        7,
        "503b78b5ad7b44648153ede5dd52f41299c1e2f92d48028d208fbc204e369aec",
    ),
    (
        3148,
        5,
        5,
        7,
        "00e8d61fa3231e3d0afd63f7f4d1a34eacbee1743bb73c22cfaebb3855dec3be",
    ),
    (
        568,
        1,
        1,
        6,
        "307764049fab12d44d3bca6ed86742e1a17c57a05d43ca3d0f4f2f0a3e2a254d",
    ),
    (
        32,
        0,
        0,
        0,
        "0f5fd0c1fd38856dbb9fbbd190fd9501c80978d3802e773c6d8ab447d19dc743",
    ),
];

// The bytes with all zeros.
fn unpacked(alloc: Global, packed: &[u8]) -> Result<Vec<u8>, AllocError> {
    let mut bytes = Vec::new(alloc);
    let mut is_run = false;
    for byte in packed {
        if is_run {
            for _ in 0..*byte {
                bytes.push(0)?;
            }
            is_run = false;
        } else if *byte == 0 {
            is_run = true;
        } else {
            bytes.push(*byte)?;
        }
    }
    Ok(bytes)
}

// The byte at a place of the log, as it is in the other byte order.
fn in_big_order(at: usize, byte: u8) -> u8 {
    if at == 3 {
        return 0x83;
    }
    if at < 24 || (32 <= at && at < 48) {
        return byte;
    }
    if at < 32 {
        return BIG_SUMS.get(at - 24).copied().unwrap_or(byte);
    }
    let behind = at - 48;
    if behind % 536 >= 8 {
        return byte;
    }
    let place = behind / 536 * 8 + behind % 536;
    BIG_SUMS.get(place + 8).copied().unwrap_or(byte)
}

/// The first bytes of the log, in one of the byte orders.
pub fn log_bytes(alloc: Global, is_big: bool, len: usize) -> Result<Vec<u8>, AllocError> {
    let little = unpacked(alloc, LOG)?;
    let mut log = Vec::new(alloc);
    for (at, byte) in little.as_slice().iter().enumerate() {
        if at < len {
            log.push(if is_big {
                in_big_order(at, *byte)
            } else {
                *byte
            })?;
        }
    }
    Ok(log)
}

/// A disk with the file and this log under a name, whose calls with these numbers fail.
pub fn disk_with(
    alloc: Global,
    name: FileName,
    log: Vec<u8>,
    failing: &[u64],
) -> Result<MemoryDisk, AllocError> {
    let mut files = Vec::new(alloc);
    files.push((FileName::Target, unpacked(alloc, TARGET)?))?;
    files.push((name, log))?;
    Ok(MemoryDisk::new(alloc, files, Vec::from_slice(alloc, failing)?))
}

// The header of the overlay, as if the file were not in WAL mode.
fn header_of(disk: &mut MemoryDisk, log: &Log) -> Result<Header, Fail>
    requires { HasPlaces log.now }
{
    let mut first = [0; 100];
    let (n, len) = file_start(disk, FileName::Target, Some(log), &mut first)?;
    first[18] = 1;
    first[19] = 1;
    Ok(read_header(&first[..n], len)?)
}

// All pages of the overlay.
fn overlay(alloc: Global, disk: &mut MemoryDisk, log: &Log, header: Header) -> Result<Vec<u8>, Fail>
    requires { HasPlaces log.now }
{
    if header.page_size != log.page_size || header.page_size < u32::from(header.reserved) {
        return Err(Fail::new("another page size"));
    }
    let mut pages = Vec::new(alloc);
    let mut store = FilePages {
        disk,
        file: FileName::Target,
        log: Some(log),
        header,
    };
    push_pages(&mut store, &mut pages)?;
    Ok(pages)
}

// The overlay by a log has this SHA-256.
fn has_overlay(alloc: Global, disk: &mut MemoryDisk, log: &Log, sha256: &str) -> Result<bool, Fail>
    requires { HasPlaces log.now }
{
    let header = header_of(disk, log)?;
    let pages = overlay(alloc, disk, log, header)?;
    Ok(has_hash(alloc, pages.as_slice(), sha256)?)
}

fn check_cut(
    alloc: Global,
    disk: &mut MemoryDisk,
    cut: (usize, usize, u64, u32, &str),
) -> Result<(), Fail> {
    let (_, frames, committed, pages, sha256) = cut;
    let log = file_log(alloc, disk, FileName::Wal, committed)?;
    let is_found = log.page_size == 512
        && Some(log.frames.as_slice()) == FRAMES.get(..frames)
        && log.committed == committed
        && log.commit_pages == pages;
    ensure(is_found, "the frames")?;
    ensure(has_overlay(alloc, disk, &log, sha256)?, "the overlay")
}

fn check_cuts(alloc: Global, is_big: bool) -> Result<(), Fail> {
    for cut in CUTS {
        let mut disk = disk_with(alloc, FileName::Wal, log_bytes(alloc, is_big, cut.0)?, &[])?;
        check_cut(alloc, &mut disk, cut)?;
    }
    Ok(())
}

#[test]
fn overlay_is_what_a_checkpoint_of_sqlite_leaves(rt: HostRuntime) -> Result<(), Fail> {
    check_cuts(rt.alloc(), false)?;
    check_cuts(rt.alloc(), true)
}

// How many bytes of the log there are, how many frames are needed, and the fault: no commit, an older frame, a part of a frame, and a short header.
const FAULTS: [(usize, u64, LogFault); 4] = [
    (4856, 8, LogFault::LogFrame { number: 8 }),
    (4856, 10, LogFault::LogFrame { number: 9 }),
    (3148, 6, LogFault::LogFrame { number: 6 }),
    (31, 0, LogFault::LogHeader),
];

fn has_fault(alloc: Global, disk: &mut MemoryDisk, needed: u64, fault: FileLogFault) -> bool {
    file_log(alloc, disk, FileName::Wal, needed).is_err_and(|other| other == fault)
}

fn have_faults(alloc: Global) -> Result<(), Fail> {
    for (len, needed, fault) in FAULTS {
        let mut disk = disk_with(alloc, FileName::Wal, log_bytes(alloc, false, len)?, &[])?;
        ensure(
            has_fault(alloc, &mut disk, needed, FileLogFault::InBytes(fault)),
            "a log with a fault",
        )?;
    }
    Ok(())
}

// The number of the call that fails, and what it is.
const FAILING: [(u64, DiskCall); 3] = [
    (0, DiskCall::Len),
    (1, DiskCall::Read),
    (2, DiskCall::Read),
];

fn tell_failing_calls(alloc: Global) -> Result<(), Fail> {
    for (number, call) in FAILING {
        let mut disk = disk_with(
            alloc,
            FileName::Wal,
            log_bytes(alloc, false, 4856)?,
            &[number],
        )?;
        let fault = DiskFault {
            file: FileName::Wal,
            call,
        };
        ensure(
            has_fault(alloc, &mut disk, 0, FileLogFault::OfDisk(fault)),
            "a call that fails",
        )?;
    }
    Ok(())
}

#[test]
fn faults_of_a_log_in_a_file_are_told(rt: HostRuntime) -> Result<(), Fail> {
    have_faults(rt.alloc())?;
    tell_failing_calls(rt.alloc())
}
