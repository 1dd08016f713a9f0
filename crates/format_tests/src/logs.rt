// Logs that SQLite wrote, read against what an independent reading of them says.
ghost use Rattle.std.specs.Prelude.{◌<◌};

use crate::ensure::ensure;
use owned_list::OwnedList;
use std::alloc::{AllocError, Global};
use std::test::Fail;
use wal_codec::{Log, LogFault, checksum, header_bytes, read_log};
use wal_index::WalIndex;

#[test]
fn sums_wrap_and_the_greatest_page_has_its_size(_rt: HostRuntime) -> Result<(), Fail> {
    let mut greatest = [0; 32];
    let _ = header_bytes(65536, [1, 2], &mut greatest);
    ensure(
        &greatest[8..12] == b"\0\x01\0\0".as_slice(),
        "a page size of 65536",
    )?;
    let bytes = b"\xff\xff\xff\xff\x02\0\0\0\x01\x02\0\0\0\0\0\x01";
    ensure(checksum(bytes, false, [1, 2]) == [521, 16777743], "sums")
}

// The checksums of the header and of five frames in a log that SQLite 3.40.1 wrote on a machine with the least significant
// byte first.
const LITTLE_SUMS: &[u8] =
    b"\x6b\x5a\x54\xa7\x58\xc8\x65\xee\x82\x2b\x8d\x4b\x46\x8e\x18\x4b\xc8\xe9\x51\xbe\xf1\xd7\x33\x0c\x3e\x99\xa6\x2b\x93\x88\x7a\x5a\x82\xa0\x5a\x47\x8a\xeb\x87\x33\x4f\x40\x81\x8e\x59\x2c\x71\x98";

// The same in the other byte order, summed apart from this project.
const BIG_SUMS: &[u8] =
    b"\xaa\x56\x5a\x6d\xf3\x68\xc8\x5b\x17\xf6\x99\xd3\x84\x0f\x1b\xe7\x31\x30\x55\x16\xb7\xff\xc1\x06\xf6\x37\x30\x6b\x3b\xa8\x7a\x09\xb0\x87\x3e\x4d\x08\x16\x1f\xc0\xd9\x8e\xdc\x15\xaa\x88\x5c\xc6";

// The eight bytes of a checksum.
fn sums_at(sums: &[u8], number: usize) -> &[u8] {
    sums.chunks(8).nth(number).unwrap_or(&[])
}

// The header with this last byte of the magic number: pages of 512 bytes, checkpoint sequence 1.
fn push_header(log: &mut Vec<u8>, magic: u8, sums: &[u8]) -> Result<(), AllocError> {
    log.extend_from_slice(b"\x37\x7f\x06")?;
    log.push(magic)?;
    log.extend_from_slice(b"\0\x2d\xe2\x18\0\0\x02\0\0\0\0\x01\x94\x51\x8f\x95\xa2\x39\x94\x34")?;
    log.extend_from_slice(sums)?;
    Ok(())
}

// Zeros up to this length of the log.
fn fill(log: &mut Vec<u8>, len: usize) -> Result<(), AllocError> {
    log.resize(len, 0)?;
    Ok(())
}

// A frame of page `row + 3`, a table leaf with one row of a blob of one byte.
fn push_frame(log: &mut Vec<u8>, row: u8, commit: u8, sums: &[u8]) -> Result<(), AllocError>
    requires { row < 10 }
{
    let at = log.len();
    log.extend_from_slice(&[0, 0, 0, row + 3, 0, 0, 0, commit])?;
    log.extend_from_slice(b"\x94\x51\x8f\x95\xa2\x39\x94\x34")?;
    log.extend_from_slice(sums)?;
    log.extend_from_slice(b"\x0d\0\0\0\x01\x01\xfa\0\x01\xfa")?;
    fill(log, at + 131)?;
    log.extend_from_slice(b"\x01\x97")?;
    fill(log, at + 530)?;
    log.extend_from_slice(&[4, row + 1, 3, 0, 14, row])?;
    Ok(())
}

// A frame of the log before it was begun anew.
fn push_old_frame(log: &mut Vec<u8>) -> Result<(), AllocError> {
    log.extend_from_slice(b"\0\0\0\x03\0\0\0\0\x94\x51\x8f\x94\x61\x86\x95\xed")?;
    log.extend_from_slice(b"\x1f\x04\xec\x7f\xe3\xe8\x9c\xb4\x0d\0\0\0\x01\0\x69\0\0\x69")?;
    fill(log, 2841)?;
    log.extend_from_slice(b"\x83\x14\x01\x04\0\x86\x2c")?;
    fill(log, 3248)
}

// Five frames: two commits of 9 pages, three that no commit ends, and behind them one of an older log.
fn log_of_sqlite(alloc: Global, magic: u8, sums: &[u8]) -> Result<Vec<u8>, AllocError> {
    let mut log = Vec::new(alloc);
    push_header(&mut log, magic, sums_at(sums, 0))?;
    for row in 1..6u8 {
        let commit = if row < 3 { 9 } else { 0 };
        push_frame(&mut log, row, commit, sums_at(sums, usize::from(row)))?;
    }
    push_old_frame(&mut log)?;
    Ok(log)
}

// The first bytes of a log.
fn front(log: &[u8], len: usize) -> &[u8] {
    log.get(..len).unwrap_or(&[])
}

// What is kept of a log of pages of 512 bytes with these frames.
fn is_log(log: &Log, frames: &[u32], committed: u64, sums: [u32; 2]) -> bool {
    log.page_size == 512
        && log.salt == [2488373141, 2721682484]
        && log.frames.as_slice() == frames
        && log.committed == committed
        && log.commit_pages == if committed == 0 { 0 } else { 9 }
        && log.sums == sums
}

// What is kept of a log of which so many frames are needed.
fn is_read(
    alloc: Global,
    log: &[u8],
    needed: u64,
    frames: &[u32],
    sums: [u32; 2],
) -> Result<bool, Fail> {
    let log = read_log(alloc, log, needed)?;
    Ok(is_log(&log, frames, if frames.is_empty() { 0 } else { 2 }, sums))
}

// The frames of a log in either order of its checksums' bytes, with the sums at the fifth frame, at the fourth and at the header.
fn check_frames(alloc: Global, log: &[u8], sums: [[u32; 2]; 3]) -> Result<(), Fail> {
    let whole = is_read(alloc, log, 2, &[4, 5, 6, 7, 8], sums[0])?;
    ensure(whole, "all frames")?;
    let torn = is_read(alloc, front(log, 2711), 0, &[4, 5, 6, 7], sums[1])?;
    ensure(torn, "a torn frame")?;
    let empty = is_read(alloc, front(log, 32), 0, &[], sums[2])?;
    ensure(empty, "no frame")
}

// The fault of a log of which so many frames are needed.
fn has_fault(alloc: Global, log: &[u8], needed: u64, fault: LogFault) -> bool {
    read_log(alloc, log, needed).is_err_and(|other| other == fault)
}

fn log_is_read(alloc: Global, magic: u8, all: &[u8], sums: [[u32; 2]; 3]) -> Result<(), Fail> {
    let log = log_of_sqlite(alloc, magic, all)?;
    check_frames(alloc, log.as_slice(), sums)
}

#[test]
fn logs_of_sqlite_are_read(rt: HostRuntime) -> Result<(), Fail> {
    let little = [
        [1329627534, 1496084888],
        [2191546951, 2330691379],
        [1801082023, 1489528302],
    ];
    log_is_read(rt.alloc(), 0x82, LITTLE_SUMS, little)?;
    let big = [
        [3650018325, 2861063366],
        [2961653325, 135667648],
        [2857785965, 4083730523],
    ];
    log_is_read(rt.alloc(), 0x83, BIG_SUMS, big)
}

// How many bytes of the log there are, how many frames are needed, and the fault: no commit, an older frame, a part of a frame, and
// a short header.
const FAULTS: [(usize, u64, LogFault); 4] = [
    (3248, 3, LogFault::LogFrame { number: 3 }),
    (3248, 7, LogFault::LogFrame { number: 6 }),
    (2711, 5, LogFault::LogFrame { number: 5 }),
    (31, 0, LogFault::LogHeader),
];

fn have_faults(alloc: Global, log: &[u8]) -> Result<(), Fail> {
    for (len, needed, fault) in FAULTS {
        ensure(
            has_fault(alloc, front(log, len), needed, fault),
            "a log with a fault",
        )?;
    }
    Ok(())
}

fn log_lacks_frames(alloc: Global) -> Result<(), Fail> {
    let log = log_of_sqlite(alloc, 0x82, LITTLE_SUMS)?;
    have_faults(alloc, log.as_slice())
}

fn sums_have_the_other_order(alloc: Global) -> Result<(), Fail> {
    let log = log_of_sqlite(alloc, 0x83, LITTLE_SUMS)?;
    let is_refused = has_fault(alloc, log.as_slice(), 0, LogFault::LogHeader);
    ensure(is_refused, "a wrong checksum")
}

#[test]
fn logs_that_lack_a_needed_frame_are_refused(rt: HostRuntime) -> Result<(), Fail> {
    log_lacks_frames(rt.alloc())?;
    sums_have_the_other_order(rt.alloc())
}

// The index of the log with these pages in its frames.
fn index_of(alloc: Global, log: &[u8], pages: &[u32]) -> Result<WalIndex, Fail> {
    let mut log = read_log(alloc, log, 0)?;
    log.frames = OwnedList::from_vec(pages.to_vec(alloc)?);
    Ok(WalIndex::of_log(alloc, &log)?)
}

// A page, a mark, and the page's last frame up to the mark; the last two have none.
const LAST_FRAMES: [(u32, u64, Option<u64>); 5] = [
    (1, 5, Some(4)),
    (1, 3, Some(2)),
    (3, 4, Some(1)),
    (2, 2, None),
    (7, 9, None),
];

fn finds_last_frames(index: &WalIndex) -> Result<(), Fail> {
    for (page, mark, frame) in LAST_FRAMES {
        ensure(index.find(page, mark) == frame, "a page's last frame")?;
    }
    ensure(index.max_frame() == 5 && index.pages() == 9, "sizes")
}

fn counts_copied_frames(index: &mut WalIndex) -> Result<(), Fail> {
    index.set_backfilled(2);
    ensure(index.backfilled() == 2, "frames that were copied")
}

#[test]
fn last_frames_of_pages_are_found(rt: HostRuntime) -> Result<(), Fail> {
    let log = log_of_sqlite(rt.alloc(), 0x82, LITTLE_SUMS)?;
    let mut index = index_of(rt.alloc(), log.as_slice(), &[3, 1, 2, 1, 3])?;
    finds_last_frames(&index)?;
    counts_copied_frames(&mut index)
}
