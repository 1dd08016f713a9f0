// Updates whose rows are inserted, and some whose rows are not.
use crate::ensure::ensure;
use crate::example::{Parts, disk_with, disk_with_gaps, example_disk, write_parts};
use crate::runs::{Left, TARGET_BEFORE, are_updated, has_same_files, has_sum, stopped, updated};
use disk_memory::MemoryDisk;
use rbu_disk::{DiskFault, FileName};
use std::alloc::{AllocError, Global};
use std::test::Fail;

// The target's second page begins and ends with these bytes.
fn has_rows(left: &Left, front: &[u8], back: &[u8]) -> bool {
    match left.disk.contents(FileName::Target) {
        Some(bytes) => bytes.iter().skip(4096).take(front.len()).eq(front) && bytes.ends_with(back),
        None => false,
    }
}

fn inserts_drei(alloc: Global, before: &MemoryDisk) -> Result<(), Fail> {
    let left = updated(alloc, before, 0, "done\n")?;
    ensure(are_updated(alloc, &left.disk)?, "the updated files")
}

fn example_is_updated(alloc: Global) -> Result<(), Fail> {
    let before = example_disk(alloc)?;
    let is_example = has_sum(alloc, &before, FileName::Target, TARGET_BEFORE)?;
    ensure(is_example, "the target before")?;
    inserts_drei(alloc, &before)
}

fn target_with_gaps_is_updated(alloc: Global) -> Result<(), Fail> {
    let before = disk_with_gaps(alloc)?;
    inserts_drei(alloc, &before)
}

#[test]
fn prepared_row_is_inserted_whatever_gaps_the_page_has(rt: HostRuntime) -> Result<(), Fail> {
    example_is_updated(rt.alloc())?;
    target_with_gaps_is_updated(rt.alloc())
}

// What differs after an update without prepared rows: the last byte of the change counter, of the schema cookie, and of
// the change counter for which the size is valid.
const RAISED: Parts = &[(27, b"\x08"), (43, b"\x02"), (95, b"\x08")];

fn raised(alloc: Global) -> Result<MemoryDisk, DiskFault> {
    let mut disk = disk_with(alloc, &[])?;
    write_parts(&mut disk, FileName::Target, RAISED)?;
    Ok(disk)
}

// The update leaves the files of the other disk.
fn leaves_files_of(alloc: Global, before: &MemoryDisk, after: &MemoryDisk) -> Result<(), Fail> {
    let left = updated(alloc, before, 0, "done\n")?;
    ensure(has_same_files(&left.disk, after), "the files of an update")
}

fn raises_the_counters(alloc: Global, before: &MemoryDisk) -> Result<(), Fail> {
    let after = raised(alloc)?;
    leaves_files_of(alloc, before, &after)
}

#[test]
fn update_without_prepared_rows_raises_the_counters_alone(rt: HostRuntime) -> Result<(), Fail> {
    let before = disk_with(rt.alloc(), &[])?;
    raises_the_counters(rt.alloc(), &before)
}

// Prepared rows: (9, NULL), which comes behind the old rows, and (-1, ''), which comes before them.
const NINE: &[u8] = b"\x05\x01\x04\x01\x00\x08\x09";

const MINUS_ONE: &[u8] = b"\x05\x02\x04\x01\x0d\x08\xff";

const IN_ORDER_FRONT: &[u8] =
    b"\x0d\x00\x00\x00\x04\x0f\xde\x00\x0f\xf3\x0f\xeb\x0f\xe3\x0f\xde\x00";

const IN_ORDER_BACK: &[u8] =
    b"\x00\x03\x09\x03\x00\x00\x06\x02\x03\x00\x13two\x06\x01\x03\x00\x13one\
    \x03\xff\xff\xff\xff\xff\xff\xff\xff\xff\x03\x00\x0d";

fn fills_the_page(
    alloc: Global,
    before: &MemoryDisk,
    front: &[u8],
    back: &[u8],
) -> Result<(), Fail> {
    let left = updated(alloc, before, 0, "done\n")?;
    ensure(has_rows(&left, front, back), "the page of rows")
}

#[test]
fn inserted_rows_stand_in_the_order_of_their_rowids(rt: HostRuntime) -> Result<(), Fail> {
    let before = disk_with(rt.alloc(), &[NINE, MINUS_ONE])?;
    fills_the_page(rt.alloc(), &before, IN_ORDER_FRONT, IN_ORDER_BACK)
}

// Cells of prepared rows, and what the update says of them: (2, 'x'); keys 2 and 1 behind a free one; key 2 at rowid
// -1, before a free one; one key twice, also where the old rows have it; and one key twice where the second control
// does not insert.
const STOPPED: &[(&[&[u8]], u8, &str)] = &[
    (
        &[b"\x06\x01\x04\x01\x0f\x08\x02x"],
        3,
        "constraint key-present t1 1\n",
    ),
    (
        &[
            b"\x06\x01\x04\x01\x0f\x08\x09x",
            b"\x06\x02\x04\x01\x0f\x08\x02x",
            b"\x05\x03\x04\x09\x0f\x08x",
        ],
        3,
        "constraint key-present t1 3\n",
    ),
    (
        &[
            b"\x05\xff\xff\xff\xff\xff\xff\xff\xff\xff\x04\x01\x00\x08\x02",
            b"\x06\x02\x04\x01\x0f\x08\x09x",
        ],
        3,
        "constraint key-present t1 -1\n",
    ),
    (
        &[
            b"\x05\x01\x04\x01\x00\x08\x05",
            b"\x05\x02\x04\x01\x00\x08\x05",
        ],
        4,
        "refused 1 NotYet rows\n",
    ),
    (
        &[
            b"\x05\x01\x04\x01\x00\x08\x02",
            b"\x05\x02\x04\x01\x00\x08\x02",
        ],
        4,
        "refused 1 NotYet rows\n",
    ),
    (
        &[
            b"\x05\x01\x04\x01\x00\x08\x05",
            b"\x05\x02\x04\x01\x00\x09\x05",
        ],
        4,
        "refused 1 NotYet rbu\n",
    ),
];

fn is_stopped(
    alloc: Global,
    prepared: &[&[u8]],
    status: u8,
    line: &'static str,
) -> Result<(), Fail> {
    let before = disk_with(alloc, prepared)?;
    stopped(alloc, &before, status, line)
}

#[test]
fn prepared_rows_that_are_not_inserted_change_no_file(rt: HostRuntime) -> Result<(), Fail> {
    for (prepared, status, line) in STOPPED {
        is_stopped(rt.alloc(), prepared, *status, line)?;
    }
    Ok(())
}

// A prepared row with a key and a text of so many letters, at least 1017 and at most 8184.
fn long_row(alloc: Global, rowid: u8, key: u8, letters: u16) -> Result<Vec<u8>, AllocError> {
    let mut cell = Vec::new(alloc);
    push_varint(&mut cell, letters.wrapping_add(6))?;
    cell.extend_from_slice(&[rowid, 5, 1])?;
    push_varint(&mut cell, letters.wrapping_mul(2).wrapping_add(13))?;
    cell.extend_from_slice(&[8, key])?;
    cell.resize(cell.len().wrapping_add(usize::from(letters)), b'x')?;
    Ok(cell)
}

// A number from 128 to 16383.
fn push_varint(bytes: &mut Vec<u8>, number: u16) -> Result<(), AllocError> {
    let [high, low] = number.wrapping_mul(2).to_be_bytes();
    bytes.extend_from_slice(&[0x80 | high, low / 2])
}

// A disk with two long prepared rows, the second of 2025 letters.
fn disk_with_long_rows(
    alloc: Global,
    first_key: u8,
    letters: u16,
    second_key: u8,
) -> Result<MemoryDisk, Fail> {
    let first = long_row(alloc, 1, first_key, letters)?;
    let second = long_row(alloc, 2, second_key, 2025)?;
    Ok(disk_with(alloc, &[&first, &second])?)
}

const FULL_FRONT: &[u8] =
    b"\x0d\x00\x00\x00\x04\x00\x10\x00\x0f\xf8\x0f\xf0\x08\x00\x00\x10\x8f\x6d\x04\x04\x00\x9f\x5fx";

const FULL_BACK: &[u8] = b"x\x06\x02\x03\x00\x13two\x06\x01\x03\x00\x13one";

// With the old rows, two rows of 2025 letters fill their page: 8 + 4 * 2 + 8 + 8 + 2032 + 2032 is 4096.
fn two_rows_fill_the_page(alloc: Global) -> Result<(), Fail> {
    let before = disk_with_long_rows(alloc, 4, 2025, 3)?;
    fills_the_page(alloc, &before, FULL_FRONT, FULL_BACK)
}

// Keys of two rows of which the first is a byte longer, and what the update says.
const NO_ROOM: [(u8, u8, &str); 3] = [
    (3, 4, "refused 1 NotYet room\n"),
    (2, 4, "refused 1 NotYet room\n"),
    (4, 4, "refused 1 NotYet rows\n"),
];

fn byte_more_is_refused(
    alloc: Global,
    first_key: u8,
    second_key: u8,
    line: &'static str,
) -> Result<(), Fail> {
    let before = disk_with_long_rows(alloc, first_key, 2026, second_key)?;
    stopped(alloc, &before, 4, line)
}

#[test]
fn rows_fill_their_page_to_the_last_byte(rt: HostRuntime) -> Result<(), Fail> {
    two_rows_fill_the_page(rt.alloc())?;
    for (first, second, line) in NO_ROOM {
        byte_more_is_refused(rt.alloc(), first, second, line)?;
    }
    Ok(())
}
