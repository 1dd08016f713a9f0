// Databases of one table of one page, and bytes that are none.
use crate::ensure::ensure;
use rbu_value::Value;
use small_file::{read_rbu, read_target};
use small_spec::{PreparedRow, TargetRow};
use std::alloc::{AllocError, Global};
use std::test::Fail;

// Bytes of a file, each part with its place.
type Parts<'a> = &'a [(usize, &'a [u8])];

const FILE_HEADER: Parts<'static> = &[
    (
        0,
        b"SQLite format 3\0\x10\x00\x01\x01\x00\x40\x20\x20\x00\x00\x00\x07\x00\x00\x00\x02",
    ),
    (43, b"\x01\x00\x00\x00\x04"),
    (59, b"\x01"),
    (95, b"\x07\x00\x2d\xe2\x18"),
];

// The target with the rows (1, 'one') and (2, 'two').
const TARGET: Parts<'static> = &[
    (100, b"\x0d\x00\x00\x00\x01\x0f\xc5\x00\x0f\xc5"),
    (
        4037,
        b"\x39\x01\x06\x17\x11\x11\x01\x5ftablet1t1\x02CREATE TABLE t1(a INTEGER PRIMARY KEY, b)",
    ),
    (4096, b"\x0d\x00\x00\x00\x02\x0f\xf0\x00\x0f\xf8\x0f\xf0"),
    (8176, b"\x06\x02\x03\x00\x13two\x06\x01\x03\x00\x13one"),
];

// The RBU database with the prepared row (3, 'drei', 0).
const RBU: Parts<'static> = &[
    (24, b"\x00\x00\x00\x01"),
    (92, b"\x00\x00\x00\x01"),
    (100, b"\x0d\x00\x00\x00\x01\x0f\xbd\x00\x0f\xbd"),
    (
        4029,
        b"\x41\x01\x06\x17\x1b\x1b\x01\x5btabledata_t1data_t1\x02CREATE TABLE data_t1(a, b, rbu_control)",
    ),
    (4096, b"\x0d\x00\x00\x00\x01\x0f\xf5\x00\x0f\xf5"),
    (8181, b"\x09\x01\x04\x01\x15\x08\x03drei"),
];

fn put(bytes: &mut [u8], at: usize, part: &[u8]) {
    for (byte, new) in bytes.iter_mut().skip(at).zip(part) {
        *byte = *new;
    }
}

fn put_all(bytes: &mut [u8], parts: Parts<'_>) {
    for (at, part) in parts {
        put(bytes, *at, part);
    }
}

fn file(alloc: Global, parts: Parts<'_>) -> Result<Vec<u8>, AllocError> {
    let mut bytes = vec![in alloc; 0; 8192]?;
    put_all(bytes.as_mut_slice(), FILE_HEADER);
    put_all(bytes.as_mut_slice(), parts);
    Ok(bytes)
}

/// The target with these bytes changed.
pub fn target_with(alloc: Global, changes: Parts<'_>) -> Result<Vec<u8>, AllocError> {
    let mut bytes = file(alloc, TARGET)?;
    put_all(bytes.as_mut_slice(), changes);
    Ok(bytes)
}

fn are_rows(rows: &[TargetRow], expected: &[(i64, &[u8])]) -> bool {
    for (row, (rowid, cell)) in rows.iter().zip(expected) {
        if row.rowid != *rowid || row.cell.as_slice() != *cell {
            return false;
        }
    }
    rows.len() == expected.len()
}

// The target with these changes has these rows, each with its cell.
fn has_rows(alloc: Global, changes: Parts<'_>, expected: &[(i64, &[u8])]) -> Result<(), Fail> {
    let bytes = target_with(alloc, changes)?;
    match read_target(alloc, bytes.as_slice())? {
        Some(rows) => ensure(are_rows(rows.as_slice(), expected), "the rows"),
        None => Err(Fail::new("a target")),
    }
}

const BOTH: &[(i64, &[u8])] = &[
    (1, b"\x06\x01\x03\x00\x13one"),
    (2, b"\x06\x02\x03\x00\x13two"),
];

// A page with a freeblock, whose cells stand in the order of their rowids.
const FREEBLOCK: Parts<'static> = &[
    (4096, b"\x0d\x0f\xe0\x00\x02\x0f\xe0\x01\x0f\xf0\x0f\xf8"),
    (8160, b"\x00\x00\x00\x10"),
    (8176, b"\x06\x01\x03\x00\x13one\x06\x02\x03\x00\x13two"),
];

const LONGER_VARINTS: Parts<'static> = &[
    (4096, b"\x0d\x00\x00\x00\x01\x0f\xf6\x00\x0f\xf6"),
    (8182, b"\x80\x06\x80\x01\x03\x00\x13one"),
];

const NULL_AND_EMPTY: Parts<'static> = &[
    (4096, b"\x0d\x00\x00\x00\x02\x0f\xf6\x00\x0f\xfb\x0f\xf6"),
    (8182, b"\x03\x02\x03\x00\x0d\x03\x01\x03\x00\x00"),
];

#[test]
fn targets_are_read(rt: HostRuntime) -> Result<(), Fail> {
    let alloc = rt.alloc();
    has_rows(alloc, &[], BOTH)?;
    has_rows(alloc, FREEBLOCK, BOTH)?;
    let long: &[u8] = b"\x80\x06\x80\x01\x03\x00\x13one";
    has_rows(alloc, LONGER_VARINTS, &[(1, long)])?;
    let null: &[u8] = b"\x03\x01\x03\x00\x00";
    let empty: &[u8] = b"\x03\x02\x03\x00\x0d";
    has_rows(alloc, NULL_AND_EMPTY, &[(1, null), (2, empty)])?;
    has_rows(alloc, &[(4096, b"\x0d\x00\x00\x00\x00\x00\x00")], &[])
}

// Changes of the target that make it none.
const NO_TARGETS: &[(usize, &[u8])] = &[
    (15, b"1"),
    (20, b"\x01"),
    (31, b"\x03"),
    (95, b"\x06"),
    // the schema's row at rowid 2
    (4038, b"\x02"),
    // rowids that fall, and equal ones
    (4104, b"\x0f\xf0\x0f\xf8"),
    (8177, b"\x01"),
    // a cell over the end of the page
    (4104, b"\x0f\xf8\x0f\xff"),
];

const LONGER_INSIDE_A_RECORD: Parts<'static> = &[
    (8174, b"\x07\x02\x04\x00\x80\x13two"),
    (4106, b"\x0f\xee"),
];

const CELL_INSIDE_ANOTHER: Parts<'static> = &[
    (4104, b"\x0f\xf0\x0f\xf5"),
    (8176, b"\x0d\x01\x03\x00\x21\x03\x02\x03\x00\x00\0\0\0\0\0"),
];

fn is_no_target(alloc: Global, bytes: &[u8]) -> Result<(), Fail> {
    ensure(read_target(alloc, bytes)?.is_none(), "no target")
}

#[test]
fn other_files_are_no_targets(rt: HostRuntime) -> Result<(), Fail> {
    let alloc = rt.alloc();
    for change in NO_TARGETS {
        is_no_target(alloc, &target_with(alloc, &[*change])?)?;
    }
    is_no_target(alloc, &target_with(alloc, LONGER_INSIDE_A_RECORD)?)?;
    is_no_target(alloc, &target_with(alloc, CELL_INSIDE_ANOTHER)?)?;
    let mut bytes = file(alloc, TARGET)?;
    ensure(read_rbu(alloc, &bytes)?.is_none(), "no RBU database")?;
    bytes.truncate(8191);
    is_no_target(alloc, &bytes)
}

// The RBU database whose one cell begins at this byte of the file.
fn rbu_with(alloc: Global, place: u16, cell: &[u8]) -> Result<Vec<u8>, AllocError> {
    let mut bytes = file(alloc, RBU)?;
    put(bytes.as_mut_slice(), usize::from(place), cell);
    let entry = place.wrapping_sub(4096).to_be_bytes();
    put(bytes.as_mut_slice(), 4104, &entry);
    Ok(bytes)
}

// The value is this text, or NULL.
fn is_value(value: &Value, text: Option<&[u8]>) -> bool {
    match (value, text) {
        (Value::Text(bytes), Some(text)) => bytes.as_slice() == text,
        (Value::Null, None) => true,
        _ => false,
    }
}

fn is_one_row(rows: &[PreparedRow], key: i64, text: Option<&[u8]>) -> bool {
    match rows {
        [row] => row.data_rowid == 1 && row.key == key && is_value(&row.value, text),
        _ => false,
    }
}

// Cells of prepared rows, with key and value.
const PREPARED: &[(&[u8], i64, Option<&[u8]>)] = &[
    (b"\x09\x01\x04\x01\x15\x08\x03drei", 3, Some(b"drei")),
    (b"\x05\x01\x04\x01\x00\x08\x03", 3, None),
    (b"\x04\x01\x04\x09\x0d\x08", 1, Some(b"")),
    (b"\x06\x01\x04\x02\x00\x08\xff\x7f", -129, None),
];

// Cells that are no rows of an insert, with their places.
const NOT_PREPARED: &[(u16, &[u8])] = &[
    // no record: a serial type is reserved
    (8181, b"\x09\x01\x04\x01\x15\x0a\x03drei"),
    // the control 1
    (8181, b"\x09\x01\x04\x01\x15\x09\x03drei"),
    // an integer in more bytes than it needs
    (8180, b"\x0a\x01\x04\x02\x15\x08\x00\x03drei"),
    // a blob
    (8181, b"\x09\x01\x04\x01\x14\x08\x03drei"),
    // a longer varint inside the record
    (8180, b"\x0a\x01\x05\x01\x80\x15\x08\x03drei"),
];

fn is_prepared(alloc: Global, cell: &[u8], key: i64, text: Option<&[u8]>) -> Result<(), Fail> {
    let bytes = rbu_with(alloc, 8181, cell)?;
    match read_rbu(alloc, bytes.as_slice())? {
        Some(rows) => ensure(is_one_row(rows.as_slice(), key, text), "the row"),
        None => Err(Fail::new("an RBU database")),
    }
}

#[test]
fn prepared_rows_are_read(rt: HostRuntime) -> Result<(), Fail> {
    let alloc = rt.alloc();
    for (cell, key, text) in PREPARED {
        is_prepared(alloc, cell, *key, *text)?;
    }
    for (place, cell) in NOT_PREPARED {
        let bytes = rbu_with(alloc, *place, cell)?;
        ensure(read_rbu(alloc, &bytes)?.is_none(), "no RBU database")?;
    }
    Ok(())
}
