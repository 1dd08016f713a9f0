// Records as SQLite wrote them, and bytes that are none.
use crate::ensure::ensure;
use rbu_value::{Bytes, Collation, Value, compare};
use record_codec::{RecordFault, read_record, write_record};
use std::alloc::Global;
use std::cmp::Ordering;
use std::test::Fail;

// Records of one integer in schema format 4.
const INTEGERS: &[(i64, &[u8])] = &[
    (i64::MIN, b"\x02\x06\x80\x00\x00\x00\x00\x00\x00\x00"),
    (
        -140737488355329,
        b"\x02\x06\xff\xff\x7f\xff\xff\xff\xff\xff",
    ),
    (-140737488355328, b"\x02\x05\x80\x00\x00\x00\x00\x00"),
    (-2147483649, b"\x02\x05\xff\xff\x7f\xff\xff\xff"),
    (-2147483648, b"\x02\x04\x80\x00\x00\x00"),
    (-8388608, b"\x02\x03\x80\x00\x00"),
    (-32768, b"\x02\x02\x80\x00"),
    (-129, b"\x02\x02\xff\x7f"),
    (-128, b"\x02\x01\x80"),
    (-1, b"\x02\x01\xff"),
    (0, b"\x02\x08"),
    (1, b"\x02\x09"),
    (127, b"\x02\x01\x7f"),
    (128, b"\x02\x02\x00\x80"),
    (32768, b"\x02\x03\x00\x80\x00"),
    (8388608, b"\x02\x04\x00\x80\x00\x00"),
    (2147483648, b"\x02\x05\x00\x00\x80\x00\x00\x00"),
    (i64::MAX, b"\x02\x06\x7f\xff\xff\xff\xff\xff\xff\xff"),
];

// Records of one text.
const TEXTS: &[(&[u8], &[u8])] = &[
    (b"", b"\x02\x0d"),
    (b"a'b", b"\x02\x13\x61\x27\x62"),
    (b"\xc3\xa9", b"\x02\x11\xc3\xa9"),
];

// Records of one blob.
const BLOBS: &[(&[u8], &[u8])] = &[(b"", b"\x02\x0c"), (b"\x00\xff", b"\x02\x10\x00\xff")];

// Bytes that are no record, some for more than one reason, by their first fault.
const SHORT_HEADERS: &[&[u8]] = &[b"", b"\x81", b"\x00", b"\x04\x00", b"\x02\x81", b"\x04\x0a"];

const RESERVED_TYPES: &[&[u8]] = &[b"\x02\x0a", b"\x02\x0b", b"\x03\x0a\x07", b"\x03\x01\x0a"];

const REAL_VALUES: &[&[u8]] = &[b"\x02\x07\x3f\xf8\x00\x00\x00\x00\x00\x00", b"\x03\x07\x0a"];

const BODY_LENGTHS: &[&[u8]] = &[b"\x02\x01", b"\x02\x01\x05\x06"];

// Records of one integer that are not canonical in schema format 4.
const LONGER: &[(i64, &[u8])] = &[
    (0, b"\x02\x01\x00"),
    (-5, b"\x02\x06\xff\xff\xff\xff\xff\xff\xff\xfb"),
    (0, b"\x80\x03\x08"),
];

fn same_values(a: &[Value], b: &[Value]) -> bool {
    a.len() == b.len()
        && a.iter().zip(b).all(|(x, y)| compare(x, y, Collation::Binary) == Ordering::Equal)
}

// The record is read as these values.
fn is_read(alloc: Global, record: &[u8], values: &[Value]) -> Result<(), Fail> {
    let read = read_record(alloc, record)?;
    ensure(same_values(&read, values), "the values of a record")
}

// The record of these values is written, and read again.
fn is_written_and_read(alloc: Global, record: &[u8], values: &[Value]) -> Result<(), Fail> {
    let written = write_record(alloc, values, 4)?;
    ensure(written.as_slice() == record, "a record")?;
    is_read(alloc, record, values)
}

fn is_record_of(alloc: Global, record: &[u8], value: Value) -> Result<(), Fail> {
    let values = vec![in alloc; value]?;
    is_written_and_read(alloc, record, &values)
}

// A record whose header has a size of two bytes, as SQLite wrote it.
fn has_wide_header(alloc: Global) -> Result<(), Fail> {
    let mut record = b"\x81\x04".to_vec(alloc)?;
    let mut values = Vec::new(alloc);
    for _ in 0..130 {
        record.push(0x0f)?;
        values.push(Value::Text(Bytes::of(alloc, b"w")?))?;
    }
    record.resize(262, b'w')?;
    is_written_and_read(alloc, &record, &values)
}

fn row_is_written(alloc: Global) -> Result<(), Fail> {
    let one = Value::Text(Bytes::of(alloc, b"one")?);
    let row = vec![in alloc; Value::Null, one, Value::Int(10)]?;
    is_written_and_read(alloc, b"\x04\x00\x13\x01one\x0a", &row)
}

fn zero_has_a_byte_in_format_1(alloc: Global) -> Result<(), Fail> {
    let zero = vec![in alloc; Value::Int(0)]?;
    let written = write_record(alloc, &zero, 1)?;
    ensure(written.as_slice() == b"\x02\x01\x00".as_slice(), "format 1")
}

#[test]
fn records_of_sqlite_are_written_and_read(rt: HostRuntime) -> Result<(), Fail> {
    let alloc = rt.alloc();
    is_record_of(alloc, b"\x02\x00", Value::Null)?;
    for (number, record) in INTEGERS {
        is_record_of(alloc, record, Value::Int(*number))?;
    }
    for (text, record) in TEXTS {
        is_record_of(alloc, record, Value::Text(Bytes::of(alloc, text)?))?;
    }
    for (blob, record) in BLOBS {
        is_record_of(alloc, record, Value::Blob(Bytes::of(alloc, blob)?))?;
    }
    row_is_written(alloc)?;
    has_wide_header(alloc)?;
    zero_has_a_byte_in_format_1(alloc)
}

fn are_longer(alloc: Global) -> Result<(), Fail> {
    for (number, record) in LONGER {
        let values = vec![in alloc; Value::Int(*number)]?;
        is_read(alloc, record, &values)?;
    }
    let values = vec![in alloc; Value::Text(Bytes::of(alloc, b"x")?)]?;
    is_read(alloc, b"\x03\x80\x0fx", &values)
}

fn have_fault(alloc: Global, table: &[&[u8]], fault: RecordFault) -> Result<(), Fail> {
    for bytes in table {
        ensure(
            read_record(alloc, bytes).is_err_and(|other| other == fault),
            "a fault",
        )?;
    }
    Ok(())
}

#[test]
fn longer_spellings_are_read_and_other_bytes_refused(rt: HostRuntime) -> Result<(), Fail> {
    let alloc = rt.alloc();
    are_longer(alloc)?;
    have_fault(alloc, SHORT_HEADERS, RecordFault::ShortHeader)?;
    have_fault(alloc, RESERVED_TYPES, RecordFault::ReservedType)?;
    have_fault(alloc, REAL_VALUES, RecordFault::RealValue)?;
    have_fault(alloc, BODY_LENGTHS, RecordFault::BodyLength)
}
