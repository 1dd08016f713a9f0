// Sort keys, affinities and numeric texts.
use crate::ensure::ensure;
use rbu_value::{Affinity, Bytes, Collation, Value, affinity_of, compare, keeps_class};
use std::alloc::{AllocError, Global};
use std::test::Fail;

// A value with its place in an order; values at one place are equal.
#[derive(Drop)]
struct Placed {
    place: u32,
    value: Value,
}

fn push_integers(rows: &mut Vec<Placed>, place: u32, numbers: &[i64]) -> Result<(), AllocError> {
    let mut place = place;
    for number in numbers {
        let value = Value::Int(*number);
        rows.push(Placed { place, value })?;
        place = place.saturating_add(1);
    }
    Ok(())
}

// Texts in order, between bars, and between equal signs where they are equal.
fn push_texts(
    alloc: Global,
    rows: &mut Vec<Placed>,
    place: u32,
    texts: &str,
) -> Result<(), AllocError> {
    let mut place = place;
    for equal in texts.split('|') {
        push_equal(alloc, rows, place, equal)?;
        place = place.saturating_add(1);
    }
    Ok(())
}

fn push_equal(
    alloc: Global,
    rows: &mut Vec<Placed>,
    place: u32,
    texts: &str,
) -> Result<(), AllocError> {
    for text in texts.split('=') {
        let value = Value::Text(Bytes::of(alloc, text.as_bytes())?);
        rows.push(Placed { place, value })?;
    }
    Ok(())
}

fn push_blobs(
    alloc: Global,
    rows: &mut Vec<Placed>,
    place: u32,
    blobs: &[&[u8]],
) -> Result<(), AllocError> {
    let mut place = place;
    for blob in blobs {
        let value = Value::Blob(Bytes::of(alloc, blob)?);
        rows.push(Placed { place, value })?;
        place = place.saturating_add(1);
    }
    Ok(())
}

const INTEGERS: &[i64] = &[i64::MIN, -1, 0, 1, 5, i64::MAX];

const BLOBS: &[&[u8]] = &[b"", b"\x00", b"\x41", b"\x61", b"\x61\x20", b"\xff"];

// NULL, integers, texts and blobs, as SQLite ordered them.
fn ordered(alloc: Global, texts: &str) -> Result<Vec<Placed>, AllocError> {
    let mut rows = Vec::new(alloc);
    let value = Value::Null;
    rows.push(Placed { place: 0, value })?;
    push_integers(&mut rows, 10, INTEGERS)?;
    push_texts(alloc, &mut rows, 20, texts)?;
    push_blobs(alloc, &mut rows, 40, BLOBS)?;
    Ok(rows)
}

fn stands_among(row: &Placed, rows: &[Placed], collation: Collation) -> bool {
    for other in rows {
        if compare(&row.value, &other.value, collation) != row.place.cmp(&other.place) {
            return false;
        }
    }
    true
}

// Each two of the rows compare as their places do.
fn is_order(alloc: Global, collation: Collation, texts: &'static str) -> Result<(), Fail> {
    let rows = ordered(alloc, texts)?;
    for row in &rows {
        ensure(stands_among(row, &rows, collation), texts)?;
    }
    Ok(())
}

#[test]
fn values_compare_as_in_sqlite(rt: HostRuntime) -> Result<(), Fail> {
    let alloc = rt.alloc();
    let bytes = Bytes::from_vec(Bytes::of(alloc, b"one")?.into_vec());
    ensure(bytes.as_slice() == b"one".as_slice(), "bytes")?;
    is_order(alloc, Collation::Binary, "| |A|AB|Ab|[|`|a|a\t|a |b|É|é")?;
    is_order(alloc, Collation::NoCase, "| |[|`|A=a|a\t|a |Ab=AB|b|É|é")?;
    is_order(alloc, Collation::RTrim, " =|A|AB|Ab|[|`|a=a |a\t|b|É|é")
}

const INTEGER: &str = "INT|INTEGER|integer|BIGINT|UNSIGNED BIG INT|POINT|CHARINT|FLOATING POINT";

const TEXT: &str = "CHAR(10)|VARCHAR(3)|CLOB|TEXT|TEXTBLOB|nchar";

const BLOB: &str = "|BLOB|BLOBREAL";

const REAL: &str = "REAL|DOUBLE|DOUBLE PRECISION|FLOAT|rEaL";

const NUMERIC: &str = "NUMERIC|DECIMAL(10,5)|BOOLEAN|DATE|STRING";

// The types between bars have this affinity.
fn have(types: &'static str, affinity: Affinity) -> Result<(), Fail> {
    for type_text in types.split('|') {
        ensure(affinity_of(type_text.as_bytes()) == affinity, types)?;
    }
    Ok(())
}

#[test]
fn affinities_are_those_of_sqlite(_rt: HostRuntime) -> Result<(), Fail> {
    have(INTEGER, Affinity::Integer)?;
    have(TEXT, Affinity::Text)?;
    have(BLOB, Affinity::Blob)?;
    have(REAL, Affinity::Real)?;
    have(NUMERIC, Affinity::Numeric)
}

const NUMBERS: &str =
    "1| 1|1 |+1|-1|1.|.1|1.5|+.5|1e5|1e+5|1e-5|1E5|\t1\n|\u{b}1|\u{c}1|\r1|9223372036854775808|1e400";

const NO_NUMBERS: &str = "| |--1|.|1e|e5|1e+|0x10|12abc|1 2|1_000|nan|inf|\u{661}|\u{a0}1";

// Whether a value keeps its class under each affinity of numbers.
fn keeps_under_numbers(value: &Value, keeps: bool) -> bool {
    keeps_class(value, Affinity::Numeric) == keeps && keeps_class(value, Affinity::Integer) == keeps
}

// The texts between bars keep their class under affinities of numbers, or none does.
fn all_keep(alloc: Global, texts: &'static str, keeps: bool) -> Result<(), Fail> {
    for text in texts.split('|') {
        let value = Value::Text(Bytes::of(alloc, text.as_bytes())?);
        ensure(keeps_under_numbers(&value, keeps), texts)?;
        ensure(keeps_class(&value, Affinity::Text), texts)?;
    }
    Ok(())
}

#[test]
fn numeric_texts_are_those_of_sqlite(rt: HostRuntime) -> Result<(), Fail> {
    all_keep(rt.alloc(), NUMBERS, false)?;
    all_keep(rt.alloc(), NO_NUMBERS, true)?;
    let twelve = Value::Int(12);
    ensure(!keeps_class(&twelve, Affinity::Text), "12 as text")?;
    ensure(keeps_class(&twelve, Affinity::Numeric), "12 as a number")
}
