// How entries compare.
use crate::stores::{ensure, order_of, record_of, text};
use key_order::{compare_entries, is_entry};
use rbu_value::{Collation, Value};
use std::alloc::Global;
use std::cmp::Ordering;
use std::test::Fail;

// Whether a text with a rowid stands so to another in an index of one column.
fn stands(
    alloc: Global,
    collation: Collation,
    descends: bool,
    a: (&[u8], i64),
    b: (&[u8], i64),
    found: Ordering,
) -> Result<bool, Fail> {
    let order = order_of(alloc, collation, descends, true)?;
    let first = record_of(alloc, text(alloc, a.0)?, Value::Int(a.1))?;
    let second = record_of(alloc, text(alloc, b.0)?, Value::Int(b.1))?;
    Ok(compare_entries(first.as_slice(), second.as_slice(), &order) == Some(found))
}

#[test]
fn texts_descend_without_case_and_rowids_rise(rt: HostRuntime) -> Result<(), Fail> {
    let alloc = rt.alloc();
    let less = Ordering::Less;
    ensure(
        stands(alloc, Collation::NoCase, true, (b"y", 3), (b"x", 1), less)?,
        "y before x",
    )?;
    ensure(
        stands(alloc, Collation::NoCase, true, (b"x", 1), (b"X", 2), less)?,
        "x at 1 before X at 2",
    )?;
    ensure(
        stands(
            alloc,
            Collation::RTrim,
            false,
            (b"x  ", 5),
            (b"x", 5),
            Ordering::Equal,
        )?,
        "spaces at the end",
    )?;
    ensure(
        stands(alloc, Collation::Binary, false, (b"x", 5), (b"x ", 4), less)?,
        "a prefix is less",
    )
}

#[test]
fn entries_without_rowid_are_equal_by_their_columns(rt: HostRuntime) -> Result<(), Fail> {
    let alloc = rt.alloc();
    let order = order_of(alloc, Collation::Binary, false, false)?;
    let first = record_of(alloc, Value::Null, Value::Int(1))?;
    let second = record_of(alloc, Value::Null, Value::Int(2))?;
    let found = compare_entries(first.as_slice(), second.as_slice(), &order);
    ensure(found == Some(Ordering::Equal), "equal columns")?;
    ensure(!is_entry(b"\x01", &order), "a record without values")?;
    ensure(!is_entry(b"\x02\x07", &order), "a float")?;
    ensure(is_entry(b"\x02\x00", &order), "NULL")?;
    ensure(
        compare_entries(b"\x02\x00", b"\x02\x08\x00", &order).is_none(),
        "a byte too many",
    )
}
