// The prepared rows of RBU databases, and their refusals.

use crate::databases::{
    catalog_of, catalog_with, ensure, is_whole, named, rooted, store_of, two_tables,
};
use crate::lines::{fault_line, groups_line};
use database_spec::Catalog;
use page_store::{PageRead, PlainStore};
use rbu_input::{are_known, are_rooted, plain_target, read_prepared};
use rbu_rows::{Batch, OwnedList};
use rbu_value::Bytes;
use std::alloc::{AllocError, Global};
use std::rt::HostRuntime;
use std::test::Fail;

// The target, the name and the text of a table of the RBU database, the cells of that table, each with the length of its record and its rowid, and what is answered.
const CASES: [(&str, &str, &str, &[u8], &str); 22] = [
    // A row whose columns stand crosswise.
    (
        T,
        "data_t1",
        "CREATE TABLE data_t1(c, rbu_control, b, a)",
        b"\x09\x01\x05\x01\x13\x00\x09\x0cx..",
        "t1<data_t1 1,1 ..x,1,-,12/",
    ),
    // The same table by another name, without rows.
    (
        T,
        "data07_T1",
        "CREATE TABLE data07_T1(a, b, c, rbu_control)",
        b"",
        "t1<data07_T1/",
    ),
    // No name of a data_ table.
    (T, "date_t1", "CREATE TABLE date_t1(x)", b"", ""),
    (
        T,
        "data_t2",
        "CREATE TABLE data_t2(a, b, c, rbu_control)",
        b"",
        "84 t2",
    ),
    (
        T,
        "data_sqlite_t",
        "CREATE TABLE data_sqlite_t(a, b, c, rbu_control)",
        b"",
        "84 sqlite_t",
    ),
    (T, "data_t1", "CREATE TABLE data_t1(", b"", "60 data_t1"),
    (
        T,
        "data_t1",
        "CREATE TABLE data_t1(a PRIMARY KEY, b, c, rbu_control) WITHOUT ROWID",
        b"",
        "61 data_t1",
    ),
    (
        T,
        "data_t1",
        "CREATE TABLE data_t1(a, c, rbu_control)",
        b"",
        "85 data_t1 b",
    ),
    (
        T,
        "data_t1",
        "CREATE TABLE data_t1(a, b, c)",
        b"",
        "85 data_t1 rbu_control",
    ),
    (
        T,
        "data_t1",
        "CREATE TABLE data_t1(a, b, c, rbu_control, rbu_x, d)",
        b"",
        "86 data_t1 d",
    ),
    (
        Q,
        "data_q",
        "CREATE TABLE data_q(a, rbu_control)",
        b"",
        "87 data_q",
    ),
    // A key by rowid, and one that is no integer.
    (
        Q,
        "data_q",
        "CREATE TABLE data_q(a, rbu_rowid, rbu_control)",
        b"\x07\x01\x04\x00\x01\x08\x07\x00\x00",
        "95 data_q 1",
    ),
    (
        Q,
        "data_q",
        "CREATE TABLE data_q(a, rbu_rowid, rbu_control)",
        b"\x05\x01\x04\x00\x01\x08\x07",
        "q<data_q 1,7 i,-/",
    ),
    (
        Q,
        "data_q",
        "CREATE TABLE data_q(a, rbu_rowid, rbu_control)",
        b"\x05\x01\x04\x00\x0f\x08k",
        "89 data_q 1",
    ),
    (
        Q,
        "data_q",
        "CREATE TABLE data_q(a, rbu_rowid, rbu_control)",
        b"\x04\x01\x04\x00\x00\x08",
        "88 data_q 1",
    ),
    (
        T,
        "data_t1",
        "CREATE TABLE data_t1(a, b, c, rbu_control)",
        b"\x06\x01\x05\x09\x00\x00\x01\x05",
        "80 data_t1 1",
    ),
    (
        T,
        "data_t1",
        "CREATE TABLE data_t1(a, b, c, rbu_control)",
        b"\x08\x01\x05\x09\x00\x00\x13x.d",
        "83 data_t1 1 2",
    ),
    (
        T,
        "data_t1",
        "CREATE TABLE data_t1(a, b, c, rbu_control)",
        b"\x08\x01\x05\x09\x00\x00\x13x..",
        "90 data_t1 1 a",
    ),
    // Two rows of key 4.
    (
        T,
        "data_t1",
        "CREATE TABLE data_t1(a, b, c, rbu_control)",
        b"\x06\x01\x05\x01\x00\x00\x08\x04\x06\x02\x05\x01\x00\x00\x09\x04",
        "91 data_t1 1 2",
    ),
    // Keys that compare equal.
    (
        K,
        "data_k",
        "CREATE TABLE data_k(k, rbu_control)",
        b"\x04\x01\x03\x0f\x08a\x04\x02\x03\x0f\x08b\x04\x03\x03\x0f\x08B",
        "91 data_k 2 3",
    ),
    // Rowids that fall.
    (
        T,
        "data_t1",
        "CREATE TABLE data_t1(a, b, c, rbu_control)",
        b"\x06\x02\x05\x01\x00\x00\x08\x04\x06\x01\x05\x01\x00\x00\x08\x05",
        "55 cells 2",
    ),
    // A value of another class.
    (
        T,
        "data_t1",
        "CREATE TABLE data_t1(a, b, c, rbu_control)",
        b"\x06\x01\x05\x09\x01\x00\x08\x05",
        "92 data_t1 1 b",
    ),
];

/// A target whose key is its rowid.
pub const T: &str = "CREATE TABLE t1(a INTEGER PRIMARY KEY, b TEXT NOT NULL, c UNIQUE)";

/// A target without a PRIMARY KEY.
pub const Q: &str = "CREATE TABLE q(a)";

const K: &str = "CREATE TABLE k(k TEXT COLLATE NOCASE PRIMARY KEY)";

fn name_of(target: &str) -> &str {
    if target == T {
        return "t1";
    }
    if target == Q {
        return "q";
    }
    "k"
}

/// The prepared rows of an RBU database, or its refusal, as a line.
pub fn answer_line(
    alloc: Global,
    store: &mut PlainStore,
    rbu: &Catalog,
    target: &Catalog,
) -> Result<Vec<u8>, Fail> {
    if !is_whole(store) || !are_rooted(rbu, store.count()) {
        return Err(Fail::new("no database"));
    }
    match read_prepared(alloc, store, rbu, target) {
        Ok(groups) => Ok(groups_line(alloc, groups.as_slice())?),
        Err(fault) => Ok(fault_line(alloc, &fault)?),
    }
}

/// Whether a table of an RBU database with these cells is answered so.
pub fn is_answered(
    alloc: Global,
    target: &str,
    name: &str,
    sql: &str,
    cells: &[u8],
    answer: &str,
) -> Result<bool, Fail> {
    let mut store = store_of(alloc, cells)?;
    let rbu = catalog_of(alloc, name.as_bytes(), b"", sql.as_bytes())?;
    let target_catalog = catalog_of(alloc, name_of(target).as_bytes(), b"", target.as_bytes())?;
    let line = answer_line(alloc, &mut store, &rbu, &target_catalog)?;
    Ok(line.as_slice() == answer.as_bytes())
}

#[test]
fn prepared_rows_and_refusals(rt: HostRuntime) -> Result<(), Fail> {
    let alloc = rt.alloc();
    for (target, name, sql, cells, answer) in CASES {
        ensure(
            is_answered(alloc, target, name, sql, cells, answer)?,
            answer,
        )?;
    }
    Ok(())
}

#[test]
fn tables_of_one_target_are_a_group_in_the_order_of_their_names(
    rt: HostRuntime,
) -> Result<(), Fail> {
    let alloc = rt.alloc();
    let mut store = store_of(alloc, b"\x05\x01\x05\x09\x00\x00\x09")?;
    let sql = b"CREATE TABLE data_t1(a, b, c, rbu_control)";
    let rbu = catalog_of(alloc, b"data2_t1", b"data1_T1", sql)?;
    let target = catalog_of(alloc, b"t1", b"", T.as_bytes())?;
    let line = answer_line(alloc, &mut store, &rbu, &target)?;
    ensure(
        line.as_slice() == b"t1<data1_T1 1,1 d,1,-,-t1<data2_t1 1,1 d,1,-,-/".as_slice(),
        "one group",
    )
}

// The cells of a targeted table, and what is answered: nothing where all its records are rows.
const TARGETS: [(&[u8], &str); 4] = [
    // Rowids that fall.
    (
        b"\x04\x02\x04\x00\x00\x00\x03\x01\x03\x00\x00",
        "55 cells 2",
    ),
    (b"\x04\x01\x04\x00\x00\x00", ""),
    (b"\x04\x01\x04\x00\x00\x00\x03\x02\x03\x00\x00", "96 t1 2"),
    (
        b"\x0c\x07\x04\x00\x07\x00\x00\x00\x00\x00\x00\x00\x00\x00",
        "96 t1 7",
    ),
];

// A batch without rows for a table.
fn batch(alloc: Global, table: &[u8]) -> Result<Batch, AllocError> {
    Ok(Batch {
        table: Bytes::of(alloc, table)?,
        source: Bytes::of(alloc, b"data_t")?,
        rows: OwnedList::from_vec(Vec::new(alloc)),
    })
}

fn target_line(
    alloc: Global,
    store: &mut PlainStore,
    catalog: &Catalog,
    batches: &[Batch],
) -> Result<Vec<u8>, Fail> {
    if !is_whole(store) || !are_known(catalog, store.count(), batches) {
        return Err(Fail::new("no database"));
    }
    match plain_target(alloc, store, catalog, batches) {
        Ok(()) => Ok(Vec::new(alloc)),
        Err(fault) => Ok(fault_line(alloc, &fault)?),
    }
}

fn is_checked(alloc: Global, cells: &[u8], answer: &str) -> Result<bool, Fail> {
    let mut store = store_of(alloc, cells)?;
    let catalog = catalog_of(alloc, b"t1", b"", T.as_bytes())?;
    let batches = [batch(alloc, b"T1")?];
    let line = target_line(alloc, &mut store, &catalog, &batches)?;
    Ok(line.as_slice() == answer.as_bytes())
}

#[test]
fn records_of_targets_are_rows(rt: HostRuntime) -> Result<(), Fail> {
    let alloc = rt.alloc();
    for (cells, answer) in TARGETS {
        ensure(is_checked(alloc, cells, answer)?, answer)?;
    }
    Ok(())
}

// A row, a second one that is none, and rowids that fall.
const RIGHT: &[u8] = b"\x04\x01\x04\x00\x00\x00";

const SECOND: &[u8] = b"\x04\x01\x04\x00\x00\x00\x03\x02\x03\x00\x00\x03\x03\x03\x00\x00";

const FALLS: &[u8] = b"\x04\x02\x04\x00\x00\x00\x04\x01\x04\x00\x00\x00";

// The cells of `t1` and of `t2`, the tables of two batches, and what is answered.
const TWO_TARGETS: [(&[u8], &[u8], &str, &str, &str); 6] = [
    (RIGHT, RIGHT, "t1", "t2", ""),
    (RIGHT, SECOND, "t1", "t2", "96 t2 2"),
    (SECOND, FALLS, "t1", "t2", "96 t1 2"),
    (SECOND, FALLS, "T2", "t1", "55 cells 3"),
    (SECOND, SECOND, "T2", "t1", "96 t2 2"),
    (SECOND, RIGHT, "t2", "t2", ""),
];

fn are_checked(
    alloc: Global,
    cells: &[u8],
    others: &[u8],
    first: &str,
    second: &str,
    answer: &str,
) -> Result<bool, Fail> {
    let mut store = two_tables(alloc, cells, others)?;
    let mut tables = Vec::new(alloc);
    tables.push(named(alloc, b"t1", T.as_bytes())?)?;
    tables.push(rooted(alloc, 3, b"t2", T.as_bytes())?)?;
    let catalog = catalog_with(alloc, tables);
    let batches = [
        batch(alloc, first.as_bytes())?,
        batch(alloc, second.as_bytes())?,
    ];
    let line = target_line(alloc, &mut store, &catalog, &batches)?;
    Ok(line.as_slice() == answer.as_bytes())
}

#[test]
fn targets_are_checked_batch_by_batch(rt: HostRuntime) -> Result<(), Fail> {
    let alloc = rt.alloc();
    for (cells, others, first, second, answer) in TWO_TARGETS {
        ensure(
            are_checked(alloc, cells, others, first, second, answer)?,
            answer,
        )?;
    }
    Ok(())
}
