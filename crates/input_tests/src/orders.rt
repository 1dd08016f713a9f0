// The order of refusals: where two are due, which is told.

use crate::databases::{catalog_of, ensure, store_of};
use crate::prepared::{Q, T, answer_line, is_answered};
use std::alloc::Global;
use std::rt::HostRuntime;
use std::test::Fail;

// The target, the name and the text of a table of the RBU database, the cells of that table, each with the length of its record and its rowid, and what is answered.
const ORDERS: [(&str, &str, &str, &[u8], &str); 20] = [
    // A text of two letters for three columns, which comes before its letters.
    (
        T,
        "data_t1",
        "CREATE TABLE data_t1(a, b, c, rbu_control)",
        b"\x07\x01\x05\x09\x00\x00\x11x.",
        "81 data_t1 1 2 3",
    ),
    (
        T,
        "data_t1",
        "CREATE TABLE data_t1(a, b, c, rbu_control)",
        b"\x07\x01\x05\x09\x00\x00\x11q.",
        "81 data_t1 1 2 3",
    ),
    // Letters from the left.
    (
        T,
        "data_t1",
        "CREATE TABLE data_t1(a, b, c, rbu_control)",
        b"\x08\x01\x05\x09\x00\x00\x13.qd",
        "82 data_t1 1 1",
    ),
    (
        T,
        "data_t1",
        "CREATE TABLE data_t1(a, b, c, rbu_control)",
        b"\x08\x01\x05\x09\x00\x00\x13.dq",
        "83 data_t1 1 1",
    ),
    // A target that is missing before texts, and its text before that of its `data_` table.
    (T, "data_t2", "CREATE TABLE data_t2(", b"", "84 t2"),
    (
        "CREATE TABLE k(a INTEGER",
        "data_k",
        "CREATE TABLE data_k(a PRIMARY KEY) WITHOUT ROWID",
        b"",
        "60 k",
    ),
    // Columns that are missing in the target's order, then `rbu_control`, rowids, and columns that are unknown.
    (
        T,
        "data_t1",
        "CREATE TABLE data_t1(rbu_control, c)",
        b"",
        "85 data_t1 a",
    ),
    (
        Q,
        "data_q",
        "CREATE TABLE data_q(a)",
        b"",
        "85 data_q rbu_control",
    ),
    (
        Q,
        "data_q",
        "CREATE TABLE data_q(a, rbu_control, d)",
        b"",
        "87 data_q",
    ),
    // A table before its rows.
    (
        T,
        "data_t1",
        "CREATE TABLE data_t1(a, b, c, rbu_control, d)",
        b"\x07\x01\x06\x09\x00\x00\x01\x00\x05",
        "86 data_t1 d",
    ),
    // Of a row its record, its control, a NULL in its key, its type, a key that is marked, and the first class.
    (
        T,
        "data_t1",
        "CREATE TABLE data_t1(a, b, c, rbu_control)",
        b"\x0e\x01\x05\x09\x00\x07\x01........\x05",
        "95 data_t1 1",
    ),
    (
        T,
        "data_t1",
        "CREATE TABLE data_t1(a, b, c, rbu_control)",
        b"\x06\x01\x05\x00\x00\x00\x01\x05",
        "80 data_t1 1",
    ),
    (
        T,
        "data_t1",
        "CREATE TABLE data_t1(a, b, c, rbu_control)",
        b"\x08\x01\x05\x00\x00\x00\x13..d",
        "83 data_t1 1 2",
    ),
    (
        T,
        "data_t1",
        "CREATE TABLE data_t1(a, b, c, rbu_control)",
        b"\x08\x01\x05\x00\x00\x00\x13x..",
        "88 data_t1 1",
    ),
    (
        T,
        "data_t1",
        "CREATE TABLE data_t1(a, b, c, rbu_control)",
        b"\x09\x01\x05\x0f\x00\x00\x13kx..",
        "89 data_t1 1",
    ),
    (
        T,
        "data_t1",
        "CREATE TABLE data_t1(a, b, c, rbu_control)",
        b"\x09\x01\x05\x09\x01\x00\x13\x05xx.",
        "90 data_t1 1 a",
    ),
    (
        "CREATE TABLE k(k PRIMARY KEY, b TEXT, c TEXT)",
        "data_k",
        "CREATE TABLE data_k(c, b, k, rbu_control)",
        b"\x05\x01\x05\x09\x09\x09\x08",
        "92 data_k 1 b",
    ),
    // The first row, and all rows before two of one key.
    (
        T,
        "data_t1",
        "CREATE TABLE data_t1(a, b, c, rbu_control)",
        b"\x06\x01\x05\x09\x01\x00\x08\x05\x03\x02\x03\x00\x00",
        "92 data_t1 1 b",
    ),
    (
        T,
        "data_t1",
        "CREATE TABLE data_t1(a, b, c, rbu_control)",
        b"\x06\x01\x05\x01\x00\x00\x08\x04\x06\x02\x05\x01\x00\x00\x08\x04\x07\x03\x05\x01\x00\x00\x01\x04\x05",
        "80 data_t1 3",
    ),
    // Damage, which comes before two rows of one key.
    (
        T,
        "data_t1",
        "CREATE TABLE data_t1(a, b, c, rbu_control)",
        b"\x06\x02\x05\x01\x00\x00\x08\x04\x06\x01\x05\x01\x00\x00\x08\x04",
        "55 cells 2",
    ),
];

#[test]
fn the_first_refusal_is_told(rt: HostRuntime) -> Result<(), Fail> {
    let alloc = rt.alloc();
    for (target, name, sql, cells, answer) in ORDERS {
        ensure(
            is_answered(alloc, target, name, sql, cells, answer)?,
            answer,
        )?;
    }
    Ok(())
}

// Whether two tables with two rows of key 4 each are answered so.
fn is_answered_of_two(
    alloc: Global,
    name: &[u8],
    other: &[u8],
    answer: &[u8],
) -> Result<bool, Fail> {
    let cells = b"\x06\x01\x05\x01\x00\x00\x08\x04\x06\x02\x05\x01\x00\x00\x08\x04";
    let mut store = store_of(alloc, cells)?;
    let sql = b"CREATE TABLE data_t1(a, b, c, rbu_control)";
    let rbu = catalog_of(alloc, name, other, sql)?;
    let target = catalog_of(alloc, b"t1", b"", T.as_bytes())?;
    let line = answer_line(alloc, &mut store, &rbu, &target)?;
    Ok(line.as_slice() == answer)
}

#[test]
fn a_table_comes_with_its_rows_before_the_next_table(rt: HostRuntime) -> Result<(), Fail> {
    let alloc = rt.alloc();
    ensure(
        is_answered_of_two(alloc, b"data2_t2", b"data1_t1", b"91 data1_t1 1 2")?,
        "two rows of the first table before the second",
    )?;
    ensure(
        is_answered_of_two(alloc, b"data2_t1", b"data1_t2", b"84 t2")?,
        "the first table before rows of the second",
    )
}
