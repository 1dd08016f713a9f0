// Tables of two leaves, and damage in the second.

use crate::databases::{catalog_of, ensure, two_leaves};
use crate::prepared::{T, answer_line};
use std::alloc::Global;
use std::rt::HostRuntime;
use std::test::Fail;

// Row 1 of key 1, and row 2 of key 0.
const ONE: &[u8] = b"\x05\x01\x05\x09\x00\x00\x09";

const TWO: &[u8] = b"\x05\x02\x05\x08\x00\x00\x09";

// Rows 3 and 2, of which the second is out of order.
const FALLS: &[u8] = b"\x05\x03\x05\x08\x00\x00\x09\x05\x02\x05\x09\x00\x00\x09";

// The rowid above which those of the second leaf are, the cells of both leaves, and what is answered.
const CASES: [(u8, &[u8], &[u8], &str); 8] = [
    (1, ONE, TWO, "t1<data_t1 1,1 d,1,-,- 2,0 d,0,-,-/"),
    (1, ONE, FALLS, "55 cells 4"),
    // A rowid that is not above that of the cell between the leaves, and one that is above it in the first leaf.
    (2, ONE, TWO, "55 cells 4"),
    (0, ONE, TWO, "55 cells 3"),
    (1, ONE, b"", "55 empty 4"),
    // A row that is wrong before the damage behind it.
    (
        1,
        b"\x06\x01\x05\x09\x00\x00\x01\x05",
        FALLS,
        "80 data_t1 1",
    ),
    // Two rows of one key, in two leaves; and two in one, behind which the damage stands.
    (1, ONE, b"\x05\x02\x05\x09\x00\x00\x09", "91 data_t1 1 2"),
    (
        2,
        b"\x05\x01\x05\x09\x00\x00\x09\x05\x02\x05\x09\x00\x00\x09",
        FALLS,
        "55 cells 4",
    ),
];

fn is_answered(
    alloc: Global,
    rowid: u8,
    first: &[u8],
    second: &[u8],
    answer: &str,
) -> Result<bool, Fail> {
    let mut store = two_leaves(alloc, rowid, first, second)?;
    let sql = b"CREATE TABLE data_t1(a, b, c, rbu_control)";
    let rbu = catalog_of(alloc, b"data_t1", b"", sql)?;
    let target = catalog_of(alloc, b"t1", b"", T.as_bytes())?;
    let line = answer_line(alloc, &mut store, &rbu, &target)?;
    Ok(line.as_slice() == answer.as_bytes())
}

#[test]
fn leaves_are_read_in_order(rt: HostRuntime) -> Result<(), Fail> {
    let alloc = rt.alloc();
    for (rowid, first, second, answer) in CASES {
        ensure(is_answered(alloc, rowid, first, second, answer)?, answer)?;
    }
    Ok(())
}
