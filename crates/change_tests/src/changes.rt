// The changes of indexes of one table.

use crate::rows::{changes_line, index_of, pairs_of, table_of};
use index_changes::index_changes;
use rbu_value::Collation;
use std::alloc::Global;
use std::rt::HostRuntime;
use std::test::Fail;

// The columns of indexes on c, on b without case and descending, and on b and a.
const BY_C: &[(u32, Collation, bool)] = &[(2, Collation::Binary, false)];

const BY_B: &[(u32, Collation, bool)] = &[(1, Collation::NoCase, true)];

const BY_B_AND_A: &[(u32, Collation, bool)] = &[
    (1, Collation::Binary, false),
    (0, Collation::Binary, false),
];

// The index, old and new rows, and the changes.
const CASES: [(&[(u32, Collation, bool)], &str, &str); 10] = [
    // One row is changed, one deleted, one replaced and one inserted.
    (
        BY_C,
        "1:1,one,10>1:1,one,11;2:2,two,20>;3:3,three,30>3:3,drei,20;>4:4,four,40",
        " -|10|1 +|11|1 -|20|2 +|20|3 -|30|3 +|40|4",
    ),
    // Two values are exchanged.
    (
        BY_C,
        "1:1,one,10>1:1,one,20;2:2,two,20>2:2,two,10",
        " -|10|1 +|10|2 -|20|2 +|20|1",
    ),
    // NULLs stand first, and equal columns in order of rowid.
    (
        BY_C,
        ">5:5,p,77;>6:6,q,77;>7:7,r,NULL;>8:8,s,NULL",
        " +|NULL|7 +|NULL|8 +|77|5 +|77|6",
    ),
    // A removal stands before an addition of equal columns, though its rowid is greater.
    (
        BY_C,
        "1:1,one,NULL>1:1,one,7;5:5,five,7>",
        " -|NULL|1 -|7|5 +|7|1",
    ),
    // A column that is not the index's changes nothing, nor does a row that stays.
    (BY_C, "1:1,one,10>1:1,uno,10;2:2,two,20>2:2,two,20", ""),
    // A column that descends, of which two texts differ in case.
    (
        BY_B,
        ">1:1,x,NULL;>2:2,X,NULL;>3:3,y,NULL",
        " +|y|3 +|x|1 +|X|2",
    ),
    // A text that changes its case is another entry.
    (BY_B, "1:1,x,10>1:1,X,10", " -|x|1 +|X|1"),
    // Two columns of which the first decides, and the rowid in the place of the INTEGER PRIMARY KEY.
    (
        BY_B_AND_A,
        "2:NULL,y,1>2:NULL,x,1;3:3,x,1>",
        " +|x|2|2 -|x|3|3 -|y|2|2",
    ),
    // A text behind an integer, and a NULL for a column that a row lacks.
    (
        BY_C,
        ">1:1,one,one;>2:2,two,2;>3:3,three",
        " +|NULL|3 +|2|2 +|one|1",
    ),
    // No row.
    (BY_C, "", ""),
];

fn has_changes(
    alloc: Global,
    columns: &[(u32, Collation, bool)],
    pairs: &str,
    line: &str,
) -> Result<bool, Fail> {
    let table = table_of(alloc, true, [false; 3])?;
    let index = index_of(alloc, columns)?;
    let pairs = pairs_of(alloc, pairs)?;
    let changes = index_changes(alloc, &table, &index, pairs.as_slice())?;
    let read = changes_line(alloc, changes.as_slice())?;
    Ok(read.as_slice() == line.as_bytes())
}

#[test]
fn entries_are_removed_and_added_in_order(rt: HostRuntime) -> Result<(), Fail> {
    let alloc = rt.alloc();
    for (columns, pairs, line) in CASES {
        if !has_changes(alloc, columns, pairs, line)? {
            return Err(Fail::new(line));
        }
    }
    Ok(())
}
