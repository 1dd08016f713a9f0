// The rows that groups of batches touch.

use crate::rows::{row_of, table_of, values_line, values_of};
use crate::steps::control_of;
use group_rows::group_pairs;
use index_changes::OldNew;
use itoa::Buffer;
use owned_list::OwnedList;
use rbu_rows::{Batch, Prepared};
use rbu_value::{Bytes, Value};
use std::alloc::{AllocError, Global};
use std::rt::HostRuntime;
use std::test::Fail;

// A prepared row: its control, `:`, and its values between commas, of which the first is its key.
fn prepared_of(alloc: Global, text: &str) -> Result<Option<Prepared>, AllocError> {
    let mut parts = text.split(':');
    let (Some(letters), Some(words)) = (parts.next(), parts.next()) else {
        return Ok(None);
    };
    let control = control_of(alloc, letters)?;
    let key = values_of(alloc, words.split(',').next().unwrap_or(""))?;
    let values = values_of(alloc, words)?;
    Ok(Some(Prepared {
        data_rowid: 7,
        key: OwnedList::from_vec(key),
        values: OwnedList::from_vec(values),
        control,
    }))
}

// Prepared rows, which `;` parts.
fn batch_of(alloc: Global, text: &str) -> Result<Batch, AllocError> {
    let mut rows = Vec::new(alloc);
    for part in text.split(';') {
        if let Some(row) = prepared_of(alloc, part)? {
            rows.push(row)?;
        }
    }
    Ok(Batch {
        table: Bytes::of(alloc, b"t")?,
        source: Bytes::of(alloc, b"data_t")?,
        rows: OwnedList::from_vec(rows),
    })
}

// Batches, which `/` parts.
fn batches_of(alloc: Global, text: &str) -> Result<Vec<Batch>, AllocError> {
    let mut batches = Vec::new(alloc);
    for part in text.split('/') {
        let batch = batch_of(alloc, part)?;
        batches.push(batch)?;
    }
    Ok(batches)
}

// Rows, which `;` parts.
fn rows_of(alloc: Global, text: &str) -> Result<Vec<(i64, OwnedList<Value>)>, AllocError> {
    let mut rows = Vec::new(alloc);
    for part in text.split(';') {
        if let Some(row) = row_of(alloc, part)? {
            rows.push(row)?;
        }
    }
    Ok(rows)
}

fn push_row(
    alloc: Global,
    line: &mut Vec<u8>,
    row: &Option<(i64, OwnedList<Value>)>,
) -> Result<(), AllocError> {
    if let Some(row) = row {
        let mut digits = Buffer::new();
        line.extend_from_slice(digits.format(row.0).as_bytes())?;
        let values = values_line(alloc, row.1.as_slice())?;
        line.extend_from_slice(values.as_slice())?;
    }
    Ok(())
}

// Each pair behind a space: the old row, `>`, and the new one.
fn pairs_line(alloc: Global, pairs: &[OldNew]) -> Result<Vec<u8>, AllocError> {
    let mut line = Vec::new(alloc);
    for pair in pairs {
        line.push(b' ')?;
        push_row(alloc, &mut line, &pair.old)?;
        line.push(b'>')?;
        push_row(alloc, &mut line, &pair.new)?;
    }
    Ok(line)
}

// `+` for a prepared row that makes a row, and `.` for one that makes none.
fn made_line(alloc: Global, made: &[bool]) -> Result<Vec<u8>, AllocError> {
    let mut line = Vec::new(alloc);
    for mark in made {
        line.push(if *mark { b'+' } else { b'.' })?;
    }
    Ok(line)
}

const ROWS: &str = "2:2,two,20;1:1,one,10;3:3,three,30";

const TEXTS: &str = "3:x,one,10;5:y,two,20";

// Whether the key is the rowid, from where new rowids count, the rows, the batches, which prepared rows make a row in the order of the steps, and the pairs.
const GROUPS: [(bool, i64, &str, &str, &str, &str); 15] = [
    // One row is changed, one deleted, one replaced and one inserted, whatever order they are given in.
    (
        true,
        3,
        ROWS,
        "i:4,four,40;..x:1,NULL,11;r:3,drei,20;d:2,NULL,NULL",
        "...+",
        " 1|1|one|10>1|1|one|11 2|2|two|20> 3|3|three|30>3|3|drei|20 >4|4|four|40",
    ),
    // A row makes way for another by a later batch, with the same rowid where that is the key.
    (
        true,
        3,
        ROWS,
        "d:2,NULL,NULL/i:2,zwei,22",
        ".+",
        " 2|2|two|20>2|2|zwei|22",
    ),
    // And with the next one where it is not.
    (
        false,
        5,
        TEXTS,
        "d:x,NULL,NULL/i:x,neu,11",
        ".+",
        " 3|x|one|10> >6|x|neu|11",
    ),
    // A row that comes and goes.
    (true, 3, ROWS, "i:9,neun,90/d:9,NULL,NULL", "+.", " >"),
    // Two batches change one row.
    (
        true,
        3,
        ROWS,
        "..x:1,NULL,11/.x.:1,uno,NULL",
        "..",
        " 1|1|one|10>1|1|uno|11",
    ),
    // Updates and deletions of rows that are not there.
    (true, 3, ROWS, "..x:8,NULL,1;d:9,NULL,NULL", "..", ""),
    // A row that is replaced by itself is touched.
    (true, 3, ROWS, "r:1,one,10", ".", " 1|1|one|10>1|1|one|10"),
    // A key that is there, before which one row was changed.
    (
        true,
        3,
        ROWS,
        ".x.:1,uno,NULL;i:2,zwei,22;d:3,NULL,NULL",
        "...",
        " 1|1|one|10>1|1|uno|10",
    ),
    // From a fault on no batch does anything.
    (true, 3, ROWS, "i:1,uno,11/i:5,five,50", "..", ""),
    // A NULL in a column that may have none.
    (
        true,
        3,
        ROWS,
        "i:4,four,40;r:5,NULL,1;i:6,six,60",
        "+..",
        " >4|4|four|40",
    ),
    // New rowids count in the order of the keys.
    (
        false,
        5,
        TEXTS,
        "i:b,new,1;r:x,other,3;r:a,new,2",
        "++.",
        " 3|x|one|10>3|x|other|3 >6|a|new|2 >7|b|new|1",
    ),
    // They count on over the batches.
    (
        false,
        5,
        TEXTS,
        "i:a,one,1/i:b,two,2;d:a,NULL,NULL",
        "+.+",
        " > >7|b|two|2",
    ),
    // A NULL in a key meets nothing.
    (
        false,
        5,
        "4:NULL,one,10",
        "i:NULL,neu,1",
        "+",
        " >6|NULL|neu|1",
    ),
    // The last rowid, and the one behind it.
    (
        false,
        i64::MAX - 1,
        TEXTS,
        "i:a,one,1;i:b,two,2",
        "+.",
        " >9223372036854775807|a|one|1",
    ),
    // No prepared row.
    (true, 3, ROWS, "", "", ""),
];

fn touches(
    alloc: Global,
    is_rowid: bool,
    g: i64,
    rows: &str,
    batches: &str,
    made: &str,
    pairs: &str,
) -> Result<bool, Fail> {
    if g < 0 {
        return Ok(false);
    }
    let table = table_of(alloc, is_rowid, [false, true, false])?;
    let rows = rows_of(alloc, rows)?;
    let batches = batches_of(alloc, batches)?;
    let found = group_pairs(alloc, &table, &g, rows, batches.as_slice())?;
    let made_read = made_line(alloc, found.made.as_slice())?;
    let pairs_read = pairs_line(alloc, found.pairs.as_slice())?;
    Ok(made_read.as_slice() == made.as_bytes() && pairs_read.as_slice() == pairs.as_bytes())
}

#[test]
fn groups_touch_rows(rt: HostRuntime) -> Result<(), Fail> {
    let alloc = rt.alloc();
    for (is_rowid, g, rows, batches, made, pairs) in GROUPS {
        if !touches(alloc, is_rowid, g, rows, batches, made, pairs)? {
            return Err(Fail::new(batches));
        }
    }
    Ok(())
}
