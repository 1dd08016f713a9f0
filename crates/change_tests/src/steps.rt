// What prepared rows do with rows of a table.

use crate::rows::{row_of, table_of, values_line, values_of};
use owned_list::OwnedList;
use prepared_spec::Violation;
use rbu_rows::{Control, Prepared};
use row_steps::{met_values, row_fault};
use std::alloc::{AllocError, Global};
use std::rt::HostRuntime;
use std::test::Fail;

/// A control: a letter for an insertion, a replacement or a deletion, or the marks of an update.
pub fn control_of(alloc: Global, letters: &str) -> Result<Control, AllocError> {
    match letters.as_bytes() {
        b"i" => Ok(Control::Insert),
        b"r" => Ok(Control::Replace),
        b"d" => Ok(Control::Delete),
        marks => {
            let mut marked = Vec::new(alloc);
            for letter in marks {
                marked.push(*letter == b'x')?;
            }
            Ok(Control::Update(OwnedList::from_vec(marked)))
        }
    }
}

fn prepared_of(alloc: Global, letters: &str, values: &str) -> Result<Prepared, AllocError> {
    let control = control_of(alloc, letters)?;
    let values = values_of(alloc, values)?;
    Ok(Prepared {
        data_rowid: 7,
        key: OwnedList::from_vec(Vec::new(alloc)),
        values: OwnedList::from_vec(values),
        control,
    })
}

fn word_of(fault: &Option<Violation>) -> &[u8] {
    match fault {
        None => b"",
        Some(Violation::NotNull { column, .. }) => column.as_slice(),
        Some(Violation::KeyPresent { .. }) => b"key-present",
        Some(Violation::NotUnique { .. }) => b"not-unique",
        Some(Violation::RowidsSpent { .. }) => b"rowids-spent",
    }
}

// Whether the key is the rowid, a control, whether a row is met, values, how many rows are new, and the fault, or the column that may not be NULL.
const FAULTS: [(bool, &str, bool, &str, u64, &str); 12] = [
    (true, "i", false, "4,four,40", 9, ""),
    (true, "i", true, "4,four,40", 0, "key-present"),
    // A NULL comes before a key that is there.
    (true, "i", true, "4,NULL,40", 0, "b"),
    (true, "r", true, "4,NULL,40", 0, "b"),
    (true, "r", true, "4,four,NULL", 0, ""),
    // The INTEGER PRIMARY KEY never counts as NULL.
    (true, "i", false, "NULL,four,40", 0, ""),
    // An update writes the marked columns of a row that is there.
    (true, "..x", true, "4,NULL,41", 0, ""),
    (true, ".x.", true, "4,NULL,41", 0, "b"),
    (true, ".x.", false, "4,NULL,41", 0, ""),
    (true, "d", true, "NULL,NULL,NULL", 0, ""),
    // The last rowid, and the one behind it.
    (false, "i", false, "a,b,1", 0, ""),
    (false, "r", false, "a,b,1", 1, "rowids-spent"),
];

fn has_fault(
    alloc: Global,
    is_rowid: bool,
    prepared: &Prepared,
    met: bool,
    taken: u64,
    word: &str,
) -> Result<bool, Fail> {
    let table = table_of(alloc, is_rowid, [true, true, false])?;
    let g = i64::MAX - 1;
    let fault = row_fault(alloc, b"t", &table, &g, taken, met, prepared)?;
    Ok(word_of(&fault) == word.as_bytes())
}

#[test]
fn prepared_rows_have_faults(rt: HostRuntime) -> Result<(), Fail> {
    let alloc = rt.alloc();
    for (is_rowid, letters, met, values, taken, word) in FAULTS {
        let prepared = prepared_of(alloc, letters, values)?;
        if !has_fault(alloc, is_rowid, &prepared, met, taken, word)? {
            return Err(Fail::new(letters));
        }
    }
    Ok(())
}

// A control, values, and what becomes of the row 1, 'one', 10.
const ROWS: [(&str, &str, &str); 4] = [
    ("i", "1,uno,11", "|1|one|10"),
    ("r", "NULL,uno,NULL", "|1|uno|NULL"),
    ("d", "1,NULL,NULL", ""),
    ("..x", "1,NULL,11", "|1|one|11"),
];

fn becomes(alloc: Global, prepared: &Prepared, line: &str) -> Result<bool, Fail> {
    let table = table_of(alloc, true, [true, true, false])?;
    let Some(row) = row_of(alloc, "1:1,one,10")? else {
        return Err(Fail::new("no row"));
    };
    match met_values(alloc, &table, &row, prepared)? {
        None => Ok(line.is_empty()),
        Some(values) => {
            let read = values_line(alloc, values.as_slice())?;
            Ok(read.as_slice() == line.as_bytes())
        }
    }
}

#[test]
fn rows_that_are_met_become_others(rt: HostRuntime) -> Result<(), Fail> {
    let alloc = rt.alloc();
    for (letters, values, line) in ROWS {
        let prepared = prepared_of(alloc, letters, values)?;
        if !becomes(alloc, &prepared, line)? {
            return Err(Fail::new(letters));
        }
    }
    Ok(())
}
