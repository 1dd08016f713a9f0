// Passes of batches over a table.

use crate::rows::values_of;
use crate::steps::control_of;
use crate::stores::{entry_of, is_whole, rows_line, table_with};
use database_spec::Entry;
use imposter::TablePass;
use owned_list::OwnedList;
use page_store::{PageRead, PlainStore};
use pass_fault::PassAnswer;
use prepared_spec::Violation;
use rbu_rows::{Batch, Prepared};
use rbu_value::Bytes;
use std::alloc::{AllocError, Global};
use std::rt::HostRuntime;
use std::test::Fail;

// A prepared row: its control, `:`, its key, `:`, and its values between commas.
fn prepared_of(alloc: Global, text: &str) -> Result<Option<Prepared>, AllocError> {
    let mut parts = text.split(':');
    let (Some(letters), Some(key), Some(words)) = (parts.next(), parts.next(), parts.next()) else {
        return Ok(None);
    };
    let control = control_of(alloc, letters)?;
    let key = values_of(alloc, key)?;
    let values = values_of(alloc, words)?;
    Ok(Some(Prepared {
        data_rowid: 7,
        key: OwnedList::from_vec(key),
        values: OwnedList::from_vec(values),
        control,
    }))
}

// Prepared rows, which `;` parts.
fn batch_of(alloc: Global, text: &str) -> Result<Batch, AllocError> {
    let mut rows = Vec::new(alloc);
    for part in text.split(';') {
        if let Some(row) = prepared_of(alloc, part)? {
            rows.push(row)?;
        }
    }
    Ok(Batch {
        table: Bytes::of(alloc, b"t")?,
        source: Bytes::of(alloc, b"data_t")?,
        rows: OwnedList::from_vec(rows),
    })
}

// `m` for a step that was made, `.` for the end, and another letter for a constraint that is broken.
fn letter_of(answer: &PassAnswer) -> u8 {
    match answer {
        PassAnswer::Moved => b'm',
        PassAnswer::End => b'.',
        PassAnswer::Constraint(Violation::NotNull { .. }) => b'n',
        PassAnswer::Constraint(Violation::KeyPresent { .. }) => b'k',
        PassAnswer::Constraint(Violation::NotUnique { .. }) => b'u',
        PassAnswer::Constraint(Violation::RowidsSpent { .. }) => b's',
    }
}

fn begin(
    alloc: Global,
    entry: &Entry,
    text: &str,
    g: i64,
    from: u64,
    taken: u64,
) -> Result<TablePass, Fail> {
    if entry.meaning.is_err() {
        return Err(Fail::new("no table"));
    }
    let batch = batch_of(alloc, text)?;
    Ok(TablePass::new(alloc, batch, entry, g, from, taken)?)
}

fn step(alloc: Global, store: &mut PlainStore, pass: &mut TablePass) -> Result<u8, Fail> {
    let root = pass.target.root;
    if !is_whole(store) || root < 1 || store.count() < root {
        return Err(Fail::new("no store"));
    }
    if pass.target.greatest < 0 || pass.taken == u64::MAX {
        return Err(Fail::new("no pass"));
    }
    match pass.step(alloc, store) {
        Ok(answer) => Ok(letter_of(&answer)),
        Err(_) => Err(Fail::new("refused")),
    }
}

// Where a group stands: how many rows are new, and what its steps answered.
#[derive(Drop)]
struct Progress {
    taken: u64,
    answers: Vec<u8>,
}

// Goes through a batch, in one pass or in one for each step, up to what is not a step.
fn take_batch(
    alloc: Global,
    store: &mut PlainStore,
    entry: &Entry,
    text: &str,
    g: i64,
    anew: bool,
    progress: &mut Progress,
) -> Result<(), Fail> {
    let mut pass = begin(alloc, entry, text, g, 0, progress.taken)?;
    for at in 0..9 {
        if anew {
            pass = begin(alloc, entry, text, g, at, progress.taken)?;
        }
        let letter = step(alloc, store, &mut pass)?;
        progress.answers.push(letter)?;
        progress.taken = pass.taken;
        if letter != b'm' {
            return Ok(());
        }
    }
    Ok(())
}

// Goes through batches, which `/` parts.
fn take_batches(
    alloc: Global,
    store: &mut PlainStore,
    entry: &Entry,
    texts: &str,
    g: i64,
    anew: bool,
) -> Result<Vec<u8>, Fail> {
    let mut progress = Progress {
        taken: 0,
        answers: Vec::new(alloc),
    };
    for text in texts.split('/') {
        take_batch(alloc, store, entry, text, g, anew, &mut progress)?;
    }
    let Progress { answers, .. } = progress;
    Ok(answers)
}

const KEYED: &str = "CREATE TABLE t(a INTEGER PRIMARY KEY, b TEXT NOT NULL, c UNIQUE)";

const KEYLESS: &str = "CREATE TABLE t(v)";

const ROWS: &str = "1:NULL,one,10;2:NULL,two,20;3:NULL,three,30";

// The text of the table, its rows, from where new rowids count, the batches, what the steps answer, and the rows behind them.
const PASSES: [(&str, &str, i64, &str, &str, &str); 9] = [
    // One row is changed, one deleted, one replaced and one inserted, in the order of the keys.
    (
        KEYED,
        ROWS,
        3,
        "i:4:4,four,40;..x:1:1,NULL,11;d:2:2,NULL,NULL;r:3:3,drei,20",
        "mmmm.",
        " 1|1|one|11 3|3|drei|20 4|4|four|40",
    ),
    // Updates and deletions of rows that are not there.
    (
        KEYED,
        ROWS,
        3,
        "..x:99:99,NULL,1;d:98:98,NULL,NULL",
        "mm.",
        " 1|1|one|10 2|2|two|20 3|3|three|30",
    ),
    // A second batch changes what the first inserted, and deletes an old row.
    (
        KEYED,
        ROWS,
        3,
        "i:4:4,v,40/..x:4:4,NULL,41;d:2:2,NULL,NULL",
        "m.mm.",
        " 1|1|one|10 3|3|three|30 4|4|v|41",
    ),
    // A row makes way for another.
    (
        KEYED,
        ROWS,
        3,
        "d:1:1,NULL,NULL/i:1:1,uno,10",
        "m.m.",
        " 1|1|uno|10 2|2|two|20 3|3|three|30",
    ),
    // A key that both batches insert.
    (
        KEYED,
        ROWS,
        3,
        "i:7:7,a,1/i:7:7,b,2",
        "m.k",
        " 1|1|one|10 2|2|two|20 3|3|three|30 7|7|a|1",
    ),
    // A NULL in a column that may have none, behind a step that is made.
    (
        KEYED,
        ROWS,
        3,
        "i:4:4,NULL,5;d:3:3,NULL,NULL",
        "mn",
        " 1|1|one|10 2|2|two|20",
    ),
    // A table without a PRIMARY KEY.
    (KEYLESS, "1:x", 1, "i:10:y;d:1:NULL", "mm.", " 10|y"),
    (KEYLESS, "1:x;2:y", 2, "x:2:z;.:1:z", "mm.", " 1|x 2|z"),
    // No prepared row.
    (
        KEYED,
        ROWS,
        3,
        "",
        ".",
        " 1|1|one|10 2|2|two|20 3|3|three|30",
    ),
];

fn passes(
    alloc: Global,
    store: &mut PlainStore,
    entry: &Entry,
    g: i64,
    texts: &str,
    anew: bool,
    answers: &str,
    rows: &str,
) -> Result<bool, Fail> {
    let answered = take_batches(alloc, store, entry, texts, g, anew)?;
    let read = rows_line(alloc, store, entry)?;
    Ok(answered.as_slice() == answers.as_bytes() && read.as_slice() == rows.as_bytes())
}

fn all_pass(alloc: Global, anew: bool) -> Result<(), Fail> {
    for (sql, old, g, texts, answers, rows) in PASSES {
        let mut store = table_with(alloc, old)?;
        let entry = entry_of(alloc, sql);
        if !passes(alloc, &mut store, &entry, g, texts, anew, answers, rows)? {
            return Err(Fail::new(texts));
        }
    }
    Ok(())
}

#[test]
fn batches_pass_over_tables(rt: HostRuntime) -> Result<(), Fail> {
    all_pass(rt.alloc(), false)
}

#[test]
fn passes_that_begin_at_each_step_go_on(rt: HostRuntime) -> Result<(), Fail> {
    all_pass(rt.alloc(), true)
}
