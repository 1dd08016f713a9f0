// Prints prepared rows.
use itoa::Buffer;
use owned_list::OwnedList;
use rbu_rows::{Batch, Control, Prepared};
use rbu_value::Value;
use std::alloc::{AllocError, Global};

fn push_number(line: &mut Vec<u8>, number: i64) -> Result<(), AllocError> {
    let mut digits = Buffer::new();
    line.extend_from_slice(digits.format(number).as_bytes())
}

fn push_digits(
    alloc: Global,
    line: &mut Vec<u8>,
    letter: u8,
    bytes: &[u8],
) -> Result<(), AllocError> {
    let digits = hex::encode(alloc, bytes)?;
    line.push(letter)?;
    line.extend_from_slice(digits.as_bytes())
}

// A value: `-` for NULL, an integer, or the bytes of a text behind `t` and of a blob behind `x`.
fn push_value(alloc: Global, line: &mut Vec<u8>, value: &Value) -> Result<(), AllocError> {
    line.push(b'|')?;
    match value {
        Value::Null => {
            line.push(b'-')?;
            Ok(())
        }
        Value::Int(number) => push_number(line, *number),
        Value::Text(text) => push_digits(alloc, line, b't', text.as_slice()),
        Value::Blob(blob) => push_digits(alloc, line, b'x', blob.as_slice()),
    }
}

fn push_marks(line: &mut Vec<u8>, marks: &[bool]) -> Result<(), AllocError> {
    for mark in marks {
        line.push(if *mark { b'x' } else { b'.' })?;
    }
    Ok(())
}

// What is done with a row: `insert`, `delete`, `replace`, or a letter for each column of the target, `x` where it is updated.
fn push_control(line: &mut Vec<u8>, control: &Control) -> Result<(), AllocError> {
    match control {
        Control::Insert => line.extend_from_slice(b"insert"),
        Control::Delete => line.extend_from_slice(b"delete"),
        Control::Replace => line.extend_from_slice(b"replace"),
        Control::Update(marks) => push_marks(line, marks.as_slice()),
    }
}

fn push_row(alloc: Global, text: &mut Vec<u8>, row: &Prepared) -> Result<(), AllocError> {
    text.push(b'|')?;
    push_number(text, row.data_rowid)?;
    text.push(b'|')?;
    push_control(text, &row.control)?;
    for value in row.values.as_slice() {
        push_value(alloc, text, value)?;
    }
    text.push(b'\n')?;
    Ok(())
}

fn push_batch(alloc: Global, text: &mut Vec<u8>, batch: &Batch) -> Result<(), AllocError> {
    for row in batch.rows.as_slice() {
        text.extend_from_slice(batch.source.as_slice())?;
        push_row(alloc, text, row)?;
    }
    Ok(())
}

/// The lines of prepared rows.
pub fn lines_of(alloc: Global, groups: &[OwnedList<Batch>]) -> Result<Vec<u8>, AllocError> {
    let mut text = Vec::new(alloc);
    for group in groups {
        for batch in group.as_slice() {
            push_batch(alloc, &mut text, batch)?;
        }
    }
    Ok(text)
}

/// The line of how many prepared rows there are.
pub fn count_line(alloc: Global, groups: &[OwnedList<Batch>]) -> Result<Vec<u8>, AllocError> {
    let mut count = 0i64;
    for group in groups {
        for batch in group.as_slice() {
            count = count.saturating_add_unsigned(batch.rows.as_slice().len() as u64);
        }
    }
    let mut text = Vec::new(alloc);
    push_number(&mut text, count)?;
    text.push(b'\n')?;
    Ok(text)
}
