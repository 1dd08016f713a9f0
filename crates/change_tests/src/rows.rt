// A table and its indexes, rows from text, and what comes of them as lines of text.

use index_changes::OldNew;
use itoa::Buffer;
use owned_list::OwnedList;
use prepared_spec::Change;
use rbu_value::{Affinity, Bytes, Collation, Value};
use schema_spec::{Column, Index, Table};
use std::alloc::{AllocError, Global};

fn column_of(alloc: Global, name: &[u8], not_null: bool) -> Result<Column, AllocError> {
    Ok(Column {
        name: Bytes::of(alloc, name)?,
        affinity: Affinity::Blob,
        collation: Collation::Binary,
        not_null,
    })
}

/// The table t(a, b, c), whose PRIMARY KEY is a, an INTEGER PRIMARY KEY where this is the rowid, and of which some columns are NOT NULL.
pub fn table_of(alloc: Global, is_rowid: bool, not_null: [bool; 3]) -> Result<Table, AllocError> {
    let mut columns = Vec::new(alloc);
    columns.push(column_of(alloc, b"a", not_null[0])?)?;
    columns.push(column_of(alloc, b"b", not_null[1])?)?;
    columns.push(column_of(alloc, b"c", not_null[2])?)?;
    let mut key = Vec::new(alloc);
    key.push(0)?;
    let unique: Vec<OwnedList<(u32, Collation)>> = Vec::new(alloc);
    Ok(Table {
        name: Bytes::of(alloc, b"t")?,
        columns: OwnedList::from_vec(columns),
        rowid_column: if is_rowid { Some(0) } else { None },
        key: OwnedList::from_vec(key),
        unique: OwnedList::from_vec(unique),
    })
}

/// An index of the table over these columns.
pub fn index_of(alloc: Global, columns: &[(u32, Collation, bool)]) -> Result<Index, AllocError> {
    let mut items = Vec::new(alloc);
    for column in columns {
        items.push((column.0, column.1, column.2))?;
    }
    Ok(Index {
        name: Bytes::of(alloc, b"i")?,
        table: Bytes::of(alloc, b"t")?,
        unique: false,
        columns: OwnedList::from_vec(items),
    })
}

// A value: `NULL`, an integer, or a text.
fn value_of(alloc: Global, word: &str) -> Result<Value, AllocError> {
    if word == "NULL" {
        return Ok(Value::Null);
    }
    match word.parse::<u32>() {
        Ok(number) => Ok(Value::Int(i64::from(number))),
        Err(_) => Ok(Value::Text(Bytes::of(alloc, word.as_bytes())?)),
    }
}

/// Values between commas.
pub fn values_of(alloc: Global, words: &str) -> Result<Vec<Value>, AllocError> {
    let mut values = Vec::new(alloc);
    for word in words.split(',') {
        let value = value_of(alloc, word)?;
        values.push(value)?;
    }
    Ok(values)
}

fn rowid_of(word: &str) -> i64 {
    match word.parse::<u32>() {
        Ok(number) => i64::from(number),
        Err(_) => 0,
    }
}

/// A row: its rowid, `:`, and its values between commas.
pub fn row_of(alloc: Global, text: &str) -> Result<Option<(i64, OwnedList<Value>)>, AllocError> {
    let mut parts = text.split(':');
    let (Some(rowid), Some(words)) = (parts.next(), parts.next()) else {
        return Ok(None);
    };
    let values = values_of(alloc, words)?;
    Ok(Some((rowid_of(rowid), OwnedList::from_vec(values))))
}

// An old row, `>`, and a new one.
fn pair_of(alloc: Global, text: &str) -> Result<OldNew, AllocError> {
    let mut sides = text.split('>');
    let old = row_of(alloc, sides.next().unwrap_or(""))?;
    let new = row_of(alloc, sides.next().unwrap_or(""))?;
    Ok(OldNew { old, new })
}

/// Pairs, which `;` parts.
pub fn pairs_of(alloc: Global, text: &str) -> Result<Vec<OldNew>, AllocError> {
    let mut pairs = Vec::new(alloc);
    for part in text.split(';') {
        let pair = pair_of(alloc, part)?;
        pairs.push(pair)?;
    }
    Ok(pairs)
}

fn push_value(line: &mut Vec<u8>, value: &Value) -> Result<(), AllocError> {
    match value {
        Value::Null => line.extend_from_slice(b"NULL")?,
        Value::Int(number) => {
            let mut digits = Buffer::new();
            line.extend_from_slice(digits.format(*number).as_bytes())?;
        }
        Value::Text(text) => line.extend_from_slice(text.as_slice())?,
        Value::Blob(blob) => line.extend_from_slice(blob.as_slice())?,
    }
    Ok(())
}

/// Values, each behind a bar.
pub fn values_line(alloc: Global, values: &[Value]) -> Result<Vec<u8>, AllocError> {
    let mut line = Vec::new(alloc);
    for value in values {
        line.push(b'|')?;
        push_value(&mut line, value)?;
    }
    Ok(line)
}

fn push_change(line: &mut Vec<u8>, sign: u8, entry: &[Value]) -> Result<(), AllocError> {
    line.push(b' ')?;
    line.push(sign)?;
    for value in entry {
        line.push(b'|')?;
        push_value(line, value)?;
    }
    Ok(())
}

/// Each change as ` -` or ` +` and its values, each behind a bar.
pub fn changes_line(alloc: Global, changes: &[Change]) -> Result<Vec<u8>, AllocError> {
    let mut line = Vec::new(alloc);
    for change in changes {
        match change {
            Change::Remove(entry) => push_change(&mut line, b'-', entry.as_slice())?,
            Change::Add(entry) => push_change(&mut line, b'+', entry.as_slice())?,
        }
    }
    Ok(line)
}
