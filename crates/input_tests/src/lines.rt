// Answers as lines of text.

use itoa::Buffer;
use prepared_spec::InputFault;
use rbu_input::StoreFault;
use rbu_rows::{Batch, Control, ControlFault, OwnedList, Prepared};
use rbu_value::Value;
use std::alloc::{AllocError, Global};

/// Appends a number.
pub fn push_number(line: &mut Vec<u8>, number: i64) -> Result<(), AllocError> {
    let mut digits = Buffer::new();
    line.extend_from_slice(digits.format(number).as_bytes())
}

fn push_value(line: &mut Vec<u8>, value: &Value) -> Result<(), AllocError> {
    match value {
        Value::Null => line.push(b'-')?,
        Value::Int(number) => push_number(line, *number)?,
        Value::Text(text) => line.extend_from_slice(text.as_slice())?,
        Value::Blob(blob) => line.extend_from_slice(blob.as_slice())?,
    }
    Ok(())
}

fn push_values(line: &mut Vec<u8>, values: &[Value]) -> Result<(), AllocError> {
    for value in values {
        line.push(b',')?;
        push_value(line, value)?;
    }
    Ok(())
}

fn push_control(line: &mut Vec<u8>, control: &Control) -> Result<(), AllocError> {
    match control {
        Control::Insert => line.push(b'i')?,
        Control::Replace => line.push(b'r')?,
        Control::Delete => line.push(b'd')?,
        Control::Update(marks) => {
            for mark in marks.as_slice() {
                line.push(if *mark { b'x' } else { b'.' })?;
            }
        }
    }
    Ok(())
}

// A row: its rowid, the values of its key, its control, and its values.
fn push_row(line: &mut Vec<u8>, row: &Prepared) -> Result<(), AllocError> {
    line.push(b' ')?;
    push_number(line, row.data_rowid)?;
    push_values(line, row.key.as_slice())?;
    line.push(b' ')?;
    push_control(line, &row.control)?;
    push_values(line, row.values.as_slice())
}

fn push_batch(line: &mut Vec<u8>, batch: &Batch) -> Result<(), AllocError> {
    line.extend_from_slice(batch.table.as_slice())?;
    line.push(b'<')?;
    line.extend_from_slice(batch.source.as_slice())?;
    for row in batch.rows.as_slice() {
        push_row(line, row)?;
    }
    Ok(())
}

fn number_of(fault: &InputFault) -> i64 {
    match fault {
        InputFault::TreeDamaged { .. } => 55,
        InputFault::SqlSyntax { .. } => 60,
        InputFault::OutsideProfile { .. } => 61,
        InputFault::Control { fault, .. } => match fault {
            ControlFault::ControlValue => 80,
            ControlFault::ControlLength { .. } => 81,
            ControlFault::ControlLetter { .. } => 82,
            ControlFault::DeltaColumn { .. } => 83,
            ControlFault::Memory(_) => 0,
        },
        InputFault::NoTarget { .. } => 84,
        InputFault::ColumnMissing { .. } => 85,
        InputFault::ColumnUnknown { .. } => 86,
        InputFault::RowidMissing { .. } => 87,
        InputFault::KeyNull { .. } => 88,
        InputFault::KeyMismatch { .. } => 89,
        InputFault::KeyChanged { .. } => 90,
        InputFault::DuplicateKey { .. } => 91,
        InputFault::ClassChange { .. } => 92,
        InputFault::TooMuch { .. } => 93,
        InputFault::DataRecord { .. } => 95,
        InputFault::TargetRecord { .. } => 96,
    }
}

fn table_of(fault: &InputFault) -> &[u8] {
    match fault {
        InputFault::SqlSyntax { table, .. } => table.as_slice(),
        InputFault::OutsideProfile { table, .. } => table.as_slice(),
        InputFault::Control { table, .. } => table.as_slice(),
        InputFault::NoTarget { name } => name.as_slice(),
        InputFault::ColumnMissing { table, .. } => table.as_slice(),
        InputFault::ColumnUnknown { table, .. } => table.as_slice(),
        InputFault::RowidMissing { table } => table.as_slice(),
        InputFault::KeyNull { table, .. } => table.as_slice(),
        InputFault::KeyMismatch { table, .. } => table.as_slice(),
        InputFault::KeyChanged { table, .. } => table.as_slice(),
        InputFault::DuplicateKey { table, .. } => table.as_slice(),
        InputFault::ClassChange { table, .. } => table.as_slice(),
        InputFault::DataRecord { table, .. } => table.as_slice(),
        InputFault::TargetRecord { table, .. } => table.as_slice(),
        InputFault::TooMuch { what, .. } => what.word().as_bytes(),
        InputFault::TreeDamaged { rule, .. } => rule.word().as_bytes(),
    }
}

fn rowid_of(fault: &InputFault) -> i64 {
    match fault {
        InputFault::Control { rowid, .. } => *rowid,
        InputFault::KeyNull { rowid, .. } => *rowid,
        InputFault::KeyMismatch { rowid, .. } => *rowid,
        InputFault::KeyChanged { rowid, .. } => *rowid,
        InputFault::DuplicateKey { first, .. } => *first,
        InputFault::ClassChange { rowid, .. } => *rowid,
        InputFault::DataRecord { rowid, .. } => *rowid,
        InputFault::TargetRecord { rowid, .. } => *rowid,
        _ => 0,
    }
}

fn column_of(fault: &InputFault) -> &[u8] {
    match fault {
        InputFault::ColumnMissing { column, .. } => column.as_slice(),
        InputFault::ColumnUnknown { column, .. } => column.as_slice(),
        InputFault::KeyChanged { column, .. } => column.as_slice(),
        InputFault::ClassChange { column, .. } => column.as_slice(),
        _ => b"",
    }
}

// A refusal: its number, the table, what is limited or the rule of a page, a rowid, a column, and a second rowid, as far as it has them.
fn push_refusal(line: &mut Vec<u8>, fault: &InputFault) -> Result<(), AllocError> {
    push_number(line, number_of(fault))?;
    line.push(b' ')?;
    line.extend_from_slice(table_of(fault))?;
    if rowid_of(fault) != 0 {
        line.push(b' ')?;
        push_number(line, rowid_of(fault))?;
    }
    if !column_of(fault).is_empty() {
        line.push(b' ')?;
        line.extend_from_slice(column_of(fault))?;
    }
    if let InputFault::DuplicateKey { second, .. } = fault {
        line.push(b' ')?;
        push_number(line, *second)?;
    }
    Ok(())
}

fn push_count(line: &mut Vec<u8>, count: u64) -> Result<(), AllocError> {
    let mut digits = Buffer::new();
    line.push(b' ')?;
    line.extend_from_slice(digits.format(count).as_bytes())
}

fn push_control_counts(line: &mut Vec<u8>, fault: &ControlFault) -> Result<(), AllocError> {
    match fault {
        ControlFault::ControlLength { has, needs } => {
            push_count(line, *has)?;
            push_count(line, *needs)
        }
        ControlFault::ControlLetter { place } => push_count(line, *place),
        ControlFault::DeltaColumn { place } => push_count(line, *place),
        _ => Ok(()),
    }
}

// What a refusal counts: of a control its letters or the place of one, of a limit what there is and the limit, of a page its number.
fn push_counts(line: &mut Vec<u8>, fault: &InputFault) -> Result<(), AllocError> {
    match fault {
        InputFault::TooMuch { has, limit, .. } => {
            push_count(line, *has)?;
            push_count(line, *limit)
        }
        InputFault::Control { fault, .. } => push_control_counts(line, fault),
        InputFault::TreeDamaged { page, .. } => push_count(line, *page),
        _ => Ok(()),
    }
}

/// The line of a fault.
pub fn fault_line(alloc: Global, fault: &StoreFault<AllocError>) -> Result<Vec<u8>, AllocError> {
    let mut line = Vec::new(alloc);
    match fault {
        StoreFault::Refused(fault) => {
            push_refusal(&mut line, fault)?;
            push_counts(&mut line, fault)?;
        }
        StoreFault::Store(_) => line.extend_from_slice(b"store")?,
        StoreFault::Memory(_) => line.extend_from_slice(b"memory")?,
    }
    Ok(line)
}

/// The line of groups: the batches of each, with / behind each group.
pub fn groups_line(alloc: Global, groups: &[OwnedList<Batch>]) -> Result<Vec<u8>, AllocError> {
    let mut line = Vec::new(alloc);
    for group in groups {
        for batch in group.as_slice() {
            push_batch(&mut line, batch)?;
        }
        line.push(b'/')?;
    }
    Ok(line)
}
