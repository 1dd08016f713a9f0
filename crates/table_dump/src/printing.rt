// Prints values and rows.
ghost use Rattle.std.specs.Prelude.{◌≡◌, ◌++◌, OnOk, codes};
ghost use Rattle.std.specs.Fmt.{signed_decimal};
ghost use Rattle.std.specs.List.{flat_map};
ghost use Rattle.hex.specs.Hex.{encode_lower};
ghost use Rattle.dump_spec.specs.Printing.{quoted, row_line, value_text, values_text};

use itoa::Buffer;
use rbu_value::Value;
use std::alloc::{AllocError, Global};

// Appends an integer in decimal digits.
fn push_integer(text: &mut Vec<u8>, number: i64) -> Result<(), AllocError>
    ensures { OnOk result (text.new.items ≡ text.old.items ++ signed_decimal number) }
{
    let mut digits = Buffer::new();
    text.extend_from_slice(digits.format(number).as_bytes())
}

// Appends a byte of a text between quotes.
fn push_quoted_byte(text: &mut Vec<u8>, byte: u8) -> Result<(), AllocError>
    ensures { OnOk result (text.new.items ≡ text.old.items ++ quoted byte) }
{
    if byte == b'\'' {
        text.extend_from_slice(b"''")
    } else {
        text.extend_from_slice(&[byte])
    }
}

// Appends the bytes of a text between quotes.
fn push_quoted(text: &mut Vec<u8>, bytes: &[u8]) -> Result<(), AllocError>
    ensures { OnOk result (text.new.items ≡ text.old.items ++ flat_map quoted bytes.now) }
{
    let mut left = bytes;
    while let [byte, rest @ ..] = left {
        push_quoted_byte(text, *byte)?;
        left = rest;
    }
    Ok(())
}

// Appends bytes in hexadecimal digits.
fn push_digits(alloc: Global, text: &mut Vec<u8>, bytes: &[u8]) -> Result<(), AllocError>
    ensures { OnOk result (text.new.items ≡ text.old.items ++ encode_lower bytes.now) }
{
    let digits = hex::encode(alloc, bytes)?;
    text.extend_from_slice(digits.as_bytes())
}

fn push_text(text: &mut Vec<u8>, bytes: &[u8]) -> Result<(), AllocError>
    ensures { OnOk result (text.new.items ≡ text.old.items ++ (codes "'" ++ (flat_map quoted bytes.now ++ codes "'"))) }
{
    text.extend_from_slice(b"'")?;
    push_quoted(text, bytes)?;
    text.extend_from_slice(b"'")
}

fn push_blob(alloc: Global, text: &mut Vec<u8>, bytes: &[u8]) -> Result<(), AllocError>
    ensures { OnOk result (text.new.items ≡ text.old.items ++ (codes "x'" ++ (encode_lower bytes.now ++ codes "'"))) }
{
    text.extend_from_slice(b"x'")?;
    push_digits(alloc, text, bytes)?;
    text.extend_from_slice(b"'")
}

// Appends a value.
fn push_value(alloc: Global, text: &mut Vec<u8>, value: &Value) -> Result<(), AllocError>
    ensures { OnOk result (text.new.items ≡ text.old.items ++ value_text value.now) }
{
    match value {
        Value::Null => text.extend_from_slice(b"NULL"),
        Value::Int(number) => push_integer(text, *number),
        Value::Text(bytes) => push_text(text, bytes.as_slice()),
        Value::Blob(bytes) => push_blob(alloc, text, bytes.as_slice()),
    }
}

// Appends values, with a bar before each.
fn push_values(alloc: Global, text: &mut Vec<u8>, values: &[Value]) -> Result<(), AllocError>
    ensures { OnOk result (text.new.items ≡ text.old.items ++ values_text values.now) }
{
    let mut left = values;
    while let [value, rest @ ..] = left {
        text.extend_from_slice(b"|")?;
        push_value(alloc, text, value)?;
        left = rest;
    }
    Ok(())
}

/// Appends the line of a row: its rowid and its values, with bars between, and a line feed.
pub fn push_row(
    alloc: Global,
    text: &mut Vec<u8>,
    rowid: i64,
    values: &[Value],
) -> Result<(), AllocError>
    ensures { OnOk result (text.new.items ≡ text.old.items ++ row_line rowid values.now) }
{
    push_integer(text, rowid)?;
    push_values(alloc, text, values)?;
    text.extend_from_slice(b"\n")
}
