// Writes canonical records.
ghost use Rattle.std.specs.Prelude.{◌≡◌, ◌+◌, ◌*◌, ◌≤◌, ◌++◌, IfOk, OnOk, length};
ghost use Rattle.std.specs.List.{flat_map};
ghost use Rattle.format_spec.specs.Record.{int_type as shortest_type, int_serial_type as type_of_int, int_body, serial_type as type_of, header_size_bytes as size_bytes, serial_types, record_header, body, canonical_record};
ghost use Rattle.record_codec.specs.Faults.{body_size as size_of};

use byteorder::{BigEndian, ByteOrder};
use cell_codec::{push_varint, varint_length};
use rbu_value::Value;
use std::alloc::{AllocError, Global};

// The serial type of an integer's shortest two's complement form.
fn int_type(z: i64) -> u64
    ensures { result ≡ shortest_type z }
{
    match z {
        -0x80..=0x7f => 1,
        -0x8000..=0x7fff => 2,
        -0x80_0000..=0x7f_ffff => 3,
        -0x8000_0000..=0x7fff_ffff => 4,
        -0x8000_0000_0000..=0x7fff_ffff_ffff => 5,
        _ => 6,
    }
}

/// The serial type of an integer under a schema format in its canonical record.
pub fn int_serial_type(z: i64, format: u32) -> u64
    ensures { result ≡ type_of_int format z }
{
    match z {
        0 if format == 4 => 8,
        1 if format == 4 => 9,
        _ => int_type(z),
    }
}

// The serial type of so many bytes, 12 above twice their number for a blob and 13 for a text. A record of more bytes than fit would be longer than memory.
fn bytes_type(length: usize, first: u64) -> Result<u64, AllocError>
    ensures { IfOk result (λ serial_type. serial_type ≡ 2 * length + first) }
{
    let double = (length as u64).checked_mul(2).ok_or(AllocError)?;
    double.checked_add(first).ok_or(AllocError)
}

// The serial type of a value under a schema format.
fn serial_type(value: &Value, format: u32) -> Result<u64, AllocError>
    ensures { IfOk result (λ serial_type. serial_type ≡ type_of format value.now) }
{
    match value {
        Value::Null => Ok(0),
        Value::Int(z) => Ok(int_serial_type(*z, format)),
        Value::Text(text) => bytes_type(text.as_slice().len(), 13),
        Value::Blob(blob) => bytes_type(blob.as_slice().len(), 12),
    }
}

/// How many bytes a value of a serial type has behind the header.
pub fn body_size(serial_type: u64) -> usize
    ensures { result ≡ size_of serial_type }
{
    match serial_type {
        1..=4 => serial_type as usize,
        5 => 6,
        6 => 8,
        12.. => (serial_type as usize - 12) / 2,
        _ => 0,
    }
}

// How many bytes the serial types take.
fn types_length(values: &[Value], format: u32) -> Result<usize, AllocError>
    ensures { IfOk result (λ n. n ≡ length (serial_types format values.now)) }
{
    let mut total = 0usize;
    for value in values {
        let size = varint_length(serial_type(value, format)?);
        total = total.checked_add(size).ok_or(AllocError)?;
    }
    Ok(total)
}

// How many bytes the size of a header has, of which the serial types take so many.
fn header_size_bytes(types: usize) -> usize
    ensures { result ≡ size_bytes types }
{
    match types {
        0..=0x7e => 1,
        0x7f..=0x3ffd => 2,
        0x3ffe..=0x1f_fffc => 3,
        0x1f_fffd..=0xfff_fffb => 4,
        0xfff_fffc..=0x7_ffff_fffa => 5,
        0x7_ffff_fffb..=0x3ff_ffff_fff9 => 6,
        0x3ff_ffff_fffa..=0x1_ffff_ffff_fff8 => 7,
        0x1_ffff_ffff_fff9..=0xff_ffff_ffff_fff7 => 8,
        _ => 9,
    }
}

// How many bytes follow the header for an integer.
#[tactic(auto, using(crate::proofs::Lengths::int_body_is))]
fn int_length(z: i64, format: u32) -> usize
    ensures { result ≡ length (int_body (type_of_int format z) z) }
{
    body_size(int_serial_type(z, format))
}

// How many bytes follow the header for a value.
fn body_length(value: &Value, format: u32) -> usize
    ensures { result ≡ length (body format value.now) }
{
    match value {
        Value::Null => 0,
        Value::Int(z) => int_length(*z, format),
        Value::Text(bytes) | Value::Blob(bytes) => bytes.as_slice().len(),
    }
}

// How many bytes follow the header.
fn bodies_length(values: &[Value], format: u32) -> Result<usize, AllocError>
    ensures { IfOk result (λ n. n ≡ length (flat_map (body format) values.now)) }
{
    let mut total = 0usize;
    for value in values {
        let size = body_length(value, format);
        total = total.checked_add(size).ok_or(AllocError)?;
    }
    Ok(total)
}

/// The length of the canonical record of values under a schema format.
#[tactic(auto, using(crate::proofs::Lengths::record_length_is))]
pub fn record_length(values: &[Value], format: u32) -> Result<usize, AllocError>
    ensures { IfOk result (λ n. n ≡ length (canonical_record format values.now)) }
{
    let types = types_length(values, format)?;
    let bodies = bodies_length(values, format)?;
    let header = types
        .checked_add(header_size_bytes(types))
        .ok_or(AllocError)?;
    let length = header.checked_add(bodies).ok_or(AllocError)?;
    Ok(length)
}

// Appends the header of the canonical record.
fn push_header(values: &[Value], format: u32, into: &mut Vec<u8>) -> Result<(), AllocError>
    ensures { OnOk result (into.new.items ≡ into.old.items ++ record_header format values.now) }
{
    let types = types_length(values, format)?;
    let header = types
        .checked_add(header_size_bytes(types))
        .ok_or(AllocError)?;
    push_varint(header as u64, into)?;
    for value in values {
        push_varint(serial_type(value, format)?, into)?;
    }
    Ok(())
}

// Appends an integer in the form of a serial type from 1 to 9; 8 and 9 have no bytes.
fn push_int(z: i64, serial_type: u64, into: &mut Vec<u8>) -> Result<(), AllocError>
    requires least { 1 ≤ serial_type }
    requires most { serial_type ≤ 9 }
    ensures { OnOk result (into.new.items ≡ into.old.items ++ int_body serial_type z) }
{
    let size = body_size(serial_type);
    if size == 0 {
        return Ok(());
    }
    let mut bytes = [0; 8];
    BigEndian::write_int(&mut bytes, z, size);
    into.extend_from_slice(&bytes[..size])
}

// Appends the bytes that follow the header for a value.
fn push_body(value: &Value, format: u32, into: &mut Vec<u8>) -> Result<(), AllocError>
    ensures { OnOk result (into.new.items ≡ into.old.items ++ body format value.now) }
{
    match value {
        Value::Null => Ok(()),
        Value::Int(z) => push_int(*z, int_serial_type(*z, format), into),
        Value::Text(bytes) | Value::Blob(bytes) => into.extend_from_slice(bytes.as_slice()),
    }
}

/// Writes the canonical record of values under a schema format: serial types 8 and 9 are of format 4 alone (Database File Format, section 2.1).
#[tactic(auto, unfolding(format_spec::specs::Record::canonical_record))]
pub fn write_record(alloc: Global, values: &[Value], format: u32) -> Result<Vec<u8>, AllocError>
    ensures { IfOk result (λ written. written.items ≡ canonical_record format values.now) }
{
    let mut record = Vec::new(alloc);
    push_header(values, format, &mut record)?;
    for value in values {
        push_body(value, format, &mut record)?;
    }
    Ok(record)
}
