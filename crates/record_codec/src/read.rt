// Reads records.
ghost use Rattle.std.specs.Prelude.{◌≡◌, ℕ, ◌<◌, ◌⊎◌, ◌++◌, List, IfOk, IfErr, MatchResult, length};
ghost use Rattle.rbu_value.specs.declared.value.Value.{Value};
ghost use Rattle.common_spec.specs.Reading.{OrFault, ReadsOrWants};
ghost use Rattle.format_spec.specs.Varint.{IsVarint};
ghost use Rattle.format_spec.specs.Record.{IsField, AreFields, IsRecord};
ghost use Rattle.record_codec.specs.declared.read.RecordFault.{RecordFault};
ghost use Rattle.record_codec.specs.Faults.{IsMemory, IsValueType, body_size, After, StopsWith, FieldsHaveFault, HasHeader, HasNoHeader, HasFault};

use crate::write::body_size;
use byteorder::{BigEndian, ByteOrder};
use cell_codec::read_varint;
use rbu_value::{Bytes, Value};
use std::alloc::{AllocError, AllocFailed, Global};

/// Why bytes are no record.
#[derive(Debug, Clone, Copy, PartialEq, Eq)]
pub enum RecordFault {
    /// The header's length is wrong, or passes the bytes: refusal 20.
    ShortHeader,
    /// A serial type is 10 or 11: refusal 21.
    ReservedType,
    /// A value is a float: refusal 22.
    RealValue,
    /// The bodies are not exactly what follows the header: refusal 23.
    BodyLength,
    /// There is no memory for the values.
    Memory(AllocError),
}

impl From<AllocError> for RecordFault {
    ghost from_gives = { λ error fault. fault ≡ RecordFault.Memory error };

    fn from(error: AllocError) -> RecordFault {
        RecordFault::Memory(error)
    }
}

impl<T: Drop> From<AllocFailed<T>> for RecordFault {
    ghost from_gives = { λ _ fault. IsMemory fault };

    fn from(_: AllocFailed<T>) -> RecordFault {
        RecordFault::Memory(AllocError)
    }
}

// The serial types and the bodies.
fn read_header(bytes: &[u8]) -> Result<(&[u8], &[u8]), RecordFault>
    ensures found { IfOk result (λ parts. HasHeader bytes.now parts.0.now parts.1.now) }
    ensures fault { IfErr result (λ fault. (fault ≡ RecordFault.ShortHeader) × HasNoHeader bytes.now) }
{
    let (header, start) = read_varint(bytes).ok_or(RecordFault::ShortHeader)?;
    let end = header as usize;
    if end < start || bytes.len() < end {
        return Err(RecordFault::ShortHeader);
    }
    Ok((&bytes[start..end], &bytes[end..]))
}

// The first serial type, and those behind it.
fn read_type(types: &[u8]) -> Result<(u64, &[u8]), RecordFault>
    requires { 0 < length types.now }
    ensures found { IfOk result (λ read. IsValueType read.0 × ((spelling : List ℕ) × IsVarint spelling read.0 × (types.now ≡ spelling ++ read.1.now))) }
    ensures fault { IfErr result (λ fault. StopsWith fault types.now) }
{
    let (serial_type, size) = read_varint(types).ok_or(RecordFault::ShortHeader)?;
    match serial_type {
        7 => Err(RecordFault::RealValue),
        10 | 11 => Err(RecordFault::ReservedType),
        _ => Ok((serial_type, &types[size..])),
    }
}

// The value of a serial type and its body.
fn read_value(alloc: Global, serial_type: u64, body: &[u8]) -> Result<Value, AllocError>
    requires known { IsValueType serial_type }
    requires size { length body.now ≡ body_size serial_type }
    ensures { IfOk result (IsField serial_type body.now) }
{
    Ok(match serial_type {
        0 => Value::Null,
        1..=6 => Value::Int(BigEndian::read_int(body, body.len())),
        8 | 9 => Value::Int(serial_type as i64 - 8),
        _ if serial_type % 2 == 0 => Value::Blob(Bytes::of(alloc, body)?),
        _ => Value::Text(Bytes::of(alloc, body)?),
    })
}

// The fault of a record whose bodies end before these serial types have theirs: a serial type's own fault comes first.
fn fault_of_types(types: &[u8]) -> RecordFault
    ensures { (read : List ℕ) × After (StopsWith result) read types.now }
{
    let mut rest = types;
    while !rest.is_empty() {
        match read_type(rest) {
            Ok((_, behind)) => rest = behind,
            Err(fault) => return fault,
        }
    }
    RecordFault::BodyLength
}

// The values of serial types and bodies.
fn read_fields(alloc: Global, types: &[u8], bodies: &[u8]) -> Result<Vec<Value>, RecordFault>
    ensures found { IfOk result (λ values. AreFields types.now bodies.now values.items) }
    ensures fault { IfErr result (λ fault. IsMemory fault ⊎ FieldsHaveFault types.now bodies.now fault) }
{
    let mut values = Vec::new(alloc);
    let mut types_left = types;
    let mut bodies_left = bodies;
    while !types_left.is_empty() {
        let (serial_type, behind) = read_type(types_left)?;
        let size = body_size(serial_type);
        if bodies_left.len() < size {
            return Err(fault_of_types(behind));
        }
        let (body, rest) = bodies_left.split_at(size);
        values.push(read_value(alloc, serial_type, body)?)?;
        types_left = behind;
        bodies_left = rest;
    }
    if bodies_left.is_empty() {
        Ok(values)
    } else {
        Err(RecordFault::BodyLength)
    }
}

/// Reads the values of a record. Longer spellings of varints and of integers are read too. Where bytes have several faults, that of the header's length comes first, then those of the serial types from the left, and that of the bodies last.
pub fn read_record(alloc: Global, bytes: &[u8]) -> Result<Vec<Value>, RecordFault>
    ensures { ReadsOrWants (λ values. values.items) IsMemory (OrFault (IsRecord bytes.now) (HasFault bytes.now)) result }
{
    let (types, bodies) = read_header(bytes)?;
    read_fields(alloc, types, bodies)
}
