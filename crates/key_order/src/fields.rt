// The fields of a record, whose bytes are lent.
ghost use Rattle.std.specs.Prelude.{◌≡◌, ◌≤◌, ◌↔◌, ℕ, List, ◌∷◌, ◌++◌, IfSome, IsTrue, None, length};
ghost use Rattle.rbu_value.specs.declared.value.Value.{Value};
ghost use Rattle.format_spec.specs.Record.{AreFields, IsField};
ghost use Rattle.format_spec.specs.Varint.{IsVarint};
ghost use Rattle.record_codec.specs.Faults.{HasHeader, IsValueType, body_size as size_of_body};
ghost use Rattle.key_order.specs.Fields.{HasValues, IsNext, value_of};

use byteorder::{BigEndian, ByteOrder};
use cell_codec::read_varint;
use record_codec::body_size;

/// A value of a record, whose bytes are lent.
#[derive(Clone, Copy)]
pub enum Field<'a> {
    Null,
    Int(i64),
    Text(&'a [u8]),
    Blob(&'a [u8]),
}

/// The first value of a record, and the serial types and bodies behind it.
#[derive(Clone, Copy)]
pub struct Taken<'a> {
    pub field: Field<'a>,
    pub types: &'a [u8],
    pub bodies: &'a [u8],
}

/// The serial types and the bodies of a record; None where its header is not whole.
pub fn header_of(bytes: &[u8]) -> Option<(&[u8], &[u8])>
    ensures found { IfSome result (λ parts. HasHeader bytes.now parts.0.now parts.1.now) }
    ensures none { result ≡ None → (types bodies : List ℕ) → HasHeader bytes.now types bodies → ⊥ }
{
    let (header, start) = read_varint(bytes)?;
    let end = header as usize;
    if end < start || bytes.len() < end {
        return None;
    }
    Some((&bytes[start..end], &bytes[end..]))
}

// The first serial type, and those behind it; None where it is none of a value.
fn type_of(types: &[u8]) -> Option<(u64, &[u8])>
    ensures found { IfSome result (λ read. IsValueType read.0 × ((spelling : List ℕ) × IsVarint spelling read.0 × (types.now ≡ spelling ++ read.1.now))) }
    ensures none { result ≡ None → (type : ℕ) (spelling behind : List ℕ) → IsVarint spelling type → types.now ≡ spelling ++ behind → IsValueType type → ⊥ }
{
    let (serial_type, size) = read_varint(types)?;
    match serial_type {
        7 => None,
        10 | 11 => None,
        _ => Some((serial_type, &types[size..])),
    }
}

// The value of a serial type and its body.
fn field_of(serial_type: u64, body: &[u8]) -> Field<'_>
    requires known { IsValueType serial_type }
    requires size { length body.now ≡ size_of_body serial_type }
    ensures { IsField serial_type body.now (value_of result) }
{
    match serial_type {
        0 => Field::Null,
        1..=6 => Field::Int(BigEndian::read_int(body, body.len())),
        8 | 9 => Field::Int(serial_type as i64 - 8),
        _ if serial_type % 2 == 0 => Field::Blob(body),
        _ => Field::Text(body),
    }
}

/// The first value of serial types and bodies; None where they have none.
pub fn next_field<'a>(types: &'a [u8], bodies: &'a [u8]) -> Option<Taken<'a>>
    ensures found { IfSome result (λ taken. IsNext types.now bodies.now (value_of taken.field) taken.types.now taken.bodies.now) }
    ensures none { result ≡ None → (value : Value) (values : List Value) → AreFields types.now bodies.now (value ∷ values) → ⊥ }
{
    if types.is_empty() {
        return None;
    }
    let Some((serial_type, behind)) = type_of(types) else {
        return None;
    };
    let size = body_size(serial_type);
    if bodies.len() < size {
        return None;
    }
    let (body, rest) = bodies.split_at(size);
    Some(Taken {
        field: field_of(serial_type, body),
        types: behind,
        bodies: rest,
    })
}

/// Whether serial types and bodies are those of so many values at least.
pub fn has_values(types: &[u8], bodies: &[u8], many: usize) -> bool
    ensures { IsTrue result ↔ HasValues types.now bodies.now many }
{
    let mut types_left = types;
    let mut bodies_left = bodies;
    let mut left = many;
    while !types_left.is_empty() {
        let Some(next) = next_field(types_left, bodies_left) else {
            return false;
        };
        left = left.saturating_sub(1);
        types_left = next.types;
        bodies_left = next.bodies;
    }
    bodies_left.is_empty() && left == 0
}
