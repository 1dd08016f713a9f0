// Writes the rows of a state into the second page.
ghost use Rattle.std.specs.Prelude.{◌≡◌, ◌+◌, ◌*◌, ◌<◌, ◌≤◌, ◌^◌, ◌++◌, ◌∷◌, [], length, map, drop};
ghost use Rattle.byteorder.specs.Endian.{big_bytes};
ghost use Rattle.format_spec.specs.Page.{packed_leaf};
ghost use Rattle.format_spec.specs.Varint.{varint};
ghost use Rattle.format_spec.specs.Record.{body, int_body, int_serial_type as type_of_int, serial_type as type_of};
ghost use Rattle.state_file.specs.Lent.{value_of};
ghost use Rattle.state_file.specs.Placing.{IsPlaced};
ghost use Rattle.state_file.specs.StateFile.{row_cell, rows_from, leaf_room, next_key as key_behind};

use crate::lent::Lent;
use byte_fields::put_u16;
use byteorder::{BigEndian, ByteOrder};
use cell_codec::write_varint;
use record_codec::{body_size, int_serial_type};

/// Writes bytes in front of a place, and answers where they begin.
pub fn put_before(page: &mut [u8], place: usize, bytes: &[u8]) -> usize
    requires inside { place ≤ length page.old }
    requires room { length bytes.now ≤ place }
    ensures { IsPlaced page.old page.new place result bytes.now }
{
    let start = place - bytes.len();
    page[start..place].copy_from_slice(bytes);
    start
}

// Writes a number's shortest spelling in front of a place.
fn put_varint(page: &mut [u8], place: usize, number: u64) -> usize
    requires inside { place ≤ length page.old }
    requires room { length (varint number) ≤ place }
    ensures { IsPlaced page.old page.new place result (varint number) }
{
    let mut spelling = [0; 9];
    let size = write_varint(number, &mut spelling);
    put_before(page, place, &spelling[..size])
}

// Writes an integer in the form of a serial type from 1 to 9 in front of a place; 8 and 9 have no bytes.
fn put_int(page: &mut [u8], place: usize, number: i64, serial_type: u64) -> usize
    requires inside { place ≤ length page.old }
    requires least { 1 ≤ serial_type }
    requires most { serial_type ≤ 9 }
    requires room { length (int_body serial_type number) ≤ place }
    ensures { IsPlaced page.old page.new place result (int_body serial_type number) }
{
    let size = body_size(serial_type);
    if size == 0 {
        return put_before(page, place, &[]);
    }
    let mut bytes = [0; 8];
    BigEndian::write_int(&mut bytes, number, size);
    put_before(page, place, &bytes[..size])
}

// Writes what follows a record's header for a value in front of a place.
fn put_body(page: &mut [u8], place: usize, value: &Lent) -> usize
    requires inside { place ≤ length page.old }
    requires room { length (body 4 (value_of value.now)) ≤ place }
    ensures { IsPlaced page.old page.new place result (body 4 (value_of value.now)) }
{
    match value {
        Lent::Null => put_before(page, place, &[]),
        Lent::Int(number) => put_int(page, place, *number, int_serial_type(*number, 4)),
        Lent::Text(bytes) | Lent::Blob(bytes) => put_before(page, place, bytes),
    }
}

/// The serial type of a value in its canonical record.
pub fn serial_type(value: &Lent) -> u64
    requires { length (body 4 (value_of value.now)) < 2 ^ 32 }
    ensures { result ≡ type_of 4 (value_of value.now) }
{
    match value {
        Lent::Null => 0,
        Lent::Int(number) => int_serial_type(*number, 4),
        Lent::Text(bytes) => 2 * bytes.len() as u64 + 13,
        Lent::Blob(bytes) => 2 * bytes.len() as u64 + 12,
    }
}

// Writes the row of a key in front of a place.
fn put_row(page: &mut [u8], place: usize, key: u64, value: &Lent) -> usize
    requires inside { place ≤ length page.old }
    requires short { place < 2 ^ 32 }
    requires key { key < 2 ^ 32 }
    requires room { length (row_cell key (value_of value.now)) ≤ place }
    ensures { IsPlaced page.old page.new place result (row_cell key (value_of value.now)) }
{
    let body = put_body(page, place, value);
    let types = put_varint(page, body, serial_type(value));
    let null = put_before(page, types, &[0]);
    let payload = put_varint(page, null, (body - null) as u64 + 1);
    let rowid = put_varint(page, payload, key);
    put_varint(page, rowid, (place - payload) as u64)
}

/// The key behind another one.
pub fn next_key(key: u64) -> u64
    requires { key < 2 ^ 32 }
    ensures { result ≡ key_behind key }
{
    if key == 8 { 10 } else { key + 1 }
}

// Writes a table leaf's header: its cells begin at a place, and it has no freeblock and no fragment.
fn put_header(page: &mut [u8], cells: u16, place: u16)
    requires { 8 ≤ length page.old }
    ensures { page.new
        ≡ (13 ∷ (big_bytes 2 0 ++ (big_bytes 2 cells ++ (big_bytes 2 place ++ 0 ∷ [])))) ++ drop 8 page.old }
{
    page[0] = 13;
    BigEndian::write_u16(&mut page[1..], 0);
    BigEndian::write_u16(&mut page[3..], cells);
    BigEndian::write_u16(&mut page[5..], place);
    page[7] = 0;
}

/// Writes the table leaf with the rows of the values under the keys from 1 on.
pub fn write_rows(page: &mut [u8], values: &[Lent])
    requires short { length page.old < 65536 }
    requires few { length values.now ≤ 9 }
    requires room { leaf_room (rows_from 1 (map value_of values.now)) ≤ length page.old }
    ensures { page.new ≡ packed_leaf (length page.old) (rows_from 1 (map value_of values.now)) }
{
    page.fill(0);
    let mut place = page.len();
    let mut key = 1;
    for (index, value) in values.iter().enumerate() {
        place = put_row(page, place, key, value);
        put_u16(page, 8 + 2 * index, place as u16);
        key = next_key(key);
    }
    put_header(page, values.len() as u16, place as u16);
}
