// How many bytes of their page the rows of values take.
ghost use Rattle.std.specs.Prelude.{◌≡◌, ◌<◌, ◌≤◌, ◌^◌, ◌↔◌, IsTrue, length, map};
ghost use Rattle.format_spec.specs.Record.{body};
ghost use Rattle.state_file.specs.Lent.{value_of};
ghost use Rattle.state_file.specs.StateFile.{leaf_room, row_cell, rows_from};

use crate::lent::Lent;
use crate::rows::{next_key, serial_type};
use cell_codec::varint_length;
use record_codec::{body_size, int_serial_type};

// How many bytes follow a record's header for a value.
fn body_length(value: &Lent) -> usize
    ensures { result ≡ length (body 4 (value_of value.now)) }
{
    match value {
        Lent::Null => 0,
        Lent::Int(number) => body_size(int_serial_type(*number, 4)),
        Lent::Text(bytes) | Lent::Blob(bytes) => bytes.len(),
    }
}

// The length of the row of a key.
fn row_length(key: u64, value: &Lent) -> usize
    requires key { key < 2 ^ 32 }
    requires short { length (body 4 (value_of value.now)) ≤ 4096 }
    ensures value { result ≡ length (row_cell key (value_of value.now)) }
    ensures most { result ≤ 5000 }
{
    let types = varint_length(serial_type(value));
    let header = varint_length(types as u64 + 2);
    let payload = header + (1 + (types + body_length(value)));
    varint_length(payload as u64) + (varint_length(key) + payload)
}

/// Whether the rows of the values fit their page.
pub fn fits(values: &[Lent]) -> bool
    requires { length values.now ≤ 9 }
    ensures { IsTrue result ↔ (leaf_room (rows_from 1 (map value_of values.now)) ≤ 4096) }
{
    let mut room = 8;
    let mut key = 1;
    for value in values {
        if body_length(value) > 4096 {
            return false;
        }
        room += row_length(key, value) + 2;
        if room > 4096 {
            return false;
        }
        key = next_key(key);
    }
    true
}
