// Numbers at a place.
ghost use Rattle.std.specs.Prelude.{◌≡◌, ◌+◌, ◌<◌, ◌≤◌, length};
ghost use Rattle.byte_fields.specs.Numbers.{number_at, with_number_at};

use byteorder::{BigEndian, ByteOrder};

/// The number in the byte at a place.
pub fn u8_at(bytes: &[u8], at: usize) -> u8
    requires { at < length bytes.now }
    ensures { result ≡ number_at at 1 bytes.now }
{
    bytes[at]
}

/// The number in the two bytes at a place.
pub fn u16_at(bytes: &[u8], at: usize) -> u16
    requires { at + 2 ≤ length bytes.now }
    ensures { result ≡ number_at at 2 bytes.now }
{
    BigEndian::read_u16(&bytes[at..])
}

/// The number in the four bytes at a place.
pub fn u32_at(bytes: &[u8], at: usize) -> u32
    requires { at + 4 ≤ length bytes.now }
    ensures { result ≡ number_at at 4 bytes.now }
{
    BigEndian::read_u32(&bytes[at..])
}

/// Writes a number over the byte at a place.
pub fn put_u8(bytes: &mut [u8], at: usize, value: u8)
    requires { at < length bytes.old }
    ensures { bytes.new ≡ with_number_at at 1 value bytes.old }
{
    bytes[at] = value;
}

/// Writes a number over the two bytes at a place.
pub fn put_u16(bytes: &mut [u8], at: usize, value: u16)
    requires { at + 2 ≤ length bytes.old }
    ensures { bytes.new ≡ with_number_at at 2 value bytes.old }
{
    BigEndian::write_u16(&mut bytes[at..], value);
}

/// Writes a number over the four bytes at a place.
pub fn put_u32(bytes: &mut [u8], at: usize, value: u32)
    requires { at + 4 ≤ length bytes.old }
    ensures { bytes.new ≡ with_number_at at 4 value bytes.old }
{
    BigEndian::write_u32(&mut bytes[at..], value);
}
