// Tests the database header of small files (Database File Format, section 1.3).
ghost use Rattle.std.specs.Prelude.{◌≡◌, ◌↔◌, ◌≤◌, IsTrue, length};
ghost use Rattle.format_spec.specs.Header.{version_valid_for, change_counter};
ghost use Rattle.small_spec.specs.SmallFile.{IsSmallHeader, HasFields, small_layout, small_state};

use byte_fields::{u16_at, u32_at};
use db_header::has_magic;

// Whether the fields of one and two bytes are those of a small file.
fn has_layout(bytes: &[u8]) -> bool
    requires { 100 ≤ length bytes.now }
    ensures { IsTrue result ↔ HasFields small_layout bytes.now }
{
    u16_at(bytes, 16) == 4096
        && bytes[18] == 1
        && bytes[19] == 1
        && bytes[20] == 0
        && bytes[21] == 64
        && bytes[22] == 32
        && bytes[23] == 32
}

// Whether the fields of four bytes are those of a small file.
fn has_state(bytes: &[u8]) -> bool
    requires { 100 ≤ length bytes.now }
    ensures { IsTrue result ↔ HasFields small_state bytes.now }
{
    u32_at(bytes, 28) == 2
        && u32_at(bytes, 32) == 0
        && u32_at(bytes, 36) == 0
        && u32_at(bytes, 44) == 4
        && u32_at(bytes, 52) == 0
        && u32_at(bytes, 56) == 1
}

// Whether the size in the header was written with the last change.
fn has_valid_size(bytes: &[u8]) -> bool
    requires { 100 ≤ length bytes.now }
    ensures { IsTrue result ↔ (version_valid_for bytes.now ≡ change_counter bytes.now) }
{
    u32_at(bytes, 92) == u32_at(bytes, 24)
}

/// Whether the bytes begin with the header of a small file: two pages of 4096 bytes, rollback journal, no reserved bytes, no freelist, schema format 4, no auto-vacuum, UTF-8, and a size that is valid.
pub fn is_small_header(bytes: &[u8]) -> bool
    requires { 100 ≤ length bytes.now }
    ensures { IsTrue result ↔ IsSmallHeader bytes.now }
{
    has_magic(bytes) && has_layout(bytes) && has_state(bytes) && has_valid_size(bytes)
}
