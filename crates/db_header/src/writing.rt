// Writing the header.
ghost use Rattle.std.specs.Prelude.{◌≡◌, ◌+◌, ◌<◌, ◌≤◌, length};
ghost use Rattle.format_spec.specs.Sizes.{IsPageSize, size_field as field_of};
ghost use Rattle.db_header.specs.Writing.{header_written};

use crate::fields::Header;
use byte_fields::{put_u8, put_u16, put_u32};

// The field of a page size.
fn size_field(size: u32) -> u16
    requires { IsPageSize size }
    ensures { result ≡ field_of size }
{
    if size == 65536 { 1 } else { size as u16 }
}

/// Writes the fields of the header at their places in page 1 (Database File Format, section 1.3), and the change counter also as
/// the number at offset 92, for which the size is valid. No other byte is changed.
pub fn write_header(header: &Header, page1: &mut [u8])
    requires long { 100 ≤ length page1.old }
    requires size { IsPageSize header.now.page_size }
    ensures { page1.new ≡ header_written header.now page1.old }
{
    put_u16(page1, 16, size_field(header.page_size));
    put_u8(page1, 20, header.reserved);
    put_u32(page1, 24, header.change_counter);
    put_u32(page1, 28, header.pages);
    put_u32(page1, 32, header.freelist_trunk);
    put_u32(page1, 36, header.freelist_pages);
    put_u32(page1, 40, header.schema_cookie);
    put_u32(page1, 44, header.format);
    put_u32(page1, 92, header.change_counter);
}
