// The numbers of pages, and buffers for one page.
ghost use Rattle.std.specs.Prelude.{◌≡◌, ◌<◌, ◌↔◌, IfOk, IsTrue, length};
ghost use Rattle.page_spec.specs.Pages.{IsInRange, lock_byte_page as lock_page};

use std::alloc::{AllocError, Global};

/// The page that holds byte 1073741824 of the file, which is never used (Database File Format, section 1.5).
pub fn lock_byte_page(size: u32) -> u32
    requires { 0 < size }
    ensures { result ≡ lock_page size }
{
    1073741824 / size + 1
}

/// Whether a link may name the page, in a database of so many pages of one size: neither page 1 nor the lock-byte page.
pub fn is_in_range(size: u32, count: u32, number: u32) -> bool
    requires { 0 < size }
    ensures { IsTrue result ↔ IsInRange size count number }
{
    2 <= number && number <= count && number != lock_byte_page(size)
}

/// A buffer of zeros for a page of so many bytes.
pub fn page_buffer(alloc: Global, size: u32) -> Result<Vec<u8>, AllocError>
    ensures { IfOk result (λ bytes. length bytes.items ≡ size) }
{
    vec![in alloc; 0; size as usize]
}
