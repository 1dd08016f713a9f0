// Reading the header.
ghost use Rattle.std.specs.Prelude.{◌≡◌, ℕ, ◌+◌, ◌-◌, ◌<◌, ◌≤◌, ◌^◌, ◌↔◌, ◌*◌, length, IsTrue, MatchResult};
ghost use Rattle.format_spec.specs.Sizes.{IsPageSize};
ghost use Rattle.format_spec.specs.Header.{HasMagic, page_bytes as page_bytes_of, max_fraction, min_fraction, leaf_fraction};
ghost use Rattle.common_spec.specs.Reading.{Reads, OrFault};
ghost use Rattle.db_header.specs.Reading.{IsDatabase, HasRollbackVersions, counted_pages as counted, IsSupported, IsHeaderOf, IsFirstFault};

use crate::fields::{Header, HeaderFault};
use byte_fields::{u8_at, u16_at, u32_at};

// What each database begins with.
const MAGIC: &[u8; 16] = b"SQLite format 3\0";

// The fewest bytes of a page that cells may lie in.
const LEAST_USABLE: u64 = 480;

// The most pages that a file may have.
const PAGE_LIMIT: u64 = 1 << 24;

/// Whether the bytes begin as each database does: with `SQLite format 3` and a zero byte (Database File Format, section 1.3.1).
pub fn has_magic(bytes: &[u8]) -> bool
    ensures { IsTrue result ↔ HasMagic bytes.now }
{
    bytes.starts_with(MAGIC)
}

// Whether the payload fractions are the only ones that there are.
fn has_fractions(bytes: &[u8]) -> bool
    requires { 100 ≤ length bytes.now }
    ensures { IsTrue result ↔ ((max_fraction bytes.now ≡ 64) × (min_fraction bytes.now ≡ 32) × (leaf_fraction bytes.now ≡ 32)) }
{
    u8_at(bytes, 21) == 64 && u8_at(bytes, 22) == 32 && u8_at(bytes, 23) == 32
}

// Whether the bytes begin as each database does.
fn is_database(bytes: &[u8]) -> bool
    ensures { IsTrue result ↔ IsDatabase bytes.now }
{
    bytes.len() >= 100 && has_magic(bytes) && has_fractions(bytes)
}

// How many bytes each page has.
fn page_bytes(bytes: &[u8]) -> u32
    requires { 100 ≤ length bytes.now }
    ensures { result ≡ page_bytes_of bytes.now }
{
    match u16_at(bytes, 16) {
        1 => 65536,
        size => u32::from(size),
    }
}

/// Whether pages may have this size.
pub fn is_page_size(size: u32) -> bool
    ensures { IsTrue result ↔ IsPageSize size }
{
    matches!(
        size,
        512 | 1024 | 2048 | 4096 | 8192 | 16384 | 32768 | 65536
    )
}

// Whether the file is written and read with a rollback journal.
fn has_rollback_versions(bytes: &[u8]) -> bool
    requires { 100 ≤ length bytes.now }
    ensures { IsTrue result ↔ HasRollbackVersions bytes.now }
{
    u8_at(bytes, 18) == 1 && u8_at(bytes, 19) == 1
}

// How many pages a file of this length has: its valid size, else its whole pages.
fn counted_pages(bytes: &[u8], page_size: u32, file_len: u64) -> u64
    requires long { 100 ≤ length bytes.now }
    requires some { 0 < page_size }
    requires size { page_size ≡ page_bytes_of bytes.now }
    ensures { result ≡ counted bytes.now file_len }
{
    let pages = u32_at(bytes, 28);
    if pages != 0 && u32_at(bytes, 92) == u32_at(bytes, 24) {
        u64::from(pages)
    } else {
        file_len / u64::from(page_size)
    }
}

// Whether a file of this length has so many pages.
fn has_pages(pages: u64, page_size: u32, file_len: u64) -> bool
    ensures { IsTrue result ↔ ((0 < pages) × (pages ≤ 2 ^ 24) × (pages * page_size ≤ file_len)) }
{
    pages > 0 && pages <= PAGE_LIMIT && pages * u64::from(page_size) <= file_len
}

// Whether the header is that of a database that can be read, or its first fault.
fn check_supported(bytes: &[u8]) -> Result<(), HeaderFault>
    ensures { MatchResult result (λ _. IsSupported bytes.now) (λ fault. (file_len : ℕ) → IsFirstFault bytes.now file_len fault) }
{
    if !is_database(bytes) {
        return Err(HeaderFault::NotADatabase);
    }
    let page_size = page_bytes(bytes);
    if !is_page_size(page_size) {
        return Err(HeaderFault::PageSize {
            value: u64::from(u16_at(bytes, 16)),
        });
    }
    if !has_rollback_versions(bytes) {
        return Err(HeaderFault::WalMode);
    }
    let reserved = u64::from(u8_at(bytes, 20));
    if u64::from(page_size) - reserved < LEAST_USABLE {
        return Err(HeaderFault::ReservedSpace { value: reserved });
    }
    let format = u64::from(u32_at(bytes, 44));
    if format > 4 {
        return Err(HeaderFault::SchemaFormat { value: format });
    }
    let encoding = u64::from(u32_at(bytes, 56));
    if encoding > 1 {
        return Err(HeaderFault::Encoding { value: encoding });
    }
    let largest_root = u64::from(u32_at(bytes, 52));
    if largest_root != 0 {
        return Err(HeaderFault::AutoVacuum {
            value: largest_root,
        });
    }
    Ok(())
}

/// Reads the header at the front of a database (Database File Format, section 1.3), or answers the first fault.
///
/// `bytes` are the first bytes of the file, at least 100 where it has so many, and `file_len` is the length of the file in bytes.
/// Schema format 0 reads as 1, and text encoding 0 counts as UTF-8.
pub fn read_header(bytes: &[u8], file_len: u64) -> Result<Header, HeaderFault>
    ensures { Reads (OrFault (IsHeaderOf bytes.now file_len) (IsFirstFault bytes.now file_len)) result }
{
    check_supported(bytes)?;
    let page_size = page_bytes(bytes);
    let pages = counted_pages(bytes, page_size, file_len);
    if !has_pages(pages, page_size, file_len) {
        return Err(HeaderFault::SizeMismatch {
            pages,
            length: file_len,
        });
    }
    Ok(Header {
        page_size,
        reserved: u8_at(bytes, 20),
        change_counter: u32_at(bytes, 24),
        pages: pages as u32,
        freelist_trunk: u32_at(bytes, 32),
        freelist_pages: u32_at(bytes, 36),
        schema_cookie: u32_at(bytes, 40),
        format: u32_at(bytes, 44).max(1),
    })
}
