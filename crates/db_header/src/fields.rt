// The header's fields, and why a file is refused by its header.

/// The fields of the database header that change, or that the pages are read by.
#[derive(Clone, Copy, Debug, PartialEq, Eq)]
pub struct Header {
    /// The size of a page in bytes: a power of two from 512 to 65536.
    pub page_size: u32,
    /// The unused bytes at the end of each page.
    pub reserved: u8,
    /// The change counter, which counts the changes of the file.
    pub change_counter: u32,
    /// The size of the file in pages.
    pub pages: u32,
    /// The page of the freelist's first trunk, or 0.
    pub freelist_trunk: u32,
    /// The number of pages on the freelist.
    pub freelist_pages: u32,
    /// The schema cookie, which counts the changes of the schema.
    pub schema_cookie: u32,
    /// The schema format, from 1 to 4.
    pub format: u32,
}

/// Why a file is refused by its header. The numbers of the refusals are not in the order in which they come.
#[derive(Clone, Copy, Debug, PartialEq, Eq)]
pub enum HeaderFault {
    /// The file is shorter than 100 bytes, or does not begin as a database does: refusal 30.
    NotADatabase,
    /// The field of the page size is neither 1, which stands for 65536, nor a power of two from 512 to 32768: refusal 31.
    PageSize { value: u64 },
    /// The write or the read version is not that of a rollback journal: refusal 32.
    WalMode,
    /// The text encoding is not UTF-8: refusal 33.
    Encoding { value: u64 },
    /// The largest root page is not 0, as in an auto-vacuum database: refusal 34.
    AutoVacuum { value: u64 },
    /// The file, of `length` bytes, has no whole page, more than 2^24 pages, or fewer bytes than its `pages`: refusal 35.
    SizeMismatch { pages: u64, length: u64 },
    /// The reserved bytes leave fewer than 480 usable bytes on a page: refusal 36.
    ReservedSpace { value: u64 },
    /// The schema format is over 4: refusal 39.
    SchemaFormat { value: u64 },
}
