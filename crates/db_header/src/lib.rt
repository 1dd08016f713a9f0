//! Reads and writes the database header, the first 100 bytes of a database (Database File Format, section 1.3).
//!
//! The layer above reads a header by `read_header`, which answers the first fault of a file that cannot be used, and writes its
//! fields into page 1 by `write_header`; `has_magic` tells how each database begins, and `is_page_size` which sizes pages may have.
//!
//! The fields' places are said by `Header` in the `specs/` of `format_spec`. This crate's `specs/` have `Reading`, which says what a
//! header reads as and when each fault comes, and in which order, and `Writing`, the bytes after a write. Proofs above cite
//! `HeaderLaws`. The functions without parameters promise the
//! main laws: a file has one reading, a header that is read can be written, and a header that is written is read again.
#![tactic(auto)]

mod fields;
mod laws;
mod reading;
mod writing;

pub use fields::{Header, HeaderFault};
pub use laws::{header_has_one_reading, read_header_can_be_written, written_header_is_read};
pub use reading::{has_magic, is_page_size, read_header};
pub use writing::write_header;
