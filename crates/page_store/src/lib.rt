//! Numbered pages that can be read and written.
//!
//! The layer above is generic over `PageRead` or `PageWrite`, and says what it does with a store by the words of `Store` in `specs/`: `HasSizes` and `IsNumber` for what it needs, `Looks`, `Sees` and `Goes` for the pages, `Owes` and `OwesBy` for faults and for what stays. `PlainStore` has its pages in memory. `is_in_range` tells whether a link may name a page, and `page_buffer` makes room for one.
#![tactic(auto)]

mod numbers;
mod plain;
mod store;

pub use numbers::{is_in_range, lock_byte_page, page_buffer};
pub use plain::PlainStore;
pub use store::{PageRead, PageWrite};
