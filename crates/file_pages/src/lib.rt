//! A database file of a disk as numbered pages, also under a write-ahead log.
//!
//! The layer above reads the log by `file_log` where there is one, or by `front_log` up to a place, the first bytes and the length of the file or of its overlay by `file_start`, the header of these by `read_header` of `db_header`, and then
//! lends a `FilePages`, which it makes as a literal, to whatever reads a `PageRead`. While it is lent the disk stays, but for its count of
//! faults: `Loan` in `specs/` is what such a store keeps of its disk.
//!
//! `Overlay` says which pages a file has by what is kept of its log. That these are the pages that a reader sees is said by `OverlayLaws`, and promised by
//! `view_has_these_pages`; of a file alone by `FileMapLaws` and `file_has_these_pages`. `LogFile` says what is answered of a log in a file.
#![tactic(auto)]

mod laws;
mod log;
mod overlay;
mod pages;
mod reads;
mod start;

pub use laws::{file_has_these_pages, view_has_these_pages};
pub use log::{FileLogFault, file_log, front_log};
pub use pages::FilePages;
pub use start::file_start;
pub use wal_codec::Log;
