//! The hidden log of an update, which grows behind the target until it is whole (Database File Format, section 4).
//!
//! The layer above opens the log that was saved by `OalStore::start`. It lends an `OalPages`, which it makes of the store and a disk as a literal, to whatever reads and writes
//! pages, and then calls `commit`, which appends the pages that were written and makes the log stable. `size` and `sums` say where the log ends then.
//!
//! In `specs/`, `OalLog` says which bytes the log has that a store keeps, `Saved` when a file has the log that was saved, and why it has not, `Stored` which pages a store has over
//! files, and what a commit leaves of them and of each image; `Lent` is what stays while it is lent, and `Faults` the fault of a call. `SavedLaws` has that the answer of a start is the only one,
//! and `StoredLaws` that a store keeps one list of frames.
//! `Appending`, `Changed`, `Committing`, `Growing` and `Starting` are of use to this crate alone.
#![tactic(auto)]

mod appending;
mod committing;
mod fault;
mod log;
mod pages;
mod placing;
mod start;
mod store;

pub use fault::OalFault;
pub use log::OalLog;
pub use pages::OalPages;
pub use store::OalStore;
