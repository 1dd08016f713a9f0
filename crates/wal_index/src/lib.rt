//! An index of the frames of a write-ahead log by the numbers of their pages (WAL-mode File Format, section 2).
//!
//! The layer above makes a `WalIndex` of a `Log`, and asks it by `find` for the last frame of a page at or below a read mark.
//! `last_frame` finds it in a plain list of the frames' pages.
//!
//! Contracts see an index as the record `FrameIndex` of `specs/`, which also says which frame is the last of a page; `IndexLaws` has
//! that there is one at most.
//!
//! The index is the list of the frames' page numbers, searched from the mark downwards.
#![tactic(auto)]

mod index;
mod laws;

pub use index::{WalIndex, last_frame};
pub use laws::{last_frame_is_overlaid, last_frame_up_to_a_mark_is_seen};
pub use wal_codec::Log;
