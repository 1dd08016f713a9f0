//! Spells and reads SQLite's write-ahead log (Database File Format, section 4).
//!
//! The layer above writes a whole log by `header_bytes`, and then for each page `frame_bytes` and the page itself. Each call gives
//! the checksum that the next one takes, as `checksum` does; `write_frame_header` does so in either byte order. It reads a whole log by
//! `read_log`, which keeps a `Log`, or frame by frame by a `LogReader`, so that no more of a log than a frame is in memory.
//!
//! What bytes say as a log of which the first frames are needed, and why they say nothing, is said by `LogReading`; `LogReadingLaws` has
//! that bytes are one log or have one fault, and what one more frame changes.
//!
//! The definitions stand in `format_spec`: `Log`, also `pair_of`, an array of two words as a pair.
//! That a header with frames is a log, and bytes are one in one way, is said there too, by `LogLaws`, and promised of what is written by `written_log_is_a_log`. `specs/Frames` has
//! the frames of a whole file, and `specs/LogLaws` laws about what is written: a checksum goes on over what follows, and a log of
//! both pages of a file of two pages overlays any other file by it.
#![tactic(auto)]

mod frames;
mod headers;
mod laws;
mod log;
mod reader;
mod sums;

pub use headers::{frame_bytes, header_bytes, write_frame_header};
pub use laws::{checksum_goes_on, written_log_is_a_log};
pub use log::{Log, LogFault, read_log};
pub use reader::LogReader;
pub use sums::checksum;
