//! The files of an update on the real file system, and the standard output: the edge of what is proved.
//!
//! The layer above may use `HostDisk` and `HostSink`. They meet the traits of `rbu_disk` and tell nothing, so the clauses on
//! what is shown say nothing of them: that the system's files do what the traits say of files is trusted, and shown by a test.
//! Proved is that each call returns, that its faults are counted and kept, that a buffer's rest stays, and that no file grows
//! over the limit. `specs/` says the rest that is proved of the parts: `Paths` where the files and their folders are, `OpenFiles`
//! which file is kept open under which name; and the loops of `transfers` read and write all, over any reader and writer.
#![tactic(auto)]

mod disk;
mod faults;
mod files;
mod open_files;
mod paths;
mod sink;
mod transfers;

pub use disk::HostDisk;
pub use sink::HostSink;
