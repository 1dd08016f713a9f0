//! The devices of the updater as traits: a disk of seven files, and an output.
//!
//! The layer above may use `Disk`, `Sink`, the names of files and calls, and the faults. What the calls do to the
//! files is said by `Files` and `Faults` of `file_spec`, what they make of that which a crash may leave by `Records`,
//! `Trails` and `Steps` there, which calls a disk allows by `Uses` in `specs/`, and what every call owes by `Call`;
//! `DiskLaws` has what follows for whoever makes several calls. Each
//! device has a count of faults that never falls: it rises in a call that fails, and stands in one that ends well. A disk
//! also has the fault of its last call that failed.
#![tactic(auto)]

mod disk;
mod sink;

pub use disk::{Disk, DiskFault};
pub use file_spec::{DiskCall, FileName};
pub use sink::{Sink, SinkFault};
