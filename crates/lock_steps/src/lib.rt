//! The locks by which readers and one updater share a database file and its log.
//!
//! The layer above may use `Locks`, and the trait `LockSteps` for the steps of the updater, which a value meets that has locks and more.
//! What the locks are as data, and which steps they allow, is said by `Locks` in `specs/`.
#![tactic(auto)]

mod laws;
mod locks;
mod steps;

pub use laws::each_reader_has_its_own_read;
pub use locks::{Bar, Holders, Locks, OpenRead, SLOTS};
pub use steps::LockSteps;
