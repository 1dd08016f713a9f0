//! The values of SQLite's records: NULL, integers, texts and blobs
//! (Datatypes In SQLite, section 2; floating point values are not among them).
//!
//! The layer above may use `Bytes`, which contracts see as a list of bytes, and `Value`; `compare` for the order of values under a `Collation`; and `affinity_of` and `keeps_class` for the `Affinity` of columns. `values_are_ordered` promises that the order is total.
//!
//! What these mean is said in `specs/` by `Order`, `Affinity` and `NumericText`. The laws of the first two, which proofs above cite, are `OrderLaws` and `AffinityLaws`. `Scan` is of use to this crate alone.
#![tactic(auto)]

mod affinity;
mod bytes;
mod numeric;
mod order;
mod value;

pub use affinity::{Affinity, affinity_of, keeps_class};
pub use bytes::Bytes;
pub use order::{Collation, compare, values_are_ordered};
pub use value::Value;
