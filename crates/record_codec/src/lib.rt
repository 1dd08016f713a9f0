//! The records of table rows (Database File Format, section 2.1): lists of values as bytes.
//!
//! The layer above reads by `read_record`, which takes longer spellings of varints and integers too, and writes by `write_record`, which writes the canonical record. What a record is, and which one is canonical, is said by `Record` in the `specs/` of `format_spec`.
//!
//! This crate's `specs/` have `Faults`, for bytes that are no record, `Records`, for values that have a canonical one, and the laws of both, `RecordLaws` and `FaultsLaws`, which proofs above cite. The functions without parameters promise the main ones: `canonical_record_is_read`, `canonical_records_are_apart`, `record_has_one_reading` and `bytes_are_a_record_or_have_one_fault`.
#![tactic(auto)]

mod laws;
mod read;
mod write;

pub use laws::{
    bytes_are_a_record_or_have_one_fault, canonical_record_is_read, canonical_records_are_apart,
    record_has_one_reading,
};
pub use read::{RecordFault, read_record};
pub use write::{body_size, int_serial_type, record_length, write_record};
