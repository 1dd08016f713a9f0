//! What a prepared row does with a row of its table.
//!
//! The layer above knows whether a prepared row meets a row. `row_fault` answers the constraint that it breaks, or none, `met_values` what becomes of the values of the row that it meets, and `made_row` the row that it makes where it meets none. `key_integer` is its rowid where the key is that. What they mean is said by `StepFaults` and `Tables` in the `specs/` of `prepared_spec`.
#![tactic(auto)]

mod fault;
mod made;
mod nulls;
mod values;

pub use fault::{makes_row, row_fault};
pub use made::{key_integer, made_row};
pub use values::met_values;
