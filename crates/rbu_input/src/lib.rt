//! Reads the prepared rows of an RBU database (The RBU Extension, section 2.1).
//!
//! `read_prepared` answers all of them for a target, as groups of batches, or the first refusal, and `plain_target` checks the records of the tables that batches are for. `are_rooted` and `are_known` test what the two ask for.
//!
//! Of one table and one row, `check_table` refuses what is wrong with a `data_` table by itself, and `find_target` finds the table that it is for. `layout_of` says once where the target's columns stand in it, and `read_row` what a row of it prepares, or its first fault. What these mean is said by `DataTables`, `PreparedRows`, `Inputs` and `TargetRecords` in the `specs/` of `prepared_spec`.
//!
//! In `specs/`, `Prepared` and `Targets` have what the calls over a store answer, with `Batches` and `Reading` for one table and its rows; `Tables` and `RowAnswers` what those of one table and one row do, `Layouts` where columns stand, `Keys` that two rows have one key, and `RowAnswersLaws` that a row has one answer.
#![tactic(auto)]

mod batches;
mod fault;
mod groups;
mod keys;
mod layout;
mod prepared;
mod reading;
mod row;
mod sources;
mod store_fault;
mod sums;
mod table;
mod target;
mod values;
mod wrong;

pub use fault::InputError;
pub use layout::{Layout, layout_of};
pub use prepared::{are_rooted, read_prepared};
pub use row::{SizedRow, read_row};
pub use store_fault::StoreFault;
pub use table::{check_table, find_target};
pub use target::{are_known, plain_target};
