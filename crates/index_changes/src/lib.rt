//! The changes of one index between old and new rows of its table.
//!
//! `index_changes` answers the entries that are to be removed from an index and added to it, in the order of the steps of an update. It is given both rows of each rowid that an update touches, as `OldNew`, lends them, and copies the values of what changes alone.
//!
//! In `specs/`, `Pairs` says which rows pairs are of, and `Dues` which changes are due for them. `TouchedLaws` has that the changes between the rows that are touched are those between the whole tables; `ListsLaws` and `SortingLaws` are of lists.
#![tactic(auto)]

mod changes;
mod due;
mod entries;
mod laws;
mod pairs;

pub use changes::index_changes;
pub use laws::touched_rows_have_all_changes;
pub use pairs::OldNew;
