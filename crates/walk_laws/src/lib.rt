//! That something is found in every store: each page is accepted or refused, and so there is a walk from each root.
//!
//! A crate of laws over the definitions of `database_spec`. In `specs/`, `CellsDecidedLaws` and `PagesDecidedLaws` have that bytes are a cell or a page, or are not; `WalksMadeLaws` has, by that, what a walk finds, whatever the pages hold. `RecordsDecidedLaws` has the same of records and of the rows of a table.
#![tactic(auto)]

mod laws;

pub use laws::{pages_are_accepted_or_refused, stores_have_walks, tables_are_plain_or_not};
