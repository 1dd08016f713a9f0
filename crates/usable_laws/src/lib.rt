//! That the prepared rows of an RBU database without a refusal can be used.
//!
//! A crate of laws over the definitions of `prepared_spec`. In `specs/`, `UsableBatchesLaws` has that each batch of which nothing is wrong has keys and values as its table wants them, and `UsableGroupsLaws`, by that, that each group can be used and the transaction has an outcome, where the targeted tables are plain (`IsPlainTarget`).
#![tactic(auto)]

mod laws;

pub use laws::prepared_rows_can_be_used;
