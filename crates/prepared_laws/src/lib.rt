//! A transaction of prepared rows that can be used has an outcome.
//!
//! A crate of laws over the definitions of `prepared_spec`, which says that these are never without an answer. `TransactionsLaws` in `specs/` says what can be used (`IsUsableGroup`) and has the law; `SortsLaws` and `PaddedKeysLaws` have orders, `TablesMadeLaws` the rows of a table behind batches, `ChangesMadeLaws` the projection of an index, its changes and their faults.
#![tactic(auto)]

mod laws;

pub use laws::transaction_has_an_outcome;
