//! Whether an index holds an entry that agrees with another one in its columns (Database File Format, section 1.6).
//!
//! An index stands in order by its columns and then by the rowid. `has_alike` asks by the columns alone, as uniqueness does: NULLs agree with nothing, not with NULLs either. What it answers is said by `FindsAlike` of `Alikes` in the `specs/`; `AlikesLaws` has what the answer says to a caller that knows the index and the values of the entry.
#![tactic(auto)]

mod laws;
mod looking;
mod nulls;

pub use key_order::KeyOrder;
pub use laws::{answers_speak_of_values, indexes_can_be_asked_by_their_columns};
pub use looking::has_alike;
pub use tree_spec::TreeFault;
