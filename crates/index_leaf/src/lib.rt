//! The leaf of an index in which an entry belongs, found without decoding the pages on the way, and an entry that is put into it in place.
//!
//! The layer above finds the leaf by `find_leaf`, and puts an entry by `put_in_leaf` where that changes no other page. Each page on the way is searched by halves of its array, and of the entries that are compared with the other one the bytes are looked at where they lie. An entry that is equal to the other one ends the search, in an interior page too. What is found is said by `Leaves` in the `specs/`: in every index whose list rises, the leaf is the one in which the entry belongs, or an equal one stands in the list. Where a cell does not decode that is read, and where one that is compared has an overflow chain, a search leads nowhere here: whoever needs to know more reads the pages whole.
#![tactic(auto)]

mod finding;
mod placing;
mod searching;

pub use finding::{Lead, find_leaf};
pub use placing::{Attempt, put_in_leaf};
