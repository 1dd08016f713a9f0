//! What a step of a pass over a table or an index answers, and what both passes share.
//!
//! `PassAnswer` is what it did, `PassFault` why it has no answer. What a fault says of the store is said by `Faults` in the `specs/`, and what follows from that by `FaultsLaws`. `read_format` reads the schema format under which a step writes records (`Formats`), and `refuse_long` is the refusal of one that is too long; `NeedsLaws` has how many pages a record needs at most, and which is too long.
#![tactic(auto)]

mod answer;
mod fault;
mod format;
mod long;

pub use answer::PassAnswer;
pub use fault::PassFault;
pub use format::read_format;
pub use long::refuse_long;
