//! The state of an update between two calls, as it is saved in a file: a database of two pages with one table, whose rows are the keys of the state, so that SQLite can read it.
//!
//! The layer above writes a `SavedState` by `state_bytes`, reads one by `read_state`, and saves one by `save`, which writes a temporary file and gives it the name of the state file. In `specs/`, `StateFile` says which bytes such a file has, `State` what stands under its keys, `Keys` which values may stand there and which fault bytes have, and `Saving` what a crash leaves while a state is saved. `Lent`, `Numbers`, `Phases`, `Placing` and `Reading` are of use to this crate alone.
#![tactic(auto)]

mod keys;
mod lent;
mod reading;
mod rows;
mod saving;
mod schema;
mod sizes;
mod spelling;
mod state;
mod writing;

pub use keys::{StateFault, StateKey};
pub use saving::save;
pub use spelling::read_state;
pub use state::{DataKey, SavedState};
pub use writing::state_bytes;
