//! A lock over a value with a history. Seats take the value one at a time and put it back.
//!
//! The layer above may use `TurnLock`, its seats `Seat`, and `Story`, which says what a locked value means. What a
//! caller says of a seat is defined in `specs/` by `Seats`, what a seat knows by `Views`, and what it knows of a value
//! that it takes by `Meeting`. `Rule` holds between any two steps, and `Steps` says what each step tells its seat.
//!
//! No clause says that anybody gets the turn.
#![tactic(auto)]

mod lock;
mod plays;
mod story;
mod view;

pub use lock::{Seat, TurnLock, one_holder};
pub use story::Story;
pub use view::{Past, Turn, View};
