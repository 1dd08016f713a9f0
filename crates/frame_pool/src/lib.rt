//! A pool of frames, which are buffers of one length. Each frame has a bit, and a seat that sets the bit has the frame
//! until it clears it.
//!
//! The layer above may use `Frame`, `Pool` and its seats `PoolSeat`. What a caller says of them is defined in `specs/`
//! by `Seats`, over `Claims` and `Tries`. `Rule` holds between any two steps, `RuleLaws` says of it that no frame is lent
//! twice, and `Steps` says what each step tells its seat.
//!
//! No clause says that anybody gets a frame.
#![tactic(auto)]

mod frame;
mod plays;
mod pool;
mod view;

pub use frame::Frame;
pub use pool::{Pool, PoolSeat, lent_once};
pub use view::View;
