// The rule of the table, and the names of its steps.
ghost use Rattle.std.specs.Prelude.{◌+◌, ◌-◌};
ghost use Rattle.frame_pool.specs.Rule.{Kept};
ghost use Rattle.frame_pool.specs.Steps.{Claims, Releases, Reopens, Settles};
ghost use Rattle.frame_pool.specs.Views.{fresh, spent, starts, with_parts};

use crate::frame::Frame;
use crate::view::View;
use atomic_table::{Join, Play, Split, TableRule};

/// The rule. The table is told the length of the frames.
pub struct Lending;

impl TableRule<Option<Frame>, View, usize> for Lending {
    ghost holds = { λ size. Kept size };

    ghost first = { λ size. starts size };
}

/// One try to set a bit.
pub struct Claim;

impl Play<Option<Frame>, View> for Claim {
    ghost then = { Claims };
}

/// Gives an empty slot home.
pub struct Settle;

impl Play<Option<Frame>, View> for Settle {
    ghost then = { Settles };
}

/// Takes the empty slot of a claimed frame again.
pub struct Reopen;

impl Play<Option<Frame>, View> for Reopen {
    ghost then = { Reopens };
}

/// Clears the bit of the slot that is out with the seat.
pub struct Release;

impl Play<Option<Frame>, View> for Release {
    ghost then = { Releases };
}

/// A seat is made from another, or ends in it.
pub struct Part;

impl Split<View> for Part {
    ghost left = { λ v. with_parts v (v.parts - 1) };

    ghost right = { λ v. fresh v.size 1 };
}

impl Join<View> for Part {
    ghost both = { λ v w. with_parts v (v.parts + w.parts) };

    ghost spent = { spent };
}
