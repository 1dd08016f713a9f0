// The rule of the table, and the names of its steps.
ghost use Rattle.turn_lock.specs.Rule.{Kept};
ghost use Rattle.turn_lock.specs.Steps.{Compares, Leaves, Notes, Opens, Shuts, Takes, cut, gathered, newcomer};
ghost use Rattle.turn_lock.specs.Views.{spent, starts};

use crate::story::Story;
use crate::view::View;
use atomic_table::{Join, Play, Split, TableRule};
use std::marker::PhantomData;

/// The rule. The table is told the value that the lock is made with.
pub struct Turns<W> {
    marker: PhantomData<W>,
}

impl<W: Story> TableRule<Option<W>, View<W, W::Entry>, W> for Turns<W> {
    ghost holds = { λ opening. Kept W.Story opening };

    ghost first = { λ opening. starts opening };
}

/// Takes the empty slot of a new table.
pub struct Open;

impl<W, E> Play<Option<W>, View<W, E>> for Open {
    ghost then = { Opens };
}

/// One try to take the turn.
pub struct Take<W> {
    marker: PhantomData<W>,
}

impl<W: Story> Play<Option<W>, View<W, W::Entry>> for Take<W> {
    ghost then = { Takes W.Story };
}

/// Counts one entry more.
pub struct Note<W> {
    marker: PhantomData<W>,
}

impl<W: Story> Play<Option<W>, View<W, W::Entry>> for Note<W> {
    ghost then = { Notes W.Story };
}

/// Gives the turn back.
pub struct Leave<W> {
    marker: PhantomData<W>,
}

impl<W: Story> Play<Option<W>, View<W, W::Entry>> for Leave<W> {
    ghost then = { Leaves W.Story };
}

/// Looks at what two seats that were joined have seen.
pub struct Compare;

impl<W, E> Play<Option<W>, View<W, E>> for Compare {
    ghost then = { Compares };
}

/// Gives the empty slot home before the lock ends.
pub struct Shut;

impl<W, E> Play<Option<W>, View<W, E>> for Shut {
    ghost then = { Shuts };
}

/// A seat is made from another, or ends in it.
pub struct Seats;

impl<W, E> Split<View<W, E>> for Seats {
    ghost left = { cut };

    ghost right = { newcomer };
}

impl<W, E> Join<View<W, E>> for Seats {
    ghost both = { gathered };

    ghost spent = { spent };
}
