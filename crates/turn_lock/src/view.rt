// What a seat knows. No value of these types is made.
use std::collections::LinkedList;

/// What stays with a seat.
pub struct Past<W, E> {
    /// The value that the lock was made with; none in a seat that was joined into another.
    pub opening: Option<W>,
    /// The seat's number, which is 0 in the first seat and no other.
    pub number: u64,
    /// How many numbers were given, in the first seat.
    pub given: u64,
    /// The history as the seat put it back last, or as one knew it that it came from or that was joined into it.
    pub seen: LinkedList<E>,
    /// The greatest count that was seen.
    pub most: u64,
    /// How many tries found the turn held.
    pub lost: u64,
    /// Where in the history the entries stand that this seat made, or one that was joined into it.
    pub places: LinkedList<u64>,
    /// How often the seat put a value back.
    pub left: u64,
    /// The value that the seat put back last.
    pub put: Option<W>,
    /// The first value that had turned, where the seat knows of one.
    pub turned: Option<W>,
    /// In the midst of a join, what the seat saw that had seen less.
    pub beside: LinkedList<E>,
}

/// What a seat has while it holds the turn.
pub struct Turn<W, E> {
    /// Whether it does.
    pub has: bool,
    /// Whether the slot is at home and empty, as it is before the first value is put in and at the end of the lock.
    pub fresh: bool,
    /// The whole history.
    pub whole: LinkedList<E>,
    /// The value that was taken.
    pub taken: Option<W>,
}

/// What a seat knows.
pub struct View<W, E> {
    pub past: Past<W, E>,
    pub turn: Turn<W, E>,
}
