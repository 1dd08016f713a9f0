// What a seat knows.
use std::collections::LinkedList;

/// What a seat knows. No value of it is made.
pub struct View {
    /// The length of each frame of the pool, in bytes.
    pub size: usize,
    /// The seat's share of the right to know the whole, none once it is joined to another.
    pub parts: u64,
    /// The numbers of the frames that the seat has claimed, the last first.
    pub claimed: LinkedList<usize>,
    /// The frame whose slot is out with the seat.
    pub out: Option<usize>,
    /// What each try to claim found in the word of its bit, in order.
    pub tries: LinkedList<u64>,
}
