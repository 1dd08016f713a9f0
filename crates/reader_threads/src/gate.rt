// Where actors may be made to wait, so that a test can choose an order.

/// What an actor has just done.
#[derive(Clone, Copy, Debug, PartialEq, Eq)]
pub enum Point {
    /// A reader opened a read.
    ReadBegun,
    /// A reader ended a read.
    ReadEnded,
    /// The updater has written the whole log.
    LogWhole,
    /// The updater met so many that hold what it waits for.
    Busy(u32),
    /// The updater has made readers see the new database.
    Switched,
}

/// What is told of each point that an actor reaches, while the actor does not have the turn. It may let the actor wait.
pub trait Gate: Sync {
    /// The actor, which is 0 for the updater and else the reader's number, has reached the point.
    fn reached(&self, actor: u32, point: Point);
}

/// A gate that lets all pass at once.
#[derive(Clone, Copy, Debug)]
pub struct OpenGate;

impl Gate for OpenGate {
    fn reached(&self, _actor: u32, _point: Point) {}
}
