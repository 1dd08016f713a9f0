// What the calls of a reader owe.
ghost use Rattle.std.specs.Prelude.{◌≡◌, Bool, false};
ghost use Rattle.reader_threads.specs.Tallies.{CanBegin, CanStep, Tally, after_begin, after_step};

/// The answer of `begin`.
#[derive(Clone, Copy, Debug, PartialEq, Eq)]
pub enum Begun {
    /// A read is open.
    Yes,
    /// No read could be opened at this call; a later one may.
    NotYet,
    /// The reader ends.
    Stop,
}

/// The answer of `step`.
#[derive(Clone, Copy, Debug, PartialEq, Eq)]
pub enum Stepped {
    /// The read goes on.
    More,
    /// The read has ended.
    Ended,
    /// The reader ends, and its read is closed.
    Stop,
}

/// A reader's calls. Each takes the turn, where it needs it, and gives it back.
pub trait ReadTurns {
    // What the reader has done.
    ghost tally: { Self → Tally };

    // Whether the reader has the turn.
    ghost has_turn: { Self → Bool };

    /// Tries to open a read.
    fn begin(&mut self) -> Begun
        requires ready { CanBegin (tally self.old) }
        ensures tally { tally self.new ≡ after_begin result (tally self.old) }
        ensures outside { has_turn self.new ≡ false };

    /// Goes on with the open read.
    fn step(&mut self) -> Stepped
        requires open { CanStep (tally self.old) }
        ensures tally { tally self.new ≡ after_step result (tally self.old) }
        ensures outside { has_turn self.new ≡ false };
}
