// What a locked value means.
ghost use Rattle.std.specs.Prelude.{Bool, List, Option, ℕ};

/// A value with a history that only grows, and a count that does not fall.
pub trait Story {
    /// What the history is made of.
    type Entry: Drop;

    // The entries, the oldest first.
    ghost history: { Self → List Self.Entry };

    // A number that does not fall, as a count of faults.
    ghost count: { Self → ℕ };

    // The number of the seat that made an entry.
    ghost actor: { Self.Entry → ℕ };

    ghost Part: { Type 0 };

    // What only the first seat changes.
    ghost part: { Self → Part };

    // Whether the value has turned. The first such value that is put back is kept in mind.
    ghost has_turned: { Self → Bool };

    // The third value stands for the first, which the lock was made with, and for the second, the first that had turned.
    ghost stands: { Self → Option Self → Self → Type 0 };
}
