// What a step did.
use prepared_spec::Violation;

/// What a step of a pass did.
#[derive(Drop)]
pub enum PassAnswer {
    /// The step was made.
    Moved,
    /// No step was left, and nothing was done.
    End,
    /// The step that was due has a constraint fault, and was not made.
    Constraint(Violation),
}
