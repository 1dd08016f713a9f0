// Laws about what is answered.
ghost use Rattle.std.specs.Prelude.{◌↔◌, ℕ, List, Result};
ghost use Rattle.common_spec.specs.ReadingLaws.{IsOne};
ghost use Rattle.file_spec.specs.Files.{Files};
ghost use Rattle.refusal.specs.declared.Refusal.{Refusal};
ghost use Rattle.update_spec.specs.Words.{Checks, Dumps, Question};
ghost use Rattle.dump_spec.specs.Dumps.{IsDump};
ghost use Rattle.check_spec.specs.Checks.{IsCheck};
ghost use Rattle.check_spec.specs.Questions.{IsAnswerTo};

/// Files have one answer of a check: that the database is sound, or one refusal.
pub fn check_has_one_answer()
    ensures { (files : Files) → IsOne (IsCheck files) }
{}

/// A question has one answer of the files.
pub fn question_has_one_answer()
    ensures { (question : Question) (files : Files) → IsOne (IsAnswerTo question files) }
{}

/// A question is a dump of a name or a check, and is answered as these are.
pub fn questions_are_dumps_and_checks()
    ensures dump { (name : List ℕ) (files : Files) (answer : Result (List ℕ) Refusal) → IsAnswerTo (Dumps name) files answer ↔ IsDump name files answer }
    ensures check { (files : Files) (answer : Result (List ℕ) Refusal) → IsAnswerTo Checks files answer ↔ IsCheck files answer }
{}
