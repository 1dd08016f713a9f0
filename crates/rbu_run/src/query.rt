// What the files answer to a question, from the first call on the disk on.
ghost use Rattle.std.specs.Prelude.{◌≡◌, IfOk, IfSome, OnOk};
ghost use Rattle.rbu_disk.specs.Disk.{AllowsAll, GoesOn, OwesBy};
ghost use Rattle.update_spec.specs.Crashes.{HasShownNames};
ghost use Rattle.check_spec.specs.Questions.{IsAnswerTo};
ghost use Rattle.rbu_query.specs.Answers.{fault_in};
ghost use Rattle.rbu_query.specs.Questions.{asked};
ghost use Rattle.rbu_run.specs.Crash.{Rests};

use rbu_disk::Disk;
use rbu_query::{Halt, Question, answer_question};
use rbu_value::Bytes;
use refusal::Refusal;
use std::alloc::Global;

/// The text that is the answer to a question, or the first refusal, from the first call on the disk on. Changes no file.
pub fn query<D: Disk>(
    alloc: Global,
    disk: &mut D,
    question: Question<'_>,
) -> Result<Result<Bytes, Refusal>, Halt>
    requires allowed { AllowsAll D.Disk disk.old }
    ensures same { D.shown disk.new ≡ D.shown disk.old }
    ensures answer { IfOk result (λ answer. IfSome (D.shown disk.old) (λ f. IsAnswerTo (asked question.entry) f answer)) }
    ensures crash { GoesOn D.Disk disk.old disk.new (Rests (λ r. OnOk result (HasShownNames r))) }
    ensures calls { OwesBy D.Disk fault_in disk.old disk.new result }
{
    disk.sync_folder()?;
    let answer = answer_question(alloc, disk, question)?;
    Ok(answer)
}
