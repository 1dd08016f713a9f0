// The commands, from the words in to the line out.
ghost use Rattle.std.specs.Prelude.{◌≡◌, ◌≢◌, ◌⊎◌, ◌↔◌, map, string_bytes, IsTrue};
ghost use Rattle.rbu_disk.specs.Disk.{AllowsAll, Goes, GoesOn, HasNow};
ghost use Rattle.format_spec.specs.Log.{pair_of};
ghost use Rattle.refusal.specs.declared.Part.TheVariants.{Words};
ghost use Rattle.refusal.specs.declared.Refusal.TheVariants.{NotYet};
ghost use Rattle.update_spec.specs.declared.Answer.TheVariants.{Ended};
ghost use Rattle.update_spec.specs.declared.Command.TheVariants.{Apply, Check, Dump};
ghost use Rattle.update_spec.specs.declared.Outcome.TheVariants.{Refused};
ghost use Rattle.file_spec.specs.declared.FileName.TheVariants.{Target};
ghost use Rattle.update_spec.specs.Answer.{IsPrinted};
ghost use Rattle.update_spec.specs.Update.{SeesOldOrNew};
ghost use Rattle.update_spec.specs.Crashes.{HasShownFile, HasShownNames, LeavesNoMore, LeavesOldOrNew};
ghost use Rattle.update_spec.specs.Words.{IsUsage, AsksUpdate, AsksDump, AsksCheck, AsksQuestion, AsksMore};
ghost use Rattle.small_spec.specs.SmallUpdate.{IsFinished, small_inserts};
ghost use Rattle.dump_spec.specs.Dumps.{IsDump};
ghost use Rattle.check_spec.specs.Checks.{IsCheck};
ghost use Rattle.check_spec.specs.Questions.{IsAnswerTo};
ghost use Rattle.rbu_query.specs.Questions.{asked};
ghost use Rattle.rbu_run.specs.Commands.{EndsCommand};
ghost use Rattle.rbu_run.specs.Crash.{IsStableAnswer, Rests, Survives};
ghost use Rattle.rbu_run.specs.Ending.{EndsAs};
ghost use Rattle.rbu_run.specs.Handover.{KeepsOthers, LeavesLog};
ghost use Rattle.rbu_run.specs.Status.{HasEnded, Tells, TellsPrinted, TellsFault, KeepsOnFault, KeepsOnRefusal, HasStatusOf, IsStatus, IsOfUpdate, IsCounted, CountsCalls, CountsWrites};
ghost use Rattle.rbu_run.specs.Told.{IsTold};

use crate::query::query;
use crate::text::write_text;
use crate::update::{not_yet, update};
use crate::words::command_of;
use answer_lines::tellable;
use rbu_disk::{Disk, Sink};
use rbu_query::{Halt, Question};
use refusal::Part;
use std::alloc::Global;
use update_spec::{Answer, Command, Outcome};

/// What a command leaves: the disk that it was given, and the status with which the program ends.
#[derive(Drop)]
pub struct Ran<D> {
    pub disk: D,
    pub status: u8,
}

/// The answer of the update.
fn update_answer<D: Disk>(alloc: Global, salt: [u32; 2], disk: &mut D) -> Answer
    requires allowed { AllowsAll D.Disk disk.old }
    ensures ended { IsOfUpdate result }
    ensures files { Goes D.Disk disk.old disk.new (EndsAs (pair_of salt) result) }
    ensures crash { GoesOn D.Disk disk.old disk.new (Survives (IsStableAnswer result)) }
    ensures calls { IsCounted D.Disk disk.old disk.new result }
{
    match update(alloc, salt, disk) {
        Ok(outcome) => Answer::Ended { outcome },
        Err(Halt::Fault(fault)) => Answer::Fault {
            file: fault.file,
            call: fault.call,
        },
        Err(Halt::Memory) => Answer::NoMemory,
    }
}

/// The answer to a question.
fn query_answer<D: Disk>(alloc: Global, disk: &mut D, question: Question<'_>) -> Answer
    requires allowed { AllowsAll D.Disk disk.old }
    ensures prints { IsPrinted (IsAnswerTo (asked question.entry)) (D.shown disk.old) result }
    ensures same { D.shown disk.new ≡ D.shown disk.old }
    ensures crash { GoesOn D.Disk disk.old disk.new (Rests (IsStableAnswer result)) }
    ensures calls { IsCounted D.Disk disk.old disk.new result }
{
    match query(alloc, disk, question) {
        Ok(Ok(text)) => Answer::Printed { text },
        Ok(Err(refusal)) => Answer::Ended {
            outcome: Outcome::Refused { refusal },
        },
        Err(Halt::Fault(fault)) => Answer::Fault {
            file: fault.file,
            call: fault.call,
        },
        Err(Halt::Memory) => Answer::NoMemory,
    }
}

/// Whether the command is the update in one call.
fn is_whole_update(command: &Command) -> bool
    ensures { IsTrue result ↔ (command.now ≡ Apply 4294967295) }
{
    match command {
        Command::Apply { steps } => *steps == u32::MAX,
        _ => false,
    }
}

/// Whether the command is a dump.
fn is_dump(command: &Command) -> bool
    ensures { IsTrue result ↔ (command.now ≡ Dump) }
{
    match command {
        Command::Dump => true,
        _ => false,
    }
}

/// Whether the command is the check.
fn is_check(command: &Command) -> bool
    ensures { IsTrue result ↔ (command.now ≡ Check) }
{
    match command {
        Command::Check => true,
        _ => false,
    }
}

/// The name of the table that the words ask for.
fn name_of(words: &[String]) -> &[u8]
    ensures { (asks : AsksDump (map string_bytes words.now)) → result.now ≡ asks.0 }
{
    match words {
        [_dump, name] => name.as_bytes(),
        _ => b"",
    }
}

/// The answer of the command that the words ask for. Words that ask for nothing that is built make no call on the disk.
fn answer_of<D: Disk>(alloc: Global, words: &[String], salt: [u32; 2], disk: &mut D) -> Answer
    requires allowed { AllowsAll D.Disk disk.old }
    ensures ends { EndsCommand D.Disk (pair_of salt) (map string_bytes words.now) disk.old disk.new result }
    ensures calls { IsCounted D.Disk disk.old disk.new result }
{
    let Some(command) = command_of(words) else {
        return Answer::Usage;
    };
    if is_whole_update(&command) {
        return update_answer(alloc, salt, disk);
    }
    if is_dump(&command) {
        return query_answer(
            alloc,
            disk,
            Question::Dump {
                name: name_of(words),
            },
        );
    }
    if is_check(&command) {
        return query_answer(alloc, disk, Question::Check);
    }
    Answer::Ended {
        outcome: not_yet(Part::Words),
    }
}

/// Runs a command, and writes its lines at once.
///
/// `words` are the command and its arguments, `salt` goes into the log's header. The status is 0 where the update is
/// done or the lines of a dump or a check are written, 2 where no command has the words, 3 at a constraint fault, 4 at a
/// refusal, 6 where the disk failed, 7 where memory ran out, and 8 where the output failed. The disk is handed back
/// whatever the status is.
pub fn run_command<D: Disk, O: Sink>(
    alloc: Global,
    words: &[String],
    salt: [u32; 2],
    mut disk: D,
    out: &mut O,
) -> Ran<D>
    requires allowed { AllowsAll D.Disk disk }

    // Whatever stopped the call, a reader of the files sees the old database, or all of the new one.
    ensures headline { Goes D.Disk disk result.disk (SeesOldOrNew small_inserts) }

    // So does a reader of what a crash at any moment of the call leaves, where each image at its start shows the old one.
    ensures images { GoesOn D.Disk disk result.disk (LeavesOldOrNew small_inserts) }

    // Where the update came to its outcome no crash takes it back: each image has the names that are shown, and the
    // target where the update is done. Behind the answer of a dump or a check the names are stable too.
    ensures names { AsksUpdate (map string_bytes words.now) ⊎ AsksQuestion (map string_bytes words.now) → HasEnded result.status →
        HasNow D.Disk result.disk HasShownNames }
    ensures target { AsksUpdate (map string_bytes words.now) → result.status ≡ 0 → HasNow D.Disk result.disk (HasShownFile Target) }

    // Nor is any other file than the target and its two logs changed.
    ensures others { Goes D.Disk disk result.disk KeepsOthers }

    // A write-ahead log that the call makes and leaves is whole, has the salt, and has the new database's bytes.
    ensures log { Goes D.Disk disk result.disk (LeavesLog (pair_of salt)) }

    // An update that ends has put every prepared row into the target, and neither log exists.
    ensures finished { result.status ≡ 0 → (AsksUpdate (map string_bytes words.now) × Goes D.Disk disk result.disk IsFinished)
        ⊎ AsksQuestion (map string_bytes words.now) }
    ensures constraint { result.status ≡ 3 → AsksUpdate (map string_bytes words.now) × Goes D.Disk disk result.disk KeepsOnFault }
    ensures refused { result.status ≡ 4 → (AsksUpdate (map string_bytes words.now) × Goes D.Disk disk result.disk KeepsOnRefusal)
        ⊎ (AsksQuestion (map string_bytes words.now) ⊎ AsksMore (map string_bytes words.now)) }
    ensures memory { result.status ≡ 7 → Goes D.Disk disk result.disk (λ f g. g ≡ f) }

    // A dump writes the lines of the named table in the files shown, and a check that their database is sound, with its pages
    // and trees, or each the line of their first refusal, exactly, unless a device failed or memory ran out. They change no
    // file, and a crash at any moment of them leaves no more than one before.
    ensures dumped { (asks : AsksDump (map string_bytes words.now)) → TellsPrinted D.Disk O.Sink (IsDump asks.0) disk result.disk out.old out.new result.status }
    ensures checked { AsksCheck (map string_bytes words.now) → TellsPrinted D.Disk O.Sink IsCheck disk result.disk out.old out.new result.status }
    ensures kept { AsksQuestion (map string_bytes words.now) → GoesOn D.Disk disk result.disk LeavesNoMore }

    // The outcome of the files is the answer, exactly, unless a device failed or memory ran out.
    ensures complete { AsksUpdate (map string_bytes words.now) → Goes D.Disk disk result.disk (λ f _. HasStatusOf result.status f) }
    ensures not_built { AsksMore (map string_bytes words.now) → IsTold O.Sink (Ended (Refused (NotYet Words))) out.old out.new result.status }
    ensures usage { result.status ≡ 2 → IsUsage (map string_bytes words.now) }
    ensures usage_only { IsUsage (map string_bytes words.now) → (result.status ≡ 2) ⊎ (result.status ≡ 8) }
    ensures idle { (¬ AsksUpdate (map string_bytes words.now)) → (¬ AsksQuestion (map string_bytes words.now)) → result.disk ≡ disk }

    ensures status { IsStatus result.status }

    // The output has the text of the answer that is owed, or a prefix of it where the output failed.
    ensures told { Tells D.Disk O.Sink (map string_bytes words.now) disk result.disk out.old out.new result.status }

    // Status 6 names the last call on the disk that failed, and the files are as before unless the update was due.
    ensures fault { result.status ≡ 6 → TellsFault D.Disk O.Sink disk result.disk out.old out.new result.status }

    // A fault has its cause, and none is passed over.
    ensures calls { CountsCalls D.Disk disk result.disk result.status }
    ensures writes { CountsWrites O.Sink out.old out.new result.status }
{
    let answer = answer_of(alloc, words, salt, &mut disk);
    let (answer, line) = tellable(alloc, answer);
    let status = write_text(&answer, &line, out);
    Ran { disk, status }
}
