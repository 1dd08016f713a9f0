// The answer to a question, over the files of a disk.
ghost use Rattle.std.specs.Prelude.{◌≡◌, ◌≤◌, ◌↔◌, length, take, IsTrue, IfOk, IfSome, None};
ghost use Rattle.std.specs.Option.{option_copied};
ghost use Rattle.common_spec.specs.Reading.{OrFault};
ghost use Rattle.file_spec.specs.declared.FileName.TheVariants.{Target};
ghost use Rattle.file_spec.specs.Files.{content};
ghost use Rattle.db_header.specs.Reading.{IsFirstFault, IsHeaderOf};
ghost use Rattle.rbu_disk.specs.Disk.{AllowsAll, Looks, Owes, OwesBy};
ghost use Rattle.tree_spec.specs.Faults.{fault_in as tree_fault_in};
ghost use Rattle.dump_spec.specs.FileAnswers.{HasJournal, pages_by, sizes_by};
ghost use Rattle.dump_spec.specs.Refusals.{header_refusal};
ghost use Rattle.check_spec.specs.Questions.{IsAnswerTo, IsPagesAnswerTo};
ghost use Rattle.rbu_query.specs.Answers.{Counts, HasHeader, IsReadHeader, fault_in};
ghost use Rattle.rbu_query.specs.Questions.{asked};

use crate::halt::Halt;
use crate::pages::answer_pages;
use crate::question::Question;
use db_header::{Header, HeaderFault, read_header};
use file_pages::{FilePages, file_start};
use rbu_disk::{Disk, DiskFault, FileName};
use rbu_value::Bytes;
use refusal::{Part, Refusal};
use std::alloc::Global;
use tree_walk::TreeFault;

// Whether a rollback journal is to be played back.
fn has_journal<D: Disk>(disk: &mut D) -> Result<bool, DiskFault>
    requires allowed { AllowsAll D.Disk disk.old }
    ensures files { Looks D.Disk disk.old disk.new result (λ there f. IsTrue there ↔ HasJournal f) }
    ensures calls { Owes D.Disk disk.old disk.new result }
{
    let mut first = [0];
    disk.read_at(FileName::Journal, 0, &mut first)?;
    Ok(first[0] != 0)
}

// The header of the target, or its first fault.
fn target_header<D: Disk>(disk: &mut D) -> Result<Result<Header, HeaderFault>, DiskFault>
    requires allowed { AllowsAll D.Disk disk.old }
    ensures files { Looks D.Disk disk.old disk.new result (λ header f.
        OrFault (IsHeaderOf (take 100 (content f Target)) (length (content f Target))) (IsFirstFault (take 100 (content f Target)) (length (content f Target))) header) }
    ensures read { IfOk result IsReadHeader }
    ensures calls { Owes D.Disk disk.old disk.new result }
{
    let mut start = [0; 100];
    let (n, len) = file_start(disk, FileName::Target, None, &mut start)?;
    Ok(read_header(&start[..n], len))
}

// The refusal of a header.
fn refusal_of(fault: HeaderFault) -> Refusal
    ensures { result ≡ header_refusal fault }
{
    match fault {
        HeaderFault::NotADatabase => Refusal::NotADatabase,
        HeaderFault::PageSize { value } => Refusal::PageSize { value },
        HeaderFault::WalMode => Refusal::WalMode,
        HeaderFault::Encoding { value } => Refusal::Encoding { value },
        HeaderFault::AutoVacuum { value } => Refusal::AutoVacuum { value },
        HeaderFault::SizeMismatch { pages, length } => Refusal::SizeMismatch { pages, length },
        HeaderFault::ReservedSpace { value } => Refusal::ReservedSpace { value },
        HeaderFault::SchemaFormat { value } => Refusal::SchemaFormat { value },
    }
}

// What ends a call, by a fault of the tree that is no damage. No walk gives one of the two that speak of free pages.
fn halt_of(fault: TreeFault<DiskFault>) -> Halt
    ensures { fault_in result ≡ tree_fault_in fault }
{
    match fault {
        TreeFault::Store(fault) => Halt::Fault(fault),
        TreeFault::Memory(_)
        | TreeFault::TreeDamaged { .. }
        | TreeFault::TrunkDamaged { .. }
        | TreeFault::TargetFull { .. } => Halt::Memory,
    }
}

// The answer of a target's pages.
fn answer_file<D: Disk>(
    alloc: Global,
    pages: &mut FilePages<D>,
    question: Question<'_>,
) -> Result<Result<Bytes, Refusal>, Halt>
    requires allowed { AllowsAll D.Disk pages.old.disk.now }
    requires file { pages.old.file ≡ Target }
    requires log { option_copied pages.old.log ≡ None }
    requires header { HasHeader pages.old.header }
    ensures lent { pages.new.disk.ghost_name ≡ pages.old.disk.ghost_name }
    ensures same { D.shown pages.new.disk.now ≡ D.shown pages.old.disk.now }
    ensures moments { D.trail pages.new.disk.now ≡ D.trail pages.old.disk.now }
    ensures test { D.test pages.new.disk.now ≡ D.test pages.old.disk.now }
    ensures answer { IfOk result (λ answer. IfSome (D.shown pages.old.disk.now) (λ f. IsPagesAnswerTo (asked question.entry) (sizes_by pages.old.header) (pages_by pages.old.header (content f Target)) answer)) }
    ensures faults { Counts (D.failures pages.old.disk.now) (D.failures pages.new.disk.now) result }
{
    match answer_pages(alloc, pages, question) {
        Ok(answer) => Ok(answer),
        Err(fault) => Err(halt_of(fault)),
    }
}

// The answer of the target's pages, by its header.
fn answer_target<D: Disk>(
    alloc: Global,
    disk: &mut D,
    header: Header,
    question: Question<'_>,
) -> Result<Result<Bytes, Refusal>, Halt>
    requires allowed { AllowsAll D.Disk disk.old }
    requires header { HasHeader header }
    ensures same { D.shown disk.new ≡ D.shown disk.old }
    ensures moments { D.trail disk.new ≡ D.trail disk.old }
    ensures test { D.test disk.new ≡ D.test disk.old }
    ensures answer { IfOk result (λ answer. IfSome (D.shown disk.old) (λ f. IsPagesAnswerTo (asked question.entry) (sizes_by header) (pages_by header (content f Target)) answer)) }
    ensures faults { Counts (D.failures disk.old) (D.failures disk.new) result }
{
    let mut pages = FilePages {
        disk,
        file: FileName::Target,
        log: None,
        header,
    };
    let answer = answer_file(alloc, &mut pages, question);
    let FilePages { disk: lent, .. } = pages;
    // No effect at run time. The proof reads what the disk holds from this use.
    let _ = &*lent;
    answer
}

/// What the target answers to a question, or the first refusal: [121], [1] `log`, those of the header, and then, to a dump of the table of the schema, [55] and [62]; of another, what `dump_table` refuses; and to a check what `check_store` does. Changes nothing.
pub fn answer_question<D: Disk>(
    alloc: Global,
    disk: &mut D,
    question: Question<'_>,
) -> Result<Result<Bytes, Refusal>, Halt>
    requires allowed { AllowsAll D.Disk disk.old }
    ensures files { Looks D.Disk disk.old disk.new result (λ answer f. IsAnswerTo (asked question.entry) f answer) }
    ensures calls { OwesBy D.Disk fault_in disk.old disk.new result }
{
    if has_journal(disk)? {
        return Ok(Err(Refusal::JournalPresent));
    }
    if disk.exists(FileName::Wal)? {
        return Ok(Err(Refusal::NotYet { part: Part::Log }));
    }
    match target_header(disk)? {
        Ok(header) => match answer_target(alloc, disk, header, question) {
            Ok(answer) => Ok(answer),
            Err(halt) => Err(halt),
        },
        Err(fault) => Ok(Err(refusal_of(fault))),
    }
}
