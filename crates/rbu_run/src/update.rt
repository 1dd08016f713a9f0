// The update of a small target, from the files in to the files out.
ghost use Rattle.std.specs.Prelude.{◌≡◌, ◌≤◌, ℕ, List, length, OnOk, OnErr};
ghost use Rattle.file_spec.specs.declared.FileName.TheVariants.{Target};
ghost use Rattle.file_spec.specs.Records.{shown_files};
ghost use Rattle.rbu_disk.specs.Disk.{AllowsAll, Goes, GoesOn, HasNow, Owes, OwesBy};
ghost use Rattle.format_spec.specs.Log.{AreWords, pair_of};
ghost use Rattle.refusal.specs.declared.Refusal.TheVariants.{NotYet};
ghost use Rattle.update_spec.specs.declared.Outcome.TheVariants.{Refused};
ghost use Rattle.update_spec.specs.Crashes.{HasShownNames, HasShownFile};
ghost use Rattle.small_spec.specs.SmallFile.{IsSmallTarget, IsSmallRbu};
ghost use Rattle.small_spec.specs.Inserts.{new_pages, page_room};
ghost use Rattle.rbu_run.specs.Crash.{CrashesMidway, HasFirmNames, IsStableEnd, Survives};
ghost use Rattle.rbu_run.specs.Ending.{Ends};
ghost use Rattle.rbu_query.specs.Answers.{fault_in};
ghost use Rattle.rbu_run.specs.Halt.{FailsAtChange};
ghost use Rattle.rbu_run.specs.Handover.{HasPages, IsAlone, IsMidway};
ghost use Rattle.rbu_run.specs.Inspection.{IsSmallWith};

use crate::handover::hand_over;
use crate::inspect::{Inspected, inspect};
use rbu_disk::{Disk, DiskFault};
use rbu_query::Halt;
use refusal::{Part, Refusal};
use small_spec::{PreparedRow, TargetRow};
use small_update::{Decision, decide, update_leaves_small_target, write_pages};
use std::alloc::Global;
use update_spec::Outcome;

pub const fn not_yet(part: Part) -> Outcome
    ensures { result ≡ Refused (NotYet part) }
{
    Outcome::Refused {
        refusal: Refusal::NotYet { part },
    }
}

/// Writes the pages of all rows over those of the target, and brings them into the file.
fn install<D: Disk>(
    disk: &mut D,
    salt: [u32; 2],
    target: &mut [u8],
    rows: &[TargetRow],
) -> Result<(), DiskFault>
    requires allowed { AllowsAll D.Disk disk.old }
    requires long { length target.old ≡ 8192 }
    requires room { page_room rows.now ≤ 4096 }
    ensures done { OnOk result (Goes D.Disk disk.old disk.new (λ f g. IsAlone f → HasPages (new_pages target.old rows.now) f g)) }
    ensures failed { OnErr result (Goes D.Disk disk.old disk.new (λ f g. IsAlone f → IsMidway (pair_of salt) (new_pages target.old rows.now) f g)) }
    ensures moments { GoesOn D.Disk disk.old disk.new (CrashesMidway (pair_of salt) (new_pages target.old rows.now)) }
    ensures names { OnOk result (HasNow D.Disk disk.new HasShownNames) }
    ensures target { OnOk result (GoesOn D.Disk disk.old disk.new (λ a b. IsAlone (shown_files a.now.at) → HasShownFile Target b.now.at)) }
    ensures words { AreWords (pair_of salt) }
    ensures fault { FailsAtChange result }
    ensures calls { Owes D.Disk disk.old disk.new result }
{
    write_pages(target, rows);
    hand_over(disk, salt, target)
}

/// Decides on small files that were read, and installs the merged rows.
fn finish<D: Disk>(
    alloc: Global,
    salt: [u32; 2],
    disk: &mut D,
    mut target: Vec<u8>,
    old: Vec<TargetRow>,
    prepared: Vec<PreparedRow>,
) -> Result<Outcome, Halt>
    requires allowed { AllowsAll D.Disk disk.old }
    requires target { IsSmallTarget target.items old.items }
    requires rbu { (bytes : List ℕ) × IsSmallRbu bytes prepared.items }
    ensures files { Goes D.Disk disk.old disk.new (λ f g. IsSmallWith target.items old.items prepared.items f → Ends (pair_of salt) result f g) }
    ensures crash { GoesOn D.Disk disk.old disk.new (λ a b. HasFirmNames a.now.at →
        IsSmallWith target.items old.items prepared.items (shown_files a.now.at) → Survives (IsStableEnd result) a b) }
    ensures calls { OwesBy D.Disk fault_in disk.old disk.new result }
{
    match decide(alloc, old, prepared)? {
        Decision::SharedKey => Ok(not_yet(Part::Rows)),
        Decision::NoRoom => Ok(not_yet(Part::Room)),
        Decision::KeyPresent { table, data_rowid } => {
            Ok(Outcome::KeyPresent { table, data_rowid })
        }
        Decision::Merged(rows) => {
            // What is installed is a small target again.
            update_leaves_small_target();
            match install(disk, salt, &mut target, &rows) {
                Ok(()) => Ok(Outcome::Done),
                Err(fault) => Err(Halt::Fault(fault)),
            }
        }
    }
}

/// The update, from its first call on the disk on.
pub fn update<D: Disk>(alloc: Global, salt: [u32; 2], disk: &mut D) -> Result<Outcome, Halt>
    requires allowed { AllowsAll D.Disk disk.old }
    ensures files { Goes D.Disk disk.old disk.new (Ends (pair_of salt) result) }
    ensures crash { GoesOn D.Disk disk.old disk.new (Survives (IsStableEnd result)) }
    ensures calls { OwesBy D.Disk fault_in disk.old disk.new result }
{
    disk.sync_folder()?;
    match inspect(alloc, disk)? {
        Inspected::Missing { part } => Ok(not_yet(part)),
        Inspected::Small {
            target,
            old,
            prepared,
        } => finish(alloc, salt, disk, target, old, prepared),
    }
}
