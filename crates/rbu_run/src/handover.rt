// How the new pages reach the target: a whole log, its rename, and the copying of its pages.
ghost use Rattle.std.specs.Prelude.{◌≡◌, ◌<◌, ◌^◌, ◌⊎◌, ℕ, List, [], length, Some, None, OnOk, OnErr};
ghost use Rattle.std.specs.List.{flat_map};
ghost use Rattle.file_spec.specs.declared.FileName.TheVariants.{Target, Oal, Wal};
ghost use Rattle.file_spec.specs.Files.{content, with_file, after_remove, after_rename, OnlyChanges};
ghost use Rattle.file_spec.specs.Records.{shown_files};
ghost use Rattle.rbu_disk.specs.Disk.{AllowsAll, Goes, GoesOn, HasNow, Owes};
ghost use Rattle.format_spec.specs.Log.{AreWords, pair_of};
ghost use Rattle.rbu_run.specs.Halt.{FailsAtChange};
ghost use Rattle.rbu_run.specs.Handover.{log_of, IsAlone, HasPages, IsMidway};
ghost use Rattle.rbu_run.specs.Phases.{HasStable, KeepsBuilding, KeepsBetween, MovesLog, HasMovedLog, KeepsLogged};
ghost use Rattle.rbu_run.specs.Crash.{CrashesMidway};
ghost use Rattle.update_spec.specs.Crashes.{HasShownNames, HasShownFile};

use rbu_disk::{Disk, DiskFault, FileName};
use wal_codec::{frame_bytes, header_bytes};

const PAGE_SIZE: usize = 4096;

/// Writes the parts one after the other into the hidden log, which is empty.
fn write_parts<D: Disk>(disk: &mut D, parts: &[&[u8]]) -> Result<(), DiskFault>
    requires allowed { AllowsAll D.Disk disk.old }
    requires short { length (flat_map (λ part. part.now) parts.now) < 2 ^ 64 }
    ensures done { OnOk result (Goes D.Disk disk.old disk.new
        (λ f g. f Oal ≡ Some [] → g ≡ with_file f Oal (Some (flat_map (λ part. part.now) parts.now)))) }
    ensures only { Goes D.Disk disk.old disk.new (OnlyChanges Oal) }
    ensures moments { GoesOn D.Disk disk.old disk.new KeepsBuilding }
    ensures fault { FailsAtChange result }
    ensures calls { Owes D.Disk disk.old disk.new result }
{
    let mut at: u64 = 0;
    for part in parts {
        disk.write_at(FileName::Oal, at, part)?;
        at += part.len() as u64;
    }
    Ok(())
}

/// Writes the whole log of both pages to the hidden log, and makes it stable.
fn write_log<D: Disk>(disk: &mut D, salt: [u32; 2], pages: &[u8]) -> Result<(), DiskFault>
    requires allowed { AllowsAll D.Disk disk.old }
    requires long { length pages.now ≡ 8192 }
    ensures done { OnOk result (Goes D.Disk disk.old disk.new
        (λ f g. f Oal ≡ None → g ≡ with_file f Oal (Some (log_of (pair_of salt) pages.now)))) }
    ensures only { Goes D.Disk disk.old disk.new (OnlyChanges Oal) }
    ensures moments { GoesOn D.Disk disk.old disk.new KeepsBuilding }
    ensures stable { OnOk result (GoesOn D.Disk disk.old disk.new
        (λ a b. shown_files a.now.at Oal ≡ None → HasStable Oal (log_of (pair_of salt) pages.now) b.now.at)) }
    ensures words { AreWords (pair_of salt) }
    ensures fault { FailsAtChange result }
    ensures calls { Owes D.Disk disk.old disk.new result }
{
    let (first_page, second_page) = pages.split_at(PAGE_SIZE);
    let mut header = [0; 32];
    let sums = header_bytes(PAGE_SIZE as u32, salt, &mut header);
    let mut first = [0; 24];
    let sums = frame_bytes(1, 0, salt, sums, first_page, &mut first);
    let mut second = [0; 24];
    let _sums = frame_bytes(2, 2, salt, sums, second_page, &mut second);
    disk.create(FileName::Oal)?;
    write_parts(disk, &[&header, &first, first_page, &second, second_page])?;
    disk.sync(FileName::Oal)
}

/// Copies both pages into the target, and makes it stable.
fn copy_back<D: Disk>(disk: &mut D, pages: &[u8]) -> Result<(), DiskFault>
    requires allowed { AllowsAll D.Disk disk.old }
    requires long { length pages.now ≡ 8192 }
    ensures done { OnOk result (Goes D.Disk disk.old disk.new (λ f g. length (content f Target) ≡ 8192 → HasPages pages.now f g)) }
    ensures only { Goes D.Disk disk.old disk.new (OnlyChanges Target) }
    ensures moments { GoesOn D.Disk disk.old disk.new KeepsLogged }
    ensures stable { OnOk result (GoesOn D.Disk disk.old disk.new
        (λ a b. length (content (shown_files a.now.at) Target) ≡ 8192 → HasStable Target pages.now b.now.at)) }
    ensures fault { FailsAtChange result }
    ensures calls { Owes D.Disk disk.old disk.new result }
{
    let (first_page, second_page) = pages.split_at(PAGE_SIZE);
    disk.write_at(FileName::Target, 0, first_page)?;
    disk.write_at(FileName::Target, PAGE_SIZE as u64, second_page)?;
    disk.sync(FileName::Target)
}

/// Renames the log to be the target's write-ahead log, which readers see from then on.
fn move_log<D: Disk>(disk: &mut D) -> Result<(), DiskFault>
    requires allowed { AllowsAll D.Disk disk.old }
    ensures done { OnOk result (Goes D.Disk disk.old disk.new (λ f g. g ≡ after_rename f Oal Wal)) }
    ensures failed { OnErr result (Goes D.Disk disk.old disk.new (λ f g. (g ≡ f) ⊎ (g ≡ after_rename f Oal Wal))) }
    ensures moments { GoesOn D.Disk disk.old disk.new MovesLog }
    ensures moved { OnOk result (GoesOn D.Disk disk.old disk.new HasMovedLog) }
    ensures fault { FailsAtChange result }
    ensures calls { Owes D.Disk disk.old disk.new result }
{
    disk.rename(FileName::Oal, FileName::Wal)?;
    disk.sync_folder()
}

/// Removes the write-ahead log, whose pages the target has.
fn drop_log<D: Disk>(disk: &mut D) -> Result<(), DiskFault>
    requires allowed { AllowsAll D.Disk disk.old }
    ensures done { OnOk result (Goes D.Disk disk.old disk.new (λ f g. g ≡ after_remove f Wal)) }
    ensures failed { OnErr result (Goes D.Disk disk.old disk.new (λ f g. (g ≡ f) ⊎ (g ≡ after_remove f Wal))) }
    ensures moments { GoesOn D.Disk disk.old disk.new KeepsBetween }
    ensures names { OnOk result (HasNow D.Disk disk.new HasShownNames) }
    ensures target { OnOk result (GoesOn D.Disk disk.old disk.new (λ a b. (bytes : List ℕ) → HasStable Target bytes a.now.at → HasShownFile Target b.now.at)) }
    ensures fault { FailsAtChange result }
    ensures calls { Owes D.Disk disk.old disk.new result }
{
    disk.remove(FileName::Wal)?;
    disk.sync_folder()
}

/// Brings the pages into the target. Where a call fails it stops midway, and a reader of the files sees the target as it
/// was, or the pages.
pub fn hand_over<D: Disk>(disk: &mut D, salt: [u32; 2], pages: &[u8]) -> Result<(), DiskFault>
    requires allowed { AllowsAll D.Disk disk.old }
    requires long { length pages.now ≡ 8192 }
    ensures done { OnOk result (Goes D.Disk disk.old disk.new (λ f g. IsAlone f → HasPages pages.now f g)) }
    ensures failed { OnErr result (Goes D.Disk disk.old disk.new (λ f g. IsAlone f → IsMidway (pair_of salt) pages.now f g)) }
    ensures moments { GoesOn D.Disk disk.old disk.new (CrashesMidway (pair_of salt) pages.now) }
    ensures names { OnOk result (HasNow D.Disk disk.new HasShownNames) }
    ensures target { OnOk result (GoesOn D.Disk disk.old disk.new (λ a b. IsAlone (shown_files a.now.at) → HasShownFile Target b.now.at)) }
    ensures words { AreWords (pair_of salt) }
    ensures fault { FailsAtChange result }
    ensures calls { Owes D.Disk disk.old disk.new result }
{
    write_log(disk, salt, pages)?;
    move_log(disk)?;
    copy_back(disk, pages)?;
    drop_log(disk)
}
