// Commits the pages that were written.
use crate::appending::{End, append_pages};
use crate::fault::OalFault;
use crate::store::OalStore;
use rbu_disk::{Disk, DiskFault, FileName};
use std::alloc::{AllocError, Global};

impl OalStore {
    ghost use Rattle.std.specs.Prelude.{◌≡◌, ◌≤◌, ◌+◌, ℕ, List, [], OnOk, IfOk, IfErr, length};
    ghost use Rattle.std.specs.BTreeMap.{IsOrdered};
    ghost use Rattle.std.specs.Ordering.{nat_cmp};
    ghost use Rattle.file_spec.specs.declared.FileName.TheVariants.{Oal};
    ghost use Rattle.file_spec.specs.Files.{OnlyChanges};
    ghost use Rattle.file_spec.specs.Records.{IsStill};
    ghost use Rattle.format_spec.specs.Log.{Frame, pair_of, frames_bytes, sums_behind};
    ghost use Rattle.rbu_disk.specs.Disk.{Goes, GoesOn, Owes, OwesBy};
    ghost use Rattle.oal_store.specs.Appending.{Appends, frames_of};
    ghost use Rattle.oal_store.specs.Committing.{Grows};
    ghost use Rattle.oal_store.specs.Faults.{disk_fault, IsNoRefusal};
    ghost use Rattle.oal_store.specs.Growing.{KeepsGrowing, HasStableLog};
    ghost use Rattle.oal_store.specs.Stored.{AllowsCommit, CommitsInImages, CrashesCommitting, IsCommitted, IsKnown, KeepsLog, SameStore};

    // Appends the pages that were written, and makes the log stable.
    fn write_log<D: Disk>(&self, disk: &mut D) -> Result<End, DiskFault>
        requires allowed { AllowsCommit D.Disk disk.old }
        ensures done { IfOk result (λ end. Goes D.Disk disk.old disk.new (Appends self.now.log.size
            (frames_bytes self.now.log.big (pair_of self.now.log.salt) (pair_of self.now.log.sums) (frames_of self.now.count self.now.changed.entries)))) }
        ensures size { IfOk result (λ end. end.size ≡ self.now.log.size
            + length (frames_bytes self.now.log.big (pair_of self.now.log.salt) (pair_of self.now.log.sums) (frames_of self.now.count self.now.changed.entries))) }
        ensures sums { IfOk result (λ end. pair_of end.sums ≡ sums_behind self.now.log.big (pair_of self.now.log.sums) (frames_of self.now.count self.now.changed.entries)) }
        ensures ordered { IsOrdered nat_cmp self.now.changed }
        ensures only { Goes D.Disk disk.old disk.new (OnlyChanges Oal) }
        ensures moments { GoesOn D.Disk disk.old disk.new (KeepsGrowing self.now.log.size) }
        ensures stable { IfOk result (λ end. GoesOn D.Disk disk.old disk.new (λ a b. HasStableLog b.now.at)) }
        ensures calls { Owes D.Disk disk.old disk.new result }
    {
        let end = append_pages(disk, &self.log, &self.changed, self.count)?;
        disk.sync(FileName::Oal)?;
        Ok(end)
    }

    // Notes that the pages that were written stand in the log, which ends behind them.
    fn settle(&mut self, end: End) -> Result<(), AllocError>
        requires sums { pair_of end.sums ≡ sums_behind self.old.log.big (pair_of self.old.log.sums) (frames_of self.old.count self.old.changed.entries) }
        requires size { end.size ≡ self.old.log.size
            + length (frames_bytes self.old.log.big (pair_of self.old.log.salt) (pair_of self.old.log.sums) (frames_of self.old.count self.old.changed.entries)) }
        ensures grows { OnOk result (Grows self.old.log self.new.log self.old.count self.old.changed.entries) }
        ensures empty { OnOk result (self.new.changed.entries ≡ []) }
        ensures count { self.new.count ≡ self.old.count }
    {
        let count = self.count;
        self.log.grow(end, count, &self.changed)?;
        self.changed.clear();
        Ok(())
    }

    /// Appends a frame of each page that was written since the last commit, and of each past the target's that has none, but for the
    /// lock-byte page; the last of them is a commit (Database File Format, section 4.1). Where the count of pages changed and there is no such page, a frame of
    /// page 1 is appended, and where neither a page nor the count changed none. Then the log is made stable. There is a page at least.
    ///
    /// After Ok the hidden log has these frames, and its overlay over the target are the store's pages, in each image too where no change of the
    /// log's name was pending and each had the shown target. No frame is then of a page past the last commit's size, where that was so before and there are no fewer
    /// pages than at the commit before. Whatever fails, each image keeps what all had of the log up to the last commit. After
    /// an Err nothing is said of the store.
    pub fn commit<D: Disk>(&mut self, alloc: Global, disk: &mut D) -> Result<(), OalFault>
        requires allowed { AllowsCommit D.Disk disk.old }
        requires some { 1 ≤ self.old.count }
        ensures done { OnOk result (Goes D.Disk disk.old disk.new (λ f g. (frames : List Frame) → KeepsLog self.old frames f → IsCommitted self.old self.new frames f g)) }
        ensures only { Goes D.Disk disk.old disk.new (OnlyChanges Oal) }
        ensures crashes { GoesOn D.Disk disk.old disk.new (CrashesCommitting self.old) }
        ensures images { OnOk result (GoesOn D.Disk disk.old disk.new (CommitsInImages self.old self.new)) }
        ensures names { GoesOn D.Disk disk.old disk.new (λ a b. IsStill Oal a.now.at → IsStill Oal b.now.at) }
        ensures whole { OnOk result ((n : ℕ) → n ≤ self.old.count → IsKnown self.new n) }
        ensures count { OnOk result (self.new.count ≡ self.old.count) }
        ensures refusal { IfErr result IsNoRefusal }
        ensures calls { OwesBy D.Disk disk_fault disk.old disk.new result }
    {
        self.fill_grown(alloc, disk)?;
        self.fill_first(alloc, disk)?;
        let end = self.write_log(disk)?;
        self.settle(end)?;
        Ok(())
    }
}
