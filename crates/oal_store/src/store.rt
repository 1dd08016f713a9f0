// The pages of the target under a growing log.
ghost use Rattle.std.specs.Prelude.{◌≡◌, ◌<◌, ◌≤◌, ◌%◌, ◌^◌, ℕ, OnOk};
ghost use Rattle.std.specs.BTreeMap.{get};
ghost use Rattle.std.specs.Ordering.{nat_cmp};
ghost use Rattle.std.specs.List.{All};
ghost use Rattle.oal_store.specs.Changed.{IsChanged};

use crate::fault::OalFault;
use crate::log::OalLog;
use page_store::{lock_byte_page, page_buffer};
use rbu_disk::{Disk, DiskFault};
use std::alloc::{AllocError, Global};
use std::collections::BTreeMap;

/// The pages of a database under the hidden log: those of the target, over which the log's lie (Database File Format, section 4.5), and over these the
/// pages that were written since its last commit.
#[derive(Drop)]
pub struct OalStore {
    pub(crate) alloc: Global,
    // The log up to its last commit.
    pub(crate) log: OalLog,
    // How many pages there are.
    pub(crate) count: u32,
    // The pages that were written since the last commit.
    pub(crate) changed: BTreeMap<u32, Vec<u8>>,
    ghost some: { 0 < log.page_size },
    ghost words: { log.page_size % 8 ≡ 0 },
    ghost few: { count < 2 ^ 32 },
    ghost whole: { All (IsChanged log.page_size count) changed.entries },
}

impl OalStore {
    ghost use Rattle.std.specs.Prelude.{◌==◌, [], Some, IfErr, length};
    ghost use Rattle.std.specs.Bool.{OnTrue};
    ghost use Rattle.common_spec.specs.Maps.{set_at};
    ghost use Rattle.rbu_disk.specs.Disk.{Looks, Owes, OwesBy};
    ghost use Rattle.oal_store.specs.Faults.{disk_fault, IsNoRefusal};
    ghost use Rattle.oal_store.specs.OalLog.{AllowsReads};
    ghost use Rattle.oal_store.specs.Stored.{SameStore, IsKnown, HasPagesOf, changed_page, stored_pages};

    /// The length of the log up to its last commit, in bytes.
    pub fn size(&self) -> u64
        ensures { result ≡ self.now.log.size }
    {
        self.log.size
    }

    /// The log's checksum behind its last commit, or the header's where there is none (Database File Format, section 4.2).
    pub fn sums(&self) -> [u32; 2]
        ensures { result ≡ self.now.log.sums }
    {
        self.log.sums
    }

    /// How many pages there are.
    pub fn count(&self) -> u32
        ensures { result ≡ self.now.count }
    {
        self.count
    }

    // Keeps a page until the next commit.
    pub(crate) fn put(&mut self, number: u32, bytes: &[u8]) -> Result<(), AllocError>
        requires first { 1 ≤ number }
        requires within { number ≤ self.old.count }
        requires whole { length bytes.now ≡ self.old.log.page_size }
        ensures same { SameStore self.old self.new }
        ensures page { OnOk result ((n : ℕ) → changed_page self.new n ≡ set_at (λ (x y : ℕ). x == y) (changed_page self.old) number (Some bytes.now) n) }
    {
        let page = Vec::from_slice(self.alloc, bytes)?;
        self.changed.insert(number, page)?;
        Ok(())
    }

    // Whether a commit has no frame of the page to add: it is the target's, has a frame, was written, or is the lock-byte page.
    fn is_known(&self, number: u32) -> bool
        ensures { OnTrue result (IsKnown self.now number) }
    {
        number <= self.log.target_pages
            || number == lock_byte_page(self.log.page_size)
            || self.changed.contains_key(&number)
            || self.log.place(number).is_some()
    }

    // Writes a page as it is, where a commit lacks it.
    fn fill_page<D: Disk>(
        &mut self,
        disk: &mut D,
        number: u32,
        buffer: &mut [u8],
    ) -> Result<(), OalFault>
        requires allowed { AllowsReads D.Disk disk.old }
        requires first { 1 ≤ number }
        requires within { number ≤ self.old.count }
        requires whole { length buffer.old ≡ self.old.log.page_size }
        ensures same { SameStore self.old self.new }
        ensures pages { Looks D.Disk disk.old disk.new result (λ _ files. HasPagesOf self.old self.new files) }
        ensures known { OnOk result (IsKnown self.new number) }
        ensures kept { OnOk result ((n : ℕ) → IsKnown self.old n → IsKnown self.new n) }
        ensures refusal { IfErr result IsNoRefusal }
        ensures calls { OwesBy D.Disk disk_fault disk.old disk.new result }
    {
        if self.is_known(number) {
            return Ok(());
        }
        self.read(disk, number, buffer)?;
        self.put(number, buffer)?;
        Ok(())
    }

    // Writes each page past the target's that a commit lacks as it is.
    pub(crate) fn fill_grown<D: Disk>(
        &mut self,
        alloc: Global,
        disk: &mut D,
    ) -> Result<(), OalFault>
        requires allowed { AllowsReads D.Disk disk.old }
        ensures same { SameStore self.old self.new }
        ensures pages { Looks D.Disk disk.old disk.new result (λ _ files. HasPagesOf self.old self.new files) }
        ensures known { OnOk result ((n : ℕ) → n ≤ self.new.count → IsKnown self.new n) }
        ensures refusal { IfErr result IsNoRefusal }
        ensures calls { OwesBy D.Disk disk_fault disk.old disk.new result }
    {
        let mut page = page_buffer(alloc, self.log.page_size)?;
        for before in self.log.target_pages..self.count {
            self.fill_page(disk, before + 1, page.as_mut_slice())?;
        }
        Ok(())
    }

    // Writes page 1 as it is, where no page was written and the count is another than at the last commit.
    pub(crate) fn fill_first<D: Disk>(
        &mut self,
        alloc: Global,
        disk: &mut D,
    ) -> Result<(), OalFault>
        requires allowed { AllowsReads D.Disk disk.old }
        requires some { 1 ≤ self.old.count }
        ensures same { SameStore self.old self.new }
        ensures pages { Looks D.Disk disk.old disk.new result (λ _ files. HasPagesOf self.old self.new files) }
        ensures spare { OnOk result (self.new.changed.entries ≡ [] → self.new.count ≡ self.new.log.pages) }
        ensures kept { OnOk result ((n : ℕ) → IsKnown self.old n → IsKnown self.new n) }
        ensures refusal { IfErr result IsNoRefusal }
        ensures calls { OwesBy D.Disk disk_fault disk.old disk.new result }
    {
        if !self.changed.is_empty() || self.count == self.log.pages {
            return Ok(());
        }
        let mut page = page_buffer(alloc, self.log.page_size)?;
        self.read(disk, 1, page.as_mut_slice())?;
        self.put(1, page.as_slice())?;
        Ok(())
    }

    // Fills the slice with a page.
    pub(crate) fn read<D: Disk>(
        &self,
        disk: &mut D,
        number: u32,
        into: &mut [u8],
    ) -> Result<(), DiskFault>
        requires allowed { AllowsReads D.Disk disk.old }
        requires first { 1 ≤ number }
        requires whole { length into.old ≡ self.now.log.page_size }
        ensures page { Looks D.Disk disk.old disk.new result (λ _ files. into.new ≡ stored_pages self.now files number) }
        ensures calls { Owes D.Disk disk.old disk.new result }
    {
        let Some(page) = self.changed.get(&number) else {
            return self.log.read(disk, number, into);
        };
        into.copy_from_slice(page.as_slice());
        Ok(())
    }

    // Sets how many pages there are.
    pub(crate) fn resize(&mut self, count: u32) -> Result<(), AllocError>
        ensures log { self.new.log ≡ self.old.log }
        ensures count { OnOk result (self.new.count ≡ count) }
        ensures pages { OnOk result ((n : ℕ) → n ≤ count → changed_page self.new n ≡ changed_page self.old n) }
    {
        let most = self.count;
        cut_pages(&mut self.changed, most, count)?;
        self.count = count;
        Ok(())
    }
}

// Lets the pages behind the count go, where there were as many pages as `most`.
fn cut_pages(pages: &mut BTreeMap<u32, Vec<u8>>, most: u32, count: u32) -> Result<(), AllocError>
    ensures pages { OnOk result ((n : ℕ) → n ≤ count → get nat_cmp pages.new n ≡ get nat_cmp pages.old n) }
    ensures whole { OnOk result ((size : ℕ) → All (IsChanged size most) pages.old.entries → All (IsChanged size count) pages.new.entries) }
    ensures kept { (size : ℕ) → All (IsChanged size most) pages.old.entries → All (IsChanged size most) pages.new.entries }
{
    if most <= count {
        return Ok(());
    }
    let first = count + 1;
    let _rest = pages.split_off(&first)?;
    Ok(())
}
