// The log as it was at its last commit.
ghost use Rattle.std.specs.Prelude.{◌≡◌, ◌≤◌, true, drop, length};
ghost use Rattle.std.specs.BTreeMap.{get};
ghost use Rattle.std.specs.Ordering.{nat_cmp};
ghost use Rattle.byte_fields.specs.Bytes.{resized};
ghost use Rattle.file_spec.specs.Files.{content};
ghost use Rattle.rbu_disk.specs.Disk.{Looks, Owes};
ghost use Rattle.rbu_disk.specs.Uses.{Reads};
ghost use Rattle.oal_store.specs.OalLog.{logged_page, AllowsReads};

use rbu_disk::{Disk, DiskFault, FileName};
use std::collections::BTreeMap;

/// What is kept of the hidden log up to its last commit (Database File Format, section 4): what its header says, and where the last frame
/// of each page stands.
#[derive(Drop)]
pub struct OalLog {
    // Whether its checksums take their words with the most significant byte first.
    pub(crate) big: bool,
    // The size of a page in bytes.
    pub(crate) page_size: u32,
    // The bytes of a page that are not reserved.
    pub(crate) usable: u32,
    pub(crate) salt: [u32; 2],
    // The checksum behind the last frame.
    pub(crate) sums: [u32; 2],
    // The length in bytes.
    pub(crate) size: u64,
    // How many pages the target has.
    pub(crate) target_pages: u32,
    // How many pages there are after the last commit, or in the target where there is none.
    pub(crate) pages: u32,
    // The place of a page's bytes in its last frame.
    pub(crate) places: BTreeMap<u32, u64>,
}

// Fills the slice with the bytes of a file from a place on; bytes that the file does not have are zero.
fn read_zeroed<D: Disk>(
    disk: &mut D,
    file: FileName,
    at: u64,
    into: &mut [u8],
) -> Result<(), DiskFault>
    requires allowed { D.test disk.old (Reads file) ≡ true }
    ensures bytes { Looks D.Disk disk.old disk.new result (λ _ files. into.new ≡ resized (drop at (content files file)) (length into.old)) }
    ensures calls { Owes D.Disk disk.old disk.new result }
{
    into.fill(0);
    disk.read_at(file, at, into)?;
    Ok(())
}

impl OalLog {
    // The place of a page's bytes in its last frame, if it has one.
    pub(crate) fn place(&self, number: u32) -> Option<u64>
        ensures { result ≡ get nat_cmp self.now.places number }
    {
        self.places.get(&number).copied()
    }

    // Fills the slice with a page as it was at the last commit.
    pub(crate) fn read<D: Disk>(
        &self,
        disk: &mut D,
        number: u32,
        into: &mut [u8],
    ) -> Result<(), DiskFault>
        requires allowed { AllowsReads D.Disk disk.old }
        requires first { 1 ≤ number }
        requires whole { length into.old ≡ self.now.page_size }
        ensures page { Looks D.Disk disk.old disk.new result (λ _ files. into.new ≡ logged_page self.now files number) }
        ensures calls { Owes D.Disk disk.old disk.new result }
    {
        match self.place(number) {
            Some(place) => read_zeroed(disk, FileName::Oal, place, into),
            None => {
                let at = u64::from(number - 1) * u64::from(self.page_size);
                read_zeroed(disk, FileName::Target, at, into)
            }
        }
    }
}
