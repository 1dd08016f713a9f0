// The files of an update, and the calls on them.
ghost use Rattle.std.specs.Prelude.{◌≡◌, ◌≤◌, ◌<◌, ◌+◌, ◌^◌, ◌↔◌, ◌++◌, ℕ, Bool, true, Option, option_map, IsTrue, IsSome, IsErr, IfOk, IfSome, OnOk, OnErr, length, take, drop};
ghost use Rattle.file_spec.specs.declared.FileName.TheVariants.{Target};
ghost use Rattle.byte_fields.specs.Bytes.{part_of};
ghost use Rattle.file_spec.specs.Files.{Files, content, after_create, after_remove, after_rename, after_set_len, after_write};
ghost use Rattle.file_spec.specs.Faults.{AfterFailedSetLen, AfterTornWrite};
ghost use Rattle.file_spec.specs.Records.{IsSound, shown_files};
ghost use Rattle.file_spec.specs.Trails.{Trail};
ghost use Rattle.file_spec.specs.Steps.{AfterCreate, AfterFailedCreate, AfterFailedFolderSync, AfterFailedLength, AfterFailedRemove, AfterFailedRename, AfterFailedSync, AfterFailedWrite, AfterFolderSync, AfterRemove, AfterRename, AfterSetLen, AfterSync, AfterWrite};
ghost use Rattle.common_spec.specs.Told.{Finds, Leads};

use crate::{DiskCall, FileName};
use thiserror::Error;

/// A call on a disk that failed: the first file that it was given, or the target for the folder, and the call.
#[derive(Clone, Copy, Debug, PartialEq, Eq, Error)]
#[error("{call:?} of {file:?} failed")]
pub struct DiskFault {
    pub file: FileName,
    pub call: DiskCall,
}

/// The files of an update. Where the disk tells its files, `shown` is the map that its calls read and change, and `trail`
/// has the record of each moment since the disk was made, by which it is known what a crash may leave. `test` says which
/// calls the disk allows now. `failures` has the count of the calls that failed, and the fault of the last.
///
/// No call fails because of the state of a name. Lengths and places are bytes.
pub trait Disk {
    ghost use Rattle.rbu_disk.specs.Call.{Failures, HasCause, LeadsBy};
    ghost use Rattle.rbu_disk.specs.Uses.{KeepsTest, Use};
    ghost use Rattle.rbu_disk.specs.Uses.{Creates, Reads, Removes, Renames, SetsLen, Syncs, SyncsFolder, Writes};

    ghost shown: { Self → Option Files };

    ghost trail: { Self → Option Trail };

    ghost test: { Self → Use → Bool };

    ghost failures: { Self → Failures };

    /// Whether there is a file under the name.
    fn exists(&mut self, name: FileName) -> Result<bool, DiskFault>
        requires { test self.old (Reads name) ≡ true }
        ensures files { Finds (shown self.old) (shown self.new) result (λ there files. IsTrue there ↔ IsSome (files name)) }
        ensures moments { trail self.new ≡ trail self.old }
        ensures test { KeepsTest (Reads name) (test self.old) (test self.new) }
        ensures cause { HasCause (failures self.old) (failures self.new) name DiskCall.Exists result };

    /// The length of the file; 0 for a missing one.
    fn len(&mut self, name: FileName) -> Result<u64, DiskFault>
        requires { test self.old (Reads name) ≡ true }
        ensures files { Finds (shown self.old) (shown self.new) result (λ n files. n ≡ length (content files name)) }
        ensures moments { trail self.new ≡ trail self.old }
        ensures test { KeepsTest (Reads name) (test self.old) (test self.new) }
        ensures cause { HasCause (failures self.old) (failures self.new) name DiskCall.Len result };

    /// Reads from a place, fewer bytes than asked only at the file's end, and answers how many. After a fault the
    /// buffer holds any bytes.
    fn read_at(&mut self, name: FileName, at: u64, into: &mut [u8]) -> Result<usize, DiskFault>
        requires { test self.old (Reads name) ≡ true }
        ensures bound { IfOk result (λ n. n ≤ length into.old) }
        ensures rest { IfOk result (λ n. drop n into.new ≡ drop n into.old) }
        ensures files { Finds (shown self.old) (shown self.new) result (λ n files. take n into.new ≡ part_of (content files name) at (length into.old)) }
        ensures moments { trail self.new ≡ trail self.old }
        ensures test { KeepsTest (Reads name) (test self.old) (test self.new) }
        ensures cause { HasCause (failures self.old) (failures self.new) name DiskCall.Read result };

    /// Writes at a place; a missing file is made first, and zeros lie between an earlier end and the place. Fails and
    /// changes nothing where the new end would be over 2^62.
    fn write_at(&mut self, name: FileName, at: u64, bytes: &[u8]) -> Result<(), DiskFault>
        requires { test self.old (Writes name at bytes.now) ≡ true }
        ensures done { OnOk result (Leads (λ f g. g ≡ after_write f name at bytes.now) (shown self.old) (shown self.new)) }
        ensures failed { OnErr result (Leads (AfterTornWrite name at (length bytes.now)) (shown self.old) (shown self.new)) }
        ensures limit { 2 ^ 62 < at + length bytes.now → IsErr result × (shown self.new ≡ shown self.old) }
        ensures moments { LeadsBy result (AfterWrite name at bytes.now) (AfterFailedWrite name at (length bytes.now)) (trail self.old) (trail self.new) }
        ensures test { KeepsTest (Writes name at bytes.now) (test self.old) (test self.new) }
        ensures cause { HasCause (failures self.old) (failures self.new) name DiskCall.Write result };

    /// Sets the length; a missing file is made first, and new bytes are zeros. Fails and changes nothing where the
    /// length is over 2^62.
    fn set_len(&mut self, name: FileName, n: u64) -> Result<(), DiskFault>
        requires { test self.old (SetsLen name n) ≡ true }
        ensures done { OnOk result (Leads (λ f g. g ≡ after_set_len f name n) (shown self.old) (shown self.new)) }
        ensures failed { OnErr result (Leads (AfterFailedSetLen name n) (shown self.old) (shown self.new)) }
        ensures limit { 2 ^ 62 < n → IsErr result × (shown self.new ≡ shown self.old) }
        ensures moments { LeadsBy result (AfterSetLen name n) (AfterFailedLength name n) (trail self.old) (trail self.new) }
        ensures test { KeepsTest (SetsLen name n) (test self.old) (test self.new) }
        ensures cause { HasCause (failures self.old) (failures self.new) name DiskCall.SetLen result };

    /// Makes the file's bytes and length stable.
    fn sync(&mut self, name: FileName) -> Result<(), DiskFault>
        requires { test self.old (Syncs name) ≡ true }
        ensures same { shown self.new ≡ shown self.old }
        ensures moments { LeadsBy result (AfterSync name) (AfterFailedSync name) (trail self.old) (trail self.new) }
        ensures test { KeepsTest (Syncs name) (test self.old) (test self.new) }
        ensures cause { HasCause (failures self.old) (failures self.new) name DiskCall.Sync result };

    /// Makes an empty file where there is none.
    fn create(&mut self, name: FileName) -> Result<(), DiskFault>
        requires { test self.old (Creates name) ≡ true }
        ensures done { OnOk result (Leads (λ f g. g ≡ after_create f name) (shown self.old) (shown self.new)) }
        ensures failed { OnErr result (shown self.new ≡ shown self.old) }
        ensures moments { LeadsBy result (AfterCreate name) (AfterFailedCreate name) (trail self.old) (trail self.new) }
        ensures test { KeepsTest (Creates name) (test self.old) (test self.new) }
        ensures cause { HasCause (failures self.old) (failures self.new) name DiskCall.Create result };

    /// Removes the file where there is one.
    fn remove(&mut self, name: FileName) -> Result<(), DiskFault>
        requires { test self.old (Removes name) ≡ true }
        ensures done { OnOk result (Leads (λ f g. g ≡ after_remove f name) (shown self.old) (shown self.new)) }
        ensures failed { OnErr result (shown self.new ≡ shown self.old) }
        ensures moments { LeadsBy result (AfterRemove name) (AfterFailedRemove name) (trail self.old) (trail self.new) }
        ensures test { KeepsTest (Removes name) (test self.old) (test self.new) }
        ensures cause { HasCause (failures self.old) (failures self.new) name DiskCall.Remove result };

    /// Gives the file another name, in place of what that had. A missing file changes nothing.
    fn rename(&mut self, from: FileName, to: FileName) -> Result<(), DiskFault>
        requires { test self.old (Renames from to) ≡ true }
        ensures done { OnOk result (Leads (λ f g. g ≡ after_rename f from to) (shown self.old) (shown self.new)) }
        ensures failed { OnErr result (shown self.new ≡ shown self.old) }
        ensures moments { LeadsBy result (AfterRename from to) (AfterFailedRename from) (trail self.old) (trail self.new) }
        ensures test { KeepsTest (Renames from to) (test self.old) (test self.new) }
        ensures cause { HasCause (failures self.old) (failures self.new) from DiskCall.Rename result };

    /// Makes the names of the files stable.
    fn sync_folder(&mut self) -> Result<(), DiskFault>
        requires { test self.old SyncsFolder ≡ true }
        ensures same { shown self.new ≡ shown self.old }
        ensures moments { LeadsBy result AfterFolderSync AfterFailedFolderSync (trail self.old) (trail self.new) }
        ensures test { KeepsTest SyncsFolder (test self.old) (test self.new) }
        ensures cause { HasCause (failures self.old) (failures self.new) Target DiskCall.SyncFolder result };

    ghost tied: { (disk : Self) → shown disk ≡ option_map (λ t. shown_files t.now.at) (trail disk) };

    ghost sound: { (disk : Self) → IfSome (trail disk) (λ t. IsSound t.now.at) };
}
