// A disk in memory.
ghost use Rattle.std.specs.Prelude.{◌≡◌, ◌≤◌, ◌<◌, ◌+◌, ◌^◌, ◌++◌, ◌||◌, ◌↔◌, [], IsTrue, IsSome, IsErr, IfOk, OnOk, OnErr, None, Some, is_err, length, take, drop, map, option_map};
ghost use Rattle.file_spec.specs.declared.FileName.TheVariants.{Target};
ghost use Rattle.byte_fields.specs.Bytes.{part_of};
ghost use Rattle.file_spec.specs.Files.{after_create, after_remove, after_rename, after_set_len, after_write, content};
ghost use Rattle.file_spec.specs.Records.{IsImage};
ghost use Rattle.file_spec.specs.Steps.{AfterCrash, AfterCreate, AfterFolderSync, AfterRemove, AfterRename, AfterSetLen, AfterSync, AfterWrite};
ghost use Rattle.rbu_disk.specs.Call.{HasCause};
ghost use Rattle.common_spec.specs.Counts.{one_more};
ghost use Rattle.disk_memory.specs.Calls.{CountsRefusal, after_call, is_listed};
ghost use Rattle.disk_memory.specs.Volume.{files_at, first_entries, trail_of};
ghost use Rattle.disk_memory.specs.Crash.{LeavesBy};
ghost use Rattle.disk_memory.specs.Disk.{failures_of, files_of, is_over_limit};

use crate::calls::Calls;
use crate::file::copy_part;
use crate::volume::Volume;
use rbu_disk::{Disk, DiskCall, DiskFault, FileName};
use std::alloc::{AllocError, Global};
use std::marker::Model;

/// The greatest length of a file, in bytes.
const LIMIT: u64 = 1 << 62;

/// A disk in memory, whose calls fail where their numbers stand in a list or no memory is found. `exists`, `len` and
/// `read_at` take no memory. A call that fails changes no file, and adds no moment to the trail.
#[derive(Drop)]
pub struct MemoryDisk {
    volume: Volume,
    calls: Calls,
    last_fault: Option<DiskFault>,
}

impl Model for MemoryDisk {
    ghost use Rattle.disk_memory.specs.Disk.{DiskState};

    ghost Value = { DiskState };

    ghost view = { λ disk. record { volume = disk.volume; counts = disk.calls; last_fault = disk.last_fault } };
}

/// Whether an end is over the greatest length of a file.
fn exceeds_limit(at: u64, len: u64) -> bool
    ensures { result ≡ is_over_limit (at + len) }
{
    at > LIMIT || len > LIMIT - at
}

impl MemoryDisk {
    /// A disk with these files; of two entries with one name the first counts. The calls whose numbers from 0 stand
    /// in the list fail. Takes no memory.
    pub fn new(alloc: Global, files: Vec<(FileName, Vec<u8>)>, fail_list: Vec<u64>) -> MemoryDisk
        ensures start { files_at result.volume.start ≡ first_entries (map (λ entry. (entry.0, entry.1.items)) files.items) }
        ensures steps { result.volume.steps ≡ [] }
        ensures files { files_of result ≡ first_entries (map (λ entry. (entry.0, entry.1.items)) files.items) }
        ensures counts { result.counts ≡ record { fail_list = fail_list.items; calls = 0; faults = 0; refused = 0 } }
        ensures none { result.last_fault ≡ None }
    {
        MemoryDisk {
            volume: Volume::new(alloc, files),
            calls: Calls::new(fail_list),
            last_fault: None,
        }
    }

    /// The bytes under the name, or nothing for a missing file.
    pub fn contents(&self, name: FileName) -> Option<&[u8]>
        ensures { option_map (λ bytes. bytes.now) result ≡ files_of self.now name }
    {
        self.volume.contents(name)
    }

    /// A disk as a crash leaves it. With k changes of names pending, it keeps the first `choice mod (k + 1)`; by
    /// `(choice / (k + 1)) mod 3` the pending ranges hold the bytes of the last sync (zero past their end), the shown
    /// bytes, or 0xA5; each length is the shown one. None of its calls are to fail.
    pub fn crash(&self, alloc: Global, choice: u64) -> Result<MemoryDisk, AllocError>
        ensures left { IfOk result (λ disk. LeavesBy choice (trail_of self.now.volume).now.at (files_of disk)) }
        ensures image { IfOk result (λ disk. IsImage (trail_of self.now.volume).now.at (files_of disk)) }
        ensures trail { IfOk result (λ disk. AfterCrash (trail_of self.now.volume) (trail_of disk.volume)) }
        ensures counts { IfOk result (λ disk. disk.counts ≡ record { fail_list = []; calls = 0; faults = 0; refused = 0 }) }
        ensures none { IfOk result (λ disk. disk.last_fault ≡ None) }
    {
        Ok(MemoryDisk {
            volume: self.volume.crash(alloc, choice)?,
            calls: Calls::new(Vec::new(alloc)),
            last_fault: None,
        })
    }

    /// How many calls found no memory. It stands still at the last value of 64 bits.
    pub fn refused(&self) -> u64
        ensures { result ≡ self.now.counts.refused }
    {
        self.calls.refused()
    }

    /// The bytes under the name; a missing file has none.
    fn bytes_of(&self, name: FileName) -> &[u8]
        ensures { result.now ≡ content (files_of self.now) name }
    {
        match self.contents(name) {
            Some(bytes) => bytes,
            None => &[],
        }
    }

    /// Keeps the fault of a call that failed, and gives it.
    fn keep_fault(&mut self, file: FileName, call: DiskCall) -> DiskFault
        ensures value { result ≡ record { file = file; call = call } }
        ensures kept { self.new ≡ record self.old { last_fault = Some result } }
    {
        let fault = DiskFault { file, call };
        self.last_fault = Some(fault);
        fault
    }

    /// Counts a call, which fails where its number stands in the list.
    fn count_call(&mut self, file: FileName, call: DiskCall) -> Result<(), DiskFault>
        ensures fails { is_err result ≡ is_listed self.old.counts }
        ensures same { self.new.volume ≡ self.old.volume }
        ensures counts { self.new.counts ≡ after_call (is_err result) self.old.counts }
        ensures cause { HasCause (failures_of self.old) (failures_of self.new) file call result }
    {
        if self.calls.is_to_fail() {
            Err(self.keep_fault(file, call))
        } else {
            Ok(())
        }
    }

    /// Counts a call that sets an end, which fails where its number stands in the list or the end is over the limit.
    fn count_growth(
        &mut self,
        file: FileName,
        call: DiskCall,
        over_limit: bool,
    ) -> Result<(), DiskFault>
        ensures fails { is_err result ≡ (is_listed self.old.counts || over_limit) }
        ensures same { self.new.volume ≡ self.old.volume }
        ensures counts { self.new.counts ≡ after_call (is_err result) self.old.counts }
        ensures cause { HasCause (failures_of self.old) (failures_of self.new) file call result }
    {
        self.count_call(file, call)?;
        if over_limit {
            self.calls.count_fault();
            return Err(self.keep_fault(file, call));
        }
        Ok(())
    }

    /// Counts that the call that was counted last found no memory, and gives its fault.
    fn count_refusal(&mut self, file: FileName, call: DiskCall) -> DiskFault
        ensures value { result ≡ record { file = file; call = call } }
        ensures same { self.new.volume ≡ self.old.volume }
        ensures counts { self.new.counts ≡ record self.old.counts { faults = one_more self.old.counts.faults; refused = one_more self.old.counts.refused } }
        ensures later { self.old.counts.faults ≤ self.new.counts.faults }
        ensures kept { self.new.last_fault ≡ Some result }
    {
        self.calls.count_refusal();
        self.keep_fault(file, call)
    }
}

impl Disk for MemoryDisk {
    ghost use Rattle.std.specs.Prelude.{refl, true};
    ghost use Rattle.disk_memory.specs.VolumeLaws.{sound-trail};

    ghost shown = { λ disk. Some (files_of disk) };

    ghost trail = { λ disk. Some (trail_of disk.volume) };

    ghost test = { λ _ _. true };

    ghost failures = { failures_of };

    fn exists(&mut self, name: FileName) -> Result<bool, DiskFault>
        ensures answer { IfOk result (λ there. IsTrue there ↔ IsSome (files_of self.old name)) }
        ensures same { self.new.volume ≡ self.old.volume }
        ensures fails { is_err result ≡ is_listed self.old.counts }
        ensures counts { self.new.counts ≡ after_call (is_err result) self.old.counts }
        ensures cause { HasCause (failures_of self.old) (failures_of self.new) name DiskCall.Exists result }
    {
        self.count_call(name, DiskCall::Exists)?;
        Ok(self.contents(name).is_some())
    }

    fn len(&mut self, name: FileName) -> Result<u64, DiskFault>
        ensures answer { IfOk result (λ n. n ≡ length (content (files_of self.old) name)) }
        ensures same { self.new.volume ≡ self.old.volume }
        ensures fails { is_err result ≡ is_listed self.old.counts }
        ensures counts { self.new.counts ≡ after_call (is_err result) self.old.counts }
        ensures cause { HasCause (failures_of self.old) (failures_of self.new) name DiskCall.Len result }
    {
        self.count_call(name, DiskCall::Len)?;
        Ok(self.bytes_of(name).len() as u64)
    }

    /// After a fault the buffer is as it was.
    fn read_at(&mut self, name: FileName, at: u64, into: &mut [u8]) -> Result<usize, DiskFault>
        ensures bound { IfOk result (λ n. n ≤ length into.old) }
        ensures copied { IfOk result (λ n. take n into.new ≡ part_of (content (files_of self.old) name) at (length into.old)) }
        ensures rest { IfOk result (λ n. drop n into.new ≡ drop n into.old) }
        ensures failed { OnErr result (into.new ≡ into.old) }
        ensures same { self.new.volume ≡ self.old.volume }
        ensures fails { is_err result ≡ is_listed self.old.counts }
        ensures counts { self.new.counts ≡ after_call (is_err result) self.old.counts }
        ensures cause { HasCause (failures_of self.old) (failures_of self.new) name DiskCall.Read result }
    {
        self.count_call(name, DiskCall::Read)?;
        Ok(copy_part(self.bytes_of(name), at, into))
    }

    fn write_at(&mut self, name: FileName, at: u64, bytes: &[u8]) -> Result<(), DiskFault>
        ensures done { OnOk result (files_of self.new ≡ after_write (files_of self.old) name at bytes.now) }
        ensures moments { OnOk result (AfterWrite name at bytes.now (trail_of self.old.volume) (trail_of self.new.volume)) }
        ensures failed { OnErr result (self.new.volume ≡ self.old.volume) }
        ensures limit { 2 ^ 62 < at + length bytes.now → IsErr result }
        ensures counts { CountsRefusal (is_listed self.old.counts || is_over_limit (at + length bytes.now)) (is_err result) self.old.counts self.new.counts }
        ensures cause { HasCause (failures_of self.old) (failures_of self.new) name DiskCall.Write result }
    {
        self.count_growth(name, DiskCall::Write, exceeds_limit(at, bytes.len() as u64))?;
        match self.volume.write(name, at, bytes) {
            Ok(()) => Ok(()),
            Err(_) => Err(self.count_refusal(name, DiskCall::Write)),
        }
    }

    fn set_len(&mut self, name: FileName, n: u64) -> Result<(), DiskFault>
        ensures done { OnOk result (files_of self.new ≡ after_set_len (files_of self.old) name n) }
        ensures moments { OnOk result (AfterSetLen name n (trail_of self.old.volume) (trail_of self.new.volume)) }
        ensures failed { OnErr result (self.new.volume ≡ self.old.volume) }
        ensures limit { 2 ^ 62 < n → IsErr result }
        ensures counts { CountsRefusal (is_listed self.old.counts || is_over_limit n) (is_err result) self.old.counts self.new.counts }
        ensures cause { HasCause (failures_of self.old) (failures_of self.new) name DiskCall.SetLen result }
    {
        self.count_growth(name, DiskCall::SetLen, exceeds_limit(n, 0))?;
        match self.volume.set_len(name, n) {
            Ok(()) => Ok(()),
            Err(_) => Err(self.count_refusal(name, DiskCall::SetLen)),
        }
    }

    fn sync(&mut self, name: FileName) -> Result<(), DiskFault>
        ensures same { files_of self.new ≡ files_of self.old }
        ensures moments { OnOk result (AfterSync name (trail_of self.old.volume) (trail_of self.new.volume)) }
        ensures failed { OnErr result (self.new.volume ≡ self.old.volume) }
        ensures counts { CountsRefusal (is_listed self.old.counts) (is_err result) self.old.counts self.new.counts }
        ensures cause { HasCause (failures_of self.old) (failures_of self.new) name DiskCall.Sync result }
    {
        self.count_call(name, DiskCall::Sync)?;
        match self.volume.sync(name) {
            Ok(()) => Ok(()),
            Err(_) => Err(self.count_refusal(name, DiskCall::Sync)),
        }
    }

    fn create(&mut self, name: FileName) -> Result<(), DiskFault>
        ensures done { OnOk result (files_of self.new ≡ after_create (files_of self.old) name) }
        ensures moments { OnOk result (AfterCreate name (trail_of self.old.volume) (trail_of self.new.volume)) }
        ensures failed { OnErr result (self.new.volume ≡ self.old.volume) }
        ensures counts { CountsRefusal (is_listed self.old.counts) (is_err result) self.old.counts self.new.counts }
        ensures cause { HasCause (failures_of self.old) (failures_of self.new) name DiskCall.Create result }
    {
        self.count_call(name, DiskCall::Create)?;
        match self.volume.create(name) {
            Ok(()) => Ok(()),
            Err(_) => Err(self.count_refusal(name, DiskCall::Create)),
        }
    }

    fn remove(&mut self, name: FileName) -> Result<(), DiskFault>
        ensures done { OnOk result (files_of self.new ≡ after_remove (files_of self.old) name) }
        ensures moments { OnOk result (AfterRemove name (trail_of self.old.volume) (trail_of self.new.volume)) }
        ensures failed { OnErr result (self.new.volume ≡ self.old.volume) }
        ensures counts { CountsRefusal (is_listed self.old.counts) (is_err result) self.old.counts self.new.counts }
        ensures cause { HasCause (failures_of self.old) (failures_of self.new) name DiskCall.Remove result }
    {
        self.count_call(name, DiskCall::Remove)?;
        match self.volume.remove(name) {
            Ok(()) => Ok(()),
            Err(_) => Err(self.count_refusal(name, DiskCall::Remove)),
        }
    }

    fn rename(&mut self, from: FileName, to: FileName) -> Result<(), DiskFault>
        ensures done { OnOk result (files_of self.new ≡ after_rename (files_of self.old) from to) }
        ensures moments { OnOk result (AfterRename from to (trail_of self.old.volume) (trail_of self.new.volume)) }
        ensures failed { OnErr result (self.new.volume ≡ self.old.volume) }
        ensures counts { CountsRefusal (is_listed self.old.counts) (is_err result) self.old.counts self.new.counts }
        ensures cause { HasCause (failures_of self.old) (failures_of self.new) from DiskCall.Rename result }
    {
        self.count_call(from, DiskCall::Rename)?;
        match self.volume.rename(from, to) {
            Ok(()) => Ok(()),
            Err(_) => Err(self.count_refusal(from, DiskCall::Rename)),
        }
    }

    fn sync_folder(&mut self) -> Result<(), DiskFault>
        ensures same { files_of self.new ≡ files_of self.old }
        ensures moments { OnOk result (AfterFolderSync (trail_of self.old.volume) (trail_of self.new.volume)) }
        ensures failed { OnErr result (self.new.volume ≡ self.old.volume) }
        ensures counts { CountsRefusal (is_listed self.old.counts) (is_err result) self.old.counts self.new.counts }
        ensures cause { HasCause (failures_of self.old) (failures_of self.new) Target DiskCall.SyncFolder result }
    {
        self.count_call(FileName::Target, DiskCall::SyncFolder)?;
        match self.volume.sync_folder() {
            Ok(()) => Ok(()),
            Err(_) => Err(self.count_refusal(FileName::Target, DiskCall::SyncFolder)),
        }
    }

    ghost tied = { λ disk. refl };

    ghost sound = { λ disk. sound-trail disk.volume };
}
