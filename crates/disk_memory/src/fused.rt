// A disk that fails from some call on.
ghost use Rattle.std.specs.Prelude.{◌≡◌, ◌≤◌, ◌<◌, ◌+◌, ◌-◌, ◌^◌, ◌↔◌, ◌==◌, true, IsTrue, IsSome, IsErr, IfOk, OnOk, OnErr, None, is_err, length, take, drop};
ghost use Rattle.file_spec.specs.declared.FileName.TheVariants.{Target};
ghost use Rattle.byte_fields.specs.Bytes.{part_of};
ghost use Rattle.file_spec.specs.Files.{after_create, after_remove, after_rename, after_set_len, after_write, content};
ghost use Rattle.file_spec.specs.Faults.{AfterFailedSetLen, AfterTornWrite};
ghost use Rattle.file_spec.specs.Steps.{AfterCreate, AfterFailedCreate, AfterFailedFolderSync, AfterFailedLength, AfterFailedRemove, AfterFailedRename, AfterFailedSync, AfterFailedWrite, AfterFolderSync, AfterRemove, AfterRename, AfterSetLen, AfterSync, AfterWrite};
ghost use Rattle.common_spec.specs.Counts.{CountsFaults, one_more};
ghost use Rattle.common_spec.specs.Told.{Finds, Leads};
ghost use Rattle.rbu_disk.specs.Call.{Failures, Fails, HasCause, LeadsBy};
ghost use Rattle.rbu_disk.specs.Disk.{AllowsAll};
ghost use Rattle.rbu_disk.specs.Uses.{KeepsTest, Creates, Reads, Removes, Renames, SetsLen, Syncs, SyncsFolder, Writes};
ghost use Rattle.disk_memory.specs.Fused.{PassesOrFails, fused_failures};

use rbu_disk::{Disk, DiskCall, DiskFault, FileName};
use std::marker::Model;

/// A disk that passes so many calls to another disk, and then fails every call. It tells what that disk tells.
#[derive(Drop)]
pub struct FusedDisk<D> {
    disk: D,
    left: u64,
    faults: u64,
    last_fault: Option<DiskFault>,
}

impl<D> Model for FusedDisk<D> {
    ghost use Rattle.disk_memory.specs.Fused.{FusedState};

    ghost Value = { FusedState D };

    ghost view = { λ f. record { disk = f.disk; left = f.left; faults = f.faults; last_fault = f.last_fault } };
}

impl<D: Disk + Drop> FusedDisk<D> {
    /// Passes `calls` calls to the disk, and then fails every call.
    pub fn new(disk: D, calls: u64) -> FusedDisk<D>
        requires allowed { AllowsAll D.Disk disk }
        ensures { result ≡ record { disk = disk; left = calls; faults = 0; last_fault = None } }
    {
        FusedDisk {
            disk,
            left: calls,
            faults: 0,
            last_fault: None,
        }
    }

    /// Gives the disk back.
    pub fn into_inner(self) -> D
        ensures { result ≡ self.disk }
    {
        self.disk
    }

    /// Keeps the fault of a call that failed, and counts it.
    fn keep_fault(&mut self, fault: DiskFault)
        ensures kept { self.new ≡ record self.old { faults = one_more self.old.faults; last_fault = Some fault } }
        ensures later { self.old.faults ≤ self.new.faults }
    {
        self.faults = self.faults.saturating_add(1);
        self.last_fault = Some(fault);
    }

    /// Takes a call off those that are left, and fails where none is.
    fn take_call(&mut self, file: FileName, call: DiskCall) -> Result<(), DiskFault>
        ensures fails { is_err result ≡ (self.old.left == 0) }
        ensures same { self.new.disk ≡ self.old.disk }
        ensures left { self.new.left ≡ self.old.left - 1 }
        ensures cause { HasCause (fused_failures self.old) (fused_failures self.new) file call result }
    {
        if self.left > 0 {
            self.left -= 1;
            return Ok(());
        }
        let fault = DiskFault { file, call };
        self.keep_fault(fault);
        Err(fault)
    }

    /// Keeps the fault of a call that was passed on, if it failed.
    fn keep<T: Drop>(&mut self, done: Result<T, DiskFault>) -> Result<T, DiskFault>
        ensures value { result ≡ done }
        ensures same { self.new.disk ≡ self.old.disk }
        ensures left { self.new.left ≡ self.old.left }
        ensures counts { CountsFaults (λ (failures : Failures). failures.count) Fails (fused_failures self.old) (fused_failures self.new) result }
    {
        match done {
            Ok(value) => Ok(value),
            Err(fault) => {
                self.keep_fault(fault);
                Err(fault)
            }
        }
    }
}

impl<D: Disk + Drop> Disk for FusedDisk<D> {
    ghost shown = { λ f. D.shown f.disk };

    ghost trail = { λ f. D.trail f.disk };

    ghost test = { λ f. D.test f.disk };

    ghost failures = { fused_failures };

    fn exists(&mut self, name: FileName) -> Result<bool, DiskFault>
        requires { D.test self.old.disk (Reads name) ≡ true }
        ensures files { Finds (D.shown self.old.disk) (D.shown self.new.disk) result (λ there files. IsTrue there ↔ IsSome (files name)) }
        ensures moments { D.trail self.new.disk ≡ D.trail self.old.disk }
        ensures test { KeepsTest (Reads name) (D.test self.old.disk) (D.test self.new.disk) }
        ensures cause { HasCause (fused_failures self.old) (fused_failures self.new) name DiskCall.Exists result }
        ensures fuse { PassesOrFails D.Disk self.old self.new result }
    {
        self.take_call(name, DiskCall::Exists)?;
        let there = self.disk.exists(name);
        self.keep(there)
    }

    fn len(&mut self, name: FileName) -> Result<u64, DiskFault>
        requires { D.test self.old.disk (Reads name) ≡ true }
        ensures files { Finds (D.shown self.old.disk) (D.shown self.new.disk) result (λ n files. n ≡ length (content files name)) }
        ensures moments { D.trail self.new.disk ≡ D.trail self.old.disk }
        ensures test { KeepsTest (Reads name) (D.test self.old.disk) (D.test self.new.disk) }
        ensures cause { HasCause (fused_failures self.old) (fused_failures self.new) name DiskCall.Len result }
        ensures fuse { PassesOrFails D.Disk self.old self.new result }
    {
        self.take_call(name, DiskCall::Len)?;
        let len = self.disk.len(name);
        self.keep(len)
    }

    fn read_at(&mut self, name: FileName, at: u64, into: &mut [u8]) -> Result<usize, DiskFault>
        requires { D.test self.old.disk (Reads name) ≡ true }
        ensures bound { IfOk result (λ n. n ≤ length into.old) }
        ensures rest { IfOk result (λ n. drop n into.new ≡ drop n into.old) }
        ensures files { Finds (D.shown self.old.disk) (D.shown self.new.disk) result (λ n files. take n into.new ≡ part_of (content files name) at (length into.old)) }
        ensures moments { D.trail self.new.disk ≡ D.trail self.old.disk }
        ensures test { KeepsTest (Reads name) (D.test self.old.disk) (D.test self.new.disk) }
        ensures cause { HasCause (fused_failures self.old) (fused_failures self.new) name DiskCall.Read result }
        ensures fuse { PassesOrFails D.Disk self.old self.new result }
    {
        self.take_call(name, DiskCall::Read)?;
        let n = self.disk.read_at(name, at, into);
        self.keep(n)
    }

    fn write_at(&mut self, name: FileName, at: u64, bytes: &[u8]) -> Result<(), DiskFault>
        requires { D.test self.old.disk (Writes name at bytes.now) ≡ true }
        ensures done { OnOk result (Leads (λ f g. g ≡ after_write f name at bytes.now) (D.shown self.old.disk) (D.shown self.new.disk)) }
        ensures failed { OnErr result (Leads (AfterTornWrite name at (length bytes.now)) (D.shown self.old.disk) (D.shown self.new.disk)) }
        ensures limit { 2 ^ 62 < at + length bytes.now → IsErr result × (D.shown self.new.disk ≡ D.shown self.old.disk) }
        ensures moments { LeadsBy result (AfterWrite name at bytes.now) (AfterFailedWrite name at (length bytes.now)) (D.trail self.old.disk) (D.trail self.new.disk) }
        ensures test { KeepsTest (Writes name at bytes.now) (D.test self.old.disk) (D.test self.new.disk) }
        ensures cause { HasCause (fused_failures self.old) (fused_failures self.new) name DiskCall.Write result }
        ensures fuse { PassesOrFails D.Disk self.old self.new result }
    {
        self.take_call(name, DiskCall::Write)?;
        let done = self.disk.write_at(name, at, bytes);
        self.keep(done)
    }

    fn set_len(&mut self, name: FileName, n: u64) -> Result<(), DiskFault>
        requires { D.test self.old.disk (SetsLen name n) ≡ true }
        ensures done { OnOk result (Leads (λ f g. g ≡ after_set_len f name n) (D.shown self.old.disk) (D.shown self.new.disk)) }
        ensures failed { OnErr result (Leads (AfterFailedSetLen name n) (D.shown self.old.disk) (D.shown self.new.disk)) }
        ensures limit { 2 ^ 62 < n → IsErr result × (D.shown self.new.disk ≡ D.shown self.old.disk) }
        ensures moments { LeadsBy result (AfterSetLen name n) (AfterFailedLength name n) (D.trail self.old.disk) (D.trail self.new.disk) }
        ensures test { KeepsTest (SetsLen name n) (D.test self.old.disk) (D.test self.new.disk) }
        ensures cause { HasCause (fused_failures self.old) (fused_failures self.new) name DiskCall.SetLen result }
        ensures fuse { PassesOrFails D.Disk self.old self.new result }
    {
        self.take_call(name, DiskCall::SetLen)?;
        let done = self.disk.set_len(name, n);
        self.keep(done)
    }

    fn sync(&mut self, name: FileName) -> Result<(), DiskFault>
        requires { D.test self.old.disk (Syncs name) ≡ true }
        ensures same { D.shown self.new.disk ≡ D.shown self.old.disk }
        ensures moments { LeadsBy result (AfterSync name) (AfterFailedSync name) (D.trail self.old.disk) (D.trail self.new.disk) }
        ensures test { KeepsTest (Syncs name) (D.test self.old.disk) (D.test self.new.disk) }
        ensures cause { HasCause (fused_failures self.old) (fused_failures self.new) name DiskCall.Sync result }
        ensures fuse { PassesOrFails D.Disk self.old self.new result }
    {
        self.take_call(name, DiskCall::Sync)?;
        let done = self.disk.sync(name);
        self.keep(done)
    }

    fn create(&mut self, name: FileName) -> Result<(), DiskFault>
        requires { D.test self.old.disk (Creates name) ≡ true }
        ensures done { OnOk result (Leads (λ f g. g ≡ after_create f name) (D.shown self.old.disk) (D.shown self.new.disk)) }
        ensures failed { OnErr result (D.shown self.new.disk ≡ D.shown self.old.disk) }
        ensures moments { LeadsBy result (AfterCreate name) (AfterFailedCreate name) (D.trail self.old.disk) (D.trail self.new.disk) }
        ensures test { KeepsTest (Creates name) (D.test self.old.disk) (D.test self.new.disk) }
        ensures cause { HasCause (fused_failures self.old) (fused_failures self.new) name DiskCall.Create result }
        ensures fuse { PassesOrFails D.Disk self.old self.new result }
    {
        self.take_call(name, DiskCall::Create)?;
        let done = self.disk.create(name);
        self.keep(done)
    }

    fn remove(&mut self, name: FileName) -> Result<(), DiskFault>
        requires { D.test self.old.disk (Removes name) ≡ true }
        ensures done { OnOk result (Leads (λ f g. g ≡ after_remove f name) (D.shown self.old.disk) (D.shown self.new.disk)) }
        ensures failed { OnErr result (D.shown self.new.disk ≡ D.shown self.old.disk) }
        ensures moments { LeadsBy result (AfterRemove name) (AfterFailedRemove name) (D.trail self.old.disk) (D.trail self.new.disk) }
        ensures test { KeepsTest (Removes name) (D.test self.old.disk) (D.test self.new.disk) }
        ensures cause { HasCause (fused_failures self.old) (fused_failures self.new) name DiskCall.Remove result }
        ensures fuse { PassesOrFails D.Disk self.old self.new result }
    {
        self.take_call(name, DiskCall::Remove)?;
        let done = self.disk.remove(name);
        self.keep(done)
    }

    fn rename(&mut self, from: FileName, to: FileName) -> Result<(), DiskFault>
        requires { D.test self.old.disk (Renames from to) ≡ true }
        ensures done { OnOk result (Leads (λ f g. g ≡ after_rename f from to) (D.shown self.old.disk) (D.shown self.new.disk)) }
        ensures failed { OnErr result (D.shown self.new.disk ≡ D.shown self.old.disk) }
        ensures moments { LeadsBy result (AfterRename from to) (AfterFailedRename from) (D.trail self.old.disk) (D.trail self.new.disk) }
        ensures test { KeepsTest (Renames from to) (D.test self.old.disk) (D.test self.new.disk) }
        ensures cause { HasCause (fused_failures self.old) (fused_failures self.new) from DiskCall.Rename result }
        ensures fuse { PassesOrFails D.Disk self.old self.new result }
    {
        self.take_call(from, DiskCall::Rename)?;
        let done = self.disk.rename(from, to);
        self.keep(done)
    }

    fn sync_folder(&mut self) -> Result<(), DiskFault>
        requires { D.test self.old.disk SyncsFolder ≡ true }
        ensures same { D.shown self.new.disk ≡ D.shown self.old.disk }
        ensures moments { LeadsBy result AfterFolderSync AfterFailedFolderSync (D.trail self.old.disk) (D.trail self.new.disk) }
        ensures test { KeepsTest SyncsFolder (D.test self.old.disk) (D.test self.new.disk) }
        ensures cause { HasCause (fused_failures self.old) (fused_failures self.new) Target DiskCall.SyncFolder result }
        ensures fuse { PassesOrFails D.Disk self.old self.new result }
    {
        self.take_call(FileName::Target, DiskCall::SyncFolder)?;
        let done = self.disk.sync_folder();
        self.keep(done)
    }

    ghost tied = { λ f. D.tied f.disk };

    ghost sound = { λ f. D.sound f.disk };
}
