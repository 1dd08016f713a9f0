// The disk of real files.
ghost use Rattle.std.specs.Prelude.{◌≡◌, IfOk, None};

use crate::faults::Faults;
use crate::files::HostFiles;
use crate::paths::Paths;
use rbu_disk::{Disk, DiskCall, DiskFault, FileName};
use std::alloc::{AllocError, Global};
use std::rt::Files;

/// The files of an update on the file system of `R`. What they hold is not told, and every call is allowed. A call fails
/// where the system fails it, or where a file's new end would be over 2^62.
#[derive(Drop)]
pub struct HostDisk<R: Files> {
    files: HostFiles<R>,
    faults: Faults,
}

impl<R: Files + Clone> HostDisk<R> {
    /// The files at the paths of the target, the RBU database and the state, and beside them: the target's path with `-oal`,
    /// `-wal` and `-journal`, and the state's with `-temp`.
    pub fn new(
        rt: &R,
        alloc: Global,
        target: String,
        rbu: String,
        state: String,
    ) -> Result<HostDisk<R>, AllocError>
        ensures { IfOk result (λ disk. ⟦<HostDisk<R> as Disk>⟧.failures disk ≡ record { count = 0; last = None }) }
    {
        let paths = Paths::new(alloc, target, rbu, state)?;
        Ok(HostDisk {
            files: HostFiles::new(rt.clone()?, paths),
            faults: Faults::new(),
        })
    }
}

impl<R: Files + Drop> Disk for HostDisk<R> {
    ghost use Rattle.std.specs.Prelude.{None, true, refl};

    ghost shown = { λ _. None };

    ghost trail = { λ _. None };

    ghost test = { λ _ _. true };

    ghost failures = { λ disk. disk.faults };

    fn exists(&mut self, name: FileName) -> Result<bool, DiskFault> {
        let done = self.files.exists(name);
        self.faults.answer(name, DiskCall::Exists, done)
    }

    fn len(&mut self, name: FileName) -> Result<u64, DiskFault> {
        let done = self.files.len(name);
        self.faults.answer(name, DiskCall::Len, done)
    }

    fn read_at(&mut self, name: FileName, at: u64, into: &mut [u8]) -> Result<usize, DiskFault> {
        let done = self.files.read_at(name, at, into);
        self.faults.answer(name, DiskCall::Read, done)
    }

    fn write_at(&mut self, name: FileName, at: u64, bytes: &[u8]) -> Result<(), DiskFault> {
        let done = self.files.write_at(name, at, bytes);
        self.faults.answer(name, DiskCall::Write, done)
    }

    fn set_len(&mut self, name: FileName, n: u64) -> Result<(), DiskFault> {
        let done = self.files.set_len(name, n);
        self.faults.answer(name, DiskCall::SetLen, done)
    }

    fn sync(&mut self, name: FileName) -> Result<(), DiskFault> {
        let done = self.files.sync(name);
        self.faults.answer(name, DiskCall::Sync, done)
    }

    fn create(&mut self, name: FileName) -> Result<(), DiskFault> {
        let done = self.files.create(name);
        self.faults.answer(name, DiskCall::Create, done)
    }

    fn remove(&mut self, name: FileName) -> Result<(), DiskFault> {
        let done = self.files.remove(name);
        self.faults.answer(name, DiskCall::Remove, done)
    }

    fn rename(&mut self, from: FileName, to: FileName) -> Result<(), DiskFault> {
        let done = self.files.rename(from, to);
        self.faults.answer(from, DiskCall::Rename, done)
    }

    fn sync_folder(&mut self) -> Result<(), DiskFault> {
        let done = self.files.sync_folders();
        self.faults
            .answer(FileName::Target, DiskCall::SyncFolder, done)
    }

    ghost tied = { λ disk. refl };

    ghost sound = { λ disk. tt };
}
