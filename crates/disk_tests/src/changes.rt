// Changes of a disk as the rows of tables, so that one function makes them all.
ghost use Rattle.rbu_disk.specs.Disk.{AllowsAll};

use rbu_disk::{Disk, DiskFault, FileName};

/// A call that changes a disk, with what it is given.
#[derive(Clone, Copy)]
pub enum Change {
    Write(FileName, u64, &'static [u8]),
    SetLen(FileName, u64),
    Sync(FileName),
    Create(FileName),
    Remove(FileName),
    Rename(FileName, FileName),
    SyncFolder,
}

/// Makes the call.
pub fn make<D: Disk>(disk: &mut D, change: Change) -> Result<(), DiskFault>
    requires { AllowsAll D.Disk disk.old }
{
    match change {
        Change::Write(name, at, bytes) => disk.write_at(name, at, bytes),
        Change::SetLen(name, n) => disk.set_len(name, n),
        Change::Sync(name) => disk.sync(name),
        Change::Create(name) => disk.create(name),
        Change::Remove(name) => disk.remove(name),
        Change::Rename(from, to) => disk.rename(from, to),
        Change::SyncFolder => disk.sync_folder(),
    }
}
