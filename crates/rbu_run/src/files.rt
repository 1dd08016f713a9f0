// What is read of the files before anything is changed.
ghost use Rattle.std.specs.Prelude.{◌≡◌, ◌≢◌, ◌≤◌, ◌-◌, ◌↔◌, length, drop, replicate, IsTrue, IfOk, MatchOption};
ghost use Rattle.byte_fields.specs.Bytes.{resized};
ghost use Rattle.file_spec.specs.Files.{content};
ghost use Rattle.rbu_disk.specs.Disk.{AllowsAll, Looks, Owes, OwesBy};
ghost use Rattle.small_spec.specs.SmallUpdate.{HasOtherFile};
ghost use Rattle.rbu_query.specs.Answers.{fault_in};

use rbu_disk::{Disk, DiskFault, FileName};
use rbu_query::Halt;
use std::alloc::{AllocError, Global};

/// The length in bytes of a database that can be updated today.
pub const SMALL: usize = 8192;

/// Whether a file of a running update, or a rollback journal, exists.
pub fn has_other_file<D: Disk>(disk: &mut D) -> Result<bool, DiskFault>
    requires allowed { AllowsAll D.Disk disk.old }
    ensures files { Looks D.Disk disk.old disk.new result (λ there f. IsTrue there ↔ HasOtherFile f) }
    ensures calls { Owes D.Disk disk.old disk.new result }
{
    Ok(
        disk.exists(FileName::State)?
            || disk.exists(FileName::StateTemp)?
            || disk.exists(FileName::Wal)?
            || disk.exists(FileName::Oal)?
            || disk.exists(FileName::Journal)?,
    )
}

fn zeros(alloc: Global, n: usize) -> Result<Vec<u8>, AllocError>
    ensures zeros { IfOk result (λ v. v.items ≡ replicate (length v.items) 0) }
    ensures long { IfOk result (λ v. length v.items ≡ n) }
{
    vec![in alloc; 0; n]
}

/// Fills a buffer of zeros with the first bytes of a file, and answers how many it gave. Those that it did not give,
/// though its length promised them, stay zero.
fn read_whole<D: Disk>(disk: &mut D, name: FileName, into: &mut [u8]) -> Result<usize, DiskFault>
    requires allowed { AllowsAll D.Disk disk.old }
    requires zeros { into.old ≡ replicate (length into.old) 0 }
    ensures files { Looks D.Disk disk.old disk.new result (λ _ f. into.new ≡ resized (content f name) (length into.old)) }
    ensures bound { IfOk result (λ n. n ≤ length into.old) }
    ensures missing { IfOk result (λ n. drop n into.new ≡ replicate (length into.old - n) 0) }
    ensures calls { Owes D.Disk disk.old disk.new result }
{
    let n = disk.read_at(name, 0, into)?;
    Ok(n)
}

/// The bytes of a file of two pages, or `None` where it has another length. Bytes that the file does not give, though
/// its length promised them, are zero.
pub fn small_bytes<D: Disk>(
    alloc: Global,
    disk: &mut D,
    name: FileName,
) -> Result<Option<Vec<u8>>, Halt>
    requires allowed { AllowsAll D.Disk disk.old }
    ensures files { Looks D.Disk disk.old disk.new result (λ bytes f. MatchOption bytes (length (content f name) ≢ 8192) (λ v. v.items ≡ content f name)) }
    ensures calls { OwesBy D.Disk fault_in disk.old disk.new result }
{
    if disk.len(name)? != SMALL as u64 {
        return Ok(None);
    }
    let mut bytes = zeros(alloc, SMALL)?;
    read_whole(disk, name, &mut bytes)?;
    Ok(Some(bytes))
}
