// Reads parts of a file, as if it went on with zeros.
ghost use Rattle.std.specs.Prelude.{◌≡◌, true, length, drop};
ghost use Rattle.byte_fields.specs.Bytes.{resized};
ghost use Rattle.file_spec.specs.Files.{content};
ghost use Rattle.rbu_disk.specs.Disk.{Looks, Owes};
ghost use Rattle.rbu_disk.specs.Uses.{Reads};

use rbu_disk::{Disk, DiskFault, FileName};

// Fills a slice from a place in a file on. Bytes that the file does not have are zero.
pub(crate) fn read_part<D: Disk>(
    disk: &mut D,
    file: FileName,
    at: u64,
    into: &mut [u8],
) -> Result<(), DiskFault>
    requires allowed { D.test disk.old (Reads file) ≡ true }
    ensures files { Looks D.Disk disk.old disk.new result (λ _ files. into.new ≡ resized (drop at (content files file)) (length into.old)) }
    ensures calls { Owes D.Disk disk.old disk.new result }
{
    into.fill(0);
    disk.read_at(file, at, into)?;
    Ok(())
}
