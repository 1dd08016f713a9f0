// The first bytes of a file.
ghost use Rattle.std.specs.Prelude.{◌≡◌, ◌≤◌, ◌*◌, true, Some, IfSome, IfOk, length, take};
ghost use Rattle.std.specs.Option.{option_copied};
ghost use Rattle.file_spec.specs.declared.FileName.TheVariants.{Wal};
ghost use Rattle.file_spec.specs.Files.{content};
ghost use Rattle.rbu_disk.specs.Disk.{Looks, Owes};
ghost use Rattle.rbu_disk.specs.Uses.{Reads};
ghost use Rattle.file_pages.specs.Overlay.{Allows, HasPlaces, IsStart, pages_over, start_over};

use crate::overlay::page_place;
use crate::reads::read_part;
use rbu_disk::{Disk, DiskFault, FileName};
use wal_codec::Log;

// The first bytes of the file itself, and its length.
fn plain_start<D: Disk>(
    disk: &mut D,
    file: FileName,
    into: &mut [u8; 100],
) -> Result<(usize, u64), DiskFault>
    requires allowed { D.test disk.old (Reads file) ≡ true }
    ensures files { Looks D.Disk disk.old disk.new result (λ start files.
        (take start.0 into.new ≡ take 100 (content files file)) × (start.1 ≡ length (content files file))) }
    ensures bound { IfOk result (λ start. start.0 ≤ 100) }
    ensures calls { Owes D.Disk disk.old disk.new result }
{
    let n = disk.read_at(file, 0, into)?;
    let len = disk.len(file)?;
    Ok((n, len))
}

// The first bytes of page 1 of the overlay.
fn first_page<D: Disk>(
    disk: &mut D,
    file: FileName,
    log: &Log,
    into: &mut [u8],
) -> Result<(), DiskFault>
    requires allowed { D.test disk.old (Reads file) ≡ true }
    requires log_allowed { D.test disk.old (Reads Wal) ≡ true }
    requires places { HasPlaces log.now }
    requires long { length into.old ≡ 100 }
    ensures files { Looks D.Disk disk.old disk.new result (λ _ files. into.new ≡ take 100 (pages_over log.now.page_size (Some log.now) file files 1)) }
    ensures calls { Owes D.Disk disk.old disk.new result }
{
    let place = page_place(Some(log), file, log.page_size, 1);
    read_part(disk, place.file, place.at, into)?;
    Ok(())
}

/// The first bytes of a file, as many as a database header has (Database File Format, section 1.3) or fewer in a shorter file: how many
/// these are, and the length of the file in bytes. Where a log with a commit is given, the same of the overlay of the file by it: 100 bytes of its page 1,
/// and the length of as many pages as the commit says. After a fault `into` holds any bytes.
pub fn file_start<D: Disk>(
    disk: &mut D,
    file: FileName,
    log: Option<&Log>,
    into: &mut [u8; 100],
) -> Result<(usize, u64), DiskFault>
    requires allowed { D.test disk.old (Reads file) ≡ true }
    requires log_allowed { Allows (option_copied log) (D.test disk.old (Reads Wal)) }
    requires places { IfSome (option_copied log) HasPlaces }
    ensures files { Looks D.Disk disk.old disk.new result (λ start files. IsStart (start_over (option_copied log.entry) file files) start.0 start.1 into.new) }
    ensures bound { IfOk result (λ start. start.0 ≤ 100) }
    ensures calls { Owes D.Disk disk.old disk.new result }
{
    match log {
        Some(log) if log.committed != 0 => {
            first_page(disk, file, log, into)?;
            Ok((100, u64::from(log.commit_pages) * u64::from(log.page_size)))
        }
        _ => plain_start(disk, file, into),
    }
}
