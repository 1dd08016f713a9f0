// Appends frames to the log.
ghost use Rattle.std.specs.Prelude.{◌≡◌, ◌+◌, ◌%◌, ◌==◌, if◌then◌else◌, IfOk, length};
ghost use Rattle.std.specs.List.{All};
ghost use Rattle.std.specs.BTreeMap.{IsOrdered};
ghost use Rattle.std.specs.Ordering.{nat_cmp};
ghost use Rattle.file_spec.specs.declared.FileName.TheVariants.{Oal};
ghost use Rattle.file_spec.specs.Files.{OnlyChanges};
ghost use Rattle.rbu_disk.specs.Disk.{Goes, GoesOn, Owes};
ghost use Rattle.format_spec.specs.Log.{pair_of, frame_bytes, frames_bytes, frame_sums, sums_behind};
ghost use Rattle.oal_store.specs.Appending.{Appends, AllowsAppending, frames_of};
ghost use Rattle.oal_store.specs.Growing.{KeepsGrowing};

use crate::log::OalLog;
use rbu_disk::{Disk, DiskFault, FileName};
use std::collections::BTreeMap;
use wal_codec::write_frame_header;

// Where a log ends: its length, and the checksum behind its last frame.
#[derive(Clone, Copy)]
pub(crate) struct End {
    pub size: u64,
    pub sums: [u32; 2],
}

// Writes one frame behind the end, and answers the end behind it.
fn append_frame<D: Disk>(
    disk: &mut D,
    log: &OalLog,
    end: End,
    number: u32,
    commit: u32,
    page: &[u8],
) -> Result<End, DiskFault>
    requires allowed { AllowsAppending D.Disk disk.old }
    requires words { length page.now % 8 ≡ 0 }
    ensures done { IfOk result (λ after. Goes D.Disk disk.old disk.new
        (Appends end.size (frame_bytes log.now.big (pair_of log.now.salt) (pair_of end.sums) (record { number = number; commit = commit; page = page.now })))) }
    ensures size { IfOk result (λ after. after.size ≡ end.size + (24 + length page.now)) }
    ensures sums { IfOk result (λ after. pair_of after.sums ≡ frame_sums log.now.big (pair_of end.sums) number commit page.now) }
    ensures only { Goes D.Disk disk.old disk.new (OnlyChanges Oal) }
    ensures moments { GoesOn D.Disk disk.old disk.new (KeepsGrowing end.size) }
    ensures test { D.test disk.new ≡ D.test disk.old }
    ensures calls { Owes D.Disk disk.old disk.new result }
{
    let mut header = [0; 24];
    let sums = write_frame_header(
        log.big,
        number,
        commit,
        log.salt,
        end.sums,
        page,
        &mut header,
    );
    disk.write_at(FileName::Oal, end.size, &header)?;
    disk.write_at(FileName::Oal, end.size + 24, page)?;
    Ok(End {
        size: end.size + 24 + page.len() as u64,
        sums,
    })
}

// What a frame behind which so many are left says of a commit.
fn commit_with(left: usize, commit: u32) -> u32
    ensures { result ≡ (if left == 0 then commit else 0) }
{
    if left == 0 { commit } else { 0 }
}

// Writes a frame for each of the pages behind the log, the last of them a commit of so many pages, and answers the end behind them.
pub(crate) fn append_pages<D: Disk>(
    disk: &mut D,
    log: &OalLog,
    pages: &BTreeMap<u32, Vec<u8>>,
    commit: u32,
) -> Result<End, DiskFault>
    requires allowed { AllowsAppending D.Disk disk.old }
    requires words { All (λ page. length page.1.items % 8 ≡ 0) pages.now.entries }
    ensures done { IfOk result (λ after. Goes D.Disk disk.old disk.new
        (Appends log.now.size (frames_bytes log.now.big (pair_of log.now.salt) (pair_of log.now.sums) (frames_of commit pages.now.entries)))) }
    ensures size { IfOk result (λ after. after.size ≡ log.now.size
        + length (frames_bytes log.now.big (pair_of log.now.salt) (pair_of log.now.sums) (frames_of commit pages.now.entries))) }
    ensures sums { IfOk result (λ after. pair_of after.sums ≡ sums_behind log.now.big (pair_of log.now.sums) (frames_of commit pages.now.entries)) }
    ensures ordered { IsOrdered nat_cmp pages.now }
    ensures only { Goes D.Disk disk.old disk.new (OnlyChanges Oal) }
    ensures moments { GoesOn D.Disk disk.old disk.new (KeepsGrowing log.now.size) }
    ensures test { D.test disk.new ≡ D.test disk.old }
    ensures calls { Owes D.Disk disk.old disk.new result }
{
    let mut end = End {
        size: log.size,
        sums: log.sums,
    };
    let mut left = pages.len();
    for (number, page) in pages {
        left -= 1;
        let last = commit_with(left, commit);
        end = append_frame(disk, log, end, *number, last, page.as_slice())?;
    }
    Ok(end)
}
