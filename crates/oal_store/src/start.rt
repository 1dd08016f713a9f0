// Opens a log that was saved.
ghost use Rattle.std.specs.Prelude.{◌≡◌, ◌-◌, ◌%◌, ◌≤◌, ℕ, true, None, IfOk, IfErr, OnOk, length, take};
ghost use Rattle.std.specs.Bool.{OnTrue, OnFalse};
ghost use Rattle.file_spec.specs.declared.FileName.TheVariants.{Oal};
ghost use Rattle.file_spec.specs.Files.{content};
ghost use Rattle.format_spec.specs.Log.{pair_of};
ghost use Rattle.rbu_disk.specs.Disk.{Looks, OwesBy};
ghost use Rattle.rbu_disk.specs.Uses.{Reads};
ghost use Rattle.wal_codec.specs.LogReading.{HasLog};
ghost use Rattle.file_pages.specs.Overlay.{HasPlaces};
ghost use Rattle.oal_store.specs.Faults.{disk_fault};
ghost use Rattle.oal_store.specs.Saved.{IsStartFault};
ghost use Rattle.oal_store.specs.Starting.{IsRight, IsWrongLog, pages_after};

use crate::fault::OalFault;
use crate::log::OalLog;
use crate::placing::frame_places;
use crate::store::OalStore;
use db_header::Header;
use file_pages::front_log;
use rbu_disk::{Disk, FileName};
use std::alloc::{AllocError, Global};
use std::collections::BTreeMap;
use wal_codec::Log;

// Reads the log up to the saved length, where the file has so many bytes.
fn read_saved<D: Disk>(alloc: Global, disk: &mut D, size: u64) -> Result<Log, OalFault>
    requires allowed { D.test disk.old (Reads Oal) ≡ true }
    ensures files { Looks D.Disk disk.old disk.new result (λ log files. (size ≤ length (content files Oal)) × HasLog (take size (content files Oal)) 0 log) }
    ensures faults { IfErr result (λ fault. (page_size : ℕ) (sums : ℕ × ℕ) → IsStartFault (D.shown disk.old) (record { page_size = page_size; size = size; sums = sums }) fault) }
    ensures places { IfOk result HasPlaces }
    ensures words { IfOk result (λ log. log.page_size % 8 ≡ 0) }
    ensures calls { OwesBy D.Disk disk_fault disk.old disk.new result }
{
    let has = disk.len(FileName::Oal)?;
    if has < size {
        return Err(OalFault::OalShort { has, needs: size });
    }
    match front_log(alloc, disk, FileName::Oal, size, 0) {
        Ok(log) => Ok(log),
        Err(fault) => Err(OalFault::from(fault)),
    }
}

// Whether two checksums are one.
fn same_sums(one: [u32; 2], other: [u32; 2]) -> bool
    ensures same { OnTrue result (pair_of one ≡ pair_of other) }
    ensures apart { OnFalse result (pair_of one ≡ pair_of other → ⊥) }
{
    one[0] == other[0] && one[1] == other[1]
}

// Whether what was read is the log that was saved, and why not.
fn check_log(log: &Log, page_size: u32, size: u64, sums: [u32; 2]) -> Result<(), OalFault>
    requires { HasPlaces log.now }
    ensures right { OnOk result (IsRight (record { page_size = page_size; size = size; sums = pair_of sums }) log.now) }
    ensures wrong { IfErr result (IsWrongLog (record { page_size = page_size; size = size; sums = pair_of sums }) log.now) }
    ensures refusal { IfErr result (λ fault. disk_fault fault ≡ None) }
{
    if log.page_size != page_size {
        return Err(OalFault::LogHeader);
    }
    let count = log.frames.as_slice().len() as u64;
    let end = 32 + count * (24 + u64::from(log.page_size));
    if end != size {
        return Err(OalFault::OalFrame { number: count + 1 });
    }
    if log.committed != count {
        return Err(OalFault::OalFrame { number: count });
    }
    if !same_sums(log.sums, sums) {
        return Err(OalFault::OalFrame { number: count });
    }
    Ok(())
}

// How many pages there are after the log's last commit, or in the target where there is none.
fn pages_after(log: &Log, target_pages: u32) -> u32
    ensures { result ≡ pages_after log.now target_pages }
{
    if log.committed == 0 {
        target_pages
    } else {
        log.commit_pages
    }
}

impl OalStore {
    ghost use Rattle.oal_store.specs.Saved.{IsStarted, IsStoreOf, saved_by};
    ghost use Rattle.oal_store.specs.Starting.{IsOpened};

    // The store over a log that was read.
    fn over_log(
        alloc: Global,
        log: &Log,
        header: &Header,
        size: u64,
        sums: [u32; 2],
    ) -> Result<OalStore, AllocError>
        requires places { HasPlaces log.now }
        requires words { log.now.page_size % 8 ≡ 0 }
        requires reserved { header.now.reserved ≤ log.now.page_size }
        ensures { IfOk result (IsOpened log.now header.now size sums) }
    {
        let places = frame_places(alloc, log.frames.as_slice(), log.page_size)?;
        let count = pages_after(log, header.pages);
        let salt = log.salt;
        Ok(OalStore {
            alloc,
            log: OalLog {
                big: log.big,
                page_size: log.page_size,
                usable: log.page_size - u32::from(header.reserved),
                salt,
                sums,
                size,
                target_pages: header.pages,
                pages: count,
                places,
            },
            count,
            changed: BTreeMap::new(alloc),
        })
    }

    /// Opens the hidden log that was saved with this length in bytes and this last checksum, under a target with this header. The file's first bytes, as many as were
    /// saved, are to be a log of pages of the target's size, each frame valid and the last of them a commit, whose last checksum is the saved one (Database File
    /// Format, section 4); what lies behind them is not read.
    ///
    /// Refused are, in this order: a file with fewer bytes (102), one without a header of such a log (100), and one with a wrong frame (103), which is told by its number.
    pub fn start<D: Disk>(
        alloc: Global,
        disk: &mut D,
        header: &Header,
        size: u64,
        sums: [u32; 2],
    ) -> Result<OalStore, OalFault>
        requires allowed { D.test disk.old (Reads Oal) ≡ true }
        requires reserved { header.now.reserved ≤ header.now.page_size }
        ensures files { Looks D.Disk disk.old disk.new result (IsStarted header.now size sums) }
        ensures store { IfOk result (IsStoreOf header.now size sums) }
        ensures faults { IfErr result (IsStartFault (D.shown disk.old) (saved_by header.now size sums)) }
        ensures calls { OwesBy D.Disk disk_fault disk.old disk.new result }
    {
        let log = read_saved(alloc, disk, size)?;
        check_log(&log, header.page_size, size, sums)?;
        let store = OalStore::over_log(alloc, &log, header, size, sums)?;
        Ok(store)
    }
}
