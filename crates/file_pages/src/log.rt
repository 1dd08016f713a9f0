// The log in a file, read frame by frame.
ghost use Rattle.std.specs.Prelude.{◌≡◌, ◌+◌, ◌%◌, ◌<◌, ◌^◌, ℕ, true, false, Ok, IfOk, IfErr, IfSome, IsTrue, MatchOption, OnOk, length, take, drop};
ghost use Rattle.common_spec.specs.Reading.{OrFault, Reads as ReadsAs};
ghost use Rattle.file_spec.specs.Files.{content};
ghost use Rattle.rbu_disk.specs.Disk.{Looks, Owes, OwesBy};
ghost use Rattle.rbu_disk.specs.Uses.{Reads};
ghost use Rattle.wal_codec.specs.declared.log.LogFault.{LogFault};
ghost use Rattle.wal_codec.specs.declared.log.LogFault.TheVariants.{LogHeader};
ghost use Rattle.wal_codec.specs.LogReading.{HasLog, HasFault};
ghost use Rattle.wal_codec.specs.FramesRead.{IsReading, frame_size, place_behind};
ghost use Rattle.file_pages.specs.declared.log.FileLogFault.{FileLogFault};
ghost use Rattle.file_pages.specs.LogFile.{IsFaultIn, IsFaultOf, ReadsAll, ReadsNext, SaysNothing, disk_fault, front_of};
ghost use Rattle.file_pages.specs.Overlay.{HasPlaces};

use page_store::page_buffer;
use rbu_disk::{Disk, DiskFault, FileName};
use std::alloc::{AllocError, Global};
use wal_codec::{Log, LogFault, LogReader};

/// Why the log in a file is not read.
#[derive(Debug, Clone, Copy, PartialEq, Eq)]
pub enum FileLogFault {
    /// What `read_log` answers of the file's bytes: refusal 100 or 101, or want of memory.
    InBytes(LogFault),
    /// A call on the disk failed.
    OfDisk(DiskFault),
}

impl From<DiskFault> for FileLogFault {
    ghost from_gives = { λ error fault. fault ≡ FileLogFault.OfDisk error };

    fn from(error: DiskFault) -> FileLogFault {
        FileLogFault::OfDisk(error)
    }
}

impl From<AllocError> for FileLogFault {
    ghost from_gives = { λ error fault. fault ≡ FileLogFault.InBytes (LogFault.Memory error) };

    fn from(error: AllocError) -> FileLogFault {
        FileLogFault::InBytes(LogFault::Memory(error))
    }
}

// The first bytes, so many, or all where there are fewer.
fn front(bytes: &[u8], len: u64) -> &[u8]
    ensures { result.now ≡ take len bytes.now }
{
    let count = (bytes.len() as u64).min(len);
    &bytes[..count as usize]
}

// Reads the header of a log in the first bytes of a file: `None` where they have none of a log.
fn begin_log<D: Disk>(
    alloc: Global,
    disk: &mut D,
    file: FileName,
    len: u64,
    needed: u64,
) -> Result<Option<LogReader>, DiskFault>
    requires allowed { D.test disk.old (Reads file) ≡ true }
    ensures files { Looks D.Disk disk.old disk.new result (λ begun files.
        MatchOption begun (HasFault (front_of file len files) needed LogHeader) (λ reader. IsReading (front_of file len files) needed (drop 32 (front_of file len files)) reader)) }
    ensures place { IfOk result (λ begun. IfSome begun (λ reader. place_behind reader ≡ 32)) }
    ensures calls { Owes D.Disk disk.old disk.new result }
{
    let mut header = [0; 32];
    let n = disk.read_at(file, 0, &mut header)?;
    Ok(LogReader::begin(alloc, front(&header[..n], len), needed))
}

// Reads the frame at a place, and answers whether it is valid.
fn next_of<D: Disk>(
    disk: &mut D,
    file: FileName,
    at: u64,
    frame: &mut [u8],
    reader: &mut LogReader,
) -> Result<bool, FileLogFault>
    requires allowed { D.test disk.old (Reads file) ≡ true }
    requires whole { length frame.old ≡ frame_size reader.old }
    ensures files { Looks D.Disk disk.old disk.new result (ReadsNext file at reader.old reader.new) }
    ensures size { frame_size reader.new ≡ frame_size reader.old }
    ensures place { IfOk result (λ valid. IsTrue valid → place_behind reader.new ≡ place_behind reader.old + frame_size reader.old) }
    ensures last { IfOk result (λ valid. valid ≡ false → reader.new ≡ reader.old) }
    ensures memory { IfErr result SaysNothing }
    ensures calls { OwesBy D.Disk disk_fault disk.old disk.new result }
{
    let n = disk.read_at(file, at, frame)?;
    let valid = reader.next_frame(&frame[..n])?;
    Ok(valid)
}

// Reads frame by frame in the first bytes of a file, as long as they are valid.
fn read_frames<D: Disk>(
    disk: &mut D,
    file: FileName,
    len: u64,
    frame: &mut [u8],
    reader: &mut LogReader,
) -> Result<(), FileLogFault>
    requires allowed { D.test disk.old (Reads file) ≡ true }
    requires whole { length frame.old ≡ frame_size reader.old }
    requires place { place_behind reader.old ≡ 32 }
    ensures files { Looks D.Disk disk.old disk.new result (λ _ files. ReadsAll file len reader.old reader.new files) }
    ensures place { OnOk result (place_behind reader.new < 2 ^ 64) }
    ensures memory { IfErr result SaysNothing }
    ensures calls { OwesBy D.Disk disk_fault disk.old disk.new result }
{
    let size = reader.frame_size() as u64;
    let mut at = 32;
    while size <= len.saturating_sub(at) {
        let valid = match next_of(disk, file, at, frame, reader) {
            Ok(valid) => valid,
            Err(fault) => return Err(fault),
        };
        if !valid {
            return Ok(());
        }
        at += size;
    }
    Ok(())
}

/// Reads the log in the first bytes of a file, or in all where there are fewer, as `read_log` does over these bytes (Database File Format, section 4), one frame at a time: no
/// more than a frame of it is in memory. `len` is how many bytes; so many first frames are needed, the last of them a commit.
pub fn front_log<D: Disk>(
    alloc: Global,
    disk: &mut D,
    file: FileName,
    len: u64,
    needed: u64,
) -> Result<Log, FileLogFault>
    requires allowed { D.test disk.old (Reads file) ≡ true }
    ensures files { Looks D.Disk disk.old disk.new result (λ log files. ReadsAs (OrFault (HasLog (front_of file len files) needed) (HasFault (front_of file len files) needed)) (Ok log)) }
    ensures faults { IfErr result (IsFaultIn (D.shown disk.old) (front_of file len) needed) }
    ensures places { IfOk result HasPlaces }
    ensures words { IfOk result (λ log. log.page_size % 8 ≡ 0) }
    ensures calls { OwesBy D.Disk disk_fault disk.old disk.new result }
{
    let Some(mut reader) = begin_log(alloc, disk, file, len, needed)? else {
        return Err(FileLogFault::InBytes(LogFault::LogHeader));
    };
    let mut frame = page_buffer(alloc, reader.frame_size() as u32)?;
    read_frames(disk, file, len, frame.as_mut_slice(), &mut reader)?;
    match reader.finish() {
        Ok(log) => Ok(log),
        Err(fault) => Err(FileLogFault::InBytes(fault)),
    }
}

/// Reads the log in a file as `front_log` does, all its bytes.
pub fn file_log<D: Disk>(
    alloc: Global,
    disk: &mut D,
    file: FileName,
    needed: u64,
) -> Result<Log, FileLogFault>
    requires allowed { D.test disk.old (Reads file) ≡ true }
    ensures files { Looks D.Disk disk.old disk.new result (λ log files. ReadsAs (OrFault (HasLog (content files file) needed) (HasFault (content files file) needed)) (Ok log)) }
    ensures faults { IfErr result (IsFaultOf (D.shown disk.old) file needed) }
    ensures places { IfOk result HasPlaces }
    ensures calls { OwesBy D.Disk disk_fault disk.old disk.new result }
{
    let len = disk.len(file)?;
    match front_log(alloc, disk, file, len, needed) {
        Ok(log) => Ok(log),
        Err(fault) => Err(fault),
    }
}
