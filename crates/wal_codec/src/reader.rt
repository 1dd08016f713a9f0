// A log that is read frame by frame.
ghost use Rattle.std.specs.Prelude.{◌≡◌, ◌≤◌, ◌%◌};

use crate::frames::{LogHead, ReadFrames, read_frame, read_head};
use crate::log::{Log, LogFault, kept};
use db_header::is_page_size;
use std::alloc::{AllocError, Global};

/// A write-ahead log of which the first frames were read (Database File Format, section 4). The numbers of their pages are kept, and
/// not the pages.
///
/// `begin` takes the log's header, `next_frame` what lies behind it, one frame after the other, and `finish` gives the log.
#[derive(Drop)]
pub struct LogReader {
    head: LogHead,
    needed: u64,
    read: ReadFrames,
    ghost words: { head.page_size % 8 ≡ 0 },
    ghost least: { 512 ≤ head.page_size },
    ghost most: { head.page_size ≤ 65536 },
}

impl LogReader {
    ghost use Rattle.std.specs.Prelude.{ℕ, ◌+◌, ◌*◌, List, length, take, drop, true, false, IfSome, IfNone, IfOk, IsTrue};
    ghost use Rattle.common_spec.specs.Reading.{OrFault, Reads};
    ghost use Rattle.wal_codec.specs.declared.log.LogFault.TheVariants.{LogHeader};
    ghost use Rattle.wal_codec.specs.LogReading.{HasLog, HasFault};
    ghost use Rattle.wal_codec.specs.FramesRead.{IsReading, IsEnd, TakesFrame, frame_size, place_behind};

    /// Begins a log whose header stands in the first 32 bytes, of which so many first frames are needed. `None` where that is no
    /// log's header of pages of a size that pages may have.
    pub fn begin(alloc: Global, header: &[u8], needed: u64) -> Option<LogReader>
        ensures begun { IfSome result (λ reader. (bytes : List ℕ) → take 32 bytes ≡ header.now → IsReading bytes needed (drop 32 bytes) reader) }
        ensures place { IfSome result (λ reader. place_behind reader ≡ 32) }
        ensures long { IfSome result (λ reader. 32 ≤ length header.now) }
        ensures none { IfNone result ((bytes : List ℕ) → take 32 bytes ≡ header.now → HasFault bytes needed LogHeader) }
    {
        let Some(head) = read_head(header) else {
            return None;
        };
        if !is_page_size(head.page_size) {
            return None;
        }
        let read = ReadFrames::none(alloc, head.sums);
        Some(LogReader { head, needed, read })
    }

    /// How many bytes a frame takes: 24 and a page.
    pub fn frame_size(&self) -> usize
        ensures size { result ≡ frame_size self.now }
        ensures range { (536 ≤ result) × (result ≤ 65560) }
    {
        24 + self.head.page_size as usize
    }

    /// Reads one more frame, and answers whether it is valid; where it is not, nothing changes. `bytes` are the next ones of the log,
    /// as many as a frame takes, or all that are left where these are fewer.
    pub fn next_frame(&mut self, bytes: &[u8]) -> Result<bool, AllocError>
        ensures frame { IfOk result (λ valid. (all left : List ℕ) (needed : ℕ) → take (frame_size self.old) left ≡ bytes.now → IsReading all needed left self.old
            → TakesFrame all needed left self.old self.new valid) }
        ensures size { frame_size self.new ≡ frame_size self.old }
        ensures long { IfOk result (λ valid. IsTrue valid → frame_size self.old ≤ length bytes.now) }
        ensures place { IfOk result (λ valid. IsTrue valid → place_behind self.new ≡ place_behind self.old + frame_size self.old) }
        ensures last { IfOk result (λ valid. valid ≡ false → self.new ≡ self.old) }
    {
        let Some(frame) = read_frame(&self.head, self.read.sums, bytes) else {
            return Ok(false);
        };
        self.read.keep(&frame, self.needed)?;
        Ok(true)
    }

    /// What was read, where no valid frame is left, or why that is no log with the needed frames.
    pub fn finish(self) -> Result<Log, LogFault>
        ensures answer { (bytes left : List ℕ) (needed : ℕ) → IsReading bytes needed left self → IsEnd left self
            → Reads (OrFault (HasLog bytes needed) (HasFault bytes needed)) result }
        ensures place { IfOk result (λ log. 32 + length log.frames * (24 + log.page_size) ≡ place_behind self) }
        ensures size { IfOk result (λ log. (512 ≤ log.page_size) × (log.page_size ≤ 65536)) }
        ensures words { IfOk result (λ log. log.page_size % 8 ≡ 0) }
    {
        let LogReader { head, needed, read } = self;
        let count = read.numbers.len() as u64;
        if count < needed {
            return Err(LogFault::LogFrame { number: count + 1 });
        }
        if needed > 0 && read.counts.last_needed == 0 {
            return Err(LogFault::LogFrame { number: needed });
        }
        Ok(kept(&head, read))
    }
}
