// Reads a log.
ghost use Rattle.std.specs.Prelude.{◌≡◌, ◌≤◌, length, take};
ghost use Rattle.wal_codec.specs.declared.log.LogFault.{LogFault};
ghost use Rattle.common_spec.specs.Reading.{OrFault, ReadsOrWants};
ghost use Rattle.wal_codec.specs.LogReading.{HasLog, HasFault, IsMemory};
ghost use Rattle.wal_codec.specs.FramesRead.{log_kept};

use crate::frames::{LogHead, ReadFrames};
use crate::reader::LogReader;
use owned_list::OwnedList;
use std::alloc::{AllocError, Global};

/// What is kept of a write-ahead log: of its header, and of its valid frames.
#[derive(Drop)]
pub struct Log {
    /// Whether its checksums take their words with the most significant byte first, and not last.
    pub big: bool,
    /// The size of a page in bytes.
    pub page_size: u32,
    pub salt: [u32; 2],
    /// How many pages there are after the last commit, or 0 without a commit.
    pub commit_pages: u32,
    /// How many frames there are up to the last commit.
    pub committed: u64,
    /// The numbers of the pages of all valid frames.
    pub frames: OwnedList<u32>,
    /// The checksum at the last valid frame, or the header's where there is none.
    pub sums: [u32; 2],
}

/// Why bytes are no log with the needed frames.
#[derive(Debug, Clone, Copy, PartialEq, Eq)]
pub enum LogFault {
    /// The bytes do not begin with a log's header of pages of a size that pages may have: refusal 100.
    LogHeader,
    /// A needed frame is missing or not valid, or the last needed one is no commit: refusal 101. The number counts from 1.
    LogFrame { number: u64 },
    /// There is no memory for the frames' numbers.
    Memory(AllocError),
}

impl From<AllocError> for LogFault {
    ghost from_gives = { λ error fault. fault ≡ LogFault.Memory error };

    fn from(error: AllocError) -> LogFault {
        LogFault::Memory(error)
    }
}

// What is kept of the header and the frames that were read.
pub(crate) fn kept(head: &LogHead, frames: ReadFrames) -> Log
    ensures { result ≡ log_kept head.now frames }
{
    let salt = head.salt;
    let ReadFrames {
        numbers,
        counts,
        sums,
    } = frames;
    Log {
        big: head.big,
        page_size: head.page_size,
        salt,
        commit_pages: counts.commit_pages,
        committed: counts.committed,
        frames: OwnedList::from_vec(numbers),
        sums,
    }
}

// The first bytes, so many, or all where there are fewer.
fn front(bytes: &[u8], size: usize) -> &[u8]
    ensures bytes { result.now ≡ take size bytes.now }
    ensures within { length result.now ≤ length bytes.now }
{
    &bytes[..bytes.len().min(size)]
}

/// Reads a log whole: its header, and the longest list of valid frames. So many first frames are needed, the last of them a commit;
/// a part of a frame counts as one to whoever needs it.
pub fn read_log(alloc: Global, bytes: &[u8], needed: u64) -> Result<Log, LogFault>
    ensures { ReadsOrWants (λ log. log) IsMemory (OrFault (HasLog bytes.now needed) (HasFault bytes.now needed)) result }
{
    let Some(mut reader) = LogReader::begin(alloc, front(bytes, 32), needed) else {
        return Err(LogFault::LogHeader);
    };
    let size = reader.frame_size();
    let mut left = &bytes[32..];
    while reader.next_frame(front(left, size))? {
        left = &left[size..];
    }
    reader.finish()
}
