// Reads a log's header and its frames.
ghost use Rattle.std.specs.Prelude.{◌≡◌, ℕ, ◌+◌, ◌%◌, ◌^◌, ◌<◌, ◌≤◌, ◌++◌, List, [], ◌∷◌, length, drop, true, false, IfSome, IfNone, OnOk};
ghost use Rattle.std.specs.Bool.{OnTrue, OnFalse};
ghost use Rattle.format_spec.specs.Log.{pair_of};
ghost use Rattle.wal_codec.specs.LogReading.{Head, HasHead, HasNoFrame};
ghost use Rattle.wal_codec.specs.FramesRead.{HasReadHead, HasReadFrame, counts_after, counts_of_none};

use crate::headers::{MAGIC, write_frame_header, write_log_header};
use byte_fields::u32_at;
use std::alloc::{AllocError, Global};

// What a log's header says, and its checksum.
#[derive(Clone, Copy)]
pub(crate) struct LogHead {
    pub big: bool,
    pub page_size: u32,
    pub salt: [u32; 2],
    pub sums: [u32; 2],
}

// What a frame's header says, and the checksum at the frame.
#[derive(Clone, Copy)]
pub(crate) struct FrameHead {
    pub number: u32,
    pub commit: u32,
    pub sums: [u32; 2],
}

// What is counted over the frames that were read.
#[derive(Clone, Copy)]
pub(crate) struct Counts {
    // How many there are up to the last commit, and its size.
    pub committed: u64,
    pub commit_pages: u32,
    // What the last needed frame says of its commit, or the last one where not all needed ones were read.
    pub last_needed: u32,
}

// What is kept of the frames that were read.
#[derive(Drop)]
pub(crate) struct ReadFrames {
    // The numbers of their pages.
    pub numbers: Vec<u32>,
    pub counts: Counts,
    // The checksum behind them.
    pub sums: [u32; 2],
}

// Whether the bytes begin with these.
fn starts_with(bytes: &[u8], front: &[u8]) -> bool
    ensures begins { OnTrue result (bytes.now ≡ front.now ++ drop (length front.now) bytes.now) }
    ensures differs { OnFalse result ((rest : List ℕ) → bytes.now ≡ front.now ++ rest → ⊥) }
{
    bytes.starts_with(front)
}

// The header of a log.
pub(crate) fn read_head(bytes: &[u8]) -> Option<LogHead>
    ensures found { IfSome result (HasReadHead bytes.now) }
    ensures none { IfNone result ((head : Head) → ¬ HasHead bytes.now head) }
    ensures long { IfSome result (λ head. 32 ≤ length bytes.now) }
{
    if bytes.len() < 32 {
        return None;
    }
    let big = u32_at(bytes, 0) == MAGIC;
    let page_size = u32_at(bytes, 8);
    let salt = [u32_at(bytes, 16), u32_at(bytes, 20)];
    let mut header = [0; 32];
    let sums = write_log_header(big, page_size, u32_at(bytes, 12), salt, &mut header);
    if !starts_with(bytes, &header) {
        return None;
    }
    Some(LogHead {
        big,
        page_size,
        salt,
        sums,
    })
}

// The frame at the beginning of the bytes, which lie behind the sums.
pub(crate) fn read_frame(head: &LogHead, sums: [u32; 2], bytes: &[u8]) -> Option<FrameHead>
    requires { head.now.page_size % 8 ≡ 0 }
    ensures found { IfSome result (HasReadFrame head.now.big (pair_of head.now.salt) (pair_of sums) head.now.page_size bytes.now) }
    ensures none { IfNone result (HasNoFrame head.now.big (pair_of head.now.salt) (pair_of sums) head.now.page_size bytes.now) }
    ensures long { IfSome result (λ frame. 24 + head.now.page_size ≤ length bytes.now) }
{
    let size = 24 + head.page_size as usize;
    if bytes.len() < size {
        return None;
    }
    let number = u32_at(bytes, 0);
    let commit = u32_at(bytes, 4);
    let mut header = [0; 24];
    let page = &bytes[24..size];
    let sums = write_frame_header(head.big, number, commit, head.salt, sums, page, &mut header);
    if number == 0 || !starts_with(bytes, &header) {
        return None;
    }
    Some(FrameHead {
        number,
        commit,
        sums,
    })
}

impl Counts {
    // The counts after one more frame than so many.
    fn after(self, frames: u64, commit: u32, needed: u64) -> Counts
        requires { frames + 1 < 2 ^ 64 }
        ensures { result ≡ counts_after needed frames commit self }
    {
        let last_needed = if frames < needed {
            commit
        } else {
            self.last_needed
        };
        if commit == 0 {
            return Counts {
                committed: self.committed,
                commit_pages: self.commit_pages,
                last_needed,
            };
        }
        Counts {
            committed: frames + 1,
            commit_pages: commit,
            last_needed,
        }
    }
}

impl ReadFrames {
    // None of frames that lie behind these sums.
    pub(crate) fn none(alloc: Global, sums: [u32; 2]) -> ReadFrames
        ensures numbers { result.numbers.items ≡ [] }
        ensures counts { result.counts ≡ counts_of_none }
        ensures sums { result.sums ≡ sums }
    {
        ReadFrames {
            numbers: Vec::new(alloc),
            counts: Counts {
                committed: 0,
                commit_pages: 0,
                last_needed: 0,
            },
            sums,
        }
    }

    // Keeps one more frame, as long as there is memory.
    pub(crate) fn keep(&mut self, frame: &FrameHead, needed: u64) -> Result<(), AllocError>
        ensures numbers { OnOk result (self.new.numbers.items ≡ self.old.numbers.items ++ frame.now.number ∷ []) }
        ensures counts { OnOk result (self.new.counts ≡ counts_after needed (length self.old.numbers.items) frame.now.commit self.old.counts) }
        ensures sums { OnOk result (self.new.sums ≡ frame.now.sums) }
    {
        self.counts = self
            .counts
            .after(self.numbers.len() as u64, frame.commit, needed);
        self.numbers.push(frame.number)?;
        let sums = frame.sums;
        self.sums = sums;
        Ok(())
    }
}
