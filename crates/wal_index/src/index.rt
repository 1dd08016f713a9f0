// The index of a log.
ghost use Rattle.std.specs.Prelude.{◌≡◌, ◌≤◌, ℕ, IfNone, IfOk, length};
ghost use Rattle.common_spec.specs.Reading.{OrNone, Reads};
ghost use Rattle.wal_index.specs.FrameIndex.{IsFrameOf, IsLastFrame};

use std::alloc::{AllocError, Global};
use std::marker::Model;
use wal_codec::Log;

/// The last frame of the page at or below the mark, where the frames of a log have these pages. Frames count from 1.
pub fn last_frame(frames: &[u32], page: u32, mark: u64) -> Option<u64>
    ensures last { Reads (OrNone (IsLastFrame frames.now page mark)) result }
    ensures none { IfNone result ((frame : ℕ) → frame ≤ mark → ¬ IsFrameOf frames.now page frame) }
{
    let within = mark.min(frames.len() as u64) as usize;
    let mut left = &frames[..within];
    while let [front @ .., last] = left {
        if *last == page {
            return Some(left.len() as u64);
        }
        left = front;
    }
    None
}

/// The frames of a log by the numbers of their pages.
#[derive(Drop)]
pub struct WalIndex {
    frames: Vec<u32>,
    pages: u32,
    backfilled: u64,
}

impl Model for WalIndex {
    ghost use Rattle.wal_index.specs.FrameIndex.{FrameIndex};

    ghost Value = { FrameIndex };

    ghost view = { λ index. record { frames = index.frames.items; pages = index.pages; backfilled = index.backfilled } };
}

impl WalIndex {
    /// The index of all valid frames of a log, of which none was copied yet.
    pub fn of_log(alloc: Global, log: &Log) -> Result<WalIndex, AllocError>
        ensures { IfOk result (λ index. index ≡ record { frames = log.now.frames; pages = log.now.commit_pages; backfilled = 0 }) }
    {
        let frames = log.frames.as_slice().to_vec(alloc)?;
        Ok(WalIndex {
            frames,
            pages: log.commit_pages,
            backfilled: 0,
        })
    }

    /// The last frame of the page at or below the mark. Frames count from 1.
    pub fn find(&self, page: u32, mark: u64) -> Option<u64>
        ensures last { Reads (OrNone (IsLastFrame self.now.frames page mark)) result }
        ensures none { IfNone result ((frame : ℕ) → frame ≤ mark → ¬ IsFrameOf self.now.frames page frame) }
    {
        last_frame(self.frames.as_slice(), page, mark)
    }

    /// The number of the last valid frame.
    pub fn max_frame(&self) -> u64
        ensures { result ≡ length self.now.frames }
    {
        self.frames.len() as u64
    }

    /// How many pages there are after the last commit, or 0 without a commit.
    pub fn pages(&self) -> u32
        ensures { result ≡ self.now.pages }
    {
        self.pages
    }

    /// How many frames were copied into the database file.
    pub fn backfilled(&self) -> u64
        ensures { result ≡ self.now.backfilled }
    {
        self.backfilled
    }

    /// Keeps how many frames were copied.
    pub fn set_backfilled(&mut self, frame: u64)
        ensures { self.new ≡ record self.old { backfilled = frame } }
    {
        self.backfilled = frame;
    }
}
