// What crashes leave of an update that was stopped.
use crate::ensure::ensure;
use crate::example::example_disk;
use crate::faults::{CLEAN, INSERTED, LEFT_OVER};
use crate::runs::{
    LOG, TARGET_AFTER, TARGET_BEFORE, UPDATE, copy_of, has_sum, texts_of, update_writes,
};
use disk_memory::{FusedDisk, MemoryDisk, MemorySink};
use rbu_disk::FileName;
use rbu_run::{Ran, run_command};
use std::alloc::{AllocError, Global};
use std::test::Fail;

// What a crash leaves of an update that was stopped after so many calls, by the number of calls from 0 and a letter for
// each choice from 0 to 8: `o` the old target alone, `h` beside the hidden log, `w` the whole write-ahead log, and `n` the
// new target alone. A log that was made and has its other name is two changes of names, of which a choice keeps none, one
// or both until the folder is synced.
const CRASHES: &str =
    "ooooooooo|ooooooooo|ooooooooo|ooooooooo|ooooooooo|ooooooooo|ooooooooo|ooooooooo|ooooooooo|\
    ooooooooo|ooooooooo|ohohohoho|ohohohoho|ohohohoho|ohohohoho|ohohohoho|ohohohoho|ohohohoho|\
    ohwohwohw|wwwwwwwww|wwwwwwwww|wwwwwwwww|wwwwwwwww|wnwnwnwnw|nnnnnnnnn";

fn ran_on(alloc: Global, texts: &[String], disk: FusedDisk<MemoryDisk>) -> MemoryDisk {
    let mut out = MemorySink::new(alloc, Vec::new(alloc));
    let Ran { disk, .. } = run_command(alloc, texts, [1, 2], disk, &mut out);
    disk.into_inner()
}

// The disk of an update that was stopped after so many calls.
fn stopped_after(alloc: Global, before: &MemoryDisk, calls: u64) -> Result<MemoryDisk, AllocError> {
    let texts = texts_of(alloc, UPDATE)?;
    let disk = FusedDisk::new(copy_of(alloc, before, &[])?, calls);
    Ok(ran_on(alloc, &texts, disk))
}

// Which of the four a disk has, if it has one.
fn letter_of(alloc: Global, disk: &MemoryDisk) -> Result<u8, AllocError> {
    let hidden = disk.contents(FileName::Oal).is_some();
    if disk.contents(FileName::Wal).is_some() {
        let whole = has_sum(alloc, disk, FileName::Wal, LOG)? && !hidden;
        return Ok(if whole { b'w' } else { b'?' });
    }
    if has_sum(alloc, disk, FileName::Target, TARGET_BEFORE)? {
        return Ok(if hidden { b'h' } else { b'o' });
    }
    let new = has_sum(alloc, disk, FileName::Target, TARGET_AFTER)? && !hidden;
    Ok(if new { b'n' } else { b'?' })
}

// What an update says of a disk with this letter.
fn line_of(letter: u8) -> &'static str {
    match letter {
        b'o' => CLEAN,
        b'n' => INSERTED,
        _ => LEFT_OVER,
    }
}

fn has_letter(alloc: Global, left: &MemoryDisk, letter: u8) -> Result<(), Fail> {
    ensure(letter_of(alloc, left)? == letter, "what a crash leaves")?;
    let is_said = update_writes(alloc, left, line_of(letter))?;
    ensure(is_said, "the update after a crash")
}

// A crash by this choice leaves this, and a second update says so.
fn leaves(alloc: Global, stopped: &MemoryDisk, choice: u64, letter: u8) -> Result<(), Fail> {
    let left = stopped.crash(alloc, choice)?;
    has_letter(alloc, &left, letter)
}

fn leaves_each(alloc: Global, stopped: &MemoryDisk, letters: &'static str) -> Result<(), Fail> {
    let mut choice: u64 = 0;
    for letter in letters.bytes() {
        leaves(alloc, stopped, choice, letter)?;
        choice = choice.saturating_add(1);
    }
    Ok(())
}

fn is_stopped_after(
    alloc: Global,
    before: &MemoryDisk,
    calls: u64,
    letters: &'static str,
) -> Result<(), Fail> {
    let stopped = stopped_after(alloc, before, calls)?;
    leaves_each(alloc, &stopped, letters)
}

fn is_stopped_after_each(alloc: Global, before: &MemoryDisk) -> Result<(), Fail> {
    let mut calls: u64 = 0;
    for letters in CRASHES.split('|') {
        is_stopped_after(alloc, before, calls, letters)?;
        calls = calls.saturating_add(1);
    }
    Ok(())
}

#[test]
fn crash_of_a_stopped_update_leaves_the_old_rows_or_the_new(rt: HostRuntime) -> Result<(), Fail> {
    let before = example_disk(rt.alloc())?;
    is_stopped_after_each(rt.alloc(), &before)
}
