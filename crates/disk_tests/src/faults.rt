// Updates whose calls on the disk fail, and commands whose output fails.
use crate::ensure::ensure;
use crate::example::{disk_with, example_disk};
use crate::runs::{
    LOG, Left, TARGET_BEFORE, UPDATE, are_updated, has_same_files, has_sum, run_with_faults, tells,
    update_writes,
};
use disk_memory::MemoryDisk;
use rbu_disk::FileName;
use std::alloc::{AllocError, Global};
use std::test::Fail;

/// What a second update says where the first left the old files, a log, or the new files.
pub const CLEAN: &str = "done\n";

pub const LEFT_OVER: &str = "refused 1 NotYet files\n";

pub const INSERTED: &str = "constraint key-present t1 1\n";

// What an update says where one of its calls fails, in the order of the calls, and what a second update says then.
const CALLS: &[(&str, &str)] = &[
    ("fault Target SyncFolder\n", CLEAN),
    ("fault State Exists\n", CLEAN),
    ("fault StateTemp Exists\n", CLEAN),
    ("fault Wal Exists\n", CLEAN),
    ("fault Oal Exists\n", CLEAN),
    ("fault Journal Exists\n", CLEAN),
    ("fault Target Len\n", CLEAN),
    ("fault Target Read\n", CLEAN),
    ("fault Rbu Len\n", CLEAN),
    ("fault Rbu Read\n", CLEAN),
    ("fault Oal Create\n", CLEAN),
    ("fault Oal Write\n", LEFT_OVER),
    ("fault Oal Write\n", LEFT_OVER),
    ("fault Oal Write\n", LEFT_OVER),
    ("fault Oal Write\n", LEFT_OVER),
    ("fault Oal Write\n", LEFT_OVER),
    ("fault Oal Sync\n", LEFT_OVER),
    ("fault Oal Rename\n", LEFT_OVER),
    ("fault Target SyncFolder\n", LEFT_OVER),
    ("fault Target Write\n", LEFT_OVER),
    ("fault Target Write\n", LEFT_OVER),
    ("fault Target Sync\n", LEFT_OVER),
    ("fault Wal Remove\n", LEFT_OVER),
    ("fault Target SyncFolder\n", INSERTED),
];

// After the rename failed the log is whole, and the target is as it was.
fn keeps_whole_log(alloc: Global, disk: &MemoryDisk) -> Result<bool, AllocError> {
    Ok(
        has_sum(alloc, disk, FileName::Oal, LOG)?
            && has_sum(alloc, disk, FileName::Target, TARGET_BEFORE)?
            && disk.contents(FileName::Wal).is_none(),
    )
}

fn is_told(alloc: Global, left: &Left, line: &'static str, second: &str) -> Result<(), Fail> {
    ensure(tells(left, 6, line), line)?;
    let is_again = update_writes(alloc, &left.disk, second)?;
    ensure(is_again, "the second update")?;
    let is_whole = line != "fault Oal Rename\n" || keeps_whole_log(alloc, &left.disk)?;
    ensure(is_whole, "a whole log")
}

// The call on the disk with this number fails and is named, and a second update says what it finds.
fn call_fails(
    alloc: Global,
    before: &MemoryDisk,
    number: u64,
    line: &'static str,
    second: &str,
) -> Result<(), Fail> {
    let left = run_with_faults(alloc, UPDATE, before, &[number], &[])?;
    is_told(alloc, &left, line, second)
}

fn ends_well(alloc: Global, before: &MemoryDisk, number: u64) -> Result<bool, AllocError> {
    let left = run_with_faults(alloc, UPDATE, before, &[number], &[])?;
    Ok(left.status == 0)
}

fn each_call_fails(alloc: Global, before: &MemoryDisk) -> Result<(), Fail> {
    let mut number: u64 = 0;
    for (line, second) in CALLS {
        call_fails(alloc, before, number, line, second)?;
        number = number.saturating_add(1);
    }
    ensure(ends_well(alloc, before, number)?, "a call more")
}

#[test]
fn each_failing_call_is_named_and_leaves_files_for_a_second_update(
    rt: HostRuntime,
) -> Result<(), Fail> {
    let before = example_disk(rt.alloc())?;
    each_call_fails(rt.alloc(), &before)
}

// The command's status is 8, it wrote nothing, and it left these files.
fn output_takes_nothing(
    alloc: Global,
    words: &'static str,
    before: &MemoryDisk,
    told: &MemoryDisk,
) -> Result<(), Fail> {
    let left = run_with_faults(alloc, words, before, &[], &[0])?;
    ensure(
        tells(&left, 8, "") && has_same_files(&left.disk, told),
        words,
    )
}

// The command leaves the files that it leaves where the output takes all.
fn leaves_its_files(alloc: Global, words: &'static str, before: &MemoryDisk) -> Result<(), Fail> {
    let told = run_with_faults(alloc, words, before, &[], &[])?;
    output_takes_nothing(alloc, words, before, &told.disk)
}

fn is_updated_without_output(alloc: Global, before: &MemoryDisk) -> Result<bool, AllocError> {
    let left = run_with_faults(alloc, UPDATE, before, &[], &[0])?;
    are_updated(alloc, &left.disk)
}

fn output_fails_beside(alloc: Global, free: &MemoryDisk) -> Result<(), Fail> {
    for words in [UPDATE, "check", "apply|0"] {
        leaves_its_files(alloc, words, free)?;
    }
    ensure(is_updated_without_output(alloc, free)?, "the updated files")
}

fn output_fails_beside_a_free_key(alloc: Global) -> Result<(), Fail> {
    let free = example_disk(alloc)?;
    output_fails_beside(alloc, &free)
}

fn output_fails_beside_a_present_key(alloc: Global) -> Result<(), Fail> {
    let present = disk_with(alloc, &[b"\x06\x01\x04\x01\x0f\x08\x02x"])?;
    leaves_its_files(alloc, UPDATE, &present)
}

// A failing output takes nothing from the update, which is made.
#[test]
fn failing_output_leaves_the_files_of_the_command(rt: HostRuntime) -> Result<(), Fail> {
    output_fails_beside_a_free_key(rt.alloc())?;
    output_fails_beside_a_present_key(rt.alloc())
}
