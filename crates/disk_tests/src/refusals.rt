// Words and files for which nothing is changed.
use crate::changes::{Change, make};
use crate::ensure::ensure;
use crate::example::example_disk;
use crate::runs::{has_same_files, run_with_faults, stopped, tells};
use disk_memory::MemoryDisk;
use rbu_disk::{DiskFault, FileName};
use std::alloc::Global;
use std::test::Fail;

// Words between bars, a command on each line.
const NO_COMMAND: &str = "
apply|0
apply|+1
apply|-1
apply| 1
apply|
apply|4294967296
apply|01
apply|04294967295
apply
apply|1|2
Apply|1
check|t1
dump
dump|t1|t2
state|x
make|0|1
make|200001|0
make|1|4294967296
trial|1|2
beside|17|1
beside|1|1001
nope";

const NOT_BUILT: &str = "apply|1
apply|4294967294
state
make|1|0
make|200000|4294967295
trial|20|7|5
beside|16|1000";

// The words are answered by this status and line, though the first call on the disk is to fail: it is not made.
fn is_judged(
    alloc: Global,
    before: &MemoryDisk,
    words: &str,
    status: u8,
    line: &'static str,
) -> Result<(), Fail> {
    let left = run_with_faults(alloc, words, before, &[0], &[])?;
    ensure(
        tells(&left, status, line) && has_same_files(&left.disk, before),
        line,
    )
}

fn are_judged(
    alloc: Global,
    before: &MemoryDisk,
    commands: &str,
    status: u8,
    line: &'static str,
) -> Result<(), Fail> {
    for words in commands.split('\n') {
        is_judged(alloc, before, words, status, line)?;
    }
    Ok(())
}

fn all_are_judged(alloc: Global, before: &MemoryDisk) -> Result<(), Fail> {
    are_judged(alloc, before, NO_COMMAND, 2, "usage\n")?;
    are_judged(alloc, before, NOT_BUILT, 4, "refused 1 NotYet words\n")
}

#[test]
fn words_are_judged_before_the_disk_is_called(rt: HostRuntime) -> Result<(), Fail> {
    let before = example_disk(rt.alloc())?;
    all_are_judged(rt.alloc(), &before)
}

// Changes of the example, and the part that is named. A file that is there, though empty, counts before a target that
// is missing, and so on from part to part.
const OTHER_FILES: &[(&[Change], &str)] = &[
    (
        &[Change::Create(FileName::State)],
        "refused 1 NotYet files\n",
    ),
    (
        &[Change::Create(FileName::StateTemp)],
        "refused 1 NotYet files\n",
    ),
    (&[Change::Create(FileName::Wal)], "refused 1 NotYet files\n"),
    (&[Change::Create(FileName::Oal)], "refused 1 NotYet files\n"),
    (
        &[Change::Create(FileName::Journal)],
        "refused 1 NotYet files\n",
    ),
    (
        &[
            Change::Create(FileName::State),
            Change::Remove(FileName::Target),
        ],
        "refused 1 NotYet files\n",
    ),
    (
        &[
            Change::Create(FileName::StateTemp),
            Change::Remove(FileName::Target),
        ],
        "refused 1 NotYet files\n",
    ),
    (
        &[
            Change::Create(FileName::Wal),
            Change::Remove(FileName::Target),
        ],
        "refused 1 NotYet files\n",
    ),
    (
        &[
            Change::Create(FileName::Oal),
            Change::Remove(FileName::Target),
        ],
        "refused 1 NotYet files\n",
    ),
    (
        &[
            Change::Create(FileName::Journal),
            Change::Remove(FileName::Target),
        ],
        "refused 1 NotYet files\n",
    ),
    (
        &[Change::SetLen(FileName::Target, 8191)],
        "refused 1 NotYet target\n",
    ),
    (
        &[Change::SetLen(FileName::Rbu, 8191)],
        "refused 1 NotYet rbu\n",
    ),
    (&[Change::Remove(FileName::Rbu)], "refused 1 NotYet rbu\n"),
    (
        &[
            Change::Remove(FileName::Rbu),
            Change::SetLen(FileName::Target, 8191),
        ],
        "refused 1 NotYet target\n",
    ),
    (
        &[
            Change::Remove(FileName::Rbu),
            Change::Remove(FileName::Target),
        ],
        "refused 1 NotYet target\n",
    ),
];

fn change_all(disk: &mut MemoryDisk, changes: &[Change]) -> Result<(), DiskFault> {
    for change in changes {
        make(disk, *change)?;
    }
    Ok(())
}

fn changed_disk(alloc: Global, changes: &[Change]) -> Result<MemoryDisk, DiskFault> {
    let mut disk = example_disk(alloc)?;
    change_all(&mut disk, changes)?;
    Ok(disk)
}

fn part_is_named(alloc: Global, changes: &[Change], line: &'static str) -> Result<(), Fail> {
    let disk = changed_disk(alloc, changes)?;
    stopped(alloc, &disk, 4, line)
}

#[test]
fn first_part_that_is_not_built_is_named(rt: HostRuntime) -> Result<(), Fail> {
    for (changes, line) in OTHER_FILES {
        part_is_named(rt.alloc(), changes, line)?;
    }
    Ok(())
}
