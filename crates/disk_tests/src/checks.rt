// Checks of a target that SQLite made, sound and damaged.
use crate::changes::Change;
use crate::example::{Parts, example_disk, write_parts};
use crate::runs::updated;
use crate::target::{changed_target, each_call_is_told, ends, failing_output_is_told};
use disk_memory::MemoryDisk;
use rbu_disk::{DiskFault, FileName};
use std::alloc::Global;
use std::test::Fail;

const CHECK: &str = "check";

const SOUND: &str = "sound 3 3\n";

// Bytes of the target that are others, and what a check says of a sound file: how many pages and trees it has.
const SOUND_FILES: &[(Parts, &str)] = &[
    (&[], SOUND),
    // The record of the second row has two values, so that the table is not plain, and its index is not compared with it.
    (&[(8174, b"\x03\x00\x17twoxx")], SOUND),
    // The schema has one row, of a text that ends too early, and page 3 is past the size.
    (
        &[
            (31, b"\x02"),
            (104, b"\x01"),
            (
                3995,
                b"CREATE TABLE t1(a INTEGER PRIMARY KEY,)                 ",
            ),
        ],
        "sound 2 2\n",
    ),
    // The two rows of the table have NULL in the column of its unique index.
    (
        &[
            (8160, b"\x09\x03\x04\x00\x17\x00three"),
            (8172, b"\x07\x02\x04\x00\x13\x00two"),
            (8200, b"\x0f\xf5\x0f\xef\x0f\xfb"),
            (12271, b"\x04\x03\x00\x01\x03"),
            (12277, b"\x04\x03\x00\x01\x02"),
        ],
        SOUND,
    ),
    // There is also a view, and a table without rowids of one row, at root 4.
    (
        &[
            (31, b"\x04"),
            (
                100,
                b"\x0d\x0f\xf8\x00\x04\x0f\x12\x00\x0f\x89\x0f\xd3\x0f\x5a\x0f\x12",
            ),
            (
                3858,
                b"F\x04\x06\x17\x0f\x0f\x01}tablezz\x04CREATE TABLE z(k TEXT PRIMARY KEY, r REAL) WITHOUT ROWID\
                -\x03\x06\x15\x0f\x0f\x08OviewvvCREATE VIEW v AS SELECT a FROM t1",
            ),
            (12288, b"\x0a\x00\x00\x00\x01\x0f\xfb\x00\x0f\xfb"),
            (16379, b"\x04\x03\x0f\x00a"),
        ],
        "sound 4 4\n",
    ),
    // Page 4 is the one trunk page of the freelist.
    (
        &[
            (31, b"\x04"),
            (35, b"\x04"),
            (39, b"\x01"),
            (16383, b"\x00"),
        ],
        "sound 4 3\n",
    ),
];

// Bytes of the target that are others, and the first refusal of a check, in the order of the header, the schema, the trees, the
// freelist, lost pages, and indexes beside their tables.
const REFUSED: &[(Parts, &str)] = &[
    // The header.
    (&[(15, b"x")], "refused 30 NotADatabase\n"),
    (&[(16, b"\x10\x02\x02")], "refused 31 PageSize 4098\n"),
    (&[(19, b"\x02"), (47, b"\x05")], "refused 32 WalMode\n"),
    (
        &[(16, b"\x02\x00\x01\x01\x21"), (47, b"\x05")],
        "refused 36 ReservedSpace 33\n",
    ),
    (
        &[(47, b"\x05"), (59, b"\x02")],
        "refused 39 SchemaFormat 5\n",
    ),
    (&[(55, b"\x01"), (59, b"\x02")], "refused 33 Encoding 2\n"),
    (&[(31, b"\x04"), (55, b"\x03")], "refused 34 AutoVacuum 3\n"),
    (&[(31, b"\x04")], "refused 35 SizeMismatch 4 12288\n"),
    // The schema: its page is of no kind, its first record has a type that is reserved, the index has the root of the table, the index is
    // missing, and the second table has the name of the first.
    (
        &[(100, b"\x00"), (8192, b"\x00")],
        "refused 55 TreeDamaged 1 kind\n",
    ),
    (&[(3980, b"\x0a")], "refused 62 SchemaRow 1\n"),
    (
        &[(4087, b"\x02"), (8192, b"\x00")],
        "refused 62 SchemaRow 2\n",
    ),
    (&[(104, b"\x01")], "refused 62 SchemaRow 1\n"),
    (
        &[
            (4044, b"      "),
            (
                4051,
                b"\x22\x02\x06\x17\x11\x11\x01\x31tableT1T1\x03CREATE TABLE T1(a)",
            ),
        ],
        "refused 63 DuplicateName T1\n",
    ),
    // The trees: rowids that do not rise come before the index that is of no kind, and so on.
    (
        &[(8173, b"\x04"), (8192, b"\x00")],
        "refused 72 KeyOrder 2\n",
    ),
    (&[(8177, b"\x0a")], "refused 74 Damaged 2 record\n"),
    (&[(4105, b"\xfe")], "refused 74 Damaged 2 cells\n"),
    (
        &[(4096, b"\x0a"), (39, b"\x01")],
        "refused 74 Damaged 2 kind\n",
    ),
    (&[(12280, b"\x00")], "refused 74 Damaged 3 record\n"),
    (
        &[(12281, b"\x1f"), (35, b"\x09")],
        "refused 72 KeyOrder 3\n",
    ),
    // The freelist: a trunk that is the page of an index, one that is past the size, and the number of its pages.
    (
        &[(35, b"\x03"), (12281, b"\x15")],
        "refused 70 PageTwice 3\n",
    ),
    (
        &[(31, b"\x04"), (35, b"\x09"), (16383, b"\x00")],
        "refused 74 Damaged 1 trunk\n",
    ),
    (
        &[(31, b"\x04"), (39, b"\x01"), (16383, b"\x00")],
        "refused 74 Damaged 1 count\n",
    ),
    (&[(39, b"\x01")], "refused 74 Damaged 1 count\n"),
    // A page that is found nowhere, and an entry of the index that is not the table's.
    (
        &[(31, b"\x04"), (12281, b"\x15"), (16383, b"\x00")],
        "refused 71 PageLost 4\n",
    ),
    // The index: an entry of another column, two rows of one column, an entry too few, and one too many.
    (
        &[(12281, b"\x15")],
        "refused 73 IndexDisagrees sqlite_autoindex_t1_1 2\n",
    ),
    (
        &[(8171, b"\x14"), (12275, b"\x14")],
        "refused 73 IndexDisagrees sqlite_autoindex_t1_1 3\n",
    ),
    (
        &[(8196, b"\x02")],
        "refused 73 IndexDisagrees sqlite_autoindex_t1_1 3\n",
    ),
    (
        &[(4100, b"\x02")],
        "refused 73 IndexDisagrees sqlite_autoindex_t1_1 3\n",
    ),
];

fn target_with(alloc: Global, parts: Parts) -> Result<MemoryDisk, DiskFault> {
    let mut disk = changed_target(alloc, &[])?;
    write_parts(&mut disk, FileName::Target, parts)?;
    Ok(disk)
}

fn bytes_are(alloc: Global, parts: Parts, status: u8, line: &'static str) -> Result<(), Fail> {
    let disk = target_with(alloc, parts)?;
    ends(alloc, &disk, CHECK, &[], &[], status, line)
}

#[test]
fn check_counts_the_pages_and_trees_of_sound_files(rt: HostRuntime) -> Result<(), Fail> {
    for (parts, line) in SOUND_FILES {
        bytes_are(rt.alloc(), parts, 0, line)?;
    }
    Ok(())
}

#[test]
fn check_tells_the_first_refusal_of_damaged_files(rt: HostRuntime) -> Result<(), Fail> {
    for (parts, line) in REFUSED {
        bytes_are(rt.alloc(), parts, 4, line)?;
    }
    Ok(())
}

// Changes of the files, and the status and the line of a check. The files that are named are the causes in their order: a journal
// counts before a log, and a log before what the target is.
const FILES: &[(&[Change], u8, &str)] = &[
    (
        &[
            Change::Create(FileName::Journal),
            Change::Create(FileName::State),
            Change::Create(FileName::Oal),
        ],
        0,
        SOUND,
    ),
    (
        &[Change::Write(FileName::Journal, 0, b"\x00\xd9")],
        0,
        SOUND,
    ),
    (
        &[
            Change::Write(FileName::Journal, 0, b"\xd9"),
            Change::Create(FileName::Wal),
            Change::Remove(FileName::Target),
        ],
        4,
        "refused 121 JournalPresent\n",
    ),
    (
        &[
            Change::Create(FileName::Wal),
            Change::Remove(FileName::Target),
        ],
        4,
        "refused 1 NotYet log\n",
    ),
    (
        &[Change::Remove(FileName::Target)],
        4,
        "refused 30 NotADatabase\n",
    ),
    (
        &[Change::SetLen(FileName::Target, 0)],
        4,
        "refused 30 NotADatabase\n",
    ),
    (
        &[Change::SetLen(FileName::Target, 99)],
        4,
        "refused 30 NotADatabase\n",
    ),
    (
        &[Change::SetLen(FileName::Target, 8192)],
        4,
        "refused 35 SizeMismatch 3 8192\n",
    ),
    (&[Change::SetLen(FileName::Target, 12289)], 0, SOUND),
];

fn files_are(
    alloc: Global,
    changes: &[Change],
    status: u8,
    line: &'static str,
) -> Result<(), Fail> {
    let disk = changed_target(alloc, changes)?;
    ends(alloc, &disk, CHECK, &[], &[], status, line)
}

#[test]
fn check_looks_at_the_other_files_first(rt: HostRuntime) -> Result<(), Fail> {
    for (changes, status, line) in FILES {
        files_are(rt.alloc(), changes, *status, line)?;
    }
    Ok(())
}

fn updated_target_is_sound(alloc: Global, before: &MemoryDisk) -> Result<(), Fail> {
    let left = updated(alloc, before, 0, "done\n")?;
    ends(alloc, &left.disk, CHECK, &[], &[], 0, "sound 2 2\n")
}

#[test]
fn an_update_leaves_a_sound_target(rt: HostRuntime) -> Result<(), Fail> {
    let before = example_disk(rt.alloc())?;
    updated_target_is_sound(rt.alloc(), &before)
}

// What a check says where one of its calls fails, in the order of the calls. Behind the header, page 1 is read for the format of the schema, for
// its rows, and as its tree, page 2 as the tree of the table and for what the index is to have, page 3 as the tree of the index, and page 1
// for the freelist.
const FAULTS: &[&str] = &[
    "fault Target SyncFolder\n",
    "fault Journal Read\n",
    "fault Wal Exists\n",
    "fault Target Read\n",
    "fault Target Len\n",
    "fault Target Read\n",
    "fault Target Read\n",
    "fault Target Read\n",
    "fault Target Read\n",
    "fault Target Read\n",
    "fault Target Read\n",
    "fault Target Read\n",
];

fn all_faults_are_told(alloc: Global, disk: &MemoryDisk) -> Result<(), Fail> {
    each_call_is_told(alloc, disk, CHECK, FAULTS, SOUND)?;
    failing_output_is_told(alloc, disk, CHECK, SOUND)
}

#[test]
fn check_tells_the_call_that_failed(rt: HostRuntime) -> Result<(), Fail> {
    let disk = changed_target(rt.alloc(), &[])?;
    all_faults_are_told(rt.alloc(), &disk)
}
