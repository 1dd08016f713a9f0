// Dumps of the schema and of tables, over a target that SQLite made.
use crate::changes::Change;
use crate::target::{changed_target, each_call_is_told, ends, failing_output_is_told};
use disk_memory::MemoryDisk;
use rbu_disk::FileName;
use std::alloc::Global;
use std::test::Fail;

// The rows of its schema, as SQLite has them.
const ROWS: &str =
    "1|'table'|'t1'|'t1'|2|'CREATE TABLE t1(a INTEGER PRIMARY KEY, b TEXT, c UNIQUE)'\n\
    2|'index'|'sqlite_autoindex_t1_1'|'t1'|3|NULL\n";

const DUMP: &str = "dump|sqlite_schema";

// Changes of the target, and the status and the text of a dump. The files that are named are the causes in their order: a
// journal counts before a log, and a log before what the target is.
const ANSWERS: &[(&[Change], u8, &str)] = &[
    (&[], 0, ROWS),
    (
        &[
            Change::Create(FileName::Journal),
            Change::Create(FileName::State),
            Change::Create(FileName::Oal),
        ],
        0,
        ROWS,
    ),
    (&[Change::Write(FileName::Journal, 0, b"\x00\xd9")], 0, ROWS),
    (
        &[
            Change::Write(FileName::Journal, 0, b"\xd9"),
            Change::Create(FileName::Wal),
            Change::Remove(FileName::Target),
        ],
        4,
        "refused 121 JournalPresent\n",
    ),
    (
        &[
            Change::Create(FileName::Wal),
            Change::Remove(FileName::Target),
        ],
        4,
        "refused 1 NotYet log\n",
    ),
    (
        &[Change::SetLen(FileName::Target, 50)],
        4,
        "refused 30 NotADatabase\n",
    ),
    (
        &[Change::Remove(FileName::Target)],
        4,
        "refused 30 NotADatabase\n",
    ),
    (
        &[Change::SetLen(FileName::Target, 8192)],
        4,
        "refused 35 SizeMismatch 3 8192\n",
    ),
    // The page of the schema is of no kind.
    (
        &[Change::Write(FileName::Target, 100, b"\x00")],
        4,
        "refused 55 TreeDamaged 1 kind\n",
    ),
    // The header of the second record has four columns.
    (
        &[Change::Write(FileName::Target, 4053, b"\x05")],
        4,
        "refused 62 SchemaRow 2\n",
    ),
    // The first column of the first record has a type that is reserved.
    (
        &[Change::Write(FileName::Target, 3980, b"\x0a")],
        4,
        "refused 62 SchemaRow 1\n",
    ),
];

fn answer_is(
    alloc: Global,
    changes: &[Change],
    status: u8,
    line: &'static str,
) -> Result<(), Fail> {
    let disk = changed_target(alloc, changes)?;
    ends(alloc, &disk, DUMP, &[], &[], status, line)
}

#[test]
fn dump_has_the_rows_of_the_schema_or_the_first_refusal(rt: HostRuntime) -> Result<(), Fail> {
    for (changes, status, line) in ANSWERS {
        answer_is(rt.alloc(), changes, *status, line)?;
    }
    Ok(())
}

// The rows of the table.
const TABLE: &str = "1|1|'one'|10\n2|2|'two'|20\n3|3|'three'|30\n";

// Names, changes of the target, and the status and the text of a dump. Of two things that are wrong the first cause counts: the
// schema before the name, the text of a table before its tree, and of the tree what stands first.
const TABLES: &[(&str, &[Change], u8, &str)] = &[
    ("dump|t1", &[], 0, TABLE),
    ("dump|T1", &[Change::Create(FileName::State)], 0, TABLE),
    ("dump|t9", &[], 4, "refused 84 NoTarget t9\n"),
    ("dump|", &[], 4, "refused 84 NoTarget \n"),
    (
        "dump|sqlite_schem",
        &[],
        4,
        "refused 84 NoTarget sqlite_schem\n",
    ),
    (
        "dump|sqlite_autoindex_t1_1",
        &[],
        4,
        "refused 84 NoTarget sqlite_autoindex_t1_1\n",
    ),
    (
        "dump|t1",
        &[
            Change::Write(FileName::Journal, 0, b"\xd9"),
            Change::Create(FileName::Wal),
        ],
        4,
        "refused 121 JournalPresent\n",
    ),
    (
        "dump|t9",
        &[
            Change::Create(FileName::Wal),
            Change::SetLen(FileName::Target, 50),
        ],
        4,
        "refused 1 NotYet log\n",
    ),
    (
        "dump|t9",
        &[Change::SetLen(FileName::Target, 8192)],
        4,
        "refused 35 SizeMismatch 3 8192\n",
    ),
    (
        "dump|t9",
        &[Change::Write(FileName::Target, 100, b"\x00")],
        4,
        "refused 55 TreeDamaged 1 kind\n",
    ),
    // The index has the root of the table.
    (
        "dump|t9",
        &[Change::Write(FileName::Target, 4087, b"\x02")],
        4,
        "refused 62 SchemaRow 2\n",
    ),
    // The schema has one row, of a text that ends too early; and the table's page is of no kind.
    (
        "dump|t1",
        &[
            Change::Write(FileName::Target, 104, b"\x01"),
            Change::Write(
                FileName::Target,
                3995,
                b"CREATE TABLE t1(a INTEGER PRIMARY KEY,)                 ",
            ),
            Change::Write(FileName::Target, 4096, b"\x00"),
        ],
        4,
        "refused 60 SqlSyntax t1 38\n",
    ),
    // So it has, of a table without rowids, whose name is printed as it stands there.
    (
        "dump|wW",
        &[
            Change::Write(FileName::Target, 104, b"\x01"),
            Change::Write(
                FileName::Target,
                3990,
                b"WwWw\x02CREATE TABLE ww(k TEXT PRIMARY KEY) WITHOUT ROWID       ",
            ),
        ],
        4,
        "refused 61 OutsideProfile Ww WITHOUT\n",
    ),
    (
        "dump|t1",
        &[Change::Write(FileName::Target, 4096, b"\x00")],
        4,
        "refused 55 TreeDamaged 2 kind\n",
    ),
    // The rowids of the second and the third row do not rise.
    (
        "dump|t1",
        &[Change::Write(FileName::Target, 8161, b"\x02")],
        4,
        "refused 55 TreeDamaged 2 cells\n",
    ),
    // The record of the second row has two values, and that of the third a reserved type.
    (
        "dump|t1",
        &[
            Change::Write(FileName::Target, 8174, b"\x03\x00\x17twoxx"),
            Change::Write(FileName::Target, 8164, b"\x0a"),
        ],
        4,
        "refused 96 TargetRecord t1 2 25\n",
    ),
    // A header that is too long, a reserved type, a floating point value, and a body that is too short.
    (
        "dump|t1",
        &[Change::Write(FileName::Target, 8162, b"\x0b")],
        4,
        "refused 96 TargetRecord t1 3 20\n",
    ),
    (
        "dump|t1",
        &[Change::Write(FileName::Target, 8164, b"\x0a")],
        4,
        "refused 96 TargetRecord t1 3 21\n",
    ),
    (
        "dump|t1",
        &[Change::Write(FileName::Target, 8164, b"\x07\x00")],
        4,
        "refused 96 TargetRecord t1 3 22\n",
    ),
    (
        "dump|t1",
        &[Change::Write(FileName::Target, 8164, b"\x15")],
        4,
        "refused 96 TargetRecord t1 3 23\n",
    ),
];

fn table_is(
    alloc: Global,
    words: &str,
    changes: &[Change],
    status: u8,
    line: &'static str,
) -> Result<(), Fail> {
    let disk = changed_target(alloc, changes)?;
    ends(alloc, &disk, words, &[], &[], status, line)
}

#[test]
fn dump_has_the_rows_of_a_table_or_the_first_refusal(rt: HostRuntime) -> Result<(), Fail> {
    for (words, changes, status, line) in TABLES {
        table_is(rt.alloc(), words, changes, *status, line)?;
    }
    Ok(())
}

// What a dump of the schema says where one of its calls fails, in the order of the calls: the last is the read of the page. A dump
// of the table reads page 1 once more, and then the page of the table.
const FAULTS: &[&str] = &[
    "fault Target SyncFolder\n",
    "fault Journal Read\n",
    "fault Wal Exists\n",
    "fault Target Read\n",
    "fault Target Len\n",
    "fault Target Read\n",
];

const TABLE_FAULTS: &[&str] = &[
    "fault Target SyncFolder\n",
    "fault Journal Read\n",
    "fault Wal Exists\n",
    "fault Target Read\n",
    "fault Target Len\n",
    "fault Target Read\n",
    "fault Target Read\n",
    "fault Target Read\n",
];

fn all_faults_are_told(alloc: Global, disk: &MemoryDisk) -> Result<(), Fail> {
    each_call_is_told(alloc, disk, DUMP, FAULTS, ROWS)?;
    each_call_is_told(alloc, disk, "dump|SQLite_SCHEMA", FAULTS, ROWS)?;
    each_call_is_told(alloc, disk, "dump|t1", TABLE_FAULTS, TABLE)?;
    failing_output_is_told(alloc, disk, DUMP, ROWS)
}

#[test]
fn dump_tells_the_call_that_failed(rt: HostRuntime) -> Result<(), Fail> {
    let disk = changed_target(rt.alloc(), &[])?;
    all_faults_are_told(rt.alloc(), &disk)
}
