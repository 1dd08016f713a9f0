//! What the updater refuses, each refusal with its number, its name and its fields.
//!
//! The layer above may use `Refusal` and the types of its fields; how they are printed is said by `Refusal` in
//! `specs/`. All refusals stand here, also those that no crate answers yet.
#![tactic(auto)]

ghost use Rattle.std.specs.Prelude.{◌≡◌, ◌≤◌, length};

use rbu_value::Bytes;

/// The part of the updater that an input needs and that is not built yet.
#[derive(Clone, Copy, Debug, PartialEq, Eq)]
pub enum Part {
    /// The words name a command that is not built.
    Words,
    /// A file of a running update, or a rollback journal, exists.
    Files,
    /// The target is not a small file.
    Target,
    /// The RBU database is not a small file.
    Rbu,
    /// Two prepared rows have one key.
    Rows,
    /// The rows do not fit their page.
    Room,
    /// The target has a write-ahead log.
    Log,
    /// The name is not that of a table that can be printed.
    Name,
}

impl Part {
    ghost use Rattle.refusal.specs.Refusal.{part_word};

    /// The word that is printed for the part, of at most 6 bytes.
    pub fn word(self) -> &'static str
        ensures word { result.now ≡ part_word self }
        ensures short { length result.now ≤ 6 }
    {
        match self {
            Part::Words => "words",
            Part::Files => "files",
            Part::Target => "target",
            Part::Rbu => "rbu",
            Part::Rows => "rows",
            Part::Room => "room",
            Part::Log => "log",
            Part::Name => "name",
        }
    }
}

/// What is wrong with a page, a tree or a chain.
#[derive(Clone, Copy, Debug, PartialEq, Eq)]
pub enum Rule {
    /// A page of a wrong type.
    Kind,
    /// Cells that do not decode, or whose rooms leave their bounds or overlap.
    Cells,
    /// A child out of range.
    Child,
    /// Leaves at two depths, or past the greatest depth.
    Depth,
    /// A page without the cells that it needs.
    Empty,
    /// An overflow chain.
    Chain,
    /// A trunk of the freelist.
    Trunk,
    /// The number of free pages in the database header.
    Count,
    /// A record.
    Record,
}

impl Rule {
    ghost use Rattle.refusal.specs.Refusal.{rule_word};

    /// The word that is printed for the rule, of at most 6 bytes.
    pub fn word(self) -> &'static str
        ensures word { result.now ≡ rule_word self }
        ensures short { length result.now ≤ 6 }
    {
        match self {
            Rule::Kind => "kind",
            Rule::Cells => "cells",
            Rule::Child => "child",
            Rule::Depth => "depth",
            Rule::Empty => "empty",
            Rule::Chain => "chain",
            Rule::Trunk => "trunk",
            Rule::Count => "count",
            Rule::Record => "record",
        }
    }
}

/// What is limited of an update.
#[derive(Clone, Copy, Debug, PartialEq, Eq)]
pub enum Measure {
    /// The columns of a targeted table.
    Columns,
    /// The indexes of a targeted table.
    Indexes,
    /// The bytes of the name of a targeted table, of one of its indexes, or of its `data_` table.
    Name,
    /// The bytes of the record of one prepared row.
    Record,
    /// All prepared rows.
    Rows,
    /// The bytes of the records of all prepared rows.
    Bytes,
}

impl Measure {
    ghost use Rattle.refusal.specs.Refusal.{measure_word};

    /// The word that is printed for the measure, of at most 7 bytes.
    pub fn word(self) -> &'static str
        ensures word { result.now ≡ measure_word self }
        ensures short { length result.now ≤ 7 }
    {
        match self {
            Measure::Columns => "columns",
            Measure::Indexes => "indexes",
            Measure::Name => "name",
            Measure::Record => "record",
            Measure::Rows => "rows",
            Measure::Bytes => "bytes",
        }
    }
}

/// What the updater refuses. Of 80 to 83, 85 to 92 and 95 the table is the `data_` table, and each rowid is one of its own.
#[derive(Drop)]
pub enum Refusal {
    /// 1: the input is of a part that is not built yet.
    NotYet {
        part: Part,
    },
    /// 30: the file is shorter than 100 bytes, or does not begin as a database does.
    NotADatabase,
    /// 31: the size of a page is no power of two from 512 to 65536.
    PageSize {
        value: u64,
    },
    /// 32: the write or the read version is not that of a rollback journal.
    WalMode,
    /// 33: the text encoding is not UTF-8.
    Encoding {
        value: u64,
    },
    /// 34: the largest root page is not 0, as in an auto-vacuum database.
    AutoVacuum {
        value: u64,
    },
    /// 35: the file, of `length` bytes, has no whole page, more than 2^24 pages, or fewer bytes than its `pages`.
    SizeMismatch {
        pages: u64,
        length: u64,
    },
    /// 36: the reserved bytes leave fewer than 480 usable bytes on a page.
    ReservedSpace {
        value: u64,
    },
    /// 39: the schema format is over 4.
    SchemaFormat {
        value: u64,
    },
    /// 40: a page is not accepted.
    BadPage {
        rule: Rule,
    },
    /// 45: an overflow chain ends too early or too late, or leaves its range. The wrong number stands in this page, or is the page itself where that is the first.
    ChainBroken {
        page: u64,
    },
    /// 50: the number of a trunk or a leaf page of the freelist is out of range, or a trunk counts too many. The wrong number stands in this page.
    TrunkDamaged {
        page: u64,
    },
    /// 51: no page is free, and the next page past the end would pass the limit. Both are numbers of pages.
    TargetFull {
        pages: u64,
        limit: u64,
    },
    /// 55: a page, a cell or a chain on the way through a tree is refused, or the tree is too deep. The page holds what is wrong.
    TreeDamaged {
        page: u64,
        rule: Rule,
    },
    /// 60: the schema's text of this table leaves the grammar at this offset, in bytes from 0.
    SqlSyntax {
        table: Bytes,
        offset: u64,
    },
    /// 61: the schema's text of this table has a clause outside the profile, which is printed as this word.
    OutsideProfile {
        table: Bytes,
        clause: Bytes,
    },
    /// 62: a row of the schema is not as it has to be.
    SchemaRow {
        rowid: i64,
    },
    /// 63: two tables or indexes have this name.
    DuplicateName {
        name: Bytes,
    },
    /// 70: a page is found a second time.
    PageTwice {
        page: u64,
    },
    /// 71: a page is found nowhere.
    PageLost {
        page: u64,
    },
    /// 72: keys do not rise. The page of the first cell at which the order breaks.
    KeyOrder {
        page: u64,
    },
    /// 73: an entry stands in an index or in the projection of its table alone, or two entries of a unique index have equal columns. The rowid is that of the entry, or of the second one.
    IndexDisagrees {
        index: Bytes,
        rowid: i64,
    },
    /// 74: any other rule of soundness is broken. The page holds what is wrong.
    Damaged {
        page: u64,
        rule: Rule,
    },
    /// 80: the control is neither 0, 1, 2 nor a text.
    ControlValue {
        table: Bytes,
        rowid: i64,
    },
    /// 81: the control's text has so many letters, and needs so many.
    ControlLength {
        table: Bytes,
        rowid: i64,
        has: u64,
        needs: u64,
    },
    /// 82: a letter of the control is none of `x`, `.`, `d` and `f`. Places count from 0.
    ControlLetter {
        table: Bytes,
        rowid: i64,
        place: u64,
    },
    /// 83: a letter of the control is `d` or `f`. Places count from 0.
    DeltaColumn {
        table: Bytes,
        rowid: i64,
        place: u64,
    },
    /// 84: no table has this name.
    NoTarget {
        name: Bytes,
    },
    /// 85: the `data_` table lacks a column of the target, or `rbu_control`.
    ColumnMissing {
        table: Bytes,
        column: Bytes,
    },
    /// 86: a column is neither the target's nor one of the update's own.
    ColumnUnknown {
        table: Bytes,
        column: Bytes,
    },
    /// 87: the target has no PRIMARY KEY, and the `data_` table no `rbu_rowid`.
    RowidMissing {
        table: Bytes,
    },
    /// 88: a NULL stands in the key.
    KeyNull {
        table: Bytes,
        rowid: i64,
    },
    /// 89: the key is a rowid, and the value no integer.
    KeyMismatch {
        table: Bytes,
        rowid: i64,
    },
    /// 90: an update marks a column of the key.
    KeyChanged {
        table: Bytes,
        rowid: i64,
        column: Bytes,
    },
    /// 91: two rows have one key. Both numbers are rowids.
    DuplicateKey {
        table: Bytes,
        first: i64,
        second: i64,
    },
    /// 92: a column would store the value in another class.
    ClassChange {
        table: Bytes,
        rowid: i64,
        column: Bytes,
    },
    /// 93: something of the update is over its limit.
    TooMuch {
        what: Measure,
        has: u64,
        limit: u64,
    },
    /// 95: a record of the `data_` table is not read as a row, for the cause with this number.
    DataRecord {
        table: Bytes,
        rowid: i64,
        cause: u64,
    },
    /// 96: a record of a targeted or printed table is not read as a row, or a new one is too long, for the cause with this number.
    TargetRecord {
        table: Bytes,
        rowid: i64,
        cause: u64,
    },
    /// 100: the bytes do not begin with a log's header, or its pages have a size that pages may not have.
    LogHeader,
    /// 101: a needed frame of a log is missing or not valid, or the last needed one is no commit. Frames count from 1.
    LogFrame {
        number: u64,
    },
    /// 102: the hidden log has fewer bytes than were saved.
    OalShort {
        has: u64,
        needs: u64,
    },
    /// 103: a frame within the saved size of the hidden log is not valid, or the last one is no commit or has another checksum than was saved. Frames count from 1; the number is 0 where there is none.
    OalFrame {
        number: u64,
    },
    /// 110: the bytes are no state file.
    NotState,
    /// 111: the value under this key of the state file may not stand there. It is the least such key.
    StateKey {
        key: u64,
    },
    /// 120: a write-ahead log exists where it may not.
    WalPresent,
    /// 121: a rollback journal exists, is not empty and begins with another byte than 0.
    JournalPresent,
    /// 122: pages of a write-ahead log are still to be copied, and there is none.
    WalMissing,
}
