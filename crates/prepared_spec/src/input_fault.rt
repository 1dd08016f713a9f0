// Why the rows that an update was prepared with are refused.
use rbu_rows::ControlFault;
use rbu_value::Bytes;
use refusal::{Measure, Rule};
use schema_spec::Clause;

/// Why a record is not read as a row, or not written.
#[derive(Clone, Copy, Debug, PartialEq, Eq)]
pub enum RecordCause {
    /// 11: a step would put a record of more than 2147483647 bytes. No record that is read has this cause.
    SizeOverLimit,
    /// 20: the header's length is wrong or passes the bytes.
    ShortHeader,
    /// 21: a serial type that no value has.
    ReservedType,
    /// 22: a floating point value.
    RealValue,
    /// 23: the bodies are not exactly the rest.
    BodyLength,
    /// 25: not a value for each column.
    ShortRecord,
}

/// Why prepared rows are refused. The table is the `data_` table and each rowid one of its own, where nothing else is said.
#[derive(Drop)]
pub enum InputFault {
    /// 55: the tree of a `data_` table is damaged.
    TreeDamaged {
        page: u64,
        rule: Rule,
    },
    /// 60: the text of the named target, of one of its indexes, or of the named `data_` table leaves the grammar, in bytes from 0.
    SqlSyntax {
        table: Bytes,
        offset: u64,
    },
    /// 61: the text is outside the profile.
    OutsideProfile {
        table: Bytes,
        clause: Clause,
    },
    /// 80 to 83: the value of `rbu_control` says nothing.
    Control {
        table: Bytes,
        rowid: i64,
        fault: ControlFault,
    },
    /// 84: no table has the name that the `data_` table's gives, or it begins with `sqlite_`.
    NoTarget {
        name: Bytes,
    },
    /// 85: a column of the target, or `rbu_control`, is missing.
    ColumnMissing {
        table: Bytes,
        column: Bytes,
    },
    /// 86: a column is neither the target's nor begins with `rbu_`.
    ColumnUnknown {
        table: Bytes,
        column: Bytes,
    },
    /// 87: the target has no PRIMARY KEY, and `rbu_rowid` is missing.
    RowidMissing {
        table: Bytes,
    },
    /// 88: a NULL stands in the key.
    KeyNull {
        table: Bytes,
        rowid: i64,
    },
    /// 89: the key is a rowid, and the value no integer.
    KeyMismatch {
        table: Bytes,
        rowid: i64,
    },
    /// 90: an update marks a column of the key.
    KeyChanged {
        table: Bytes,
        rowid: i64,
        column: Bytes,
    },
    /// 91: two rows have one key.
    DuplicateKey {
        table: Bytes,
        first: i64,
        second: i64,
    },
    /// 92: a column would store a value in another class.
    ClassChange {
        table: Bytes,
        rowid: i64,
        column: Bytes,
    },
    /// 93: something is over its limit: more than 200 columns or 64 indexes of a targeted table; a name of a targeted table, of one of its indexes, or of its `data_` table of more than 255 bytes; the record of one prepared row of more than 1048576 bytes; more than 1000000 prepared rows; or more than 268435456 bytes of all their records.
    TooMuch {
        what: Measure,
        has: u64,
        limit: u64,
    },
    /// 95: a record is not read as a row of the `data_` table.
    DataRecord {
        table: Bytes,
        rowid: i64,
        cause: RecordCause,
    },
    /// 96: a record of a targeted table is not read as a row of it, or a step would put one that is too long. The table and the rowid are the target's.
    TargetRecord {
        table: Bytes,
        rowid: i64,
        cause: RecordCause,
    },
}
