// What the texts of a schema say.
use owned_list::OwnedList;
use rbu_value::{Affinity, Bytes, Collation};
use std::alloc::AllocError;

/// A column of a table (CREATE TABLE, section 3).
#[derive(Drop)]
pub struct Column {
    pub name: Bytes,
    pub affinity: Affinity,
    /// The last one that its definition names, else BINARY.
    pub collation: Collation,
    /// Whether `NOT NULL` is said of it. A column of a PRIMARY KEY may be NULL without, as in SQLite.
    pub not_null: bool,
}

/// A table. Columns are named by their places, from 0.
#[derive(Drop)]
pub struct Table {
    pub name: Bytes,
    pub columns: OwnedList<Column>,
    /// The column of declared type exactly INTEGER that alone is the PRIMARY KEY (CREATE TABLE, section 5).
    pub rowid_column: Option<u32>,
    /// The columns of the PRIMARY KEY in the order of its list, also where this is the rowid column. None where the table has no PRIMARY KEY.
    pub key: OwnedList<u32>,
    /// The columns of each automatic index, in the order in which the indexes are numbered.
    pub unique: OwnedList<OwnedList<(u32, Collation)>>,
}

/// An index (CREATE INDEX, section 1).
#[derive(Drop)]
pub struct Index {
    pub name: Bytes,
    pub table: Bytes,
    pub unique: bool,
    /// The place of each column in its table, its collation, and whether it descends.
    pub columns: OwnedList<(u32, Collation, bool)>,
}

/// The clauses of a text outside the profile, each by the word that is answered for it.
#[derive(Clone, Copy, Debug, PartialEq, Eq)]
pub enum Clause {
    Without,
    Strict,
    Generated,
    As,
    On,
    Desc,
    Collate,
    Real,
    Unique,
    Primary,
    Where,
    Expression,
    Virtual,
    View,
}

/// Why a text is not read.
#[derive(Clone, Copy, Debug, PartialEq, Eq)]
pub enum SqlFault {
    /// The text is outside the grammar: refusal 60. The offset of the first token that does not fit, in bytes from 0, or the text's length where it ends too early.
    SqlSyntax { offset: u64 },
    /// The text is outside the profile: refusal 61.
    OutsideProfile { clause: Clause },
    /// There is no memory.
    Memory(AllocError),
}

impl From<AllocError> for SqlFault {
    ghost use Rattle.std.specs.Prelude.{◌≡◌};
    ghost use Rattle.schema_spec.specs.declared.schema.SqlFault.{SqlFault};

    ghost from_gives = { λ error fault. fault ≡ SqlFault.Memory error };

    fn from(error: AllocError) -> SqlFault {
        SqlFault::Memory(error)
    }
}
