// What the schema of a database names.
use owned_list::OwnedList;
use rbu_value::Bytes;
use schema_spec::{Index, SqlFault, Table};

/// What a row of the schema describes (The Schema Table, section 2).
#[derive(Clone, Copy, Debug, PartialEq, Eq)]
pub enum SchemaKind {
    /// A table, or a virtual table.
    Table,
    Index,
    View,
    Trigger,
}

/// A row of the schema (The Schema Table, section 2).
#[derive(Drop)]
pub struct SchemaRow {
    pub rowid: i64,
    pub kind: SchemaKind,
    pub name: Bytes,
    /// The name of the table that an index or a trigger belongs to.
    pub table: Bytes,
    /// The root of its tree. A root that is NULL counts as 0.
    pub root: u64,
    pub sql: Option<Bytes>,
}

/// A table of the schema, or a view or a virtual table, which has no tree.
#[derive(Drop)]
pub struct Entry {
    /// The root of its tree, or 0 where it has none.
    pub root: u32,
    /// What its text means, or why it is not read.
    pub meaning: Result<Table, SqlFault>,
    /// Its indexes in order of their schema rowids: the root of each, and what its text means. A column descends only under schema format 4.
    pub indexes: OwnedList<(u32, Result<Index, SqlFault>)>,
}

/// A table with its name.
#[derive(Drop)]
pub struct NamedEntry {
    pub name: Bytes,
    pub entry: Entry,
}

/// The tables and indexes of a database.
#[derive(Drop)]
pub struct Catalog {
    /// In order of their schema rowids.
    pub tables: OwnedList<NamedEntry>,
    /// The roots of all trees, that of the schema too, in rising order.
    pub roots: OwnedList<u32>,
}
