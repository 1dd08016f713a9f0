// The table that a pass goes over.
use rbu_value::Bytes;
use schema_spec::Table;

/// The table that a pass goes over.
#[derive(Drop)]
pub struct Target {
    /// The name by which constraints and refusals name it.
    pub name: Bytes,
    /// The root of its tree.
    pub root: u32,
    pub table: Table,
    /// The greatest rowid before the update, or 0 where that is negative: new rowids count from here where the key is not the rowid.
    pub greatest: i64,
}
