//! Copies of what the texts of a schema mean.
//!
//! The layer above lends a table, and gets one of its own.
#![tactic(auto)]

ghost use Rattle.std.specs.Prelude.{◌≡◌, IfOk};

use owned_list::OwnedList;
use rbu_value::{Bytes, Collation};
use schema_spec::{Column, Table};
use std::alloc::{AllocError, Global};

fn copy_column(alloc: Global, column: &Column) -> Result<Column, AllocError>
    ensures { IfOk result (λ copy. copy ≡ column.now) }
{
    Ok(Column {
        name: Bytes::of(alloc, column.name.as_slice())?,
        affinity: column.affinity,
        collation: column.collation,
        not_null: column.not_null,
    })
}

fn copy_columns(alloc: Global, columns: &[Column]) -> Result<Vec<Column>, AllocError>
    ensures { IfOk result (λ copies. copies.items ≡ columns.now) }
{
    let mut copies = Vec::new(alloc);
    let mut left = columns;
    while let [column, rest @ ..] = left {
        let copy = copy_column(alloc, column)?;
        copies.push(copy)?;
        left = rest;
    }
    Ok(copies)
}

// A copy of the columns of an automatic index.
fn copy_index(
    alloc: Global,
    columns: &[(u32, Collation)],
) -> Result<OwnedList<(u32, Collation)>, AllocError>
    ensures { IfOk result (λ copy. copy ≡ columns.now) }
{
    Ok(OwnedList::from_vec(Vec::from_slice(alloc, columns)?))
}

fn copy_indexes(
    alloc: Global,
    indexes: &[OwnedList<(u32, Collation)>],
) -> Result<Vec<OwnedList<(u32, Collation)>>, AllocError>
    ensures { IfOk result (λ copies. copies.items ≡ indexes.now) }
{
    let mut copies = Vec::new(alloc);
    let mut left = indexes;
    while let [columns, rest @ ..] = left {
        let copy = copy_index(alloc, columns.as_slice())?;
        copies.push(copy)?;
        left = rest;
    }
    Ok(copies)
}

/// A copy of a table. Fails where memory runs out.
pub fn copy_table(alloc: Global, table: &Table) -> Result<Table, AllocError>
    ensures { IfOk result (λ copy. copy ≡ table.now) }
{
    let name = Bytes::of(alloc, table.name.as_slice())?;
    let columns = copy_columns(alloc, table.columns.as_slice())?;
    let key = Vec::from_slice(alloc, table.key.as_slice())?;
    let unique = copy_indexes(alloc, table.unique.as_slice())?;
    Ok(Table {
        name,
        columns: OwnedList::from_vec(columns),
        rowid_column: table.rowid_column,
        key: OwnedList::from_vec(key),
        unique: OwnedList::from_vec(unique),
    })
}
