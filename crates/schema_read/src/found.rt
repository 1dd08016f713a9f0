// The members of the schema's tree as rows.
ghost use Rattle.std.specs.Prelude.{◌≡◌, map, IfOk, option_copied};
ghost use Rattle.common_spec.specs.Reading.{OrNone};
ghost use Rattle.schema_read.specs.Found.{AreFound, HasRealMeaning, IsFound, IsFoundMeaning, IsMeant, is_index_kind, is_table_kind};
ghost use Rattle.schema_read.specs.Rows.{member_of};

use crate::meanings::table_meaning;
use crate::members::Members;
use crate::rows::schema_row;
use database_spec::{SchemaKind, SchemaRow};
use schema_spec::{Index, SqlFault, Table};
use std::alloc::{AllocError, Global};
use tree_walk::Row;

/// A member of the schema's tree.
#[derive(Drop)]
pub(crate) struct Found {
    pub rowid: i64,
    /// The row that it is, if any.
    pub row: Option<SchemaRow>,
    /// What is said of it where it is a table or a view.
    pub meaning: Option<Result<Table, SqlFault>>,
    /// The indexes that stand with it so far: the root of each, and what is said of it.
    pub indexes: Vec<(u32, Result<Index, SqlFault>)>,
}

// What is said of a row that was found.
fn found_meaning(
    alloc: Global,
    row: &Option<SchemaRow>,
) -> Result<Option<Result<Table, SqlFault>>, AllocError>
    ensures { IfOk result (IsFoundMeaning row.now) }
{
    match row {
        Some(row) => table_meaning(alloc, row),
        None => Ok(None),
    }
}

// A member that was read.
fn find(alloc: Global, member: &Row) -> Result<Found, AllocError>
    ensures { IfOk result (IsFound (member_of member.now)) }
{
    let rowid = member.rowid;
    let row = schema_row(alloc, member)?;
    let meaning = found_meaning(alloc, &row)?;
    Ok(Found {
        rowid,
        row,
        meaning,
        indexes: Vec::new(alloc),
    })
}

// The members with what is said of each.
fn find_each(alloc: Global, members: &[Row]) -> Result<Vec<Found>, AllocError>
    ensures { IfOk result (λ found. AreFound (map member_of members.now) found.items) }
{
    let mut found = Vec::new(alloc);
    let mut left = members;
    while let [member, rest @ ..] = left {
        found.push(find(alloc, member)?)?;
        left = rest;
    }
    Ok(found)
}

/// The members with what is said of each.
pub(crate) fn find_all(alloc: Global, members: &[Row]) -> Result<Members, AllocError>
    ensures { IfOk result (AreFound (map member_of members.now)) }
{
    Members::of(alloc, find_each(alloc, members)?)
}

pub(crate) fn is_table(kind: SchemaKind) -> bool
    ensures { result ≡ is_table_kind kind }
{
    match kind {
        SchemaKind::Table => true,
        SchemaKind::View => true,
        SchemaKind::Index => false,
        SchemaKind::Trigger => false,
    }
}

pub(crate) fn is_index(kind: SchemaKind) -> bool
    ensures { result ≡ is_index_kind kind }
{
    match kind {
        SchemaKind::Index => true,
        SchemaKind::Table => false,
        SchemaKind::View => false,
        SchemaKind::Trigger => false,
    }
}

/// What is said of a table that a row of the type `table` describes, or `None` of any other.
pub(crate) fn real_meaning(found: &Found) -> Option<&Result<Table, SqlFault>>
    ensures { IsMeant found.now → OrNone (HasRealMeaning found.now) (option_copied result) }
{
    match &found.row {
        Some(row) => match row.kind {
            SchemaKind::Table => match &found.meaning {
                Some(meaning) => Some(meaning),
                None => None,
            },
            SchemaKind::View => None,
            SchemaKind::Index => None,
            SchemaKind::Trigger => None,
        },
        None => None,
    }
}
