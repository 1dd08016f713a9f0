// What the texts of tables mean.
ghost use Rattle.std.specs.Prelude.{◌≡◌, IfOk, map, filter, not, option_map};
ghost use Rattle.common_spec.specs.Reading.{OrFault, ReadsOrWants};
ghost use Rattle.schema_spec.specs.Names.{is_rowid, place_of};
ghost use Rattle.schema_spec.specs.Texts.{HasTableFault, IsMemory, IsTable, MeansTable, listed};
ghost use Rattle.schema_sql.specs.Parts.{AreParts, IsInside, IsStatementAnswer, IsTableAnswer};

use crate::causes::first_cause;
use crate::keys::primary_columns;
use crate::parts::{Parts, parts_of};
use crate::places::{all_listed, place_in, places};
use crate::rowid::is_rowid;
use crate::wrong::first_start;
use owned_list::OwnedList;
use rbu_value::{Bytes, Collation};
use schema_grammar::table_statement;
use schema_spec::{Clause, Column, Key, SqlFault, Table, TableStatement, TableText};
use schema_tokens::{name_of, tokens};
use std::alloc::{AllocError, Global};

// The columns of each automatic index: of all keys but the one that is the rowid column.
fn automatic_indexes(
    alloc: Global,
    text: &[u8],
    columns: &[Column],
    rowid: &Option<Bytes>,
    keys: &[Key],
) -> Result<OwnedList<OwnedList<(u32, Collation)>>, AllocError>
    ensures { IfOk result (λ unique. unique ≡ map (λ key. map (listed text.now (map (λ column. column.name) columns.now) (map (λ column. column.collation) columns.now)) key.columns) (filter (λ key. not (is_rowid text.now rowid.now key.columns)) keys.now)) }
{
    let mut unique = Vec::new(alloc);
    let mut left = keys;
    while let [key, rest @ ..] = left {
        if !is_rowid(alloc, text, rowid, key.columns.as_slice())? {
            let listed = all_listed(alloc, text, columns, key.columns.as_slice())?;
            unique.push(listed)?;
        }
        left = rest;
    }
    Ok(OwnedList::from_vec(unique))
}

// The place of the rowid column, if there is one.
fn rowid_place(columns: &[Column], rowid: &Option<Bytes>) -> Result<Option<u32>, AllocError>
    ensures { IfOk result (λ place. place ≡ option_map (λ name. place_of name (map (λ column. column.name) columns.now)) rowid.now) }
{
    match rowid {
        Some(name) => Ok(Some(place_in(columns, name.as_slice())?)),
        None => Ok(None),
    }
}

// The table of these parts.
fn table_of(
    alloc: Global,
    text: &[u8],
    table: &TableText,
    parts: Parts,
) -> Result<Table, AllocError>
    requires { AreParts text.now table.now parts }
    ensures { IfOk result (IsTable text.now table.now) }
{
    let name = name_of(alloc, text, table.name)?;
    let columns = parts.columns.as_slice();
    let keys = parts.keys.as_slice();
    let rowid_column = rowid_place(columns, &parts.rowid)?;
    let key = places(alloc, text, columns, primary_columns(keys))?;
    let unique = automatic_indexes(alloc, text, columns, &parts.rowid, keys)?;
    Ok(Table {
        name,
        columns: parts.columns,
        rowid_column,
        key,
        unique,
    })
}

// What a text of the profile means, or its fault where it names a column wrongly.
fn named_answer(
    alloc: Global,
    text: &[u8],
    table: &TableText,
    parts: Parts,
) -> Result<Table, SqlFault>
    requires parts { AreParts text.now table.now parts }
    requires inside { IsInside text.now table.now }
    ensures { IsTableAnswer text.now table.now result }
{
    match first_start(parts.wrong.as_slice()) {
        Some(start) => Err(SqlFault::SqlSyntax {
            offset: start as u64,
        }),
        None => Ok(table_of(alloc, text, table, parts)?),
    }
}

// What a text of the grammar means, or its fault.
fn table_answer(alloc: Global, text: &[u8], table: &TableText) -> Result<Table, SqlFault>
    ensures { IsTableAnswer text.now table.now result }
{
    let parts = parts_of(alloc, text, table)?;
    match first_cause(alloc, text, table, &parts)? {
        Some(clause) => Err(SqlFault::OutsideProfile { clause }),
        None => named_answer(alloc, text, table, parts),
    }
}

// What a statement means, or its fault.
fn statement_answer(
    alloc: Global,
    text: &[u8],
    statement: &TableStatement,
) -> Result<Table, SqlFault>
    ensures { IsStatementAnswer text.now statement.now result }
{
    match statement {
        TableStatement::Table(table) => table_answer(alloc, text, table),
        TableStatement::Virtual => Err(SqlFault::OutsideProfile {
            clause: Clause::Virtual,
        }),
        TableStatement::View => Err(SqlFault::OutsideProfile {
            clause: Clause::View,
        }),
    }
}

/// What the text of a table in the schema means (The Schema Table, section 2.1; CREATE TABLE).
///
/// Or `SqlSyntax` (refusal 60) with the offset in bytes of the first token that does not fit, that names a column twice, or a column that is none; `OutsideProfile` (refusal 61) with the first clause outside the profile, in the order of `Clause`; or want of memory.
pub fn read_table(alloc: Global, sql: &[u8]) -> Result<Table, SqlFault>
    ensures { ReadsOrWants (λ table. table) IsMemory (OrFault (MeansTable sql.now) (HasTableFault sql.now)) result }
{
    let tokens = tokens(alloc, sql)?;
    let statement = table_statement(alloc, sql, tokens.as_slice())?;
    statement_answer(alloc, sql, &statement)
}
