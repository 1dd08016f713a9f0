// What the texts of indexes mean.
ghost use Rattle.std.specs.Prelude.{◌≡◌, IfOk, map};
ghost use Rattle.std.specs.List.{list_any};
ghost use Rattle.common_spec.specs.Reading.{OrFault, ReadsOrWants};
ghost use Rattle.schema_spec.specs.Causes.{HasIndexCause, is_expression, plain_columns};
ghost use Rattle.schema_spec.specs.Names.{unknown};
ghost use Rattle.schema_spec.specs.Texts.{HasIndexFault, IsMemory, MeansIndex, indexed};
ghost use Rattle.schema_sql.specs.Parts.{IsFirstCause, IsIndex, IsIndexAnswer, IsIndexInside};

use crate::clauses::list_names_other;
use crate::places::listed;
use crate::wrong::{first_start, push_unknown};
use owned_list::OwnedList;
use rbu_value::Collation;
use schema_grammar::index_statement;
use schema_spec::{Clause, Index, IndexText, IndexedPart, ListedColumn, SqlFault, Table, Token};
use schema_tokens::{name_of, tokens};
use std::alloc::{AllocError, Global};

// The columns of an index that are no expressions.
fn plain_columns(
    alloc: Global,
    parts: &[IndexedPart],
) -> Result<OwnedList<ListedColumn>, AllocError>
    ensures { IfOk result (λ columns. columns ≡ plain_columns parts.now) }
{
    let mut columns = Vec::new(alloc);
    let mut left = parts;
    while let [part, rest @ ..] = left {
        if let IndexedPart::Column(column) = part {
            columns.push(*column)?;
        }
        left = rest;
    }
    Ok(OwnedList::from_vec(columns))
}

fn is_expression(part: IndexedPart) -> bool
    ensures { result ≡ is_expression part }
{
    matches!(part, IndexedPart::Expression)
}

fn has_expression(parts: &[IndexedPart]) -> bool
    ensures { result ≡ list_any is_expression parts.now }
{
    parts.iter().any(|part| is_expression(*part))
}

// The first cause that sets the text of an index outside the profile, or none.
fn first_cause(
    alloc: Global,
    text: &[u8],
    index: &IndexText,
    columns: &[ListedColumn],
) -> Result<Option<Clause>, AllocError>
    requires { columns.now ≡ plain_columns index.now.parts }
    ensures { IfOk result (IsFirstCause (HasIndexCause text.now index.now)) }
{
    if list_names_other(alloc, text, columns)? {
        return Ok(Some(Clause::Collate));
    }
    if index.partial {
        return Ok(Some(Clause::Where));
    }
    if has_expression(index.parts.as_slice()) {
        return Ok(Some(Clause::Expression));
    }
    Ok(None)
}

// A column of an index: its place in the table, its collation, and whether it descends.
fn indexed(
    alloc: Global,
    text: &[u8],
    table: &Table,
    column: &ListedColumn,
) -> Result<(u32, Collation, bool), AllocError>
    ensures { IfOk result (λ found. found ≡ indexed text.now table.now column.now) }
{
    let (place, collation) = listed(alloc, text, table.columns.as_slice(), column)?;
    Ok((place, collation, column.descends))
}

// The same for each column of the index.
fn all_indexed(
    alloc: Global,
    text: &[u8],
    table: &Table,
    columns: &[ListedColumn],
) -> Result<OwnedList<(u32, Collation, bool)>, AllocError>
    ensures { IfOk result (λ found. found ≡ map (indexed text.now table.now) columns.now) }
{
    let mut found = Vec::new(alloc);
    let mut left = columns;
    while let [column, rest @ ..] = left {
        found.push(indexed(alloc, text, table, column)?)?;
        left = rest;
    }
    Ok(OwnedList::from_vec(found))
}

// The index of these columns.
fn index_of(
    alloc: Global,
    text: &[u8],
    table: &Table,
    index: &IndexText,
    columns: &[ListedColumn],
) -> Result<Index, AllocError>
    requires { columns.now ≡ plain_columns index.now.parts }
    ensures { IfOk result (IsIndex text.now table.now index.now) }
{
    Ok(Index {
        name: name_of(alloc, text, index.name)?,
        table: name_of(alloc, text, index.table)?,
        unique: index.unique,
        columns: all_indexed(alloc, text, table, columns)?,
    })
}

// The columns of an index that are none of the table's.
fn unknown_columns(
    alloc: Global,
    text: &[u8],
    table: &Table,
    columns: &[ListedColumn],
) -> Result<OwnedList<Token>, AllocError>
    ensures { IfOk result (λ wrong. wrong ≡ unknown text.now (map (λ column. column.name) table.now.columns) columns.now) }
{
    let mut wrong = Vec::new(alloc);
    push_unknown(&mut wrong, alloc, text, table.columns.as_slice(), columns)?;
    Ok(OwnedList::from_vec(wrong))
}

// What a text of the profile means, or its fault where it names a column wrongly.
fn named_answer(
    alloc: Global,
    text: &[u8],
    table: &Table,
    index: &IndexText,
    columns: &[ListedColumn],
) -> Result<Index, SqlFault>
    requires columns { columns.now ≡ plain_columns index.now.parts }
    requires inside { IsIndexInside text.now index.now }
    ensures { IsIndexAnswer text.now table.now index.now result }
{
    let wrong = unknown_columns(alloc, text, table, columns)?;
    match first_start(wrong.as_slice()) {
        Some(start) => Err(SqlFault::SqlSyntax {
            offset: start as u64,
        }),
        None => Ok(index_of(alloc, text, table, index, columns)?),
    }
}

// What a text of the grammar means, or its fault.
fn index_answer(
    alloc: Global,
    text: &[u8],
    table: &Table,
    index: &IndexText,
) -> Result<Index, SqlFault>
    ensures { IsIndexAnswer text.now table.now index.now result }
{
    let columns = plain_columns(alloc, index.parts.as_slice())?;
    match first_cause(alloc, text, index, columns.as_slice())? {
        Some(clause) => Err(SqlFault::OutsideProfile { clause }),
        None => named_answer(alloc, text, table, index, columns.as_slice()),
    }
}

/// What the text of an index in the schema means, over the columns of its table (The Schema Table, section 2.1; CREATE INDEX).
///
/// Or `SqlSyntax` (refusal 60) with the offset in bytes of the first token that does not fit, or that names a column that is none of the table's; `OutsideProfile` (refusal 61) with the first clause outside the profile, in the order of `Clause`; or want of memory.
pub fn read_index(alloc: Global, sql: &[u8], table: &Table) -> Result<Index, SqlFault>
    ensures { ReadsOrWants (λ index. index) IsMemory (OrFault (MeansIndex sql.now table.now) (HasIndexFault sql.now table.now)) result }
{
    let tokens = tokens(alloc, sql)?;
    let index = index_statement(alloc, sql, tokens.as_slice())?;
    index_answer(alloc, sql, table, &index)
}
