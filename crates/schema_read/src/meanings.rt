// What rows of tables and indexes mean.
ghost use Rattle.std.specs.Prelude.{◌≡◌, ◌≤◌, ◌-◌, ◌++◌, ℕ, codes, decimal, IfOk, IfSome, IsTrue, Some, false, length, map, option_map, slice_get};
ghost use Rattle.common_spec.specs.Reading.{OrFault, OrNone};
ghost use Rattle.schema_spec.specs.Texts.{HasIndexFault, MeansIndex};
ghost use Rattle.database_spec.specs.Catalogs.{IsIndexMeaning, IsMeaning, IsReadMeaning, IsTableMeaning, MeansUnder, automatic_columns, automatic_index as automatic_index_of, automatic_name as automatic_name_of, index_under};
ghost use Rattle.schema_spec.specs.Words.{same_name as same_name_of};

use crate::numbers::number_in;
use database_spec::{SchemaKind, SchemaRow};
use itoa::Buffer;
use owned_list::OwnedList;
use rbu_value::{Bytes, Collation};
use schema_spec::{Clause, Index, SqlFault, Table};
use schema_sql::{read_index, read_table};
use schema_tokens::same_name;
use std::alloc::{AllocError, Global};

/// The name of the automatic index of a table with this number, from 1.
pub(crate) fn automatic_name(
    alloc: Global,
    table: &[u8],
    number: usize,
) -> Result<Vec<u8>, AllocError>
    ensures { IfOk result (λ name. name.items ≡ automatic_name_of table.now number) }
{
    let mut digits = Buffer::new();
    let mut name = Vec::from_slice(alloc, b"sqlite_autoindex_")?;
    name.extend_from_slice(table)?;
    name.extend_from_slice(b"_")?;
    name.extend_from_slice(digits.format(number).as_bytes())?;
    Ok(name)
}

// What a text means as a table's.
fn text_meaning(alloc: Global, text: &[u8]) -> Result<Result<Table, SqlFault>, AllocError>
    ensures { IfOk result (IsMeaning text.now) }
{
    match read_table(alloc, text) {
        Ok(table) => Ok(Ok(table)),
        Err(SqlFault::SqlSyntax { offset }) => Ok(Err(SqlFault::SqlSyntax { offset })),
        Err(SqlFault::OutsideProfile { clause }) => Ok(Err(SqlFault::OutsideProfile { clause })),
        Err(SqlFault::Memory(error)) => Err(error),
    }
}

/// What is said of a table or a view, or `None` of another row, and of a table without a text.
pub(crate) fn table_meaning(
    alloc: Global,
    row: &SchemaRow,
) -> Result<Option<Result<Table, SqlFault>>, AllocError>
    ensures { IfOk result (OrNone (IsTableMeaning row.now.kind row.now.sql)) }
{
    match row.kind {
        SchemaKind::Table => match &row.sql {
            Some(text) => Ok(Some(text_meaning(alloc, text.as_slice())?)),
            None => Ok(None),
        },
        SchemaKind::View => Ok(Some(Err(SqlFault::OutsideProfile {
            clause: Clause::View,
        }))),
        SchemaKind::Index => Ok(None),
        SchemaKind::Trigger => Ok(None),
    }
}

// Columns of which none descends.
fn risen(
    alloc: Global,
    columns: &[(u32, Collation, bool)],
) -> Result<OwnedList<(u32, Collation, bool)>, AllocError>
    ensures { IfOk result (λ list. list ≡ map (λ column. (column.0, column.1, false)) columns.now) }
{
    let mut list = Vec::new(alloc);
    let mut left = columns;
    while let [(place, collation, _), rest @ ..] = left {
        list.push((*place, *collation, false))?;
        left = rest;
    }
    Ok(OwnedList::from_vec(list))
}

// An index under a schema format.
fn under(alloc: Global, format: u32, index: Index) -> Result<Index, AllocError>
    ensures { IfOk result (λ under. under ≡ index_under format index) }
{
    if format == 4 {
        return Ok(index);
    }
    let columns = risen(alloc, index.columns.as_slice())?;
    Ok(Index {
        name: index.name,
        table: index.table,
        unique: index.unique,
        columns,
    })
}

// What a text means as that of an index of a table.
fn text_index(
    alloc: Global,
    text: &[u8],
    table: &Table,
) -> Result<Result<Index, SqlFault>, AllocError>
    ensures { IfOk result (OrFault (MeansIndex text.now table.now) (HasIndexFault text.now table.now)) }
{
    match read_index(alloc, text, table) {
        Ok(index) => Ok(Ok(index)),
        Err(SqlFault::SqlSyntax { offset }) => Ok(Err(SqlFault::SqlSyntax { offset })),
        Err(SqlFault::OutsideProfile { clause }) => Ok(Err(SqlFault::OutsideProfile { clause })),
        Err(SqlFault::Memory(error)) => Err(error),
    }
}

// The same under a schema format.
fn index_text_meaning(
    alloc: Global,
    format: u32,
    text: &[u8],
    table: &Table,
) -> Result<Result<Index, SqlFault>, AllocError>
    ensures { IfOk result (OrFault (MeansUnder format text.now table.now) (HasIndexFault text.now table.now)) }
{
    match text_index(alloc, text, table) {
        Ok(Ok(index)) => match under(alloc, format, index) {
            Ok(index) => Ok(Ok(index)),
            Err(error) => Err(error),
        },
        Ok(Err(fault)) => Ok(Err(fault)),
        Err(error) => Err(error),
    }
}

// A column of an automatic index, which rises.
fn automatic_column(column: &(u32, Collation)) -> (u32, Collation, bool)
    ensures { result ≡ (column.now.0, column.now.1, false) }
{
    (column.0, column.1, false)
}

// The columns of an automatic index.
fn automatic_index_columns(
    alloc: Global,
    columns: &[(u32, Collation)],
) -> Result<OwnedList<(u32, Collation, bool)>, AllocError>
    ensures { IfOk result (λ list. list ≡ map (λ column. (column.0, column.1, false)) columns.now) }
{
    let mut made = Vec::new(alloc);
    let mut left = columns;
    while let [column, rest @ ..] = left {
        made.push(automatic_column(column))?;
        left = rest;
    }
    Ok(OwnedList::from_vec(made))
}

// The automatic index of a row with these columns.
fn automatic_index(
    alloc: Global,
    row: &SchemaRow,
    columns: &[(u32, Collation)],
) -> Result<Index, AllocError>
    ensures { IfOk result (λ index. index ≡ automatic_index_of row.now columns.now) }
{
    let columns = automatic_index_columns(alloc, columns)?;
    let name = Bytes::of(alloc, row.name.as_slice())?;
    let table = Bytes::of(alloc, row.table.as_slice())?;
    Ok(Index {
        name,
        table,
        unique: true,
        columns,
    })
}

// The row has the name of the automatic index with this number.
fn is_numbered(alloc: Global, row: &SchemaRow, number: usize) -> Result<bool, AllocError>
    ensures { IfOk result (λ is. is ≡ same_name_of row.now.name (automatic_name_of row.now.table number)) }
{
    let name = automatic_name(alloc, row.table.as_slice(), number)?;
    Ok(same_name(row.name.as_slice(), &name))
}

// The number of the automatic index of its table that has the name of the row, if it is one from 1 to `most`.
fn row_number(row: &SchemaRow, most: usize) -> Option<usize>
    ensures within { IfSome result (λ n. (1 ≤ n) × (n ≤ most)) }
    ensures only { (n : ℕ) → 1 ≤ n → n ≤ most → IsTrue (same_name_of row.now.name (automatic_name_of row.now.table n)) → result ≡ Some n }
{
    number_in(row.name.as_slice(), row.table.as_slice(), most)
}

// The columns with this number, from 1.
fn columns_at(keys: &[OwnedList<(u32, Collation)>], number: usize) -> &[(u32, Collation)]
    requires first { 1 ≤ number }
    requires within { number ≤ length keys.now }
    ensures { slice_get keys.now (number - 1) ≡ Some result.now }
{
    keys[number - 1].as_slice()
}

// The automatic index with the only number that may be that of the row's name.
fn numbered(
    alloc: Global,
    row: &SchemaRow,
    keys: &[OwnedList<(u32, Collation)>],
    number: usize,
) -> Result<Option<Index>, AllocError>
    requires first { 1 ≤ number }
    requires within { number ≤ length keys.now }
    requires only { (n : ℕ) → 1 ≤ n → n ≤ length keys.now → IsTrue (same_name_of row.now.name (automatic_name_of row.now.table n)) → number ≡ n }
    ensures { IfOk result (λ index. index ≡ option_map (automatic_index_of row.now) (automatic_columns row.now 1 keys.now)) }
{
    if is_numbered(alloc, row, number)? {
        let index = automatic_index(alloc, row, columns_at(keys, number))?;
        return Ok(Some(index));
    }
    Ok(None)
}

// The automatic index that has the name of the row, among those of its table.
fn automatic(
    alloc: Global,
    row: &SchemaRow,
    keys: &[OwnedList<(u32, Collation)>],
) -> Result<Option<Index>, AllocError>
    ensures { IfOk result (λ index. index ≡ option_map (automatic_index_of row.now) (automatic_columns row.now 1 keys.now)) }
{
    match row_number(row, keys.len()) {
        Some(number) => numbered(alloc, row, keys, number),
        None => Ok(None),
    }
}

// What is said of an index of a table in the profile, or `None` where it is an automatic index that the table has not.
fn read_meaning(
    alloc: Global,
    format: u32,
    row: &SchemaRow,
    table: &Table,
) -> Result<Option<Result<Index, SqlFault>>, AllocError>
    ensures { IfOk result (OrNone (IsReadMeaning format row.now table.now row.now.sql)) }
{
    match &row.sql {
        Some(text) => Ok(Some(index_text_meaning(alloc, format, text.as_slice(), table)?)),
        None => match automatic(alloc, row, table.unique.as_slice())? {
            Some(index) => Ok(Some(Ok(index))),
            None => Ok(None),
        },
    }
}

/// What is said of an index of a table of this meaning, or `None` where it is an automatic index that the table has not.
pub(crate) fn index_meaning(
    alloc: Global,
    format: u32,
    row: &SchemaRow,
    table: &Result<Table, SqlFault>,
) -> Result<Option<Result<Index, SqlFault>>, AllocError>
    ensures { IfOk result (OrNone (IsIndexMeaning format row.now table.now)) }
{
    match table {
        Ok(table) => read_meaning(alloc, format, row, table),
        Err(fault) => Ok(Some(Err(*fault))),
    }
}
