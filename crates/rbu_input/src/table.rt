// What is wrong with a `data_` table by itself.
ghost use Rattle.std.specs.Prelude.{◌≡◌, ◌++◌, [], ◌∷◌, None, codes, if◌then◌else◌, length, map, option_copied, take};
ghost use Rattle.prepared_spec.specs.Plans.{table_named as table_named_in};
ghost use Rattle.prepared_spec.specs.DataTables.{begins_with as begins_with_of, column_names, first_fault, index_names, meaning_fault, over as over_of, table_fault, text_fault};
ghost use Rattle.rbu_input.specs.Tables.{Tells, column_missing, column_unknown, later_faults, layout_faults, meanings_faults, names_over, own_faults, rowid_missing, table_at};

use crate::fault::InputError;
use crate::layout::has_column;
use database_spec::{Catalog, Entry, NamedEntry};
use prepared_spec::InputFault;
use rbu_value::Bytes;
use refusal::Measure;
use schema_spec::{Column, Index, SqlFault, Table};
use schema_tokens::same_name;
use std::alloc::Global;

/// The first so many bytes of a text, or all.
pub(crate) fn front(text: &[u8], count: usize) -> &[u8]
    ensures { result.now ≡ take count text.now }
{
    if text.len() <= count {
        return text;
    }
    &text[..count]
}

/// Whether a name begins with a word, where the case of ASCII letters does not count.
fn begins_with(word: &[u8], name: &[u8]) -> bool
    ensures { result ≡ begins_with_of word.now name.now }
{
    same_name(front(name, word.len()), word)
}

/// The first table of the name.
pub(crate) fn table_named<'a>(tables: &'a [NamedEntry], name: &[u8]) -> Option<&'a NamedEntry>
    ensures { option_copied result ≡ table_named_in name.now tables.now }
{
    let mut left = tables;
    while let [named, rest @ ..] = left {
        if same_name(named.name.as_slice(), name) {
            return Some(named);
        }
        left = rest;
    }
    None
}

/// The table that a `data_` table is for, by the name that stands in its own.
pub fn find_target<'a>(catalog: &'a Catalog, name: &[u8]) -> Option<&'a NamedEntry>
    ensures { option_copied result ≡ (if begins_with_of (codes "sqlite_") name.now then None else table_named_in name.now catalog.now.tables) }
{
    if begins_with(b"sqlite_", name) {
        return None;
    }
    table_named(catalog.tables.as_slice(), name)
}

// Refuses a text under a name.
fn check_text(alloc: Global, name: &[u8], fault: SqlFault) -> Result<(), InputError>
    ensures { Tells (text_fault name.now fault) result }
{
    match fault {
        SqlFault::SqlSyntax { offset } => {
            let table = Bytes::of(alloc, name)?;
            Err(InputError::Refused(InputFault::SqlSyntax { table, offset }))
        }
        SqlFault::OutsideProfile { clause } => {
            let table = Bytes::of(alloc, name)?;
            Err(InputError::Refused(InputFault::OutsideProfile { table, clause }))
        }
        SqlFault::Memory(_) => Ok(()),
    }
}

fn check_meaning(
    alloc: Global,
    name: &[u8],
    meaning: &Result<Table, SqlFault>,
) -> Result<(), InputError>
    ensures { Tells (meaning_fault name.now meaning.now) result }
{
    match meaning {
        Ok(_) => Ok(()),
        Err(fault) => check_text(alloc, name, *fault),
    }
}

fn check_index_meaning(
    alloc: Global,
    name: &[u8],
    meaning: &Result<Index, SqlFault>,
) -> Result<(), InputError>
    ensures { Tells (meaning_fault name.now meaning.now) result }
{
    match meaning {
        Ok(_) => Ok(()),
        Err(fault) => check_text(alloc, name, *fault),
    }
}

fn check_index_meanings(
    alloc: Global,
    name: &[u8],
    indexes: &[(u32, Result<Index, SqlFault>)],
) -> Result<(), InputError>
    ensures { Tells (first_fault (map (λ index. meaning_fault name.now index.1) indexes.now)) result }
{
    let mut left = indexes;
    while let [index, rest @ ..] = left {
        match check_index_meaning(alloc, name, &index.1) {
            Ok(()) => {}
            Err(fault) => return Err(fault),
        }
        left = rest;
    }
    Ok(())
}

// Refuses what is over a limit.
fn check_limit(what: Measure, limit: u64, has: usize) -> Result<(), InputError>
    ensures { Tells (over_of what limit has) result }
{
    if has as u64 > limit {
        return Err(InputError::Refused(InputFault::TooMuch {
            what,
            has: has as u64,
            limit,
        }));
    }
    Ok(())
}

fn check_index_names(indexes: &[(u32, Result<Index, SqlFault>)]) -> Result<(), InputError>
    ensures { Tells (first_fault (names_over (index_names indexes.now))) result }
{
    let mut left = indexes;
    while let [index, rest @ ..] = left {
        if let Ok(index) = &index.1 {
            match check_limit(Measure::Name, 255, index.name.as_slice().len()) {
                Ok(()) => {}
                Err(fault) => return Err(fault),
            }
        }
        left = rest;
    }
    Ok(())
}

// Refuses a `data_` table that lacks a column.
fn check_column(alloc: Global, source: &[u8], own: &Table, name: &[u8]) -> Result<(), InputError>
    ensures { Tells (column_missing source.now own.now name.now) result }
{
    if has_column(own, name) {
        return Ok(());
    }
    let table = Bytes::of(alloc, source)?;
    let column = Bytes::of(alloc, name)?;
    Err(InputError::Refused(InputFault::ColumnMissing { table, column }))
}

fn check_columns(
    alloc: Global,
    source: &[u8],
    own: &Table,
    columns: &[Column],
) -> Result<(), InputError>
    ensures { Tells (first_fault (map (column_missing source.now own.now) (map (λ column. column.name) columns.now))) result }
{
    let mut left = columns;
    while let [column, rest @ ..] = left {
        match check_column(alloc, source, own, column.name.as_slice()) {
            Ok(()) => {}
            Err(fault) => return Err(fault),
        }
        left = rest;
    }
    Ok(())
}

// Refuses a `data_` table without rowids for a target without a PRIMARY KEY.
fn check_rowid(alloc: Global, source: &[u8], target: &Table, own: &Table) -> Result<(), InputError>
    ensures { Tells (rowid_missing source.now target.now own.now) result }
{
    if !target.key.as_slice().is_empty() || has_column(own, b"rbu_rowid") {
        return Ok(());
    }
    let table = Bytes::of(alloc, source)?;
    Err(InputError::Refused(InputFault::RowidMissing { table }))
}

// Refuses a column that is neither the target's nor RBU's.
fn check_own_column(
    alloc: Global,
    source: &[u8],
    target: &Table,
    name: &[u8],
) -> Result<(), InputError>
    ensures { Tells (column_unknown source.now target.now name.now) result }
{
    if has_column(target, name) || begins_with(b"rbu_", name) {
        return Ok(());
    }
    let table = Bytes::of(alloc, source)?;
    let column = Bytes::of(alloc, name)?;
    Err(InputError::Refused(InputFault::ColumnUnknown { table, column }))
}

fn check_own_columns(
    alloc: Global,
    source: &[u8],
    target: &Table,
    columns: &[Column],
) -> Result<(), InputError>
    ensures { Tells (first_fault (map (column_unknown source.now target.now) (map (λ column. column.name) columns.now))) result }
{
    let mut left = columns;
    while let [column, rest @ ..] = left {
        match check_own_column(alloc, source, target, column.name.as_slice()) {
            Ok(()) => {}
            Err(fault) => return Err(fault),
        }
        left = rest;
    }
    Ok(())
}

// Refuses names that are too long: those of indexes, and then the `data_` table's.
fn check_other_names(
    indexes: &[(u32, Result<Index, SqlFault>)],
    source: &[u8],
) -> Result<(), InputError>
    ensures { Tells (first_fault (names_over (index_names indexes.now ++ source.now ∷ []))) result }
{
    match check_index_names(indexes) {
        Ok(()) => {}
        Err(fault) => return Err(fault),
    }
    check_limit(Measure::Name, 255, source.len())
}

// The same of the target's name, and of these.
fn check_names(named: &NamedEntry, source: &[u8]) -> Result<(), InputError>
    ensures { Tells (first_fault (names_over (named.now.name ∷ (index_names named.now.entry.indexes ++ source.now ∷ [])))) result }
{
    match check_limit(Measure::Name, 255, named.name.as_slice().len()) {
        Ok(()) => {}
        Err(fault) => return Err(fault),
    }
    check_other_names(named.entry.indexes.as_slice(), source)
}

// Refuses a `data_` table that lacks a column of the target or `rbu_control`.
fn check_all_columns(
    alloc: Global,
    source: &[u8],
    target: &Table,
    own: &Table,
) -> Result<(), InputError>
    ensures { Tells (first_fault (map (column_missing source.now own.now) (column_names target.now ++ codes "rbu_control" ∷ []))) result }
{
    match check_columns(alloc, source, own, target.columns.as_slice()) {
        Ok(()) => {}
        Err(fault) => return Err(fault),
    }
    check_column(alloc, source, own, b"rbu_control")
}

// Refuses a `data_` table by its columns: those that are missing, then rowids, then those that are unknown.
fn check_own(alloc: Global, source: &[u8], target: &Table, own: &Table) -> Result<(), InputError>
    ensures { Tells (first_fault (own_faults source.now target.now own.now)) result }
{
    match check_all_columns(alloc, source, target, own) {
        Ok(()) => {}
        Err(fault) => return Err(fault),
    }
    match check_rowid(alloc, source, target, own) {
        Ok(()) => {}
        Err(fault) => return Err(fault),
    }
    check_own_columns(alloc, source, target, own.columns.as_slice())
}

// Refuses a `data_` table by the limits and its columns.
fn check_layout(
    alloc: Global,
    source: &[u8],
    named: &NamedEntry,
    target: &Table,
    own: &Table,
) -> Result<(), InputError>
    ensures { Tells (first_fault (layout_faults source.now named.now target.now own.now)) result }
{
    match check_limit(Measure::Columns, 200, target.columns.as_slice().len()) {
        Ok(()) => {}
        Err(fault) => return Err(fault),
    }
    match check_limit(Measure::Indexes, 64, named.entry.indexes.as_slice().len()) {
        Ok(()) => {}
        Err(fault) => return Err(fault),
    }
    match check_names(named, source) {
        Ok(()) => {}
        Err(fault) => return Err(fault),
    }
    check_own(alloc, source, target, own)
}

// The same where both texts are read.
fn check_meanings(
    alloc: Global,
    source: &[u8],
    named: &NamedEntry,
    meaning: &Result<Table, SqlFault>,
    own: &Result<Table, SqlFault>,
) -> Result<(), InputError>
    ensures { Tells (first_fault (meanings_faults source.now named.now meaning.now own.now)) result }
{
    match meaning {
        Ok(target) => match own {
            Ok(own) => check_layout(alloc, source, named, target, own),
            Err(_) => Ok(()),
        },
        Err(_) => Ok(()),
    }
}

// Refuses the `data_` table's own text, and then as above.
fn check_own_text(
    alloc: Global,
    source: &[u8],
    named: &NamedEntry,
    own: &Result<Table, SqlFault>,
) -> Result<(), InputError>
    ensures { Tells (first_fault (meaning_fault source.now own.now ∷ meanings_faults source.now named.now named.now.entry.meaning own.now)) result }
{
    match check_meaning(alloc, source, own) {
        Ok(()) => {}
        Err(fault) => return Err(fault),
    }
    check_meanings(alloc, source, named, &named.entry.meaning, own)
}

// Refuses the texts of a target's indexes, and then as above.
fn check_later_texts(
    alloc: Global,
    source: &[u8],
    named: &NamedEntry,
    own: &Result<Table, SqlFault>,
) -> Result<(), InputError>
    ensures { Tells (first_fault (later_faults source.now named.now own.now)) result }
{
    match check_index_meanings(alloc, named.name.as_slice(), named.entry.indexes.as_slice()) {
        Ok(()) => {}
        Err(fault) => return Err(fault),
    }
    check_own_text(alloc, source, named, own)
}

// Refuses a `data_` table by the texts of its target, of the target's indexes and of itself, and then by the limits and its columns.
fn check_texts(
    alloc: Global,
    source: &[u8],
    named: &NamedEntry,
    own: &Result<Table, SqlFault>,
) -> Result<(), InputError>
    ensures { Tells (first_fault (meaning_fault named.now.name named.now.entry.meaning ∷ later_faults source.now named.now own.now)) result }
{
    match check_meaning(alloc, named.name.as_slice(), &named.entry.meaning) {
        Ok(()) => {}
        Err(fault) => return Err(fault),
    }
    check_later_texts(alloc, source, named, own)
}

/// Refuses what is wrong with a `data_` table by itself: a target that is missing, texts, limits, and columns.
pub fn check_table(
    alloc: Global,
    catalog: &Catalog,
    source: &[u8],
    target: &[u8],
    entry: &Entry,
) -> Result<(), InputError>
    ensures { Tells (table_fault catalog.now (table_at source.now target.now entry.now)) result }
{
    match find_target(catalog, target) {
        Some(named) => check_texts(alloc, source, named, &entry.meaning),
        None => {
            let name = Bytes::of(alloc, target)?;
            Err(InputError::Refused(InputFault::NoTarget { name }))
        }
    }
}
