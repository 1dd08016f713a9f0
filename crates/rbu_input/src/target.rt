// Whether the records of targeted tables are rows.
ghost use Rattle.std.specs.Prelude.{◌↔◌, ◌≤◌, ◌⊎◌, OnOk, IfErr, IsTrue};
ghost use Rattle.std.specs.List.{AllByRecursion};
ghost use Rattle.page_store.specs.Store.{HasSizes, OwesBy};
ghost use Rattle.tree_walk.specs.Stores.{SeesTree};
ghost use Rattle.rbu_input.specs.Reading.{fault_in};
ghost use Rattle.rbu_input.specs.RowAnswers.{IsWant, Refuses, member_with};
ghost use Rattle.rbu_input.specs.Targets.{ChecksBatch, ChecksFrom, ChecksNext, ChecksRows, IsRefusalOf, IsKnown, IsRightRecord, IsTargetAnswer, IsWrongRecord};

use crate::fault::InputError;
use crate::store_fault::{StoreFault, of_input, of_tree};
use crate::table::table_named;
use crate::values::{Unread, row_values};
use database_spec::Catalog;
use page_store::PageRead;
use prepared_spec::InputFault;
use rbu_rows::Batch;
use rbu_value::Bytes;
use schema_spec::Table;
use std::alloc::{AllocError, Global};
use tree_walk::{Cursor, Row, TreeKind};

// The refusal of a record that is not read, unless memory was wanting.
fn refuse_record(alloc: Global, name: &[u8], row: &Row, unread: Unread) -> InputError
    ensures { IsWant result ⊎ Refuses (IsRefusalOf name.now row.now.rowid unread) result }
{
    match unread {
        Unread::Memory(error) => InputError::Memory(error),
        Unread::Cause(cause) => match Bytes::of(alloc, name) {
            Ok(table) => InputError::Refused(InputFault::TargetRecord {
                table,
                rowid: row.rowid,
                cause,
            }),
            Err(error) => InputError::Memory(error),
        },
    }
}

// Refuses a record that is no row of its table: [96].
fn check_record(alloc: Global, name: &[u8], table: &Table, row: &Row) -> Result<(), InputError>
    ensures right { OnOk result (IsRightRecord name.now table.now (member_with row.now.rowid row.now.payload)) }
    ensures fault { IfErr result (λ fault. IsWant fault ⊎ Refuses (IsWrongRecord name.now table.now (member_with row.now.rowid row.now.payload)) fault) }
{
    match row_values(alloc, table, row) {
        Ok(_values) => Ok(()),
        Err(unread) => Err(refuse_record(alloc, name, row, unread)),
    }
}

// Checks the record at which a cursor stands, and leaves it for the next one. False where none is left. What is wrong with the record comes before what the cursor meets.
fn check_next<S: PageRead>(
    alloc: Global,
    store: &mut S,
    cursor: &mut Cursor,
    name: &[u8],
    table: &Table,
) -> Result<bool, StoreFault<S::Fault>>
    requires { HasSizes S.PageRead store.old }
    ensures pages { SeesTree S.PageRead store.old store.new (λ sizes base. ChecksNext sizes base name.now table.now cursor.old cursor.new result) }
    ensures owes { OwesBy S.PageRead fault_in store.old store.new result }
{
    match cursor.row(alloc, store) {
        Ok(Some(row)) => match check_record(alloc, name, table, &row) {
            Ok(()) => match cursor.next(alloc, store) {
                Ok(_) => Ok(true),
                Err(fault) => Err(of_tree(fault)),
            },
            Err(fault) => Err(of_input(fault)),
        },
        Ok(None) => Ok(false),
        Err(fault) => Err(of_tree(fault)),
    }
}

// Checks the records from a cursor on.
fn check_from<S: PageRead>(
    alloc: Global,
    store: &mut S,
    mut cursor: Cursor,
    name: &[u8],
    table: &Table,
) -> Result<(), StoreFault<S::Fault>>
    requires { HasSizes S.PageRead store.old }
    ensures pages { SeesTree S.PageRead store.old store.new (λ sizes base. ChecksFrom sizes base name.now table.now cursor result) }
    ensures owes { OwesBy S.PageRead fault_in store.old store.new result }
{
    for _ in 0..u64::MAX {
        match check_next(alloc, store, &mut cursor, name, table) {
            Ok(true) => {}
            Ok(false) => return Ok(()),
            Err(fault) => return Err(fault),
        }
    }
    // No tree has so many cells.
    Err(StoreFault::Memory(AllocError))
}

/// Checks that each record of the tree at a root is a row of its table; or refuses the first that is none: [96].
pub(crate) fn check_rows<S: PageRead>(
    alloc: Global,
    store: &mut S,
    root: u32,
    name: &[u8],
    table: &Table,
) -> Result<(), StoreFault<S::Fault>>
    requires sizes { HasSizes S.PageRead store.old }
    requires first { 1 ≤ root }
    requires last { root ≤ S.count store.old }
    ensures pages { SeesTree S.PageRead store.old store.new (λ sizes base. ChecksRows sizes base name.now table.now root result) }
    ensures owes { OwesBy S.PageRead fault_in store.old store.new result }
{
    match Cursor::first(alloc, store, root, TreeKind::Table) {
        Ok(cursor) => check_from(alloc, store, cursor, name, table),
        Err(fault) => Err(of_tree(fault)),
    }
}

// Checks the table that a batch is for.
fn check_batch<S: PageRead>(
    alloc: Global,
    store: &mut S,
    catalog: &Catalog,
    batch: &Batch,
) -> Result<(), StoreFault<S::Fault>>
    requires sizes { HasSizes S.PageRead store.old }
    requires known { IsKnown catalog.now (S.count store.old) batch.now }
    ensures pages { SeesTree S.PageRead store.old store.new (λ sizes base. ChecksBatch sizes base catalog.now batch.now result) }
    ensures owes { OwesBy S.PageRead fault_in store.old store.new result }
{
    let Some(named) = table_named(catalog.tables.as_slice(), batch.table.as_slice()) else {
        unreachable!();
    };
    let Ok(table) = &named.entry.meaning else {
        unreachable!();
    };
    check_rows(alloc, store, named.entry.root, named.name.as_slice(), table)
}

// Whether a batch is for a table of the catalog whose text is read, and whose tree has a root among so many pages.
fn is_known(catalog: &Catalog, count: u32, batch: &Batch) -> bool
    ensures { IsTrue result ↔ IsKnown catalog.now count batch.now }
{
    let Some(named) = table_named(catalog.tables.as_slice(), batch.table.as_slice()) else {
        return false;
    };
    let Ok(_table) = &named.entry.meaning else {
        return false;
    };
    if named.entry.root < 1 {
        return false;
    }
    if named.entry.root > count {
        return false;
    }
    true
}

/// Whether each batch is for a table of the catalog whose text is read, and whose tree has a root among so many pages, as those that were prepared are.
pub fn are_known(catalog: &Catalog, count: u32, batches: &[Batch]) -> bool
    ensures { IsTrue result ↔ AllByRecursion (IsKnown catalog.now count) batches.now }
{
    let mut left = batches;
    while let [batch, rest @ ..] = left {
        if !is_known(catalog, count, batch) {
            return false;
        }
        left = rest;
    }
    true
}

/// Checks that each record of the tables that batches are for is a row of its table, batch by batch; or refuses the first that is none, by rowid: [96], or the damage that a walk meets before: [55].
///
/// A batch has to be one for a table of the catalog whose text is read and whose tree has a root in the store.
pub fn plain_target<S: PageRead>(
    alloc: Global,
    target: &mut S,
    catalog: &Catalog,
    batches: &[Batch],
) -> Result<(), StoreFault<S::Fault>>
    requires sizes { HasSizes S.PageRead target.old }
    requires known { AllByRecursion (IsKnown catalog.now (S.count target.old)) batches.now }
    ensures records { SeesTree S.PageRead target.old target.new (λ sizes base. IsTargetAnswer sizes base catalog.now batches.now result) }
    ensures owes { OwesBy S.PageRead fault_in target.old target.new result }
{
    let mut left = batches;
    while let [batch, rest @ ..] = left {
        match check_batch(alloc, target, catalog, batch) {
            Ok(()) => {}
            Err(fault) => return Err(fault),
        }
        left = rest;
    }
    Ok(())
}
