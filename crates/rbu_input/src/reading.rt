// Reads the rows of a `data_` table.
ghost use Rattle.std.specs.Prelude.{◌≡◌, ◌≤◌, ℕ, List, Option, IfOk, IfSome, length};
ghost use Rattle.std.specs.List.{AllByRecursion};
ghost use Rattle.common_spec.specs.Reading.{OrNone};
ghost use Rattle.page_store.specs.Store.{HasSizes, OwesBy};
ghost use Rattle.rbu_rows.specs.declared.prepared.Prepared.{Prepared as AnyPrepared};
ghost use Rattle.tree_walk.specs.Stores.{SeesTree};
ghost use Rattle.database_spec.specs.declared.catalog.Catalog.{Catalog};
ghost use Rattle.prepared_spec.specs.Inputs.{Input};
ghost use Rattle.prepared_spec.specs.PreparedRows.{IsPrepared};
ghost use Rattle.compared_keys.specs.Keys.{HasKey};
ghost use Rattle.rbu_input.specs.Layouts.{IsLayout};
ghost use Rattle.rbu_input.specs.Reading.{ReadsFrom, ReadsNext, ReadsRows, TakesRow, fault_in, opened_as};
ghost use Rattle.rbu_input.specs.RowAnswers.{member_with};
ghost use Rattle.rbu_input.specs.Sums.{AreSums, AreWithin};

use crate::fault::InputError;
use crate::layout::Layout;
use crate::row::read_row;
use crate::store_fault::{StoreFault, of_input, of_tree};
use crate::sums::Sums;
use page_store::PageRead;
use rbu_rows::Prepared;
use schema_spec::Table;
use std::alloc::{AllocError, Global};
use tree_walk::{Cursor, Row, TreeKind};

/// A prepared row, and the sums with it.
#[derive(Drop)]
pub(crate) struct CountedRow {
    prepared: Prepared,
    sums: Sums,
}

/// The prepared rows of a `data_` table, by rowid, and the sums with them.
#[derive(Drop)]
pub(crate) struct CountedRows {
    pub(crate) rows: Vec<Prepared>,
    pub(crate) sums: Sums,
}

// What a row prepares, which is counted, or its first fault.
fn take_row(
    alloc: Global,
    source: &[u8],
    target: &Table,
    own: &Table,
    layout: &Layout,
    row: &Row,
    sums: Sums,
) -> Result<CountedRow, InputError>
    requires layout { IsLayout target.now own.now layout.now }
    requires few { length target.now.columns ≤ 200 }
    requires within { AreWithin sums }
    ensures within { IfOk result (λ counted. AreWithin counted.sums) }
    ensures key { IfOk result (λ counted. HasKey target.now counted.prepared) }
    ensures taken { (catalog : Catalog) (before : List Input) (name : List ℕ) (prepared : Option AnyPrepared) → AreSums before sums → OrNone (IsPrepared target.now own.now (member_with row.now.rowid row.now.payload)) prepared
        → TakesRow catalog before (opened_as source.now name target.now own.now) (member_with row.now.rowid row.now.payload) prepared result }
{
    match read_row(alloc, source, target, own, layout, row) {
        Ok(read) => match sums.with_row(read.length) {
            Ok(sums) => Ok(CountedRow {
                prepared: read.prepared,
                sums,
            }),
            Err(fault) => Err(fault),
        },
        Err(fault) => Err(fault),
    }
}

// The row at which a cursor stands, which it leaves for the next one. What is wrong with the row comes before what the cursor meets.
fn next_row<S: PageRead>(
    alloc: Global,
    store: &mut S,
    cursor: &mut Cursor,
    source: &[u8],
    target: &Table,
    own: &Table,
    layout: &Layout,
    sums: Sums,
) -> Result<Option<CountedRow>, StoreFault<S::Fault>>
    requires sizes { HasSizes S.PageRead store.old }
    requires layout { IsLayout target.now own.now layout.now }
    requires few { length target.now.columns ≤ 200 }
    requires within { AreWithin sums }
    ensures within { IfOk result (λ counted. IfSome counted (λ counted. AreWithin counted.sums)) }
    ensures key { IfOk result (λ counted. IfSome counted (λ counted. HasKey target.now counted.prepared)) }
    ensures pages { SeesTree S.PageRead store.old store.new (λ sizes base. ReadsNext sizes base source.now target.now own.now sums cursor.old cursor.new result) }
    ensures owes { OwesBy S.PageRead fault_in store.old store.new result }
{
    match cursor.row(alloc, store) {
        Ok(Some(row)) => match take_row(alloc, source, target, own, layout, &row, sums) {
            Ok(counted) => match cursor.next(alloc, store) {
                Ok(_) => Ok(Some(counted)),
                Err(fault) => Err(of_tree(fault)),
            },
            Err(fault) => Err(of_input(fault)),
        },
        Ok(None) => Ok(None),
        Err(fault) => Err(of_tree(fault)),
    }
}

// The rows from a cursor on.
fn rows_from<S: PageRead>(
    alloc: Global,
    store: &mut S,
    mut cursor: Cursor,
    source: &[u8],
    target: &Table,
    own: &Table,
    layout: &Layout,
    first: Sums,
) -> Result<CountedRows, StoreFault<S::Fault>>
    requires sizes { HasSizes S.PageRead store.old }
    requires layout { IsLayout target.now own.now layout.now }
    requires few { length target.now.columns ≤ 200 }
    requires within { AreWithin first }
    ensures within { IfOk result (λ read. AreWithin read.sums) }
    ensures keys { IfOk result (λ read. AllByRecursion (HasKey target.now) read.rows.items) }
    ensures pages { SeesTree S.PageRead store.old store.new (λ sizes base. ReadsFrom sizes base source.now target.now own.now first cursor result) }
    ensures owes { OwesBy S.PageRead fault_in store.old store.new result }
{
    let mut rows = Vec::new(alloc);
    let mut sums = first;
    for _ in 0..u64::MAX {
        match next_row(alloc, store, &mut cursor, source, target, own, layout, sums) {
            Ok(Some(counted)) => {
                match rows.push(counted.prepared) {
                    Ok(()) => {}
                    Err(_) => return Err(StoreFault::Memory(AllocError)),
                }
                sums = counted.sums;
            }
            Ok(None) => return Ok(CountedRows { rows, sums }),
            Err(fault) => return Err(fault),
        }
    }
    // No memory has so many rows.
    Err(StoreFault::Memory(AllocError))
}

/// The prepared rows of the `data_` table at a root, behind others that these are the sums of; or the first thing that is wrong with them.
pub(crate) fn read_rows<S: PageRead>(
    alloc: Global,
    store: &mut S,
    root: u32,
    source: &[u8],
    target: &Table,
    own: &Table,
    layout: &Layout,
    sums: Sums,
) -> Result<CountedRows, StoreFault<S::Fault>>
    requires sizes { HasSizes S.PageRead store.old }
    requires first { 1 ≤ root }
    requires last { root ≤ S.count store.old }
    requires layout { IsLayout target.now own.now layout.now }
    requires few { length target.now.columns ≤ 200 }
    requires within { AreWithin sums }
    ensures within { IfOk result (λ read. AreWithin read.sums) }
    ensures keys { IfOk result (λ read. AllByRecursion (HasKey target.now) read.rows.items) }
    ensures pages { SeesTree S.PageRead store.old store.new (λ sizes base. ReadsRows sizes base source.now target.now own.now root sums result) }
    ensures owes { OwesBy S.PageRead fault_in store.old store.new result }
{
    match Cursor::first(alloc, store, root, TreeKind::Table) {
        Ok(cursor) => rows_from(alloc, store, cursor, source, target, own, layout, sums),
        Err(fault) => Err(of_tree(fault)),
    }
}
