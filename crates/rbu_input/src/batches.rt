// Reads the rows of a `data_` table as a batch.
ghost use Rattle.std.specs.Prelude.{◌≡◌, ◌≤◌, ◌⊎◌, [], None, IfOk, IfErr, length};
ghost use Rattle.std.specs.List.{AllByRecursion};
ghost use Rattle.page_store.specs.Store.{HasSizes, OwesBy};
ghost use Rattle.tree_walk.specs.Stores.{SeesTree};
ghost use Rattle.prepared_spec.specs.DataTables.{table_fault};
ghost use Rattle.prepared_spec.specs.Inputs.{key_twice};
ghost use Rattle.rbu_input.specs.Batches.{IsClosed, IsRooted, ReadsBatch, ReadsTable};
ghost use Rattle.compared_keys.specs.Keys.{HasKey};
ghost use Rattle.rbu_input.specs.Keys.{IsKeyTwice};
ghost use Rattle.rbu_input.specs.Reading.{fault_in};
ghost use Rattle.rbu_input.specs.RowAnswers.{IsWant, Refuses};
ghost use Rattle.rbu_input.specs.Sums.{AreWithin};
ghost use Rattle.rbu_input.specs.Tables.{table_at};

use crate::fault::InputError;
use crate::keys::check_keys;
use crate::layout::layout_of;
use crate::reading::{CountedRows, read_rows};
use crate::store_fault::{StoreFault, of_input};
use crate::sums::Sums;
use crate::table::{check_table, find_target};
use database_spec::{Catalog, Entry};
use owned_list::OwnedList;
use page_store::PageRead;
use rbu_rows::Batch;
use rbu_value::Bytes;
use schema_spec::Table;
use std::alloc::{AllocError, Global};

/// The rows of a `data_` table, and the sums with them.
#[derive(Drop)]
pub(crate) struct CountedBatch {
    pub(crate) batch: Batch,
    pub(crate) sums: Sums,
}

// The batch of rows, or the refusal of two that have one key.
fn close_table(
    alloc: Global,
    source: &[u8],
    name: &[u8],
    target: &Table,
    read: CountedRows,
) -> Result<CountedBatch, InputError>
    requires keys { AllByRecursion (HasKey target.now) read.rows.items }
    ensures closed { IfOk result (IsClosed source.now name.now read) }
    ensures right { IfOk result (λ _. key_twice target.now [] read.rows.items ≡ None) }
    ensures fault { IfErr result (λ fault. IsWant fault ⊎ Refuses (IsKeyTwice source.now target.now read.rows.items) fault) }
{
    match check_keys(alloc, source, target, read.rows.as_slice()) {
        Ok(()) => {}
        Err(fault) => return Err(fault),
    }
    let table = Bytes::of(alloc, name)?;
    let source = Bytes::of(alloc, source)?;
    let CountedRows { rows, sums } = read;
    Ok(CountedBatch {
        batch: Batch {
            table,
            source,
            rows: OwnedList::from_vec(rows),
        },
        sums,
    })
}

// The batch of the `data_` table at a root.
fn read_batch<S: PageRead>(
    alloc: Global,
    store: &mut S,
    root: u32,
    source: &[u8],
    name: &[u8],
    target: &Table,
    own: &Table,
    sums: Sums,
) -> Result<CountedBatch, StoreFault<S::Fault>>
    requires sizes { HasSizes S.PageRead store.old }
    requires first { 1 ≤ root }
    requires last { root ≤ S.count store.old }
    requires few { length target.now.columns ≤ 200 }
    requires within { AreWithin sums }
    ensures within { IfOk result (λ counted. AreWithin counted.sums) }
    ensures pages { SeesTree S.PageRead store.old store.new (λ sizes base. ReadsBatch sizes base source.now name.now target.now own.now root sums result) }
    ensures owes { OwesBy S.PageRead fault_in store.old store.new result }
{
    let layout = match layout_of(alloc, target, own) {
        Ok(layout) => layout,
        Err(error) => return Err(StoreFault::Memory(error)),
    };
    match read_rows(alloc, store, root, source, target, own, &layout, sums) {
        Ok(read) => match close_table(alloc, source, name, target, read) {
            Ok(counted) => Ok(counted),
            Err(fault) => Err(of_input(fault)),
        },
        Err(fault) => Err(fault),
    }
}

/// The batch of a `data_` table, behind others that these are the sums of; or the first thing that is wrong with it.
pub(crate) fn read_table<S: PageRead>(
    alloc: Global,
    store: &mut S,
    catalog: &Catalog,
    source: &[u8],
    target: &[u8],
    entry: &Entry,
    sums: Sums,
) -> Result<CountedBatch, StoreFault<S::Fault>>
    requires sizes { HasSizes S.PageRead store.old }
    requires rooted { IfOk entry.now.meaning (λ _. IsRooted (S.count store.old) entry.now) }
    requires within { AreWithin sums }
    ensures within { IfOk result (λ counted. AreWithin counted.sums) }
    ensures pages { SeesTree S.PageRead store.old store.new (λ sizes base. ReadsTable sizes base catalog.now (table_at source.now target.now entry.now) sums result) }
    ensures owes { OwesBy S.PageRead fault_in store.old store.new result }
{
    match check_table(alloc, catalog, source, target, entry) {
        Ok(()) => {}
        Err(fault) => return Err(of_input(fault)),
    }
    let Some(named) = find_target(catalog, target) else {
        unreachable!();
    };
    match &named.entry.meaning {
        Ok(table) => match &entry.meaning {
            Ok(own) => read_batch(
                alloc,
                store,
                entry.root,
                source,
                named.name.as_slice(),
                table,
                own,
                sums,
            ),
            // Its text was not read for want of memory.
            Err(_) => Err(StoreFault::Memory(AllocError)),
        },
        Err(_) => Err(StoreFault::Memory(AllocError)),
    }
}
