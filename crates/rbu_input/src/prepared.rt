// Reads the prepared rows of an RBU database.
ghost use Rattle.std.specs.Prelude.{◌≡◌, ◌↔◌, [], map, IfOk, IsTrue};
ghost use Rattle.std.specs.List.{AllByRecursion};
ghost use Rattle.std.specs.Option.{unwrap_or};
ghost use Rattle.page_store.specs.Store.{HasSizes, OwesBy};
ghost use Rattle.tree_walk.specs.Stores.{SeesTree};
ghost use Rattle.prepared_spec.specs.DataTables.{target_in as target_in_of};
ghost use Rattle.rbu_input.specs.Prepared.{AnswersCatalogs, IsRootedIfRead, ReadsBatches, ReadsPrepared};
ghost use Rattle.rbu_input.specs.Reading.{fault_in};
ghost use Rattle.rbu_input.specs.Sources.{source_of};

use crate::batches::read_table;
use crate::groups::group_all;
use crate::sources::{sorted_sources, target_in};
use crate::store_fault::StoreFault;
use crate::sums::Sums;
use database_spec::{Catalog, NamedEntry};
use owned_list::OwnedList;
use page_store::PageRead;
use rbu_rows::Batch;
use std::alloc::{AllocError, Global};

// The name of the target of a `data_` table, which has one in its own.
fn target_of(named: &NamedEntry) -> &[u8]
    ensures { result.now ≡ unwrap_or (target_in_of named.now.name) [] }
{
    match target_in(named.name.as_slice()) {
        Some(target) => target,
        None => &[],
    }
}

// The batches of `data_` tables, one after the other.
fn read_batches<S: PageRead>(
    alloc: Global,
    store: &mut S,
    catalog: &Catalog,
    sources: &[&NamedEntry],
) -> Result<Vec<Batch>, StoreFault<S::Fault>>
    requires sizes { HasSizes S.PageRead store.old }
    requires rooted { AllByRecursion (λ named. IsRootedIfRead (S.count store.old) named.now) sources.now }
    ensures pages { SeesTree S.PageRead store.old store.new (λ sizes base. ReadsBatches sizes base catalog.now (map (λ named. source_of named.now) sources.now) result) }
    ensures owes { OwesBy S.PageRead fault_in store.old store.new result }
{
    let mut batches = Vec::new(alloc);
    let mut sums = Sums::none();
    let mut left = sources;
    while let [named, rest @ ..] = left {
        match read_table(
            alloc,
            store,
            catalog,
            named.name.as_slice(),
            target_of(named),
            &named.entry,
            sums,
        ) {
            Ok(counted) => {
                match batches.push(counted.batch) {
                    Ok(()) => {}
                    Err(_) => return Err(StoreFault::Memory(AllocError)),
                }
                sums = counted.sums;
            }
            Err(fault) => return Err(fault),
        }
        left = rest;
    }
    Ok(batches)
}

// Whether a table's text is not read, or its tree has a root among so many pages.
fn is_rooted(named: &NamedEntry, count: u32) -> bool
    ensures { IsTrue result ↔ IsRootedIfRead count named.now }
{
    match &named.entry.meaning {
        Ok(_) => 1 <= named.entry.root && named.entry.root <= count,
        Err(_) => true,
    }
}

/// Whether each table whose text is read has a tree with a root among so many pages, as in each catalog that is read of them.
pub fn are_rooted(catalog: &Catalog, count: u32) -> bool
    ensures { IsTrue result ↔ AllByRecursion (IsRootedIfRead count) catalog.now.tables }
{
    let mut left = catalog.tables.as_slice();
    while let [named, rest @ ..] = left {
        if !is_rooted(named, count) {
            return false;
        }
        left = rest;
    }
    true
}

/// The prepared rows of an RBU database for a target, as groups of batches, one for each target, or the first refusal: [55], [60], [61], [80] to [93] and [95].
///
/// The `data_` tables are gone through in order of their whole names by bytes, and the rows of each by rowid. A table whose text is read has to have a root in the store.
pub fn read_prepared<S: PageRead>(
    alloc: Global,
    rbu: &mut S,
    rbu_catalog: &Catalog,
    target: &Catalog,
) -> Result<OwnedList<OwnedList<Batch>>, StoreFault<S::Fault>>
    requires sizes { HasSizes S.PageRead rbu.old }
    requires rooted { AllByRecursion (IsRootedIfRead (S.count rbu.old)) rbu_catalog.now.tables }
    ensures rows { SeesTree S.PageRead rbu.old rbu.new (λ sizes base. ReadsPrepared sizes base target.now rbu_catalog.now result) }
    ensures answers { SeesTree S.PageRead rbu.old rbu.new (λ sizes base. AnswersCatalogs sizes base target.now rbu_catalog.now result) }
    ensures owes { OwesBy S.PageRead fault_in rbu.old rbu.new result }
{
    let sources = match sorted_sources(alloc, rbu_catalog) {
        Ok(sources) => sources,
        Err(error) => return Err(StoreFault::Memory(error)),
    };
    let batches = match read_batches(alloc, rbu, target, sources.as_slice()) {
        Ok(batches) => batches,
        Err(fault) => return Err(fault),
    };
    match group_all(alloc, batches) {
        Ok(groups) => Ok(OwnedList::from_vec(groups)),
        Err(error) => Err(StoreFault::Memory(error)),
    }
}
