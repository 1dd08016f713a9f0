// Checks a whole file.
ghost use Rattle.std.specs.Prelude.{◌≡◌, ◌≤◌, ◌+◌, length, map};
ghost use Rattle.page_store.specs.Store.{HasSizes, OwesBy};
ghost use Rattle.tree_spec.specs.Worlds.{greatest_count};
ghost use Rattle.tree_walk.specs.Stores.{SeesTree};
ghost use Rattle.database_spec.specs.RightRows.{HasCatalog};
ghost use Rattle.db_check.specs.Answers.{fault_in};
ghost use Rattle.file_check.specs.Answers.{ChecksFile};
ghost use Rattle.file_check.specs.Parts.{TellsFile};
ghost use Rattle.file_check.specs.Trees.{seen};

use crate::counting::{Census, counted};
use crate::pages::{judge, pass_pages};
use crate::roots::{CatalogTree, trees_by_roots};
use crate::trees::pass_trees;
use database_spec::Catalog;
use db_check::{CheckFault, page_flags};
use page_store::PageRead;
use std::alloc::Global;

// Goes through all that is found in a file: its trees, the freelist, the pages that have to stand somewhere, and the indexes beside their tables.
fn check_all<S: PageRead>(
    alloc: Global,
    store: &mut S,
    trees: &[CatalogTree<'_>],
    flags: &mut [bool],
) -> Result<(), CheckFault<S::Fault>>
    requires sizes { HasSizes S.PageRead store.old }
    requires some { 1 ≤ S.count store.old }
    requires flags { length flags.old ≡ S.count store.old + 1 }
    ensures pages { SeesTree S.PageRead store.old store.new (λ sizes base. TellsFile sizes base (map seen trees.now) flags.old result) }
    ensures owes { OwesBy S.PageRead fault_in store.old store.new result }
{
    let told = match pass_trees(alloc, store, trees, flags) {
        Ok(told) => told,
        Err(fault) => return Err(fault),
    };
    match pass_pages(alloc, store, flags) {
        Ok(()) => judge(alloc, told),
        Err(fault) => Err(fault),
    }
}

/// Whether the file is sound whose catalog this is, as `schema_read::read_catalog` answers it, of at most 2^24 pages: how many pages and trees it has. Or its first fault, in the order of `FileFindings` of `database_spec`.
///
/// Refuses 70, 71, 72, 73 and 74. Time and memory are linear in the file but for what sorts the roots, and the entries of each index.
pub fn check<S: PageRead>(
    alloc: Global,
    store: &mut S,
    catalog: &Catalog,
) -> Result<Census, CheckFault<S::Fault>>
    requires sizes { HasSizes S.PageRead store.old }
    requires some { 1 ≤ S.count store.old }
    requires few { S.count store.old ≤ greatest_count }
    ensures pages { SeesTree S.PageRead store.old store.new (λ sizes base. HasCatalog sizes base catalog.now → ChecksFile sizes base catalog.now result) }
    ensures owes { OwesBy S.PageRead fault_in store.old store.new result }
{
    let trees = trees_by_roots(alloc, catalog)?;
    let mut flags = page_flags(alloc, store.count())?;
    match check_all(alloc, store, trees.as_slice(), flags.as_mut_slice()) {
        Ok(()) => Ok(counted(store.count(), catalog)),
        Err(fault) => Err(fault),
    }
}
