// Goes through what stands behind the trees of a file.
ghost use Rattle.std.specs.Prelude.{◌≡◌, ◌+◌, ◌++◌, ◌≤◌, [], IfErr, List, None, filter_map, length, map};
ghost use Rattle.page_store.specs.Store.{HasSizes, OwesBy};
ghost use Rattle.tree_walk.specs.Stores.{SeesTree};
ghost use Rattle.database_spec.specs.FileFindings.{Found, Needs, Walked, freelist_found, pages_needed};
ghost use Rattle.database_spec.specs.FileFaults.{free_page};
ghost use Rattle.db_check.specs.Answers.{fault_in};
ghost use Rattle.db_check.specs.Passes.{IsMarked, Passes};
ghost use Rattle.file_check.specs.Parts.{JudgesAs};

use crate::trees::Disagreement;
use db_check::{CheckFault, check_freelist, check_pages};
use page_store::PageRead;
use rbu_value::Bytes;
use std::alloc::Global;

/// Goes through the freelist and then through the pages that have to stand somewhere. Refuses 70, 71 and 74.
pub(crate) fn pass_pages<S: PageRead>(
    alloc: Global,
    store: &mut S,
    flags: &mut [bool],
) -> Result<(), CheckFault<S::Fault>>
    requires sizes { HasSizes S.PageRead store.old }
    requires some { 1 ≤ S.count store.old }
    requires flags { length flags.old ≡ S.count store.old + 1 }
    ensures pages { SeesTree S.PageRead store.old store.new (λ sizes base. (before : List Found) → filter_map free_page before ≡ [] → IsMarked flags.old before
        → Passes before (freelist_found sizes base ++ map Needs (pages_needed sizes base)) flags.new result) }
    ensures owes { OwesBy S.PageRead fault_in store.old store.new result }
{
    match check_freelist(alloc, store, flags) {
        Ok(()) => check_pages(store.page_size(), store.count(), flags),
        Err(fault) => Err(fault),
    }
}

/// Refuses an index that disagrees with its table: 73.
pub(crate) fn judge<F>(alloc: Global, told: Option<Disagreement<'_>>) -> Result<(), CheckFault<F>>
    ensures answer { (walks : List Walked) → JudgesAs walks told.entry result }
    ensures cause { IfErr result (λ fault. fault_in fault ≡ None) }
{
    match told {
        None => Ok(()),
        Some(told) => match Bytes::of(alloc, told.index.name.as_slice()) {
            Ok(index) => Err(CheckFault::IndexDisagrees {
                index,
                rowid: told.rowid,
            }),
            Err(error) => Err(CheckFault::Memory(error)),
        },
    }
}
