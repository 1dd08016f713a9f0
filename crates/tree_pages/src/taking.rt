// Takes pages.
ghost use Rattle.std.specs.Prelude.{◌≡◌, ◌≤◌, ◌⊎◌, IfErr, IfOk, OnOk, max};
ghost use Rattle.page_store.specs.Store.{HasSizes, IsNumber, OwesBy};
ghost use Rattle.put_spec.specs.Steps.{Took};
ghost use Rattle.tree_spec.specs.Faults.{IsOther, fault_in};
ghost use Rattle.tree_pages.specs.Faults.{from_freelist};
ghost use Rattle.tree_pages.specs.Takes.{RefusesShort, RisesBy};
ghost use Rattle.tree_pages.specs.Writers.{Becomes, sizes_of};

use free_list::{FreeFault, allocate};
use page_store::PageWrite;
use std::alloc::Global;
use tree_spec::TreeFault;

/// The same fault of a change of the freelist.
pub fn of_freelist<F>(fault: FreeFault<F>) -> TreeFault<F>
    ensures { result ≡ from_freelist fault }
{
    match fault {
        FreeFault::TrunkDamaged { page } => TreeFault::TrunkDamaged { page },
        FreeFault::TargetFull { pages, limit } => TreeFault::TargetFull { pages, limit },
        FreeFault::Store(fault) => TreeFault::Store(fault),
        FreeFault::Memory(error) => TreeFault::Memory(error),
    }
}

/// Takes a page for a tree: a free one, or where there is none the next one past the end, up to a limit. Over a sound freelist it refuses only [51], and that only where no page can be taken any more.
///
/// The store has at least one page. After a fault of the store a part of the change may be written.
pub fn take_page<S: PageWrite>(
    alloc: Global,
    store: &mut S,
    limit: u32,
) -> Result<u32, TreeFault<S::Fault>>
    requires sizes { HasSizes S.PageRead store.old }
    requires some { 1 ≤ S.count store.old }
    ensures took { IfOk result (λ page. Becomes S.PageRead store.old store.new (Took (sizes_of S.PageRead store.old) page)) }
    ensures in_range { IfOk result (IsNumber S.PageRead store.new) }
    ensures count { OnOk result (S.count store.old ≤ S.count store.new) }
    ensures most { OnOk result (S.count store.new ≤ max limit (S.count store.old)) }
    ensures rises { OnOk result (RisesBy S.PageRead 1 store.old store.new) }
    ensures refuses { RefusesShort S.PageRead 1 limit store.old store.new result }
    ensures stays { IfErr result (λ fault. IsOther fault ⊎ (S.count store.new ≡ S.count store.old)) }
    ensures owes { OwesBy S.PageRead fault_in store.old store.new result }
{
    match allocate(alloc, store, limit) {
        Ok(page) => Ok(page),
        Err(fault) => Err(of_freelist(fault)),
    }
}
