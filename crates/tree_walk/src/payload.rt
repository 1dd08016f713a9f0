// Reads the payloads of cells.
ghost use Rattle.std.specs.Prelude.{◌≡◌, ◌<◌, length};
ghost use Rattle.page_store.specs.Store.{HasSizes, OwesBy, Sees};
ghost use Rattle.tree_spec.specs.Faults.{fault_in};
ghost use Rattle.tree_walk.specs.Payloads.{ReadsPayload, ReadsRest, tree_fault};

use crate::page::TreePage;
use overflow_chain::{ChainFault, read_chain};
use page_store::{PageRead, is_in_range};
use rbu_value::Bytes;
use refusal::Rule;
use std::alloc::Global;
use tree_spec::{TreeFault, damaged};

// A chain that breaks is damage of its tree.
fn in_tree<F>(fault: ChainFault<F>) -> TreeFault<F>
    ensures { result ≡ tree_fault fault }
{
    match fault {
        ChainFault::ChainBroken { page } => TreeFault::TreeDamaged {
            page,
            rule: Rule::Chain,
        },
        ChainFault::Store(fault) => TreeFault::Store(fault),
        ChainFault::Memory(error) => TreeFault::Memory(error),
    }
}

// What a payload's overflow chain holds, which a cell of a page names. Refuses [55] with `chain`: with this page where the first number is out of range, else with the overflow page that holds what is wrong.
fn read_rest<S: PageRead>(
    alloc: Global,
    store: &mut S,
    number: u32,
    first: u32,
    size: u64,
) -> Result<Bytes, TreeFault<S::Fault>>
    requires { HasSizes S.PageRead store.old }
    ensures pages { Sees S.PageRead store.old store.new (λ m. ReadsRest m (S.size store.old) (S.usable store.old) (S.count store.old) number first size result) }
    ensures owes { OwesBy S.PageRead fault_in store.old store.new result }
{
    if !is_in_range(store.page_size(), store.count(), first) {
        return Err(damaged(number, Rule::Chain));
    }
    match read_chain(alloc, store, first, size) {
        Ok(bytes) => Ok(Bytes::from_vec(bytes)),
        Err(fault) => Err(in_tree(fault)),
    }
}

/// The payload of a cell of the page. Refuses [55] with `chain`.
pub fn read_payload<S: PageRead>(
    alloc: Global,
    store: &mut S,
    page: &TreePage,
    at: usize,
) -> Result<Bytes, TreeFault<S::Fault>>
    requires sizes { HasSizes S.PageRead store.old }
    requires within { at < length page.now.views }
    ensures pages { Sees S.PageRead store.old store.new (λ m. ReadsPayload m (S.size store.old) (S.usable store.old) (S.count store.old) page.now at result) }
    ensures owes { OwesBy S.PageRead fault_in store.old store.new result }
{
    let view = page.view_at(at);
    let mut payload = Vec::from_slice(alloc, page.local_part(at))?;
    let size = view.payload.saturating_sub(u64::from(view.local));
    if size == 0 {
        return Ok(Bytes::from_vec(payload));
    }
    match read_rest(alloc, store, page.number, view.overflow, size) {
        Ok(rest) => {
            payload.extend_from_slice(rest.as_slice())?;
            Ok(Bytes::from_vec(payload))
        }
        Err(fault) => Err(fault),
    }
}
