// Looks for an entry in a page.
ghost use Rattle.std.specs.Prelude.{◌≡◌, ◌<◌, IfErr, IfOk, None, length};
ghost use Rattle.key_order.specs.Orders.{IsEntry};
ghost use Rattle.page_store.specs.Store.{HasSizes, OwesBy, Sees};
ghost use Rattle.tree_spec.specs.Faults.{fault_in};
ghost use Rattle.tree_index.specs.Searches.{ComparesAt, IsWithin, Judges, Searches};

use key_order::{KeyOrder, compare_entries};
use page_store::PageRead;
use refusal::Rule;
use std::alloc::Global;
use std::cmp::Ordering;
use tree_spec::{TreeFault, damaged};
use tree_walk::{TreePage, read_payload};

/// Where an entry stands among the cells of a page, or belongs.
#[derive(Clone, Copy)]
pub enum Sought {
    /// The cell at this index has an equal entry.
    Present(usize),
    /// It belongs in front of the cell at this index, or behind all others.
    At(usize),
}

// The order of the entry of a page's cell and another one. Refuses [55] with `record`.
fn judge<F>(
    number: u32,
    entry: &[u8],
    payload: &[u8],
    order: &KeyOrder,
) -> Result<Ordering, TreeFault<F>>
    requires payload { IsEntry order.now payload.now }
    ensures answer { Judges order.now number entry.now payload.now result }
    ensures cause { IfErr result (λ fault. fault_in fault ≡ None) }
{
    match compare_entries(entry, payload, order) {
        Some(found) => Ok(found),
        None => Err(damaged(number, Rule::Record)),
    }
}

// The order of the entry of a cell and another one. The cell's overflow chain is read only where it has one. Refuses [55] with `chain` or `record`.
fn compare_at<S: PageRead>(
    alloc: Global,
    store: &mut S,
    page: &TreePage,
    at: usize,
    payload: &[u8],
    order: &KeyOrder,
) -> Result<Ordering, TreeFault<S::Fault>>
    requires sizes { HasSizes S.PageRead store.old }
    requires within { at < length page.now.views }
    requires payload { IsEntry order.now payload.now }
    ensures pages { Sees S.PageRead store.old store.new (λ m. ComparesAt m (S.size store.old) (S.usable store.old) (S.count store.old) page.now order.now payload.now at result) }
    ensures owes { OwesBy S.PageRead fault_in store.old store.new result }
{
    let view = page.view_at(at);
    if view.payload <= u64::from(view.local) {
        return judge(page.number, page.local_part(at), payload, order);
    }
    match read_payload(alloc, store, page, at) {
        Ok(entry) => judge(page.number, entry.as_slice(), payload, order),
        Err(fault) => Err(fault),
    }
}

/// Looks for an entry among the cells of a page, by halves. Refuses [55] with `chain` or `record`.
pub fn search<S: PageRead>(
    alloc: Global,
    store: &mut S,
    page: &TreePage,
    payload: &[u8],
    order: &KeyOrder,
) -> Result<Sought, TreeFault<S::Fault>>
    requires sizes { HasSizes S.PageRead store.old }
    requires payload { IsEntry order.now payload.now }
    ensures pages { Sees S.PageRead store.old store.new (λ m. Searches m (S.size store.old) (S.usable store.old) (S.count store.old) page.now order.now payload.now result) }
    ensures within { IfOk result (IsWithin page.now) }
    ensures owes { OwesBy S.PageRead fault_in store.old store.new result }
{
    let mut low = 0;
    let mut high = page.views.as_slice().len();
    while low < high {
        let middle = low + (high - low) / 2;
        match compare_at(alloc, store, page, middle, payload, order) {
            Ok(Ordering::Less) => low = middle + 1,
            Ok(Ordering::Greater) => high = middle,
            Ok(Ordering::Equal) => return Ok(Sought::Present(middle)),
            Err(fault) => return Err(fault),
        }
    }
    Ok(Sought::At(low))
}
