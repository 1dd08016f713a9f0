// Whether an entry that is added agrees with one that stands.
ghost use Rattle.std.specs.Prelude.{◌≡◌, ◌≤◌, IfOk};
ghost use Rattle.page_store.specs.Store.{HasSizes, OwesBy};
ghost use Rattle.tree_walk.specs.Stores.{SeesTree};
ghost use Rattle.prepared_spec.specs.declared.violation.Violation.TheVariants.{NotUnique};
ghost use Rattle.pass_fault.specs.Faults.{fault_in};
ghost use Rattle.key_order.specs.Orders.{IsEntry};
ghost use Rattle.index_pass.specs.Changes.{LooksForClash};

use crate::target::Target;
use index_lookup::has_alike;
use owned_list::OwnedList;
use page_store::PageRead;
use pass_fault::PassFault;
use prepared_spec::Violation;
use rbu_value::{Bytes, Value};
use std::alloc::{AllocError, Global};
use value_copies::copy_values;

/// Whether the index is unique and has an entry that agrees in the columns with one, by its record. Refuses [55] where it meets what is damaged.
pub(crate) fn has_clash<S: PageRead>(
    alloc: Global,
    store: &mut S,
    target: &Target,
    payload: &[u8],
) -> Result<bool, PassFault<S::Fault>>
    requires sizes { HasSizes S.PageRead store.old }
    requires first { 1 ≤ target.now.root }
    requires within { target.now.root ≤ S.count store.old }
    requires entry { IsEntry target.now.alike payload.now }
    ensures pages { SeesTree S.PageRead store.old store.new (λ sizes base. LooksForClash sizes base target.now payload.now result) }
    ensures owes { OwesBy S.PageRead fault_in store.old store.new result }
{
    if !target.unique {
        return Ok(false);
    }
    match has_alike(alloc, store, target.root, payload, &target.alike) {
        Ok(found) => Ok(found),
        Err(fault) => Err(PassFault::Tree(fault)),
    }
}

/// The constraint fault of an entry that is added. Fails where memory runs out.
pub(crate) fn clash_of(
    alloc: Global,
    target: &Target,
    entry: &[Value],
) -> Result<Violation, AllocError>
    ensures { IfOk result (λ violation. violation ≡ NotUnique target.now.name entry.now) }
{
    let index = Bytes::of(alloc, target.name.as_slice())?;
    let key = copy_values(alloc, entry)?;
    Ok(Violation::NotUnique {
        index,
        key: OwnedList::from_vec(key),
    })
}
