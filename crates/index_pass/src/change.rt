// One change of an index.
ghost use Rattle.std.specs.Prelude.{◌≡◌, ◌≤◌, List, IfOk, OnOk};
ghost use Rattle.rbu_value.specs.declared.value.Value.{Value};
ghost use Rattle.page_store.specs.Store.{HasSizes, OwesBy};
ghost use Rattle.tree_pages.specs.Writers.{Becomes, sizes_of};
ghost use Rattle.prepared_spec.specs.declared.violation.Change.TheVariants.{Remove, Add};
ghost use Rattle.prepared_spec.specs.StepFaults.{changed_entry};
ghost use Rattle.pass_fault.specs.Faults.{fault_in};
ghost use Rattle.key_order.specs.Orders.{IsEntry};
ghost use Rattle.index_pass.specs.Changes.{Adds, RefusesChange, RefusesPut, RefusesRecord, StepsChange, StepsRecord};
ghost use Rattle.index_pass.specs.Targets.{HasOrders};

use crate::clash::{clash_of, has_clash};
use crate::entry::{record_of, rowid_of};
use crate::target::Target;
use crate::writing::{delete_entry, put_entry};
use page_store::PageWrite;
use pass_fault::{PassFault, refuse_long};
use prepared_spec::{Change, Violation};
use rbu_value::Value;
use std::alloc::Global;
use tree_spec::TreeFault;

// The most bytes of a payload.
const MOST_BYTES: usize = 2_147_483_647;

/// What a change came to.
#[derive(Drop)]
pub enum EntryStep {
    /// It was made.
    Moved,
    /// It has a constraint fault, and nothing was done.
    Constraint(Violation),
}

// The entry of a change.
fn entry_of(change: &Change) -> &[Value]
    ensures { result.now ≡ changed_entry change.now }
{
    match change {
        Change::Remove(entry) => entry.as_slice(),
        Change::Add(entry) => entry.as_slice(),
    }
}

// Puts an entry into the index, by its record. Refuses [55], [50], [51], and [96] where no cell can have the record.
fn put_record<S: PageWrite>(
    alloc: Global,
    store: &mut S,
    target: &Target,
    entry: &[Value],
    payload: &[u8],
) -> Result<(), PassFault<S::Fault>>
    requires sizes { HasSizes S.PageRead store.old }
    requires first { 1 ≤ target.now.root }
    requires within { target.now.root ≤ S.count store.old }
    requires entry { IsEntry target.now.order payload.now }
    ensures added { OnOk result (Becomes S.PageRead store.old store.new (Adds (sizes_of S.PageRead store.old) target.now payload.now)) }
    ensures count { OnOk result (S.count store.old ≤ S.count store.new) }
    ensures refuses { RefusesPut S.PageRead target.now entry.now payload.now store.old store.new result }
    ensures owes { OwesBy S.PageRead fault_in store.old store.new result }
{
    if payload.len() > MOST_BYTES {
        let rowid = rowid_of(entry, target.order.columns.as_slice().len());
        return Err(refuse_long(alloc, target.table.as_slice(), rowid));
    }
    match put_entry(alloc, store, target, payload) {
        Ok(()) => Ok(()),
        Err(fault) => Err(fault),
    }
}

// Makes an addition, by the record of its entry.
fn add_record<S: PageWrite>(
    alloc: Global,
    store: &mut S,
    target: &Target,
    entry: &[Value],
    payload: &[u8],
) -> Result<EntryStep, PassFault<S::Fault>>
    requires sizes { HasSizes S.PageRead store.old }
    requires first { 1 ≤ target.now.root }
    requires within { target.now.root ≤ S.count store.old }
    requires orders { HasOrders target.now }
    requires entry { IsEntry target.now.order payload.now }
    ensures steps { IfOk result (λ step. Becomes S.PageRead store.old store.new (StepsRecord (sizes_of S.PageRead store.old) target.now (Add entry.now) payload.now step)) }
    ensures count { OnOk result (S.count store.old ≤ S.count store.new) }
    ensures refuses { RefusesRecord S.PageRead target.now (Add entry.now) payload.now store.old store.new result }
    ensures owes { OwesBy S.PageRead fault_in store.old store.new result }
{
    match has_clash(alloc, store, target, payload) {
        Ok(true) => match clash_of(alloc, target, entry) {
            Ok(violation) => Ok(EntryStep::Constraint(violation)),
            Err(error) => Err(PassFault::Tree(TreeFault::Memory(error))),
        },
        Ok(false) => match put_record(alloc, store, target, entry, payload) {
            Ok(()) => Ok(EntryStep::Moved),
            Err(fault) => Err(fault),
        },
        Err(fault) => Err(fault),
    }
}

// Makes a removal, by the record of its entry.
fn remove_record<S: PageWrite>(
    alloc: Global,
    store: &mut S,
    target: &Target,
    payload: &[u8],
) -> Result<EntryStep, PassFault<S::Fault>>
    requires sizes { HasSizes S.PageRead store.old }
    requires first { 1 ≤ target.now.root }
    requires within { target.now.root ≤ S.count store.old }
    requires entry { IsEntry target.now.order payload.now }
    ensures steps { IfOk result (λ step. (entry : List Value) → Becomes S.PageRead store.old store.new (StepsRecord (sizes_of S.PageRead store.old) target.now (Remove entry) payload.now step)) }
    ensures count { OnOk result (S.count store.old ≤ S.count store.new) }
    ensures refuses { (entry : List Value) → RefusesRecord S.PageRead target.now (Remove entry) payload.now store.old store.new result }
    ensures owes { OwesBy S.PageRead fault_in store.old store.new result }
{
    match delete_entry(alloc, store, target, payload) {
        Ok(()) => Ok(EntryStep::Moved),
        Err(fault) => Err(fault),
    }
}

// Makes a change, by the record of its entry.
fn step_record<S: PageWrite>(
    alloc: Global,
    store: &mut S,
    target: &Target,
    change: &Change,
    payload: &[u8],
) -> Result<EntryStep, PassFault<S::Fault>>
    requires sizes { HasSizes S.PageRead store.old }
    requires first { 1 ≤ target.now.root }
    requires within { target.now.root ≤ S.count store.old }
    requires orders { HasOrders target.now }
    requires entry { IsEntry target.now.order payload.now }
    ensures steps { IfOk result (λ step. Becomes S.PageRead store.old store.new (StepsRecord (sizes_of S.PageRead store.old) target.now change.now payload.now step)) }
    ensures count { OnOk result (S.count store.old ≤ S.count store.new) }
    ensures refuses { RefusesRecord S.PageRead target.now change.now payload.now store.old store.new result }
    ensures owes { OwesBy S.PageRead fault_in store.old store.new result }
{
    match change {
        Change::Remove(_) => remove_record(alloc, store, target, payload),
        Change::Add(entry) => add_record(alloc, store, target, entry.as_slice(), payload),
    }
}

/// Makes a change of an index. Where it has a constraint fault nothing is done. Refuses [55], [50], [51], and [96] where no cell can have the record of an entry that is added.
pub(crate) fn step_change<S: PageWrite>(
    alloc: Global,
    store: &mut S,
    target: &Target,
    change: &Change,
) -> Result<EntryStep, PassFault<S::Fault>>
    requires sizes { HasSizes S.PageRead store.old }
    requires first { 1 ≤ target.now.root }
    requires within { target.now.root ≤ S.count store.old }
    requires orders { HasOrders target.now }
    ensures steps { IfOk result (λ step. Becomes S.PageRead store.old store.new (StepsChange (sizes_of S.PageRead store.old) target.now change.now step)) }
    ensures count { OnOk result (S.count store.old ≤ S.count store.new) }
    ensures refuses { RefusesChange S.PageRead target.now change.now store.old store.new result }
    ensures owes { OwesBy S.PageRead fault_in store.old store.new result }
{
    match record_of(alloc, store, target, entry_of(change)) {
        Ok(payload) => match step_record(alloc, store, target, change, payload.as_slice()) {
            Ok(step) => Ok(step),
            Err(fault) => Err(fault),
        },
        Err(fault) => Err(fault),
    }
}
