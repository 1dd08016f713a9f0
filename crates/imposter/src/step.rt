// One step of a pass over a table.
ghost use Rattle.std.specs.Prelude.{◌≡◌, ◌≤◌, ◌≤ℤ◌, ◌&&◌, IfErr, IfOk, OnOk, is_some, not, pos};
ghost use Rattle.prepared_spec.specs.Tables.{makes_row as makes_row_of};
ghost use Rattle.page_store.specs.Store.{HasSizes, OwesBy};
ghost use Rattle.tree_pages.specs.Writers.{Becomes, sizes_of};
ghost use Rattle.pass_fault.specs.Faults.{fault_in};
ghost use Rattle.imposter.specs.Writes.{IsTreeOrLong};
ghost use Rattle.imposter.specs.Steps.{IsFaultOf, RefusesMet, RefusesRecords, RefusesStep, RefusesWriting, StepsMet, StepsRow, WritesStep};

use crate::finding::find_met;
use crate::target::Target;
use crate::writing::write_row;
use owned_list::OwnedList;
use page_store::PageWrite;
use pass_fault::{PassFault, read_format};
use prepared_spec::Violation;
use rbu_rows::Prepared;
use rbu_value::Value;
use row_steps::{makes_row, row_fault};
use row_writes::row_write;
use std::alloc::{AllocError, Global};
use tree_spec::TreeFault;

/// What a step did.
#[derive(Drop)]
pub enum RowStep {
    /// It was made, and whether it made a new row.
    Moved { made: bool },
    /// It has a constraint fault, and nothing was done.
    Constraint(Violation),
}

// Writes what the step writes, where it is known which row is met.
fn write_step<S: PageWrite>(
    alloc: Global,
    store: &mut S,
    target: &Target,
    rowid: i64,
    met: &Option<(i64, OwnedList<Value>)>,
    prepared: &Prepared,
) -> Result<(), PassFault<S::Fault>>
    requires sizes { HasSizes S.PageRead store.old }
    requires first { 1 ≤ target.now.root }
    requires within { target.now.root ≤ S.count store.old }
    ensures wrote { OnOk result (Becomes S.PageRead store.old store.new (WritesStep (sizes_of S.PageRead store.old) target.now rowid met.now prepared.now)) }
    ensures count { OnOk result (S.count store.old ≤ S.count store.new) }
    ensures refuses { RefusesWriting S.PageRead target.now rowid met.now prepared.now store.old store.new result }
    ensures records { IfErr result (IsTreeOrLong target.now rowid) }
    ensures owes { OwesBy S.PageRead fault_in store.old store.new result }
{
    match read_format(alloc, store) {
        Ok(format) => match row_write(alloc, &target.table, format, met, prepared) {
            Ok(write) => write_row(alloc, store, target, rowid, &write),
            Err(error) => Err(PassFault::Tree(TreeFault::Memory(error))),
        },
        Err(fault) => Err(fault),
    }
}

// Whether a row is met.
fn is_there(met: &Option<(i64, OwnedList<Value>)>) -> bool
    ensures { result ≡ is_some met.now }
{
    met.is_some()
}

// Whether a prepared row makes a new row.
fn makes_new(met: &Option<(i64, OwnedList<Value>)>, prepared: &Prepared) -> bool
    ensures { result ≡ (makes_row_of prepared.now.control && not (is_some met.now)) }
{
    met.is_none() && makes_row(&prepared.control)
}

// The constraint that the step breaks, or none.
fn fault_of(
    alloc: Global,
    target: &Target,
    taken: u64,
    met: &Option<(i64, OwnedList<Value>)>,
    prepared: &Prepared,
) -> Result<Option<Violation>, AllocError>
    requires { pos 0 ≤ℤ target.now.greatest }
    ensures { IfOk result (IsFaultOf target.now taken met.now prepared.now) }
{
    let name = target.name.as_slice();
    row_fault(
        alloc,
        name,
        &target.table,
        &target.greatest,
        taken,
        is_there(met),
        prepared,
    )
}

// The same, unless the step has a fault.
fn step_met<S: PageWrite>(
    alloc: Global,
    store: &mut S,
    target: &Target,
    taken: u64,
    rowid: i64,
    met: &Option<(i64, OwnedList<Value>)>,
    prepared: &Prepared,
) -> Result<RowStep, PassFault<S::Fault>>
    requires sizes { HasSizes S.PageRead store.old }
    requires first { 1 ≤ target.now.root }
    requires within { target.now.root ≤ S.count store.old }
    requires from { pos 0 ≤ℤ target.now.greatest }
    ensures steps { IfOk result (λ step. Becomes S.PageRead store.old store.new (StepsMet (sizes_of S.PageRead store.old) target.now taken rowid met.now prepared.now step)) }
    ensures count { OnOk result (S.count store.old ≤ S.count store.new) }
    ensures refuses { RefusesMet S.PageRead target.now taken rowid met.now prepared.now store.old store.new result }
    ensures records { IfErr result (IsTreeOrLong target.now rowid) }
    ensures owes { OwesBy S.PageRead fault_in store.old store.new result }
{
    match fault_of(alloc, target, taken, met, prepared) {
        Ok(Some(violation)) => Ok(RowStep::Constraint(violation)),
        Ok(None) => match write_step(alloc, store, target, rowid, met, prepared) {
            Ok(()) => Ok(RowStep::Moved {
                made: makes_new(met, prepared),
            }),
            Err(fault) => Err(fault),
        },
        Err(error) => Err(PassFault::Tree(TreeFault::Memory(error))),
    }
}

/// Makes the step of a prepared row that meets the row of a rowid, if there is one, and makes a row of this rowid where it makes one; so many rows of its group are new before it. Where it has a constraint fault nothing is done.
///
/// Refuses [55], [50] and [51] as `put` and `delete` of a table do, and [96] where the record of the row that is met is none of a row, or one that is put would have more than 2147483647 bytes. After an error the store may hold part of the step.
pub fn step_row<S: PageWrite>(
    alloc: Global,
    store: &mut S,
    target: &Target,
    taken: u64,
    rowid: i64,
    prepared: &Prepared,
) -> Result<RowStep, PassFault<S::Fault>>
    requires sizes { HasSizes S.PageRead store.old }
    requires first { 1 ≤ target.now.root }
    requires within { target.now.root ≤ S.count store.old }
    requires from { pos 0 ≤ℤ target.now.greatest }
    ensures steps { IfOk result (λ step. Becomes S.PageRead store.old store.new (StepsRow (sizes_of S.PageRead store.old) target.now taken rowid prepared.now step)) }
    ensures count { OnOk result (S.count store.old ≤ S.count store.new) }
    ensures refuses { RefusesStep S.PageRead target.now taken rowid prepared.now store.old store.new result }
    ensures records { RefusesRecords S.PageRead target.now rowid store.old store.new result }
    ensures owes { OwesBy S.PageRead fault_in store.old store.new result }
{
    match find_met(alloc, store, target, rowid) {
        Ok(met) => step_met(alloc, store, target, taken, rowid, &met, prepared),
        Err(fault) => Err(fault),
    }
}
