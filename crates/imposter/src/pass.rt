// A pass over a table.
ghost use Rattle.std.specs.Prelude.{◌≡◌, ◌+◌, ◌≤◌, ◌<◌, ◌≤ℤ◌, ◌↔◌, ◌^◌, ◌-◌, IfOk, IsOk, MatchResult, OnOk, length, option_copied, pos, slice_get};
ghost use Rattle.page_store.specs.Store.{HasSizes, OwesBy};
ghost use Rattle.pass_fault.specs.declared.answer.PassAnswer.TheVariants.{End as EndOfPass};
ghost use Rattle.pass_fault.specs.Faults.{fault_in};
ghost use Rattle.tree_pages.specs.Writers.{Becomes, sizes_of};
ghost use Rattle.imposter.specs.Begins.{Begins};
ghost use Rattle.imposter.specs.Passes.{AnswersStep, IsLeft, PassesOn, RefusesAt, RefusesPass, StepsAt, StepsPass, key_rowid, step_behind};

use crate::step::{RowStep, step_row};
use crate::target::Target;
use batch_order::rows_in_order;
use database_spec::Entry;
use owned_list::OwnedList;
use page_store::PageWrite;
use pass_fault::{PassAnswer, PassFault};
use rbu_rows::{Batch, Prepared};
use row_steps::key_integer;
use schema_copies::copy_table;
use schema_spec::Table;
use std::alloc::{AllocError, Global};

/// A pass of the prepared rows of a batch over their table, one step for each, where the key of the table is its rowid.
#[derive(Drop)]
pub struct TablePass {
    pub target: Target,
    /// The prepared rows in the order of their keys.
    pub rows: OwnedList<Prepared>,
    /// How many of them the pass is behind.
    pub at: usize,
    /// How many new rows the steps of their group made so far.
    pub taken: u64,
}

// The table that the text of an entry means.
fn table_of(entry: &Entry) -> &Table
    requires { IsOk entry.now.meaning }
    ensures { entry.now.meaning ≡ Ok result.now }
{
    match &entry.meaning {
        Ok(table) => table,
        Err(_) => unreachable!(),
    }
}

// The rowid that a prepared row has for a key.
fn rowid_of(prepared: &Prepared) -> i64
    ensures { result ≡ key_rowid prepared.now }
{
    key_integer(prepared.key.as_slice())
}

// The index behind that of a prepared row.
fn index_behind(at: usize, rows: &[Prepared]) -> usize
    requires { at < length rows.now }
    ensures { result ≡ at + 1 }
{
    at + 1
}

impl TablePass {
    /// A pass of the rows of a batch over the table of an entry, whose text is read. It begins behind the first `from` of them in the order of their keys, and behind `taken` new rows of its group, whose rowids count from `g` where the key is not the rowid. Fails where memory runs out.
    pub fn new(
        alloc: Global,
        batch: Batch,
        entry: &Entry,
        g: i64,
        from: u64,
        taken: u64,
    ) -> Result<TablePass, AllocError>
        requires { IsOk entry.now.meaning }
        ensures { IfOk result (Begins batch entry.now g from taken) }
    {
        let Batch {
            table: name,
            rows,
            ..
        } = batch;
        let table = copy_table(alloc, table_of(entry))?;
        let rows = rows_in_order(alloc, &table, rows)?;
        Ok(TablePass {
            target: Target {
                name,
                root: entry.root,
                table,
                greatest: g,
            },
            rows,
            at: from as usize,
            taken,
        })
    }

    // The prepared row that is due, if one is left.
    fn due(&self) -> Option<&Prepared>
        ensures { option_copied result ≡ slice_get self.now.rows self.now.at }
    {
        self.rows.as_slice().get(self.at)
    }

    // Makes the step that is due, if one is left.
    fn step_due<S: PageWrite>(
        &self,
        alloc: Global,
        store: &mut S,
    ) -> Result<Option<RowStep>, PassFault<S::Fault>>
        requires sizes { HasSizes S.PageRead store.old }
        requires first { 1 ≤ self.now.target.root }
        requires within { self.now.target.root ≤ S.count store.old }
        requires from { pos 0 ≤ℤ self.now.target.greatest }
        ensures steps { IfOk result (λ step. Becomes S.PageRead store.old store.new (StepsAt (sizes_of S.PageRead store.old) self.now step)) }
        ensures count { OnOk result (S.count store.old ≤ S.count store.new) }
        ensures left { MatchResult result (IsLeft self.now) (λ fault. self.now.at < length self.now.rows) }
        ensures refuses { RefusesAt S.PageRead self.now store.old store.new result }
        ensures owes { OwesBy S.PageRead fault_in store.old store.new result }
    {
        match self.due() {
            None => Ok(None),
            Some(prepared) => {
                let rowid = rowid_of(prepared);
                match step_row(alloc, store, &self.target, self.taken, rowid, prepared) {
                    Ok(step) => Ok(Some(step)),
                    Err(fault) => Err(fault),
                }
            }
        }
    }

    // A step was made.
    fn go_on(&mut self, made: bool)
        requires left { self.old.at < length self.old.rows }
        requires few { self.old.taken < 2 ^ 64 - 1 }
        ensures { self.new ≡ step_behind self.old made }
    {
        self.at = index_behind(self.at, self.rows.as_slice());
        if made {
            self.taken += 1;
        }
    }

    // What is answered of the step that was due, if one was left.
    fn answer(&mut self, step: Option<RowStep>) -> PassAnswer
        requires left { IsLeft self.old step }
        requires few { self.old.taken < 2 ^ 64 - 1 }
        ensures { AnswersStep self.old self.new step result }
    {
        match step {
            None => PassAnswer::End,
            Some(RowStep::Moved { made }) => {
                self.go_on(made);
                PassAnswer::Moved
            }
            Some(RowStep::Constraint(violation)) => PassAnswer::Constraint(violation),
        }
    }

    /// Makes the step that is due, and goes on. Answers `End` exactly where no step is left, and `Constraint` exactly where the step that is due has a constraint fault; then nothing is done.
    ///
    /// Refuses [55], [50], [51] and [96] as the step does. After an error the store may hold part of the step.
    pub fn step<S: PageWrite>(
        &mut self,
        alloc: Global,
        store: &mut S,
    ) -> Result<PassAnswer, PassFault<S::Fault>>
        requires sizes { HasSizes S.PageRead store.old }
        requires first { 1 ≤ self.old.target.root }
        requires within { self.old.target.root ≤ S.count store.old }
        requires from { pos 0 ≤ℤ self.old.target.greatest }
        requires few { self.old.taken < 2 ^ 64 - 1 }
        ensures steps { IfOk result (λ answer. Becomes S.PageRead store.old store.new (StepsPass (sizes_of S.PageRead store.old) self.old self.new answer)) }
        ensures passes { IfOk result (λ answer. Becomes S.PageRead store.old store.new (PassesOn (sizes_of S.PageRead store.old) self.old self.new answer)) }
        ensures end { MatchResult result (λ answer. (answer ≡ EndOfPass) ↔ (length self.old.rows ≤ self.old.at)) (λ fault. self.old.at < length self.old.rows) }
        ensures count { OnOk result (S.count store.old ≤ S.count store.new) }
        ensures refuses { RefusesPass S.PageRead self.old store.old store.new result }
        ensures owes { OwesBy S.PageRead fault_in store.old store.new result }
    {
        match self.step_due(alloc, store) {
            Ok(step) => Ok(self.answer(step)),
            Err(fault) => Err(fault),
        }
    }
}
