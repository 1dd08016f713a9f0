// A pass over an index.
ghost use Rattle.std.specs.Prelude.{◌≡◌, ◌+◌, ◌≤◌, ◌<◌, ◌↔◌, IfOk, MatchResult, OnErr, OnOk, drop, length, option_copied, slice_get};
ghost use Rattle.page_store.specs.Store.{HasSizes, OwesBy};
ghost use Rattle.tree_pages.specs.Writers.{Becomes, sizes_of};
ghost use Rattle.pass_fault.specs.declared.answer.PassAnswer.TheVariants.{End as EndOfPass};
ghost use Rattle.pass_fault.specs.Faults.{fault_in};
ghost use Rattle.index_pass.specs.Passes.{AnswersStep, IsBehind, IsLeft, IsPassOver, PassesOn, RefusesAt, RefusesPass, StepsAt, pass_behind};
ghost use Rattle.index_pass.specs.Targets.{HasOrders};

use crate::change::{EntryStep, step_change};
use crate::target::Target;
use owned_list::OwnedList;
use page_store::PageWrite;
use pass_fault::{PassAnswer, PassFault};
use prepared_spec::Change;
use schema_spec::Index;
use std::alloc::{AllocError, Global};

/// A pass over an index, one step for each of its changes.
#[derive(Drop)]
pub struct IndexPass {
    pub target: Target,
    /// The changes of the index, in their order.
    pub changes: OwnedList<Change>,
    /// How many of them the pass is behind.
    pub at: usize,
}

// The number behind one that is not the greatest.
fn index_behind(at: usize, changes: &[Change]) -> usize
    requires { at < length changes.now }
    ensures { result ≡ at + 1 }
{
    at + 1
}

impl IndexPass {
    /// A pass over these changes of an index, of a table with this name, whose tree is that of a root. Fails where memory runs out.
    pub fn new(
        alloc: Global,
        table: &[u8],
        index: &Index,
        root: u32,
        changes: Vec<Change>,
    ) -> Result<IndexPass, AllocError>
        ensures { IfOk result (IsPassOver table.now index.now root changes.items) }
    {
        IndexPass::resume(alloc, table, index, root, changes, 0)
    }

    /// The same of a pass that was broken off behind so many of the changes: it goes on as the whole one would.
    pub fn resume(
        alloc: Global,
        table: &[u8],
        index: &Index,
        root: u32,
        changes: Vec<Change>,
        done: usize,
    ) -> Result<IndexPass, AllocError>
        ensures { IfOk result (IsPassOver table.now index.now root (drop done changes.items)) }
    {
        match Target::of(alloc, table, index, root) {
            Ok(target) => Ok(IndexPass {
                target,
                changes: OwnedList::from_vec(changes),
                at: done,
            }),
            Err(error) => Err(error),
        }
    }

    // The change that is due, if one is left.
    fn due(&self) -> Option<&Change>
        ensures { option_copied result ≡ slice_get self.now.changes self.now.at }
    {
        self.changes.as_slice().get(self.at)
    }

    // Makes the change that is due, if one is left.
    fn step_due<S: PageWrite>(
        &self,
        alloc: Global,
        store: &mut S,
    ) -> Result<Option<EntryStep>, PassFault<S::Fault>>
        requires sizes { HasSizes S.PageRead store.old }
        requires first { 1 ≤ self.now.target.root }
        requires within { self.now.target.root ≤ S.count store.old }
        requires orders { HasOrders self.now.target }
        ensures steps { IfOk result (λ step. Becomes S.PageRead store.old store.new (StepsAt (sizes_of S.PageRead store.old) self.now step)) }
        ensures count { OnOk result (S.count store.old ≤ S.count store.new) }
        ensures left { MatchResult result (IsLeft self.now) (λ fault. self.now.at < length self.now.changes) }
        ensures refuses { RefusesAt S.PageRead self.now store.old store.new result }
        ensures owes { OwesBy S.PageRead fault_in store.old store.new result }
    {
        match self.due() {
            None => Ok(None),
            Some(change) => match step_change(alloc, store, &self.target, change) {
                Ok(step) => Ok(Some(step)),
                Err(fault) => Err(fault),
            },
        }
    }

    // A step was made.
    fn go_on(&mut self)
        requires { self.old.at < length self.old.changes }
        ensures { self.new ≡ pass_behind self.old }
    {
        self.at = index_behind(self.at, self.changes.as_slice());
    }

    // What is answered of the step that was due, if one was left.
    fn answer(&mut self, step: Option<EntryStep>) -> PassAnswer
        requires { IsLeft self.old step }
        ensures { AnswersStep self.old self.new step result }
    {
        match step {
            None => PassAnswer::End,
            Some(EntryStep::Moved) => {
                self.go_on();
                PassAnswer::Moved
            }
            Some(EntryStep::Constraint(violation)) => PassAnswer::Constraint(violation),
        }
    }

    /// Makes the step that is due, and goes on. Answers `End` exactly where no step is left, and `Constraint` exactly where the step that is due has a constraint fault; then nothing is done.
    ///
    /// Refuses [55] where it meets what is damaged, [50] a damaged freelist, [51] where a page is needed and none can be taken, and [96] where the record of an entry that is added would have more than 2147483647 bytes. After an error the pass stands where it stood, and the store may hold part of the step.
    pub fn step<S: PageWrite>(
        &mut self,
        alloc: Global,
        store: &mut S,
    ) -> Result<PassAnswer, PassFault<S::Fault>>
        requires sizes { HasSizes S.PageRead store.old }
        requires first { 1 ≤ self.old.target.root }
        requires within { self.old.target.root ≤ S.count store.old }
        requires orders { HasOrders self.old.target }
        ensures passes { IfOk result (λ answer. Becomes S.PageRead store.old store.new (PassesOn (sizes_of S.PageRead store.old) self.old self.new answer)) }
        ensures behind { IfOk result (IsBehind self.old self.new) }
        ensures stays { OnErr result (self.new ≡ self.old) }
        ensures end { MatchResult result (λ answer. (answer ≡ EndOfPass) ↔ (length self.old.changes ≤ self.old.at)) (λ fault. self.old.at < length self.old.changes) }
        ensures orders { HasOrders self.new.target }
        ensures count { OnOk result (S.count store.old ≤ S.count store.new) }
        ensures refuses { RefusesPass S.PageRead self.old store.old store.new result }
        ensures owes { OwesBy S.PageRead fault_in store.old store.new result }
    {
        match self.step_due(alloc, store) {
            Ok(step) => Ok(self.answer(step)),
            Err(fault) => Err(fault),
        }
    }
}
