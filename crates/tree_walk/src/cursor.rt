// Cursors over a tree.
ghost use Rattle.std.specs.Prelude.{◌≡◌, ◌+◌, ◌<◌, ◌≤◌, ◌↔◌, [], false, true, IfOk, IfSome, IsNone, IsTrue, OnOk};
ghost use Rattle.arrayvec.specs.ArrayVec.{array_vec_len};
ghost use Rattle.page_store.specs.Store.{HasSizes, OwesBy};
ghost use Rattle.tree_spec.specs.Standing.{Paged, Sizes};
ghost use Rattle.tree_spec.specs.Faults.{fault_in};
ghost use Rattle.tree_walk.specs.Lengths.{OneFewer, StartsShort};
ghost use Rattle.tree_walk.specs.Pages.{is_leaf as is_leaf_of, tree_kind};
ghost use Rattle.page_spec.specs.Pages.{IsInRange};
ghost use Rattle.tree_walk.specs.Courses.{IsPast, Course, FromCell, GoesOn, IsOn, LandsOn, MovesOver, ReadsFirst, SettlesOn, StartsAt, StartsWalk};
ghost use Rattle.tree_walk.specs.Paths.{IsKept};
ghost use Rattle.tree_walk.specs.Places.{child_at};
ghost use Rattle.tree_walk.specs.Rising.{ComesUp, KeepsHigh, KeepsLow, MovesUp, kind_of, rowid_at};
ghost use Rattle.tree_walk.specs.Stores.{SeesTree};
ghost use Rattle.tree_walk.specs.Walks.{MovesOn, ReadsRow, StandsFirst, StepsDown};

use crate::entering::{enter_child, enter_root};
use crate::path::Cursor;
use crate::payload::read_payload;
use crate::place::Place;
use crate::reading::{has_dividers, is_leaf};
use arrayvec::ArrayVec;
use page_store::PageRead;
use rbu_value::Bytes;
use std::alloc::Global;
use std::mem;
use tree_spec::{TreeFault, TreeKind};

/// A member of a tree: a row of a table, with its record, or an entry of an index, whose rowid is 0.
#[derive(Drop)]
pub struct Row {
    pub rowid: i64,
    pub payload: Bytes,
}

impl Cursor {
    // Whether the cursor is past all cells of its page.
    fn is_past(&self) -> bool
        ensures { IsTrue result ↔ IsPast self.now }
    {
        self.here.page.views.as_slice().len() <= self.here.at
    }

    // Enters the child at which the cursor is. Refuses [55] with `child`, `depth`, `kind`, `cells` or `empty`.
    pub(crate) fn step_down<S: PageRead>(
        &mut self,
        alloc: Global,
        store: &mut S,
    ) -> Result<(), TreeFault<S::Fault>>
        requires sizes { HasSizes S.PageRead store.old }
        requires inner { is_leaf_of self.old.here.page.kind ≡ false }
        ensures pages { SeesTree S.PageRead store.old store.new (λ sizes base. StepsDown sizes base self.old self.new result) }
        ensures named { OnOk result (IsInRange (S.size store.old) (S.count store.old) (child_at self.old.here)) }
        ensures room { OnOk result (array_vec_len self.old.above < 24) }
        ensures bound { OnOk result (KeepsLow self.old self.new) }
        ensures longer { OnOk result (array_vec_len self.new.above ≡ array_vec_len self.old.above + 1) }
        ensures owes { OwesBy S.PageRead fault_in store.old store.new result }
    {
        match enter_child(alloc, store, &self.here, self.above.len()) {
            Ok(child) => {
                let parent = mem::replace(&mut self.here, child);
                self.above.push(parent);
                Ok(())
            }
            Err(fault) => Err(fault),
        }
    }

    // Goes down to a leaf, through the first child of each page but that in which the cursor is.
    fn descend<S: PageRead>(
        &mut self,
        alloc: Global,
        store: &mut S,
    ) -> Result<(), TreeFault<S::Fault>>
        requires { HasSizes S.PageRead store.old }
        ensures walk { SeesTree S.PageRead store.old store.new (λ sizes base. GoesOn sizes base self.old self.new result) }
        ensures leaf { OnOk result (is_leaf_of self.new.here.page.kind ≡ true) }
        ensures bound { OnOk result (KeepsLow self.old self.new) }
        ensures owes { OwesBy S.PageRead fault_in store.old store.new result }
    {
        while !is_leaf(self.here.page.kind) {
            match self.step_down(alloc, store) {
                Ok(()) => {}
                Err(fault) => return Err(fault),
            }
        }
        Ok(())
    }

    // Comes to the first member from the child on at which the cursor is. Answers whether there is one.
    fn land<S: PageRead>(
        &mut self,
        alloc: Global,
        store: &mut S,
    ) -> Result<bool, TreeFault<S::Fault>>
        requires { HasSizes S.PageRead store.old }
        ensures walk { SeesTree S.PageRead store.old store.new (λ sizes base. LandsOn sizes base self.old self.new result) }
        ensures bound { OnOk result (KeepsLow self.old self.new) }
        ensures moved { IfOk result (λ moved. IsTrue moved ↔ ¬ IsPast self.new) }
        ensures owes { OwesBy S.PageRead fault_in store.old store.new result }
    {
        match self.descend(alloc, store) {
            Ok(()) => Ok(!self.is_past()),
            Err(fault) => Err(fault),
        }
    }

    // Leaves the pages of which nothing is left.
    fn climb(&mut self)
        ensures walk { (sizes : Sizes) (base : Paged) (course : Course) → IsOn sizes base (FromCell sizes base) course self.old → IsOn sizes base (FromCell sizes base) course self.new }
        ensures bound { KeepsHigh self.old self.new }
        ensures inner { IsPast self.old → ¬ IsPast self.new → is_leaf_of self.new.here.page.kind ≡ false }
        ensures ends { IsPast self.new → self.new.above.items ≡ [] }
    {
        while self.is_past() {
            match self.above.pop() {
                Some(parent) => self.here = parent,
                None => return,
            }
        }
    }

    // Comes to the first member from the cell on at which the cursor is. Answers whether there is one.
    pub(crate) fn settle<S: PageRead>(
        &mut self,
        alloc: Global,
        store: &mut S,
    ) -> Result<bool, TreeFault<S::Fault>>
        requires { HasSizes S.PageRead store.old }
        ensures walk { SeesTree S.PageRead store.old store.new (λ sizes base. SettlesOn sizes base self.old self.new result) }
        ensures kind { OnOk result (kind_of self.new ≡ kind_of self.old) }
        ensures rises { IfOk result (ComesUp self.old self.new) }
        ensures moved { IfOk result (λ moved. IsTrue moved ↔ ¬ IsPast self.new) }
        ensures owes { OwesBy S.PageRead fault_in store.old store.new result }
    {
        self.climb();
        if self.is_past() {
            return Ok(false);
        }
        if !has_dividers(self.here.page.kind) {
            return Ok(true);
        }
        self.here.at += 1;
        self.land(alloc, store)
    }

    // Stands at the first member of the tree that has this place in its root.
    fn from_root<S: PageRead>(
        alloc: Global,
        store: &mut S,
        here: Place,
    ) -> Result<Cursor, TreeFault<S::Fault>>
        requires sizes { HasSizes S.PageRead store.old }
        requires kept { IsKept here }
        ensures walk { SeesTree S.PageRead store.old store.new (λ sizes base. StartsAt sizes base here result) }
        ensures kind { IfOk result (λ cursor. kind_of cursor ≡ tree_kind here.page.kind) }
        ensures owes { OwesBy S.PageRead fault_in store.old store.new result }
    {
        let mut cursor = Cursor {
            above: ArrayVec::new_in(alloc),
            here,
        };
        match cursor.descend(alloc, store) {
            Ok(()) => Ok(cursor),
            Err(fault) => Err(fault),
        }
    }

    /// Stands at the first member of the tree of this kind at a root. Refuses [55]: with `kind` where the root is one of the other kind.
    pub fn first<S: PageRead>(
        alloc: Global,
        store: &mut S,
        root: u32,
        kind: TreeKind,
    ) -> Result<Cursor, TreeFault<S::Fault>>
        requires sizes { HasSizes S.PageRead store.old }
        requires first { 1 ≤ root }
        requires within { root ≤ S.count store.old }
        ensures pages { SeesTree S.PageRead store.old store.new (λ sizes base. StandsFirst sizes base kind root result) }
        ensures walk { SeesTree S.PageRead store.old store.new (λ sizes base. StartsWalk sizes base kind root result) }
        ensures of_kind { IfOk result (λ cursor. kind_of cursor ≡ kind) }
        ensures few { SeesTree S.PageRead store.old store.new (λ sizes base. StartsShort sizes base result) }
        ensures owes { OwesBy S.PageRead fault_in store.old store.new result }
    {
        match enter_root(alloc, store, root, kind) {
            Ok(here) => Cursor::from_root(alloc, store, here),
            Err(fault) => Err(fault),
        }
    }

    /// Moves to the next member. False exactly where the cursor then stands past the last. Refuses [55]. The rowids of a table strictly rise, whatever the store holds.
    pub fn next<S: PageRead>(
        &mut self,
        alloc: Global,
        store: &mut S,
    ) -> Result<bool, TreeFault<S::Fault>>
        requires { HasSizes S.PageRead store.old }
        ensures pages { SeesTree S.PageRead store.old store.new (λ sizes base. MovesOn sizes base self.old self.new result) }
        ensures walk { SeesTree S.PageRead store.old store.new (λ sizes base. MovesOver sizes base self.old self.new result) }
        ensures few { SeesTree S.PageRead store.old store.new (λ sizes base. OnOk result (OneFewer sizes base self.old self.new)) }
        ensures kind { OnOk result (kind_of self.new ≡ kind_of self.old) }
        ensures rises { IfOk result (MovesUp self.old self.new) }
        ensures moved { IfOk result (λ moved. IsTrue moved ↔ ¬ IsPast self.new) }
        ensures owes { OwesBy S.PageRead fault_in store.old store.new result }
    {
        if self.is_past() {
            return Ok(false);
        }
        self.here.at += 1;
        if is_leaf(self.here.page.kind) {
            return self.settle(alloc, store);
        }
        self.land(alloc, store)
    }

    /// The member at which the cursor stands. `None` exactly past the last. Refuses [55] with `chain`.
    pub fn row<S: PageRead>(
        &self,
        alloc: Global,
        store: &mut S,
    ) -> Result<Option<Row>, TreeFault<S::Fault>>
        requires { HasSizes S.PageRead store.old }
        ensures pages { SeesTree S.PageRead store.old store.new (λ sizes base. ReadsRow sizes base self.now result) }
        ensures walk { SeesTree S.PageRead store.old store.new (λ sizes base. ReadsFirst sizes base self.now result) }
        ensures none { IfOk result (λ row. IsNone row ↔ IsPast self.now) }
        ensures rowid { IfOk result (λ row. IfSome row (λ row. row.rowid ≡ rowid_at self.now)) }
        ensures owes { OwesBy S.PageRead fault_in store.old store.new result }
    {
        if self.is_past() {
            return Ok(None);
        }
        let page = &self.here.page;
        let rowid = page.rowid_at(self.here.at);
        match read_payload(alloc, store, page, self.here.at) {
            Ok(payload) => Ok(Some(Row { rowid, payload })),
            Err(fault) => Err(fault),
        }
    }
}
