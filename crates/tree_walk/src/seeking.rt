// Seeks a rowid in a table's tree.
ghost use Rattle.std.specs.Prelude.{◌≡◌, ◌≤◌, ◌≤ℤ◌, ◌↔◌, true, IfOk, IsTrue, OnOk};
ghost use Rattle.page_store.specs.Store.{HasSizes, OwesBy};
ghost use Rattle.tree_spec.specs.Faults.{fault_in};
ghost use Rattle.tree_walk.specs.Lengths.{StartsShort};
ghost use Rattle.tree_walk.specs.Pages.{is_leaf as is_leaf_of, tree_kind};
ghost use Rattle.tree_walk.specs.Rising.{kind_of};
ghost use Rattle.tree_walk.specs.Paths.{IsKept};
ghost use Rattle.tree_walk.specs.Places.{rowids};
ghost use Rattle.tree_walk.specs.Stores.{SeesTree};
ghost use Rattle.tree_walk.specs.SoughtCourses.{ComesOn, SeeksOn, SeeksWalk, SoughtAt};
ghost use Rattle.tree_walk.specs.Seeks.{IsAimed, IsIndexOf, StandsFrom};

use crate::entering::enter_root;
use crate::path::Cursor;
use crate::place::Place;
use crate::reading::is_leaf;
use arrayvec::ArrayVec;
use cell_codec::CellView;
use page_store::PageRead;
use std::alloc::Global;
use tree_spec::{TreeFault, TreeKind};

// Whether the rowid of a cell is not less than another.
fn is_not_less(view: &CellView, rowid: i64) -> bool
    ensures { IsTrue result ↔ (rowid ≤ℤ view.now.rowid) }
{
    rowid <= view.rowid
}

/// The index of the first cell whose rowid is not less than another, or the number of cells.
pub fn index_of(views: &[CellView], rowid: i64) -> usize
    ensures { IsIndexOf rowid (rowids views.now) result }
{
    for at in 0..views.len() {
        if is_not_less(&views[at], rowid) {
            return at;
        }
    }
    views.len()
}

impl Cursor {
    // Goes to the cell, or the child, of the page in which a rowid belongs.
    fn aim(&mut self, rowid: i64)
        ensures { IsAimed rowid self.old self.new }
    {
        self.here.at = index_of(self.here.page.views.as_slice(), rowid);
    }

    // Goes down to the leaf in which a rowid belongs, and there to the first cell that is not less, or past the last.
    fn seek_down<S: PageRead>(
        &mut self,
        alloc: Global,
        store: &mut S,
        rowid: i64,
    ) -> Result<(), TreeFault<S::Fault>>
        requires { HasSizes S.PageRead store.old }
        ensures walk { SeesTree S.PageRead store.old store.new (λ sizes base. SeeksOn sizes base rowid self.old self.new result) }
        ensures kind { OnOk result (kind_of self.new ≡ kind_of self.old) }
        ensures owes { OwesBy S.PageRead fault_in store.old store.new result }
    {
        self.aim(rowid);
        while !is_leaf(self.here.page.kind) {
            match self.step_down(alloc, store) {
                Ok(()) => self.aim(rowid),
                Err(fault) => return Err(fault),
            }
        }
        Ok(())
    }

    // Comes to the first member whose rowid is not less than another.
    fn come_to<S: PageRead>(
        &mut self,
        alloc: Global,
        store: &mut S,
        rowid: i64,
    ) -> Result<(), TreeFault<S::Fault>>
        requires { HasSizes S.PageRead store.old }
        ensures walk { SeesTree S.PageRead store.old store.new (λ sizes base. ComesOn sizes base rowid self.old self.new result) }
        ensures kind { OnOk result (kind_of self.new ≡ kind_of self.old) }
        ensures owes { OwesBy S.PageRead fault_in store.old store.new result }
    {
        match self.seek_down(alloc, store, rowid) {
            Ok(()) => {}
            Err(fault) => return Err(fault),
        }
        match self.settle(alloc, store) {
            Ok(_) => Ok(()),
            Err(fault) => Err(fault),
        }
    }

    // Stands at the first member that is not less of the table that has this place in its root.
    fn seek_from<S: PageRead>(
        alloc: Global,
        store: &mut S,
        here: Place,
        rowid: i64,
    ) -> Result<Cursor, TreeFault<S::Fault>>
        requires sizes { HasSizes S.PageRead store.old }
        requires kept { IsKept here }
        ensures walk { SeesTree S.PageRead store.old store.new (λ sizes base. SoughtAt sizes base rowid here result) }
        ensures kind { IfOk result (λ cursor. kind_of cursor ≡ tree_kind here.page.kind) }
        ensures owes { OwesBy S.PageRead fault_in store.old store.new result }
    {
        let mut cursor = Cursor {
            above: ArrayVec::new_in(alloc),
            here,
        };
        match cursor.come_to(alloc, store, rowid) {
            Ok(()) => Ok(cursor),
            Err(fault) => Err(fault),
        }
    }

    /// Stands at the first member of the table at a root whose rowid is not less than another, or past the last. Refuses [55]: with `kind` where the root is one of an index.
    pub fn seek<S: PageRead>(
        alloc: Global,
        store: &mut S,
        root: u32,
        rowid: i64,
    ) -> Result<Cursor, TreeFault<S::Fault>>
        requires sizes { HasSizes S.PageRead store.old }
        requires first { 1 ≤ root }
        requires within { root ≤ S.count store.old }
        ensures pages { SeesTree S.PageRead store.old store.new (λ sizes base. StandsFrom sizes base root rowid result) }
        ensures walk { SeesTree S.PageRead store.old store.new (λ sizes base. SeeksWalk sizes base root rowid result) }
        ensures few { SeesTree S.PageRead store.old store.new (λ sizes base. StartsShort sizes base result) }
        ensures owes { OwesBy S.PageRead fault_in store.old store.new result }
    {
        match enter_root(alloc, store, root, TreeKind::Table) {
            Ok(here) => Cursor::seek_from(alloc, store, here, rowid),
            Err(fault) => Err(fault),
        }
    }
}
