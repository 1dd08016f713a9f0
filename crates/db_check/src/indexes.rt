// Goes through the tree of an index, and compares it with its table (Database File Format, section 2.4).
ghost use Rattle.std.specs.Prelude.{◌≡◌, ◌≤◌, ◌+◌, length};
ghost use Rattle.page_store.specs.Store.{HasSizes, OwesBy};
ghost use Rattle.tree_walk.specs.Stores.{SeesTree};
ghost use Rattle.database_spec.specs.Keys.{order_of};
ghost use Rattle.db_check.specs.Answers.{fault_in};
ghost use Rattle.db_check.specs.Indexes.{ComparesTree, PassesIndex, PassesMembers, PassesOther};

use crate::compare::first_that_disagrees;
use crate::fault::CheckFault;
use crate::projections::{order_of_index, projection};
use crate::trees::pass_tree;
use crate::walk::{CheckedTree, Members};
use owned_list::OwnedList;
use page_store::PageRead;
use rbu_value::{Collation, Value};
use schema_spec::{Index, Table};
use std::alloc::Global;
use tree_walk::TreeKind;

// A tree whose members are no entries that are looked at.
fn tree_of(alloc: Global, kind: TreeKind, members: Members) -> CheckedTree<'static>
    ensures kind { result.kind ≡ kind }
    ensures members { result.members ≡ members }
{
    CheckedTree {
        kind,
        members,
        columns: OwnedList::from_vec(Vec::new(alloc)),
        unique: false,
        expected: &[],
    }
}

/// Goes through the tree at a root, whose members are rows of a table in the profile, or anything, and sets the flag of each of its pages. Refuses 70, 72 and 74.
pub fn pass_members<S: PageRead>(
    alloc: Global,
    store: &mut S,
    kind: TreeKind,
    members: Members,
    root: u32,
    flags: &mut [bool],
) -> Result<(), CheckFault<S::Fault>>
    requires sizes { HasSizes S.PageRead store.old }
    requires first { 1 ≤ root }
    requires within { root ≤ S.count store.old }
    requires flags { length flags.old ≡ S.count store.old + 1 }
    ensures flags { length flags.new ≡ length flags.old }
    ensures pages { SeesTree S.PageRead store.old store.new (λ sizes base. PassesMembers sizes base kind members root flags.old flags.new result) }
    ensures owes { OwesBy S.PageRead fault_in store.old store.new result }
{
    let tree = tree_of(alloc, kind, members);
    match pass_tree(alloc, store, &tree, root, flags) {
        Ok(_compared) => Ok(()),
        Err(fault) => Err(fault),
    }
}

// Goes through the tree of a plain index, and compares its entries with those of the rows of its table.
fn pass_plain<S: PageRead>(
    alloc: Global,
    store: &mut S,
    index: &Index,
    columns: OwnedList<(Collation, bool)>,
    expected: &[OwnedList<Value>],
    root: u32,
    flags: &mut [bool],
) -> Result<Option<i64>, CheckFault<S::Fault>>
    requires sizes { HasSizes S.PageRead store.old }
    requires first { 1 ≤ root }
    requires within { root ≤ S.count store.old }
    requires flags { length flags.old ≡ S.count store.old + 1 }
    requires columns { columns ≡ order_of index.now }
    ensures flags { length flags.new ≡ length flags.old }
    ensures pages { SeesTree S.PageRead store.old store.new (λ sizes base. ComparesTree sizes base index.now expected.now root flags.old flags.new result) }
    ensures owes { OwesBy S.PageRead fault_in store.old store.new result }
{
    let tree = CheckedTree {
        kind: TreeKind::Index,
        members: Members::Entries,
        columns,
        unique: index.unique,
        expected,
    };
    match pass_tree(alloc, store, &tree, root, flags) {
        Ok(compared) => Ok(first_that_disagrees(&tree, &compared)),
        Err(fault) => Err(fault),
    }
}

// Goes through the tree of an index that is not plain.
fn pass_other<S: PageRead>(
    alloc: Global,
    store: &mut S,
    root: u32,
    flags: &mut [bool],
) -> Result<Option<i64>, CheckFault<S::Fault>>
    requires sizes { HasSizes S.PageRead store.old }
    requires first { 1 ≤ root }
    requires within { root ≤ S.count store.old }
    requires flags { length flags.old ≡ S.count store.old + 1 }
    ensures flags { length flags.new ≡ length flags.old }
    ensures pages { SeesTree S.PageRead store.old store.new (λ sizes base. PassesOther sizes base root flags.old flags.new result) }
    ensures owes { OwesBy S.PageRead fault_in store.old store.new result }
{
    match pass_members(alloc, store, TreeKind::Index, Members::Any, root, flags) {
        Ok(()) => Ok(None),
        Err(fault) => Err(fault),
    }
}

/// Goes through the tree of an index at a root, of a table with another root, and sets the flag of each of its pages. Where the index is plain, answers the rowid of the first entry that disagrees with the rows of the table. Refuses 70, 72 and 74.
pub fn pass_index<S: PageRead>(
    alloc: Global,
    store: &mut S,
    table_root: u32,
    table: &Table,
    index: &Index,
    root: u32,
    flags: &mut [bool],
) -> Result<Option<i64>, CheckFault<S::Fault>>
    requires sizes { HasSizes S.PageRead store.old }
    requires table_first { 1 ≤ table_root }
    requires table_within { table_root ≤ S.count store.old }
    requires first { 1 ≤ root }
    requires within { root ≤ S.count store.old }
    requires flags { length flags.old ≡ S.count store.old + 1 }
    ensures flags { length flags.new ≡ length flags.old }
    ensures pages { SeesTree S.PageRead store.old store.new (λ sizes base. PassesIndex sizes base table_root table.now index.now root flags.old flags.new result) }
    ensures owes { OwesBy S.PageRead fault_in store.old store.new result }
{
    let columns = match order_of_index(alloc, index) {
        Ok(columns) => columns,
        Err(error) => return Err(CheckFault::Memory(error)),
    };
    match projection(alloc, store, table_root, table, index, columns.as_slice()) {
        Ok(Some(expected)) => pass_plain(
            alloc,
            store,
            index,
            columns,
            expected.as_slice(),
            root,
            flags,
        ),
        Ok(None) => pass_other(alloc, store, root, flags),
        Err(fault) => Err(fault),
    }
}
