// Goes through the trees of a catalog (Database File Format, sections 1.6 and 2.6).
ghost use Rattle.std.specs.Prelude.{◌≡◌, ◌+◌, ◌≤◌, ◌↔◌, IfErr, IsTrue, None, Ok, length, map};
ghost use Rattle.page_store.specs.Store.{HasSizes, Looks, OwesBy};
ghost use Rattle.tree_walk.specs.Stores.{SeesTree};
ghost use Rattle.database_spec.specs.FileFindings.{own_kind};
ghost use Rattle.db_check.specs.Answers.{IsOther, fault_in};
ghost use Rattle.db_check.specs.Indexes.{HasMembers};
ghost use Rattle.file_check.specs.Trees.{IsBeside, IsSubjectOf, OfIndex, OfTable, root_of, seen};
ghost use Rattle.file_check.specs.Parts.{PassesWalk, PassesWalks};

use crate::roots::CatalogTree;
use database_spec::Entry;
use db_check::{CheckFault, Members, pass_index, pass_members};
use page_layout::header_place;
use page_store::{PageRead, page_buffer};
use refusal::Rule;
use schema_spec::{Index, SqlFault, Table};
use std::alloc::Global;
use tree_walk::TreeKind;

/// That an index disagrees with its table, at the entry with this rowid.
#[derive(Clone, Copy)]
pub(crate) struct Disagreement<'a> {
    pub index: &'a Index,
    pub rowid: i64,
}

// Whether there is a page with this number. Every catalog has roots within the store; where a store tells nothing, this has to be seen.
fn is_page(count: u32, number: u32) -> bool
    ensures { IsTrue result ↔ (1 ≤ number) × (number ≤ count) }
{
    1 <= number && number <= count
}

// No page has this number.
fn no_page<F>(number: u32) -> CheckFault<F>
    ensures { fault_in result ≡ None }
{
    CheckFault::Damaged {
        page: number,
        rule: Rule::Child,
    }
}

// Goes through the tree at a root that is not compared with another.
fn pass_alone<'a, S: PageRead>(
    alloc: Global,
    store: &mut S,
    kind: TreeKind,
    members: Members,
    root: u32,
    flags: &mut [bool],
) -> Result<Option<Disagreement<'a>>, CheckFault<S::Fault>>
    requires sizes { HasSizes S.PageRead store.old }
    requires first { 1 ≤ root }
    requires within { root ≤ S.count store.old }
    requires flags { length flags.old ≡ S.count store.old + 1 }
    ensures flags { length flags.new ≡ length flags.old }
    ensures pages { SeesTree S.PageRead store.old store.new (λ sizes base.
        PassesWalk sizes base (λ subject. HasMembers members subject.content × (subject.root ≡ root) × (subject.kind ≡ kind)) flags.old flags.new result) }
    ensures owes { OwesBy S.PageRead fault_in store.old store.new result }
{
    match pass_members(alloc, store, kind, members, root, flags) {
        Ok(()) => Ok(None),
        Err(fault) => Err(fault),
    }
}

// The kind of the tree of a table outside the profile, by the first byte of its root page.
fn kind_in(page: &[u8], number: u32) -> TreeKind
    requires { 101 ≤ length page.now }
    ensures { result ≡ own_kind page.now number }
{
    let kind = page[header_place(number)];
    if kind == 2 || kind == 10 {
        TreeKind::Index
    } else {
        TreeKind::Table
    }
}

// The same, read from the store.
fn root_kind<S: PageRead>(
    alloc: Global,
    store: &mut S,
    root: u32,
) -> Result<TreeKind, CheckFault<S::Fault>>
    requires sizes { HasSizes S.PageRead store.old }
    requires first { 1 ≤ root }
    requires within { root ≤ S.count store.old }
    ensures pages { Looks S.PageRead store.old store.new result (λ kind m. kind ≡ own_kind (m root) root) }
    ensures other { IfErr result IsOther }
    ensures owes { OwesBy S.PageRead fault_in store.old store.new result }
{
    let mut page = page_buffer(alloc, store.page_size())?;
    match store.page(root, page.as_mut_slice()) {
        Ok(()) => Ok(kind_in(page.as_slice(), root)),
        Err(fault) => Err(CheckFault::Store(fault)),
    }
}

// Goes through the tree of a table.
fn pass_table<'a, S: PageRead>(
    alloc: Global,
    store: &mut S,
    entry: &Entry,
    flags: &mut [bool],
) -> Result<Option<Disagreement<'a>>, CheckFault<S::Fault>>
    requires sizes { HasSizes S.PageRead store.old }
    requires first { 1 ≤ entry.now.root }
    requires within { entry.now.root ≤ S.count store.old }
    requires flags { length flags.old ≡ S.count store.old + 1 }
    ensures flags { length flags.new ≡ length flags.old }
    ensures pages { SeesTree S.PageRead store.old store.new (λ sizes base. PassesWalk sizes base (IsSubjectOf sizes base (OfTable entry.now)) flags.old flags.new result) }
    ensures owes { OwesBy S.PageRead fault_in store.old store.new result }
{
    let root = entry.root;
    if entry.meaning.is_ok() {
        return pass_alone(alloc, store, TreeKind::Table, Members::Rows, root, flags);
    }
    match root_kind(alloc, store, root) {
        Ok(kind) => pass_alone(alloc, store, kind, Members::Any, root, flags),
        Err(fault) => Err(fault),
    }
}

// Goes through the tree of an index whose text is read, of a table whose text is read, and compares it with this table.
fn pass_compared<'a, S: PageRead>(
    alloc: Global,
    store: &mut S,
    table_root: u32,
    table: &Table,
    index: &'a Index,
    root: u32,
    flags: &mut [bool],
) -> Result<Option<Disagreement<'a>>, CheckFault<S::Fault>>
    requires sizes { HasSizes S.PageRead store.old }
    requires first { 1 ≤ root }
    requires within { root ≤ S.count store.old }
    requires flags { length flags.old ≡ S.count store.old + 1 }
    ensures flags { length flags.new ≡ length flags.old }
    ensures pages { SeesTree S.PageRead store.old store.new (λ sizes base.
        PassesWalk sizes base (IsBeside sizes base table_root table.now (root, Ok index.now)) flags.old flags.new result) }
    ensures owes { OwesBy S.PageRead fault_in store.old store.new result }
{
    if !is_page(store.count(), table_root) {
        return Err(no_page(table_root));
    }
    match pass_index(alloc, store, table_root, table, index, root, flags) {
        Ok(Some(rowid)) => Ok(Some(Disagreement { index, rowid })),
        Ok(None) => Ok(None),
        Err(fault) => Err(fault),
    }
}

// Goes through the tree of an index of a table whose text is read, and compares it with this table where its own text is read.
fn pass_beside<'a, S: PageRead>(
    alloc: Global,
    store: &mut S,
    table_root: u32,
    table: &Table,
    index: &'a (u32, Result<Index, SqlFault>),
    flags: &mut [bool],
) -> Result<Option<Disagreement<'a>>, CheckFault<S::Fault>>
    requires sizes { HasSizes S.PageRead store.old }
    requires first { 1 ≤ index.now.0 }
    requires within { index.now.0 ≤ S.count store.old }
    requires flags { length flags.old ≡ S.count store.old + 1 }
    ensures flags { length flags.new ≡ length flags.old }
    ensures pages { SeesTree S.PageRead store.old store.new (λ sizes base. PassesWalk sizes base (IsBeside sizes base table_root table.now index.now) flags.old flags.new result) }
    ensures owes { OwesBy S.PageRead fault_in store.old store.new result }
{
    let root = index.0;
    match &index.1 {
        Ok(read) => pass_compared(alloc, store, table_root, table, read, root, flags),
        Err(_) => pass_alone(alloc, store, TreeKind::Index, Members::Any, root, flags),
    }
}

// Goes through the tree of an index, and compares it with its table where the texts of both are read.
fn pass_index_of<'a, S: PageRead>(
    alloc: Global,
    store: &mut S,
    entry: &'a Entry,
    index: &'a (u32, Result<Index, SqlFault>),
    flags: &mut [bool],
) -> Result<Option<Disagreement<'a>>, CheckFault<S::Fault>>
    requires sizes { HasSizes S.PageRead store.old }
    requires first { 1 ≤ index.now.0 }
    requires within { index.now.0 ≤ S.count store.old }
    requires flags { length flags.old ≡ S.count store.old + 1 }
    ensures flags { length flags.new ≡ length flags.old }
    ensures pages { SeesTree S.PageRead store.old store.new (λ sizes base. PassesWalk sizes base (IsSubjectOf sizes base (OfIndex entry.now index.now)) flags.old flags.new result) }
    ensures owes { OwesBy S.PageRead fault_in store.old store.new result }
{
    match &entry.meaning {
        Ok(table) => pass_beside(alloc, store, entry.root, table, index, flags),
        Err(_) => pass_alone(alloc, store, TreeKind::Index, Members::Any, index.0, flags),
    }
}

// Goes through a tree of a catalog.
fn pass_tree<'a, S: PageRead>(
    alloc: Global,
    store: &mut S,
    tree: CatalogTree<'a>,
    flags: &mut [bool],
) -> Result<Option<Disagreement<'a>>, CheckFault<S::Fault>>
    requires sizes { HasSizes S.PageRead store.old }
    requires flags { length flags.old ≡ S.count store.old + 1 }
    ensures flags { length flags.new ≡ length flags.old }
    ensures pages { SeesTree S.PageRead store.old store.new (λ sizes base. PassesWalk sizes base (IsSubjectOf sizes base (seen tree.entry)) flags.old flags.new result) }
    ensures owes { OwesBy S.PageRead fault_in store.old store.new result }
{
    let root = tree.root();
    if !is_page(store.count(), root) {
        return Err(no_page(root));
    }
    match tree {
        CatalogTree::Schema => pass_alone(alloc, store, TreeKind::Table, Members::Any, 1, flags),
        CatalogTree::Table(entry) => pass_table(alloc, store, entry, flags),
        CatalogTree::Index(entry, index) => pass_index_of(alloc, store, entry, index, flags),
    }
}

/// Goes through trees of a catalog by their roots, and sets the flag of each of their pages. Tells the first index that disagrees with its table. Refuses 70, 72 and 74.
pub(crate) fn pass_trees<'a, S: PageRead>(
    alloc: Global,
    store: &mut S,
    trees: &[CatalogTree<'a>],
    flags: &mut [bool],
) -> Result<Option<Disagreement<'a>>, CheckFault<S::Fault>>
    requires sizes { HasSizes S.PageRead store.old }
    requires flags { length flags.old ≡ S.count store.old + 1 }
    ensures flags { length flags.new ≡ length flags.old }
    ensures pages { SeesTree S.PageRead store.old store.new (λ sizes base. PassesWalks sizes base (map seen trees.now) flags.old flags.new result) }
    ensures owes { OwesBy S.PageRead fault_in store.old store.new result }
{
    let mut told = None;
    let mut left = trees;
    while let [tree, rest @ ..] = left {
        match pass_tree(alloc, store, *tree, flags) {
            Ok(one) => told = told.or(one),
            Err(fault) => return Err(fault),
        }
        left = rest;
    }
    Ok(told)
}
