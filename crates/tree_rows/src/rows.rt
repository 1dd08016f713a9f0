// Reads the rows of a tree.
ghost use Rattle.std.specs.Prelude.{◌≤◌};
ghost use Rattle.page_store.specs.Store.{HasSizes, OwesBy};
ghost use Rattle.tree_spec.specs.Faults.{fault_in};
ghost use Rattle.tree_walk.specs.Stores.{SeesTree};
ghost use Rattle.tree_rows.specs.Rows.{LeavesRow, ReadsFrom, ReadsRows};

use page_store::PageRead;
use std::alloc::{AllocError, Global};
use tree_walk::{Cursor, Row, TreeFault, TreeKind};

/// The row at which a cursor stands, which it leaves for the next one. `None` past the last. Refuses [55].
pub fn next_row<S: PageRead>(
    alloc: Global,
    store: &mut S,
    cursor: &mut Cursor,
) -> Result<Option<Row>, TreeFault<S::Fault>>
    requires { HasSizes S.PageRead store.old }
    ensures pages { SeesTree S.PageRead store.old store.new (λ sizes base. LeavesRow sizes base cursor.old cursor.new result) }
    ensures owes { OwesBy S.PageRead fault_in store.old store.new result }
{
    match cursor.row(alloc, store) {
        Ok(row) => match cursor.next(alloc, store) {
            Ok(_) => Ok(row),
            Err(fault) => Err(fault),
        },
        Err(fault) => Err(fault),
    }
}

// The rows from a cursor on.
fn rows_from<S: PageRead>(
    alloc: Global,
    store: &mut S,
    mut cursor: Cursor,
) -> Result<Vec<Row>, TreeFault<S::Fault>>
    requires { HasSizes S.PageRead store.old }
    ensures pages { SeesTree S.PageRead store.old store.new (λ sizes base. ReadsFrom sizes base cursor result) }
    ensures owes { OwesBy S.PageRead fault_in store.old store.new result }
{
    let mut rows = Vec::new(alloc);
    for _ in 0..u64::MAX {
        match next_row(alloc, store, &mut cursor) {
            Ok(Some(row)) => match rows.push(row) {
                Ok(()) => {}
                Err(_) => return Err(TreeFault::Memory(AllocError)),
            },
            Ok(None) => return Ok(rows),
            Err(fault) => return Err(fault),
        }
    }
    // No memory has so many rows.
    Err(TreeFault::Memory(AllocError))
}

/// All rows of the table at a root, in order. Refuses [55]: with `kind` where the root is one of an index.
pub fn table_rows<S: PageRead>(
    alloc: Global,
    store: &mut S,
    root: u32,
) -> Result<Vec<Row>, TreeFault<S::Fault>>
    requires sizes { HasSizes S.PageRead store.old }
    requires first { 1 ≤ root }
    requires within { root ≤ S.count store.old }
    ensures pages { SeesTree S.PageRead store.old store.new (λ sizes base. ReadsRows sizes base root result) }
    ensures owes { OwesBy S.PageRead fault_in store.old store.new result }
{
    match Cursor::first(alloc, store, root, TreeKind::Table) {
        Ok(cursor) => rows_from(alloc, store, cursor),
        Err(fault) => Err(fault),
    }
}
