// Finds the row of a rowid.
ghost use Rattle.std.specs.Prelude.{◌≤◌};
ghost use Rattle.page_store.specs.Store.{HasSizes, OwesBy};
ghost use Rattle.tree_spec.specs.Faults.{fault_in};
ghost use Rattle.tree_walk.specs.Stores.{SeesTree};
ghost use Rattle.found_row.specs.Finds.{FindsRow, IsSameOf};

use page_store::PageRead;
use std::alloc::Global;
use tree_walk::{Cursor, Row, TreeFault};

// The row, where it has the rowid.
fn of_rowid(row: Option<Row>, rowid: i64) -> Option<Row>
    ensures { IsSameOf rowid row result }
{
    match row {
        Some(row) => { if row.rowid == rowid { Some(row) } else { None } }
        None => None,
    }
}

/// The row of a rowid in the table at a root, with its record, or `None` where the table has none. Refuses [55]: with `kind` where the root is one of an index.
pub fn find_row<S: PageRead>(
    alloc: Global,
    store: &mut S,
    root: u32,
    rowid: i64,
) -> Result<Option<Row>, TreeFault<S::Fault>>
    requires sizes { HasSizes S.PageRead store.old }
    requires first { 1 ≤ root }
    requires within { root ≤ S.count store.old }
    ensures pages { SeesTree S.PageRead store.old store.new (λ sizes base. FindsRow sizes base root rowid result) }
    ensures owes { OwesBy S.PageRead fault_in store.old store.new result }
{
    match Cursor::seek(alloc, store, root, rowid) {
        Ok(cursor) => match cursor.row(alloc, store) {
            Ok(row) => Ok(of_rowid(row, rowid)),
            Err(fault) => Err(fault),
        },
        Err(fault) => Err(fault),
    }
}
