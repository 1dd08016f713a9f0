// The changes of one index.
ghost use Rattle.std.specs.Prelude.{◌≡◌, IfOk, map};
ghost use Rattle.prepared_spec.specs.StepFaults.{AreChanges};
ghost use Rattle.index_changes.specs.Pairs.{ArePairs, old_rows, new_rows};
ghost use Rattle.index_changes.specs.Dues.{change_of};

use crate::OldNew;
use crate::due::{Due, compare_due, due_changes};
use crate::entries::entry_of;
use owned_list::OwnedList;
use prepared_spec::Change;
use schema_spec::{Index, Table};
use std::alloc::{AllocError, Global};

// A change, with the values of its entry.
fn change_for(
    alloc: Global,
    table: &Table,
    index: &Index,
    due: &Due<'_>,
) -> Result<Change, AllocError>
    ensures { IfOk result (λ change. change ≡ change_of table.now index.now due.now) }
{
    let entry = OwnedList::from_vec(entry_of(alloc, table, index.columns.as_slice(), due.row())?);
    match due {
        Due::Goes(_) => Ok(Change::Remove(entry)),
        Due::Comes(_) => Ok(Change::Add(entry)),
    }
}

// The changes that are due.
fn changes_for(
    alloc: Global,
    table: &Table,
    index: &Index,
    due: &[Due<'_>],
) -> Result<Vec<Change>, AllocError>
    ensures { IfOk result (λ changes. changes.items ≡ map (change_of table.now index.now) due.now) }
{
    let mut changes = Vec::new(alloc);
    let mut left = due;
    while let [next, rest @ ..] = left {
        let change = change_for(alloc, table, index, next)?;
        changes.push(change)?;
        left = rest;
    }
    Ok(changes)
}

/// The changes of an index between the old and the new rows of its table: removed are the entries of old rows that no new row has, added those of new rows that no old row had. They go in order of the indexed columns, then removals before additions, then by rowid.
pub fn index_changes(
    alloc: Global,
    table: &Table,
    index: &Index,
    pairs: &[OldNew],
) -> Result<Vec<Change>, AllocError>
    ensures { IfOk result (λ changes. ArePairs pairs.now
        → AreChanges index.now (old_rows table.now pairs.now) (new_rows table.now pairs.now) changes.items) }
{
    let mut due = due_changes(alloc, table, index, pairs)?;
    due.sort_unstable_by(|a, b| compare_due(table, index, a, b));
    changes_for(alloc, table, index, due.as_slice())
}
