// The changes that are due, by the rows of which they come.
ghost use Rattle.std.specs.Prelude.{◌≡◌, ◌++◌, IfOk, map};
ghost use Rattle.prepared_spec.specs.StepFaults.{change_cmp};
ghost use Rattle.index_changes.specs.Dues.{change_of, due_row, due_rank, is_kept as is_kept_in, pair_changes, all_changes};

use crate::OldNew;
use crate::entries::{compare_columns, has_same_entry};
use owned_list::OwnedList;
use rbu_value::Value;
use schema_spec::{Index, Table};
use std::alloc::{AllocError, Global};
use std::cmp::Ordering;

/// A change that is due, with the row whose entry goes or comes.
#[derive(Clone, Copy)]
pub(crate) enum Due<'a> {
    Goes(&'a (i64, OwnedList<Value>)),
    Comes(&'a (i64, OwnedList<Value>)),
}

impl<'a> Due<'a> {
    /// The row whose entry goes or comes.
    pub(crate) fn row(&self) -> &'a (i64, OwnedList<Value>)
        ensures { result.now ≡ due_row self.now }
    {
        match self {
            Due::Goes(row) => row,
            Due::Comes(row) => row,
        }
    }

    // Of equal columns what goes stands before what comes.
    fn rank(&self) -> u8
        ensures { result ≡ due_rank self.now }
    {
        match self {
            Due::Goes(_) => 0,
            Due::Comes(_) => 1,
        }
    }
}

/// The order of changes: by the columns of the index, then removals before additions, then by rowid.
pub(crate) fn compare_due(table: &Table, index: &Index, a: &Due<'_>, b: &Due<'_>) -> Ordering
    ensures { result ≡ change_cmp index.now (change_of table.now index.now a.now) (change_of table.now index.now b.now) }
{
    let columns = compare_columns(table, index.columns.as_slice(), a.row(), b.row());
    let ranks = a.rank().cmp(&b.rank());
    let rowids = a.row().0.cmp(&b.row().0);
    columns.then(ranks.then(rowids))
}

// Whether both rows of a pair are there and have one entry.
fn is_kept(table: &Table, index: &Index, pair: &OldNew) -> bool
    ensures { result ≡ is_kept_in table.now index.now pair.now.old pair.now.new }
{
    match (&pair.old, &pair.new) {
        (Some(old), Some(new)) => has_same_entry(table, index.columns.as_slice(), old, new),
        _ => false,
    }
}

// Puts what is due for a pair behind what is due.
fn push_due<'a>(
    table: &Table,
    index: &Index,
    pair: &'a OldNew,
    due: &mut Vec<Due<'a>>,
) -> Result<(), AllocError>
    ensures { IfOk result (λ done. map (change_of table.now index.now) due.new.items
        ≡ map (change_of table.now index.now) due.old.items ++ pair_changes table.now index.now pair.now) }
{
    if is_kept(table, index, pair) {
        return Ok(());
    }
    if let Some(old) = &pair.old {
        due.push(Due::Goes(old))?;
    }
    if let Some(new) = &pair.new {
        due.push(Due::Comes(new))?;
    }
    Ok(())
}

/// What is due for pairs, pair by pair.
pub(crate) fn due_changes<'a>(
    alloc: Global,
    table: &Table,
    index: &Index,
    pairs: &'a [OldNew],
) -> Result<Vec<Due<'a>>, AllocError>
    ensures { IfOk result (λ due. map (change_of table.now index.now) due.items ≡ all_changes table.now index.now pairs.now) }
{
    let mut due = Vec::new(alloc);
    let mut left = pairs;
    while let [pair, rest @ ..] = left {
        push_due(table, index, pair, &mut due)?;
        left = rest;
    }
    Ok(due)
}
