// The rows of rowids, before a group and behind it.
ghost use Rattle.std.specs.Prelude.{◌≡◌, ◌||◌, ℤ, IfOk, OnOk, None, cond, map};
ghost use Rattle.std.specs.List.{list_any};
ghost use Rattle.std.specs.List.Sorted.{IsStrictlySortedBy};
ghost use Rattle.std.specs.BTreeMap.{get};
ghost use Rattle.std.specs.BTreeSet.{contains};
ghost use Rattle.std.specs.Ordering.{int_cmp, is_eq};
ghost use Rattle.group_rows.specs.Sides.{pair_at, row_at};

use index_changes::OldNew;
use owned_list::OwnedList;
use rbu_value::Value;
use std::alloc::{AllocError, Global};
use std::collections::{BTreeMap, BTreeSet};

// Puts rowids into a set.
fn put_rowids(set: &mut BTreeSet<i64>, rowids: &[i64]) -> Result<(), AllocError>
    ensures { OnOk result ((rowid : ℤ) → contains int_cmp set.new rowid ≡ (list_any (λ other. is_eq (int_cmp rowid other)) rowids.now || contains int_cmp set.old rowid)) }
{
    let mut left = rowids;
    while let [rowid, rest @ ..] = left {
        set.insert(*rowid)?;
        left = rest;
    }
    Ok(())
}

/// The rowids of rows that were met or made, each once and in order.
pub(crate) fn touched_rowids(
    alloc: Global,
    met: &[i64],
    made: &[i64],
) -> Result<BTreeSet<i64>, AllocError>
    ensures { IfOk result (λ set. (rowid : ℤ) → contains int_cmp set rowid ≡ (list_any (λ other. is_eq (int_cmp rowid other)) made.now || list_any (λ other. is_eq (int_cmp rowid other)) met.now)) }
{
    let mut set = BTreeSet::new(alloc);
    put_rowids(&mut set, met)?;
    put_rowids(&mut set, made)?;
    Ok(set)
}

// Rows by their rowids. Of two with one rowid the last is taken.
fn by_rowid(
    alloc: Global,
    rows: Vec<(i64, OwnedList<Value>)>,
) -> Result<BTreeMap<i64, (i64, OwnedList<Value>)>, AllocError>
    ensures { IfOk result (λ found. (rowid : ℤ) → get int_cmp found rowid ≡ row_at rows.items rowid) }
{
    let mut found = BTreeMap::new(alloc);
    for row in rows {
        found.insert(row.0, row)?;
    }
    Ok(found)
}

// Takes the row of a rowid out.
fn take_row(
    rows: &mut BTreeMap<i64, (i64, OwnedList<Value>)>,
    rowid: &i64,
) -> Option<(i64, OwnedList<Value>)>
    ensures taken { result ≡ get int_cmp rows.old rowid.now }
    ensures left { (other : ℤ) → get int_cmp rows.new other ≡ cond (is_eq (int_cmp rowid.now other)) None (get int_cmp rows.old other) }
{
    rows.remove(rowid)
}

/// The rows of each rowid, in order of these.
pub(crate) fn pairs_of(
    alloc: Global,
    rowids: &BTreeSet<i64>,
    before: Vec<(i64, OwnedList<Value>)>,
    behind: Vec<(i64, OwnedList<Value>)>,
) -> Result<Vec<OldNew>, AllocError>
    ensures rise { OnOk result (IsStrictlySortedBy int_cmp rowids.now.keys) }
    ensures are { IfOk result (λ pairs. pairs.items ≡ map (pair_at before.items behind.items) rowids.now.keys) }
{
    let mut old = by_rowid(alloc, before)?;
    let mut new = by_rowid(alloc, behind)?;
    let mut pairs = Vec::new(alloc);
    for rowid in rowids {
        let old_row = take_row(&mut old, rowid);
        let new_row = take_row(&mut new, rowid);
        pairs.push(OldNew {
            old: old_row,
            new: new_row,
        })?;
    }
    Ok(pairs)
}
