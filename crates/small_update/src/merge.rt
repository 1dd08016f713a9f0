// The order of rows by their keys, and the keys that old rows have.
ghost use Rattle.std.specs.Prelude.{◌≡◌, ◌↔◌, IsTrue, IfSome, IfNone, OnOk, map, Contains, IsPermutation};
ghost use Rattle.std.specs.List.Sorted.{IsSortedByKey};
ghost use Rattle.std.specs.Ordering.{int_cmp};
ghost use Rattle.small_spec.specs.declared.PreparedRow.{PreparedRow};
ghost use Rattle.small_spec.specs.SmallFile.{IsRisingBy};
ghost use Rattle.small_spec.specs.Inserts.{HasDistinctKeys, IsFirstPresent, NonePresent};

use small_spec::{PreparedRow, TargetRow};
use std::alloc::AllocError;

// Puts prepared rows in the order of their keys.
pub fn sort_by_key(rows: &mut Vec<PreparedRow>) -> Result<(), AllocError>
    ensures same { IsPermutation rows.old.items rows.new.items }
    ensures sorted { OnOk result (IsSortedByKey (λ row. row.key) int_cmp rows.new.items) }
{
    rows.sort_by_key(|row| row.key)
}

// Puts rows in the order of their rowids.
pub fn sort_by_rowid(rows: &mut Vec<TargetRow>) -> Result<(), AllocError>
    ensures same { IsPermutation rows.old.items rows.new.items }
    ensures sorted { OnOk result (IsSortedByKey (λ row. row.rowid) int_cmp rows.new.items) }
{
    rows.sort_by_key(|row| row.rowid)
}

// Whether no two rows have one key.
pub fn has_distinct_keys(rows: &[PreparedRow]) -> bool
    requires { IsSortedByKey (λ row. row.key) int_cmp rows.now }
    ensures { IsTrue result ↔ HasDistinctKeys rows.now }
{
    for i in 1..rows.len() {
        if rows[i - 1].key == rows[i].key {
            return false;
        }
    }
    true
}

// Whether a key is an old rowid.
fn is_present(old: &[TargetRow], key: i64) -> bool
    requires { IsRisingBy (λ row. row.rowid) old.now }
    ensures { IsTrue result ↔ Contains (map (λ row. row.rowid) old.now) key }
{
    old.binary_search_by_key(&key, |row| row.rowid).is_ok()
}

// The rowid of the first row whose key is an old rowid.
pub fn first_present(old: &[TargetRow], rows: &[PreparedRow]) -> Option<i64>
    requires rising { IsRisingBy (λ row. row.rowid) old.now }
    requires sorted { IsSortedByKey (λ row. row.key) int_cmp rows.now }
    ensures present { IfSome result (λ data_rowid.
        (row : PreparedRow) × IsFirstPresent old.now rows.now row × (row.data_rowid ≡ data_rowid)) }
    ensures none { IfNone result (NonePresent old.now rows.now) }
{
    for row in rows {
        if is_present(old, row.key) {
            return Some(row.data_rowid);
        }
    }
    None
}
