//! What prepared inserts make of a small target, and the target's new pages.
//!
//! The layer above decides by `decide`, and writes the pages of the merged rows by `write_pages`. What both mean is said by `Inserts` in the `specs/` of `small_spec`; `Decision` in this crate's `specs/` says which decision rows have. The laws `packed_leaf_is_page` and `update_leaves_small_target` say what the written pages are: `PackedLeaf` and `SmallAgain` there.
#![tactic(auto)]

ghost use Rattle.std.specs.Prelude.{◌≡◌, IfOk};
ghost use Rattle.small_spec.specs.SmallFile.{target_table, IsRisingBy};
ghost use Rattle.small_update.specs.Decision.{Decides};

mod insert;
mod laws;
mod merge;
mod pages;

use insert::with_inserted;
pub use laws::{packed_leaf_is_page, update_leaves_small_target};
use merge::{first_present, has_distinct_keys, sort_by_key, sort_by_rowid};
use pages::fits_page;
pub use pages::write_pages;
use rbu_value::Bytes;
use small_spec::{PreparedRow, TargetRow};
use std::alloc::{AllocError, Global};

/// What prepared inserts make of a table: the first of these that holds.
#[derive(Drop)]
pub enum Decision {
    /// Two prepared rows have one key.
    SharedKey,
    /// All rows together do not fit one page of 4096 bytes.
    NoRoom,
    /// A key is an old rowid of this table. The rowid is that of the prepared row with the least such key.
    KeyPresent { table: Bytes, data_rowid: i64 },
    /// All rows, in order of their rowids.
    Merged(Vec<TargetRow>),
}

// The name of the table that is updated.
fn table_name(alloc: Global) -> Result<Bytes, AllocError>
    ensures { IfOk result (λ name. name ≡ target_table.name) }
{
    Bytes::of(alloc, b"t1")
}

/// Decides what prepared rows make of a table's old rows, which are in order of their rowids.
pub fn decide(
    alloc: Global,
    old: Vec<TargetRow>,
    mut prepared: Vec<PreparedRow>,
) -> Result<Decision, AllocError>
    requires rising { IsRisingBy (λ row. row.rowid) old.items }
    ensures { IfOk result (Decides old.items prepared.items) }
{
    sort_by_key(&mut prepared)?;
    if !has_distinct_keys(&prepared) {
        return Ok(Decision::SharedKey);
    }
    let present = first_present(&old, &prepared);
    let mut rows = with_inserted(alloc, old, prepared)?;
    if !fits_page(&rows) {
        return Ok(Decision::NoRoom);
    }
    if let Some(data_rowid) = present {
        let table = table_name(alloc)?;
        return Ok(Decision::KeyPresent { table, data_rowid });
    }
    sort_by_rowid(&mut rows)?;
    Ok(Decision::Merged(rows))
}
