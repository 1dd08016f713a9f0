//! Reads the databases that can be updated today.
//!
//! The layer above reads a target by `read_target` and an RBU database by `read_rbu`. Which bytes are such a database, and with which rows, is said by `SmallFile` in the `specs/` of `small_spec`.
#![tactic(auto)]

ghost use Rattle.std.specs.Prelude.{IfOk, option_map};
ghost use Rattle.common_spec.specs.Reading.{Reads, OrNone};
ghost use Rattle.small_spec.specs.SmallFile.{IsSmallTarget, IsSmallRbu};

mod file;
mod header;
mod page;
mod rbu;
mod record;
mod row;
mod table;
mod target;

use small_spec::{PreparedRow, TargetRow};
use std::alloc::{AllocError, Global};
use table::read_rows;

/// The rows of a target, in order of their rowids, or `None` where the bytes are not a small target. Takes one pass over each page.
pub fn read_target(alloc: Global, bytes: &[u8]) -> Result<Option<Vec<TargetRow>>, AllocError>
    ensures { IfOk result (λ rows. Reads (OrNone (IsSmallTarget bytes.now)) (option_map (λ v. v.items) rows)) }
{
    read_rows::<TargetRow>(alloc, bytes)
}

/// The prepared rows of an RBU database, in order of their rowids in the `data_` table, or `None` where the bytes are not a small one.
pub fn read_rbu(alloc: Global, bytes: &[u8]) -> Result<Option<Vec<PreparedRow>>, AllocError>
    ensures { IfOk result (λ rows. Reads (OrNone (IsSmallRbu bytes.now)) (option_map (λ v. v.items) rows)) }
{
    read_rows::<PreparedRow>(alloc, bytes)
}
