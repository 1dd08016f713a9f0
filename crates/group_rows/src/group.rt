// What a group touches.
ghost use Rattle.std.specs.Prelude.{◌≡◌, ◌≤ℤ◌, ℕ, pos, List, Option, IfOk, OnOk};
ghost use Rattle.std.specs.List.{AllByRecursion, AllZip};
ghost use Rattle.rbu_rows.specs.declared.prepared.Prepared.{Prepared as AnyPrepared};
ghost use Rattle.database_spec.specs.Rows.{TableRow};
ghost use Rattle.prepared_spec.specs.declared.violation.Violation.{Violation};
ghost use Rattle.schema_spec.specs.declared.schema.Table.{Table as AnyTable};
ghost use Rattle.prepared_spec.specs.RowKeys.{key_collations as key_collations_of, IsInKeyOrder};
ghost use Rattle.prepared_spec.specs.Tables.{IsAfterBatches};
ghost use Rattle.prepared_spec.specs.Plans.{AreFaults};
ghost use Rattle.prepared_laws.specs.TablesMadeLaws.{Apart};
ghost use Rattle.compared_keys.specs.Keys.{HasKey};
ghost use Rattle.touched_rows.specs.TouchedRows.{AreMade, AreTouchedPairsFrom, batches_before_fault};
ghost use Rattle.group_rows.specs.GivenRows.{AreGiven};
ghost use Rattle.group_rows.specs.Runs.{Run, Stands, begun, group_run};
ghost use Rattle.group_rows.specs.Touching.{ArePairsOf};

use crate::pairs::{pairs_of, touched_rowids};
use crate::progress::Progress;
use compared_keys::key_collations;
use index_changes::OldNew;
use owned_list::OwnedList;
use rbu_rows::Batch;
use rbu_value::{Collation, Value};
use schema_spec::Table;
use std::alloc::{AllocError, Global};

/// What a group touches of the rows that its prepared rows meet.
#[derive(Drop)]
pub struct GroupPairs {
    /// Of each prepared row in the order of the steps, whether it makes a row. From the first fault on none does.
    pub made: Vec<bool>,
    /// The rows of each rowid that is touched, by rowid.
    pub pairs: Vec<OldNew>,
}

// Goes through the batches of a group.
fn take_batches(
    alloc: Global,
    table: &Table,
    collations: &[Collation],
    g: &i64,
    progress: &mut Progress,
    batches: &[Batch],
) -> Result<(), AllocError>
    requires from { pos 0 ≤ℤ g.now }
    requires collated { collations.now ≡ key_collations_of table.now }
    ensures { OnOk result ((run : Run) (ordered : List (List AnyPrepared)) → Stands table.now progress.old run → AllZip (λ batch rows. IsInKeyOrder table.now batch.rows rows) batches.now ordered
        → AllByRecursion (λ batch. AllByRecursion (HasKey table.now) batch.rows) batches.now → Stands table.now progress.new (group_run table.now g.now ordered run)) }
{
    let mut left = batches;
    while let [batch, rest @ ..] = left {
        progress.take_batch(alloc, table, collations, g, batch.rows.as_slice())?;
        left = rest;
    }
    Ok(())
}

// What a group comes to over these rows.
fn run_group(
    alloc: Global,
    table: &Table,
    collations: &[Collation],
    g: &i64,
    rows: &[(i64, OwnedList<Value>)],
    batches: &[Batch],
) -> Result<Progress, AllocError>
    requires from { pos 0 ≤ℤ g.now }
    requires collated { collations.now ≡ key_collations_of table.now }
    ensures { IfOk result (λ progress. (ordered : List (List AnyPrepared)) → AllZip (λ batch prepared. IsInKeyOrder table.now batch.rows prepared) batches.now ordered
        → AllByRecursion (λ batch. AllByRecursion (HasKey table.now) batch.rows) batches.now → Stands table.now progress (group_run table.now g.now ordered (begun rows.now))) }
{
    let mut progress = Progress::begin(alloc, table, collations, rows)?;
    take_batches(alloc, table, collations, g, &mut progress, batches)?;
    Ok(progress)
}

// What was touched, where a group came to this from these rows.
fn touched_pairs(
    alloc: Global,
    progress: Progress,
    rows: Vec<(i64, OwnedList<Value>)>,
) -> Result<GroupPairs, AllocError>
    ensures marks { IfOk result (λ found. (table : AnyTable) (run : Run) → Stands table progress run → found.made.items ≡ run.marks) }
    ensures pairs { IfOk result (λ found. (table : AnyTable) (run : Run) → Stands table progress run → ArePairsOf rows.items run found.pairs.items) }
{
    let Progress {
        rows: kept,
        met,
        made,
        marks,
        ..
    } = progress;
    let rowids = touched_rowids(alloc, met.as_slice(), made.as_slice())?;
    let behind = kept.into_rows()?;
    let pairs = pairs_of(alloc, &rowids, rows, behind)?;
    Ok(GroupPairs { made: marks, pairs })
}

/// What a group touches of the rows that its prepared rows may meet, given by their rowids and their values in any order: which of its prepared rows make a row, and the rows of each rowid that it meets or makes, before it and behind it. New rowids count from `g`, which is not negative. The batches go one after the other, each in the order of its keys, up to the first fault. Fails where memory runs out.
pub fn group_pairs(
    alloc: Global,
    table: &Table,
    g: &i64,
    rows: Vec<(i64, OwnedList<Value>)>,
    batches: &[Batch],
) -> Result<GroupPairs, AllocError>
    requires { pos 0 ≤ℤ g.now }
    ensures made { IfOk result (λ found. (format : ℕ) (name : List ℕ) (before after : List TableRow) (ordered : List (List AnyPrepared)) (faults : List (List (Option Violation)))
        → AreGiven before rows.items → AllZip (λ batch rows. IsInKeyOrder table.now batch.rows rows) batches.now ordered → AllByRecursion (λ batch. AllByRecursion (HasKey table.now) batch.rows) batches.now
        → AreFaults format name table.now g.now 0 before ordered faults → IsAfterBatches format table.now g.now 0 before (batches_before_fault ordered faults) after
        → AreMade format table.now g.now 0 before ordered (batches_before_fault ordered faults) found.made.items) }
    ensures pairs { IfOk result (λ found. (format : ℕ) (name : List ℕ) (before after : List TableRow) (ordered : List (List AnyPrepared)) (faults : List (List (Option Violation)))
        → AreGiven before rows.items → Apart before → AllZip (λ batch rows. IsInKeyOrder table.now batch.rows rows) batches.now ordered → AllByRecursion (λ batch. AllByRecursion (HasKey table.now) batch.rows) batches.now
        → AreFaults format name table.now g.now 0 before ordered faults → IsAfterBatches format table.now g.now 0 before (batches_before_fault ordered faults) after
        → AreTouchedPairsFrom format table.now g.now 0 before (batches_before_fault ordered faults) after found.pairs.items) }
{
    let collations = key_collations(alloc, table)?;
    let progress = run_group(
        alloc,
        table,
        collations.as_slice(),
        g,
        rows.as_slice(),
        batches,
    )?;
    let found = touched_pairs(alloc, progress, rows)?;
    Ok(found)
}
