// What pairs of touched rows say of a whole table.
ghost use Rattle.std.specs.Prelude.{◌≡◌, Bool, List, ℕ, ℤ, Option, Result};
ghost use Rattle.std.specs.List.{AllZip};
ghost use Rattle.rbu_rows.specs.declared.prepared.Prepared.{Prepared};
ghost use Rattle.rbu_rows.specs.declared.prepared.Batch.{Batch};
ghost use Rattle.schema_spec.specs.declared.schema.SqlFault.{SqlFault};
ghost use Rattle.schema_spec.specs.declared.schema.Table.{Table};
ghost use Rattle.schema_spec.specs.declared.schema.Index.{Index};
ghost use Rattle.tree_spec.specs.Trees.{Member};
ghost use Rattle.database_spec.specs.declared.catalog.NamedEntry.{NamedEntry};
ghost use Rattle.database_spec.specs.Rows.{TableRow};
ghost use Rattle.prepared_spec.specs.declared.violation.Violation.{Violation};
ghost use Rattle.prepared_spec.specs.declared.violation.Change.{Change};
ghost use Rattle.prepared_spec.specs.Tables.{IsAfter, IsAfterBatches};
ghost use Rattle.prepared_spec.specs.StepFaults.{AreChanges};
ghost use Rattle.prepared_spec.specs.Plans.{AreFaults, IndexPlan, TablePlan, IsIndexPlan, IsTablePlan};
ghost use Rattle.prepared_laws.specs.TablesMadeLaws.{Apart};
ghost use Rattle.index_changes.specs.declared.pairs.OldNew.{OldNew};
ghost use Rattle.index_changes.specs.Pairs.{ArePairs, old_rows, new_rows};
ghost use Rattle.touched_rows.specs.TouchedRows.{AreMade, AreParted, ArePlaced, AreTouchedPairs, AreTouchedPairsFrom, AreUnmet, NoFaults, Touches};

/// Pairs of touched rows are of one rowid each, and no two of the same.
pub fn touched_pairs_are_of_one_rowid()
    ensures { (format : ℕ) (table : Table) (old after : List TableRow) (batches : List (List Prepared)) (pairs : List OldNew)
        → AreTouchedPairs format table old batches after pairs → ArePairs pairs }
{}

/// The changes of an index between the rows of such pairs are those between the whole table before a group and after it.
pub fn touched_pairs_have_all_changes()
    ensures { (format : ℕ) (table : Table) (old after : List TableRow) (batches : List (List Prepared)) (pairs : List OldNew) (index : Index) (changes : List Change)
        → ArePlaced table old → IsAfter format table old batches after → AreTouchedPairs format table old batches after pairs
        → AreChanges index (old_rows table pairs) (new_rows table pairs) changes → AreChanges index old after changes }
{}

/// And they are the steps of that index in the plan of a group.
pub fn touched_pairs_give_the_steps_of_indexes()
    ensures { (format : ℕ) (lists : List (ℕ × List Member)) (named : NamedEntry) (group : List Batch) (plan : TablePlan) (pairs : List OldNew)
        → IsTablePlan format lists named group plan → AreTouchedPairs format plan.table plan.old plan.batches plan.after pairs
        → (indexed : ℕ × Result Index SqlFault) (indexes : IndexPlan) → IsIndexPlan plan.old plan.after indexed indexes
        → (changes : List Change) → AreChanges indexes.index (old_rows plan.table pairs) (new_rows plan.table pairs) changes → changes ≡ indexes.changes }
{}

/// A group without a fault touches the rows before all its batches and behind them.
pub fn groups_without_a_fault_touch_all_their_rows()
    ensures { (format : ℕ) (table : Table) (old after : List TableRow) (batches : List (List Prepared)) (faults : List (List (Option Violation))) (g : ℤ) (made : List Bool) (pairs : List OldNew)
        → AllZip NoFaults batches faults → IsAfter format table old batches after → Touches format table old batches faults g made pairs
        → AreTouchedPairs format table old batches after pairs }
{}

/// Where a table is parted into rows that a group may meet and rows that it does not meet, what the group touches of the former is what it touches of the table, as which of its prepared rows make a row, and their faults.
pub fn rows_that_are_not_met_play_no_part()
    ensures pairs { (format : ℕ) (table : Table) (g : ℤ) (old part rest : List TableRow) (batches : List (List Prepared)) (after part_after : List TableRow) (pairs : List OldNew)
        → AreParted old part rest → AreUnmet table rest batches → Apart old
        → IsAfterBatches format table g 0 old batches after → IsAfterBatches format table g 0 part batches part_after
        → AreTouchedPairsFrom format table g 0 part batches part_after pairs → AreTouchedPairsFrom format table g 0 old batches after pairs }
    ensures made { (format : ℕ) (table : Table) (g : ℤ) (old part rest : List TableRow) (batches fronts : List (List Prepared)) (after part_after : List TableRow) (made : List Bool)
        → AreParted old part rest → AreUnmet table rest fronts
        → IsAfterBatches format table g 0 old fronts after → IsAfterBatches format table g 0 part fronts part_after
        → AreMade format table g 0 part batches fronts made → AreMade format table g 0 old batches fronts made }
    ensures faults { (format : ℕ) (table : Table) (g : ℤ) (name : List ℕ) (old part rest : List TableRow) (batches : List (List Prepared)) (after part_after : List TableRow) (faults : List (List (Option Violation)))
        → AreParted old part rest → AreUnmet table rest batches
        → IsAfterBatches format table g 0 old batches after → IsAfterBatches format table g 0 part batches part_after
        → AreFaults format name table g 0 part batches faults → AreFaults format name table g 0 old batches faults }
{}
