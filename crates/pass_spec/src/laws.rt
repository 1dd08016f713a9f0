// Laws about steps of a pass.
ghost use Rattle.std.specs.Prelude.{◌≡◌, ◌+◌, ◌++◌, ◌∷◌, ℕ, ℤ, Contains, List, None, Some, [], length, map, sum_by, true};
ghost use Rattle.put_spec.specs.Children.{PutIn, Rises};
ghost use Rattle.delete_spec.specs.Deletes.{TakenOut};
ghost use Rattle.rbu_rows.specs.declared.prepared.Batch.{Batch};
ghost use Rattle.rbu_rows.specs.declared.prepared.Prepared.{Prepared};
ghost use Rattle.schema_spec.specs.declared.schema.Table.{Table};
ghost use Rattle.tree_spec.specs.declared.TreeKind.TheVariants.{Table as TableTree};
ghost use Rattle.tree_spec.specs.Trees.{Member};
ghost use Rattle.database_spec.specs.declared.catalog.NamedEntry.{NamedEntry};
ghost use Rattle.database_spec.specs.Rows.{TableRow};
ghost use Rattle.prepared_spec.specs.RowKeys.{IsInKeyOrder, has_rowid_key, is_met, meets};
ghost use Rattle.prepared_spec.specs.Outcomes.{row_member};
ghost use Rattle.prepared_spec.specs.Plans.{firsts};
ghost use Rattle.prepared_spec.specs.StepRecords.{put_row};
ghost use Rattle.prepared_spec.specs.Tables.{count_new, greatest_of, IsAfterBatches};
ghost use Rattle.pass_spec.specs.TableSteps.{AreDue, AreStepped, IsBeforeBatch, IsInBatch, IsMidGroup, IsStepped, MeetsRowid, StandsInBatch, taken_behind};

/// Where the key of a table is its rowid, a step over the rows as they stand brings the table from behind some prepared rows of a batch to behind one more. So the steps of a batch, one after the other, make the table behind the batch, in which each prepared row is taken by itself over the rows before the batch.
pub fn steps_by_rowid_make_a_batch()
    ensures { (format : ℕ) (table : Table) (g : ℤ) (start : ℕ) (before : List TableRow) (done : List Prepared) (prepared : Prepared) (taken : ℕ) (now new : List TableRow)
        → has_rowid_key table ≡ true → AreDue table g start before (done ++ prepared ∷ []) → IsInBatch format table g start before done taken now
        → IsStepped format table g taken prepared now new → IsInBatch format table g start before (done ++ prepared ∷ []) (taken_behind table now prepared taken) new }
{}

/// A prepared row meets a row as the table stands when its step is due exactly where it meets one of the table before the batch.
pub fn steps_meet_rows_as_they_stood_before_the_batch()
    ensures { (format : ℕ) (table : Table) (g : ℤ) (start : ℕ) (before : List TableRow) (done : List Prepared) (prepared : Prepared) (taken : ℕ) (now : List TableRow)
        → has_rowid_key table ≡ true → AreDue table g start before (done ++ prepared ∷ []) → IsInBatch format table g start before done taken now
        → is_met table now prepared ≡ is_met table before prepared }
{}

/// A put of the row that a step puts, a delete of the row that it takes out, or neither where it puts what stands there already, leaves the rows that the step leaves.
pub fn puts_and_deletes_make_steps()
    ensures put { (format : ℕ) (table : Table) (g : ℤ) (taken : ℕ) (prepared : Prepared) (old : List TableRow) (row : TableRow) (members : List Member)
        → put_row format table g taken old prepared ≡ Some row → MeetsRowid table old prepared row.rowid
        → PutIn TableTree (row_member row) (map row_member old) members → Rises members → AreStepped format table g taken prepared old members }
    ensures delete { (format : ℕ) (table : Table) (g : ℤ) (taken : ℕ) (prepared : Prepared) (old : List TableRow) (gone : Member) (members : List Member)
        → put_row format table g taken old prepared ≡ None → MeetsRowid table old prepared gone.rowid
        → TakenOut gone (map row_member old) members → Rises (map row_member old) → AreStepped format table g taken prepared old members }
    ensures neither { (format : ℕ) (table : Table) (g : ℤ) (taken : ℕ) (prepared : Prepared) (old : List TableRow)
        → ((row : TableRow) → put_row format table g taken old prepared ≡ Some row → Contains old row)
        → ((row : TableRow) → Contains old row → meets table row prepared ≡ true → put_row format table g taken old prepared ≡ Some row)
        → Rises (map row_member old) → AreStepped format table g taken prepared old (map row_member old) }
{}

/// A table behind the first steps of a group, whose rows go batch by batch, stands in the batch in which the next one is, and one that stands there is behind these steps. So a pass that begins in the middle goes on from what a whole one would have left.
pub fn tables_midway_stand_in_a_batch()
    ensures stands { (format : ℕ) (table : Table) (g : ℤ) (earlier : List (List Prepared)) (done rest : List Prepared) (later : List (List Prepared)) (old now : List TableRow)
        → IsAfterBatches format table g 0 old (firsts (sum_by length earlier + length done) (earlier ++ (done ++ rest) ∷ later)) now
        → (start : ℕ) × (before : List TableRow) × IsBeforeBatch format table g 0 old earlier start before × IsInBatch format table g start before done (start + count_new table before done) now }
    ensures behind { (format : ℕ) (table : Table) (g : ℤ) (earlier : List (List Prepared)) (done rest : List Prepared) (later : List (List Prepared)) (old : List TableRow) (start : ℕ) (before : List TableRow) (taken : ℕ) (now : List TableRow)
        → IsBeforeBatch format table g 0 old earlier start before → IsInBatch format table g start before done taken now
        → IsAfterBatches format table g 0 old (firsts (sum_by length earlier + length done) (earlier ++ (done ++ rest) ∷ later)) now }
{}

/// The table of a group that can be used, behind the steps of its earlier batches and some of one, stands in that batch, whose rows are those in key order.
pub fn groups_midway_stand_in_a_batch()
    ensures { (format : ℕ) (lists : List (ℕ × List Member)) (named : NamedEntry) (earlier : List Batch) (batch : Batch) (later : List Batch) (from taken : ℕ) (rows : List Prepared) (now : List TableRow)
        (mid : IsMidGroup format lists named earlier batch later from taken now) → IsInKeyOrder mid.group.table batch.rows rows
        → StandsInBatch format mid.group.table (greatest_of mid.group.old) mid.group.old earlier rows from taken now }
{}
