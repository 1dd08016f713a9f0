// What the changes between touched rows are for the whole table.
ghost use Rattle.std.specs.Prelude.{List};
ghost use Rattle.schema_spec.specs.declared.schema.Index.{Index};
ghost use Rattle.database_spec.specs.Rows.{TableRow};
ghost use Rattle.prepared_spec.specs.declared.violation.Change.{Change};
ghost use Rattle.prepared_spec.specs.StepFaults.{AreChanges};
ghost use Rattle.index_changes.specs.Pairs.{AreTouched};

/// The changes of an index between the rows that an update touches are those between all rows before it and after it.
pub fn touched_rows_have_all_changes()
    ensures { (index : Index) (old new touched_old touched_new : List TableRow) (changes : List Change) → AreTouched old new touched_old touched_new
        → AreChanges index touched_old touched_new changes → AreChanges index old new changes }
{}
