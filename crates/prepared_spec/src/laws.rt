// Laws about the definitions.
ghost use Rattle.std.specs.Prelude.{◌≡◌, ◌≤◌, ℕ, List, [], sum_by};
ghost use Rattle.std.specs.List.{AllByRecursion};
ghost use Rattle.common_spec.specs.Reading.{OrFault};
ghost use Rattle.common_spec.specs.ReadingLaws.{IsOne};
ghost use Rattle.rbu_rows.specs.declared.prepared.Batch.{Batch};
ghost use Rattle.tree_spec.specs.Standing.{Sizes, Paged};
ghost use Rattle.database_spec.specs.declared.catalog.Catalog.{Catalog};
ghost use Rattle.database_spec.specs.Databases.{Database};
ghost use Rattle.prepared_spec.specs.declared.input_fault.InputFault.{InputFault};
ghost use Rattle.prepared_spec.specs.Inputs.{ArePreparedRows, HasInputFault};
ghost use Rattle.prepared_spec.specs.Outcomes.{next_header, IsMid, IsNew, TransactionResult, IsOutcome};
ghost use Rattle.prepared_spec.specs.TargetRecords.{TargetIsPlain, TargetHasFault};
ghost use Rattle.prepared_spec.specs.StepRecords.{AreSteps, HasTooLongStep};
ghost use Rattle.prepared_spec.specs.ReorderingLaws.{HasSameTables, HaveSameRows};
ghost use Rattle.prepared_spec.specs.Plans.{plan_steps};
ghost use Rattle.prepared_spec.specs.FinishLaws.{HeldProjections};
ghost use Rattle.prepared_spec.specs.MidwayLaws.{IsSettled, RootsRise};

/// An RBU database holds one list of prepared rows for a target or has one first refusal, and never both.
pub fn prepared_rows_or_one_refusal()
    ensures { (sizes : Sizes) (base : Paged) (target rbu : Catalog) → IsOne (OrFault (ArePreparedRows sizes base target rbu) (HasInputFault sizes base target rbu)) }
{}

/// The order of the `data_` tables in the schema of an RBU database, and its other tables, play no part.
pub fn order_of_data_tables_plays_no_part()
    ensures rows { (sizes : Sizes) (base : Paged) (target rbu other : Catalog) (groups : List (List Batch))
        → HasSameTables rbu other → ArePreparedRows sizes base target rbu groups → ArePreparedRows sizes base target other groups }
    ensures fault { (sizes : Sizes) (base : Paged) (target rbu other : Catalog) (fault : InputFault)
        → HasSameTables rbu other → HasInputFault sizes base target rbu fault → HasInputFault sizes base target other fault }
{}

/// The order of the rows of a batch plays no part in what a transaction comes to, nor in the databases midway.
pub fn order_of_rows_plays_no_part()
    ensures outcome { (catalog : Catalog) (old : Database) (groups others : List (List Batch)) (result : TransactionResult)
        → HaveSameRows groups others → IsOutcome catalog old groups result → IsOutcome catalog old others result }
    ensures midway { (catalog : Catalog) (old mid : Database) (groups others : List (List Batch)) (n : ℕ)
        → HaveSameRows groups others → IsMid catalog old groups n mid → IsMid catalog old others n mid }
{}

/// The tables that batches are for are plain, or have one first fault, and never both.
pub fn targets_are_plain_or_have_one_fault()
    ensures { (sizes : Sizes) (base : Paged) (catalog : Catalog) (batches : List Batch)
        → IsOne (OrFault {A = Unit {0}} (λ (done : Unit {0}). TargetIsPlain sizes base catalog batches) (TargetHasFault sizes base catalog batches)) }
{}

/// A transaction has at most one list of steps, and at most one of them is the first that puts a record that no cell can have.
pub fn transaction_has_one_list_of_steps()
    ensures steps { (catalog : Catalog) (old : Database) (groups : List (List Batch)) → IsOne (AreSteps catalog old groups) }
    ensures too_long { (catalog : Catalog) (old : Database) (groups : List (List Batch)) → IsOne (HasTooLongStep catalog old groups) }
{}

/// A transaction of prepared rows has at most one outcome.
pub fn transaction_has_one_outcome()
    ensures { (catalog : Catalog) (old : Database) (groups : List (List Batch)) → IsOne (IsOutcome catalog old groups) }
{}

/// The database midway at the first step is the old one.
pub fn midway_begins_with_the_old_database()
    ensures { (catalog : Catalog) (old mid : Database) (groups : List (List Batch)) (is : IsMid catalog old groups 0 mid) → RootsRise old.lists → AllByRecursion (IsSettled old.lists) is.plans → mid ≡ old }
{}

/// An update without rows changes only the counters.
pub fn no_rows_change_only_counters()
    ensures { (catalog : Catalog) (old new : Database) → IsNew catalog old [] new → (new.header ≡ next_header old.header) × (new.lists ≡ old.lists) }
{}

/// Midway behind all steps the lists are those of the new database, where each index held the projection of its table.
pub fn midway_ends_with_the_new_lists()
    ensures { (catalog : Catalog) (old mid new : Database) (groups : List (List Batch)) (n : ℕ) (is : IsMid catalog old groups n mid) → sum_by plan_steps is.plans ≤ n
        → AllByRecursion (HeldProjections old.lists) is.plans → IsNew catalog old is.plans new → mid.lists ≡ new.lists }
{}
