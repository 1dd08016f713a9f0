// Laws about prepared rows.
ghost use Rattle.std.specs.Prelude.{ℕ, List};
ghost use Rattle.std.specs.List.{AllByRecursion};
ghost use Rattle.rbu_rows.specs.declared.prepared.Batch.{Batch};
ghost use Rattle.tree_spec.specs.Standing.{Sizes, Paged};
ghost use Rattle.tree_spec.specs.Trees.{Member};
ghost use Rattle.database_spec.specs.declared.catalog.Catalog.{Catalog};
ghost use Rattle.database_spec.specs.Databases.{Database};
ghost use Rattle.prepared_laws.specs.TransactionsLaws.{AreUsableGroups};
ghost use Rattle.prepared_spec.specs.Inputs.{ArePreparedRows};
ghost use Rattle.prepared_spec.specs.Outcomes.{TransactionResult, IsOutcome};
ghost use Rattle.usable_laws.specs.UsableGroupsLaws.{HasPlainTarget};

/// Prepared rows without a refusal are groups that can be used, and so have an outcome, in each database whose targeted tables are plain.
pub fn prepared_rows_can_be_used()
    ensures usable { (sizes : Sizes) (base : Paged) (target rbu : Catalog) (lists : List (ℕ × List Member)) (groups : List (List Batch)) → ArePreparedRows sizes base target rbu groups
        → AllByRecursion (HasPlainTarget target lists) groups → AreUsableGroups target lists groups }
    ensures outcome { (sizes : Sizes) (base : Paged) (target rbu : Catalog) (old : Database) (groups : List (List Batch)) → ArePreparedRows sizes base target rbu groups
        → AllByRecursion (HasPlainTarget target old.lists) groups → (result : TransactionResult) × IsOutcome target old groups result }
{}
