// Laws about the definitions of updates.
ghost use Rattle.std.specs.Prelude.{List};
ghost use Rattle.rbu_rows.specs.declared.prepared.Batch.{Batch};
ghost use Rattle.database_spec.specs.declared.catalog.Catalog.{Catalog};
ghost use Rattle.database_spec.specs.Databases.{Database};
ghost use Rattle.prepared_spec.specs.Outcomes.{TransactionResult, IsOutcome};
ghost use Rattle.prepared_laws.specs.TransactionsLaws.{AreUsableGroups};

/// A transaction of groups that can be used has an outcome: the fault of its last step, or a new database.
pub fn transaction_has_an_outcome()
    ensures { (catalog : Catalog) (old : Database) (groups : List (List Batch)) → AreUsableGroups catalog old.lists groups → (result : TransactionResult) × IsOutcome catalog old groups result }
{}
