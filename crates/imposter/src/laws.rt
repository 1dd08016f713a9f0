// Laws about passes.
ghost use Rattle.std.specs.Prelude.{◌≡◌, ℕ, List, true};
ghost use Rattle.std.specs.List.{AllByRecursion};
ghost use Rattle.page_spec.specs.Freelists.{Trunk};
ghost use Rattle.rbu_rows.specs.declared.prepared.Batch.{Batch};
ghost use Rattle.tree_spec.specs.Standing.{Paged, Sizes};
ghost use Rattle.tree_spec.specs.Trees.{Member, Rooted};
ghost use Rattle.database_spec.specs.declared.catalog.NamedEntry.{NamedEntry};
ghost use Rattle.database_spec.specs.Catalogs.{format_of};
ghost use Rattle.database_spec.specs.Rows.{TableRow};
ghost use Rattle.prepared_spec.specs.RowKeys.{has_rowid_key};
ghost use Rattle.prepared_spec.specs.Tables.{greatest_of};
ghost use Rattle.pass_spec.specs.TableSteps.{IsMidGroup, StandsInBatch};
ghost use Rattle.row_writes.specs.StoredLaws.{CanStore};
ghost use Rattle.imposter.specs.declared.pass.TablePass.{TablePass};
ghost use Rattle.imposter.specs.Begins.{Begins, HasRows};
ghost use Rattle.imposter.specs.Passes.{IsPassIn};

/// A pass that begins behind some rows of a batch stands in that batch, where the table of a store stands behind the steps of the earlier batches of its group and so many of this one.
pub fn passes_begin_in_their_batch()
    ensures { (sizes : Sizes) (base : Paged) (lists : List (ℕ × List Member)) (named : NamedEntry) (earlier : List Batch) (batch : Batch) (later : List Batch) (from taken : ℕ) (pass : TablePass)
        (front : List Rooted) (table : Rooted) (back : List Rooted) (trunks : List Trunk) (rows : List TableRow) (mid : IsMidGroup (format_of base) lists named earlier batch later from taken rows)
        → Begins batch named.entry (greatest_of mid.group.old) from taken pass → has_rowid_key pass.target.table ≡ true → HasRows sizes pass.target front table back trunks rows base
        → AllByRecursion (λ prepared. CanStore pass.target.table prepared.values) batch.rows
        → (stands : StandsInBatch (format_of base) pass.target.table pass.target.greatest mid.group.old earlier pass.rows from taken rows)
        × IsPassIn sizes pass stands.start stands.before front table back trunks rows base }
{}
