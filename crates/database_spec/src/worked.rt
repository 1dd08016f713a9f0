// The definitions, computed on a database that SQLite wrote.
ghost use Rattle.std.specs.Prelude.{◌≡◌, pos, [], ◌∷◌, Some, codes};
ghost use Rattle.refusal.specs.declared.Rule.{Rule};
ghost use Rattle.tree_spec.specs.Trees.{member};
ghost use Rattle.database_spec.specs.declared.fault.FileFault.{FileFault};
ghost use Rattle.database_spec.specs.Rows.{IsPlain};
ghost use Rattle.database_spec.specs.FileFindings.{Frees, Counts, Needs, Compares, freelist_found};
ghost use Rattle.database_spec.specs.FileFaults.{IsWrong};
ghost use Rattle.database_spec.specs.RightRows.{HasCatalog, RowHasFault};
ghost use Rattle.database_spec.specs.Databases.{IsSound};
ghost use Rattle.database_spec.specs.LittleTarget.{target_sizes, target_base, target_catalog, target_database, target_entry, target_table, target_rows, target_index, table_row, misplaced_row, row_cell, index_record, changed_members};

use schema_spec::worked_texts;

/// A database with a table `t1(a INTEGER PRIMARY KEY, b TEXT, c UNIQUE)` of three rows: its catalog, the rows of its table, and that it is sound.
pub fn worked_target()
    ensures catalog { HasCatalog target_sizes target_base target_catalog }
    ensures plain { IsPlain target_sizes target_base target_entry target_table target_rows }
    ensures sound { IsSound target_sizes target_base target_catalog target_database }
{
    worked_texts();
}

/// What is wrong with that database where the index is given the root of the table, where the header counts a free page, where a page stands twice or nowhere, and where the entry 20|2 of the index is 21|2.
pub fn worked_file_faults()
    ensures root { RowHasFault target_sizes target_base (table_row ∷ misplaced_row ∷ []) (table_row ∷ []) (member (row_cell 2 index_record)) (Some misplaced_row) (FileFault.SchemaRow (pos 2)) }
    ensures count { IsWrong [] (Counts 1) (FileFault.Damaged 1 Rule.Count) }
    ensures twice { IsWrong (Frees 5 ∷ Frees 4 ∷ []) (Frees 5) (FileFault.PageTwice 5) }
    ensures lost { IsWrong (Frees 5 ∷ []) (Needs 4) (FileFault.PageLost 4) }
    ensures free { freelist_found target_sizes target_base ≡ Counts 0 ∷ [] }
    ensures index { IsWrong [] (Compares target_index target_rows changed_members) (FileFault.IndexDisagrees (codes "sqlite_autoindex_t1_1") (pos 2)) }
{}
