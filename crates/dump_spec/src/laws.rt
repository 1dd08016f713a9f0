// Laws about what is printed.
ghost use Rattle.file_spec.specs.Files.{Files};
ghost use Rattle.std.specs.Prelude.{◌≡◌, ℕ, ℤ, List, Ok, Some};
ghost use Rattle.common_spec.specs.Reading.{OrFault};
ghost use Rattle.common_spec.specs.ReadingLaws.{IsOne};
ghost use Rattle.schema_spec.specs.declared.schema.Table.{Table};
ghost use Rattle.tree_spec.specs.Standing.{Sizes, Paged};
ghost use Rattle.tree_spec.specs.Trees.{Member};
ghost use Rattle.database_spec.specs.declared.catalog.Catalog.{Catalog};
ghost use Rattle.database_spec.specs.declared.catalog.NamedEntry.{NamedEntry};
ghost use Rattle.database_spec.specs.RightRows.{HasCatalog};
ghost use Rattle.database_spec.specs.Rows.{TableRow, IsPlain};
ghost use Rattle.prepared_spec.specs.Plans.{table_named};
ghost use Rattle.dump_spec.specs.SchemaRows.{AreLines, IsFirstBad};
ghost use Rattle.dump_spec.specs.TableDumps.{IsTableAnswer, lines_of};
ghost use Rattle.dump_spec.specs.Dumps.{IsDump};

/// The members of a schema table have one text, or one that is the first to be no row of it, and not both.
pub fn schema_rows_have_one_answer()
    ensures { (members : List Member) → IsOne (OrFault (AreLines members) (IsFirstBad members)) }
{}

/// A name has one answer of the files: the lines of its table, or one refusal.
pub fn dump_has_one_answer()
    ensures { (name : List ℕ) (files : Files) → IsOne (IsDump name files) }
{}

/// A table is printed exactly where it is plain, and what is printed are the lines of its rows.
pub fn plain_tables_are_printed()
    ensures printed { (sizes : Sizes) (base : Paged) (name : List ℕ) (catalog : Catalog) (named : NamedEntry) (table : Table) (rows : List TableRow)
        → HasCatalog sizes base catalog → table_named name catalog.tables ≡ Some named → IsPlain sizes base named.entry table rows → IsTableAnswer sizes base name (Ok (lines_of rows)) }
    ensures plain { (sizes : Sizes) (base : Paged) (name : List ℕ) (catalog : Catalog) (named : NamedEntry) (text : List ℕ)
        → HasCatalog sizes base catalog → table_named name catalog.tables ≡ Some named → IsTableAnswer sizes base name (Ok text)
        → (table : Table) × (rows : List TableRow) × IsPlain sizes base named.entry table rows × (text ≡ lines_of rows) }
{}
