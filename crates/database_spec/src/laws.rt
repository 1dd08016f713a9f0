// Laws about the definitions.
ghost use Rattle.std.specs.Prelude.{◌≡◌, ℕ, List, map};
ghost use Rattle.common_spec.specs.Reading.{OrFault};
ghost use Rattle.common_spec.specs.ReadingLaws.{IsOne};
ghost use Rattle.schema_spec.specs.declared.schema.Index.{Index};
ghost use Rattle.tree_spec.specs.declared.TreeKind.{TreeKind};
ghost use Rattle.tree_spec.specs.Trees.{Member};
ghost use Rattle.tree_spec.specs.Standing.{Sizes, Paged, IsTree};
ghost use Rattle.database_spec.specs.declared.catalog.Catalog.{Catalog};
ghost use Rattle.database_spec.specs.SameDatabases.{SameDatabase};
ghost use Rattle.database_spec.specs.Databases.{Database, IsWhole, IsSound};
ghost use Rattle.database_spec.specs.Walks.{IsWalk, IsList, StopsAt};
ghost use Rattle.database_spec.specs.RightRows.{HasCatalog, CatalogHasFault};
ghost use Rattle.database_spec.specs.Rows.{TableRow};
ghost use Rattle.database_spec.specs.Keys.{IsProjection};
ghost use Rattle.database_spec.specs.FileFaults.{FileHasFault};

/// Whatever the pages hold, a walk over the tree at a root finds one list of things. Where a tree stands, a cursor gives its members and meets nothing that is wrong.
pub fn walks_find_one_list()
    ensures one { (sizes : Sizes) (base : Paged) (kind : TreeKind) (root : ℕ) → IsOne (IsWalk sizes base kind root) }
    ensures standing { (sizes : Sizes) (base : Paged) (root : ℕ) (kind : TreeKind) (depth : ℕ) (members : List Member) (numbers : List ℕ)
        → IsTree sizes base root kind depth members numbers → IsList sizes base kind root members }
    ensures apart { (sizes : Sizes) (base : Paged) (kind : TreeKind) (root : ℕ) → IsOne (OrFault (IsList sizes base kind root) (StopsAt sizes base kind root)) }
{}

/// A database has one catalog, or one fault for which it has none.
pub fn database_has_one_catalog()
    ensures { (sizes : Sizes) (base : Paged) → IsOne (OrFault (HasCatalog sizes base) (CatalogHasFault sizes base)) }
{}

/// A table has one projection for an index.
pub fn table_has_one_projection()
    ensures { (index : Index) (rows : List TableRow) → IsOne (IsProjection index rows) }
{}

/// A file has at most one first fault.
pub fn file_has_one_fault()
    ensures { (sizes : Sizes) (base : Paged) → IsOne (FileHasFault sizes base) }
{}

/// What agrees on the pages that matter is the same database: it has the same catalog, and is as sound. Whole pages are one database.
pub fn same_pages_are_the_same_database()
    ensures catalog { (sizes : Sizes) (old new : Paged) → SameDatabase sizes old new → (catalog : Catalog) → HasCatalog sizes old catalog → HasCatalog sizes new catalog }
    ensures sound { (sizes : Sizes) (old new : Paged) → SameDatabase sizes old new → (catalog : Catalog) (db : Database) → IsSound sizes old catalog db → IsSound sizes new catalog db }
    ensures one { (sizes : Sizes) (base : Paged) (catalog : Catalog) → IsOne (IsWhole sizes base catalog) }
{}
