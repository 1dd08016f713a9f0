// Laws about the definitions of databases.
ghost use Rattle.std.specs.Prelude.{◌≤◌, ◌⊎◌, [], ℕ, List};
ghost use Rattle.std.specs.List.{AllByRecursion};
ghost use Rattle.common_spec.specs.ReadingLaws.{IsOne};
ghost use Rattle.common_spec.specs.Reading.{OrFault};
ghost use Rattle.tree_spec.specs.declared.TreeKind.{TreeKind};
ghost use Rattle.tree_spec.specs.Standing.{Sizes, Paged, IsRootNumber};
ghost use Rattle.tree_spec.specs.Worlds.{greatest_count};
ghost use Rattle.database_spec.specs.declared.catalog.Catalog.{Catalog};
ghost use Rattle.database_spec.specs.declared.fault.FileFault.{FileFault};
ghost use Rattle.database_spec.specs.Walks.{Finding, IsWalk, IsFlawless};
ghost use Rattle.database_spec.specs.RightRows.{HasCatalog};
ghost use Rattle.database_spec.specs.Databases.{Database, IsSound};
ghost use Rattle.database_spec.specs.FileFindings.{Found, AreFound};
ghost use Rattle.database_spec.specs.FileFaults.{FileHasFault, FirstWrong};
ghost use Rattle.database_laws.specs.FoundTreesLaws.{FoundRoot};
ghost use Rattle.database_laws.specs.RightFindings.{AreRight};

/// A walk that finds nothing wrong, and all leaves at one depth, is one over a tree that stands at its root, with the members and pages that it found.
pub fn walks_without_a_flaw_find_trees()
    ensures { (sizes : Sizes) (base : Paged) (kind : TreeKind) (root deepest : ℕ) (findings : List Finding)
        → IsWalk sizes base kind root findings → AllByRecursion (IsFlawless deepest) findings → FoundRoot sizes base kind root findings }
{}

/// A file with a catalog is sound exactly where all that is found in it is right, each thing after all that was found before it, and something is found in each. Page 1 is a page of the file, and it has at most 2^24 pages.
pub fn sound_files_are_right()
    ensures right { (sizes : Sizes) (base : Paged) (catalog : Catalog) (db : Database) (found : List Found)
        → IsSound sizes base catalog db → AreFound sizes base catalog found → AreRight [] found }
    ensures sound { (sizes : Sizes) (base : Paged) (catalog : Catalog) (found : List Found) → IsRootNumber sizes base 1 → base.count ≤ greatest_count
        → HasCatalog sizes base catalog → AreFound sizes base catalog found → AreRight [] found → (db : Database) × IsSound sizes base catalog db }
    ensures found { (sizes : Sizes) (base : Paged) (catalog : Catalog) → HasCatalog sizes base catalog → (found : List Found) × AreFound sizes base catalog found }
{}

/// What is right is not wrong, so a sound file has no fault: a file with a catalog is one sound database or has one first fault, and which of the two is decided. Page 1 is a page of the file, and it has at most 2^24 pages.
pub fn sound_files_have_no_fault()
    ensures right { (found : List Found) (fault : FileFault) → AreRight [] found → ¬ FirstWrong [] found fault }
    ensures sound { (sizes : Sizes) (base : Paged) (catalog : Catalog) (db : Database) (fault : FileFault) → IsSound sizes base catalog db → ¬ FileHasFault sizes base fault }
    ensures either { (sizes : Sizes) (base : Paged) (catalog : Catalog) → IsRootNumber sizes base 1 → base.count ≤ greatest_count → HasCatalog sizes base catalog
        → ((db : Database) × IsSound sizes base catalog db) ⊎ ((fault : FileFault) × FileHasFault sizes base fault) }
    ensures one { (sizes : Sizes) (base : Paged) (catalog : Catalog) → IsOne (OrFault (IsSound sizes base catalog) (FileHasFault sizes base)) }
{}
