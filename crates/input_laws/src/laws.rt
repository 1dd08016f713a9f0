// Laws about what is found in RBU databases.
ghost use Rattle.std.specs.Prelude.{List, Option};
ghost use Rattle.std.specs.List.{AllByRecursion};
ghost use Rattle.common_spec.specs.Reading.{OrNone};
ghost use Rattle.rbu_rows.specs.declared.prepared.Prepared.{Prepared};
ghost use Rattle.schema_spec.specs.declared.schema.Table.{Table};
ghost use Rattle.tree_spec.specs.Standing.{Sizes, Paged};
ghost use Rattle.tree_spec.specs.Trees.{Member};
ghost use Rattle.database_spec.specs.declared.catalog.Catalog.{Catalog};
ghost use Rattle.database_spec.specs.ListsLaws.{PairsByRecursion};
ghost use Rattle.database_spec.specs.RightRows.{HasCatalog};
ghost use Rattle.prepared_spec.specs.PreparedRows.{IsPrepared};
ghost use Rattle.prepared_spec.specs.Inputs.{Input, AreInputs};
ghost use Rattle.input_laws.specs.CatalogNamesLaws.{IsKnown, OwnName};

/// Something is found of each RBU database with a catalog, for each target with one, whatever the trees hold. What that takes of the two catalogs is that each text is read or has a fault, and that no two tables of the RBU database have one name.
pub fn something_is_found_of_each_rbu_database()
    ensures members { (target own : Table) (member : Member) → (prepared : Option Prepared) × OrNone (IsPrepared target own member) prepared }
    ensures known { (sizes : Sizes) (base : Paged) (target rbu : Catalog) → AllByRecursion IsKnown target.tables → AllByRecursion IsKnown rbu.tables
        → PairsByRecursion OwnName rbu.tables → (inputs : List Input) × AreInputs sizes base target rbu inputs }
    ensures found { (sizes : Sizes) (base : Paged) (target_sizes : Sizes) (target_base : Paged) (target rbu : Catalog)
        → HasCatalog target_sizes target_base target → HasCatalog sizes base rbu → (inputs : List Input) × AreInputs sizes base target rbu inputs }
{}
