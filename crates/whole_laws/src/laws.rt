// Laws about whole databases.
ghost use Rattle.std.specs.Prelude.{◌≡◌, ◌≢◌, ◌≤◌, List};
ghost use Rattle.page_spec.specs.Freelists.{Trunk};
ghost use Rattle.tree_spec.specs.declared.TreeKind.TheVariants.{Table};
ghost use Rattle.tree_spec.specs.Trees.{Rooted, Member, root_of};
ghost use Rattle.tree_spec.specs.Standing.{Sizes, Paged};
ghost use Rattle.tree_spec.specs.Worlds.{World, with_tree};
ghost use Rattle.tree_table.specs.Puts.{HasPut};
ghost use Rattle.tree_table.specs.Deletes.{HasDeleted};
ghost use Rattle.database_spec.specs.declared.catalog.Catalog.{Catalog};
ghost use Rattle.database_spec.specs.Databases.{Database, IsReadable, IsWhole};
ghost use Rattle.whole_laws.specs.WholeWorlds.{database_of, IsWholeWorld};

/// A world that is whole by a catalog is a whole database, that of its first page and its lists; and each whole database is that of such a world.
pub fn worlds_are_whole()
    ensures whole { (sizes : Sizes) (base : Paged) (catalog : Catalog) (world : World) → IsWholeWorld sizes base catalog world → IsWhole sizes base catalog (database_of base world) }
    ensures world { (sizes : Sizes) (base : Paged) (catalog : Catalog) (db : Database) → IsWhole sizes base catalog db → (world : World) × IsWholeWorld sizes base catalog world × (db ≡ database_of base world) }
{}

/// After a row was put into a table of a whole world, or deleted from one, the world is whole by the same catalog, where the table is not the schema and the row that was put can be read. A put and a delete give back no page behind the last: there are as many pages as before, or more.
pub fn puts_and_deletes_keep_whole()
    ensures put { (sizes : Sizes) (old new : Paged) (catalog : Catalog) (front : List Rooted) (table : Rooted) (back : List Rooted) (trunks : List Trunk) (row : Member)
        → IsWholeWorld sizes old catalog (with_tree front table back trunks) → table.kind ≡ Table → root_of table ≢ 1 → IsReadable row → old.count ≤ new.count
        → (put : HasPut sizes front table back row old new) → IsWholeWorld sizes new catalog (with_tree front put.now back put.trunks) }
    ensures delete { (sizes : Sizes) (old new : Paged) (catalog : Catalog) (front : List Rooted) (table : Rooted) (back : List Rooted) (trunks : List Trunk) (gone : Member)
        → IsWholeWorld sizes old catalog (with_tree front table back trunks) → table.kind ≡ Table → root_of table ≢ 1 → old.count ≤ new.count
        → (deleted : HasDeleted sizes front table back gone old new) → IsWholeWorld sizes new catalog (with_tree front deleted.now back deleted.trunks) }
{}
