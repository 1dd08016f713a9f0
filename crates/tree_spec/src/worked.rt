// The definitions, computed on a database that SQLite wrote.
ghost use Rattle.std.specs.Prelude.{◌≡◌, [], ◌∷◌};
ghost use Rattle.tree_spec.specs.declared.TreeKind.TheVariants.{Table};
ghost use Rattle.tree_spec.specs.Standing.{IsTree};
ghost use Rattle.tree_spec.specs.Worlds.{IsWorld, slack};
ghost use Rattle.tree_spec.specs.LittleWorld.{little_base, little_members, little_numbers, little_sizes, little_trunks, little_world};

/// A database of 42 pages: its trees and its free page are all its pages, the table at root 2 has three levels and 36 rows, and of 50 pages nine can still be taken.
pub fn worked_world()
    ensures world { IsWorld little_sizes little_base little_world }
    ensures tree { IsTree little_sizes little_base 2 Table 3 little_members little_numbers }
    ensures slack { slack little_sizes little_base 50 little_trunks ≡ 9 }
{}
