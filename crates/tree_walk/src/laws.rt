// Laws about walks.
ghost use Rattle.std.specs.Prelude.{ℕ, ℤ, ◌≤◌, List};
ghost use Rattle.tree_spec.specs.declared.TreeKind.{TreeKind};
ghost use Rattle.tree_spec.specs.declared.TreeKind.TheVariants.{Table};
ghost use Rattle.tree_spec.specs.Trees.{Member};
ghost use Rattle.tree_spec.specs.Standing.{Sizes, Paged, IsTree};
ghost use Rattle.tree_walk.specs.declared.path.Cursor.{Cursor};
ghost use Rattle.tree_walk.specs.Courses.{IsPast, Course, FromRoot};
ghost use Rattle.tree_walk.specs.Lengths.{HasAtMost, Surely};
ghost use Rattle.tree_walk.specs.Seeks.{not_less};
ghost use Rattle.tree_walk.specs.SoughtCourses.{FromRowid};
ghost use Rattle.tree_walk.specs.Walks.{HasMembers};

/// The walk over a standing tree comes to all its members and to its end; the one that begins where a rowid belongs, to those whose rowid is not less.
pub fn standing_trees_have_courses()
    ensures first { (sizes : Sizes) (base : Paged) (root : ℕ) (kind : TreeKind) (depth : ℕ) (members : List Member) (numbers : List ℕ) →
        IsTree sizes base root kind depth members numbers → (course : Course) × FromRoot sizes base kind root course × HasMembers sizes base kind members course }
    ensures sought { (sizes : Sizes) (base : Paged) (root : ℕ) (depth : ℕ) (members : List Member) (numbers : List ℕ) (rowid : ℤ) →
        IsTree sizes base root Table depth members numbers → (course : Course) × FromRowid sizes base rowid root course × HasMembers sizes base Table (not_less rowid members) course }
{}

/// No store is without a course over the tree of a kind at a root.
pub fn stores_have_courses()
    ensures { (sizes : Sizes) (base : Paged) (kind : TreeKind) (root : ℕ) → 1 ≤ root → root ≤ base.count → Surely ((course : Course) × FromRoot sizes base kind root course) }
{}

/// A cursor before which no cell is left is past the last.
pub fn no_cell_is_left_past_the_last()
    ensures { (sizes : Sizes) (base : Paged) (cursor : Cursor) → HasAtMost sizes base 0 cursor → IsPast cursor }
{}
