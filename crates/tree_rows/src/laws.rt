// Laws about walks.
ghost use Rattle.std.specs.Prelude.{ℕ, List};
ghost use Rattle.tree_spec.specs.declared.TreeKind.{TreeKind};
ghost use Rattle.tree_spec.specs.Standing.{Sizes, Paged};
ghost use Rattle.tree_walk.specs.Courses.{Course, FromRoot, ends};
ghost use Rattle.database_spec.specs.Walks.{Finding, IsWalk};
ghost use Rattle.tree_rows.specs.Remaining.{Follows};

/// What a walk over the tree at a root finds is what a cursor comes to, up to the first thing that ends its way; and there is a course from each root, whatever the pages hold.
pub fn walks_have_courses()
    ensures found { (sizes : Sizes) (base : Paged) (kind : TreeKind) (root : ℕ) (findings : List Finding) → IsWalk sizes base kind root findings
        → (course : Course) × FromRoot sizes base kind root course × Follows sizes base kind findings ends course }
    ensures some { (sizes : Sizes) (base : Paged) (kind : TreeKind) (root : ℕ) → (course : Course) × FromRoot sizes base kind root course }
{}
