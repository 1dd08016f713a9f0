// Laws about the definitions.
ghost use Rattle.std.specs.Prelude.{◌≡◌, ◌+◌, ◌^◌, ◌≤◌, ◌<ℤ◌, ℕ, max, List, length, AllPairs};
ghost use Rattle.page_spec.specs.Freelists.{Trunk};
ghost use Rattle.tree_spec.specs.declared.TreeKind.{TreeKind};
ghost use Rattle.tree_spec.specs.declared.TreeKind.TheVariants.{Table};
ghost use Rattle.tree_spec.specs.Trees.{TreeOf, Rooted, Member, page_of, pages_of, root_of, pages_in, list_in, depth_of, greatest_depth, IsFullRoot};
ghost use Rattle.tree_spec.specs.Standing.{Sizes, Paged, Keeps, Stands, IsRoot, IsTree};
ghost use Rattle.tree_spec.specs.Worlds.{IsWorld, greatest_count, slack, with_tree};
ghost use Rattle.tree_spec.specs.Changes.{Turns, Within};

/// A tree stands where its pages are as they were.
pub fn kept_pages_keep_a_tree()
    ensures { (sizes : Sizes) (old new : Paged) (kind : TreeKind) (levels : ℕ) (tree : TreeOf levels) →
        Keeps (pages_of levels tree) old new → Stands sizes old kind levels tree → Stands sizes new kind levels tree }
{}

/// One tree stands at a root: as a value, and by its kind, its depth, its list and its pages.
pub fn one_tree_at_a_root()
    ensures value { (sizes : Sizes) (base : Paged) (a b : Rooted) → root_of a ≡ root_of b
        → Stands sizes base a.kind a.levels a.tree → Stands sizes base b.kind b.levels b.tree → a ≡ b }
    ensures told { (sizes : Sizes) (base : Paged) (root : ℕ) (kind other : TreeKind) (depth deep : ℕ) (members also : List Member) (numbers more : List ℕ)
        → IsTree sizes base root kind depth members numbers → IsTree sizes base root other deep also more
        → (kind ≡ other) × (depth ≡ deep) × (members ≡ also) × (numbers ≡ more) }
{}

/// The rowids of a table strictly rise.
pub fn table_rowids_rise()
    ensures { (sizes : Sizes) (base : Paged) (root depth : ℕ) (members : List Member) (numbers : List ℕ)
        → IsTree sizes base root Table depth members numbers → AllPairs (λ (a b : Member). a.rowid <ℤ b.rowid) members }
{}

/// Trees whose pages have cells double their pages with each level, so that no tree of a world is deeper than a cursor can go.
pub fn trees_are_not_deep()
    ensures pages { (levels : ℕ) (tree : TreeOf levels) → IsFullRoot levels tree → 2 ^ levels ≤ length (pages_of levels tree) }
    ensures depth { (sizes : Sizes) (base : Paged) (front : List Rooted) (rooted : Rooted) (back : List Rooted) (trunks : List Trunk)
        → IsWorld sizes base (with_tree front rooted back trunks) → depth_of rooted ≤ greatest_depth }
{}

/// Each tree of a world is the tree of its root.
pub fn world_has_trees()
    ensures { (sizes : Sizes) (base : Paged) (front : List Rooted) (rooted : Rooted) (back : List Rooted) (trunks : List Trunk)
        → IsWorld sizes base (with_tree front rooted back trunks) → IsTree sizes base (root_of rooted) rooted.kind (depth_of rooted) (list_in rooted) (pages_in rooted) }
{}

/// A change and another one behind it are one change.
pub fn changes_join()
    ensures { (sizes : Sizes) (old between new : Paged) (hand held later : List ℕ) (trunks some rest : List Trunk) → Within sizes old hand trunks
        → Turns sizes old hand trunks between held some → Turns sizes between held some new later rest → Turns sizes old hand trunks new later rest }
{}

/// A change of one tree and of the freelist gives the world with this tree in its new form, and all others as they were.
pub fn changed_world()
    ensures { (sizes : Sizes) (old new : Paged) (front back : List Rooted) (before after : Rooted) (trunks rest : List Trunk)
        → IsWorld sizes old (with_tree front before back trunks) → Turns sizes old (pages_in before) trunks new (pages_in after) rest
        → IsRoot sizes new after → root_of after ≡ root_of before → new.count ≤ greatest_count → IsWorld sizes new (with_tree front after back rest) }
{}

/// Where no page is added past the limit, the pages that can still be taken become fewer by one for each page taken, and more by one for each given back.
pub fn slack_is_kept()
    ensures { (sizes : Sizes) (old new : Paged) (hand later : List ℕ) (trunks rest : List Trunk) (limit : ℕ) → Within sizes old hand trunks
        → Turns sizes old hand trunks new later rest → new.count ≤ max limit old.count
        → slack sizes new limit rest + length later ≡ slack sizes old limit trunks + length hand }
{}
