// Laws about the definitions.
ghost use Rattle.std.specs.Prelude.{◌≡◌, ◌≢◌, ◌⊎◌, ◌↔◌, Contains, ◌-◌, ◌<◌, ◌≤◌, ℕ, zero, suc, List, [], ◌∷◌, ◌++◌, length, map, slice_index_or, slice_set};
ghost use Rattle.std.specs.List.{insert};
ghost use Rattle.page_spec.specs.Freelists.{Trunk};
ghost use Rattle.tree_spec.specs.declared.TreeKind.{TreeKind};
ghost use Rattle.tree_spec.specs.declared.TreeKind.TheVariants.{Table, Index};
ghost use Rattle.tree_spec.specs.Trees.{Member, TreeCell, TreeOf, Rooted, root_of, leaf_kind, interior_kind, kind_at, page_of, own_cells, own_right, cells_behind};
ghost use Rattle.tree_spec.specs.Standing.{Sizes, Paged, IsNumber, IsHeld, IsBehind, HasOwnPage, Stands};
ghost use Rattle.tree_spec.specs.Worlds.{IsWorld, greatest_count, with_tree};
ghost use Rattle.tree_spec.specs.Changes.{Within, Turns, Writes};
ghost use Rattle.put_spec.specs.Children.{Belongs, Meets, PutIn, Rises, views_of};
ghost use Rattle.put_spec.specs.Puts.{Before, After, HasRowid, before_of, hand_before, child_before, interior_after, leaf_after, IsCut, cut_after, moved, deeper, IsReady, IsOpened, IsPut, IsRootPut};
ghost use Rattle.put_spec.specs.Steps.{Spelled, spelled, views_in, HasCells, child_page, with_dividers, IsSettled, IsRooted, PutBelow, PutAt, PutUnder, PutInto, IsDeepened, IsLeafEdit, GivesBack, IsWorldPut};

/// Where a child has had the put, its parent has, but for the writing of its own page.
pub fn put_child_opens_its_parent()
    ensures { (sizes : Sizes) (kind : TreeKind) (levels : ℕ) (before : Before (suc levels)) (i : ℕ) (after : After levels)
        → Within sizes before.base (hand_before before) before.trunks → Stands sizes before.base kind (suc levels) before.tree
        → (kind ≡ Table → Belongs before.cell.view.rowid i (views_of (cells_behind before.tree.children)))
        → IsPut sizes kind levels (child_before levels before i) after → IsOpened sizes kind (suc levels) before (interior_after levels before i after) }
{}

/// A page that is still to be written may be cut, its front on a page that was taken.
pub fn cut_page_is_opened()
    ensures { (sizes : Sizes) (kind : TreeKind) (levels : ℕ) (before : Before levels) (after : After levels)
        (left : TreeOf levels) (divider : TreeCell) (right : TreeOf levels) (base : Paged) (trunks : List Trunk)
        → IsOpened sizes kind levels before after → IsCut levels kind after.home left divider right
        → Turns sizes after.base [] after.trunks base (page_of levels left ∷ []) trunks → HasOwnPage sizes base kind levels left
        → IsBehind sizes base (interior_kind kind) divider (page_of levels left)
        → 0 < length (own_cells levels left) → 0 < length (own_cells levels right)
        → IsOpened sizes kind levels before (cut_after levels after left divider right base trunks) }
{}

/// Once its own page is written, the put below a page is done.
pub fn written_page_is_put()
    ensures { (sizes : Sizes) (kind : TreeKind) (levels : ℕ) (before : Before levels) (after : After levels) (base : Paged)
        → IsOpened sizes kind levels before after → Writes (page_of levels after.home) after.base base
        → HasOwnPage sizes base kind levels after.home → IsPut sizes kind levels before (record after { base = base }) }
{}

/// A root beside which no sibling stands needs no new level.
pub fn root_stays()
    ensures { (sizes : Sizes) (kind : TreeKind) (levels : ℕ) (before : Before levels) (after : After levels)
        → IsPut sizes kind levels before after → after.siblings ≡ []
        → IsRootPut sizes kind levels before after.base (record { kind = kind; levels = levels; tree = after.home }) after.first after.bytes after.chain after.trunks }
{}

/// A root beside which siblings stand gets a new level: what its page had goes to a page that was taken.
pub fn root_gets_a_level()
    ensures { (sizes : Sizes) (kind : TreeKind) (levels : ℕ) (before : Before levels) (after : After levels) (fresh : ℕ) (between new : Paged) (trunks : List Trunk)
        → IsPut sizes kind levels before after → Turns sizes after.base [] after.trunks between (fresh ∷ []) trunks
        → IsNumber sizes between fresh → HasOwnPage sizes between kind levels (moved levels fresh after.home)
        → Writes (page_of levels after.home) between new → HasOwnPage sizes new kind (suc levels) (deeper levels after fresh) → 0 < length after.siblings
        → IsRootPut sizes kind levels before new (record { kind = kind; levels = suc levels; tree = deeper levels after fresh }) after.first after.bytes after.chain trunks }
{}

/// A root whose page has no room for what it is to have gives that to a page that was taken, and gets a level. In page 1, which has less room than others, it may be left without a cell.
pub fn root_moves_out()
    ensures { (sizes : Sizes) (kind : TreeKind) (levels : ℕ) (before : Before levels) (after : After levels) (fresh : ℕ) (between new : Paged) (trunks : List Trunk)
        → IsOpened sizes kind levels before after → Turns sizes after.base [] after.trunks between (fresh ∷ []) trunks
        → IsNumber sizes between fresh → HasOwnPage sizes between kind levels (moved levels fresh after.home)
        → Writes (page_of levels after.home) between new → HasOwnPage sizes new kind (suc levels) (deeper levels after fresh)
        → 0 < length (own_cells levels after.home) → (page_of levels after.home ≢ 1 → 0 < length after.siblings)
        → IsRootPut sizes kind levels before new (record { kind = kind; levels = suc levels; tree = deeper levels after fresh }) after.first after.bytes after.chain trunks }
{}

/// A cell is put among the cells of a leaf that has none of its rowid.
pub fn cell_is_put_in_a_leaf()
    ensures { (sizes : Sizes) (kind : TreeKind) (before : Before zero) (i : ℕ) → IsReady sizes kind zero before → i ≤ length before.tree.cells
        → (kind ≡ Table → Belongs before.cell.view.rowid i (views_of before.tree.cells) × ¬ Meets before.cell.view.rowid i (views_of before.tree.cells))
        → IsOpened sizes kind zero before (leaf_after before (insert before.tree.cells i before.cell) 0 0 []) }
{}

/// A cell takes the place of the one of its rowid, whose overflow chain is in hand then.
pub fn cell_is_replaced_in_a_leaf()
    ensures { (sizes : Sizes) (before : Before zero) (i : ℕ) → IsReady sizes Table zero before → Meets before.cell.view.rowid i (views_of before.tree.cells)
        → let was = slice_index_or before.tree.cells i before.cell in
        IsOpened sizes Table zero before (leaf_after before (slice_set before.tree.cells i before.cell) was.view.overflow (was.view.payload - was.view.local) was.chain) }
{}

/// In a world, once the overflow chain of a cell is written, a put of that cell may begin.
pub fn put_begins_in_a_world()
    ensures { (sizes : Sizes) (front : List Rooted) (old : Rooted) (back : List Rooted) (cell : TreeCell) (a b : Paged) (p q : List Trunk)
        → IsWorld sizes a (with_tree front old back p) → Turns sizes a [] p b cell.chain q → IsHeld sizes b (leaf_kind old.kind) cell
        → IsReady sizes old.kind old.levels (before_of old b q cell) }
{}

/// The chain of a cell is written, the cell is put, and the chain of the cell that it replaced is given back: the world holds again, and all other trees are as they were.
pub fn put_gives_a_world()
    ensures { (sizes : Sizes) (front : List Rooted) (old : Rooted) (back : List Rooted) (cell : TreeCell) (a b c d : Paged) (new : Rooted) (first bytes : ℕ) (gone : List ℕ) (p q r s : List Trunk)
        → IsWorld sizes a (with_tree front old back p) → Turns sizes a [] p b cell.chain q
        → HasRowid old.kind cell → IsRootPut sizes old.kind old.levels (before_of old b q cell) c new first bytes gone r
        → Turns sizes c gone r d [] s → d.count ≤ greatest_count → IsWorld sizes d (with_tree front new back s) }
{}

/// A page that has some cells, spelled so, is that of the tree that stands there: its own cells are these.
pub fn page_tells_its_tree()
    ensures { (sizes : Sizes) (base : Paged) (kind : TreeKind) (levels page : ℕ) (tree : TreeOf levels) (cells : List Spelled) (right : ℕ) → page_of levels tree ≡ page
        → HasCells sizes base (kind_at kind levels) page cells right → Stands sizes base kind levels tree
        → (cells ≡ map spelled (own_cells levels tree)) × (right ≡ own_right levels tree) }
{}

/// A cell is put among the cells of a leaf, or in a table in place of the one of its rowid, and the leaf is settled: the put below this page is done.
pub fn leaf_has_the_cell()
    ensures table { (sizes : Sizes) (page : ℕ) (cell : Spelled) (old : Paged) (cells : List Spelled) (right : ℕ) (edited : List Spelled) (first bytes : ℕ) (new : Paged) (dividers : List Spelled)
        → HasCells sizes old (leaf_kind Table) page cells right → IsLeafEdit cells cell edited first bytes
        → IsSettled sizes zero Table page 0 edited old new dividers → PutBelow sizes Table zero page cell old new dividers first bytes }
    ensures index { (sizes : Sizes) (page : ℕ) (cell : Spelled) (old : Paged) (cells : List Spelled) (right at : ℕ) (new : Paged) (dividers : List Spelled)
        → HasCells sizes old (leaf_kind Index) page cells right → at ≤ length cells
        → IsSettled sizes zero Index page 0 (insert cells at cell) old new dividers → PutBelow sizes Index zero page cell old new dividers 0 0 }
{}

/// A put below the child at the place where the cell belongs is one below its parent: once the parent is settled with the dividers that came, or, where none came, as it stands.
pub fn parent_has_the_cell()
    ensures settled { (sizes : Sizes) (kind : TreeKind) (levels page : ℕ) (cell : Spelled) (old : Paged) (cells : List Spelled) (right at : ℕ) (between : Paged) (grew : List Spelled)
        (first bytes : ℕ) (new : Paged) (dividers : List Spelled)
        → HasCells sizes old (interior_kind kind) page cells right → at ≤ length cells → (kind ≡ Table → Belongs cell.view.rowid at (views_in cells))
        → PutBelow sizes kind levels (child_page at cells right) cell old between grew first bytes
        → IsSettled sizes (suc levels) kind page right (with_dividers cells at grew) between new dividers → PutBelow sizes kind (suc levels) page cell old new dividers first bytes }
    ensures untouched { (sizes : Sizes) (kind : TreeKind) (levels page : ℕ) (cell : Spelled) (old : Paged) (cells : List Spelled) (right at : ℕ) (new : Paged) (first bytes : ℕ)
        → HasCells sizes old (interior_kind kind) page cells right → (kind ≡ Table → Belongs cell.view.rowid at (views_in cells))
        → PutBelow sizes kind levels (child_page at cells right) cell old new [] first bytes → PutBelow sizes kind (suc levels) page cell old new [] first bytes }
{}

/// A put below a root's page is a put into its tree: as the root stands where no divider came, and once it got a level where some did.
pub fn root_has_the_cell()
    ensures stays { (sizes : Sizes) (kind : TreeKind) (levels root : ℕ) (cell : Spelled) (old new : Paged) (first bytes : ℕ)
        → PutBelow sizes kind levels root cell old new [] first bytes → PutAt sizes kind levels root cell old new first bytes }
    ensures deepened { (sizes : Sizes) (kind : TreeKind) (levels root : ℕ) (cell : Spelled) (old between new : Paged) (dividers : List Spelled) (first bytes : ℕ)
        → PutBelow sizes kind levels root cell old between dividers first bytes
        → IsDeepened sizes (kind_at kind levels) kind root dividers between new → PutAt sizes kind levels root cell old new first bytes }
{}

/// A root that keeps the cells that it is to have, or from which they are moved out to pages that are taken, has the cell, whatever levels its tree has.
pub fn root_keeps_or_moves_out()
    ensures leaf { (sizes : Sizes) (root : ℕ) (cell : Spelled) (old : Paged) (cells : List Spelled) (right : ℕ) (edited : List Spelled) (first bytes : ℕ) (new : Paged)
        → HasCells sizes old (leaf_kind Table) root cells right → IsLeafEdit cells cell edited first bytes → IsRooted sizes zero Table root 0 edited old new → PutInto sizes Table root cell old new first bytes }
    ensures interior { (sizes : Sizes) (kind : TreeKind) (root : ℕ) (cell : Spelled) (old : Paged) (cells : List Spelled) (right at : ℕ) (between : Paged) (grew : List Spelled) (first bytes : ℕ) (new : Paged)
        → HasCells sizes old (interior_kind kind) root cells right → at ≤ length cells → (kind ≡ Table → Belongs cell.view.rowid at (views_in cells))
        → PutUnder sizes kind (child_page at cells right) cell old between grew first bytes
        → ((levels : ℕ) → IsRooted sizes (suc levels) kind root right (with_dividers cells at grew) between new) → PutInto sizes kind root cell old new first bytes }
    ensures untouched { (sizes : Sizes) (kind : TreeKind) (root : ℕ) (cell : Spelled) (old : Paged) (cells : List Spelled) (right at : ℕ) (new : Paged) (first bytes : ℕ)
        → HasCells sizes old (interior_kind kind) root cells right → (kind ≡ Table → Belongs cell.view.rowid at (views_in cells))
        → PutUnder sizes kind (child_page at cells right) cell old new [] first bytes → PutInto sizes kind root cell old new first bytes }
{}

/// What a writer did in a world is a put into one of its trees: the world holds again, this tree's list has the member, and all other trees are as they were.
pub fn writer_keeps_the_world()
    ensures { (sizes : Sizes) (front : List Rooted) (old : Rooted) (back : List Rooted) (cell : TreeCell) (a b c d : Paged) (first bytes : ℕ) (p q : List Trunk)
        → IsWorld sizes a (with_tree front old back p) → Turns sizes a [] p b cell.chain q → IsHeld sizes b (leaf_kind old.kind) cell
        → HasRowid old.kind cell → PutAt sizes old.kind old.levels (root_of old) (spelled cell) b c first bytes
        → GivesBack sizes first bytes c d → d.count ≤ greatest_count → IsWorldPut sizes front old back cell d }
{}

/// After a put into a table its member is the one of its rowid, and the members of other rowids are those that were there.
pub fn put_changes_one_row()
    ensures { (put : Member) (old new : List Member) → PutIn Table put old new → Rises new
        → (m : Member) → Contains new m ↔ ((m ≡ put) ⊎ (Contains old m × (m.rowid ≢ put.rowid))) }
{}

/// A writer need not know how many levels a tree has: the kind of a page tells whether it has some.
pub fn depth_need_not_be_known()
    ensures leaf { (sizes : Sizes) (kind : TreeKind) (page : ℕ) (cell : Spelled) (old : Paged) (cells : List Spelled) (right : ℕ) (new : Paged) (dividers : List Spelled) (first bytes : ℕ)
        → HasCells sizes old (leaf_kind kind) page cells right → PutBelow sizes kind zero page cell old new dividers first bytes → PutUnder sizes kind page cell old new dividers first bytes }
    ensures interior { (sizes : Sizes) (kind : TreeKind) (page : ℕ) (cell : Spelled) (old : Paged) (cells : List Spelled) (right : ℕ) (new : Paged) (dividers : List Spelled) (first bytes : ℕ)
        → HasCells sizes old (interior_kind kind) page cells right → ((levels : ℕ) → PutBelow sizes kind (suc levels) page cell old new dividers first bytes)
        → PutUnder sizes kind page cell old new dividers first bytes }
    ensures leaf_root { (sizes : Sizes) (kind : TreeKind) (root : ℕ) (cell : Spelled) (old between new : Paged) (dividers : List Spelled) (first bytes : ℕ)
        → PutUnder sizes kind root cell old between dividers first bytes → IsDeepened sizes (leaf_kind kind) kind root dividers between new → PutInto sizes kind root cell old new first bytes }
    ensures interior_root { (sizes : Sizes) (kind : TreeKind) (root : ℕ) (cell : Spelled) (old between new : Paged) (dividers : List Spelled) (first bytes : ℕ)
        → PutUnder sizes kind root cell old between dividers first bytes → IsDeepened sizes (interior_kind kind) kind root dividers between new → PutInto sizes kind root cell old new first bytes }
{}
