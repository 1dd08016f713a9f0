// The laws of deletes as contracts, so that they are proved here: crates above cite them from specs/.
ghost use Rattle.std.specs.Prelude.{◌≡◌, ◌≢◌, ◌⊎◌, ◌↔◌, ℕ, ℤ, zero, suc, ◌+◌, ◌-◌, ◌<◌, ◌≤◌, List, [], ◌∷◌, ◌++◌, length, max, Contains};
ghost use Rattle.std.specs.List.{AllByRecursion};
ghost use Rattle.format_spec.specs.declared.PageKind.TheVariants.{TableInterior, TableLeaf};
ghost use Rattle.format_spec.specs.Cell.{IsCell};
ghost use Rattle.format_spec.specs.Page.{IsPage};
ghost use Rattle.page_spec.specs.Freelists.{Trunk};
ghost use Rattle.tree_spec.specs.declared.TreeKind.TheVariants.{Table};
ghost use Rattle.tree_spec.specs.Trees.{Member, TreeCell, TreeOf, Leaf, Rooted, interior_kind, kind_at, page_of, pages_of, pages_in, list_in, own_cells, member, root_of, IsFull};
ghost use Rattle.tree_spec.specs.Standing.{Sizes, Paged, SamePage, IsNumber, IsHeld, IsBehind, HasOwnPage, HasBelow, Stands};
ghost use Rattle.tree_spec.specs.Worlds.{IsWorld, with_tree, greatest_count, slack};
ghost use Rattle.tree_spec.specs.Changes.{Within, Turns, Writes};
ghost use Rattle.put_spec.specs.Children.{Belongs, Meets, Rises, child_at, children_with, last_with};
ghost use Rattle.put_spec.specs.Puts.{After, IsInteriorCut, cut_after, moved, deeper};
ghost use Rattle.put_spec.specs.Steps.{Spelled, bytes_in, views_in, HasCells, child_page, with_dividers, IsSettled, IsRooted, Releases, GivesBack};
ghost use Rattle.delete_spec.specs.Deletes.{TakenOut, Before, hand_of, alone, pair, became, parent_with, IsOpened, IsLoose, IsDeleted, IsSunk, IsRootDeleted, IsWorldDeleted};
ghost use Rattle.delete_spec.specs.Steps.{IsPayload, OpensUnder, GrowsUnder, EmptiesPage, DeleteInto, MissingUnder};

/// A cell is taken out of a leaf, and its overflow chain is in hand then.
pub fn cell_is_taken_out_of_a_leaf()
    ensures { (sizes : Sizes) (base : Paged) (tree : Leaf) (trunks : List Trunk) (front : List TreeCell) (cell : TreeCell) (back : List TreeCell) → Within sizes base (pages_of zero tree) trunks
        → Stands sizes base Table zero tree → tree.cells ≡ front ++ cell ∷ back
        → IsOpened sizes zero (member cell) (alone zero base tree trunks)
        (record { base = base; siblings = []; home = record { page = tree.page; cells = front ++ back }; trunks = trunks; first = cell.view.overflow; bytes = cell.view.payload - cell.view.local; chain = cell.chain }) }
{}

/// One of two neighbours has had the delete, and may have no cell any more.
pub fn neighbour_of_a_delete_stays()
    ensures left { (sizes : Sizes) (levels : ℕ) (gone : Member) (base : Paged) (left : TreeOf levels) (divider : TreeCell) (right : TreeOf levels) (trunks : List Trunk) (after : After levels)
        → Within sizes base (hand_of (pair levels base left divider right trunks)) trunks → HasBelow sizes base Table levels right
        → IsOpened sizes levels gone (alone levels base left trunks) after → after.siblings ≡ []
        → IsLoose sizes levels gone (pair levels base left divider right trunks) (became levels levels after ((after.home, divider) ∷ []) right after.base after.trunks) }
    ensures right { (sizes : Sizes) (levels : ℕ) (gone : Member) (base : Paged) (left : TreeOf levels) (divider : TreeCell) (right : TreeOf levels) (trunks : List Trunk) (after : After levels)
        → Within sizes base (hand_of (pair levels base left divider right trunks)) trunks → HasBelow sizes base Table levels left
        → IsOpened sizes levels gone (alone levels base right trunks) after → after.siblings ≡ []
        → IsLoose sizes levels gone (pair levels base left divider right trunks) (became levels levels after ((left, divider) ∷ []) after.home after.base after.trunks) }
{}

/// A leaf that has no cell any more is given back, and with it the cell between it and its neighbour goes.
pub fn emptied_leaf_goes()
    ensures left { (sizes : Sizes) (gone : Member) (before : Before zero) (after : After zero) (left : Leaf) (divider : TreeCell) (right : Leaf) (base : Paged) (trunks : List Trunk)
        → IsLoose sizes zero gone before (became zero zero after ((left, divider) ∷ []) right after.base after.trunks) → left.cells ≡ [] → IsHeld sizes after.base (interior_kind Table) divider
        → HasOwnPage sizes after.base Table zero right → Turns sizes after.base (left.page ∷ []) after.trunks base [] trunks
        → IsDeleted sizes zero gone before (became zero zero after [] right base trunks) }
    ensures right { (sizes : Sizes) (gone : Member) (before : Before zero) (after : After zero) (left : Leaf) (divider : TreeCell) (right : Leaf) (base : Paged) (trunks : List Trunk)
        → IsLoose sizes zero gone before (became zero zero after ((left, divider) ∷ []) right after.base after.trunks) → right.cells ≡ [] → IsHeld sizes after.base (interior_kind Table) divider
        → HasOwnPage sizes after.base Table zero left → Turns sizes after.base (right.page ∷ []) after.trunks base [] trunks
        → IsDeleted sizes zero gone before (became zero zero after [] left base trunks) }
{}

/// Two interior pages are joined over the divider between them, which comes down, in the page of the right one. The other page is given back.
pub fn neighbours_are_joined()
    ensures { (sizes : Sizes) (levels : ℕ) (gone : Member) (before : Before (suc levels)) (after : After (suc levels)) (left : TreeOf (suc levels)) (divider : TreeCell) (right whole : TreeOf (suc levels)) (base : Paged) (trunks : List Trunk)
        → IsLoose sizes (suc levels) gone before (became (suc levels) (suc levels) after ((left, divider) ∷ []) right after.base after.trunks) → (cut : IsInteriorCut whole left divider right)
        → IsBehind sizes after.base (interior_kind Table) cut.middle (page_of levels left.last) → Turns sizes after.base (left.page ∷ []) after.trunks base [] trunks
        → IsOpened sizes (suc levels) gone before (became (suc levels) (suc levels) after [] whole base trunks) }
{}

/// What became of one child, or of two neighbours, makes their parent, but for the writing of its own page.
pub fn group_makes_its_parent()
    ensures { (sizes : Sizes) (levels : ℕ) (gone : Member) (page i : ℕ) (children : List (TreeOf levels × TreeCell)) (last : TreeOf levels) (before : Before levels) (after : After levels)
        → Within sizes before.base (pages_of (suc levels) (parent_with levels page i children last before.siblings before.home)) before.trunks
        → Stands sizes before.base Table (suc levels) (parent_with levels page i children last before.siblings before.home)
        → IsDeleted sizes levels gone before after → IsNumber sizes after.base (page_of levels after.home) → (page_of levels after.home ≡ page_of levels before.home) ⊎ (length children ≤ i)
        → (AllByRecursion (λ sibling. IsFull levels sibling.0) before.siblings → IsFull levels before.home → 0 < length (own_cells levels after.home))
        → IsOpened sizes (suc levels) gone (alone (suc levels) before.base (parent_with levels page i children last before.siblings before.home) before.trunks)
        (became levels (suc levels) after [] (parent_with levels page i children last after.siblings after.home) after.base after.trunks) }
{}

/// A child is a group among the children of a page, and so are a child, the cell behind it and the next child.
pub fn children_are_groups()
    ensures one { (levels i : ℕ) (children : List (TreeOf levels × TreeCell)) (last : TreeOf levels)
        → (children_with i children [] (child_at i children last) ≡ children) × (last_with i children last (child_at i children last) ≡ last) }
    ensures two { (levels : ℕ) (front : List (TreeOf levels × TreeCell)) (left : TreeOf levels) (divider : TreeCell) (back : List (TreeOf levels × TreeCell)) (last : TreeOf levels)
        → let right = child_at (length front) (front ++ back) last in
        (children_with (length front) (front ++ back) ((left, divider) ∷ []) right ≡ front ++ (left, divider) ∷ back) × (last_with (length front) (front ++ back) last right ≡ last) }
{}

/// An interior page that has no room for what it is to have, since a divider became longer, is cut, its front on a page that was taken.
pub fn opened_page_is_cut()
    ensures { (sizes : Sizes) (levels : ℕ) (gone : Member) (before : Before (suc levels)) (after : After (suc levels)) (left : TreeOf (suc levels)) (divider : TreeCell) (right : TreeOf (suc levels)) (base : Paged) (trunks : List Trunk)
        → IsOpened sizes (suc levels) gone before after → IsInteriorCut after.home left divider right → Turns sizes after.base [] after.trunks base (left.page ∷ []) trunks
        → HasOwnPage sizes base Table (suc levels) left → IsBehind sizes base (interior_kind Table) divider left.page
        → 0 < length (own_cells (suc levels) left) → 0 < length (own_cells (suc levels) right) → IsOpened sizes (suc levels) gone before (cut_after (suc levels) after left divider right base trunks) }
{}

/// Once its own page is written, the delete below a page is done; a parent of which no cell changed need not be written.
pub fn written_page_has_the_delete()
    ensures written { (sizes : Sizes) (levels : ℕ) (gone : Member) (before : Before levels) (after : After levels) (base : Paged) → IsOpened sizes levels gone before after
        → Writes (page_of levels after.home) after.base base → HasOwnPage sizes base Table levels after.home
        → IsDeleted sizes levels gone before (became levels levels after after.siblings after.home base after.trunks) }
    ensures untouched { (sizes : Sizes) (levels : ℕ) (gone : Member) (page i : ℕ) (children : List (TreeOf levels × TreeCell)) (last : TreeOf levels) (before : Before levels) (after : After levels)
        → IsOpened sizes (suc levels) gone (alone (suc levels) before.base (parent_with levels page i children last [] before.home) before.trunks)
        (became levels (suc levels) after [] (parent_with levels page i children last [] after.home) after.base after.trunks)
        → page_of levels after.home ≡ page_of levels before.home → HasOwnPage sizes before.base Table (suc levels) (parent_with levels page i children last [] before.home)
        → SamePage page (before.base.pages page) (after.base.pages page)
        → IsDeleted sizes (suc levels) gone (alone (suc levels) before.base (parent_with levels page i children last [] before.home) before.trunks)
        (became levels (suc levels) after [] (parent_with levels page i children last [] after.home) after.base after.trunks) }
{}

/// A root stays where it keeps a cell, or needs none. Else it takes the content of its only child, whose page is given back. Where it was cut, since a divider became longer, it gets a level.
pub fn root_has_the_delete()
    ensures stays { (sizes : Sizes) (levels : ℕ) (gone : Member) (base : Paged) (tree : TreeOf levels) (trunks : List Trunk) (after : After levels) → IsDeleted sizes levels gone (alone levels base tree trunks) after
        → after.siblings ≡ [] → page_of levels after.home ≡ page_of levels tree → (0 < levels → page_of levels after.home ≢ 1 → 0 < length (own_cells levels after.home))
        → IsRootDeleted sizes levels gone base tree trunks after.base (record { kind = Table; levels = levels; tree = after.home }) after.first after.bytes after.chain after.trunks }
    ensures sinks { (sizes : Sizes) (levels : ℕ) (gone : Member) (page : ℕ) (before : Before levels) (after : After levels) (mid new : Paged) (trunks : List Trunk) → IsSunk sizes levels gone page before after
        → Within sizes before.base (page ∷ hand_of before) before.trunks → Writes page after.base mid → HasOwnPage sizes mid Table levels (moved levels page after.home)
        → Turns sizes mid (page_of levels after.home ∷ []) after.trunks new [] trunks
        → IsRootDeleted sizes (suc levels) gone before.base (record { page = page; children = before.siblings; last = before.home }) before.trunks new
        (record { kind = Table; levels = levels; tree = moved levels page after.home }) after.first after.bytes after.chain trunks }
    ensures rises { (sizes : Sizes) (levels : ℕ) (gone : Member) (before : Before levels) (after : After levels) (fresh : ℕ) (mid new : Paged) (trunks : List Trunk) → IsOpened sizes levels gone before after → before.siblings ≡ []
        → page_of levels after.home ≡ page_of levels before.home → Turns sizes after.base [] after.trunks mid (fresh ∷ []) trunks → IsNumber sizes mid fresh → HasOwnPage sizes mid Table levels (moved levels fresh after.home)
        → Writes (page_of levels after.home) mid new → HasOwnPage sizes new Table (suc levels) (deeper levels after fresh) → 0 < length (own_cells levels after.home)
        → (page_of levels after.home ≢ 1 → 0 < length (own_cells (suc levels) (deeper levels after fresh)))
        → IsRootDeleted sizes levels gone before.base before.home before.trunks new (record { kind = Table; levels = suc levels; tree = deeper levels after fresh }) after.first after.bytes after.chain trunks }
{}

/// A row is out of one table, and its overflow chain is given back: the world holds again, all other trees are as they were, and the pages that the tree has no longer can be taken.
pub fn world_has_the_delete()
    ensures world { (sizes : Sizes) (gone : Member) (front : List Rooted) (old : Rooted) (back : List Rooted) (a b c : Paged) (new : Rooted) (first bytes : ℕ) (chain : List ℕ) (p q r : List Trunk) → old.kind ≡ Table → IsWorld sizes a (with_tree front old back p)
        → IsRootDeleted sizes old.levels gone a old.tree p b new first bytes chain q → Turns sizes b chain q c [] r → c.count ≤ greatest_count → IsWorldDeleted sizes gone front old back a p c }
    ensures slack { (sizes : Sizes) (gone : Member) (front : List Rooted) (old : Rooted) (back : List Rooted) (a c : Paged) (p : List Trunk) (limit : ℕ) → IsWorld sizes a (with_tree front old back p) → (is : IsWorldDeleted sizes gone front old back a p c) → c.count ≤ max limit a.count
        → slack sizes c limit is.trunks + length (pages_in is.new) ≡ slack sizes a limit p + length (pages_in old) }
{}

/// After a delete from a table its members are those that were there, but for the one of the rowid, which was there.
pub fn delete_changes_one_row()
    ensures others { (gone : Member) (old new : List Member) → TakenOut gone old new → Rises old → (m : Member) → Contains new m ↔ (Contains old m × (m.rowid ≢ gone.rowid)) }
    ensures was { (gone : Member) (old new : List Member) → TakenOut gone old new → Contains old gone }
{}

/// A leaf loses the cell of a row. It is written without it, unless it has no other and is no root.
pub fn leaf_loses_a_row()
    ensures opens { (sizes : Sizes) (gone : Member) (first bytes page : ℕ) (old : Paged) (cells : List Spelled) (right : ℕ) (front : List Spelled) (cell : Spelled) (back : List Spelled) → HasCells sizes old TableLeaf page cells right
        → cells ≡ front ++ cell ∷ back → gone.rowid ≡ cell.view.rowid → IsPayload sizes old cell gone.payload → first ≡ cell.view.overflow → bytes ≡ cell.view.payload - cell.view.local
        → OpensUnder sizes gone page (front ++ back) 0 old old first bytes }
    ensures written { (sizes : Sizes) (gone : Member) (first bytes page : ℕ) (old : Paged) (cells : List Spelled) (right : ℕ) (opened : List Spelled) (new : Paged) → HasCells sizes old TableLeaf page cells right
        → OpensUnder sizes gone page opened 0 old old first bytes → 0 < length opened → Writes page old new → IsPage (new.pages page) page sizes.usable TableLeaf (bytes_in opened) 0 → GrowsUnder sizes gone page old new [] first bytes }
    ensures root { (sizes : Sizes) (gone : Member) (first bytes root : ℕ) (old : Paged) (cells : List Spelled) (right : ℕ) (opened : List Spelled) (new : Paged) → HasCells sizes old TableLeaf root cells right
        → OpensUnder sizes gone root opened 0 old old first bytes → Writes root old new → IsPage (new.pages root) root sizes.usable TableLeaf (bytes_in opened) 0 → DeleteInto sizes gone root old new first bytes }
{}

/// Where a child was cut the page is to have the dividers that came, and is settled, or a root's cells are moved out. Where no divider came the page is not written.
pub fn parent_of_a_delete()
    ensures grown { (sizes : Sizes) (gone : Member) (first bytes page : ℕ) (old : Paged) (cells : List Spelled) (right at : ℕ) (between : Paged) (grew : List Spelled) → HasCells sizes old TableInterior page cells right
        → at ≤ length cells → GrowsUnder sizes gone (child_page at cells right) old between grew first bytes → OpensUnder sizes gone page (with_dividers cells at grew) right old between first bytes }
    ensures stays { (sizes : Sizes) (gone : Member) (first bytes page : ℕ) (old : Paged) (cells : List Spelled) (right at : ℕ) (new : Paged) → HasCells sizes old TableInterior page cells right → 0 < length cells
        → GrowsUnder sizes gone (child_page at cells right) old new [] first bytes → GrowsUnder sizes gone page old new [] first bytes }
    ensures root_stays { (sizes : Sizes) (gone : Member) (first bytes root : ℕ) (old : Paged) (cells : List Spelled) (right at : ℕ) (new : Paged) → HasCells sizes old TableInterior root cells right → (root ≢ 1 → 0 < length cells)
        → GrowsUnder sizes gone (child_page at cells right) old new [] first bytes → DeleteInto sizes gone root old new first bytes }
    ensures settled { (sizes : Sizes) (gone : Member) (first bytes page : ℕ) (old : Paged) (cells : List Spelled) (right : ℕ) (opened : List Spelled) (its_right : ℕ) (mid new : Paged) (dividers : List Spelled)
        → HasCells sizes old TableInterior page cells right → OpensUnder sizes gone page opened its_right old mid first bytes → 0 < length opened
        → ((levels : ℕ) → IsSettled sizes (suc levels) Table page its_right opened mid new dividers) → GrowsUnder sizes gone page old new dividers first bytes }
    ensures rooted { (sizes : Sizes) (gone : Member) (first bytes root : ℕ) (old : Paged) (cells : List Spelled) (right : ℕ) (opened : List Spelled) (its_right : ℕ) (mid new : Paged) → HasCells sizes old TableInterior root cells right
        → OpensUnder sizes gone root opened its_right old mid first bytes → (root ≢ 1 → 0 < length opened) → ((levels : ℕ) → IsRooted sizes (suc levels) Table root its_right opened mid new) → DeleteInto sizes gone root old new first bytes }
{}

/// The parent of a leaf that goes is to have its cells without the one that names it; where the last leaf goes, the one before it becomes the right child.
pub fn leaf_that_goes_leaves_its_parent()
    ensures named { (sizes : Sizes) (gone : Member) (first bytes page : ℕ) (old : Paged) (cells : List Spelled) (right : ℕ) (front : List Spelled) (cell : Spelled) (back : List Spelled) (mid given : Paged)
        → HasCells sizes old TableInterior page cells right → cells ≡ front ++ cell ∷ back → EmptiesPage sizes gone TableLeaf cell.view.child 0 old mid first bytes → Releases sizes cell.view.child mid given
        → OpensUnder sizes gone page (front ++ back) right old given first bytes }
    ensures last { (sizes : Sizes) (gone : Member) (first bytes page : ℕ) (old : Paged) (cells : List Spelled) (right : ℕ) (front : List Spelled) (cell : Spelled) (mid given : Paged)
        → HasCells sizes old TableInterior page cells right → cells ≡ front ++ cell ∷ [] → EmptiesPage sizes gone TableLeaf right 0 old mid first bytes → Releases sizes right mid given
        → OpensUnder sizes gone page front cell.view.child old given first bytes }
{}

/// Of two interior pages beside one another one has no cell any more: they become one, in the page behind the cell between them, which comes down. That page is settled, and their parent is to have the dividers that came in place of the cell.
pub fn interior_neighbours_are_joined()
    ensures right { (sizes : Sizes) (gone : Member) (first bytes page : ℕ) (old : Paged) (cells : List Spelled) (right : ℕ) (front : List Spelled) (cell : Spelled) (back : List Spelled) (only : ℕ) (mid given written : Paged)
        (middle : Spelled) (beside : List Spelled) (last : ℕ) → HasCells sizes old TableInterior page cells right → cells ≡ front ++ cell ∷ back → IsCell TableInterior sizes.usable middle.bytes middle.view → middle.view.rowid ≡ cell.view.rowid
        → (grew : List Spelled) → EmptiesPage sizes gone TableInterior (child_page (length front) (front ++ back) right) only old mid first bytes → HasCells sizes mid TableInterior cell.view.child beside last → middle.view.child ≡ last
        → Releases sizes cell.view.child mid given → ((levels : ℕ) → IsSettled sizes (suc levels) Table (child_page (length front) (front ++ back) right) only (beside ++ middle ∷ []) given written grew)
        → OpensUnder sizes gone page (with_dividers (front ++ back) (length front) grew) right old written first bytes }
    ensures left { (sizes : Sizes) (gone : Member) (first bytes page : ℕ) (old : Paged) (cells : List Spelled) (right : ℕ) (front : List Spelled) (cell : Spelled) (back : List Spelled) (only : ℕ) (mid given written : Paged)
        (middle : Spelled) (beside : List Spelled) (last : ℕ) → HasCells sizes old TableInterior page cells right → cells ≡ front ++ cell ∷ back → IsCell TableInterior sizes.usable middle.bytes middle.view → middle.view.rowid ≡ cell.view.rowid
        → (grew : List Spelled) → EmptiesPage sizes gone TableInterior cell.view.child only old mid first bytes → HasCells sizes mid TableInterior (child_page (length front) (front ++ back) right) beside last → middle.view.child ≡ only
        → Releases sizes cell.view.child mid given → ((levels : ℕ) → IsSettled sizes (suc levels) Table (child_page (length front) (front ++ back) right) last (middle ∷ beside) given written grew)
        → OpensUnder sizes gone page (with_dividers (front ++ back) (length front) grew) right old written first bytes }
{}

/// A root that is to have no cell, and one child, takes what that has, and the child's page is given back. So does page 1 without a cell where its only child has none any more.
pub fn root_takes_its_only_child()
    ensures leaf { (sizes : Sizes) (gone : Member) (first bytes root : ℕ) (old : Paged) (cells : List Spelled) (right its_right : ℕ) (mid : Paged) (kept : List Spelled) (none : ℕ) (written new : Paged)
        → HasCells sizes old TableInterior root cells right → OpensUnder sizes gone root [] its_right old mid first bytes → HasCells sizes mid TableLeaf its_right kept none
        → Writes root mid written → IsPage (written.pages root) root sizes.usable TableLeaf (bytes_in kept) none → Releases sizes its_right written new → DeleteInto sizes gone root old new first bytes }
    ensures interior { (sizes : Sizes) (gone : Member) (first bytes root : ℕ) (old : Paged) (cells : List Spelled) (right its_right : ℕ) (mid : Paged) (kept : List Spelled) (last : ℕ) (written new : Paged)
        → HasCells sizes old TableInterior root cells right → OpensUnder sizes gone root [] its_right old mid first bytes → HasCells sizes mid TableInterior its_right kept last
        → Writes root mid written → IsPage (written.pages root) root sizes.usable TableInterior (bytes_in kept) last → Releases sizes its_right written new → DeleteInto sizes gone root old new first bytes }
    ensures only_leaf { (sizes : Sizes) (gone : Member) (first bytes : ℕ) (old : Paged) (right : ℕ) (mid written new : Paged) → HasCells sizes old TableInterior 1 [] right → EmptiesPage sizes gone TableLeaf right 0 old mid first bytes
        → Writes 1 mid written → IsPage (written.pages 1) 1 sizes.usable TableLeaf [] 0 → Releases sizes right written new → DeleteInto sizes gone 1 old new first bytes }
    ensures only_interior { (sizes : Sizes) (gone : Member) (first bytes : ℕ) (old : Paged) (right only : ℕ) (mid written new : Paged) → HasCells sizes old TableInterior 1 [] right → EmptiesPage sizes gone TableInterior right only old mid first bytes
        → Writes 1 mid written → IsPage (written.pages 1) 1 sizes.usable TableInterior [] only → Releases sizes right written new → DeleteInto sizes gone 1 old new first bytes }
{}

/// A row that is not found where its rowid belongs is not there.
pub fn missing_row_is_not_there()
    ensures leaf { (sizes : Sizes) (rowid : ℤ) (page : ℕ) (base : Paged) (cells : List Spelled) (right i : ℕ) → HasCells sizes base TableLeaf page cells right → Belongs rowid i (views_in cells) → ¬ Meets rowid i (views_in cells)
        → MissingUnder sizes page rowid base }
    ensures interior { (sizes : Sizes) (rowid : ℤ) (page : ℕ) (base : Paged) (cells : List Spelled) (right i : ℕ) → HasCells sizes base TableInterior page cells right → Belongs rowid i (views_in cells)
        → MissingUnder sizes (child_page i cells right) rowid base → MissingUnder sizes page rowid base }
    ensures world { (sizes : Sizes) (rowid : ℤ) (front : List Rooted) (old : Rooted) (back : List Rooted) (base : Paged) (trunks : List Trunk) → old.kind ≡ Table → IsWorld sizes base (with_tree front old back trunks)
        → MissingUnder sizes (root_of old) rowid base → (m : Member) → Contains (list_in old) m → m.rowid ≢ rowid }
{}

/// What a writer did at a root is a delete in its world, once the overflow chain of the cell that was taken out is given back.
pub fn writer_deletes_in_a_world()
    ensures { (sizes : Sizes) (gone : Member) (front : List Rooted) (old : Rooted) (back : List Rooted) (a b c : Paged) (p : List Trunk) (first bytes : ℕ) → old.kind ≡ Table → IsWorld sizes a (with_tree front old back p)
        → DeleteInto sizes gone (root_of old) a b first bytes → GivesBack sizes first bytes b c → c.count ≤ greatest_count → IsWorldDeleted sizes gone front old back a p c }
{}
