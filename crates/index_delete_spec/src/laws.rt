// The laws of deletes from indexes as contracts, so that they are proved here: crates above cite them from specs/.
ghost use Rattle.std.specs.Prelude.{◌≡◌, ◌≢◌, ℕ, ◌+◌, ◌-◌, ◌<◌, ◌≤◌, Bool, true, false, List, [], ◌∷◌, ◌++◌, length, max};
ghost use Rattle.format_spec.specs.declared.PageKind.{PageKind};
ghost use Rattle.format_spec.specs.declared.PageKind.TheVariants.{IndexInterior, IndexLeaf};
ghost use Rattle.format_spec.specs.Cell.{IsCell};
ghost use Rattle.format_spec.specs.Page.{IsPage};
ghost use Rattle.page_spec.specs.Freelists.{Trunk};
ghost use Rattle.tree_spec.specs.declared.TreeKind.TheVariants.{Index};
ghost use Rattle.tree_spec.specs.Trees.{Member, Rooted, kind_at, pages_in, root_of};
ghost use Rattle.tree_spec.specs.Standing.{Sizes, Paged};
ghost use Rattle.tree_spec.specs.Worlds.{IsWorld, with_tree, greatest_count, slack};
ghost use Rattle.tree_spec.specs.Changes.{Writes};
ghost use Rattle.put_spec.specs.Steps.{Spelled, bytes_in, HasCells, child_page, with_dividers, IsRaised, IsSettled, IsRooted, Releases, GivesBack};
ghost use Rattle.delete_spec.specs.Steps.{IsPayload};
ghost use Rattle.index_delete_spec.specs.Deletes.{IsWorldDeleted};
ghost use Rattle.index_delete_spec.specs.Steps.{IsOfIndex, OpensUnder, GrowsUnder, EmptiesPage, DeleteInto};

/// A leaf loses the cell of an entry; where only the last entry of a tree may go, that is its last one.
pub fn leaf_loses_an_entry()
    ensures { (sizes : Sizes) (ends : Bool) (page : ℕ) (old : Paged) (cells : List Spelled) (right : ℕ) (front : List Spelled) (cell : Spelled) (back : List Spelled) → HasCells sizes old IndexLeaf page cells right
        → cells ≡ front ++ cell ∷ back → (ends ≡ true → back ≡ []) → OpensUnder sizes ends cell page (front ++ back) 0 old old }
{}

/// Where a child was cut the page is to have the dividers that came. Where no divider came the page is not written.
pub fn parent_of_a_delete()
    ensures grown { (sizes : Sizes) (ends : Bool) (out : Spelled) (page : ℕ) (old : Paged) (cells : List Spelled) (right at : ℕ) (between : Paged) (grew : List Spelled) → HasCells sizes old IndexInterior page cells right → at ≤ length cells
        → (ends ≡ true → length cells ≤ at) → GrowsUnder sizes ends out (child_page at cells right) old between grew → OpensUnder sizes ends out page (with_dividers cells at grew) right old between }
    ensures stays { (sizes : Sizes) (ends : Bool) (out : Spelled) (page : ℕ) (old : Paged) (cells : List Spelled) (right at : ℕ) (new : Paged) → HasCells sizes old IndexInterior page cells right → 0 < length cells
        → (ends ≡ true → length cells ≤ at) → GrowsUnder sizes ends out (child_page at cells right) old new [] → GrowsUnder sizes ends out page old new [] }
    ensures root_stays { (sizes : Sizes) (out : Spelled) (root : ℕ) (old : Paged) (cells : List Spelled) (right at : ℕ) (new : Paged) → HasCells sizes old IndexInterior root cells right → (root ≢ 1 → 0 < length cells)
        → GrowsUnder sizes false out (child_page at cells right) old new [] → DeleteInto sizes out root old new }
{}

/// A page that is to have some cells is settled, or is a root's, whose cells may be moved out.
pub fn opened_page_is_written()
    ensures settled { (sizes : Sizes) (ends : Bool) (out : Spelled) (page_kind : PageKind) (page : ℕ) (old : Paged) (cells : List Spelled) (right : ℕ) (opened : List Spelled) (its_right : ℕ) (mid new : Paged) (dividers : List Spelled) → IsOfIndex page_kind
        → HasCells sizes old page_kind page cells right → OpensUnder sizes ends out page opened its_right old mid → 0 < length opened
        → ((levels : ℕ) → kind_at Index levels ≡ page_kind → IsSettled sizes levels Index page its_right opened mid new dividers) → GrowsUnder sizes ends out page old new dividers }
    ensures rooted { (sizes : Sizes) (out : Spelled) (page_kind : PageKind) (root : ℕ) (old : Paged) (cells : List Spelled) (right : ℕ) (opened : List Spelled) (its_right : ℕ) (mid new : Paged) → IsOfIndex page_kind → HasCells sizes old page_kind root cells right
        → OpensUnder sizes false out root opened its_right old mid → (page_kind ≡ IndexInterior → root ≢ 1 → 0 < length opened)
        → ((levels : ℕ) → kind_at Index levels ≡ page_kind → IsRooted sizes levels Index root its_right opened mid new) → DeleteInto sizes out root old new }
{}

/// The entry of an interior page goes, and the last entry below the child that its cell names takes its place, with payload and overflow chain.
pub fn entry_takes_the_place_of_another()
    ensures { (sizes : Sizes) (page : ℕ) (old : Paged) (cells : List Spelled) (right : ℕ) (front : List Spelled) (cell : Spelled) (back : List Spelled) (taken middle : Spelled) (between : Paged) (grew : List Spelled)
        → HasCells sizes old IndexInterior page cells right → cells ≡ front ++ cell ∷ back → IsRaised middle taken → IsCell IndexInterior sizes.usable middle.bytes middle.view → middle.view.child ≡ cell.view.child
        → GrowsUnder sizes true taken cell.view.child old between grew → OpensUnder sizes false cell page (with_dividers (front ++ back) (length front) (grew ++ middle ∷ [])) right old between }
{}

/// Of two pages beside one another one has no cell any more: they become one, in the page behind the cell between them, and an entry comes down between theirs. It is that of the cell, or the last one of the page that has none, which takes its place. The page is settled, and their parent is to have the dividers that came in place of the cell.
pub fn neighbours_are_joined()
    ensures right { (sizes : Sizes) (page : ℕ) (old : Paged) (cells : List Spelled) (right : ℕ) (front : List Spelled) (cell : Spelled) (back : List Spelled) (page_kind : PageKind) (mid given written : Paged) (middle : Spelled) (only : ℕ) (beside : List Spelled) (last : ℕ) (grew : List Spelled)
        (ends : Bool) (out : Spelled) → HasCells sizes old IndexInterior page cells right → cells ≡ front ++ cell ∷ back → IsOfIndex page_kind → IsCell page_kind sizes.usable middle.bytes middle.view → (ends ≡ true → back ≡ []) → IsRaised middle cell
        → EmptiesPage sizes ends out page_kind (child_page (length front) (front ++ back) right) only old mid → HasCells sizes mid page_kind cell.view.child beside last
        → (page_kind ≡ IndexInterior → middle.view.child ≡ last) → Releases sizes cell.view.child mid given
        → ((levels : ℕ) → kind_at Index levels ≡ page_kind → IsSettled sizes levels Index (child_page (length front) (front ++ back) right) only (beside ++ middle ∷ []) given written grew)
        → OpensUnder sizes ends out page (with_dividers (front ++ back) (length front) grew) right old written }
    ensures left { (sizes : Sizes) (page : ℕ) (old : Paged) (cells : List Spelled) (right : ℕ) (front : List Spelled) (cell : Spelled) (back : List Spelled) (page_kind : PageKind) (mid given written : Paged) (middle : Spelled) (only : ℕ) (beside : List Spelled) (last : ℕ) (grew : List Spelled)
        (out : Spelled) → HasCells sizes old IndexInterior page cells right → cells ≡ front ++ cell ∷ back → IsOfIndex page_kind → IsCell page_kind sizes.usable middle.bytes middle.view → IsRaised middle cell
        → EmptiesPage sizes false out page_kind cell.view.child only old mid → HasCells sizes mid page_kind (child_page (length front) (front ++ back) right) beside last
        → (page_kind ≡ IndexInterior → middle.view.child ≡ only) → Releases sizes cell.view.child mid given
        → ((levels : ℕ) → kind_at Index levels ≡ page_kind → IsSettled sizes levels Index (child_page (length front) (front ++ back) right) last (middle ∷ beside) given written grew)
        → OpensUnder sizes false out page (with_dividers (front ++ back) (length front) grew) right old written }
    ensures replaced { (sizes : Sizes) (page : ℕ) (old : Paged) (cells : List Spelled) (right : ℕ) (front : List Spelled) (cell : Spelled) (back : List Spelled) (page_kind : PageKind) (mid given written : Paged) (middle : Spelled) (only : ℕ) (beside : List Spelled) (last : ℕ) (grew : List Spelled)
        (taken : Spelled) → HasCells sizes old IndexInterior page cells right → cells ≡ front ++ cell ∷ back → IsOfIndex page_kind → IsCell page_kind sizes.usable middle.bytes middle.view → IsRaised middle taken
        → EmptiesPage sizes true taken page_kind cell.view.child only old mid → HasCells sizes mid page_kind (child_page (length front) (front ++ back) right) beside last
        → (page_kind ≡ IndexInterior → middle.view.child ≡ only) → Releases sizes cell.view.child mid given
        → ((levels : ℕ) → kind_at Index levels ≡ page_kind → IsSettled sizes levels Index (child_page (length front) (front ++ back) right) last (middle ∷ beside) given written grew)
        → OpensUnder sizes false cell page (with_dividers (front ++ back) (length front) grew) right old written }
{}

/// A root that is to have no cell, and one child, takes what that has, and the child's page is given back. So does page 1 without a cell where its only child has none any more.
pub fn root_takes_its_only_child()
    ensures takes { (sizes : Sizes) (out : Spelled) (page_kind : PageKind) (root : ℕ) (old : Paged) (cells : List Spelled) (right its_right : ℕ) (mid : Paged) (kept : List Spelled) (last : ℕ) (written new : Paged) → IsOfIndex page_kind
        → HasCells sizes old IndexInterior root cells right → OpensUnder sizes false out root [] its_right old mid → HasCells sizes mid page_kind its_right kept last → Writes root mid written
        → IsPage (written.pages root) root sizes.usable page_kind (bytes_in kept) last → Releases sizes its_right written new → DeleteInto sizes out root old new }
    ensures only { (sizes : Sizes) (out : Spelled) (page_kind : PageKind) (old : Paged) (right only : ℕ) (mid written new : Paged) → IsOfIndex page_kind → HasCells sizes old IndexInterior 1 [] right → EmptiesPage sizes false out page_kind right only old mid
        → Writes 1 mid written → IsPage (written.pages 1) 1 sizes.usable page_kind [] only → Releases sizes right written new → DeleteInto sizes out 1 old new }
{}

/// What a writer did at a root is a delete in its world, once the overflow chain of the cell that was taken out is given back: one entry is out of one index, with the payload that the cell said, the world holds again, and all other trees are as they were. The pages that the tree has no longer can be taken.
pub fn world_has_the_delete()
    ensures world { (sizes : Sizes) (front : List Rooted) (old : Rooted) (back : List Rooted) (a b c : Paged) (p : List Trunk) (out : Spelled) → old.kind ≡ Index → IsWorld sizes a (with_tree front old back p)
        → DeleteInto sizes out (root_of old) a b → GivesBack sizes out.view.overflow (out.view.payload - out.view.local) b c → c.count ≤ greatest_count
        → (gone : Member) × (gone.rowid ≡ out.view.rowid) × IsPayload sizes a out gone.payload × IsWorldDeleted sizes gone front old back a p c }
    ensures slack { (sizes : Sizes) (front : List Rooted) (old : Rooted) (back : List Rooted) (gone : Member) (a c : Paged) (p : List Trunk) (limit : ℕ) → IsWorld sizes a (with_tree front old back p) → (is : IsWorldDeleted sizes gone front old back a p c) → c.count ≤ max limit a.count
        → slack sizes c limit is.trunks + length (pages_in is.new) ≡ slack sizes a limit p + length (pages_in old) }
{}
