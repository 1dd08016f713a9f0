// Laws about the definitions.
ghost use Rattle.std.specs.Prelude.{ℕ, ◌+◌, ◌≤◌, List, length};
ghost use Rattle.format_spec.specs.declared.PageKind.{PageKind};
ghost use Rattle.format_spec.specs.Page.{IsPage};
ghost use Rattle.format_spec.specs.Sizes.{IsUsable};
ghost use Rattle.page_spec.specs.Rooms.{array_end, rooms};

/// The cells of a page fit between its array of places and the end of its usable bytes.
pub fn cells_fit()
    ensures { (page : List ℕ) (number usable : ℕ) (kind : PageKind) (cells : List (List ℕ)) (right : ℕ) → IsUsable usable →
        IsPage page number usable kind cells right → array_end number kind (length cells) + rooms cells ≤ usable }
{}
