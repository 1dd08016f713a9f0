// The law of cells that are spelled anew as a contract, so that it is proved here: crates above cite it from specs/.
ghost use Rattle.std.specs.Prelude.{◌≡◌, ℕ, ◌^◌, ◌<◌, List};
ghost use Rattle.format_spec.specs.declared.PageKind.{PageKind};
ghost use Rattle.format_spec.specs.declared.PageKind.TheVariants.{IndexInterior};
ghost use Rattle.format_spec.specs.declared.CellView.{CellView};
ghost use Rattle.format_spec.specs.Cell.{IsCell};
ghost use Rattle.index_delete_spec.specs.Steps.{IsOfIndex};
ghost use Rattle.index_cells.specs.Respelling.{respelled_view};
ghost use Rattle.index_cells.specs.RespellingLaws.{IsRespelled};

/// A cell of an index that is spelled for a page of either kind is one of such a page, and has the payload and the overflow chain that it had. In an interior page it names the child.
pub fn cell_keeps_its_payload()
    ensures respelled { (usable : ℕ) (kind other : PageKind) (child : ℕ) (bytes : List ℕ) (view : CellView) → IsOfIndex kind → IsOfIndex other → IsCell kind usable bytes view → IsRespelled usable kind other child bytes view }
    ensures child { (kind : PageKind) (child : ℕ) (view : CellView) → child < 2 ^ 32 → (respelled_view kind IndexInterior child view).child ≡ child }
{}
