// Laws about the definitions.
ghost use Rattle.std.specs.Prelude.{◌≡◌, ℕ, List};
ghost use Rattle.format_spec.specs.PageMap.{PageMap, SamePages};
ghost use Rattle.format_spec.specs.Log.{Frame, IsLog, IsOverlay, reading_of};

/// Bytes are a log in one way: one order of the checksums' bytes, page size, sequence, salt, list of valid frames and checksum behind them.
pub fn log_has_one_reading()
    ensures { (bytes : List ℕ) (p q : ℕ) (frames others : List Frame) (v : IsLog bytes p frames) (w : IsLog bytes q others) → reading_of v ≡ reading_of w }
{}

/// Pages overlaid by frames are the same pages, as far as they matter.
pub fn overlay_has_one_result()
    ensures { (base : PageMap) (frames : List Frame) (a b : PageMap) → IsOverlay base frames a → IsOverlay base frames b → SamePages a b }
{}
