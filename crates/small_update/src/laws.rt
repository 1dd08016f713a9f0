// What the pages that `write_pages` writes are.
ghost use Rattle.small_update.specs.PackedLeaf.{PackedLeafIsPage};
ghost use Rattle.small_update.specs.SmallAgain.{UpdateLeavesSmallTarget};

/// Rows for which one page has room make an accepted page, whose cells are theirs in order.
pub fn packed_leaf_is_page()
    ensures { PackedLeafIsPage }
{}

/// An update leaves a small target: its rows are the old ones and the inserted ones.
pub fn update_leaves_small_target()
    ensures { UpdateLeavesSmallTarget }
{}
