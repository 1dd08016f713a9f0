// The definitions, computed on rows that were worked out by hand.
ghost use Rattle.std.specs.Prelude.{[], ◌∷◌};
ghost use Rattle.database_spec.specs.LittleTarget.{target_table, target_rows};
ghost use Rattle.prepared_spec.specs.LittleUpdate.{little_order, little_after};
ghost use Rattle.touched_rows.specs.TouchedRows.{ArePlaced, AreTouchedPairs};
ghost use Rattle.touched_rows.specs.LittleTouched.{little_pairs};

/// Of the rows (1, 'one', 10), (2, 'two', 20) and (3, 'three', 30) one transaction changes the first's c to 11, deletes the second, replaces the third by (3, 'drei', 20) and inserts (4, 'four', 40): each of the four rowids has its pair.
pub fn worked_touched()
    ensures placed { ArePlaced target_table target_rows }
    ensures pairs { AreTouchedPairs 4 target_table target_rows (little_order ∷ []) little_after little_pairs }
{}
