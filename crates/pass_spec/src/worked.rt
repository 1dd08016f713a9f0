// The definitions, computed on rows that were worked out by hand.
ghost use Rattle.std.specs.Prelude.{◌≡◌, pos};
ghost use Rattle.database_spec.specs.LittleTarget.{target_rows, target_table};
ghost use Rattle.prepared_spec.specs.LittleUpdate.{deleted, inserted, little_after, replaced_row, updated};
ghost use Rattle.pass_spec.specs.LittleTableSteps.{one_behind, two_behind, three_behind};
ghost use Rattle.pass_spec.specs.TableSteps.{IsStepped, taken_behind};

/// Of the rows (1, 'one', 10), (2, 'two', 20) and (3, 'three', 30) four steps in the order of the keys change the first's c to 11, delete the second, replace the third by (3, 'drei', 20) and insert (4, 'four', 40), of which the last makes a new row.
pub fn worked_steps()
    ensures first { IsStepped 4 target_table (pos 3) 0 updated target_rows one_behind }
    ensures second { IsStepped 4 target_table (pos 3) 0 deleted one_behind two_behind }
    ensures third { IsStepped 4 target_table (pos 3) 0 replaced_row two_behind three_behind }
    ensures fourth { IsStepped 4 target_table (pos 3) 0 inserted three_behind little_after }
    ensures makes { taken_behind target_table three_behind inserted 0 ≡ 1 }
    ensures makes_none { taken_behind target_table two_behind replaced_row 0 ≡ 0 }
{}
