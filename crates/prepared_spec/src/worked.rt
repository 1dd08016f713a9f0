// The definitions, computed on rows that were worked out by hand.
ghost use Rattle.std.specs.Prelude.{◌≡◌, ◌<◌, ◌≤◌, ℕ, pos, ◌+◌, List, [], ◌∷◌, ◌++◌, true, false, length, map, filter_map, codes};
ghost use Rattle.rbu_value.specs.declared.value.Value.TheVariants.{Null, Int, Text};
ghost use Rattle.rbu_rows.specs.declared.control.Control.TheVariants.{Insert, Delete, Update};
ghost use Rattle.database_spec.specs.LittleTarget.{target_catalog, target_database, target_table, target_rows, target_index};
ghost use Rattle.prepared_spec.specs.declared.violation.Violation.{Violation};
ghost use Rattle.prepared_spec.specs.declared.violation.Change.{Change};
ghost use Rattle.prepared_spec.specs.Tables.{greatest_of, new_rows, row_after, IsAfter};
ghost use Rattle.prepared_spec.specs.declared.input_fault.RecordCause.TheVariants.{SizeOverLimit};
ghost use Rattle.prepared_spec.specs.declared.input_fault.InputFault.{InputFault};
ghost use Rattle.prepared_spec.specs.StepFaults.{row_fault, AreChanges, IsChangeFault};
ghost use Rattle.prepared_spec.specs.DataTables.{target_in};
ghost use Rattle.prepared_spec.specs.PreparedRows.{in_target_order};
ghost use Rattle.prepared_spec.specs.Outcomes.{IsOutcome, Makes};
ghost use Rattle.prepared_spec.specs.StepRecords.{AreSteps, first_too_long, greatest_payload};
ghost use Rattle.prepared_spec.specs.NeededPages.{needed_pages, filled_pages, put_pages, next_put};
ghost use Rattle.prepared_spec.specs.LittleGroups.{exchange, exchanged_rows, exchange_changes, freeing, fourth_row, later_rows, keyless_row, keyless_batch};
ghost use Rattle.prepared_spec.specs.LittleSteps.{little_steps, step_with};
ghost use Rattle.prepared_spec.specs.LittleUpdate.{little_batch, little_new, little_row, little_entry, clash_rows, two_batches, rows_between, rows_behind};
ghost use Rattle.prepared_spec.specs.LittleRows.{text_key_table, no_key_table, not_null_table, crossed_table, text_row, text_prepared, rowid_prepared, last_rowid};

/// Of the rows (1, 'one', 10), (2, 'two', 20) and (3, 'three', 30) one transaction changes the first's c to 11, deletes the second, replaces the third by (3, 'drei', 20) and inserts (4, 'four', 40). The index loses and gains three entries.
pub fn worked_update()
    ensures { IsOutcome target_catalog target_database ((little_batch ∷ []) ∷ []) (Makes little_new) }
{}

/// A change and a deletion of rows that are missing change nothing; rows with a text for a key get the rowids behind the greatest; a row whose key is its rowid gets that one.
#[tactic(auto, unfolding(rbu_value::specs::Order::value_cmp))]
pub fn worked_rows()
    ensures missing { filter_map (row_after 4 target_table (little_row 1 99 Null (Int (pos 1)) (Update (false ∷ false ∷ true ∷ [])) ∷ little_row 2 98 Null Null Delete ∷ [])) target_rows ≡ target_rows }
    ensures numbered { map (λ row. row.rowid) (new_rows 4 text_key_table (pos 5) 0 (text_row (pos 5) (codes "b") 1 ∷ []) (text_prepared 2 (codes "a") 2 Insert ∷ text_prepared 1 (codes "c") 3 Insert ∷ [])) ≡ pos 6 ∷ pos 7 ∷ [] }
    ensures own { map (λ row. row.rowid) (new_rows 4 no_key_table (pos 1) 0 [] (rowid_prepared 1 10 (Text (codes "y")) Insert ∷ [])) ≡ pos 10 ∷ [] }
    ensures letters { in_target_order target_table crossed_table (Update (true ∷ false ∷ false ∷ [])) ≡ Update (false ∷ false ∷ true ∷ []) }
    ensures names { map target_in (codes "data_t1" ∷ codes "data12_t1" ∷ codes "data1_" ∷ codes "datat1" ∷ codes "Data_t1" ∷ codes "dat" ∷ []) ≡ Some (codes "t1") ∷ Some (codes "t1") ∷ Some [] ∷ None ∷ None ∷ None ∷ [] }
{}

/// An insertion on a key that is there, one that spends the rowids, and a NULL in a column that may have none.
#[tactic(auto, unfolding(rbu_value::specs::Order::value_cmp))]
pub fn worked_faults()
    ensures present { row_fault (codes "t1") target_table (greatest_of target_rows) 0 target_rows (little_row 1 1 (Text (codes "x")) (Int (pos 99)) Insert) ≡ Some (Violation.KeyPresent (codes "t1") (pos 1)) }
    ensures spent { row_fault (codes "p") text_key_table last_rowid 0 (text_row last_rowid (codes "b") 1 ∷ []) (text_prepared 1 (codes "c") 3 Insert) ≡ Some (Violation.RowidsSpent (codes "p")) }
    ensures null { row_fault (codes "q") not_null_table (pos 0) 0 [] (rowid_prepared 7 1 Null Insert) ≡ Some (Violation.NotNull (codes "q") (pos 7) (codes "v")) }
    ensures missing { row_fault (codes "q") not_null_table (pos 0) 0 [] (rowid_prepared 7 1 Null (Update (true ∷ []))) ≡ None }
{}

/// Of four rows that are inserted two have one value in a unique column: the fault is at the second of their entries. Two that have NULL there are none.
pub fn worked_clash()
    ensures second { IsChangeFault target_index target_rows clash_rows (Change.Add (little_entry 77 6)) (Some (Violation.NotUnique (codes "sqlite_autoindex_t1_1") (little_entry 77 6))) }
    ensures first { IsChangeFault target_index target_rows clash_rows (Change.Add (little_entry 77 5)) None }
    ensures null { IsChangeFault target_index target_rows clash_rows (Change.Add (Null ∷ Int (pos 8) ∷ [])) None }
{}

/// Two batches of one target go one after the other: the second changes the row that the first inserts, and would not insert it again.
#[tactic(auto, unfolding(rbu_value::specs::Order::value_cmp))]
pub fn worked_batches()
    ensures rows { IsAfter 4 target_table target_rows two_batches rows_behind }
    ensures present { row_fault (codes "t1") target_table (greatest_of target_rows) 1 rows_between (little_row 1 4 (Text (codes "w")) (Int (pos 50)) Insert) ≡ Some (Violation.KeyPresent (codes "t1") (pos 1)) }
{}

/// Two unique values are exchanged by two updates: each entry is removed before its columns are added again, and no addition has a fault.
pub fn worked_exchange()
    ensures rows { IsAfter 4 target_table target_rows (exchange ∷ []) exchanged_rows }
    ensures changes { AreChanges target_index target_rows exchanged_rows exchange_changes }
    ensures first { IsChangeFault target_index target_rows exchanged_rows (Change.Add (little_entry 10 2)) None }
    ensures second { IsChangeFault target_index target_rows exchanged_rows (Change.Add (little_entry 20 1)) None }
{}

/// Of two batches of one target the second deletes the row with which the first would clash: there is no fault, since uniqueness is judged behind both.
pub fn worked_freeing()
    ensures rows { IsAfter 4 target_table target_rows freeing (later_rows ++ fourth_row ∷ []) }
    ensures fault { IsChangeFault target_index target_rows (later_rows ++ fourth_row ∷ []) (Change.Add (little_entry 10 4)) None }
{}

/// In a table without a PRIMARY KEY the rowids of prepared rows say which row is deleted, and which rowid a new one has.
pub fn worked_keyless()
    ensures { IsAfter 4 no_key_table (keyless_row 1 (codes "x") (2 ∷ 15 ∷ codes "x") ∷ []) (keyless_batch ∷ []) (keyless_row 10 (codes "y") (2 ∷ 15 ∷ codes "y") ∷ []) }
{}

/// The ten steps of the update that was worked out by hand may take 549 pages, of a database that has 3; before the first of them it fills no more than 83.
pub fn worked_room()
    ensures steps { AreSteps target_catalog target_database ((little_batch ∷ []) ∷ []) little_steps }
    ensures needed { needed_pages 4096 3 little_steps ≡ 549 }
    ensures filled { filled_pages 4096 target_database.lists + put_pages 4096 (next_put little_steps) ≡ 83 }
{}

/// A step that puts a record of more than 2147483647 bytes is refused, and one that puts a shorter one is not.
pub fn worked_too_long()
    ensures long { (payload : List ℕ) → greatest_payload < length payload → first_too_long (step_with payload ∷ []) ≡ Some (InputFault.TargetRecord (codes "t1") (pos 4) SizeOverLimit) }
    ensures short { (payload : List ℕ) → length payload ≤ greatest_payload → first_too_long (step_with payload ∷ []) ≡ None }
{}
