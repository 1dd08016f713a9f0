// The crash model, computed on small files.
ghost use Rattle.std.specs.Prelude.{◌≡◌, ℕ, [], ◌∷◌, List, Some, None};
ghost use Rattle.file_spec.specs.declared.FileName.{FileName};
ghost use Rattle.file_spec.specs.declared.FileName.TheVariants.{Target, Oal, Wal};
ghost use Rattle.file_spec.specs.declared.DiskCall.TheVariants.{Sync, Rename};
ghost use Rattle.file_spec.specs.Files.{Files, with_file};
ghost use Rattle.file_spec.specs.Records.{IsImage, MayHold, Record, Stored, at_rest, shown_files, stable};
ghost use Rattle.file_spec.specs.Trails.{Trail, clock};
ghost use Rattle.file_spec.specs.Steps.{AfterFailedRename, AfterFailedSync, Torn, folder_synced, length_pending, renamed_at, synced_at, with_new, write_pending};

/// What a crash may leave after a write of one byte over the second of three, and what it may not.
pub fn worked_write_over()
    ensures old { MayHold (write_pending 1 1 (1 ∷ 9 ∷ 3 ∷ []) (stable (1 ∷ 2 ∷ 3 ∷ []))) (1 ∷ 2 ∷ 3 ∷ []) }
    ensures any { MayHold (write_pending 1 1 (1 ∷ 9 ∷ 3 ∷ []) (stable (1 ∷ 2 ∷ 3 ∷ []))) (1 ∷ 165 ∷ 3 ∷ []) }
    ensures before { ¬ (MayHold (write_pending 1 1 (1 ∷ 9 ∷ 3 ∷ []) (stable (1 ∷ 2 ∷ 3 ∷ []))) (9 ∷ 9 ∷ 3 ∷ [])) }
    ensures shorter { ¬ (MayHold (write_pending 1 1 (1 ∷ 9 ∷ 3 ∷ []) (stable (1 ∷ 2 ∷ 3 ∷ []))) (1 ∷ 9 ∷ [])) }
{}

/// What a crash may leave after a write of one byte at place 3 of a file of two, and what it may not.
pub fn worked_write_past_end()
    ensures old { MayHold (write_pending 3 1 (1 ∷ 2 ∷ 0 ∷ 7 ∷ []) (stable (1 ∷ 2 ∷ []))) (1 ∷ 2 ∷ []) }
    ensures between { MayHold (write_pending 3 1 (1 ∷ 2 ∷ 0 ∷ 7 ∷ []) (stable (1 ∷ 2 ∷ []))) (1 ∷ 2 ∷ 165 ∷ []) }
    ensures shorter { ¬ (MayHold (write_pending 3 1 (1 ∷ 2 ∷ 0 ∷ 7 ∷ []) (stable (1 ∷ 2 ∷ []))) (1 ∷ [])) }
    ensures longer { ¬ (MayHold (write_pending 3 1 (1 ∷ 2 ∷ 0 ∷ 7 ∷ []) (stable (1 ∷ 2 ∷ []))) (1 ∷ 2 ∷ 0 ∷ 7 ∷ 0 ∷ [])) }
    ensures synced { ¬ (MayHold (write_pending 3 1 (1 ∷ 2 ∷ 0 ∷ 7 ∷ []) (stable (1 ∷ 2 ∷ []))) (9 ∷ 2 ∷ 0 ∷ 7 ∷ [])) }
{}

/// What a crash may leave of three bytes that were cut to one and have grown to three again, and what it may not.
pub fn worked_cut_and_growth()
    ensures cut { MayHold (length_pending 3 (1 ∷ 0 ∷ 0 ∷ []) (length_pending 1 (1 ∷ []) (stable (1 ∷ 2 ∷ 3 ∷ [])))) (1 ∷ []) }
    ensures any { MayHold (length_pending 3 (1 ∷ 0 ∷ 0 ∷ []) (length_pending 1 (1 ∷ []) (stable (1 ∷ 2 ∷ 3 ∷ [])))) (1 ∷ 165 ∷ 3 ∷ []) }
    ensures kept { ¬ (MayHold (length_pending 3 (1 ∷ 0 ∷ 0 ∷ []) (length_pending 1 (1 ∷ []) (stable (1 ∷ 2 ∷ 3 ∷ [])))) (9 ∷ 0 ∷ 0 ∷ [])) }
{}

/// A log that was made and took another name: a crash may leave none, the one name or the other, and never both. After a
/// sync of the folder it leaves the other alone.
pub fn worked_create_and_rename()
    ensures none { let old = at_rest (λ (name : FileName). None) in let made = with_new old Oal 7 (stable (5 ∷ [])) in
        IsImage (renamed_at made Oal Wal (Some 7)) (λ (name : FileName). None) }
    ensures one { let old = at_rest (λ (name : FileName). None) in let made = with_new old Oal 7 (stable (5 ∷ [])) in
        IsImage (renamed_at made Oal Wal (Some 7)) (with_file (λ (name : FileName). None) Oal (Some (5 ∷ []))) }
    ensures other { let old = at_rest (λ (name : FileName). None) in let made = with_new old Oal 7 (stable (5 ∷ [])) in
        IsImage (renamed_at made Oal Wal (Some 7)) (with_file (λ (name : FileName). None) Wal (Some (5 ∷ []))) }
    ensures both { let old = at_rest (λ (name : FileName). None) in let made = with_new old Oal 7 (stable (5 ∷ [])) in
        ¬ (IsImage (renamed_at made Oal Wal (Some 7)) (with_file (with_file (λ (name : FileName). None) Oal (Some (5 ∷ []))) Wal (Some (5 ∷ [])))) }
    ensures settled { let old = at_rest (λ (name : FileName). None) in let made = with_new old Oal 7 (stable (5 ∷ [])) in
        ¬ (IsImage (folder_synced (renamed_at made Oal Wal (Some 7))) (with_file (λ (name : FileName). None) Oal (Some (5 ∷ [])))) }
{}

/// What a write of two bytes at place 1 that failed leaves: one of them is shown, and a crash may leave any two.
pub fn worked_failed_write()
    ensures torn { Torn 1 2 (stable (1 ∷ 2 ∷ 3 ∷ 4 ∷ [])) (write_pending 1 2 (1 ∷ 7 ∷ 3 ∷ 4 ∷ []) (stable (1 ∷ 2 ∷ 3 ∷ 4 ∷ []))) }
    ensures any { MayHold (write_pending 1 2 (1 ∷ 7 ∷ 3 ∷ 4 ∷ []) (stable (1 ∷ 2 ∷ 3 ∷ 4 ∷ []))) (1 ∷ 165 ∷ 165 ∷ 4 ∷ []) }
    ensures behind { ¬ (MayHold (write_pending 1 2 (1 ∷ 7 ∷ 3 ∷ 4 ∷ []) (stable (1 ∷ 2 ∷ 3 ∷ 4 ∷ []))) (1 ∷ 7 ∷ 3 ∷ 9 ∷ [])) }
{}

/// A sync and a rename that failed may add no moment.
pub fn worked_failed_names()
    ensures sync { (t : Trail) → AfterFailedSync Oal t t }
    ensures rename { (t : Trail) → AfterFailedRename Oal t t }
    ensures shown { let old = at_rest (λ (name : FileName). None) in let made = with_new old Oal 7 (stable (5 ∷ [])) in shown_files made Oal ≡ Some (5 ∷ []) }
{}
