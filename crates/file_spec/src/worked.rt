// The definitions, computed on small files.
ghost use Rattle.std.specs.Prelude.{◌≡◌, ◌+◌, ℕ, [], ◌∷◌, Some, None};
ghost use Rattle.file_spec.specs.declared.FileName.{FileName};
ghost use Rattle.file_spec.specs.declared.FileName.TheVariants.{Target, Oal, Wal, State};
ghost use Rattle.byte_fields.specs.Bytes.{resized, overwritten, part_of};
ghost use Rattle.file_spec.specs.Files.{Files, with_file, after_create, after_rename};
ghost use Rattle.common_spec.specs.Told.{Leads};
ghost use Rattle.file_spec.specs.Faults.{IsTorn, IsCut, AfterTornWrite, AfterFailedSetLen};

/// A file that takes the place of another, a missing one that is renamed, and names that are made.
pub fn worked_names()
    ensures { let two : Files = with_file (with_file (λ (name : FileName). None) Oal (Some (1 ∷ []))) Wal (Some (2 ∷ [])) in
        (after_rename two Oal Wal Wal ≡ Some (1 ∷ [])) × (after_rename two Oal Wal Oal ≡ None) × (after_rename two State Wal Wal ≡ Some (2 ∷ []))
        × (after_create two Wal Wal ≡ Some (2 ∷ [])) × (after_create two Target Target ≡ Some []) × (after_create two Target Wal ≡ Some (2 ∷ [])) }
{}

/// What a write of two bytes at place 1 may leave of four when it fails, and what it may not; the same of a change to length 2.
pub fn worked_faults()
    ensures torn { IsTorn 1 2 (1 ∷ 2 ∷ 3 ∷ 4 ∷ []) (1 ∷ 7 ∷ 8 ∷ 4 ∷ []) }
    ensures before { ¬ (IsTorn 1 2 (1 ∷ 2 ∷ 3 ∷ 4 ∷ []) (9 ∷ 2 ∷ 3 ∷ 4 ∷ [])) }
    ensures behind { ¬ (IsTorn 1 2 (1 ∷ 2 ∷ 3 ∷ 4 ∷ []) (1 ∷ 2 ∷ 3 ∷ 9 ∷ [])) }
    ensures shrunk { ¬ (IsTorn 1 2 (1 ∷ 2 ∷ 3 ∷ 4 ∷ []) (1 ∷ 2 ∷ 3 ∷ [])) }
    ensures cut { IsCut 2 (1 ∷ 2 ∷ 3 ∷ 4 ∷ []) (1 ∷ 2 ∷ 9 ∷ []) }
    ensures kept { ¬ (IsCut 2 (1 ∷ 2 ∷ 3 ∷ 4 ∷ []) (1 ∷ 9 ∷ 3 ∷ [])) }
{}

/// What a failed write and a failed change of length may leave of a log of four bytes and of one that is missing.
pub fn worked_steps()
    ensures torn { let files : Files = with_file (λ (name : FileName). None) Oal (Some (1 ∷ 2 ∷ 3 ∷ 4 ∷ [])) in
        AfterTornWrite Oal 1 2 files (with_file files Oal (Some (1 ∷ 7 ∷ 8 ∷ 4 ∷ []))) }
    ensures not_made { AfterTornWrite Oal 0 2 (λ (name : FileName). None) (λ (name : FileName). None) }
    ensures cut { let files : Files = with_file (λ (name : FileName). None) Oal (Some (1 ∷ 2 ∷ 3 ∷ 4 ∷ [])) in
        AfterFailedSetLen Oal 2 files (with_file files Oal (Some (1 ∷ 2 ∷ 9 ∷ []))) }
{
    worked_faults();
}
