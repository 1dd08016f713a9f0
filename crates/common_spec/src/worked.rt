// The definitions, computed on small rows.
ghost use Rattle.std.specs.Prelude.{◌≡◌, ℕ, ◌+◌, ◌==◌, ◌^◌, ◌-◌, Option, Some, None, Result, Ok, Err};
ghost use Rattle.common_spec.specs.Maps.{set_at};
ghost use Rattle.common_spec.specs.Told.{Leads, Finds};
ghost use Rattle.common_spec.specs.Counts.{CountsFaults, Rises, one_more};
ghost use Rattle.common_spec.specs.Reading.{Reads, OrNone, OrFault, ReadsOrWants};

/// A map of numbers that is changed at 3.
pub fn worked_maps()
    ensures here { set_at (λ (x y : ℕ). x == y) (λ x. x + 1) 3 9 3 ≡ 9 }
    ensures elsewhere { set_at (λ (x y : ℕ). x == y) (λ x. x + 1) 3 9 4 ≡ 5 }
{}

/// What a call leads to on a device that tells its state and on one that does not, and what one finds that only reads.
pub fn worked_told()
    ensures told { Leads (λ (before after : ℕ). after ≡ before + 1) (Some 1) (Some 2) }
    ensures silent { Leads (λ (before after : ℕ). after ≡ before + 1) None None }
    ensures goes_on { ¬ (Leads (λ (before after : ℕ). after ≡ before + 1) (Some 1) None) }
    ensures finds { let found : Result ℕ ℕ = Ok 4 in Finds (Some 3) (Some 3) found (λ x state. x ≡ state + 1) }
    ensures stays { let found : Result ℕ ℕ = Ok 4 in ¬ (Finds (Some 3) (Some 4) found (λ x state. x ≡ state + 1)) }
{}

/// Counts that rise, one that does not, and the last one; and what a call with a result owes of the count of its device.
pub fn worked_counts()
    ensures one { one_more 6 ≡ 7 }
    ensures last { one_more (2 ^ 64 - 1) ≡ 2 ^ 64 - 1 }
    ensures rises { Rises 6 7 }
    ensures stays { ¬ (Rises 7 7) }
    ensures full { Rises (2 ^ 64 - 1) (2 ^ 64 - 1) }
    ensures fault { let result : Result ℕ ℕ = Err 1 in CountsFaults (λ n. n) (λ before now error. Rises before now) 6 7 result }
    ensures invented { let result : Result ℕ ℕ = Err 1 in ¬ (CountsFaults (λ n. n) (λ before now error. Rises before now) 6 6 result) }
    ensures passed_over { let result : Result ℕ ℕ = Ok 1 in ¬ (CountsFaults (λ n. n) (λ before now error. Rises before now) 6 7 result) }
{}

/// A reader that finds the number 3: its answer, and answers that a reader of something does not give.
pub fn worked_reading()
    ensures found { Reads (OrNone (λ (n : ℕ). n ≡ 3)) (Some 3) }
    ensures missed { ¬ (Reads (OrNone (λ (n : ℕ). n ≡ 3)) None) }
    ensures wrong { ¬ (Reads (OrNone (λ (n : ℕ). n ≡ 3)) (Some 4)) }
    ensures unsure { ¬ (Reads (OrFault (λ (n : ℕ). n + n ≡ 6) (λ (n : ℕ). n ≡ 1)) (Ok 3)) }
    ensures wants { ReadsOrWants (λ (n : ℕ). n + 1) (λ (n : ℕ). n ≡ 7) (OrFault (λ (n : ℕ). n ≡ 4) (λ (n : ℕ). n ≡ 1)) (Err 7) }
{}
