// The definitions, computed on small rows.
ghost use Rattle.std.specs.Prelude.{◌≡◌, [], ◌∷◌};
ghost use Rattle.byte_fields.specs.Bytes.{resized, overwritten, part_of};
ghost use Rattle.byte_fields.specs.Numbers.{number_at, with_number_at, page_at};

/// Writes inside a file, over its end and past it, changes of length, and a read over the end.
pub fn worked_bytes()
    ensures inside { overwritten (1 ∷ 2 ∷ 3 ∷ []) 1 (9 ∷ []) ≡ 1 ∷ 9 ∷ 3 ∷ [] }
    ensures over_the_end { overwritten (1 ∷ 2 ∷ []) 1 (8 ∷ 9 ∷ []) ≡ 1 ∷ 8 ∷ 9 ∷ [] }
    ensures past_the_end { overwritten (1 ∷ []) 3 (9 ∷ []) ≡ 1 ∷ 0 ∷ 0 ∷ 9 ∷ [] }
    ensures nothing_past_the_end { overwritten (1 ∷ []) 3 [] ≡ 1 ∷ 0 ∷ 0 ∷ [] }
    ensures shorter { resized (1 ∷ 2 ∷ 3 ∷ []) 2 ≡ 1 ∷ 2 ∷ [] }
    ensures longer { resized (1 ∷ []) 3 ≡ 1 ∷ 0 ∷ 0 ∷ [] }
    ensures part { part_of (1 ∷ 2 ∷ 3 ∷ []) 1 5 ≡ 2 ∷ 3 ∷ [] }
{}

/// Numbers in the bytes at a place, and pages of a file, also of one that ends inside its last page.
pub fn worked_numbers()
    ensures read { number_at 1 2 (9 ∷ 0x12 ∷ 0x34 ∷ 9 ∷ []) ≡ 0x1234 }
    ensures written { with_number_at 1 2 0x1234 (9 ∷ 9 ∷ 9 ∷ 9 ∷ []) ≡ 9 ∷ 0x12 ∷ 0x34 ∷ 9 ∷ [] }
    ensures second { page_at 2 2 (1 ∷ 2 ∷ 3 ∷ 4 ∷ []) ≡ 3 ∷ 4 ∷ [] }
    ensures cut { page_at 2 2 (1 ∷ 2 ∷ 3 ∷ []) ≡ 3 ∷ 0 ∷ [] }
    ensures missing { page_at 2 3 (1 ∷ 2 ∷ 3 ∷ []) ≡ 0 ∷ 0 ∷ [] }
{}
