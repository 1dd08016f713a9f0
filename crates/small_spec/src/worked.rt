// The definitions, computed on numbers that were worked out apart from them.
ghost use Rattle.std.specs.Prelude.{◌≡◌, pos, [], ◌∷◌};
ghost use Rattle.rbu_value.specs.declared.value.Value.TheVariants.{Text};
ghost use Rattle.small_spec.specs.Inserts.{raised, all_rows, page_room};

/// A counter at its last value, and the room of the rows (1, 'one'), (2, 'two') and the prepared (3, 'drei').
#[tactic(auto, unfolding(format_spec::specs::Varint::varint, format_spec::specs::Varint::varint_front, format_spec::specs::Record::canonical_record, format_spec::specs::Cell::table_leaf_cell))]
pub fn worked_rows()
    ensures counter { raised 4294967295 ≡ 0 }
    ensures room { page_room (all_rows
        (record { rowid = pos 1; cell = 6 ∷ 1 ∷ 3 ∷ 0 ∷ 0x13 ∷ 0x6f ∷ 0x6e ∷ 0x65 ∷ [] } ∷ record { rowid = pos 2; cell = 6 ∷ 2 ∷ 3 ∷ 0 ∷ 0x13 ∷ 0x74 ∷ 0x77 ∷ 0x6f ∷ [] } ∷ [])
        (record { data_rowid = pos 1; key = pos 3; value = Text (0x64 ∷ 0x72 ∷ 0x65 ∷ 0x69 ∷ []) } ∷ [])) ≡ 39 }
{}
