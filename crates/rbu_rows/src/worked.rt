// The definitions, computed on small rows.
ghost use Rattle.std.specs.Prelude.{◌≡◌, pos, codes, true, false, [], ◌∷◌};
ghost use Rattle.rbu_value.specs.declared.value.Value.TheVariants.{Null, Int, Text};
ghost use Rattle.rbu_rows.specs.declared.control.Control.TheVariants.{Delete, Update};
ghost use Rattle.rbu_rows.specs.declared.control.ControlFault.TheVariants.{ControlValue, ControlLength, ControlLetter, DeltaColumn};
ghost use Rattle.rbu_rows.specs.Controls.{IsControl, HasFault};

/// What values of `rbu_control` say beside three columns, or why they say nothing.
pub fn worked_controls()
    ensures delete { IsControl (Int (pos 1)) 3 Delete }
    ensures update { IsControl (Text (codes "x.x")) 3 (Update (true ∷ false ∷ true ∷ [])) }
    ensures null { HasFault Null 3 ControlValue }
    ensures three { HasFault (Int (pos 3)) 3 ControlValue }
    ensures short { HasFault (Text (codes ".d")) 3 (ControlLength 2 3) }
    ensures delta { HasFault (Text (codes "..d")) 3 (DeltaColumn 2) }
    ensures letter { HasFault (Text (codes "..y")) 3 (ControlLetter 2) }
    ensures later { ¬ (HasFault (Text (codes "y.d")) 3 (DeltaColumn 2)) }
{}
