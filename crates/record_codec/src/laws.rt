// What holds of all records.
ghost use Rattle.std.specs.Prelude.{◌≡◌, ℕ, ◌++◌, List};
ghost use Rattle.rbu_value.specs.declared.value.Value.{Value};
ghost use Rattle.common_spec.specs.Reading.{OrFault};
ghost use Rattle.common_spec.specs.ReadingLaws.{IsOne};
ghost use Rattle.format_spec.specs.Record.{IsRecord, canonical_record};
ghost use Rattle.record_codec.specs.Faults.{HasFault};
ghost use Rattle.record_codec.specs.Records.{HaveRecord};

/// The canonical record of values is a record of them, where integers, lengths and the size of the header fit 64 bits.
#[tactic(auto, using(crate::specs::RecordLaws::canonical_record_read))]
pub fn canonical_record_is_read()
    ensures { (format : ℕ) (values : List Value) → HaveRecord format values → IsRecord (canonical_record format values) values }
{}

/// No canonical record of such values begins another.
pub fn canonical_records_are_apart()
    ensures { (format : ℕ) (a b : List Value) (x y : List ℕ) → HaveRecord format a → HaveRecord format b → canonical_record format a ++ x ≡ canonical_record format b ++ y → (a ≡ b) × (x ≡ y) }
{}

/// No record begins a record of other values, and so bytes are a record of one list of values at most.
pub fn record_has_one_reading()
    ensures { (a b : List Value) (bytes others x y : List ℕ) → IsRecord bytes a → IsRecord others b → bytes ++ x ≡ others ++ y → (a ≡ b) × (bytes ≡ others) }
{}

/// Bytes are a record of one list of values, or have one fault, and never both.
pub fn bytes_are_a_record_or_have_one_fault()
    ensures { (bytes : List ℕ) → IsOne (OrFault (IsRecord bytes) (HasFault bytes)) }
{}
