// How many prepared rows there are, and the bytes of their records.
ghost use Rattle.std.specs.Prelude.{◌≡◌, ◌+◌, ◌≤◌, None, Some, IfOk, IfErr, OnOk};
ghost use Rattle.rbu_input.specs.RowAnswers.{Refuses};
ghost use Rattle.rbu_input.specs.Sums.{AreWithin, sums_fault};

use crate::fault::InputError;
use prepared_spec::InputFault;
use refusal::Measure;

/// The prepared rows so far, of all batches: at most 1000000, whose records have at most 268435456 bytes.
#[derive(Clone, Copy)]
pub(crate) struct Sums {
    rows: u64,
    bytes: u64,
}

impl Sums {
    /// No row.
    pub(crate) fn none() -> Sums
        ensures rows { result.rows ≡ 0 }
        ensures bytes { result.bytes ≡ 0 }
    {
        Sums { rows: 0, bytes: 0 }
    }

    /// The sums with one row more, whose record has so many bytes. Refuses [93] with `rows`, and then with `bytes`.
    pub(crate) fn with_row(self, length: usize) -> Result<Sums, InputError>
        requires within { AreWithin self }
        requires short { length ≤ 1048576 }
        ensures within { IfOk result AreWithin }
        ensures rows { IfOk result (λ sums. sums.rows ≡ self.rows + 1) }
        ensures bytes { IfOk result (λ sums. sums.bytes ≡ self.bytes + length) }
        ensures right { OnOk result (sums_fault self.rows self.bytes length ≡ None) }
        ensures fault { IfErr result (Refuses (λ refused. sums_fault self.rows self.bytes length ≡ Some refused)) }
    {
        let rows = self.rows + 1;
        if rows > 1_000_000 {
            return Err(InputError::Refused(InputFault::TooMuch {
                what: Measure::Rows,
                has: rows,
                limit: 1_000_000,
            }));
        }
        let bytes = self.bytes + length as u64;
        if bytes > 268_435_456 {
            return Err(InputError::Refused(InputFault::TooMuch {
                what: Measure::Bytes,
                has: bytes,
                limit: 268_435_456,
            }));
        }
        Ok(Sums { rows, bytes })
    }
}
