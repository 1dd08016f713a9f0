// Why prepared rows are not read.
ghost use Rattle.std.specs.Prelude.{◌≡◌, IfOk};
ghost use Rattle.rbu_input.specs.declared.fault.InputError.{InputError as AnyFault};
ghost use Rattle.rbu_input.specs.RowAnswers.{IsWant};

use prepared_spec::InputFault;
use std::alloc::{AllocError, AllocFailed};

/// Why a `data_` table, or a row of one, is not read.
#[derive(Drop)]
pub enum InputError {
    /// It is refused.
    Refused(InputFault),
    /// There is no memory.
    Memory(AllocError),
}

impl From<AllocError> for InputError {
    ghost from_gives = { λ error fault. fault ≡ AnyFault.Memory error };

    fn from(error: AllocError) -> InputError {
        InputError::Memory(error)
    }
}

impl<T: Drop> From<AllocFailed<T>> for InputError {
    ghost from_gives = { λ _ fault. IsWant fault };

    fn from(_: AllocFailed<T>) -> InputError {
        InputError::Memory(AllocError)
    }
}
