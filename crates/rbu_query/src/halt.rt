// What ends a call over the files of a disk before its answer.
ghost use Rattle.std.specs.Prelude.{◌≡◌};
ghost use Rattle.rbu_query.specs.declared.halt.Halt.TheVariants.{Fault, Memory};

use rbu_disk::DiskFault;
use std::alloc::AllocError;

/// What ends a call over the files of a disk before its answer.
#[derive(Clone, Copy, Debug, PartialEq, Eq)]
pub enum Halt {
    /// A call on the disk failed.
    Fault(DiskFault),
    /// There is no memory.
    Memory,
}

impl From<DiskFault> for Halt {
    ghost from_gives = { λ fault halt. halt ≡ Fault fault };

    fn from(fault: DiskFault) -> Halt {
        Halt::Fault(fault)
    }
}

impl From<AllocError> for Halt {
    ghost from_gives = { λ _ halt. halt ≡ Memory };

    fn from(_: AllocError) -> Halt {
        Halt::Memory
    }
}
