// What stops a walk over an overflow chain.
ghost use Rattle.std.specs.Prelude.{◌≡◌};
ghost use Rattle.overflow_chain.specs.declared.fault.ChainFault.TheVariants.{Memory};

use std::alloc::AllocError;

/// Why an overflow chain has no answer.
#[derive(Debug, Drop)]
pub enum ChainFault<F> {
    /// A next page is 0 too early, not 0 at the end, or out of range: refusal 45. The page is the one in which that number stands, or the first page where its number is wrong.
    ChainBroken { page: u64 },
    /// The store failed.
    Store(F),
    /// Memory ran out.
    Memory(AllocError),
}

impl<F> From<AllocError> for ChainFault<F> {
    ghost from_gives = { λ error fault. fault ≡ Memory error };

    fn from(error: AllocError) -> ChainFault<F> {
        ChainFault::Memory(error)
    }
}
