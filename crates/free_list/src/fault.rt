// What stops a change of the freelist.
ghost use Rattle.std.specs.Prelude.{◌≡◌};
ghost use Rattle.free_list.specs.declared.fault.FreeFault.TheVariants.{Memory};

use std::alloc::AllocError;

/// Why no page is taken or given back.
#[derive(Debug, Drop)]
pub enum FreeFault<F> {
    /// The number of a trunk or a leaf page is out of range, or a trunk counts too many: refusal 50. The page is the one in which that number stands.
    TrunkDamaged { page: u64 },
    /// No page is free, and the next page past the end would pass the limit: refusal 51. `pages` is the store's count.
    TargetFull { pages: u64, limit: u64 },
    /// The store failed.
    Store(F),
    /// Memory ran out.
    Memory(AllocError),
}

impl<F> From<AllocError> for FreeFault<F> {
    ghost from_gives = { λ error fault. fault ≡ Memory error };

    fn from(error: AllocError) -> FreeFault<F> {
        FreeFault::Memory(error)
    }
}
