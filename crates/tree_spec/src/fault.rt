// What stops a call on a tree.
ghost use Rattle.std.specs.Prelude.{◌≡◌, None};
ghost use Rattle.tree_spec.specs.declared.fault.TreeFault.TheVariants.{Memory, TreeDamaged};
ghost use Rattle.tree_spec.specs.Faults.{fault_in};

use refusal::Rule;
use std::alloc::AllocError;

/// Why a call on a tree has no answer. `F` is what the store answers where it fails.
#[derive(Debug, Drop)]
pub enum TreeFault<F> {
    /// The tree is damaged: refusal 55. The page is the one that holds what is wrong.
    TreeDamaged { page: u64, rule: Rule },
    /// The freelist is damaged: refusal 50. The page is the one that holds what is wrong.
    TrunkDamaged { page: u64 },
    /// No page is free, and the next one past the end would pass the limit: refusal 51. `pages` is the store's count.
    TargetFull { pages: u64, limit: u64 },
    /// The store failed.
    Store(F),
    /// Memory ran out.
    Memory(AllocError),
}

impl<F> From<AllocError> for TreeFault<F> {
    ghost from_gives = { λ error fault. fault ≡ Memory error };

    fn from(error: AllocError) -> TreeFault<F> {
        TreeFault::Memory(error)
    }
}

/// Refusal 55: what is wrong stands in this page.
pub fn damaged<F>(page: u32, rule: Rule) -> TreeFault<F>
    ensures is { result ≡ TreeDamaged page rule }
    ensures cause { fault_in result ≡ None }
{
    TreeFault::TreeDamaged {
        page: u64::from(page),
        rule,
    }
}
