// What stops a check.
ghost use Rattle.std.specs.Prelude.{◌≡◌};
ghost use Rattle.tree_spec.specs.Faults.{fault_in as tree_fault_in};
ghost use Rattle.db_check.specs.declared.fault.CheckFault.TheVariants.{Memory};
ghost use Rattle.db_check.specs.Answers.{fault_in, told};

use rbu_value::Bytes;
use refusal::Rule;
use std::alloc::AllocError;
use tree_walk::TreeFault;

/// Why a file is not sound, or why there is no answer. `F` is what the store answers where it fails.
#[derive(Drop)]
pub enum CheckFault<F> {
    /// A page is found a second time: refusal 70.
    PageTwice { page: u32 },
    /// A page is found nowhere: refusal 71.
    PageLost { page: u32 },
    /// Keys do not rise: refusal 72. The page of the first cell at which the order breaks.
    KeyOrder { page: u32 },
    /// An entry stands in an index or in the projection of its table alone, or two entries of a unique index have equal columns: refusal 73. The rowid is that of the entry, or of the second one.
    IndexDisagrees { index: Bytes, rowid: i64 },
    /// Another rule of soundness is broken: refusal 74. The page that holds what is wrong.
    Damaged { page: u32, rule: Rule },
    /// The store failed.
    Store(F),
    /// Memory ran out.
    Memory(AllocError),
}

impl<F> From<AllocError> for CheckFault<F> {
    ghost from_gives = { λ error fault. fault ≡ Memory error };

    fn from(error: AllocError) -> CheckFault<F> {
        CheckFault::Memory(error)
    }
}

// What stops the walk at a page. A walk takes no page, and so it meets no freelist and no limit.
pub fn told<F>(number: u32, fault: TreeFault<F>) -> CheckFault<F>
    ensures is { result ≡ told number fault }
    ensures cause { fault_in result ≡ tree_fault_in fault }
{
    match fault {
        TreeFault::TreeDamaged { page: _, rule } => CheckFault::Damaged { page: number, rule },
        TreeFault::TrunkDamaged { page: _ } => CheckFault::Damaged {
            page: number,
            rule: Rule::Trunk,
        },
        TreeFault::TargetFull { pages: _, limit: _ } => CheckFault::Damaged {
            page: number,
            rule: Rule::Count,
        },
        TreeFault::Store(fault) => CheckFault::Store(fault),
        TreeFault::Memory(error) => CheckFault::Memory(error),
    }
}
