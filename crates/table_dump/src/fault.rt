// Why a table is not printed.
ghost use Rattle.std.specs.Prelude.{◌≡◌, None};
ghost use Rattle.tree_spec.specs.Faults.{fault_in as tree_fault_in};
ghost use Rattle.table_dump.specs.declared.fault.RowFault.{RowFault};
ghost use Rattle.table_dump.specs.Answers.{fault_in, of_row_fault, of_tree_fault};

use refusal::{Refusal, Rule};
use std::alloc::AllocError;
use tree_walk::TreeFault;

/// Why a table over a store is not printed. `F` is what the store answers where it fails.
#[derive(Drop)]
pub enum PrintFault<F> {
    /// It is refused.
    Refused(Refusal),
    /// The store failed.
    Store(F),
    /// There is no memory.
    Memory(AllocError),
}

/// Why a row, a text or a name prints nothing.
#[derive(Drop)]
pub(crate) enum RowFault {
    /// It is refused.
    Refused(Refusal),
    /// There is no memory.
    Memory(AllocError),
}

impl From<AllocError> for RowFault {
    ghost from_gives = { λ error fault. fault ≡ RowFault.Memory error };

    fn from(error: AllocError) -> RowFault {
        RowFault::Memory(error)
    }
}

// The damage that a walk meets. A walk takes no page, and so it meets no freelist and no limit.
pub(crate) fn of_tree<F>(fault: TreeFault<F>) -> PrintFault<F>
    ensures is { result ≡ of_tree_fault fault }
    ensures cause { fault_in result ≡ tree_fault_in fault }
{
    match fault {
        TreeFault::TreeDamaged { page, rule } => {
            PrintFault::Refused(Refusal::TreeDamaged { page, rule })
        }
        TreeFault::TrunkDamaged { page } => PrintFault::Refused(Refusal::TreeDamaged {
            page,
            rule: Rule::Trunk,
        }),
        TreeFault::TargetFull { pages, limit: _ } => {
            PrintFault::Refused(Refusal::TreeDamaged {
                page: pages,
                rule: Rule::Count,
            })
        }
        TreeFault::Store(fault) => PrintFault::Store(fault),
        TreeFault::Memory(error) => PrintFault::Memory(error),
    }
}

// A fault of a call that reads no page.
pub(crate) fn of_row<F>(fault: RowFault) -> PrintFault<F>
    ensures is { result ≡ of_row_fault fault }
    ensures cause { fault_in result ≡ None }
{
    match fault {
        RowFault::Refused(refusal) => PrintFault::Refused(refusal),
        RowFault::Memory(error) => PrintFault::Memory(error),
    }
}
