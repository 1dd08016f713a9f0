// Why an RBU database over a store has no prepared rows.
ghost use Rattle.std.specs.Prelude.{◌≡◌, None};
ghost use Rattle.tree_spec.specs.Faults.{fault_in as tree_fault_in};
ghost use Rattle.rbu_input.specs.Reading.{fault_in, of_input_error, of_tree_fault};

use crate::fault::InputError;
use prepared_spec::InputFault;
use refusal::Rule;
use std::alloc::AllocError;
use tree_walk::TreeFault;

/// Why the prepared rows of a store are not read. `F` is what the store answers where it fails.
#[derive(Drop)]
pub enum StoreFault<F> {
    /// They are refused.
    Refused(InputFault),
    /// The store failed.
    Store(F),
    /// There is no memory.
    Memory(AllocError),
}

// The damage that a walk meets. A walk takes no page, and so it meets no freelist and no limit.
pub(crate) fn of_tree<F>(fault: TreeFault<F>) -> StoreFault<F>
    ensures is { result ≡ of_tree_fault fault }
    ensures cause { fault_in result ≡ tree_fault_in fault }
{
    match fault {
        TreeFault::TreeDamaged { page, rule } => {
            StoreFault::Refused(InputFault::TreeDamaged { page, rule })
        }
        TreeFault::TrunkDamaged { page } => StoreFault::Refused(InputFault::TreeDamaged {
            page,
            rule: Rule::Trunk,
        }),
        TreeFault::TargetFull { pages, limit: _ } => {
            StoreFault::Refused(InputFault::TreeDamaged {
                page: pages,
                rule: Rule::Count,
            })
        }
        TreeFault::Store(fault) => StoreFault::Store(fault),
        TreeFault::Memory(error) => StoreFault::Memory(error),
    }
}

// A fault of a call that reads no page.
pub(crate) fn of_input<F>(fault: InputError) -> StoreFault<F>
    ensures is { result ≡ of_input_error fault }
    ensures cause { fault_in result ≡ None }
{
    match fault {
        InputError::Refused(fault) => StoreFault::Refused(fault),
        InputError::Memory(error) => StoreFault::Memory(error),
    }
}
