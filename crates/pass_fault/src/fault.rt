// Why a step has no answer.
ghost use Rattle.std.specs.Prelude.{◌≡◌};
ghost use Rattle.tree_spec.specs.declared.fault.TreeFault.TheVariants.{Memory};
ghost use Rattle.pass_fault.specs.declared.fault.PassFault.TheVariants.{Tree};

use prepared_spec::RecordCause;
use rbu_value::Bytes;
use std::alloc::AllocError;
use tree_spec::TreeFault;

/// Why a step of a pass, or a call that reads what the steps of a table need, has no answer. `F` is what the store answers where it fails.
#[derive(Drop)]
pub enum PassFault<F> {
    /// What stops a call on a tree: a damaged tree, refusal 55; a damaged freelist, refusal 50; no page is left, refusal 51; the store failed; or memory ran out.
    Tree(TreeFault<F>),
    /// A record of the table is not read as a row of it, or a step would put one that is too long: refusal 96. The table and the rowid are the target's.
    TargetRecord {
        table: Bytes,
        rowid: i64,
        cause: RecordCause,
    },
}

impl<F> From<TreeFault<F>> for PassFault<F> {
    ghost from_gives = { λ fault given. given ≡ Tree fault };

    fn from(fault: TreeFault<F>) -> PassFault<F> {
        PassFault::Tree(fault)
    }
}

impl<F> From<AllocError> for PassFault<F> {
    ghost from_gives = { λ error given. given ≡ Tree (Memory error) };

    fn from(error: AllocError) -> PassFault<F> {
        PassFault::Tree(TreeFault::Memory(error))
    }
}
