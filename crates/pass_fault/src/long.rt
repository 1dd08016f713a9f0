// The refusal of a record that no cell can have.
ghost use Rattle.std.specs.Prelude.{◌≡◌, None};
ghost use Rattle.pass_fault.specs.Faults.{RefusesLong, fault_in};

use crate::fault::PassFault;
use prepared_spec::RecordCause;
use rbu_value::Bytes;
use std::alloc::Global;
use tree_spec::TreeFault;

/// Refusal 96 of a record of more than 2147483647 bytes, with the name of its table and the rowid of its row, unless memory is wanting.
pub fn refuse_long<F>(alloc: Global, name: &[u8], rowid: i64) -> PassFault<F>
    ensures refuses { RefusesLong name.now rowid result }
    ensures cause { fault_in result ≡ None }
{
    match Bytes::of(alloc, name) {
        Ok(table) => PassFault::TargetRecord {
            table,
            rowid,
            cause: RecordCause::SizeOverLimit,
        },
        Err(error) => PassFault::Tree(TreeFault::Memory(error)),
    }
}
