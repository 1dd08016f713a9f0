// The record of an entry.
ghost use Rattle.std.specs.Prelude.{◌≡◌, ◌≤◌, IfErr, IfOk, None, slice_index_or};
ghost use Rattle.rbu_value.specs.declared.value.Value.TheVariants.{Null};
ghost use Rattle.format_spec.specs.Record.{canonical_record};
ghost use Rattle.page_store.specs.Store.{HasSizes, Looks, OwesBy};
ghost use Rattle.prepared_spec.specs.Tables.{integer_in};
ghost use Rattle.pass_fault.specs.Faults.{IsWanting, fault_in};
ghost use Rattle.pass_fault.specs.Formats.{format_in};
ghost use Rattle.key_order.specs.Orders.{IsEntry};
ghost use Rattle.index_pass.specs.Changes.{RefusesEntry};

use crate::target::Target;
use key_order::is_entry;
use page_store::PageRead;
use pass_fault::{PassFault, read_format};
use rbu_value::Value;
use record_codec::write_record;
use refusal::Rule;
use std::alloc::Global;
use tree_spec::{TreeFault, damaged};

/// The integer of an entry behind its columns, which is its rowid; 0 where no integer stands there.
pub(crate) fn rowid_of(entry: &[Value], columns: usize) -> i64
    ensures { result ≡ integer_in (slice_index_or entry.now columns Null) }
{
    match entry.get(columns) {
        Some(Value::Int(rowid)) => *rowid,
        Some(Value::Null) => 0,
        Some(Value::Text(_)) => 0,
        Some(Value::Blob(_)) => 0,
        None => 0,
    }
}

// The record of an entry under a schema format. Refuses [55] with `record` where it is none of the index.
fn write_entry<F>(
    alloc: Global,
    target: &Target,
    entry: &[Value],
    format: u32,
) -> Result<Vec<u8>, PassFault<F>>
    ensures written { IfOk result (λ payload. payload.items ≡ canonical_record format entry.now) }
    ensures entry { IfOk result (λ payload. IsEntry target.now.order payload.items) }
    ensures refuses { IsEntry target.now.order (canonical_record format entry.now) → IfErr result IsWanting }
    ensures cause { IfErr result (λ fault. fault_in fault ≡ None) }
{
    match write_record(alloc, entry, format) {
        Ok(payload) => {
            if is_entry(payload.as_slice(), &target.order) {
                Ok(payload)
            } else {
                Err(PassFault::Tree(damaged(target.root, Rule::Record)))
            }
        }
        Err(error) => Err(PassFault::Tree(TreeFault::Memory(error))),
    }
}

/// The record of an entry under the schema format of the store. Refuses [55] with `record` where it is none of the index.
pub(crate) fn record_of<S: PageRead>(
    alloc: Global,
    store: &mut S,
    target: &Target,
    entry: &[Value],
) -> Result<Vec<u8>, PassFault<S::Fault>>
    requires sizes { HasSizes S.PageRead store.old }
    requires some { 1 ≤ S.count store.old }
    ensures pages { Looks S.PageRead store.old store.new result (λ payload m. payload.items ≡ canonical_record (format_in (m 1)) entry.now) }
    ensures entry { IfOk result (λ payload. IsEntry target.now.order payload.items) }
    ensures refuses { RefusesEntry S.PageRead target.now entry.now store.old result }
    ensures owes { OwesBy S.PageRead fault_in store.old store.new result }
{
    match read_format(alloc, store) {
        Ok(format) => match write_entry(alloc, target, entry, format) {
            Ok(payload) => Ok(payload),
            Err(fault) => Err(fault),
        },
        Err(fault) => Err(fault),
    }
}
