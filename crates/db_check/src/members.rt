// The members of a tree: rows of a table, and entries of an index (Database File Format, sections 2.3 and 2.4).
ghost use Rattle.std.specs.Prelude.{◌≡◌, ◌↔◌, ℤ, suc, Bool, List, IfErr, IfNone, IfOk, IfSome, IsTrue, None, length, slice_index_or};
ghost use Rattle.format_spec.specs.Record.{IsRecord};
ghost use Rattle.rbu_value.specs.Order.{value_cmp};
ghost use Rattle.rbu_value.specs.declared.value.Value.TheVariants.{Int};
ghost use Rattle.database_spec.specs.Keys.{column_cmp, columns_cmp, entry_cmp, last_value};
ghost use Rattle.db_check.specs.declared.walk.CheckedTree.{CheckedTree};
ghost use Rattle.db_check.specs.declared.walk.Progress.{Progress};
ghost use Rattle.db_check.specs.Answers.{fault_in};
ghost use Rattle.db_check.specs.Steps.{Ended, Steps};
ghost use Rattle.db_check.specs.TreeSteps.{HoldsMember, ReadsEntry, TellsReadable};

use crate::compare::compare_entry;
use crate::fault::CheckFault;
use crate::walk::{CheckedTree, Members, Progress};
use owned_list::OwnedList;
use rbu_value::{Collation, Value, compare};
use record_codec::{RecordFault, read_record};
use refusal::Rule;
use std::alloc::{AllocError, Global};
use std::cmp::Ordering;

/// How values in a column of a key compare.
pub fn column_order(column: (Collation, bool), a: &Value, b: &Value) -> Ordering
    ensures { result ≡ column_cmp column a.now b.now }
{
    let order = compare(a, b, column.0);
    if column.1 { order.reverse() } else { order }
}

/// How the columns of two entries compare: the first that differs decides.
#[tactic(auto, using(crate::proofs::ShortKeys::columns_short, crate::proofs::ShortKeys::columns_shorter))]
pub fn columns_order(columns: &[(Collation, bool)], a: &[Value], b: &[Value]) -> Ordering
    ensures { result ≡ columns_cmp columns.now a.now b.now }
{
    match (columns, a, b) {
        ([column, columns @ ..], [x, a @ ..], [y, b @ ..]) => {
            column_order(*column, x, y).then(columns_order(columns, a, b))
        }
        _ => Ordering::Equal,
    }
}

/// How the values of two entries at a place compare by their bytes: one that is not there is NULL.
pub fn last_order(at: usize, a: &[Value], b: &[Value]) -> Ordering
    ensures { result ≡ value_cmp Collation.Binary (slice_index_or a.now at Value.Null) (slice_index_or b.now at Value.Null) }
{
    let null = Value::Null;
    match (a.get(at), b.get(at)) {
        (Some(x), Some(y)) => compare(x, y, Collation::Binary),
        (Some(x), None) => compare(x, &null, Collation::Binary),
        (None, Some(y)) => compare(&null, y, Collation::Binary),
        (None, None) => compare(&null, &null, Collation::Binary),
    }
}

/// How two entries of an index compare: by their columns, and then by rowid.
pub fn entry_order(columns: &[(Collation, bool)], a: &[Value], b: &[Value]) -> Ordering
    ensures { result ≡ entry_cmp columns.now a.now b.now }
{
    columns_order(columns, a, b).then(last_order(columns.len(), a, b))
}

// Whether values are an entry of an index: one for each column, and the rowid.
fn is_entry(columns: &[(Collation, bool)], entry: &[Value]) -> bool
    ensures { IsTrue result ↔ (length entry.now ≡ suc (length columns.now)) × ((rowid : ℤ) × (last_value columns.now entry.now ≡ Int rowid)) }
{
    if entry.len() != columns.len() + 1 {
        return false;
    }
    match &entry[columns.len()] {
        Value::Int(_) => true,
        _ => false,
    }
}

// Whether values are an entry of the index of a tree.
fn holds_entry(tree: &CheckedTree<'_>, values: &Vec<Value>) -> bool
    ensures { IsTrue result ↔ (length values.now.items ≡ suc (length tree.now.columns)) × ((rowid : ℤ) × (last_value tree.now.columns values.now.items ≡ Int rowid)) }
{
    is_entry(tree.columns.as_slice(), values.as_slice())
}

// Whether an entry stands behind the last one.
fn is_behind(tree: &CheckedTree<'_>, walk: &Progress, entry: &OwnedList<Value>) -> bool
    ensures { IsTrue result ↔ IfSome walk.now.compared.last (λ last. entry_cmp tree.now.columns last entry.now ≡ Ordering.Less) }
{
    match &walk.compared.last {
        None => true,
        Some(last) => {
            entry_order(tree.columns.as_slice(), last.as_slice(), entry.as_slice())
                == Ordering::Less
        }
    }
}

/// The values of a record. `None` where the bytes are none.
pub fn read_values(alloc: Global, payload: &[u8]) -> Result<Option<Vec<Value>>, AllocError>
    ensures found { IfOk result (λ read. IfSome read (λ values. IsRecord payload.now values.items)) }
    ensures none { IfOk result (λ read. IfNone read ((values : List Value) → ¬ IsRecord payload.now values)) }
{
    match read_record(alloc, payload) {
        Ok(values) => Ok(Some(values)),
        Err(RecordFault::Memory(error)) => Err(error),
        Err(RecordFault::ShortHeader) => Ok(None),
        Err(RecordFault::ReservedType) => Ok(None),
        Err(RecordFault::RealValue) => Ok(None),
        Err(RecordFault::BodyLength) => Ok(None),
    }
}

// Whether a record can be read, but for a floating point value.
fn is_readable(alloc: Global, payload: &[u8]) -> Result<bool, AllocError>
    ensures { IfOk result (TellsReadable payload.now) }
{
    match read_record(alloc, payload) {
        Ok(_values) => Ok(true),
        Err(RecordFault::Memory(error)) => Err(error),
        Err(RecordFault::ShortHeader) => Ok(false),
        Err(RecordFault::ReservedType) => Ok(false),
        Err(RecordFault::RealValue) => Ok(true),
        Err(RecordFault::BodyLength) => Ok(false),
    }
}

// The values of an entry of an index. Refuses 74 with `record` where there are none.
fn read_entry<F>(
    alloc: Global,
    tree: &CheckedTree<'_>,
    page: u32,
    payload: &[u8],
) -> Result<OwnedList<Value>, CheckFault<F>>
    ensures answer { ReadsEntry tree.now.columns page payload.now result }
    ensures cause { IfErr result (λ fault. fault_in fault ≡ None) }
{
    let values = match read_values(alloc, payload) {
        Ok(Some(values)) => values,
        Ok(None) => {
            return Err(CheckFault::Damaged {
                page,
                rule: Rule::Record,
            });
        }
        Err(error) => return Err(CheckFault::Memory(error)),
    };
    if !holds_entry(tree, &values) {
        return Err(CheckFault::Damaged {
            page,
            rule: Rule::Record,
        });
    }
    Ok(OwnedList::from_vec(values))
}

// Takes an entry of an index. Refuses 74 with `record` where its record is none, and 72 where it does not stand behind the last one.
fn take_entry<F>(
    alloc: Global,
    tree: &CheckedTree<'_>,
    page: u32,
    payload: &[u8],
    walk: &mut Progress,
) -> Result<(), CheckFault<F>>
    requires { tree.now.members ≡ Members.Entries }
    ensures steps { (flags : List Bool) → Steps tree.now (HoldsMember page payload.now) Ended flags flags walk.old walk.new result }
    ensures cause { IfErr result (λ fault. fault_in fault ≡ None) }
{
    let entry = match read_entry(alloc, tree, page, payload) {
        Ok(entry) => entry,
        Err(fault) => return Err(fault),
    };
    if !is_behind(tree, walk, &entry) {
        return Err(CheckFault::KeyOrder { page });
    }
    compare_entry(tree, &mut walk.compared, entry);
    Ok(())
}

// Takes a row of a table. Refuses 74 with `record` where its record cannot be read; a floating point value is passed over.
fn take_row<F>(alloc: Global, page: u32, payload: &[u8]) -> Result<(), CheckFault<F>>
    ensures steps { (tree : CheckedTree) (flags : List Bool) (walk : Progress) → tree.members ≡ Members.Rows
        → Steps tree (HoldsMember page payload.now) Ended flags flags walk walk result }
    ensures cause { IfErr result (λ fault. fault_in fault ≡ None) }
{
    let readable = match is_readable(alloc, payload) {
        Ok(readable) => readable,
        Err(error) => return Err(CheckFault::Memory(error)),
    };
    if !readable {
        return Err(CheckFault::Damaged {
            page,
            rule: Rule::Record,
        });
    }
    Ok(())
}

/// Takes a member of a tree that is found in a page. Refuses 74 with `record`, and 72.
pub fn take_member<F>(
    alloc: Global,
    tree: &CheckedTree<'_>,
    page: u32,
    payload: &[u8],
    walk: &mut Progress,
) -> Result<(), CheckFault<F>>
    ensures steps { (flags : List Bool) → Steps tree.now (HoldsMember page payload.now) Ended flags flags walk.old walk.new result }
    ensures cause { IfErr result (λ fault. fault_in fault ≡ None) }
{
    match tree.members {
        Members::Rows => take_row(alloc, page, payload),
        Members::Entries => take_entry(alloc, tree, page, payload, walk),
        Members::Any => Ok(()),
    }
}
