// Reads a row of a `data_` table.
ghost use Rattle.std.specs.Prelude.{◌≡◌, ◌≤◌, ◌<◌, ◌⊎◌, ℕ, List, IfOk, IfErr, OnOk, Some, None, length, slice_index_or, slice_set, replicate, true, false};
ghost use Rattle.common_spec.specs.Reading.{OrFault, ReadsOrWants};
ghost use Rattle.format_spec.specs.Record.{canonical_record};
ghost use Rattle.rbu_value.specs.declared.value.Value.TheVariants.{Null};
ghost use Rattle.rbu_rows.specs.declared.control.ControlFault.{ControlFault as AnyControlFault};
ghost use Rattle.rbu_rows.specs.Controls.{IsControl, HasFault as ControlHasFault, IsMemory as IsControlWant};
ghost use Rattle.prepared_spec.specs.declared.input_fault.InputFault.{InputFault as AnyFault};
ghost use Rattle.refusal.specs.declared.Measure.TheVariants.{Record};
ghost use Rattle.prepared_spec.specs.declared.input_fault.RecordCause.{RecordCause as AnyCause};
ghost use Rattle.rbu_input.specs.declared.values.Unread.{Unread as AnyUnread};
ghost use Rattle.schema_spec.specs.declared.schema.Table.{Table as AnyTable};
ghost use Rattle.prepared_spec.specs.RowKeys.{key_at};
ghost use Rattle.prepared_spec.specs.Tables.{stored_values};
ghost use Rattle.prepared_spec.specs.PreparedRows.{ChangesSome, IsPrepared, IsUnprepared, IsWrongRow, key_fault, record_length as record_length_of};
ghost use Rattle.compared_keys.specs.Keys.{HasKey};
ghost use Rattle.rbu_input.specs.Layouts.{IsLayout, marks_at, reordered, values_at};
ghost use Rattle.rbu_input.specs.RowAnswers.{HasValues, IsRefused, IsRightRow, IsWant, Refuses, member_with};

use crate::fault::InputError;
use crate::layout::Layout;
use crate::values::{Unread, copy_all, copy_at, row_values};
use crate::wrong::{class_changed, has_null, has_rowid_key, is_integer_key, key_changed, uses};
use owned_list::OwnedList;
use prepared_spec::InputFault;
use rbu_rows::{Control, ControlFault, Prepared, read_control};
use rbu_value::{Bytes, Value};
use record_codec::record_length;
use refusal::Measure;
use schema_spec::Table;
use std::alloc::{AllocError, Global};
use std::mem;
use tree_walk::Row;

/// A prepared row, with the length of its record.
#[derive(Drop)]
pub struct SizedRow {
    pub prepared: Prepared,
    pub length: usize,
}

// Marks in the order of their places.
fn marks_in_order(alloc: Global, marks: &[bool], places: &[usize]) -> Result<Vec<bool>, AllocError>
    ensures { IfOk result (λ ordered. ordered.items ≡ marks_at marks.now places.now) }
{
    let mut ordered = Vec::new(alloc);
    let mut left = places;
    while let [at, rest @ ..] = left {
        ordered.push(marks.get(*at).copied().unwrap_or(false))?;
        left = rest;
    }
    Ok(ordered)
}

// A control with its marks in the order of the target's columns.
fn in_target_order(
    alloc: Global,
    control: Control,
    letters: &[usize],
) -> Result<Control, AllocError>
    ensures { IfOk result (λ ordered. ordered ≡ reordered letters.now control) }
{
    match control {
        Control::Insert => Ok(Control::Insert),
        Control::Replace => Ok(Control::Replace),
        Control::Delete => Ok(Control::Delete),
        Control::Update(marks) => {
            let ordered = marks_in_order(alloc, marks.as_slice(), letters)?;
            Ok(Control::Update(OwnedList::from_vec(ordered)))
        }
    }
}

// The refusal of a control, unless memory was wanting.
fn refuse_control(alloc: Global, source: &[u8], row: &Row, fault: ControlFault) -> InputError
    ensures { IsWant result ⊎ Refuses (λ refused. (¬ IsControlWant fault) × (refused ≡ AnyFault.Control source.now row.now.rowid fault)) result }
{
    let table = match Bytes::of(alloc, source) {
        Ok(table) => table,
        Err(error) => return InputError::Memory(error),
    };
    let rowid = row.rowid;
    match fault {
        ControlFault::Memory(error) => InputError::Memory(error),
        ControlFault::ControlValue => InputError::Refused(InputFault::Control {
            table,
            rowid,
            fault,
        }),
        ControlFault::ControlLength { has: _, needs: _ } => {
            InputError::Refused(InputFault::Control {
                table,
                rowid,
                fault,
            })
        }
        ControlFault::ControlLetter { place: _ } => {
            InputError::Refused(InputFault::Control {
                table,
                rowid,
                fault,
            })
        }
        ControlFault::DeltaColumn { place: _ } => {
            InputError::Refused(InputFault::Control {
                table,
                rowid,
                fault,
            })
        }
    }
}

// What a value of `rbu_control` says.
fn row_control(
    alloc: Global,
    source: &[u8],
    columns: u32,
    row: &Row,
    value: &Value,
) -> Result<Control, InputError>
    ensures found { IfOk result (IsControl value.now columns) }
    ensures fault { IfErr result (λ fault. IsWant fault ⊎ Refuses (λ refused. (wrong : AnyControlFault) × ControlHasFault value.now columns wrong × (refused ≡ AnyFault.Control source.now row.now.rowid wrong)) fault) }
{
    match read_control(alloc, value, columns) {
        Ok(control) => Ok(control),
        Err(fault) => Err(refuse_control(alloc, source, row, fault)),
    }
}

// What the control of a row says.
fn control_of(
    alloc: Global,
    source: &[u8],
    target: &Table,
    layout: &Layout,
    row: &Row,
    values: &[Value],
) -> Result<Control, InputError>
    requires { length target.now.columns ≤ 200 }
    ensures found { IfOk result (IsControl (slice_index_or values.now layout.now.control Null) (length target.now.columns)) }
    ensures fault { IfErr result (λ fault. IsWant fault ⊎ Refuses (λ refused. (wrong : AnyControlFault) × ControlHasFault (slice_index_or values.now layout.now.control Null) (length target.now.columns) wrong × (refused ≡ AnyFault.Control source.now row.now.rowid wrong)) fault) }
{
    let columns = target.columns.as_slice().len() as u32;
    let value = copy_at(alloc, values, layout.control)?;
    row_control(alloc, source, columns, row, &value)
}

// The values of a key: those at the places of its columns, or the rowid's where it has none.
fn key_of(
    alloc: Global,
    places: &[usize],
    rowid: Value,
    values: &[Value],
) -> Result<Vec<Value>, AllocError>
    ensures { IfOk result (λ key. key.items ≡ key_at places.now rowid values.now) }
{
    if places.is_empty() {
        let mut key = Vec::new(alloc);
        key.push(rowid)?;
        return Ok(key);
    }
    copy_all(alloc, values, places)
}

// Takes a value out, and leaves NULL in its place.
#[tactic(auto, using(crate::proofs::Lists::put_back))]
fn take_at(values: &mut [Value], at: usize) -> Value
    requires { at < length values.old }
    ensures left { values.new ≡ slice_set values.old at Null }
    ensures back { slice_set values.new at result ≡ values.old }
{
    mem::replace(&mut values[at], Value::Null)
}

// The length of the record of values, with NULL for the INTEGER PRIMARY KEY; the values stay.
fn stored_length(values: &mut [Value], column: Option<u32>) -> Result<usize, AllocError>
    ensures kept { values.new ≡ values.old }
    ensures length { IfOk result (λ n. n ≡ length (canonical_record 4 (stored_values column values.old))) }
{
    match column {
        Some(column) if (column as usize) < values.len() => {
            let at = column as usize;
            let kept = take_at(values, at);
            let length = record_length(values, 4);
            values[at] = kept;
            length
        }
        Some(_) => record_length(values, 4),
        None => record_length(values, 4),
    }
}

// The prepared row of values and a control.
fn prepare(
    alloc: Global,
    target: &Table,
    layout: &Layout,
    row: &Row,
    values: &[Value],
    control: Control,
) -> Result<SizedRow, AllocError>
    ensures rowid { IfOk result (λ read. read.prepared.data_rowid ≡ row.now.rowid) }
    ensures control { IfOk result (λ read. read.prepared.control ≡ reordered layout.now.letters.items control) }
    ensures values { IfOk result (λ read. read.prepared.values ≡ values_at values.now layout.now.columns.items) }
    ensures key { IfOk result (λ read. read.prepared.key ≡ key_at layout.now.key.items (slice_index_or values.now layout.now.rowid Null) read.prepared.values) }
    ensures length { IfOk result (λ read. read.length ≡ record_length_of target.now read.prepared) }
{
    let control = in_target_order(alloc, control, &layout.letters)?;
    let mut own = copy_all(alloc, values, &layout.columns)?;
    let rowid_value = copy_at(alloc, values, layout.rowid)?;
    let key = key_of(alloc, &layout.key, rowid_value, &own)?;
    let length = stored_length(&mut own, target.rowid_column)?;
    Ok(SizedRow {
        prepared: Prepared {
            data_rowid: row.rowid,
            key: OwnedList::from_vec(key),
            values: OwnedList::from_vec(own),
            control,
        },
        length,
    })
}

// Refuses a NULL in the key, a rowid that is no integer, and a column of the key that an update marks.
fn check_key(
    alloc: Global,
    source: &[u8],
    target: &Table,
    prepared: &Prepared,
) -> Result<(), InputError>
    ensures right { OnOk result (key_fault source.now target.now prepared.now ≡ None) }
    ensures fault { IfErr result (λ fault. IsWant fault ⊎ Refuses (λ refused. key_fault source.now target.now prepared.now ≡ Some refused) fault) }
{
    let rowid = prepared.data_rowid;
    let key = prepared.key.as_slice();
    if has_null(key) {
        let table = Bytes::of(alloc, source)?;
        return Err(InputError::Refused(InputFault::KeyNull { table, rowid }));
    }
    if has_rowid_key(target) && !is_integer_key(key) {
        let table = Bytes::of(alloc, source)?;
        return Err(InputError::Refused(InputFault::KeyMismatch { table, rowid }));
    }
    match key_changed(target, &prepared.control) {
        Some(column) => {
            let table = Bytes::of(alloc, source)?;
            let column = Bytes::of(alloc, column.as_slice())?;
            Err(InputError::Refused(InputFault::KeyChanged {
                table,
                rowid,
                column,
            }))
        }
        None => Ok(()),
    }
}

// Refuses a value that is used and would be stored in another class.
fn check_classes(
    alloc: Global,
    source: &[u8],
    target: &Table,
    layout: &Layout,
    prepared: &Prepared,
) -> Result<(), InputError>
    requires every { layout.now.every.items ≡ replicate (length target.now.columns) true }
    requires no { layout.now.no.items ≡ replicate (length target.now.columns) false }
    ensures right { OnOk result ((column : List ℕ) → ¬ ChangesSome target.now prepared.now column) }
    ensures fault { IfErr result (λ fault. IsWant fault ⊎ Refuses (λ refused. (column : List ℕ) × ChangesSome target.now prepared.now column × (refused ≡ AnyFault.ClassChange source.now prepared.now.data_rowid column)) fault) }
{
    let columns = target.columns.as_slice();
    let used = uses(&prepared.control, &layout.every, &layout.no, columns.len());
    match class_changed(
        target.key.as_slice(),
        columns,
        used,
        prepared.values.as_slice(),
    ) {
        Some(column) => {
            let table = Bytes::of(alloc, source)?;
            let column = Bytes::of(alloc, column.as_slice())?;
            Err(InputError::Refused(InputFault::ClassChange {
                table,
                rowid: prepared.data_rowid,
                column,
            }))
        }
        None => Ok(()),
    }
}

// Refuses a record that is too long.
fn check_length(length: usize) -> Result<(), InputError>
    ensures right { OnOk result (length ≤ 1048576) }
    ensures fault { IfErr result (λ fault. (1048576 < length) × Refuses (λ refused. refused ≡ AnyFault.TooMuch Record length 1048576) fault) }
{
    if length > 1_048_576 {
        return Err(InputError::Refused(InputFault::TooMuch {
            what: Measure::Record,
            has: length as u64,
            limit: 1_048_576,
        }));
    }
    Ok(())
}

// Refuses what is wrong with a prepared row.
fn check_row(
    alloc: Global,
    source: &[u8],
    target: &Table,
    layout: &Layout,
    row: &SizedRow,
) -> Result<(), InputError>
    requires every { layout.now.every.items ≡ replicate (length target.now.columns) true }
    requires no { layout.now.no.items ≡ replicate (length target.now.columns) false }
    requires length { row.now.length ≡ record_length_of target.now row.now.prepared }
    ensures right { OnOk result ((fault : AnyFault) → ¬ IsWrongRow source.now target.now row.now.prepared fault) }
    ensures short { OnOk result (row.now.length ≤ 1048576) }
    ensures fault { IfErr result (λ fault. IsWant fault ⊎ Refuses (IsWrongRow source.now target.now row.now.prepared) fault) }
{
    match check_key(alloc, source, target, &row.prepared) {
        Ok(()) => {}
        Err(fault) => return Err(fault),
    }
    match check_classes(alloc, source, target, layout, &row.prepared) {
        Ok(()) => {}
        Err(fault) => return Err(fault),
    }
    check_length(row.length)
}

// The refusal of a record that is not read, unless memory was wanting.
fn refuse_record(alloc: Global, source: &[u8], row: &Row, unread: Unread) -> InputError
    ensures { IsWant result ⊎ Refuses (λ refused. (cause : AnyCause) × (unread ≡ AnyUnread.Cause cause) × (refused ≡ AnyFault.DataRecord source.now row.now.rowid cause)) result }
{
    match unread {
        Unread::Memory(error) => InputError::Memory(error),
        Unread::Cause(cause) => match Bytes::of(alloc, source) {
            Ok(table) => InputError::Refused(InputFault::DataRecord {
                table,
                rowid: row.rowid,
                cause,
            }),
            Err(error) => InputError::Memory(error),
        },
    }
}

// What the values of a row prepare, or why they prepare nothing.
fn prepared_of(
    alloc: Global,
    source: &[u8],
    target: &Table,
    layout: &Layout,
    row: &Row,
    values: &[Value],
) -> Result<SizedRow, InputError>
    requires { length target.now.columns ≤ 200 }
    ensures found { IfOk result (λ read. (own : AnyTable) → IsLayout target.now own layout.now → HasValues own row.now.rowid row.now.payload values.now → IsPrepared target.now own (member_with row.now.rowid row.now.payload) read.prepared) }
    ensures length { IfOk result (λ read. read.length ≡ record_length_of target.now read.prepared) }
    ensures fault { IfErr result (λ fault. (own : AnyTable) → IsLayout target.now own layout.now → HasValues own row.now.rowid row.now.payload values.now → IsWant fault ⊎ Refuses (IsUnprepared source.now target.now own (member_with row.now.rowid row.now.payload)) fault) }
{
    match control_of(alloc, source, target, layout, row, values) {
        Ok(control) => match prepare(alloc, target, layout, row, values, control) {
            Ok(read) => Ok(read),
            Err(error) => Err(InputError::Memory(error)),
        },
        Err(fault) => Err(fault),
    }
}

// What a member of a `data_` table's tree prepares, or why it prepares nothing.
fn prepared_row(
    alloc: Global,
    source: &[u8],
    target: &Table,
    own: &Table,
    layout: &Layout,
    row: &Row,
) -> Result<SizedRow, InputError>
    requires layout { IsLayout target.now own.now layout.now }
    requires few { length target.now.columns ≤ 200 }
    ensures found { IfOk result (λ read. IsPrepared target.now own.now (member_with row.now.rowid row.now.payload) read.prepared) }
    ensures length { IfOk result (λ read. read.length ≡ record_length_of target.now read.prepared) }
    ensures fault { IfErr result (λ fault. IsWant fault ⊎ Refuses (IsUnprepared source.now target.now own.now (member_with row.now.rowid row.now.payload)) fault) }
{
    match row_values(alloc, own, row) {
        Ok(values) => prepared_of(alloc, source, target, layout, row, values.as_slice()),
        Err(unread) => Err(refuse_record(alloc, source, row, unread)),
    }
}

/// What a row of a `data_` table prepares, with the length of its record, or its first fault: of its record, its control, its key, the classes of its values, and its length.
pub fn read_row(
    alloc: Global,
    source: &[u8],
    target: &Table,
    own: &Table,
    layout: &Layout,
    row: &Row,
) -> Result<SizedRow, InputError>
    requires layout { IsLayout target.now own.now layout.now }
    requires few { length target.now.columns ≤ 200 }
    ensures answer { ReadsOrWants (λ read. read.prepared) IsWant (OrFault (IsRightRow source.now target.now own.now (member_with row.now.rowid row.now.payload)) (IsRefused source.now target.now own.now (member_with row.now.rowid row.now.payload))) result }
    ensures length { IfOk result (λ read. read.length ≡ record_length_of target.now read.prepared) }
    ensures short { IfOk result (λ read. read.length ≤ 1048576) }
    ensures key { IfOk result (λ read. HasKey target.now read.prepared) }
{
    let read = match prepared_row(alloc, source, target, own, layout, row) {
        Ok(read) => read,
        Err(fault) => return Err(fault),
    };
    match check_row(alloc, source, target, layout, &read) {
        Ok(()) => Ok(read),
        Err(fault) => Err(fault),
    }
}
