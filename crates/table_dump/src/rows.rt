// Prints the rows of the tree of a table.
ghost use Rattle.std.specs.Prelude.{◌≡◌, ◌≤◌, ◌++◌, OnOk};
ghost use Rattle.page_store.specs.Store.{HasSizes, OwesBy};
ghost use Rattle.tree_walk.specs.Stores.{SeesTree};
ghost use Rattle.row_values.specs.Values.{member_with};
ghost use Rattle.dump_spec.specs.Printing.{row_line};
ghost use Rattle.table_dump.specs.Answers.{fault_in};
ghost use Rattle.table_dump.specs.Rows.{PrintsFrom, PrintsNext, PrintsRow, PrintsTree};

use crate::fault::{PrintFault, RowFault, of_row, of_tree};
use crate::printing::push_row;
use crate::refused::refuse_record;
use page_store::PageRead;
use rbu_value::{Bytes, Value};
use row_values::row_values;
use schema_spec::Table;
use std::alloc::{AllocError, Global};
use tree_walk::{Cursor, Row, TreeKind};

// Appends the line of a row with these values.
fn push_line(
    alloc: Global,
    text: &mut Vec<u8>,
    row: &Row,
    values: &[Value],
) -> Result<(), AllocError>
    ensures { OnOk result (text.new.items ≡ text.old.items ++ row_line row.now.rowid values.now) }
{
    let rowid = row.rowid;
    push_row(alloc, text, rowid, values)
}

// Appends the line of a row, or refuses one whose record is no row of its table.
fn push_table_row(
    alloc: Global,
    text: &mut Vec<u8>,
    name: &[u8],
    table: &Table,
    row: &Row,
) -> Result<(), RowFault>
    ensures { PrintsRow name.now table.now (member_with row.now.rowid row.now.payload) text.old.items text.new.items result }
{
    match row_values(alloc, table, row) {
        Ok(values) => match push_line(alloc, text, row, &values) {
            Ok(()) => Ok(()),
            Err(error) => Err(RowFault::Memory(error)),
        },
        Err(unread) => Err(refuse_record(alloc, name, row, unread)),
    }
}

// Prints the row at which a cursor stands, and leaves it for the next one. False where none is left. What is wrong with the record comes before what the cursor meets.
fn print_next<S: PageRead>(
    alloc: Global,
    store: &mut S,
    cursor: &mut Cursor,
    text: &mut Vec<u8>,
    name: &[u8],
    table: &Table,
) -> Result<bool, PrintFault<S::Fault>>
    requires { HasSizes S.PageRead store.old }
    ensures pages { SeesTree S.PageRead store.old store.new (λ sizes base. PrintsNext name.now table.now sizes base cursor.old cursor.new text.old.items text.new.items result) }
    ensures owes { OwesBy S.PageRead fault_in store.old store.new result }
{
    match cursor.row(alloc, store) {
        Ok(Some(row)) => match push_table_row(alloc, text, name, table, &row) {
            Ok(()) => match cursor.next(alloc, store) {
                Ok(_) => Ok(true),
                Err(fault) => Err(of_tree(fault)),
            },
            Err(fault) => Err(of_row(fault)),
        },
        Ok(None) => Ok(false),
        Err(fault) => Err(of_tree(fault)),
    }
}

// Prints the rows from a cursor on.
fn print_from<S: PageRead>(
    alloc: Global,
    store: &mut S,
    mut cursor: Cursor,
    name: &[u8],
    table: &Table,
) -> Result<Bytes, PrintFault<S::Fault>>
    requires { HasSizes S.PageRead store.old }
    ensures pages { SeesTree S.PageRead store.old store.new (λ sizes base. PrintsFrom name.now table.now sizes base cursor result) }
    ensures owes { OwesBy S.PageRead fault_in store.old store.new result }
{
    let mut text = Vec::new(alloc);
    for _ in 0..u64::MAX {
        match print_next(alloc, store, &mut cursor, &mut text, name, table) {
            Ok(true) => {}
            Ok(false) => return Ok(Bytes::from_vec(text)),
            Err(fault) => return Err(fault),
        }
    }
    // No memory has so many lines.
    Err(PrintFault::Memory(AllocError))
}

/// The lines of the rows of the table at a root, or the first of its records that is no row: [96], or the damage that a walk meets before: [55].
pub(crate) fn print_tree<S: PageRead>(
    alloc: Global,
    store: &mut S,
    root: u32,
    name: &[u8],
    table: &Table,
) -> Result<Bytes, PrintFault<S::Fault>>
    requires sizes { HasSizes S.PageRead store.old }
    requires first { 1 ≤ root }
    requires last { root ≤ S.count store.old }
    ensures pages { SeesTree S.PageRead store.old store.new (λ sizes base. PrintsTree name.now table.now sizes base root result) }
    ensures owes { OwesBy S.PageRead fault_in store.old store.new result }
{
    match Cursor::first(alloc, store, root, TreeKind::Table) {
        Ok(cursor) => print_from(alloc, store, cursor, name, table),
        Err(fault) => Err(of_tree(fault)),
    }
}
