// What a table's text says, before it is known whether that is allowed.
ghost use Rattle.std.specs.Prelude.{IfOk};
ghost use Rattle.schema_sql.specs.Parts.{AreParts};

use crate::columns::columns_of;
use crate::keys::{column_constraints, keys, listed_columns, primary_columns};
use crate::rowid::rowid_of;
use crate::wrong::{push_further_primaries, push_unknown};
use owned_list::OwnedList;
use rbu_value::Bytes;
use schema_spec::{Column, ColumnConstraint, Key, ListedColumn, TableText, Token};
use std::alloc::{AllocError, Global};

// What a table's text says.
#[derive(Drop)]
pub(crate) struct Parts {
    pub(crate) columns: OwnedList<Column>,
    // All constraints of columns, in the order of the text.
    pub(crate) constraints: OwnedList<ColumnConstraint>,
    // All columns in the lists of the table's constraints, in the order of the text.
    pub(crate) listed: OwnedList<ListedColumn>,
    pub(crate) keys: OwnedList<Key>,
    // The name of the rowid column.
    pub(crate) rowid: Option<Bytes>,
    // The tokens that name a column wrongly.
    pub(crate) wrong: OwnedList<Token>,
}

// The parts of a table's text.
pub(crate) fn parts_of(alloc: Global, text: &[u8], table: &TableText) -> Result<Parts, AllocError>
    ensures { IfOk result (AreParts text.now table.now) }
{
    let mut wrong = Vec::new(alloc);
    let columns = columns_of(&mut wrong, alloc, text, table.columns.as_slice())?;
    let listed = listed_columns(alloc, table.constraints.as_slice())?;
    push_unknown(
        &mut wrong,
        alloc,
        text,
        columns.as_slice(),
        listed.as_slice(),
    )?;
    let keys = keys(alloc, table)?;
    push_further_primaries(&mut wrong, keys.as_slice())?;
    let primary = primary_columns(keys.as_slice());
    let rowid = rowid_of(alloc, text, table.columns.as_slice(), primary)?;
    let constraints = column_constraints(alloc, table.columns.as_slice())?;
    Ok(Parts {
        columns,
        constraints,
        listed,
        keys,
        rowid,
        wrong: OwnedList::from_vec(wrong),
    })
}
