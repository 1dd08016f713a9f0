// The rowid column.
ghost use Rattle.std.specs.Prelude.{◌≡◌, ◌&&◌, IfOk, codes};
ghost use Rattle.schema_spec.specs.Names.{declared_type, is_integer, is_rowid, own_name, rowid_of};
ghost use Rattle.schema_spec.specs.Words.{same_name};

use crate::names::declared_type;
use rbu_value::Bytes;
use schema_spec::{ColumnText, ListedColumn};
use schema_tokens::{name_of, same_name};
use std::alloc::{AllocError, Global};

// The column has the name, and the declared type INTEGER and nothing else.
fn is_integer_named(
    alloc: Global,
    text: &[u8],
    column: &ColumnText,
    name: &[u8],
) -> Result<bool, AllocError>
    ensures { IfOk result (λ found. found ≡ (same_name (own_name text.now column.now) name.now && same_name (declared_type text.now column.now) (codes "INTEGER"))) }
{
    let own = name_of(alloc, text, column.name)?;
    Ok(same_name(own.as_slice(), name) && same_name(declared_type(text, column), b"INTEGER"))
}

// Some column of this name has the declared type INTEGER, and nothing else.
fn is_integer(
    alloc: Global,
    text: &[u8],
    columns: &[ColumnText],
    name: &[u8],
) -> Result<bool, AllocError>
    ensures { IfOk result (λ found. found ≡ is_integer text.now columns.now name.now) }
{
    let mut left = columns;
    while let [column, rest @ ..] = left {
        if is_integer_named(alloc, text, column, name)? {
            return Ok(true);
        }
        left = rest;
    }
    Ok(false)
}

// The name of the rowid column, where these are the PRIMARY KEY's columns: of the one column, where this is an INTEGER.
pub(crate) fn rowid_of(
    alloc: Global,
    text: &[u8],
    columns: &[ColumnText],
    primary: &[ListedColumn],
) -> Result<Option<Bytes>, AllocError>
    ensures { IfOk result (λ name. name ≡ rowid_of text.now columns.now primary.now) }
{
    match primary {
        [column] => {
            let name = name_of(alloc, text, column.name)?;
            if is_integer(alloc, text, columns, name.as_slice())? {
                return Ok(Some(name));
            }
            Ok(None)
        }
        [] => Ok(None),
        [_, _, ..] => Ok(None),
    }
}

// The columns are the rowid column alone.
pub(crate) fn is_rowid(
    alloc: Global,
    text: &[u8],
    rowid: &Option<Bytes>,
    columns: &[ListedColumn],
) -> Result<bool, AllocError>
    ensures { IfOk result (λ found. found ≡ is_rowid text.now rowid.now columns.now) }
{
    let Some(name) = rowid else {
        return Ok(false);
    };
    match columns {
        [column] => {
            let own = name_of(alloc, text, column.name)?;
            Ok(same_name(own.as_slice(), name.as_slice()))
        }
        [] => Ok(false),
        [_, _, ..] => Ok(false),
    }
}
