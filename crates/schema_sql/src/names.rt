// Names that a text gives to columns and collations.
ghost use Rattle.std.specs.Prelude.{◌≡◌, IfOk, map};
ghost use Rattle.schema_spec.specs.Names.{collation_named, collation_of, declared_type, is_among, listed_names, same_names};

use owned_list::OwnedList;
use rbu_value::{Bytes, Collation};
use schema_spec::{Column, ColumnText, ListedColumn, Token};
use schema_tokens::{name_of, part, same_name};
use std::alloc::{AllocError, Global};

// The collation of a name, where it is one of SQLite's three.
fn collation_named(name: &[u8]) -> Option<Collation>
    ensures { result ≡ collation_named name.now }
{
    if same_name(name, b"BINARY") {
        return Some(Collation::Binary);
    }
    if same_name(name, b"NOCASE") {
        return Some(Collation::NoCase);
    }
    if same_name(name, b"RTRIM") {
        return Some(Collation::RTrim);
    }
    None
}

// The collation of the name that a token is, where it is one of SQLite's three.
pub(crate) fn collation_of(
    alloc: Global,
    text: &[u8],
    token: Token,
) -> Result<Option<Collation>, AllocError>
    ensures { IfOk result (λ found. found ≡ collation_of text.now token) }
{
    let name = name_of(alloc, text, token)?;
    Ok(collation_named(name.as_slice()))
}

// The declared type of a column, as it stands in the text.
pub(crate) fn declared_type<'a>(text: &'a [u8], column: &ColumnText) -> &'a [u8]
    ensures { result.now ≡ declared_type text.now column.now }
{
    part(text, column.type_start, column.type_end)
}

// The names of the columns of a list.
pub(crate) fn listed_names(
    alloc: Global,
    text: &[u8],
    columns: &[ListedColumn],
) -> Result<OwnedList<Bytes>, AllocError>
    ensures { IfOk result (λ names. names ≡ listed_names text.now columns.now) }
{
    let mut names = Vec::new(alloc);
    let mut left = columns;
    while let [column, rest @ ..] = left {
        names.push(name_of(alloc, text, column.name)?)?;
        left = rest;
    }
    Ok(OwnedList::from_vec(names))
}

// The names are the same at each place.
pub(crate) fn same_names(a: &[Bytes], b: &[Bytes]) -> bool
    ensures { result ≡ same_names a.now b.now }
{
    let mut left = a;
    let mut others = b;
    while let [name, rest @ ..] = left {
        match others {
            [other, behind @ ..] => {
                if !same_name(name.as_slice(), other.as_slice()) {
                    return false;
                }
                left = rest;
                others = behind;
            }
            [] => return false,
        }
    }
    others.is_empty()
}

// The name is that of a column.
pub(crate) fn is_among(columns: &[Column], name: &[u8]) -> bool
    ensures { result ≡ is_among (map (λ column. column.name) columns.now) name.now }
{
    let mut left = columns;
    while let [column, rest @ ..] = left {
        if same_name(column.name.as_slice(), name) {
            return true;
        }
        left = rest;
    }
    false
}
