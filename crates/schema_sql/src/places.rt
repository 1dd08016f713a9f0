// Columns of a table by their places.
ghost use Rattle.std.specs.Prelude.{◌≡◌, ◌≤◌, IfOk, length, map, slice_index_or};
ghost use Rattle.schema_spec.specs.Names.{listed_name, place_of};
ghost use Rattle.schema_spec.specs.Texts.{listed};

use crate::names::collation_of;
use owned_list::OwnedList;
use rbu_value::Collation;
use schema_spec::{Column, ListedColumn};
use schema_tokens::{name_of, same_name};
use std::alloc::{AllocError, Global};

// The place of the first column of the name, which is their number where there is none.
fn place_of(columns: &[Column], name: &[u8]) -> usize
    ensures { result ≡ place_of name.now (map (λ column. column.name) columns.now) }
{
    let mut place = 0;
    let mut left = columns;
    while let [column, rest @ ..] = left {
        if same_name(column.name.as_slice(), name) {
            return place;
        }
        place += 1;
        left = rest;
    }
    place
}

// The same in 32 bits; a table of more columns wants memory.
pub(crate) fn place_in(columns: &[Column], name: &[u8]) -> Result<u32, AllocError>
    ensures { IfOk result (λ place. place ≡ place_of name.now (map (λ column. column.name) columns.now)) }
{
    let place = place_of(columns, name);
    if place > u32::MAX as usize {
        return Err(AllocError);
    }
    Ok(place as u32)
}

// The collation of the column at a place.
fn collation_at(columns: &[Column], place: usize) -> Collation
    ensures { result ≡ slice_index_or (map (λ column. column.collation) columns.now) place Collation.Binary }
{
    match columns.get(place) {
        Some(column) => column.collation,
        None => Collation::Binary,
    }
}

// The place of a column of a list, and its collation: its own, or that of the column at the place.
pub(crate) fn listed(
    alloc: Global,
    text: &[u8],
    columns: &[Column],
    column: &ListedColumn,
) -> Result<(u32, Collation), AllocError>
    ensures { IfOk result (λ found. found ≡ listed text.now (map (λ column. column.name) columns.now) (map (λ column. column.collation) columns.now) column.now) }
{
    let name = name_of(alloc, text, column.name)?;
    let place = place_in(columns, name.as_slice())?;
    match column.collation {
        Some(token) => {
            let named = collation_of(alloc, text, token)?;
            Ok((place, named.unwrap_or(Collation::Binary)))
        }
        None => Ok((place, collation_at(columns, place as usize))),
    }
}

// The same for each column of a list.
pub(crate) fn all_listed(
    alloc: Global,
    text: &[u8],
    columns: &[Column],
    list: &[ListedColumn],
) -> Result<OwnedList<(u32, Collation)>, AllocError>
    ensures { IfOk result (λ found. found ≡ map (listed text.now (map (λ column. column.name) columns.now) (map (λ column. column.collation) columns.now)) list.now) }
{
    let mut found = Vec::new(alloc);
    let mut left = list;
    while let [column, rest @ ..] = left {
        found.push(listed(alloc, text, columns, column)?)?;
        left = rest;
    }
    Ok(OwnedList::from_vec(found))
}

// The places of the columns of a list.
pub(crate) fn places(
    alloc: Global,
    text: &[u8],
    columns: &[Column],
    list: &[ListedColumn],
) -> Result<OwnedList<u32>, AllocError>
    ensures { IfOk result (λ places. places ≡ map (λ column. place_of (listed_name text.now column) (map (λ column. column.name) columns.now)) list.now) }
{
    let mut places = Vec::new(alloc);
    let mut left = list;
    while let [column, rest @ ..] = left {
        let name = name_of(alloc, text, column.name)?;
        places.push(place_in(columns, name.as_slice())?)?;
        left = rest;
    }
    Ok(OwnedList::from_vec(places))
}
