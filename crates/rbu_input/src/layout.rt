// Where the columns of a target stand in its `data_` table.
ghost use Rattle.std.specs.Prelude.{◌≡◌, ◌+◌, IfOk, length, map, filter, replicate};
ghost use Rattle.schema_spec.specs.Names.{place_of as place_among};
ghost use Rattle.prepared_spec.specs.DataTables.{column_names, has_column as has_column_of};
ghost use Rattle.prepared_spec.specs.PreparedRows.{lettered};
ghost use Rattle.rbu_input.specs.Layouts.{IsLayout, places_of};

use schema_spec::{Column, Table};
use schema_tokens::same_name;
use std::alloc::{AllocError, Global};

/// Where the columns of a target stand in its `data_` table, by places from 0.
#[derive(Drop)]
pub struct Layout {
    /// The place of each column of the target.
    pub columns: Vec<usize>,
    /// The place of the letter of each column of the target.
    pub letters: Vec<usize>,
    /// The place of `rbu_control`.
    pub control: usize,
    /// The place of `rbu_rowid`, which is the number of columns where there is none.
    pub rowid: usize,
    /// The columns of the target's key.
    pub key: Vec<usize>,
    /// A mark for each column of the target that says that it is used.
    pub every: Vec<bool>,
    /// A mark for each that says that it is not.
    pub no: Vec<bool>,
}

// The place of the first column of the name, which is their number where there is none.
fn place_of(columns: &[Column], name: &[u8]) -> usize
    ensures { result ≡ place_among name.now (map (λ column. column.name) columns.now) }
{
    let mut place = 0;
    let mut left = columns;
    while let [column, rest @ ..] = left {
        if same_name(column.name.as_slice(), name) {
            return place;
        }
        place += 1;
        left = rest;
    }
    place
}

/// Whether a table has a column of the name.
pub(crate) fn has_column(table: &Table, name: &[u8]) -> bool
    ensures { result ≡ has_column_of name.now table.now }
{
    let mut left = table.columns.as_slice();
    while let [column, rest @ ..] = left {
        if same_name(name, column.name.as_slice()) {
            return true;
        }
        left = rest;
    }
    false
}

// The place of the letter of a column: among those of the `data_` table that the target has.
fn letter_of(target: &Table, columns: &[Column], name: &[u8]) -> usize
    ensures { result ≡ place_among name.now (filter (λ name. has_column_of name target.now) (map (λ column. column.name) columns.now)) }
{
    let mut place = 0;
    let mut left = columns;
    while let [column, rest @ ..] = left {
        if has_column(target, column.name.as_slice()) {
            if same_name(column.name.as_slice(), name) {
                return place;
            }
            place += 1;
        }
        left = rest;
    }
    place
}

fn column_places(alloc: Global, target: &Table, own: &Table) -> Result<Vec<usize>, AllocError>
    ensures { IfOk result (λ places. places.items ≡ places_of (column_names target.now) (column_names own.now)) }
{
    let mut places = Vec::new(alloc);
    let mut left = target.columns.as_slice();
    while let [column, rest @ ..] = left {
        places.push(place_of(own.columns.as_slice(), column.name.as_slice()))?;
        left = rest;
    }
    Ok(places)
}

fn letter_places(alloc: Global, target: &Table, own: &Table) -> Result<Vec<usize>, AllocError>
    ensures { IfOk result (λ places. places.items ≡ places_of (column_names target.now) (lettered target.now own.now)) }
{
    let mut places = Vec::new(alloc);
    let mut left = target.columns.as_slice();
    while let [column, rest @ ..] = left {
        places.push(letter_of(target, own.columns.as_slice(), column.name.as_slice()))?;
        left = rest;
    }
    Ok(places)
}

fn key_places(alloc: Global, target: &Table) -> Result<Vec<usize>, AllocError>
    ensures { IfOk result (λ places. places.items ≡ target.now.key) }
{
    let mut places = Vec::new(alloc);
    let mut left = target.key.as_slice();
    while let [place, rest @ ..] = left {
        places.push(*place as usize)?;
        left = rest;
    }
    Ok(places)
}

// So many marks.
fn marks(alloc: Global, mark: bool, count: usize) -> Result<Vec<bool>, AllocError>
    ensures { IfOk result (λ marks. marks.items ≡ replicate count mark) }
{
    vec![in alloc; mark; count]
}

/// The layout of a `data_` table for its target.
pub fn layout_of(alloc: Global, target: &Table, own: &Table) -> Result<Layout, AllocError>
    ensures { IfOk result (IsLayout target.now own.now) }
{
    let columns = column_places(alloc, target, own)?;
    let letters = letter_places(alloc, target, own)?;
    let key = key_places(alloc, target)?;
    let count = target.columns.as_slice().len();
    let every = marks(alloc, true, count)?;
    let no = marks(alloc, false, count)?;
    Ok(Layout {
        columns,
        letters,
        control: place_of(own.columns.as_slice(), b"rbu_control"),
        rowid: place_of(own.columns.as_slice(), b"rbu_rowid"),
        key,
        every,
        no,
    })
}
