// The `data_` tables of an RBU database, in order of their names.
ghost use Rattle.std.specs.Prelude.{◌≡◌, IfOk, drop, filter, map, option_copied};
ghost use Rattle.std.specs.List.Sorted.{IsPermutation, IsSortedBy};
ghost use Rattle.prepared_spec.specs.DataTables.{behind_digits as behind_digits_of, target_in as target_in_of};
ghost use Rattle.rbu_input.specs.Sources.{is_before, is_source};

use crate::table::front;
use database_spec::{Catalog, NamedEntry};
use std::alloc::{AllocError, Global};

// All but the first so many bytes of a text.
fn behind(text: &[u8], count: usize) -> &[u8]
    ensures { result.now ≡ drop count text.now }
{
    if text.len() < count {
        return &[];
    }
    &text[count..]
}

// What stands behind digits and `_`.
fn behind_digits(text: &[u8]) -> Option<&[u8]>
    ensures { option_copied result ≡ behind_digits_of text.now }
{
    let mut left = text;
    while let [byte, rest @ ..] = left {
        if !byte.is_ascii_digit() {
            if *byte == b'_' {
                return Some(rest);
            }
            return None;
        }
        left = rest;
    }
    None
}

/// The name of the target in that of a `data_` table.
pub(crate) fn target_in(name: &[u8]) -> Option<&[u8]>
    ensures { option_copied result ≡ target_in_of name.now }
{
    if front(name, 4) != b"data".as_slice() {
        return None;
    }
    behind_digits(behind(name, 4))
}

// The `data_` tables, in the order of the schema.
fn find_sources<'a>(alloc: Global, catalog: &'a Catalog) -> Result<Vec<&'a NamedEntry>, AllocError>
    ensures { IfOk result (λ sources. map (λ named. named.now) sources.items ≡ filter is_source catalog.now.tables) }
{
    let mut sources = Vec::new(alloc);
    let mut left = catalog.tables.as_slice();
    while let [named, rest @ ..] = left {
        if target_in(named.name.as_slice()).is_some() {
            sources.push(named)?;
        }
        left = rest;
    }
    Ok(sources)
}

/// The `data_` tables, in order of their whole names by bytes.
pub(crate) fn sorted_sources<'a>(
    alloc: Global,
    catalog: &'a Catalog,
) -> Result<Vec<&'a NamedEntry>, AllocError>
    ensures all { IfOk result (λ sources. IsPermutation (filter is_source catalog.now.tables) (map (λ named. named.now) sources.items)) }
    ensures sorted { IfOk result (λ sources. IsSortedBy is_before sources.items) }
{
    let mut sources = find_sources(alloc, catalog)?;
    sources.sort_unstable_by(|a, b| a.name.as_slice().cmp(b.name.as_slice()));
    Ok(sources)
}
