// Makes the catalog of rows that have no fault.
ghost use Rattle.std.specs.Prelude.{◌≡◌, ◌∷◌, filter_map, IfOk, IsPermutation, OnOk};
ghost use Rattle.std.specs.List.Sorted.{IsSorted};
ghost use Rattle.std.specs.Ordering.{nat_cmp};
ghost use Rattle.schema_read.specs.Entries.{IsMadeOf, StandsWith, StandAll, entry_of, root_in as root_in_of, root_of, roots_of};

use crate::check::Placed;
use crate::found::Found;
use database_spec::{Catalog, Entry, NamedEntry};
use owned_list::OwnedList;
use std::alloc::{AllocError, Global};

// A root in 32 bits; those of tables and indexes have no more.
fn root_in(root: u64) -> u32
    ensures { result ≡ root_of root }
{
    if root > u32::MAX as u64 {
        return 0;
    }
    root as u32
}

// Puts an index to the table at its place.
fn stand(found: &mut [Found], placed: Placed) -> Result<(), AllocError>
    ensures { OnOk result (StandsWith found.old placed found.new) }
{
    if placed.at < found.len() {
        let table = &mut found[placed.at];
        table.indexes.push((placed.root, placed.meaning))?;
    }
    Ok(())
}

// Puts each index to its table.
fn stand_all(found: &mut [Found], placed: Vec<Placed>) -> Result<(), AllocError>
    ensures { OnOk result (StandAll found.old placed.items found.new) }
{
    for one in placed {
        stand(found, one)?;
    }
    Ok(())
}

// A table or a view with its name, or none of another member.
fn entry(found: Found) -> Option<NamedEntry>
    ensures { result ≡ entry_of found }
{
    match (found.row, found.meaning) {
        (Some(row), Some(meaning)) => Some(NamedEntry {
            name: row.name,
            entry: Entry {
                root: root_in(row.root),
                meaning,
                indexes: OwnedList::from_vec(found.indexes),
            },
        }),
        _ => None,
    }
}

fn tables(alloc: Global, found: Vec<Found>) -> Result<Vec<NamedEntry>, AllocError>
    ensures { IfOk result (λ tables. tables.items ≡ filter_map entry_of found.items) }
{
    let mut tables = Vec::new(alloc);
    for one in found {
        if let Some(named) = entry(one) {
            tables.push(named)?;
        }
    }
    Ok(tables)
}

fn root_at(found: &Found) -> u32
    ensures { result ≡ root_in_of found.now }
{
    match &found.row {
        Some(row) => root_in(row.root),
        None => 0,
    }
}

// The roots of the schema's tree and of all tables and indexes, as they come.
fn roots(alloc: Global, found: &[Found]) -> Result<Vec<u32>, AllocError>
    ensures { IfOk result (λ roots. roots.items ≡ 1 ∷ roots_of found.now) }
{
    let mut roots = Vec::new(alloc);
    roots.push(1)?;
    let mut left = found;
    while let [one, rest @ ..] = left {
        let root = root_at(one);
        if root != 0 {
            roots.push(root)?;
        }
        left = rest;
    }
    Ok(roots)
}

fn sorted_roots(alloc: Global, found: &[Found]) -> Result<Vec<u32>, AllocError>
    ensures same { IfOk result (λ roots. IsPermutation (1 ∷ roots_of found.now) roots.items) }
    ensures sorted { IfOk result (λ roots. IsSorted nat_cmp roots.items) }
{
    let mut all = roots(alloc, found)?;
    all.sort_unstable();
    Ok(all)
}

/// The catalog of members that have no fault, with their indexes by the places of their tables.
pub(crate) fn catalog_of(
    alloc: Global,
    mut found: Vec<Found>,
    placed: Vec<Placed>,
) -> Result<Catalog, AllocError>
    ensures { IfOk result (IsMadeOf found.items placed.items) }
{
    let roots = sorted_roots(alloc, found.as_slice())?;
    stand_all(found.as_mut_slice(), placed)?;
    let tables = tables(alloc, found)?;
    Ok(Catalog {
        tables: OwnedList::from_vec(tables),
        roots: OwnedList::from_vec(roots),
    })
}
