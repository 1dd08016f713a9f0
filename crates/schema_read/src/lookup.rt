// What the layers above ask of a catalog.
ghost use Rattle.std.specs.Prelude.{◌≡◌, ◌<◌, ◌==◌, [], IfOk, length, option_copied, option_map, slice_get, slice_index_or};
ghost use Rattle.database_spec.specs.declared.catalog.NamedEntry.{NamedEntry};
ghost use Rattle.schema_read.specs.Firsts.{HasFirsts};
ghost use Rattle.schema_read.specs.Lookups.{entry_named, is_entry_named};
ghost use Rattle.schema_spec.specs.Words.{same_name};

use crate::firsts::{first_place, note};
use crate::names::{Name, NameQuery};
use database_spec::{Catalog as KnownCatalog, Entry, NamedEntry};
use indexmap::IndexMap;
use std::alloc::{AllocError, Global};
use std::marker::Model;

/// The tables and indexes of a database, which contracts see as the catalog of `database_spec`.
#[derive(Drop)]
pub struct Catalog {
    known: KnownCatalog,
    // The place of the first table with each name.
    places: IndexMap<Name, usize>,
}

impl Model for Catalog {
    ghost use Rattle.database_spec.specs.declared.catalog.Catalog.{Catalog as Known};

    ghost Value = { Known };

    ghost use Rattle.schema_read.specs.Firsts.{HasFirsts as HasPlaces};
    ghost use Rattle.schema_read.specs.Lookups.{is_entry_named as has_name};
    ghost use Rattle.schema_spec.specs.Words.{same_name as one_name};

    ghost view = { λ c. c.known };

    ghost invariant = { λ c. HasPlaces one_name has_name c.places c.known.tables };
}

// The place of the first table with each name.
fn places_of(alloc: Global, tables: &[NamedEntry]) -> Result<IndexMap<Name, usize>, AllocError>
    ensures { IfOk result (λ places. HasFirsts same_name is_entry_named places tables.now) }
{
    let mut places = IndexMap::new(alloc);
    let mut at = 0;
    let mut left = tables;
    while let [named, rest @ ..] = left {
        note(&mut places, Name::of(alloc, named.name.as_slice())?, at)?;
        at += 1;
        left = rest;
    }
    Ok(places)
}

fn entry_at(tables: &[NamedEntry], at: usize) -> Option<&Entry>
    ensures { option_copied result ≡ option_map (λ named. named.entry) (slice_get tables.now at) }
{
    match tables.get(at) {
        Some(named) => Some(&named.entry),
        None => None,
    }
}

impl Catalog {
    pub(crate) fn of(alloc: Global, known: KnownCatalog) -> Result<Catalog, AllocError>
        ensures { IfOk result (λ catalog. catalog ≡ known) }
    {
        let places = places_of(alloc, known.tables.as_slice())?;
        Ok(Catalog { known, places })
    }

    /// The table or view of this name, where the case of ASCII letters does not count. `None` exactly where there is none. The time does not depend on the number of tables.
    pub fn table(&self, name: &[u8]) -> Option<&Entry>
        ensures { option_copied result ≡ entry_named name.now self.now.tables }
    {
        match first_place(&self.places, NameQuery { bytes: name }) {
            Some(at) => entry_at(self.known.tables.as_slice(), at),
            None => None,
        }
    }

    /// The same as a plain value, for what goes through its tables.
    pub fn known(&self) -> &KnownCatalog
        ensures { result.now ≡ self.now }
    {
        &self.known
    }

    /// The roots of all trees, that of the schema too, in rising order.
    pub fn roots(&self) -> &[u32]
        ensures { result.now ≡ self.now.roots }
    {
        self.known.roots.as_slice()
    }

    /// The number of tables and views.
    pub fn len(&self) -> usize
        ensures { result ≡ length self.now.tables }
    {
        self.known.tables.as_slice().len()
    }

    /// Whether there is no table and no view.
    pub fn is_empty(&self) -> bool
        ensures { result ≡ (length self.now.tables == 0) }
    {
        self.known.tables.as_slice().is_empty()
    }

    /// A table or view with its name, by its place in order of the schema rowids.
    pub fn entry(&self, at: usize) -> (&[u8], &Entry)
        requires { at < length self.now.tables }
        ensures { (d : NamedEntry) → slice_index_or self.now.tables at d ≡ record { name = result.0.now; entry = result.1.now } }
    {
        let named = &self.known.tables.as_slice()[at];
        (named.name.as_slice(), &named.entry)
    }
}
