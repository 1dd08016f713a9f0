// The members of the schema's tree, looked up by their names, roots and automatic indexes.
ghost use Rattle.std.specs.Prelude.{◌≡◌, ◌↔◌, ◌<◌, ℕ, suc, [], take, IfOk, IsFalse, IsTrue, nat_eq, OnOk};
ghost use Rattle.std.specs.List.{position};
ghost use Rattle.common_spec.specs.Reading.{OrNone};
ghost use Rattle.database_spec.specs.Catalogs.{automatic_name as automatic_name_of};
ghost use Rattle.database_spec.specs.RightRows.{has_name, is_automatic};
ghost use Rattle.page_spec.specs.Pages.{IsInRange};
ghost use Rattle.schema_read.specs.Firsts.{Notes};
ghost use Rattle.schema_read.specs.Found.{any_found, has_root, has_table, repeats_in};
ghost use Rattle.schema_read.specs.Members.{HasLookups, NotesMember, NotesRow, is_automatic_named, is_table_named, same_names};
ghost use Rattle.schema_spec.specs.Words.{same_name};

use crate::firsts::{first_place, is_before, note};
use crate::found::{Found, is_index, is_table};
use crate::meanings::automatic_name;
use crate::names::{Name, NameQuery};
use database_spec::SchemaRow;
use indexmap::IndexMap;
use page_store::is_in_range;
use std::alloc::{AllocError, Global};
use std::marker::Model;

/// The place of the first member with each name, root and automatic index.
#[derive(Drop)]
pub(crate) struct Lookups {
    /// Tables and views.
    pub tables: IndexMap<Name, usize>,
    /// Tables, views and indexes.
    pub named: IndexMap<Name, usize>,
    pub roots: IndexMap<u64, usize>,
    /// Indexes without a text, by the names of their tables and their own.
    pub automatic: IndexMap<(Name, Name), usize>,
}

fn note_table(
    tables: &mut IndexMap<Name, usize>,
    alloc: Global,
    row: &SchemaRow,
    at: usize,
) -> Result<(), AllocError>
    ensures { OnOk result (Notes same_name is_table_named tables.old tables.new at row.now) }
{
    if is_table(row.kind) {
        note(tables, Name::of(alloc, row.name.as_slice())?, at)?;
    }
    Ok(())
}

fn note_name(
    named: &mut IndexMap<Name, usize>,
    alloc: Global,
    row: &SchemaRow,
    at: usize,
) -> Result<(), AllocError>
    ensures { OnOk result (Notes same_name has_name named.old named.new at row.now) }
{
    if is_table(row.kind) || is_index(row.kind) {
        note(named, Name::of(alloc, row.name.as_slice())?, at)?;
    }
    Ok(())
}

fn note_root(roots: &mut IndexMap<u64, usize>, row: &SchemaRow, at: usize) -> Result<(), AllocError>
    ensures { OnOk result (Notes nat_eq has_root roots.old roots.new at row.now) }
{
    note(roots, row.root, at)?;
    Ok(())
}

// The names of an index's table and of the index.
fn names_of(alloc: Global, row: &SchemaRow) -> Result<(Name, Name), AllocError>
    ensures { IfOk result (λ names. names ≡ (row.now.table, row.now.name)) }
{
    let table = Name::of(alloc, row.table.as_slice())?;
    let name = Name::of(alloc, row.name.as_slice())?;
    Ok((table, name))
}

fn note_automatic(
    automatic: &mut IndexMap<(Name, Name), usize>,
    alloc: Global,
    row: &SchemaRow,
    at: usize,
) -> Result<(), AllocError>
    ensures { OnOk result (Notes same_names is_automatic_named automatic.old automatic.new at row.now) }
{
    if is_index(row.kind) && row.sql.is_none() {
        note(automatic, names_of(alloc, row)?, at)?;
    }
    Ok(())
}

// The names of a table and of its automatic index with this number.
fn automatic_names(alloc: Global, table: &[u8], number: usize) -> Result<(Name, Name), AllocError>
    ensures { IfOk result (λ names. names ≡ (table.now, automatic_name_of table.now number)) }
{
    let name = automatic_name(alloc, table, number)?;
    let table = Name::of(alloc, table)?;
    Ok((table, Name::from_vec(name)))
}

impl Lookups {
    fn new(alloc: Global) -> Lookups
        ensures tables { result.tables.entries ≡ [] }
        ensures named { result.named.entries ≡ [] }
        ensures roots { result.roots.entries ≡ [] }
        ensures automatic { result.automatic.entries ≡ [] }
    {
        Lookups {
            tables: IndexMap::new(alloc),
            named: IndexMap::new(alloc),
            roots: IndexMap::new(alloc),
            automatic: IndexMap::new(alloc),
        }
    }

    fn note_row(&mut self, alloc: Global, row: &SchemaRow, at: usize) -> Result<(), AllocError>
        ensures { OnOk result (NotesRow self.old self.new at row.now) }
    {
        note_table(&mut self.tables, alloc, row, at)?;
        note_name(&mut self.named, alloc, row, at)?;
        note_root(&mut self.roots, row, at)?;
        note_automatic(&mut self.automatic, alloc, row, at)?;
        Ok(())
    }

    fn note(&mut self, alloc: Global, one: &Found, at: usize) -> Result<(), AllocError>
        ensures { OnOk result (NotesMember self.old self.new at one.now) }
    {
        match &one.row {
            Some(row) => {
                self.note_row(alloc, row, at)?;
                Ok(())
            }
            None => Ok(()),
        }
    }
}

// What members are looked up by.
fn lookups_of(alloc: Global, found: &[Found]) -> Result<Lookups, AllocError>
    ensures { IfOk result (λ lookups. HasLookups lookups found.now) }
{
    let mut lookups = Lookups::new(alloc);
    let mut at = 0;
    let mut left = found;
    while let [one, rest @ ..] = left {
        lookups.note(alloc, one, at)?;
        at += 1;
        left = rest;
    }
    Ok(lookups)
}

/// The members of the schema's tree in their order, which contracts see as a list. Each look-up takes the same time, however many they are.
#[derive(Drop)]
pub(crate) struct Members {
    found: Vec<Found>,
    lookups: Lookups,
}

impl Model for Members {
    ghost use Rattle.std.specs.Prelude.{List};
    ghost use Rattle.schema_read.specs.declared.found.Found.{Found as FoundMember};

    ghost Value = { List FoundMember };

    ghost use Rattle.schema_read.specs.Members.{HasLookups as HasAll};

    ghost view = { λ members. members.found.items };

    ghost invariant = { λ members. HasAll members.lookups members.found.items };
}

impl Members {
    pub fn of(alloc: Global, found: Vec<Found>) -> Result<Members, AllocError>
        ensures { IfOk result (λ members. members ≡ found.items) }
    {
        let lookups = lookups_of(alloc, found.as_slice())?;
        Ok(Members { found, lookups })
    }

    pub fn as_slice(&self) -> &[Found]
        ensures { result.now ≡ self.now }
    {
        self.found.as_slice()
    }

    pub fn into_vec(self) -> Vec<Found>
        ensures { result.items ≡ self }
    {
        let Members { found, lookups: _ } = self;
        found
    }

    /// The place of the first table or view of this name.
    pub fn table_place(&self, name: &[u8]) -> Option<usize>
        ensures { result ≡ position (has_table name.now) self.now }
    {
        first_place(&self.lookups.tables, NameQuery { bytes: name })
    }

    // Whether the automatic index of a table with this number is there.
    fn has_automatic(&self, alloc: Global, table: &[u8], number: usize) -> Result<bool, AllocError>
        ensures { IfOk result (λ has. has ≡ any_found (is_automatic table.now number) self.now) }
    {
        let names = automatic_names(alloc, table, number)?;
        Ok(first_place(&self.lookups.automatic, &names).is_some())
    }

    /// Whether the automatic indexes of a table with so many keys are there.
    pub fn has_all_automatic(
        &self,
        alloc: Global,
        table: &[u8],
        keys: usize,
    ) -> Result<bool, AllocError>
        ensures { IfOk result (λ has. IsTrue has ↔ ((at : ℕ) → at < keys → IsTrue (any_found (is_automatic table.now (suc at)) self.now))) }
    {
        for at in 0..keys {
            if !self.has_automatic(alloc, table, at + 1)? {
                return Ok(false);
            }
        }
        Ok(true)
    }

    // Whether a member before a place has the root.
    fn any_at(&self, at: usize, root: u64) -> bool
        ensures { result ≡ any_found (has_root root) (take at self.now) }
    {
        is_before(first_place(&self.lookups.roots, &root), at)
    }

    // Whether a table, a view or an index before a place has the name.
    fn any_named(&self, at: usize, name: &[u8]) -> bool
        ensures { result ≡ any_found (has_name name.now) (take at self.now) }
    {
        is_before(
            first_place(&self.lookups.named, NameQuery { bytes: name }),
            at,
        )
    }

    /// The root in 32 bits where a link may name it and no member before a place has it.
    pub fn own_root(&self, at: usize, size: u32, count: u32, root: u64) -> Option<u32>
        requires { 0 < size }
        ensures { OrNone (λ number. (number ≡ root) × IsInRange size count root × IsFalse (any_found (has_root root) (take at self.now))) result }
    {
        if root > u32::MAX as u64 {
            return None;
        }
        let number = root as u32;
        if !is_in_range(size, count, number) {
            return None;
        }
        if self.any_at(at, root) {
            return None;
        }
        Some(number)
    }

    /// Whether a table, a view or an index has the name of a member before a place.
    pub fn repeats(&self, at: usize, row: &SchemaRow) -> bool
        ensures { result ≡ repeats_in (take at self.now) row.now }
    {
        (is_table(row.kind) || is_index(row.kind)) && self.any_named(at, row.name.as_slice())
    }
}
