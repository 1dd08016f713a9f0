// Rows by the keys by which prepared rows meet them.
ghost use Rattle.std.specs.Prelude.{◌≡◌, ◌++◌, ◌∷◌, ◌↔◌, [], ℤ, List, IfOk, OnOk, Contains, cond, filter, not};
ghost use Rattle.std.specs.BTreeMap.{get};
ghost use Rattle.std.specs.Ordering.{is_eq};
ghost use Rattle.rbu_value.specs.declared.value.Value.{Value as AnyValue};
ghost use Rattle.schema_spec.specs.declared.schema.Table.{Table as AnyTable};
ghost use Rattle.prepared_spec.specs.RowKeys.{key_collations};
ghost use Rattle.compared_keys.specs.declared.keys.ComparedKey.{ComparedKey as AnyKey};
ghost use Rattle.compared_keys.specs.Keys.{key_order};
ghost use Rattle.group_rows.specs.KeyedRows.{rows_in};

use compared_keys::{ComparedKey, key_of_row};
use owned_list::OwnedList;
use rbu_value::{Collation, Value};
use schema_spec::Table;
use std::alloc::{AllocError, Global};
use std::collections::BTreeMap;
use value_copies::copy_values;

/// Rows, each by its rowid and its values, of which those of a key are found at once.
#[derive(Drop)]
pub(crate) struct KeyedRows {
    by_key: BTreeMap<ComparedKey, Vec<(i64, OwnedList<Value>)>>,
    // Those that no prepared row meets, since there is a NULL in their key.
    keyless: Vec<(i64, OwnedList<Value>)>,
}

// Takes the rows of a key out.
fn take_rows(
    alloc: Global,
    by_key: &mut BTreeMap<ComparedKey, Vec<(i64, OwnedList<Value>)>>,
    key: &ComparedKey,
) -> Vec<(i64, OwnedList<Value>)>
    ensures taken { result.items ≡ rows_in (get key_order by_key.old key.now) }
    ensures left { (other : AnyKey) → rows_in (get key_order by_key.new other) ≡ cond (is_eq (key_order key.now other)) [] (rows_in (get key_order by_key.old other)) }
{
    match by_key.remove(key) {
        Some(rows) => rows,
        None => Vec::new(alloc),
    }
}

// Puts rows in the place of those of a key.
fn put_rows(
    by_key: &mut BTreeMap<ComparedKey, Vec<(i64, OwnedList<Value>)>>,
    key: ComparedKey,
    rows: Vec<(i64, OwnedList<Value>)>,
) -> Result<(), AllocError>
    ensures { OnOk result ((other : AnyKey) → rows_in (get key_order by_key.new other) ≡ cond (is_eq (key_order key other)) rows.items (rows_in (get key_order by_key.old other))) }
{
    match by_key.insert(key, rows) {
        Ok(_) => Ok(()),
        Err(_) => Err(AllocError),
    }
}

// Puts a row behind those of its key.
fn put_row(
    alloc: Global,
    by_key: &mut BTreeMap<ComparedKey, Vec<(i64, OwnedList<Value>)>>,
    key: ComparedKey,
    row: (i64, OwnedList<Value>),
) -> Result<(), AllocError>
    ensures { OnOk result ((other : AnyKey) → rows_in (get key_order by_key.new other)
        ≡ cond (is_eq (key_order key other)) (rows_in (get key_order by_key.old key) ++ row ∷ []) (rows_in (get key_order by_key.old other))) }
{
    let mut rows = take_rows(alloc, by_key, &key);
    rows.push(row)?;
    put_rows(by_key, key, rows)?;
    Ok(())
}

// Puts rows behind others.
fn append_rows(
    all: &mut Vec<(i64, OwnedList<Value>)>,
    rows: Vec<(i64, OwnedList<Value>)>,
) -> Result<(), AllocError>
    ensures { OnOk result (all.new.items ≡ all.old.items ++ rows.items) }
{
    for row in rows {
        all.push(row)?;
    }
    Ok(())
}

/// A copy of a row. Fails where memory runs out.
pub(crate) fn copy_row(
    alloc: Global,
    row: &(i64, OwnedList<Value>),
) -> Result<(i64, OwnedList<Value>), AllocError>
    ensures { IfOk result (λ copy. copy ≡ row.now) }
{
    let values = copy_values(alloc, row.1.as_slice())?;
    Ok((row.0, OwnedList::from_vec(values)))
}

impl KeyedRows {
    ghost use Rattle.group_rows.specs.KeyedRows.{of_key, Holds};

    /// No rows.
    pub(crate) fn new(alloc: Global) -> KeyedRows
        ensures { (table : AnyTable) → Holds table result [] }
    {
        KeyedRows {
            by_key: BTreeMap::new(alloc),
            keyless: Vec::new(alloc),
        }
    }

    /// Puts a row to the others.
    pub(crate) fn put(
        &mut self,
        alloc: Global,
        table: &Table,
        collations: &[Collation],
        row: (i64, OwnedList<Value>),
    ) -> Result<(), AllocError>
        requires collated { collations.now ≡ key_collations table.now }
        ensures { OnOk result ((rows : List (ℤ × List AnyValue)) → Holds table.now self.old rows → Holds table.now self.new (rows ++ row ∷ [])) }
    {
        match key_of_row(alloc, table, collations, &row)? {
            Some(key) => put_row(alloc, &mut self.by_key, key, row)?,
            None => self.keyless.push(row)?,
        }
        Ok(())
    }

    /// Puts rows to the others.
    pub(crate) fn put_all(
        &mut self,
        alloc: Global,
        table: &Table,
        collations: &[Collation],
        more: Vec<(i64, OwnedList<Value>)>,
    ) -> Result<(), AllocError>
        requires collated { collations.now ≡ key_collations table.now }
        ensures { OnOk result ((rows : List (ℤ × List AnyValue)) → Holds table.now self.old rows → Holds table.now self.new (rows ++ more.items)) }
    {
        for row in more {
            self.put(alloc, table, collations, row)?;
        }
        Ok(())
    }

    /// Puts copies of rows to the others.
    pub(crate) fn put_copies(
        &mut self,
        alloc: Global,
        table: &Table,
        collations: &[Collation],
        more: &[(i64, OwnedList<Value>)],
    ) -> Result<(), AllocError>
        requires collated { collations.now ≡ key_collations table.now }
        ensures { OnOk result ((rows : List (ℤ × List AnyValue)) → Holds table.now self.old rows → Holds table.now self.new (rows ++ more.now)) }
    {
        let mut left = more;
        while let [row, rest @ ..] = left {
            let copy = copy_row(alloc, row)?;
            self.put(alloc, table, collations, copy)?;
            left = rest;
        }
        Ok(())
    }

    /// Takes the rows of a key out.
    pub(crate) fn take(&mut self, alloc: Global, key: &ComparedKey) -> Vec<(i64, OwnedList<Value>)>
        ensures taken { (table : AnyTable) (rows : List (ℤ × List AnyValue)) → Holds table self.old rows → result.items ≡ filter (of_key table key.now.values) rows }
        ensures left { (table : AnyTable) (rows : List (ℤ × List AnyValue)) → Holds table self.old rows → Holds table self.new (filter (λ row. not (of_key table key.now.values row)) rows) }
    {
        take_rows(alloc, &mut self.by_key, key)
    }

    /// All rows, in no order.
    pub(crate) fn into_rows(self) -> Result<Vec<(i64, OwnedList<Value>)>, AllocError>
        ensures { IfOk result (λ all. (table : AnyTable) (rows : List (ℤ × List AnyValue)) → Holds table self rows
            → (row : ℤ × List AnyValue) → Contains all.items row ↔ Contains rows row) }
    {
        let KeyedRows { by_key, keyless } = self;
        let mut all = keyless;
        for entry in by_key {
            append_rows(&mut all, entry.1)?;
        }
        Ok(all)
    }
}
