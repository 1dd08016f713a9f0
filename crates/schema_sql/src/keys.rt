// The PRIMARY KEY and UNIQUE constraints of a table, and what its constraints list.
ghost use Rattle.std.specs.Prelude.{◌≡◌, ◌++◌, IfOk, OnOk, flat_map};
ghost use Rattle.std.specs.Option.{option_to_list};
ghost use Rattle.schema_spec.specs.Causes.{column_constraints};
ghost use Rattle.schema_spec.specs.Names.{alone, column_key, column_keys, keys, listed_columns, primary_columns, table_key};

use owned_list::OwnedList;
use schema_spec::{
    ColumnConstraint, ColumnRule, ColumnText, Key, ListedColumn, TableConstraint, TableRule,
    TableText,
};
use std::alloc::{AllocError, Global};

// The column alone.
fn alone(
    alloc: Global,
    column: &ColumnText,
    descends: bool,
) -> Result<OwnedList<ListedColumn>, AllocError>
    ensures { IfOk result (λ columns. columns ≡ alone column.now descends) }
{
    let listed = ListedColumn {
        name: column.name,
        collation: None,
        descends,
    };
    let columns = Vec::from_slice(alloc, &[listed])?;
    Ok(OwnedList::from_vec(columns))
}

// The key that a constraint of a column declares, if it does.
fn column_key(
    alloc: Global,
    column: &ColumnText,
    constraint: ColumnConstraint,
) -> Result<Option<Key>, AllocError>
    ensures { IfOk result (λ key. option_to_list key ≡ column_key column.now constraint.word constraint.rule) }
{
    match constraint.rule {
        ColumnRule::PrimaryKey { descends } => Ok(Some(Key {
            word: constraint.word,
            primary: true,
            at_column: true,
            columns: alone(alloc, column, descends)?,
        })),
        ColumnRule::Unique => Ok(Some(Key {
            word: constraint.word,
            primary: false,
            at_column: true,
            columns: alone(alloc, column, false)?,
        })),
        _ => Ok(None),
    }
}

// The key that a constraint of the table declares, if it does.
fn table_key(alloc: Global, constraint: &TableConstraint) -> Result<Option<Key>, AllocError>
    ensures { IfOk result (λ key. option_to_list key ≡ table_key constraint.now.rule constraint.now.word constraint.now.columns) }
{
    let primary = match constraint.rule {
        TableRule::PrimaryKey => true,
        TableRule::Unique => false,
        _ => return Ok(None),
    };
    let columns = Vec::from_slice(alloc, constraint.columns.as_slice())?;
    Ok(Some(Key {
        word: constraint.word,
        primary,
        at_column: false,
        columns: OwnedList::from_vec(columns),
    }))
}

// Puts the key behind the others, if there is one.
fn push_key(keys: &mut Vec<Key>, key: Option<Key>) -> Result<(), AllocError>
    ensures { OnOk result (keys.new.items ≡ keys.old.items ++ option_to_list key) }
{
    if let Some(key) = key {
        keys.push(key)?;
    }
    Ok(())
}

// Puts the keys that a column declares behind the others.
fn push_column_keys(
    keys: &mut Vec<Key>,
    alloc: Global,
    column: &ColumnText,
) -> Result<(), AllocError>
    ensures { OnOk result (keys.new.items ≡ keys.old.items ++ column_keys column.now) }
{
    let mut left = column.constraints.as_slice();
    while let [constraint, rest @ ..] = left {
        let key = column_key(alloc, column, *constraint)?;
        push_key(keys, key)?;
        left = rest;
    }
    Ok(())
}

// Puts the keys that the columns declare behind the others.
fn push_columns_keys(
    keys: &mut Vec<Key>,
    alloc: Global,
    columns: &[ColumnText],
) -> Result<(), AllocError>
    ensures { OnOk result (keys.new.items ≡ keys.old.items ++ flat_map column_keys columns.now) }
{
    let mut left = columns;
    while let [column, rest @ ..] = left {
        push_column_keys(keys, alloc, column)?;
        left = rest;
    }
    Ok(())
}

// Puts the keys that the constraints of the table declare behind the others.
fn push_table_keys(
    keys: &mut Vec<Key>,
    alloc: Global,
    constraints: &[TableConstraint],
) -> Result<(), AllocError>
    ensures { OnOk result (keys.new.items ≡ keys.old.items ++ flat_map (λ constraint. table_key constraint.rule constraint.word constraint.columns) constraints.now) }
{
    let mut left = constraints;
    while let [constraint, rest @ ..] = left {
        let key = table_key(alloc, constraint)?;
        push_key(keys, key)?;
        left = rest;
    }
    Ok(())
}

// All keys of a table, in the order of its text.
pub(crate) fn keys(alloc: Global, table: &TableText) -> Result<OwnedList<Key>, AllocError>
    ensures { IfOk result (λ found. found ≡ keys table.now) }
{
    let mut keys = Vec::new(alloc);
    push_columns_keys(&mut keys, alloc, table.columns.as_slice())?;
    push_table_keys(&mut keys, alloc, table.constraints.as_slice())?;
    Ok(OwnedList::from_vec(keys))
}

// The PRIMARY KEY's columns; the first one counts.
pub(crate) fn primary_columns(keys: &[Key]) -> &[ListedColumn]
    ensures { result.now ≡ primary_columns keys.now }
{
    let mut left = keys;
    while let [key, rest @ ..] = left {
        if key.primary {
            return key.columns.as_slice();
        }
        left = rest;
    }
    &[]
}

// All constraints of the columns, in the order of the text.
pub(crate) fn column_constraints(
    alloc: Global,
    columns: &[ColumnText],
) -> Result<OwnedList<ColumnConstraint>, AllocError>
    ensures { IfOk result (λ all. all ≡ column_constraints columns.now) }
{
    let mut all = Vec::new(alloc);
    let mut left = columns;
    while let [column, rest @ ..] = left {
        all.extend_from_slice(column.constraints.as_slice())?;
        left = rest;
    }
    Ok(OwnedList::from_vec(all))
}

// All columns in the lists of the table's constraints, in the order of the text.
pub(crate) fn listed_columns(
    alloc: Global,
    constraints: &[TableConstraint],
) -> Result<OwnedList<ListedColumn>, AllocError>
    ensures { IfOk result (λ all. all ≡ listed_columns constraints.now) }
{
    let mut all = Vec::new(alloc);
    let mut left = constraints;
    while let [constraint, rest @ ..] = left {
        all.extend_from_slice(constraint.columns.as_slice())?;
        left = rest;
    }
    Ok(OwnedList::from_vec(all))
}
