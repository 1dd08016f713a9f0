// The columns of a table, as they are defined.
ghost use Rattle.std.specs.Prelude.{◌≡◌, ◌++◌, ◌∷◌, [], if◌then◌else◌, IfOk, OnOk, map};
ghost use Rattle.std.specs.List.{AllZip, list_any};
ghost use Rattle.rbu_value.specs.Affinity.{HasAffinity};
ghost use Rattle.schema_spec.specs.Names.{declared_type, is_among, last_collation, named_collations, named_twice, rule_collation};
ghost use Rattle.schema_spec.specs.Texts.{IsColumn, is_not_null, own_collation};

use crate::names::{collation_of, declared_type, is_among};
use owned_list::OwnedList;
use rbu_value::{Affinity, Collation, affinity_of};
use schema_spec::{Column, ColumnConstraint, ColumnRule, ColumnText, Token};
use schema_tokens::name_of;
use std::alloc::{AllocError, Global};

// The collation of a column behind one more of its constraints.
fn next_collation(
    alloc: Global,
    text: &[u8],
    before: Collation,
    rule: ColumnRule,
) -> Result<Collation, AllocError>
    ensures { IfOk result (λ collation. collation ≡ last_collation text.now before (rule_collation rule)) }
{
    match rule {
        ColumnRule::Collate(name) => {
            let named = collation_of(alloc, text, name)?;
            Ok(named.unwrap_or(Collation::Binary))
        }
        _ => Ok(before),
    }
}

// The collation that the constraints of a column name last, or BINARY.
fn last_collation(
    alloc: Global,
    text: &[u8],
    constraints: &[ColumnConstraint],
) -> Result<Collation, AllocError>
    ensures { IfOk result (λ collation. collation ≡ last_collation text.now Collation.Binary (named_collations constraints.now)) }
{
    let mut collation = Collation::Binary;
    let mut left = constraints;
    while let [constraint, rest @ ..] = left {
        collation = next_collation(alloc, text, collation, constraint.rule)?;
        left = rest;
    }
    Ok(collation)
}

fn is_not_null(rule: ColumnRule) -> bool
    ensures { result ≡ is_not_null rule }
{
    matches!(rule, ColumnRule::NotNull)
}

// NOT NULL is among the constraints.
fn has_not_null(constraints: &[ColumnConstraint]) -> bool
    ensures { result ≡ list_any (λ constraint. is_not_null constraint.rule) constraints.now }
{
    let mut left = constraints;
    while let [constraint, rest @ ..] = left {
        if is_not_null(constraint.rule) {
            return true;
        }
        left = rest;
    }
    false
}

// The affinity of a column.
fn own_affinity(text: &[u8], definition: &ColumnText) -> Affinity
    ensures { HasAffinity (declared_type text.now definition.now) result }
{
    affinity_of(declared_type(text, definition))
}

// A column, as it is defined.
fn column_of(alloc: Global, text: &[u8], definition: &ColumnText) -> Result<Column, AllocError>
    ensures { IfOk result (IsColumn text.now definition.now) }
{
    let name = name_of(alloc, text, definition.name)?;
    let affinity = own_affinity(text, definition);
    let collation = last_collation(alloc, text, definition.constraints.as_slice())?;
    let not_null = has_not_null(definition.constraints.as_slice());
    Ok(Column {
        name,
        affinity,
        collation,
        not_null,
    })
}

// Puts the token behind the others where the column is named like one of these.
fn push_if_among(
    wrong: &mut Vec<Token>,
    columns: &[Column],
    column: &Column,
    token: Token,
) -> Result<(), AllocError>
    ensures { OnOk result (wrong.new.items ≡ wrong.old.items ++ (if is_among (map (λ column. column.name) columns.now) column.now.name then (token ∷ []) else [])) }
{
    if is_among(columns, column.name.as_slice()) {
        wrong.push(token)?;
    }
    Ok(())
}

// The columns as they are defined; the names that an earlier column has too are put behind the wrong ones.
pub(crate) fn columns_of(
    wrong: &mut Vec<Token>,
    alloc: Global,
    text: &[u8],
    definitions: &[ColumnText],
) -> Result<OwnedList<Column>, AllocError>
    ensures columns { IfOk result (λ columns. AllZip (IsColumn text.now) definitions.now columns) }
    ensures wrong { OnOk result (wrong.new.items ≡ wrong.old.items ++ named_twice text.now [] definitions.now) }
{
    let mut columns = Vec::new(alloc);
    let mut left = definitions;
    while let [definition, rest @ ..] = left {
        let column = column_of(alloc, text, definition)?;
        push_if_among(wrong, columns.as_slice(), &column, definition.name)?;
        columns.push(column)?;
        left = rest;
    }
    Ok(OwnedList::from_vec(columns))
}
