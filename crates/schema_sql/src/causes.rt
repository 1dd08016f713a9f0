// The first cause that sets the text of a table outside the profile.
ghost use Rattle.std.specs.Prelude.{◌≡◌, ◌↔◌, IfOk, IsTrue};
ghost use Rattle.schema_spec.specs.Causes.{HasCause};
ghost use Rattle.schema_sql.specs.Parts.{AreParts, IsFirstCause};

use crate::clauses::{
    column_names_other, column_on_conflict, has_real, has_strict, has_without, is_generated_by,
    key_repeats_as, list_names_other, some_key_descends, some_unique_on_rowid, table_on_conflict,
};
use crate::parts::Parts;
use schema_spec::{Clause, TableText};
use std::alloc::{AllocError, Global};

// All clauses, in the order in which they are answered.
const CLAUSES: [Clause; 14] = [
    Clause::Without,
    Clause::Strict,
    Clause::Generated,
    Clause::As,
    Clause::On,
    Clause::Desc,
    Clause::Collate,
    Clause::Real,
    Clause::Unique,
    Clause::Primary,
    Clause::Where,
    Clause::Expression,
    Clause::Virtual,
    Clause::View,
];

// Another collation than SQLite's three is named.
fn has_other_collation(
    alloc: Global,
    text: &[u8],
    table: &TableText,
    parts: &Parts,
) -> Result<bool, AllocError>
    requires { AreParts text.now table.now parts.now }
    ensures { IfOk result (λ has. IsTrue has ↔ HasCause text.now table.now Clause.Collate) }
{
    if column_names_other(alloc, text, parts.constraints.as_slice())? {
        return Ok(true);
    }
    list_names_other(alloc, text, parts.listed.as_slice())
}

// UNIQUE is said of the rowid column, or of a list of columns that an earlier key has.
fn has_unique(
    alloc: Global,
    text: &[u8],
    table: &TableText,
    parts: &Parts,
) -> Result<bool, AllocError>
    requires { AreParts text.now table.now parts.now }
    ensures { IfOk result (λ has. IsTrue has ↔ HasCause text.now table.now Clause.Unique) }
{
    if some_unique_on_rowid(alloc, text, &parts.rowid, parts.keys.as_slice())? {
        return Ok(true);
    }
    key_repeats_as(alloc, text, parts.keys.as_slice(), Clause::Unique)
}

// The clause sets the text of the table outside the profile.
fn has_cause(
    alloc: Global,
    text: &[u8],
    table: &TableText,
    parts: &Parts,
    clause: Clause,
) -> Result<bool, AllocError>
    requires { AreParts text.now table.now parts.now }
    ensures { IfOk result (λ has. IsTrue has ↔ HasCause text.now table.now clause) }
{
    let constraints = parts.constraints.as_slice();
    let keys = parts.keys.as_slice();
    match clause {
        Clause::Without => Ok(has_without(table.options.as_slice())),
        Clause::Strict => Ok(has_strict(table.options.as_slice())),
        Clause::Generated => Ok(is_generated_by(text, constraints, Clause::Generated)),
        Clause::As => Ok(is_generated_by(text, constraints, Clause::As)),
        Clause::On => Ok(
            column_on_conflict(constraints) || table_on_conflict(table.constraints.as_slice()),
        ),
        Clause::Desc => some_key_descends(alloc, text, &parts.rowid, keys),
        Clause::Collate => has_other_collation(alloc, text, table, parts),
        Clause::Real => Ok(has_real(parts.columns.as_slice())),
        Clause::Unique => has_unique(alloc, text, table, parts),
        Clause::Primary => key_repeats_as(alloc, text, keys, Clause::Primary),
        Clause::Where => Ok(false),
        Clause::Expression => Ok(false),
        Clause::Virtual => Ok(false),
        Clause::View => Ok(false),
    }
}

// The first cause that sets the text of the table outside the profile, or none.
pub(crate) fn first_cause(
    alloc: Global,
    text: &[u8],
    table: &TableText,
    parts: &Parts,
) -> Result<Option<Clause>, AllocError>
    requires { AreParts text.now table.now parts.now }
    ensures { IfOk result (IsFirstCause (HasCause text.now table.now)) }
{
    let mut left: &[Clause] = &CLAUSES;
    while let [clause, rest @ ..] = left {
        let has = has_cause(alloc, text, table, parts, *clause)?;
        if has {
            return Ok(Some(*clause));
        }
        left = rest;
    }
    Ok(None)
}
