// Each cause that sets a text outside the profile.
ghost use Rattle.std.specs.Prelude.{◌≡◌, ◌↔◌, ◌&&◌, not, [], IfOk, IsTrue};
ghost use Rattle.std.specs.List.{list_any};
ghost use Rattle.std.specs.Option.{option_to_list};
ghost use Rattle.schema_spec.specs.Names.{is_rowid, named_collations, repeated_key, rule_collation};
ghost use Rattle.schema_spec.specs.Causes.{descends, generated_by, generated_word, is_generated, is_other_collation, is_strict, is_without, key_word, listed_collations, repeats_as};
ghost use Rattle.schema_sql.specs.Parts.{is_real};

use crate::names::collation_of;
use crate::repeated::repeated_key;
use crate::rowid::is_rowid;
use rbu_value::{Affinity, Bytes};
use schema_spec::{
    Clause, Column, ColumnConstraint, ColumnRule, Key, ListedColumn, TableConstraint, TableOption,
    Token,
};
use schema_tokens::is_keyword;
use std::alloc::{AllocError, Global};

fn is_without(option: TableOption) -> bool
    ensures { result ≡ is_without option }
{
    matches!(option, TableOption::WithoutRowid)
}

fn is_strict(option: TableOption) -> bool
    ensures { result ≡ is_strict option }
{
    matches!(option, TableOption::Strict)
}

pub(crate) fn has_without(options: &[TableOption]) -> bool
    ensures { result ≡ list_any is_without options.now }
{
    options.iter().any(|option| is_without(*option))
}

pub(crate) fn has_strict(options: &[TableOption]) -> bool
    ensures { result ≡ list_any is_strict options.now }
{
    options.iter().any(|option| is_strict(*option))
}

fn is_generated(rule: ColumnRule) -> bool
    ensures { result ≡ is_generated rule }
{
    matches!(rule, ColumnRule::Generated)
}

// The word of a generated column that is answered.
fn generated_word(text: &[u8], word: Token) -> Clause
    ensures { result ≡ generated_word text.now word }
{
    if is_keyword(b"AS", text, word) {
        Clause::As
    } else {
        Clause::Generated
    }
}

// The first word of the first generated column, as it is answered.
fn generated_by(text: &[u8], constraints: &[ColumnConstraint]) -> Option<Clause>
    ensures { result ≡ generated_by text.now constraints.now }
{
    let mut left = constraints;
    while let [constraint, rest @ ..] = left {
        if is_generated(constraint.rule) {
            return Some(generated_word(text, constraint.word));
        }
        left = rest;
    }
    None
}

fn same_clause(a: Clause, b: Clause) -> bool
    ensures { IsTrue result ↔ (a ≡ b) }
{
    a == b
}

// The first generated column is answered by this word.
pub(crate) fn is_generated_by(text: &[u8], constraints: &[ColumnConstraint], clause: Clause) -> bool
    ensures { IsTrue result ↔ (generated_by text.now constraints.now ≡ Some clause) }
{
    match generated_by(text, constraints) {
        Some(found) => same_clause(found, clause),
        None => false,
    }
}

pub(crate) fn column_on_conflict(constraints: &[ColumnConstraint]) -> bool
    ensures { result ≡ list_any (λ constraint. constraint.on_conflict) constraints.now }
{
    constraints.iter().any(|constraint| constraint.on_conflict)
}

pub(crate) fn table_on_conflict(constraints: &[TableConstraint]) -> bool
    ensures { result ≡ list_any (λ constraint. constraint.on_conflict) constraints.now }
{
    constraints.iter().any(|constraint| constraint.on_conflict)
}

fn some_descends(columns: &[ListedColumn]) -> bool
    ensures { result ≡ list_any (λ column. column.descends) columns.now }
{
    columns.iter().any(|column| column.descends)
}

// A column of the key descends, and the key is no constraint of the table on the rowid column alone.
fn key_descends(
    alloc: Global,
    text: &[u8],
    rowid: &Option<Bytes>,
    key: &Key,
) -> Result<bool, AllocError>
    ensures { IfOk result (λ found. found ≡ descends text.now rowid.now key.now) }
{
    let on_rowid = is_rowid(alloc, text, rowid, key.columns.as_slice())?;
    Ok(some_descends(key.columns.as_slice()) && (key.at_column || !on_rowid))
}

pub(crate) fn some_key_descends(
    alloc: Global,
    text: &[u8],
    rowid: &Option<Bytes>,
    keys: &[Key],
) -> Result<bool, AllocError>
    ensures { IfOk result (λ found. found ≡ list_any (descends text.now rowid.now) keys.now) }
{
    let mut left = keys;
    while let [key, rest @ ..] = left {
        if key_descends(alloc, text, rowid, key)? {
            return Ok(true);
        }
        left = rest;
    }
    Ok(false)
}

// The name is that of another collation than SQLite's three.
fn is_other_collation(alloc: Global, text: &[u8], name: Token) -> Result<bool, AllocError>
    ensures { IfOk result (λ other. other ≡ is_other_collation text.now name) }
{
    let named = collation_of(alloc, text, name)?;
    Ok(named.is_none())
}

// A constraint of a column names another collation.
fn rule_names_other(alloc: Global, text: &[u8], rule: ColumnRule) -> Result<bool, AllocError>
    ensures { IfOk result (λ other. other ≡ list_any (is_other_collation text.now) (rule_collation rule)) }
{
    match rule {
        ColumnRule::Collate(name) => is_other_collation(alloc, text, name),
        _ => Ok(false),
    }
}

pub(crate) fn column_names_other(
    alloc: Global,
    text: &[u8],
    constraints: &[ColumnConstraint],
) -> Result<bool, AllocError>
    ensures { IfOk result (λ other. other ≡ list_any (is_other_collation text.now) (named_collations constraints.now)) }
{
    let mut left = constraints;
    while let [constraint, rest @ ..] = left {
        if rule_names_other(alloc, text, constraint.rule)? {
            return Ok(true);
        }
        left = rest;
    }
    Ok(false)
}

// A column of a list names another collation.
fn listed_column_names_other(
    alloc: Global,
    text: &[u8],
    column: &ListedColumn,
) -> Result<bool, AllocError>
    ensures { IfOk result (λ other. other ≡ list_any (is_other_collation text.now) (option_to_list column.now.collation)) }
{
    match column.collation {
        Some(name) => is_other_collation(alloc, text, name),
        None => Ok(false),
    }
}

pub(crate) fn list_names_other(
    alloc: Global,
    text: &[u8],
    columns: &[ListedColumn],
) -> Result<bool, AllocError>
    ensures { IfOk result (λ other. other ≡ list_any (is_other_collation text.now) (listed_collations columns.now)) }
{
    let mut left = columns;
    while let [column, rest @ ..] = left {
        if listed_column_names_other(alloc, text, column)? {
            return Ok(true);
        }
        left = rest;
    }
    Ok(false)
}

fn is_real(affinity: Affinity) -> bool
    ensures { result ≡ is_real affinity }
{
    matches!(affinity, Affinity::Real)
}

pub(crate) fn has_real(columns: &[Column]) -> bool
    ensures { result ≡ list_any (λ column. is_real column.affinity) columns.now }
{
    columns.iter().any(|column| is_real(column.affinity))
}

// The key is UNIQUE, and on the rowid column alone.
fn is_unique_on_rowid(
    alloc: Global,
    text: &[u8],
    rowid: &Option<Bytes>,
    key: &Key,
) -> Result<bool, AllocError>
    ensures { IfOk result (λ found. found ≡ (not key.now.primary && is_rowid text.now rowid.now key.now.columns)) }
{
    let on_rowid = is_rowid(alloc, text, rowid, key.columns.as_slice())?;
    Ok(!key.primary && on_rowid)
}

pub(crate) fn some_unique_on_rowid(
    alloc: Global,
    text: &[u8],
    rowid: &Option<Bytes>,
    keys: &[Key],
) -> Result<bool, AllocError>
    ensures { IfOk result (λ found. found ≡ list_any (λ key. not key.primary && is_rowid text.now rowid.now key.columns) keys.now) }
{
    let mut left = keys;
    while let [key, rest @ ..] = left {
        if is_unique_on_rowid(alloc, text, rowid, key)? {
            return Ok(true);
        }
        left = rest;
    }
    Ok(false)
}

// The word of a key, as it is answered.
fn key_word(text: &[u8], word: Token) -> Clause
    ensures { result ≡ key_word text.now word }
{
    if is_keyword(b"PRIMARY", text, word) {
        Clause::Primary
    } else {
        Clause::Unique
    }
}

// The first key whose columns are those of one before it begins with this word.
pub(crate) fn key_repeats_as(
    alloc: Global,
    text: &[u8],
    keys: &[Key],
    clause: Clause,
) -> Result<bool, AllocError>
    ensures { IfOk result (λ found. IsTrue found ↔ repeats_as text.now clause (repeated_key text.now [] keys.now)) }
{
    match repeated_key(alloc, text, keys)? {
        Some(word) => Ok(same_clause(clause, key_word(text, word))),
        None => Ok(false),
    }
}
