// The constraints of a column.
ghost use Rattle.std.specs.Prelude.{◌≡◌, ◌<◌, false, IfOk, length};
ghost use Rattle.schema_spec.specs.ColumnGrammar.{check, collate, column_constraint, column_rule, default, generated, generated_as, not_null, one_word, primary_key, refers};
ghost use Rattle.schema_grammar.specs.Parses.{Parses};

use crate::brackets::bracketed;
use crate::clauses::default_value;
use crate::columns::{ASC_OR_DESC, constraint_name, on_conflict, order};
use crate::fronts::{at_word, name, optional_of, optional_word, word};
use crate::references::references;
use schema_spec::{ColumnConstraint, ColumnRule, SqlFault, Token};
use std::alloc::Global;

const STORED_OR_VIRTUAL: [&[u8]; 2] = [b"STORED", b"VIRTUAL"];

fn primary_key<'a>(
    text: &[u8],
    tokens: &'a [Token],
) -> Result<(ColumnConstraint, &'a [Token]), SqlFault>
    ensures parses { Parses text.now (primary_key text.now tokens.now) result }
    ensures shorter { IfOk result (λ read. length read.1.now < length tokens.now) }
{
    let (first, rest) = word(b"PRIMARY", text, tokens)?;
    let (_key, rest) = word(b"KEY", text, rest)?;
    let (descends, rest) = order(&ASC_OR_DESC, text, rest);
    let (on_conflict, rest) = on_conflict(text, rest)?;
    let (_autoincrement, rest) = optional_word(b"AUTOINCREMENT", text, rest);
    let constraint = ColumnConstraint {
        word: first,
        rule: ColumnRule::PrimaryKey { descends },
        on_conflict,
    };
    Ok((constraint, rest))
}

fn not_null<'a>(
    text: &[u8],
    tokens: &'a [Token],
) -> Result<(ColumnConstraint, &'a [Token]), SqlFault>
    ensures parses { Parses text.now (not_null text.now tokens.now) result }
    ensures shorter { IfOk result (λ read. length read.1.now < length tokens.now) }
{
    let (first, rest) = word(b"NOT", text, tokens)?;
    let (_null, rest) = word(b"NULL", text, rest)?;
    let (on_conflict, rest) = on_conflict(text, rest)?;
    let constraint = ColumnConstraint {
        word: first,
        rule: ColumnRule::NotNull,
        on_conflict,
    };
    Ok((constraint, rest))
}

// A word alone, with what it says.
fn one_word<'a>(
    bytes: &[u8],
    rule: ColumnRule,
    text: &[u8],
    tokens: &'a [Token],
) -> Result<(ColumnConstraint, &'a [Token]), SqlFault>
    ensures parses { Parses text.now (one_word text.now bytes.now rule tokens.now) result }
    ensures shorter { IfOk result (λ read. length read.1.now < length tokens.now) }
{
    let (first, rest) = word(bytes, text, tokens)?;
    let (on_conflict, rest) = on_conflict(text, rest)?;
    let constraint = ColumnConstraint {
        word: first,
        rule,
        on_conflict,
    };
    Ok((constraint, rest))
}

fn collate<'a>(
    text: &[u8],
    tokens: &'a [Token],
) -> Result<(ColumnConstraint, &'a [Token]), SqlFault>
    ensures parses { Parses text.now (collate text.now tokens.now) result }
    ensures shorter { IfOk result (λ read. length read.1.now < length tokens.now) }
{
    let (first, rest) = word(b"COLLATE", text, tokens)?;
    let (collation, rest) = name(text, rest)?;
    let constraint = ColumnConstraint {
        word: first,
        rule: ColumnRule::Collate(collation),
        on_conflict: false,
    };
    Ok((constraint, rest))
}

// A constraint that says nothing of rows and indexes.
fn skipped(word: Token) -> ColumnConstraint
    ensures { result ≡ record { word = word; rule = ColumnRule.Skipped; on_conflict = false } }
{
    ColumnConstraint {
        word,
        rule: ColumnRule::Skipped,
        on_conflict: false,
    }
}

fn default<'a>(
    text: &[u8],
    tokens: &'a [Token],
) -> Result<(ColumnConstraint, &'a [Token]), SqlFault>
    ensures parses { Parses text.now (default text.now tokens.now) result }
    ensures shorter { IfOk result (λ read. length read.1.now < length tokens.now) }
{
    let (first, rest) = word(b"DEFAULT", text, tokens)?;
    let (_value, rest) = default_value(text, rest)?;
    Ok((skipped(first), rest))
}

fn check<'a>(text: &[u8], tokens: &'a [Token]) -> Result<(ColumnConstraint, &'a [Token]), SqlFault>
    ensures parses { Parses text.now (check text.now tokens.now) result }
    ensures shorter { IfOk result (λ read. length read.1.now < length tokens.now) }
{
    let (first, rest) = word(b"CHECK", text, tokens)?;
    let (_closing, rest) = bracketed(text, rest)?;
    Ok((skipped(first), rest))
}

fn refers<'a>(
    alloc: Global,
    text: &[u8],
    tokens: &'a [Token],
) -> Result<(ColumnConstraint, &'a [Token]), SqlFault>
    ensures parses { Parses text.now (refers text.now tokens.now) result }
    ensures shorter { IfOk result (λ read. length read.1.now < length tokens.now) }
{
    let (first, rest) = references(true, alloc, text, tokens)?;
    Ok((skipped(first), rest))
}

// AS, a text in brackets, and STORED or VIRTUAL or neither; its first token is given.
fn generated_as<'a>(
    first: Token,
    text: &[u8],
    tokens: &'a [Token],
) -> Result<(ColumnConstraint, &'a [Token]), SqlFault>
    ensures parses { Parses text.now (generated_as text.now first tokens.now) result }
    ensures shorter { IfOk result (λ read. length read.1.now < length tokens.now) }
{
    let (_as, rest) = word(b"AS", text, tokens)?;
    let (_closing, rest) = bracketed(text, rest)?;
    let (_kind, rest) = optional_of(&STORED_OR_VIRTUAL, text, rest);
    let constraint = ColumnConstraint {
        word: first,
        rule: ColumnRule::Generated,
        on_conflict: false,
    };
    Ok((constraint, rest))
}

fn generated<'a>(
    text: &[u8],
    tokens: &'a [Token],
) -> Result<(ColumnConstraint, &'a [Token]), SqlFault>
    ensures parses { Parses text.now (generated text.now tokens.now) result }
    ensures shorter { IfOk result (λ read. length read.1.now < length tokens.now) }
{
    if !at_word(b"GENERATED", text, tokens) {
        let (first, _rest) = word(b"AS", text, tokens)?;
        return generated_as(first, text, tokens);
    }
    let (first, rest) = word(b"GENERATED", text, tokens)?;
    let (_always, rest) = word(b"ALWAYS", text, rest)?;
    generated_as(first, text, rest)
}

// What begins with PRIMARY, NOT, NULL, UNIQUE or COLLATE; or else one of the other constraints.
fn column_rule<'a>(
    alloc: Global,
    text: &[u8],
    tokens: &'a [Token],
) -> Result<(ColumnConstraint, &'a [Token]), SqlFault>
    ensures parses { Parses text.now (column_rule text.now tokens.now) result }
    ensures shorter { IfOk result (λ read. length read.1.now < length tokens.now) }
{
    if at_word(b"PRIMARY", text, tokens) {
        return primary_key(text, tokens);
    }
    if at_word(b"NOT", text, tokens) {
        return not_null(text, tokens);
    }
    if at_word(b"NULL", text, tokens) {
        return one_word(b"NULL", ColumnRule::Skipped, text, tokens);
    }
    if at_word(b"UNIQUE", text, tokens) {
        return one_word(b"UNIQUE", ColumnRule::Unique, text, tokens);
    }
    if at_word(b"COLLATE", text, tokens) {
        return collate(text, tokens);
    }
    if at_word(b"DEFAULT", text, tokens) {
        return default(text, tokens);
    }
    if at_word(b"CHECK", text, tokens) {
        return check(text, tokens);
    }
    if at_word(b"REFERENCES", text, tokens) {
        return refers(alloc, text, tokens);
    }
    generated(text, tokens)
}

// CONSTRAINT and a name or nothing, and what is said.
pub(crate) fn column_constraint<'a>(
    alloc: Global,
    text: &[u8],
    tokens: &'a [Token],
) -> Result<(ColumnConstraint, &'a [Token]), SqlFault>
    ensures parses { Parses text.now (column_constraint text.now tokens.now) result }
    ensures shorter { IfOk result (λ read. length read.1.now < length tokens.now) }
{
    let (_name, rest) = constraint_name(text, tokens)?;
    column_rule(alloc, text, rest)
}
