// The texts of indexes.
ghost use Rattle.std.specs.Prelude.{◌≡◌, ◌==◌, ◌&&◌, ◌<◌, ◌≤◌, IfOk, length};
ghost use Rattle.schema_spec.specs.Fronts.{begins, either, misfit};
ghost use Rattle.schema_spec.specs.Brackets.{ends_part, to_separator};
ghost use Rattle.schema_spec.specs.TableGrammar.{indexed_part, index_statement};
ghost use Rattle.schema_grammar.specs.Parses.{Parses, ParsesWhole, condition};

use crate::brackets::{open_behind, some_to_end};
use crate::columns::{ASC_OR_DESC, listed_column};
use crate::fronts::{at_word, ended, misfit, name, optional_word, word};
use crate::items::{Item, list_in_brackets};
use schema_spec::{IndexText, IndexedPart, SqlFault, Token};
use schema_tokens::{is_sign, is_sql};
use std::alloc::Global;

// The token is a comma or a closing bracket.
fn ends_part(text: &[u8], token: Token) -> bool
    ensures { result ≡ ends_part text.now token }
{
    is_sign(b',', text, token) || is_sign(b')', text, token)
}

// A comma or a closing bracket stands first.
fn at_end_of_part(text: &[u8], tokens: &[Token]) -> bool
    ensures { result ≡ begins (ends_part text.now) tokens.now }
{
    match tokens {
        [token, ..] => ends_part(text, *token),
        [] => false,
    }
}

// The part ends at a token before which so many brackets are open.
fn ends_here(depth: usize, text: &[u8], token: Token) -> bool
    ensures { result ≡ ((depth == 0) && ends_part text.now token) }
{
    depth == 0 && ends_part(text, token)
}

// Any tokens up to a comma or a closing bracket outside of all brackets, of which so many are open.
#[tactic(auto, using(crate::proofs::Separators::separator_next, crate::proofs::Separators::separator_stops, crate::proofs::Separators::separator_ends))]
fn to_separator<'a>(
    depth: usize,
    text: &[u8],
    tokens: &'a [Token],
) -> Result<(IndexedPart, &'a [Token]), SqlFault>
    requires { depth ≤ 1 }
    ensures parses { Parses text.now (to_separator IndexedPart.Expression text.now depth tokens.now) result }
    ensures shorter { IfOk result (λ read. length read.1.now ≤ length tokens.now) }
{
    let mut open = depth;
    let mut left = tokens;
    while let [token, rest @ ..] = left {
        if ends_here(open, text, *token) {
            return Ok((IndexedPart::Expression, left));
        }
        if !is_sql(text, *token) {
            return Err(misfit(text, left));
        }
        open = open_behind(open, text, *token);
        left = rest;
    }
    Err(misfit(text, left))
}

// An expression: at least one token.
fn expression<'a>(text: &[u8], tokens: &'a [Token]) -> Result<(IndexedPart, &'a [Token]), SqlFault>
    ensures parses { Parses text.now (either (begins (ends_part text.now)) misfit (to_separator IndexedPart.Expression text.now 0) tokens.now) result }
    ensures shorter { IfOk result (λ read. length read.1.now < length tokens.now) }
{
    match tokens {
        [token, rest @ ..] if !ends_part(text, *token) && is_sql(text, *token) => {
            to_separator(open_behind(0, text, *token), text, rest)
        }
        _ => Err(misfit(text, tokens)),
    }
}

// The parts of an index's list.
struct IndexedParts;

impl Item for IndexedParts {
    type Output = IndexedPart;

    ghost front = { λ text tokens. indexed_part text tokens };

    fn read<'a>(
        _alloc: Global,
        text: &[u8],
        tokens: &'a [Token],
    ) -> Result<(IndexedPart, &'a [Token]), SqlFault> {
        match listed_column(&ASC_OR_DESC, text, tokens) {
            Ok((column, rest)) => {
                if at_end_of_part(text, rest) {
                    Ok((IndexedPart::Column(column), rest))
                } else {
                    expression(text, tokens)
                }
            }
            Err(SqlFault::SqlSyntax { .. }) => expression(text, tokens),
            Err(SqlFault::OutsideProfile { clause }) => Err(SqlFault::OutsideProfile { clause }),
            Err(SqlFault::Memory(error)) => Err(SqlFault::Memory(error)),
        }
    }
}

// A condition behind WHERE, or nothing: whether it stands there.
fn condition<'a>(text: &[u8], tokens: &'a [Token]) -> Result<(bool, &'a [Token]), SqlFault>
    ensures parses { Parses text.now (condition text.now tokens.now) result }
{
    if !at_word(b"WHERE", text, tokens) {
        return Ok((false, tokens));
    }
    let (_where, rest) = word(b"WHERE", text, tokens)?;
    let rest = some_to_end(text, rest)?;
    Ok((true, rest))
}

/// The parts of the whole text of an index, by its tokens (CREATE INDEX). Or `SqlSyntax` with the offset of the first token that does not fit, or want of memory.
pub fn index_statement(alloc: Global, text: &[u8], tokens: &[Token]) -> Result<IndexText, SqlFault>
    ensures parses { ParsesWhole text.now (index_statement text.now tokens.now) result }
{
    let (_create, rest) = word(b"CREATE", text, tokens)?;
    let (unique, rest) = optional_word(b"UNIQUE", text, rest);
    let (_index, rest) = word(b"INDEX", text, rest)?;
    let (index_name, rest) = name(text, rest)?;
    let (_on, rest) = word(b"ON", text, rest)?;
    let (table_name, rest) = name(text, rest)?;
    let (parts, rest) = list_in_brackets::<IndexedParts>(alloc, text, rest)?;
    let (partial, rest) = condition(text, rest)?;
    let index = IndexText {
        unique: unique.is_some(),
        name: index_name,
        table: table_name,
        parts,
        partial,
    };
    ended(index, text, rest)
}
