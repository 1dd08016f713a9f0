// Tokens that name a column wrongly.
ghost use Rattle.std.specs.Prelude.{◌≡◌, ◌++◌, ◌∷◌, [], ◌&&◌, ◌||◌, if◌then◌else◌, IfOk, OnOk, map};
ghost use Rattle.schema_spec.specs.Names.{first_start, further_primaries, lesser, unknown};

use crate::names::is_among;
use schema_spec::{Column, Key, ListedColumn, Token};
use schema_tokens::name_of;
use std::alloc::{AllocError, Global};

// Puts the columns of a list that are none of the table's behind the wrong ones.
pub(crate) fn push_unknown(
    wrong: &mut Vec<Token>,
    alloc: Global,
    text: &[u8],
    columns: &[Column],
    listed: &[ListedColumn],
) -> Result<(), AllocError>
    ensures { OnOk result (wrong.new.items ≡ wrong.old.items ++ unknown text.now (map (λ column. column.name) columns.now) listed.now) }
{
    let mut left = listed;
    while let [column, rest @ ..] = left {
        let name = name_of(alloc, text, column.name)?;
        if !is_among(columns, name.as_slice()) {
            wrong.push(column.name)?;
        }
        left = rest;
    }
    Ok(())
}

// Puts the first word of the key behind the wrong ones where it is a PRIMARY KEY and one was seen. Whether one is seen now.
fn push_if_further(wrong: &mut Vec<Token>, seen: bool, key: &Key) -> Result<bool, AllocError>
    ensures seen { IfOk result (λ now. now ≡ (seen || key.now.primary)) }
    ensures wrong { OnOk result (wrong.new.items ≡ wrong.old.items ++ (if seen && key.now.primary then (key.now.word ∷ []) else [])) }
{
    if !key.primary {
        return Ok(seen);
    }
    if !seen {
        return Ok(true);
    }
    wrong.push(key.word)?;
    Ok(true)
}

// Puts the first words of each PRIMARY KEY but the first behind the wrong ones.
pub(crate) fn push_further_primaries(wrong: &mut Vec<Token>, keys: &[Key]) -> Result<(), AllocError>
    ensures { OnOk result (wrong.new.items ≡ wrong.old.items ++ further_primaries keys.now) }
{
    let mut seen = false;
    let mut left = keys;
    while let [key, rest @ ..] = left {
        seen = push_if_further(wrong, seen, key)?;
        left = rest;
    }
    Ok(())
}

// The lesser of the place and the other one, if there is another.
fn lesser(start: usize, other: Option<usize>) -> usize
    ensures { Some result ≡ lesser start other }
{
    match other {
        Some(other) => start.min(other),
        None => start,
    }
}

// The place of the token that stands first in the text.
#[tactic(auto, using(crate::proofs::WrongTokens::earlier_next, crate::proofs::WrongTokens::earlier_last))]
pub(crate) fn first_start(tokens: &[Token]) -> Option<usize>
    ensures { result ≡ first_start tokens.now }
{
    let mut first = None;
    let mut left = tokens;
    while let [token, rest @ ..] = left {
        first = Some(lesser(token.start, first));
        left = rest;
    }
    first
}
