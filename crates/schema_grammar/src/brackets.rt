// What the grammar skips.
ghost use Rattle.std.specs.Prelude.{◌≡◌, ◌<◌, ◌≤◌, ◌+◌, ◌^◌, IfOk, length};
ghost use Rattle.schema_spec.specs.Brackets.{bracketed, to_close, open_behind, to_end, some_to_end};
ghost use Rattle.schema_grammar.specs.Parses.{Parses, Skips};

use crate::fronts::{misfit, sign};
use schema_spec::{SqlFault, Token};
use schema_tokens::{is_sign, is_sql};

// Any tokens between two brackets.
pub(crate) fn bracketed<'a>(
    text: &[u8],
    tokens: &'a [Token],
) -> Result<(Token, &'a [Token]), SqlFault>
    ensures parses { Parses text.now (bracketed text.now tokens.now) result }
    ensures shorter { IfOk result (λ read. length read.1.now < length tokens.now) }
{
    let (_opening, rest) = sign(b'(', text, tokens)?;
    to_close(text, rest)
}

// Any tokens up to the bracket that closes the open one.
fn to_close<'a>(text: &[u8], tokens: &'a [Token]) -> Result<(Token, &'a [Token]), SqlFault>
    ensures parses { Parses text.now (to_close text.now 1 tokens.now) result }
    ensures shorter { IfOk result (λ read. length read.1.now < length tokens.now) }
{
    let mut depth = 1;
    let mut left = tokens;
    while let [token, rest @ ..] = left {
        depth = open_behind(depth, text, *token);
        if depth == 0 {
            return Ok((*token, rest));
        }
        if !is_sql(text, *token) {
            return Err(misfit(text, left));
        }
        left = rest;
    }
    Err(misfit(text, left))
}

// How many brackets are open behind a token.
pub(crate) fn open_behind(depth: usize, text: &[u8], token: Token) -> usize
    requires { depth + 1 < 2 ^ 64 }
    ensures opens { result ≡ open_behind text.now depth token }
    ensures bound { result ≤ depth + 1 }
{
    if is_sign(b'(', text, token) {
        depth + 1
    } else if is_sign(b')', text, token) {
        depth.saturating_sub(1)
    } else {
        depth
    }
}

// Any tokens to the end of the text.
fn to_end<'a>(text: &[u8], tokens: &'a [Token]) -> Result<&'a [Token], SqlFault>
    ensures skips { Skips text.now (to_end text.now tokens.now) result }
{
    let mut left = tokens;
    while let [token, rest @ ..] = left {
        if !is_sql(text, *token) {
            return Err(misfit(text, left));
        }
        left = rest;
    }
    Ok(left)
}

// At least one token, and any to the end of the text.
pub(crate) fn some_to_end<'a>(text: &[u8], tokens: &'a [Token]) -> Result<&'a [Token], SqlFault>
    ensures skips { Skips text.now (some_to_end text.now tokens.now) result }
{
    match tokens {
        [token, rest @ ..] if is_sql(text, *token) => to_end(text, rest),
        _ => Err(misfit(text, tokens)),
    }
}
