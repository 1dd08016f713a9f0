// The type of a column.
ghost use Rattle.std.specs.Prelude.{◌≡◌, ◌<◌, ◌≤◌, IfOk, length};
ghost use Rattle.schema_spec.specs.Fronts.{Behind, one, either, nothing};
ghost use Rattle.schema_spec.specs.Words.{is_number_token};
ghost use Rattle.schema_spec.specs.ColumnGrammar.{at_sign, signed_number, type_numbers, last_type_word, column_type};
ghost use Rattle.schema_grammar.specs.Parses.{Parses};

use crate::fronts::{at_sign, misfit, sign};
use schema_spec::{SqlFault, Token};
use schema_tokens::{is_number_token, is_sign, is_type_word};

// The tokens without a sign at their front.
fn behind_sign<'a>(text: &[u8], tokens: &'a [Token]) -> &'a [Token]
    ensures sign { signed_number text.now tokens.now ≡ one (is_number_token text.now) result.now }
    ensures shorter { length result.now ≤ length tokens.now }
{
    match tokens {
        [token, rest @ ..] if is_sign(b'+', text, *token) || is_sign(b'-', text, *token) => rest,
        _ => tokens,
    }
}

// A number.
fn number<'a>(text: &[u8], tokens: &'a [Token]) -> Result<(Token, &'a [Token]), SqlFault>
    ensures parses { Parses text.now (one (is_number_token text.now) tokens.now) result }
    ensures shorter { IfOk result (λ read. length read.1.now < length tokens.now) }
{
    match tokens {
        [token, rest @ ..] if is_number_token(text, *token) => Ok((*token, rest)),
        _ => Err(misfit(text, tokens)),
    }
}

// A number with a sign or without.
pub(crate) fn signed_number<'a>(
    text: &[u8],
    tokens: &'a [Token],
) -> Result<(Token, &'a [Token]), SqlFault>
    ensures parses { Parses text.now (signed_number text.now tokens.now) result }
    ensures shorter { IfOk result (λ read. length read.1.now < length tokens.now) }
{
    number(text, behind_sign(text, tokens))
}

// One or two signed numbers in brackets, and the bracket that closes them.
fn type_numbers<'a>(text: &[u8], tokens: &'a [Token]) -> Result<(Token, &'a [Token]), SqlFault>
    ensures parses { Parses text.now (type_numbers text.now tokens.now) result }
    ensures shorter { IfOk result (λ read. length read.1.now < length tokens.now) }
{
    let (_opening, rest) = sign(b'(', text, tokens)?;
    let (_first, rest) = signed_number(text, rest)?;
    if !at_sign(b',', text, rest) {
        return sign(b')', text, rest);
    }
    let (_comma, rest) = sign(b',', text, rest)?;
    let (_second, rest) = signed_number(text, rest)?;
    sign(b')', text, rest)
}

// Further words of a type: the last one of all, and what is left.
fn last_type_word<'a>(last: Token, text: &[u8], tokens: &'a [Token]) -> (Token, &'a [Token])
    ensures words { last_type_word text.now last tokens.now ≡ Behind result.0 result.1.now }
    ensures shorter { length result.1.now ≤ length tokens.now }
{
    let mut word = last;
    let mut left = tokens;
    while let [token, rest @ ..] = left {
        if !is_type_word(text, *token) {
            return (word, left);
        }
        word = *token;
        left = rest;
    }
    (word, left)
}

// Numbers in brackets behind a type's last word, or nothing: the last token of the type.
fn last_type_token<'a>(
    last: Token,
    text: &[u8],
    tokens: &'a [Token],
) -> Result<(Token, &'a [Token]), SqlFault>
    ensures parses { Parses text.now (either (at_sign text.now 40) (type_numbers text.now) (nothing last) tokens.now) result }
    ensures shorter { IfOk result (λ read. length read.1.now ≤ length tokens.now) }
{
    if at_sign(b'(', text, tokens) {
        type_numbers(text, tokens)
    } else {
        Ok((last, tokens))
    }
}

// The type of a column: where it begins and ends.
pub(crate) fn column_type<'a>(
    text: &[u8],
    tokens: &'a [Token],
) -> Result<((usize, usize), &'a [Token]), SqlFault>
    ensures parses { Parses text.now (column_type text.now tokens.now) result }
    ensures shorter { IfOk result (λ read. length read.1.now ≤ length tokens.now) }
{
    match tokens {
        [first, rest @ ..] if is_type_word(text, *first) => {
            let (last, rest) = last_type_word(*first, text, rest);
            let (last, rest) = last_type_token(last, text, rest)?;
            Ok(((first.start, last.end), rest))
        }
        _ => Ok(((0, 0), tokens)),
    }
}
