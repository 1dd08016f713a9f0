// The value of DEFAULT, and what REFERENCES does.
ghost use Rattle.std.specs.Prelude.{◌≡◌, ◌<◌, ◌≤◌, ◌||◌, true, IfOk, length};
ghost use Rattle.schema_spec.specs.Fronts.{one, begins};
ghost use Rattle.schema_spec.specs.Words.{is_literal, is_sign};
ghost use Rattle.schema_spec.specs.ColumnGrammar.{at_blob, default_value, foreign_action, foreign_clause, at_deferral, deferral};
ghost use Rattle.schema_grammar.specs.Parses.{Parses};

use crate::brackets::bracketed;
use crate::fronts::{at_sign, at_word, at_words, misfit, name, one_of, optional_word, word};
use crate::types::signed_number;
use schema_spec::{SqlFault, Token};
use schema_tokens::{is_blob, is_literal, is_sign};

const NULL_OR_DEFAULT: [&[u8]; 2] = [b"NULL", b"DEFAULT"];

const CASCADE_OR_RESTRICT: [&[u8]; 2] = [b"CASCADE", b"RESTRICT"];

const DEFERRED_OR_IMMEDIATE: [&[u8]; 2] = [b"DEFERRED", b"IMMEDIATE"];

const CHANGES: [&[u8]; 3] = [b"DELETE", b"UPDATE", b"INSERT"];

// A literal or a word, as DEFAULT takes it.
fn literal<'a>(text: &[u8], tokens: &'a [Token]) -> Result<(Token, &'a [Token]), SqlFault>
    ensures parses { Parses text.now (one (is_literal text.now) tokens.now) result }
    ensures shorter { IfOk result (λ read. length read.1.now < length tokens.now) }
{
    match tokens {
        [token, rest @ ..] if is_literal(text, *token) => Ok((*token, rest)),
        _ => Err(misfit(text, tokens)),
    }
}

// The tokens begin with a blob, which has two.
fn at_blob(text: &[u8], tokens: &[Token]) -> bool
    ensures { result ≡ at_blob text.now tokens.now }
{
    match tokens {
        [x, content, ..] => is_blob(text, *x, *content),
        _ => false,
    }
}

// The value of DEFAULT: text in brackets, a signed number, a blob, or one literal or word.
pub(crate) fn default_value<'a>(
    text: &[u8],
    tokens: &'a [Token],
) -> Result<(Token, &'a [Token]), SqlFault>
    ensures parses { Parses text.now (default_value text.now tokens.now) result }
    ensures shorter { IfOk result (λ read. length read.1.now < length tokens.now) }
{
    if at_sign(b'(', text, tokens) {
        return bracketed(text, tokens);
    }
    if at_plus_or_minus(text, tokens) {
        return signed_number(text, tokens);
    }
    if at_blob(text, tokens) {
        let (_x, rest) = literal(text, tokens)?;
        return any_token(text, rest);
    }
    literal(text, tokens)
}

// The first token is a plus or minus.
fn at_plus_or_minus(text: &[u8], tokens: &[Token]) -> bool
    ensures { result ≡ begins (λ token. is_sign 43 text.now token || is_sign 45 text.now token) tokens.now }
{
    match tokens {
        [token, ..] => is_sign(b'+', text, *token) || is_sign(b'-', text, *token),
        [] => false,
    }
}

// Any token.
fn any_token<'a>(text: &[u8], tokens: &'a [Token]) -> Result<(Token, &'a [Token]), SqlFault>
    ensures parses { Parses text.now (one (λ token. true) tokens.now) result }
    ensures shorter { IfOk result (λ read. length read.1.now < length tokens.now) }
{
    match tokens {
        [token, rest @ ..] => Ok((*token, rest)),
        [] => Err(misfit(text, tokens)),
    }
}

// What is done with rows that refer to a row that is deleted or updated.
fn foreign_action<'a>(text: &[u8], tokens: &'a [Token]) -> Result<(Token, &'a [Token]), SqlFault>
    ensures parses { Parses text.now (foreign_action text.now tokens.now) result }
    ensures shorter { IfOk result (λ read. length read.1.now < length tokens.now) }
{
    if at_word(b"SET", text, tokens) {
        let (_set, rest) = word(b"SET", text, tokens)?;
        return one_of(&NULL_OR_DEFAULT, text, rest);
    }
    if at_word(b"NO", text, tokens) {
        let (_no, rest) = word(b"NO", text, tokens)?;
        return word(b"ACTION", text, rest);
    }
    one_of(&CASCADE_OR_RESTRICT, text, tokens)
}

// MATCH and a name, or ON and what is done.
pub(crate) fn foreign_clause<'a>(
    text: &[u8],
    tokens: &'a [Token],
) -> Result<(Token, &'a [Token]), SqlFault>
    ensures parses { Parses text.now (foreign_clause text.now tokens.now) result }
    ensures shorter { IfOk result (λ read. length read.1.now < length tokens.now) }
{
    if at_word(b"MATCH", text, tokens) {
        let (_match, rest) = word(b"MATCH", text, tokens)?;
        return name(text, rest);
    }
    let (_on, rest) = word(b"ON", text, tokens)?;
    let (_change, rest) = one_of(&CHANGES, text, rest)?;
    foreign_action(text, rest)
}

// A deferral begins: in a column NOT may begin NOT NULL too, so the word behind it decides.
fn at_deferral(in_column: bool, text: &[u8], tokens: &[Token]) -> bool
    ensures { result ≡ at_deferral text.now in_column tokens.now }
{
    if at_word(b"DEFERRABLE", text, tokens) {
        return true;
    }
    if in_column {
        at_words(b"NOT", b"DEFERRABLE", text, tokens)
    } else {
        at_word(b"NOT", text, tokens)
    }
}

// When a reference is looked at, or nothing: the last word of it.
pub(crate) fn deferral<'a>(
    in_column: bool,
    text: &[u8],
    tokens: &'a [Token],
) -> Result<(Option<Token>, &'a [Token]), SqlFault>
    ensures parses { Parses text.now (deferral text.now in_column tokens.now) result }
    ensures shorter { IfOk result (λ read. length read.1.now ≤ length tokens.now) }
{
    if !at_deferral(in_column, text, tokens) {
        return Ok((None, tokens));
    }
    let (_not, rest) = optional_word(b"NOT", text, tokens);
    let (deferrable, rest) = word(b"DEFERRABLE", text, rest)?;
    if !at_word(b"INITIALLY", text, rest) {
        return Ok((Some(deferrable), rest));
    }
    let (_initially, rest) = word(b"INITIALLY", text, rest)?;
    let (when, rest) = one_of(&DEFERRED_OR_IMMEDIATE, text, rest)?;
    Ok((Some(when), rest))
}
