// What stands at the front of some tokens.
ghost use Rattle.std.specs.Prelude.{◌≡◌, ◌<◌, ◌≤◌, IfOk, map, length};
ghost use Rattle.schema_spec.specs.Fronts.{Behind, ended, one, optional};
ghost use Rattle.schema_spec.specs.Words.{is_keyword, is_word_of, is_sign};
ghost use Rattle.schema_spec.specs.Texts.{offset_of};
ghost use Rattle.schema_spec.specs.ColumnGrammar.{word, sign, name, at_word, at_sign, at_words};
ghost use Rattle.schema_grammar.specs.Parses.{Parses, ParsesWhole};

use schema_spec::{SqlFault, Token};
use schema_tokens::{is_keyword, is_name, is_sign, is_word_of};

// The fault that the first of some tokens fits nowhere.
pub(crate) fn misfit(text: &[u8], tokens: &[Token]) -> SqlFault
    ensures { result ≡ SqlFault.SqlSyntax (offset_of text.now tokens.now) }
{
    let offset = match tokens {
        [token, ..] => token.start as u64,
        [] => text.len() as u64,
    };
    SqlFault::SqlSyntax { offset }
}

// The first token is the word.
pub(crate) fn at_word(bytes: &[u8], text: &[u8], tokens: &[Token]) -> bool
    ensures { result ≡ at_word text.now bytes.now tokens.now }
{
    match tokens {
        [token, ..] => is_keyword(bytes, text, *token),
        [] => false,
    }
}

// The first token is the sign.
pub(crate) fn at_sign(byte: u8, text: &[u8], tokens: &[Token]) -> bool
    ensures { result ≡ at_sign text.now byte tokens.now }
{
    match tokens {
        [token, ..] => is_sign(byte, text, *token),
        [] => false,
    }
}

// The first token is the one word, and the second the other.
pub(crate) fn at_words(bytes: &[u8], next: &[u8], text: &[u8], tokens: &[Token]) -> bool
    ensures { result ≡ at_words text.now bytes.now next.now tokens.now }
{
    match tokens {
        [token, rest @ ..] => is_keyword(bytes, text, *token) && at_word(next, text, rest),
        [] => false,
    }
}

// The word.
pub(crate) fn word<'a>(
    bytes: &[u8],
    text: &[u8],
    tokens: &'a [Token],
) -> Result<(Token, &'a [Token]), SqlFault>
    ensures parses { Parses text.now (word text.now bytes.now tokens.now) result }
    ensures shorter { IfOk result (λ read. length read.1.now < length tokens.now) }
{
    match tokens {
        [token, rest @ ..] if is_keyword(bytes, text, *token) => Ok((*token, rest)),
        _ => Err(misfit(text, tokens)),
    }
}

// The sign.
pub(crate) fn sign<'a>(
    byte: u8,
    text: &[u8],
    tokens: &'a [Token],
) -> Result<(Token, &'a [Token]), SqlFault>
    ensures parses { Parses text.now (sign text.now byte tokens.now) result }
    ensures shorter { IfOk result (λ read. length read.1.now < length tokens.now) }
{
    match tokens {
        [token, rest @ ..] if is_sign(byte, text, *token) => Ok((*token, rest)),
        _ => Err(misfit(text, tokens)),
    }
}

// One of the words.
pub(crate) fn one_of<'a>(
    words: &[&[u8]],
    text: &[u8],
    tokens: &'a [Token],
) -> Result<(Token, &'a [Token]), SqlFault>
    ensures parses { Parses text.now (one (is_word_of (map (λ word. word.now) words.now) text.now) tokens.now) result }
    ensures shorter { IfOk result (λ read. length read.1.now < length tokens.now) }
{
    match tokens {
        [token, rest @ ..] if is_word_of(words, text, *token) => Ok((*token, rest)),
        _ => Err(misfit(text, tokens)),
    }
}

// A name.
pub(crate) fn name<'a>(text: &[u8], tokens: &'a [Token]) -> Result<(Token, &'a [Token]), SqlFault>
    ensures parses { Parses text.now (name text.now tokens.now) result }
    ensures shorter { IfOk result (λ read. length read.1.now < length tokens.now) }
{
    match tokens {
        [token, rest @ ..] if is_name(text, *token) => Ok((*token, rest)),
        _ => Err(misfit(text, tokens)),
    }
}

// The word, or nothing.
pub(crate) fn optional_word<'a>(
    bytes: &[u8],
    text: &[u8],
    tokens: &'a [Token],
) -> (Option<Token>, &'a [Token])
    ensures word { optional (is_keyword bytes.now text.now) tokens.now ≡ Behind result.0 result.1.now }
    ensures shorter { length result.1.now ≤ length tokens.now }
{
    match tokens {
        [token, rest @ ..] if is_keyword(bytes, text, *token) => (Some(*token), rest),
        _ => (None, tokens),
    }
}

// One of the words, or nothing.
pub(crate) fn optional_of<'a>(
    words: &[&[u8]],
    text: &[u8],
    tokens: &'a [Token],
) -> (Option<Token>, &'a [Token])
    ensures word { optional (is_word_of (map (λ word. word.now) words.now) text.now) tokens.now ≡ Behind result.0 result.1.now }
    ensures shorter { length result.1.now ≤ length tokens.now }
{
    match tokens {
        [token, rest @ ..] if is_word_of(words, text, *token) => (Some(*token), rest),
        _ => (None, tokens),
    }
}

// What was read, where no token is left.
pub(crate) fn ended<T: Drop>(read: T, text: &[u8], tokens: &[Token]) -> Result<T, SqlFault>
    ensures parses { ParsesWhole text.now (ended read tokens.now) result }
{
    match tokens {
        [] => Ok(read),
        [_, ..] => Err(misfit(text, tokens)),
    }
}
