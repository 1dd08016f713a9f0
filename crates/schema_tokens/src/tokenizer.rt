// The tokens of a text, by their places in it.
ghost use Rattle.std.specs.Prelude.{◌≡◌, ◌≤◌, ◌<◌, IfOk, IfSome, length, slice_index, option_map};
ghost use Rattle.common_spec.specs.Reading.{Reads};
ghost use Rattle.schema_spec.specs.Tokens.{AreTokens, opening, goes_on, past, past_quoted, behind_close, closed, part_of, is_token, is_white, is_word_byte, is_quote, begins_number, behind_first, first_part};

use schema_spec::{Token, TokenKind};
use std::alloc::{AllocError, Global};

/// The tokens of an SQL text, in their order: each by its place, and no byte of the text is copied (SQL Comment Syntax; SQLite Keywords; Literal Values).
pub fn tokens(alloc: Global, text: &[u8]) -> Result<Vec<Token>, AllocError>
    ensures { IfOk result (λ tokens. Reads (AreTokens text.now) tokens.items) }
{
    let mut tokens = Vec::new(alloc);
    let mut left = text;
    while !left.is_empty() {
        let (kind, behind) = first_part(left);
        let start = text.len() - left.len();
        let end = text.len() - behind.len();
        if is_token(kind) {
            tokens.push(Token { kind, start, end })?;
        }
        left = behind;
    }
    Ok(tokens)
}

// The part at the front of a text, and what is left behind it.
fn first_part(text: &[u8]) -> (TokenKind, &[u8])
    ensures kind { result.0 ≡ (first_part text.now).0 }
    ensures behind { result.1.now ≡ (first_part text.now).1 }
    ensures shorter { 0 < length text.now → length result.1.now < length text.now }
{
    match text {
        [first, rest @ ..] => part_of(opening(*first, byte_or_zero(rest)), *first, rest),
        [] => (TokenKind::Sign, text),
    }
}

// The part of a kind that begins with a byte, and what is left behind it.
fn part_of(kind: TokenKind, first: u8, rest: &[u8]) -> (TokenKind, &[u8])
    ensures kind { result.0 ≡ (part_of kind first rest.now).0 }
    ensures behind { result.1.now ≡ (part_of kind first rest.now).1 }
    ensures shorter { length result.1.now ≤ length rest.now }
{
    match kind {
        TokenKind::Quoted => closed(kind, past_quoted(first, rest)),
        TokenKind::Bracketed => closed(kind, behind_close(past(kind, first, rest))),
        TokenKind::BlockComment => (kind, behind_first(past(kind, 0, behind_first(rest)))),
        _ => (kind, past(kind, first, rest)),
    }
}

// The first byte of a text, or 0.
fn byte_or_zero(text: &[u8]) -> u8
    ensures { result ≡ slice_index text.now 0 }
{
    match text {
        [first, ..] => *first,
        [] => 0,
    }
}

// White space and comments are no tokens.
fn is_token(kind: TokenKind) -> bool
    ensures { result ≡ is_token kind }
{
    !matches!(
        kind,
        TokenKind::Space | TokenKind::LineComment | TokenKind::BlockComment
    )
}

fn opening(first: u8, next: u8) -> TokenKind
    ensures { result ≡ opening first next }
{
    if is_white(first) {
        TokenKind::Space
    } else if first == b'-' && next == b'-' {
        TokenKind::LineComment
    } else if first == b'/' && next == b'*' {
        TokenKind::BlockComment
    } else if is_quote(first) {
        TokenKind::Quoted
    } else if first == b'[' {
        TokenKind::Bracketed
    } else if begins_number(first, next) {
        TokenKind::Number
    } else if is_word_byte(first) {
        TokenKind::Word
    } else {
        TokenKind::Sign
    }
}

#[tactic(auto, unfolding(schema_spec::specs::Tokens::is_white))]
fn is_white(byte: u8) -> bool
    ensures { result ≡ is_white byte }
{
    byte == b' ' || (b'\t' <= byte && byte <= b'\r')
}

#[tactic(auto, unfolding(schema_spec::specs::Tokens::is_word_byte))]
fn is_word_byte(byte: u8) -> bool
    ensures { result ≡ is_word_byte byte }
{
    byte.is_ascii_alphanumeric() || byte == b'_' || byte == b'$' || byte >= 0x80
}

#[tactic(auto, unfolding(schema_spec::specs::Tokens::is_quote))]
fn is_quote(byte: u8) -> bool
    ensures { result ≡ is_quote byte }
{
    byte == b'"' || byte == b'`' || byte == b'\''
}

#[tactic(auto, unfolding(schema_spec::specs::Tokens::begins_number))]
fn begins_number(byte: u8, next: u8) -> bool
    ensures { result ≡ begins_number byte next }
{
    byte.is_ascii_digit() || (byte == b'.' && next.is_ascii_digit())
}

// A part of this kind goes on with a byte, behind the byte before.
fn goes_on(kind: TokenKind, before: u8, byte: u8) -> bool
    ensures { result ≡ goes_on kind before byte }
{
    match kind {
        TokenKind::Space => is_white(byte),
        TokenKind::LineComment => byte != b'\n',
        TokenKind::BlockComment => !(before == b'*' && byte == b'/'),
        TokenKind::Word => is_word_byte(byte),
        TokenKind::Number => number_goes_on(before, byte),
        TokenKind::Bracketed => byte != b']',
        _ => false,
    }
}

fn number_goes_on(before: u8, byte: u8) -> bool
    ensures { result ≡ goes_on TokenKind.Number before byte }
{
    let signed = byte == b'+' || byte == b'-';
    let exponent = before == b'e' || before == b'E';
    is_word_byte(byte) || byte == b'.' || (signed && exponent)
}

// The text behind all bytes at its front by which a part goes on.
fn past(kind: TokenKind, before: u8, text: &[u8]) -> &[u8]
    ensures rest { result.now ≡ past (goes_on kind) before text.now }
    ensures shorter { length result.now ≤ length text.now }
{
    let mut left = text;
    let mut last = before;
    while let [byte, rest @ ..] = left {
        if !goes_on(kind, last, *byte) {
            return left;
        }
        last = *byte;
        left = rest;
    }
    left
}

// The text behind the quote that closes it.
fn past_quoted(quote: u8, text: &[u8]) -> Option<&[u8]>
    ensures rest { option_map (λ rest. rest.now) result ≡ past_quoted quote text.now }
    ensures shorter { IfSome result (λ rest. length rest.now ≤ length text.now) }
{
    let mut left = text;
    while let [byte, rest @ ..] = left {
        if *byte != quote {
            left = rest;
        } else if let [next, behind @ ..] = rest {
            if *next != quote {
                return Some(rest);
            }
            left = behind;
        } else {
            return Some(rest);
        }
    }
    None
}

// The text without its first byte, which closes it.
fn behind_close(text: &[u8]) -> Option<&[u8]>
    ensures rest { option_map (λ rest. rest.now) result ≡ behind_close text.now }
    ensures shorter { IfSome result (λ rest. length rest.now ≤ length text.now) }
{
    match text {
        [_, rest @ ..] => Some(rest),
        [] => None,
    }
}

// The text without its first byte, if it has one.
fn behind_first(text: &[u8]) -> &[u8]
    ensures rest { result.now ≡ behind_first text.now }
    ensures shorter { length result.now ≤ length text.now }
{
    match text {
        [_, rest @ ..] => rest,
        [] => text,
    }
}

// What is closed has its kind, and what nothing closes takes all of the text.
fn closed(kind: TokenKind, behind: Option<&[u8]>) -> (TokenKind, &[u8])
    ensures kind { result.0 ≡ (closed kind (option_map (λ rest. rest.now) behind.entry)).0 }
    ensures behind { result.1.now ≡ (closed kind (option_map (λ rest. rest.now) behind.entry)).1 }
{
    match behind {
        Some(rest) => (kind, rest),
        None => (TokenKind::Unclosed, &[]),
    }
}
