// Words, names and numbers of a text, by its tokens.
ghost use Rattle.std.specs.Prelude.{◌≡◌, ◌∷◌, ◌≤◌, IfOk, length, map, slice_index, slice_range};
ghost use Rattle.std.specs.Char.{is_ascii_digit};
ghost use Rattle.schema_spec.specs.Words.{spelling, inner, same_name, is_one_of, is_word_of, is_keyword, is_sign, is_name, is_type_word, reserved_words, constraint_words, name_of, undoubled, behind_digits, are_digits, is_power, ends_number, is_fraction, is_number, is_number_token, is_hex, is_sql, is_literal, is_blob, is_hex_content};
ghost use Rattle.std.specs.Char.{is_ascii_hexdigit};
ghost use Rattle.std.specs.List.{list_all};

use rbu_value::Bytes;
use schema_spec::{Token, TokenKind};
use std::alloc::{AllocError, Global};

// Words that SQLite takes for no name unless they stand in quotes (SQLite Keywords).
const RESERVED_WORDS: [&[u8]; 58] = [
    b"ADD",
    b"ALL",
    b"ALTER",
    b"AND",
    b"AS",
    b"AUTOINCREMENT",
    b"BETWEEN",
    b"CASE",
    b"CHECK",
    b"COLLATE",
    b"COMMIT",
    b"CONSTRAINT",
    b"CREATE",
    b"DEFAULT",
    b"DEFERRABLE",
    b"DELETE",
    b"DISTINCT",
    b"DROP",
    b"ELSE",
    b"ESCAPE",
    b"EXCEPT",
    b"EXISTS",
    b"FOREIGN",
    b"FROM",
    b"GROUP",
    b"HAVING",
    b"IN",
    b"INDEX",
    b"INSERT",
    b"INTERSECT",
    b"INTO",
    b"IS",
    b"ISNULL",
    b"JOIN",
    b"LIMIT",
    b"NOT",
    b"NOTHING",
    b"NOTNULL",
    b"NULL",
    b"ON",
    b"OR",
    b"ORDER",
    b"PRIMARY",
    b"REFERENCES",
    b"RETURNING",
    b"SELECT",
    b"SET",
    b"TABLE",
    b"THEN",
    b"TO",
    b"TRANSACTION",
    b"UNION",
    b"UNIQUE",
    b"UPDATE",
    b"USING",
    b"VALUES",
    b"WHEN",
    b"WHERE",
];

/// The bytes between two places of a text, as far as it goes.
pub fn part(text: &[u8], start: usize, end: usize) -> &[u8]
    ensures { result.now ≡ slice_range text.now start end }
{
    let end = end.min(text.len());
    &text[start.min(end)..end]
}

// The byte at a place, or 0 behind the text's end.
fn byte_at(text: &[u8], place: usize) -> u8
    ensures { result ≡ slice_index text.now place }
{
    if place < text.len() { text[place] } else { 0 }
}

/// The bytes of a token.
pub fn spelling(text: &[u8], token: Token) -> &[u8]
    ensures { result.now ≡ spelling text.now token }
{
    part(text, token.start, token.end)
}

// The bytes between the first and the last of a token.
fn inner(text: &[u8], token: Token) -> &[u8]
    ensures { result.now ≡ inner text.now token }
{
    part(
        text,
        token.start.saturating_add(1),
        token.end.saturating_sub(1),
    )
}

/// Two names are one, where the case of ASCII letters does not count.
pub fn same_name(a: &[u8], b: &[u8]) -> bool
    ensures { result ≡ same_name a.now b.now }
{
    a.eq_ignore_ascii_case(b)
}

// The text is one of the words.
fn is_one_of(words: &[&[u8]], text: &[u8]) -> bool
    ensures { result ≡ is_one_of (map (λ word. word.now) words.now) text.now }
{
    let mut left = words;
    while let [word, rest @ ..] = left {
        if same_name(text, word) {
            return true;
        }
        left = rest;
    }
    false
}

/// The token is one of the words.
pub fn is_word_of(words: &[&[u8]], text: &[u8], token: Token) -> bool
    ensures { result ≡ is_word_of (map (λ word. word.now) words.now) text.now token }
{
    match token.kind {
        TokenKind::Word => is_one_of(words, spelling(text, token)),
        _ => false,
    }
}

/// The token is the word.
pub fn is_keyword(word: &[u8], text: &[u8], token: Token) -> bool
    ensures { result ≡ is_keyword word.now text.now token }
{
    is_word_of(&[word], text, token)
}

// Words with which a constraint of a column begins, in the profile or outside of it.
const CONSTRAINT_WORDS: [&[u8]; 11] = [
    b"CONSTRAINT",
    b"PRIMARY",
    b"NOT",
    b"NULL",
    b"UNIQUE",
    b"COLLATE",
    b"DEFAULT",
    b"CHECK",
    b"REFERENCES",
    b"GENERATED",
    b"AS",
];

// A constraint of a column begins with the word.
fn is_constraint_word(text: &[u8]) -> bool
    ensures { result ≡ is_one_of constraint_words text.now }
{
    is_one_of(&CONSTRAINT_WORDS, text)
}

/// The token is a word with which a constraint of a column begins.
pub fn begins_constraint(text: &[u8], token: Token) -> bool
    ensures { result ≡ is_word_of constraint_words text.now token }
{
    match token.kind {
        TokenKind::Word => is_constraint_word(spelling(text, token)),
        _ => false,
    }
}

/// The token is a word of a type.
pub fn is_type_word(text: &[u8], token: Token) -> bool
    ensures { result ≡ is_type_word text.now token }
{
    match token.kind {
        TokenKind::Word => !is_constraint_word(spelling(text, token)),
        _ => false,
    }
}

// The text is a word that is no name.
fn is_reserved(text: &[u8]) -> bool
    ensures { result ≡ is_one_of reserved_words text.now }
{
    is_one_of(&RESERVED_WORDS, text)
}

/// The token is a name.
pub fn is_name(text: &[u8], token: Token) -> bool
    ensures { result ≡ is_name text.now token }
{
    match token.kind {
        TokenKind::Word => !is_reserved(spelling(text, token)),
        TokenKind::Quoted | TokenKind::Bracketed => true,
        _ => false,
    }
}

/// The token is the sign.
pub fn is_sign(sign: u8, text: &[u8], token: Token) -> bool
    ensures { result ≡ is_sign sign text.now token }
{
    match token.kind {
        TokenKind::Sign => byte_at(text, token.start) == sign,
        _ => false,
    }
}

/// The name that a token is, without its quotes; a doubled quote stands for one (SQLite Keywords). Fails where memory runs out.
pub fn name_of(alloc: Global, text: &[u8], token: Token) -> Result<Bytes, AllocError>
    ensures { IfOk result (λ name. name ≡ name_of text.now token) }
{
    match token.kind {
        TokenKind::Quoted => {
            let quote = byte_at(text, token.start);
            undoubled(alloc, quote, inner(text, token))
        }
        TokenKind::Bracketed => Bytes::of(alloc, inner(text, token)),
        _ => Bytes::of(alloc, spelling(text, token)),
    }
}

// The text with each doubled quote once.
fn undoubled(alloc: Global, quote: u8, text: &[u8]) -> Result<Bytes, AllocError>
    ensures { IfOk result (λ bytes. bytes ≡ undoubled quote text.now) }
{
    let mut bytes = Vec::with_capacity(alloc, text.len())?;
    let mut left = text;
    while let [byte, rest @ ..] = left {
        bytes.push(*byte)?;
        left = behind_byte(quote, *byte, rest);
    }
    Ok(Bytes::from_vec(bytes))
}

// What is left behind a byte that stands for itself: a second quote behind a first one goes with it.
fn behind_byte(quote: u8, byte: u8, rest: &[u8]) -> &[u8]
    ensures once { undoubled quote (byte ∷ rest.now) ≡ byte ∷ undoubled quote result.now }
    ensures shorter { length result.now ≤ length rest.now }
{
    match rest {
        [next, behind @ ..] => {
            if byte == quote && *next == quote {
                behind
            } else {
                rest
            }
        }
        [] => rest,
    }
}

// The text behind the digits at its front.
fn behind_digits(text: &[u8]) -> &[u8]
    ensures { result.now ≡ behind_digits text.now }
{
    let mut left = text;
    while let [b'0'..=b'9', rest @ ..] = left {
        left = rest;
    }
    left
}

// Digits, at least one, and nothing else.
fn are_digits(text: &[u8]) -> bool
    ensures { result ≡ are_digits text.now }
{
    match text {
        [] => false,
        [first, rest @ ..] => first.is_ascii_digit() && all_digits(rest),
    }
}

// Digits alone.
fn all_digits(text: &[u8]) -> bool
    ensures { result ≡ list_all is_ascii_digit text.now }
{
    text.iter().all(|byte| byte.is_ascii_digit())
}

// An exponent's digits, behind one sign or none.
fn is_power(text: &[u8]) -> bool
    ensures { result ≡ is_power text.now }
{
    match text {
        [b'+' | b'-', digits @ ..] => are_digits(digits),
        _ => are_digits(text),
    }
}

// An exponent or nothing.
fn ends_number(text: &[u8]) -> bool
    ensures { result ≡ ends_number text.now }
{
    match text {
        [] => true,
        [b'e' | b'E', power @ ..] => is_power(power),
        _ => false,
    }
}

// A point with digits or without, or none, and an exponent or none.
fn is_fraction(text: &[u8]) -> bool
    ensures { result ≡ is_fraction text.now }
{
    match text {
        [b'.', digits @ ..] => ends_number(behind_digits(digits)),
        _ => ends_number(text),
    }
}

// Hexadecimal digits alone.
fn are_hex_digits(text: &[u8]) -> bool
    ensures { result ≡ list_all is_ascii_hexdigit text.now }
{
    text.iter().all(|byte| byte.is_ascii_hexdigit())
}

// What stands behind the first digit of 0x and hexadecimal digits.
fn is_hex(text: &[u8]) -> bool
    ensures { result ≡ is_hex text.now }
{
    match text {
        [b'x' | b'X', digits @ ..] => !digits.is_empty() && are_hex_digits(digits),
        _ => false,
    }
}

// The spelling of a number's token is a number of SQL.
fn is_number(text: &[u8]) -> bool
    ensures { result ≡ is_number text.now }
{
    match text {
        [] => false,
        [first, rest @ ..] => is_fraction(behind_digits(text)) || (*first == b'0' && is_hex(rest)),
    }
}

/// The token is a number.
pub fn is_number_token(text: &[u8], token: Token) -> bool
    ensures { result ≡ is_number_token text.now token }
{
    match token.kind {
        TokenKind::Number => is_number(spelling(text, token)),
        _ => false,
    }
}

/// The token is one of SQL.
pub fn is_sql(text: &[u8], token: Token) -> bool
    ensures { result ≡ is_sql text.now token }
{
    match token.kind {
        TokenKind::Unclosed => false,
        TokenKind::Number => is_number(spelling(text, token)),
        _ => true,
    }
}

/// The token is a literal or a word, as DEFAULT takes it.
pub fn is_literal(text: &[u8], token: Token) -> bool
    ensures { result ≡ is_literal text.now token }
{
    is_number_token(text, token) || is_keyword(b"NULL", text, token) || is_name(text, token)
}

/// The token is X, and behind it stands an even number of hexadecimal digits in single quotes.
pub fn is_blob(text: &[u8], x: Token, content: Token) -> bool
    ensures { result ≡ is_blob text.now x content }
{
    is_keyword(b"X", text, x)
        && content.start == x.end
        && byte_at(text, content.start) == b'\''
        && is_hex_content(text, content)
}

// Between the token's quotes stands an even number of hexadecimal digits.
fn is_hex_content(text: &[u8], content: Token) -> bool
    ensures { result ≡ is_hex_content text.now content }
{
    match content.kind {
        TokenKind::Quoted => {
            let digits = inner(text, content);
            are_hex_digits(digits) && digits.len() % 2 == 0
        }
        _ => false,
    }
}
