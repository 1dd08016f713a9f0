// Columns in lists, and what else stands in several places of a text.
ghost use Rattle.std.specs.Prelude.{◌≡◌, ◌<◌, ◌≤◌, IfOk, length, map};
ghost use Rattle.schema_spec.specs.Fronts.{Behind};
ghost use Rattle.schema_spec.specs.ColumnGrammar.{collation, constraint_name, order, listed_column, on_conflict};
ghost use Rattle.schema_grammar.specs.Parses.{Parses};

use crate::fronts::{at_word, name, one_of, word};
use schema_spec::{ListedColumn, SqlFault, Token};
use schema_tokens::{is_keyword, is_word_of};

pub(crate) const ASC_OR_DESC: [&[u8]; 2] = [b"ASC", b"DESC"];

const CONFLICT_ACTIONS: [&[u8]; 5] = [b"ROLLBACK", b"ABORT", b"FAIL", b"IGNORE", b"REPLACE"];

// A name behind COLLATE, or nothing.
fn collation<'a>(text: &[u8], tokens: &'a [Token]) -> Result<(Option<Token>, &'a [Token]), SqlFault>
    ensures parses { Parses text.now (collation text.now tokens.now) result }
    ensures shorter { IfOk result (λ read. length read.1.now ≤ length tokens.now) }
{
    if !at_word(b"COLLATE", text, tokens) {
        return Ok((None, tokens));
    }
    let (_collate, rest) = word(b"COLLATE", text, tokens)?;
    let (collation, rest) = name(text, rest)?;
    Ok((Some(collation), rest))
}

// A name behind CONSTRAINT, or nothing.
pub(crate) fn constraint_name<'a>(
    text: &[u8],
    tokens: &'a [Token],
) -> Result<(Option<Token>, &'a [Token]), SqlFault>
    ensures parses { Parses text.now (constraint_name text.now tokens.now) result }
    ensures shorter { IfOk result (λ read. length read.1.now ≤ length tokens.now) }
{
    if !at_word(b"CONSTRAINT", text, tokens) {
        return Ok((None, tokens));
    }
    let (_constraint, rest) = word(b"CONSTRAINT", text, tokens)?;
    let (name, rest) = name(text, rest)?;
    Ok((Some(name), rest))
}

// One of these words for an order, or none: whether it is DESC.
pub(crate) fn order<'a>(words: &[&[u8]], text: &[u8], tokens: &'a [Token]) -> (bool, &'a [Token])
    ensures order { order text.now (map (λ word. word.now) words.now) tokens.now ≡ Behind result.0 result.1.now }
    ensures shorter { length result.1.now ≤ length tokens.now }
{
    match tokens {
        [token, rest @ ..] if is_word_of(words, text, *token) => {
            (is_keyword(b"DESC", text, *token), rest)
        }
        _ => (false, tokens),
    }
}

// A column in a list: a name, its collation and one of these words for its order.
pub(crate) fn listed_column<'a>(
    orders: &[&[u8]],
    text: &[u8],
    tokens: &'a [Token],
) -> Result<(ListedColumn, &'a [Token]), SqlFault>
    ensures parses { Parses text.now (listed_column text.now (map (λ word. word.now) orders.now) tokens.now) result }
    ensures shorter { IfOk result (λ read. length read.1.now < length tokens.now) }
{
    let (name, rest) = name(text, tokens)?;
    let (collation, rest) = collation(text, rest)?;
    let (descends, rest) = order(orders, text, rest);
    let column = ListedColumn {
        name,
        collation,
        descends,
    };
    Ok((column, rest))
}

// ON CONFLICT with what is done, or nothing: whether it stands there.
pub(crate) fn on_conflict<'a>(
    text: &[u8],
    tokens: &'a [Token],
) -> Result<(bool, &'a [Token]), SqlFault>
    ensures parses { Parses text.now (on_conflict text.now tokens.now) result }
    ensures shorter { IfOk result (λ read. length read.1.now ≤ length tokens.now) }
{
    if !at_word(b"ON", text, tokens) {
        return Ok((false, tokens));
    }
    let (_on, rest) = word(b"ON", text, tokens)?;
    let (_conflict, rest) = word(b"CONFLICT", text, rest)?;
    let (_action, rest) = one_of(&CONFLICT_ACTIONS, text, rest)?;
    Ok((true, rest))
}
