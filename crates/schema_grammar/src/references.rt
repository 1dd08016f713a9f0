// What REFERENCES says.
ghost use Rattle.std.specs.Prelude.{◌≡◌, ◌<◌, ◌≤◌, ◌||◌, [], IfOk, length, codes};
ghost use Rattle.schema_spec.specs.Fronts.{either, nothing, many};
ghost use Rattle.schema_spec.specs.ColumnGrammar.{at_word, at_sign, name, list_in_brackets, foreign_clause, references};
ghost use Rattle.schema_grammar.specs.Parses.{Parses};

use crate::clauses::{deferral, foreign_clause};
use crate::fronts::{at_sign, at_word, name, word};
use crate::items::{Item, Repeated, list_in_brackets, many};
use owned_list::OwnedList;
use schema_spec::{SqlFault, Token};
use std::alloc::Global;

// The names of columns.
struct Names;

impl Item for Names {
    type Output = Token;

    ghost front = { λ text tokens. name text tokens };

    fn read<'a>(
        _alloc: Global,
        text: &[u8],
        tokens: &'a [Token],
    ) -> Result<(Token, &'a [Token]), SqlFault> {
        name(text, tokens)
    }
}

// Names in brackets, or nothing.
pub(crate) fn optional_names<'a>(
    alloc: Global,
    text: &[u8],
    tokens: &'a [Token],
) -> Result<(OwnedList<Token>, &'a [Token]), SqlFault>
    ensures parses { Parses text.now (either (at_sign text.now 40) (list_in_brackets text.now (name text.now)) (nothing []) tokens.now) result }
    ensures shorter { IfOk result (λ read. length read.1.now ≤ length tokens.now) }
{
    if !at_sign(b'(', text, tokens) {
        return Ok((OwnedList::from_vec(Vec::new(alloc)), tokens));
    }
    let (names, rest) = list_in_brackets::<Names>(alloc, text, tokens)?;
    Ok((names, rest))
}

// What is done where a row is missing or changes.
struct ForeignClauses;

impl Item for ForeignClauses {
    type Output = Token;

    ghost front = { λ text tokens. foreign_clause text tokens };

    fn read<'a>(
        _alloc: Global,
        text: &[u8],
        tokens: &'a [Token],
    ) -> Result<(Token, &'a [Token]), SqlFault> {
        foreign_clause(text, tokens)
    }
}

impl Repeated for ForeignClauses {
    ghost use Rattle.std.specs.Prelude.{refl};

    ghost begins = { λ text tokens. at_word text (codes "ON") tokens || at_word text (codes "MATCH") tokens };

    fn begins(text: &[u8], tokens: &[Token]) -> bool {
        at_word(b"ON", text, tokens) || at_word(b"MATCH", text, tokens)
    }

    ghost ends = { λ text. refl };
}

// REFERENCES and its clauses, in a column or in a constraint of the table: the first token.
pub(crate) fn references<'a>(
    in_column: bool,
    alloc: Global,
    text: &[u8],
    tokens: &'a [Token],
) -> Result<(Token, &'a [Token]), SqlFault>
    ensures parses { Parses text.now (references text.now in_column tokens.now) result }
    ensures shorter { IfOk result (λ read. length read.1.now < length tokens.now) }
{
    let (first, rest) = word(b"REFERENCES", text, tokens)?;
    let (_table, rest) = name(text, rest)?;
    let (_columns, rest) = optional_names(alloc, text, rest)?;
    let (_clauses, rest) = many::<ForeignClauses>(alloc, text, rest)?;
    let (_deferral, rest) = deferral(in_column, text, rest)?;
    Ok((first, rest))
}
