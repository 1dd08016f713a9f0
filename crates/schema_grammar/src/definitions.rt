// The definitions of columns.
ghost use Rattle.std.specs.Prelude.{◌≡◌, ◌<◌, IfOk, length};
ghost use Rattle.schema_spec.specs.Fronts.{begins};
ghost use Rattle.schema_spec.specs.Words.{constraint_words, is_word_of};
ghost use Rattle.schema_spec.specs.ColumnGrammar.{column, column_constraint};
ghost use Rattle.schema_grammar.specs.Parses.{Parses};

use crate::constraints::column_constraint;
use crate::fronts::name;
use crate::items::{Item, Repeated, many};
use crate::types::column_type;
use schema_spec::{ColumnConstraint, ColumnText, SqlFault, Token};
use schema_tokens::begins_constraint;
use std::alloc::Global;

// The constraints of a column.
struct ColumnConstraints;

impl Item for ColumnConstraints {
    type Output = ColumnConstraint;

    ghost front = { λ text tokens. column_constraint text tokens };

    fn read<'a>(
        alloc: Global,
        text: &[u8],
        tokens: &'a [Token],
    ) -> Result<(ColumnConstraint, &'a [Token]), SqlFault> {
        column_constraint(alloc, text, tokens)
    }
}

impl Repeated for ColumnConstraints {
    ghost use Rattle.std.specs.Prelude.{refl};

    ghost begins = { λ text. begins (is_word_of constraint_words text) };

    fn begins(text: &[u8], tokens: &[Token]) -> bool {
        match tokens {
            [token, ..] => begins_constraint(text, *token),
            [] => false,
        }
    }

    ghost ends = { λ text. refl };
}

// A column: a name, a type or none, and constraints.
pub(crate) fn column<'a>(
    alloc: Global,
    text: &[u8],
    tokens: &'a [Token],
) -> Result<(ColumnText, &'a [Token]), SqlFault>
    ensures parses { Parses text.now (column text.now tokens.now) result }
    ensures shorter { IfOk result (λ read. length read.1.now < length tokens.now) }
{
    let (name, rest) = name(text, tokens)?;
    let ((type_start, type_end), rest) = column_type(text, rest)?;
    let (constraints, rest) = many::<ColumnConstraints>(alloc, text, rest)?;
    let column = ColumnText {
        name,
        type_start,
        type_end,
        constraints,
    };
    Ok((column, rest))
}
