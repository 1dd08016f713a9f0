// The texts of tables, views and virtual tables.
ghost use Rattle.std.specs.Prelude.{◌≡◌, ◌<◌, ◌∷◌, [], IfOk, length, codes};
ghost use Rattle.schema_spec.specs.Fronts.{begins, either};
ghost use Rattle.schema_spec.specs.Words.{table_constraint_words, is_word_of};
ghost use Rattle.schema_spec.specs.ColumnGrammar.{at_word, column, listed_column};
ghost use Rattle.schema_spec.specs.TableGrammar.{at_column, at_table_constraint, foreign_key, table, table_check, table_constraint, table_option, table_options, table_primary_key, table_rule, table_statement, table_unique, view, virtual_table};
ghost use Rattle.schema_grammar.specs.Parses.{Parses, ParsesWhole, behind_comma};

use crate::brackets::{bracketed, some_to_end};
use crate::columns::{ASC_OR_DESC, constraint_name, listed_column, on_conflict};
use crate::definitions::column;
use crate::fronts::{at_sign, at_word, ended, name, sign, word};
use crate::items::{
    BehindComma, Item, Repeated, alone, list_in_brackets, listed, many, many_behind,
};
use crate::references::{optional_names, references};
use owned_list::OwnedList;
use schema_spec::{
    ColumnText, ListedColumn, SqlFault, TableConstraint, TableOption, TableRule, TableStatement,
    TableText, Token,
};
use schema_tokens::{is_sign, is_word_of};
use std::alloc::Global;

const ASC: [&[u8]; 1] = [b"ASC"];

const WITHOUT_OR_STRICT: [&[u8]; 2] = [b"WITHOUT", b"STRICT"];

// Words with which a constraint of a table begins.
const TABLE_CONSTRAINT_WORDS: [&[u8]; 5] = [
    b"CONSTRAINT",
    b"PRIMARY",
    b"UNIQUE",
    b"CHECK",
    b"FOREIGN",
];

// The columns of a key, in ascending or descending order.
struct KeyColumns;

impl Item for KeyColumns {
    type Output = ListedColumn;

    ghost front = { λ text tokens. listed_column text (codes "ASC" ∷ codes "DESC" ∷ []) tokens };

    fn read<'a>(
        _alloc: Global,
        text: &[u8],
        tokens: &'a [Token],
    ) -> Result<(ListedColumn, &'a [Token]), SqlFault> {
        listed_column(&ASC_OR_DESC, text, tokens)
    }
}

// The columns of a foreign key, which descend nowhere.
struct ForeignKeyColumns;

impl Item for ForeignKeyColumns {
    type Output = ListedColumn;

    ghost front = { λ text tokens. listed_column text (codes "ASC" ∷ []) tokens };

    fn read<'a>(
        _alloc: Global,
        text: &[u8],
        tokens: &'a [Token],
    ) -> Result<(ListedColumn, &'a [Token]), SqlFault> {
        listed_column(&ASC, text, tokens)
    }
}

fn table_primary_key<'a>(
    alloc: Global,
    text: &[u8],
    tokens: &'a [Token],
) -> Result<(TableConstraint, &'a [Token]), SqlFault>
    ensures parses { Parses text.now (table_primary_key text.now tokens.now) result }
    ensures shorter { IfOk result (λ read. length read.1.now < length tokens.now) }
{
    let (first, rest) = word(b"PRIMARY", text, tokens)?;
    let (_key, rest) = word(b"KEY", text, rest)?;
    let (columns, rest) = list_in_brackets::<KeyColumns>(alloc, text, rest)?;
    let (on_conflict, rest) = on_conflict(text, rest)?;
    let constraint = TableConstraint {
        word: first,
        rule: TableRule::PrimaryKey,
        columns,
        on_conflict,
    };
    Ok((constraint, rest))
}

fn table_unique<'a>(
    alloc: Global,
    text: &[u8],
    tokens: &'a [Token],
) -> Result<(TableConstraint, &'a [Token]), SqlFault>
    ensures parses { Parses text.now (table_unique text.now tokens.now) result }
    ensures shorter { IfOk result (λ read. length read.1.now < length tokens.now) }
{
    let (first, rest) = word(b"UNIQUE", text, tokens)?;
    let (columns, rest) = list_in_brackets::<KeyColumns>(alloc, text, rest)?;
    let (on_conflict, rest) = on_conflict(text, rest)?;
    let constraint = TableConstraint {
        word: first,
        rule: TableRule::Unique,
        columns,
        on_conflict,
    };
    Ok((constraint, rest))
}

fn table_check<'a>(
    alloc: Global,
    text: &[u8],
    tokens: &'a [Token],
) -> Result<(TableConstraint, &'a [Token]), SqlFault>
    ensures parses { Parses text.now (table_check text.now tokens.now) result }
    ensures shorter { IfOk result (λ read. length read.1.now < length tokens.now) }
{
    let (first, rest) = word(b"CHECK", text, tokens)?;
    let (_closing, rest) = bracketed(text, rest)?;
    let (on_conflict, rest) = on_conflict(text, rest)?;
    let constraint = TableConstraint {
        word: first,
        rule: TableRule::Check,
        columns: OwnedList::from_vec(Vec::new(alloc)),
        on_conflict,
    };
    Ok((constraint, rest))
}

fn foreign_key<'a>(
    alloc: Global,
    text: &[u8],
    tokens: &'a [Token],
) -> Result<(TableConstraint, &'a [Token]), SqlFault>
    ensures parses { Parses text.now (foreign_key text.now tokens.now) result }
    ensures shorter { IfOk result (λ read. length read.1.now < length tokens.now) }
{
    let (first, rest) = word(b"FOREIGN", text, tokens)?;
    let (_key, rest) = word(b"KEY", text, rest)?;
    let (columns, rest) = list_in_brackets::<ForeignKeyColumns>(alloc, text, rest)?;
    let (_references, rest) = references(false, alloc, text, rest)?;
    let constraint = TableConstraint {
        word: first,
        rule: TableRule::ForeignKey,
        columns,
        on_conflict: false,
    };
    Ok((constraint, rest))
}

// A constraint of a table, behind its name.
fn table_rule<'a>(
    alloc: Global,
    text: &[u8],
    tokens: &'a [Token],
) -> Result<(TableConstraint, &'a [Token]), SqlFault>
    ensures parses { Parses text.now (table_rule text.now tokens.now) result }
    ensures shorter { IfOk result (λ read. length read.1.now < length tokens.now) }
{
    if at_word(b"PRIMARY", text, tokens) {
        return table_primary_key(alloc, text, tokens);
    }
    if at_word(b"UNIQUE", text, tokens) {
        return table_unique(alloc, text, tokens);
    }
    if at_word(b"CHECK", text, tokens) {
        return table_check(alloc, text, tokens);
    }
    foreign_key(alloc, text, tokens)
}

// The constraints of a table.
struct TableConstraints;

impl Item for TableConstraints {
    type Output = TableConstraint;

    ghost front = { λ text tokens. table_constraint text tokens };

    fn read<'a>(
        alloc: Global,
        text: &[u8],
        tokens: &'a [Token],
    ) -> Result<(TableConstraint, &'a [Token]), SqlFault> {
        let (_name, rest) = constraint_name(text, tokens)?;
        table_rule(alloc, text, rest)
    }
}

// A word with which a constraint of a table begins stands first.
fn begins_constraint(text: &[u8], tokens: &[Token]) -> bool
    ensures { result ≡ begins (is_word_of table_constraint_words text.now) tokens.now }
{
    match tokens {
        [token, ..] => is_word_of(&TABLE_CONSTRAINT_WORDS, text, *token),
        [] => false,
    }
}

// A comma with a constraint of the table behind it.
fn at_table_constraint(text: &[u8], tokens: &[Token]) -> bool
    ensures { result ≡ at_table_constraint text.now tokens.now }
{
    match tokens {
        [token, rest @ ..] => is_sign(b',', text, *token) && begins_constraint(text, rest),
        [] => false,
    }
}

// The columns of a table behind the first, up to its constraints.
struct FurtherColumns;

impl Item for FurtherColumns {
    type Output = ColumnText;

    ghost front = { λ text tokens. behind_comma text (column text) tokens };

    fn read<'a>(
        alloc: Global,
        text: &[u8],
        tokens: &'a [Token],
    ) -> Result<(ColumnText, &'a [Token]), SqlFault> {
        let (_comma, rest) = sign(b',', text, tokens)?;
        column(alloc, text, rest)
    }
}

impl Repeated for FurtherColumns {
    ghost use Rattle.std.specs.Prelude.{refl};

    ghost begins = { λ text tokens. at_column text tokens };

    fn begins(text: &[u8], tokens: &[Token]) -> bool {
        at_sign(b',', text, tokens) && !at_table_constraint(text, tokens)
    }

    ghost ends = { λ text. refl };
}

// What may stand behind a table's closing bracket.
struct TableOptions;

impl Item for TableOptions {
    type Output = TableOption;

    ghost front = { λ text tokens. table_option text tokens };

    fn read<'a>(
        _alloc: Global,
        text: &[u8],
        tokens: &'a [Token],
    ) -> Result<(TableOption, &'a [Token]), SqlFault> {
        if !at_word(b"WITHOUT", text, tokens) {
            let (_strict, rest) = word(b"STRICT", text, tokens)?;
            return Ok((TableOption::Strict, rest));
        }
        let (_without, rest) = word(b"WITHOUT", text, tokens)?;
        let (_rowid, rest) = word(b"ROWID", text, rest)?;
        Ok((TableOption::WithoutRowid, rest))
    }
}

// A word with which an option of a table begins stands first.
fn begins_option(text: &[u8], tokens: &[Token]) -> bool
    ensures { result ≡ begins (is_word_of (codes "WITHOUT" ∷ codes "STRICT" ∷ []) text.now) tokens.now }
{
    match tokens {
        [token, ..] => is_word_of(&WITHOUT_OR_STRICT, text, *token),
        [] => false,
    }
}

fn table_options<'a>(
    alloc: Global,
    text: &[u8],
    tokens: &'a [Token],
) -> Result<(OwnedList<TableOption>, &'a [Token]), SqlFault>
    ensures parses { Parses text.now (table_options text.now tokens.now) result }
{
    if !begins_option(text, tokens) {
        return Ok((OwnedList::from_vec(Vec::new(alloc)), tokens));
    }
    let (options, rest) = listed::<TableOptions>(alloc, text, tokens)?;
    Ok((options, rest))
}

// A table, behind CREATE.
fn table<'a>(
    alloc: Global,
    text: &[u8],
    tokens: &'a [Token],
) -> Result<(TableStatement, &'a [Token]), SqlFault>
    ensures parses { Parses text.now (table text.now tokens.now) result }
{
    let (_kind, rest) = word(b"TABLE", text, tokens)?;
    let (name, rest) = name(text, rest)?;
    let (_opening, rest) = sign(b'(', text, rest)?;
    let (first, rest) = column(alloc, text, rest)?;
    let first = alone(alloc, first)?;
    let (columns, rest) = many_behind::<FurtherColumns>(first, alloc, text, rest)?;
    let (constraints, rest) = many::<BehindComma<TableConstraints>>(alloc, text, rest)?;
    let (_closing, rest) = sign(b')', text, rest)?;
    let (options, rest) = table_options(alloc, text, rest)?;
    let table = TableText {
        name,
        columns,
        constraints,
        options,
    };
    Ok((TableStatement::Table(table), rest))
}

// A virtual table, behind CREATE; what stands in its brackets is its module's.
fn virtual_table<'a>(
    text: &[u8],
    tokens: &'a [Token],
) -> Result<(TableStatement, &'a [Token]), SqlFault>
    ensures parses { Parses text.now (virtual_table text.now tokens.now) result }
{
    let (_kind, rest) = word(b"VIRTUAL", text, tokens)?;
    let (_table, rest) = word(b"TABLE", text, rest)?;
    let (_name, rest) = name(text, rest)?;
    let (_using, rest) = word(b"USING", text, rest)?;
    let (_module, rest) = name(text, rest)?;
    if !at_sign(b'(', text, rest) {
        return Ok((TableStatement::Virtual, rest));
    }
    let (_closing, rest) = bracketed(text, rest)?;
    Ok((TableStatement::Virtual, rest))
}

// A view, behind CREATE; its query is not looked into.
fn view<'a>(
    alloc: Global,
    text: &[u8],
    tokens: &'a [Token],
) -> Result<(TableStatement, &'a [Token]), SqlFault>
    ensures parses { Parses text.now (view text.now tokens.now) result }
{
    let (_kind, rest) = word(b"VIEW", text, tokens)?;
    let (_name, rest) = name(text, rest)?;
    let (_columns, rest) = optional_names(alloc, text, rest)?;
    let (_as, rest) = word(b"AS", text, rest)?;
    let rest = some_to_end(text, rest)?;
    Ok((TableStatement::View, rest))
}

// A table, a virtual table or a view, behind CREATE.
fn created<'a>(
    alloc: Global,
    text: &[u8],
    tokens: &'a [Token],
) -> Result<(TableStatement, &'a [Token]), SqlFault>
    ensures parses { Parses text.now (either (at_word text.now (codes "VIRTUAL")) (virtual_table text.now) (either (at_word text.now (codes "VIEW")) (view text.now) (table text.now)) tokens.now) result }
{
    if at_word(b"VIRTUAL", text, tokens) {
        return virtual_table(text, tokens);
    }
    if at_word(b"VIEW", text, tokens) {
        return view(alloc, text, tokens);
    }
    table(alloc, text, tokens)
}

/// The parts of the whole text of a table, a virtual table or a view, by its tokens (CREATE TABLE; CREATE VIRTUAL TABLE; CREATE VIEW). Or `SqlSyntax` with the offset of the first token that does not fit, or want of memory.
pub fn table_statement(
    alloc: Global,
    text: &[u8],
    tokens: &[Token],
) -> Result<TableStatement, SqlFault>
    ensures parses { ParsesWhole text.now (table_statement text.now tokens.now) result }
{
    let (_create, rest) = word(b"CREATE", text, tokens)?;
    let (statement, rest) = created(alloc, text, rest)?;
    ended(statement, text, rest)
}
