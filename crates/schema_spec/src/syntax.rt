// The parts of a schema's text, by their tokens: what the grammar finds, before names are looked up.
use crate::Token;
use owned_list::OwnedList;

/// A column in a list of columns.
#[derive(Clone, Copy, Debug)]
pub struct ListedColumn {
    pub name: Token,
    /// The name behind `COLLATE`.
    pub collation: Option<Token>,
    /// Whether `DESC` stands behind it.
    pub descends: bool,
}

/// What a constraint of a column says.
#[derive(Clone, Copy, Debug)]
pub enum ColumnRule {
    PrimaryKey { descends: bool },
    Unique,
    NotNull,
    /// The name of the collation.
    Collate(Token),
    Generated,
    /// `NULL`, `DEFAULT`, `CHECK` and `REFERENCES`, which say nothing of rows and indexes.
    Skipped,
}

/// A constraint of a column.
#[derive(Clone, Copy, Debug)]
pub struct ColumnConstraint {
    /// Its first token, behind its name.
    pub word: Token,
    pub rule: ColumnRule,
    /// Whether it has an `ON CONFLICT` clause.
    pub on_conflict: bool,
}

/// The definition of a column.
#[derive(Drop)]
pub struct ColumnText {
    pub name: Token,
    /// Where the type begins and ends in the text, in bytes. Both are 0 where there is none.
    pub type_start: usize,
    pub type_end: usize,
    pub constraints: OwnedList<ColumnConstraint>,
}

/// What a constraint of a table says.
#[derive(Clone, Copy, Debug, PartialEq, Eq)]
pub enum TableRule {
    PrimaryKey,
    Unique,
    Check,
    ForeignKey,
}

/// A constraint of a table.
#[derive(Drop)]
pub struct TableConstraint {
    /// Its first token, behind its name.
    pub word: Token,
    pub rule: TableRule,
    /// None for `CHECK`.
    pub columns: OwnedList<ListedColumn>,
    /// Whether it has an `ON CONFLICT` clause.
    pub on_conflict: bool,
}

/// A PRIMARY KEY or UNIQUE constraint, of a column or of the table (CREATE TABLE, sections 3.5 and 3.6).
#[derive(Drop)]
pub struct Key {
    /// Its first word.
    pub word: Token,
    /// Whether it is a PRIMARY KEY.
    pub primary: bool,
    /// Whether it stands at a column.
    pub at_column: bool,
    pub columns: OwnedList<ListedColumn>,
}

/// What may stand behind a table's closing bracket.
#[derive(Clone, Copy, Debug, PartialEq, Eq)]
pub enum TableOption {
    WithoutRowid,
    Strict,
}

/// The text of a table.
#[derive(Drop)]
pub struct TableText {
    pub name: Token,
    pub columns: OwnedList<ColumnText>,
    pub constraints: OwnedList<TableConstraint>,
    pub options: OwnedList<TableOption>,
}

/// A text that a table's row of the schema may have.
#[derive(Drop)]
pub enum TableStatement {
    Table(TableText),
    Virtual,
    View,
}

/// A part of an index's list.
#[derive(Clone, Copy, Debug)]
pub enum IndexedPart {
    Column(ListedColumn),
    Expression,
}

/// The text of an index.
#[derive(Drop)]
pub struct IndexText {
    pub unique: bool,
    pub name: Token,
    pub table: Token,
    pub parts: OwnedList<IndexedPart>,
    /// Whether it has a `WHERE` clause.
    pub partial: bool,
}
