// The fields of a line.
ghost use Rattle.std.specs.Prelude.{◌≡◌, ◌≤◌, ◌++◌, ◌||◌, [], codes, false, length};
ghost use Rattle.std.specs.List.{AllByRecursion, flat_map, list_any};
ghost use Rattle.refusal.specs.Refusal.{refusal_text};
ghost use Rattle.answer_lines.specs.Fields.{IsShort, field_text, has_name, is_name};

use refusal::Refusal;

/// A field of a line, which is printed behind a space.
#[derive(Clone, Copy)]
pub enum Field<'a> {
    /// No field, which prints nothing.
    Nothing,
    /// A word of at most 24 bytes.
    Word(&'static str),
    /// A number, in decimal digits.
    Number(u64),
    /// A rowid, in decimal digits behind a minus sign where it is negative.
    Rowid(i64),
    /// A name, printed as its bytes.
    Name(&'a [u8]),
}

// The fields of a refusal: its number and name, and no other.
fn none<'a>(title: &'static str) -> [Field<'a>; 5]
    requires { length title.now ≤ 24 }
    ensures text { flat_map field_text result ≡ codes " " ++ (title.now ++ []) }
    ensures short { AllByRecursion IsShort result }
    ensures names { list_any is_name result ≡ false }
{
    [
        Field::Word(title),
        Field::Nothing,
        Field::Nothing,
        Field::Nothing,
        Field::Nothing,
    ]
}

fn one<'a>(title: &'static str, first: Field<'a>) -> [Field<'a>; 5]
    requires title { length title.now ≤ 24 }
    requires first { IsShort first }
    ensures text { flat_map field_text result ≡ codes " " ++ (title.now ++ (field_text first.entry ++ [])) }
    ensures short { AllByRecursion IsShort result }
    ensures names { list_any is_name result ≡ (is_name first.entry || false) }
{
    [
        Field::Word(title),
        first,
        Field::Nothing,
        Field::Nothing,
        Field::Nothing,
    ]
}

fn two<'a>(title: &'static str, first: Field<'a>, second: Field<'a>) -> [Field<'a>; 5]
    requires title { length title.now ≤ 24 }
    requires first { IsShort first }
    requires second { IsShort second }
    ensures text { flat_map field_text result ≡ codes " " ++ (title.now ++ (field_text first.entry ++ (field_text second.entry ++ []))) }
    ensures short { AllByRecursion IsShort result }
    ensures names { list_any is_name result ≡ (is_name first.entry || (is_name second.entry || false)) }
{
    [
        Field::Word(title),
        first,
        second,
        Field::Nothing,
        Field::Nothing,
    ]
}

fn three<'a>(
    title: &'static str,
    first: Field<'a>,
    second: Field<'a>,
    third: Field<'a>,
) -> [Field<'a>; 5]
    requires title { length title.now ≤ 24 }
    requires first { IsShort first }
    requires second { IsShort second }
    requires third { IsShort third }
    ensures text { flat_map field_text result ≡ codes " " ++ (title.now ++ (field_text first.entry ++ (field_text second.entry ++ (field_text third.entry ++ [])))) }
    ensures short { AllByRecursion IsShort result }
    ensures names { list_any is_name result ≡ (is_name first.entry || (is_name second.entry || (is_name third.entry || false))) }
{
    [Field::Word(title), first, second, third, Field::Nothing]
}

fn four<'a>(
    title: &'static str,
    first: Field<'a>,
    second: Field<'a>,
    third: Field<'a>,
    fourth: Field<'a>,
) -> [Field<'a>; 5]
    requires title { length title.now ≤ 24 }
    requires first { IsShort first }
    requires second { IsShort second }
    requires third { IsShort third }
    requires fourth { IsShort fourth }
    ensures text { flat_map field_text result ≡ codes " " ++ (title.now ++ (field_text first.entry ++ (field_text second.entry ++ (field_text third.entry ++ (field_text fourth.entry ++ []))))) }
    ensures short { AllByRecursion IsShort result }
    ensures names { list_any is_name result ≡ (is_name first.entry || (is_name second.entry || (is_name third.entry || (is_name fourth.entry || false)))) }
{
    [Field::Word(title), first, second, third, fourth]
}

/// The fields of a refusal: its number and name, and the fields that it has.
pub fn fields_of(refusal: &Refusal) -> [Field<'_>; 5]
    ensures text { flat_map field_text result ≡ codes " " ++ refusal_text refusal.now }
    ensures short { AllByRecursion IsShort result }
    ensures names { list_any is_name result ≡ has_name refusal.now }
{
    match refusal {
        Refusal::NotYet { part } => one("1 NotYet", Field::Word(part.word())),
        Refusal::NotADatabase => none("30 NotADatabase"),
        Refusal::PageSize { value } => one("31 PageSize", Field::Number(*value)),
        Refusal::WalMode => none("32 WalMode"),
        Refusal::Encoding { value } => one("33 Encoding", Field::Number(*value)),
        Refusal::AutoVacuum { value } => one("34 AutoVacuum", Field::Number(*value)),
        Refusal::SizeMismatch { pages, length } => two(
            "35 SizeMismatch",
            Field::Number(*pages),
            Field::Number(*length),
        ),
        Refusal::ReservedSpace { value } => one("36 ReservedSpace", Field::Number(*value)),
        Refusal::SchemaFormat { value } => one("39 SchemaFormat", Field::Number(*value)),
        Refusal::BadPage { rule } => one("40 BadPage", Field::Word(rule.word())),
        Refusal::ChainBroken { page } => one("45 ChainBroken", Field::Number(*page)),
        Refusal::TrunkDamaged { page } => one("50 TrunkDamaged", Field::Number(*page)),
        Refusal::TargetFull { pages, limit } => two(
            "51 TargetFull",
            Field::Number(*pages),
            Field::Number(*limit),
        ),
        Refusal::TreeDamaged { page, rule } => two(
            "55 TreeDamaged",
            Field::Number(*page),
            Field::Word(rule.word()),
        ),
        Refusal::SqlSyntax { table, offset } => two(
            "60 SqlSyntax",
            Field::Name(table.as_slice()),
            Field::Number(*offset),
        ),
        Refusal::OutsideProfile { table, clause } => two(
            "61 OutsideProfile",
            Field::Name(table.as_slice()),
            Field::Name(clause.as_slice()),
        ),
        Refusal::SchemaRow { rowid } => one("62 SchemaRow", Field::Rowid(*rowid)),
        Refusal::DuplicateName { name } => one("63 DuplicateName", Field::Name(name.as_slice())),
        Refusal::PageTwice { page } => one("70 PageTwice", Field::Number(*page)),
        Refusal::PageLost { page } => one("71 PageLost", Field::Number(*page)),
        Refusal::KeyOrder { page } => one("72 KeyOrder", Field::Number(*page)),
        Refusal::IndexDisagrees { index, rowid } => two(
            "73 IndexDisagrees",
            Field::Name(index.as_slice()),
            Field::Rowid(*rowid),
        ),
        Refusal::Damaged { page, rule } => two(
            "74 Damaged",
            Field::Number(*page),
            Field::Word(rule.word()),
        ),
        Refusal::ControlValue { table, rowid } => two(
            "80 ControlValue",
            Field::Name(table.as_slice()),
            Field::Rowid(*rowid),
        ),
        Refusal::ControlLength {
            table,
            rowid,
            has,
            needs,
        } => four(
            "81 ControlLength",
            Field::Name(table.as_slice()),
            Field::Rowid(*rowid),
            Field::Number(*has),
            Field::Number(*needs),
        ),
        Refusal::ControlLetter {
            table,
            rowid,
            place,
        } => three(
            "82 ControlLetter",
            Field::Name(table.as_slice()),
            Field::Rowid(*rowid),
            Field::Number(*place),
        ),
        Refusal::DeltaColumn {
            table,
            rowid,
            place,
        } => three(
            "83 DeltaColumn",
            Field::Name(table.as_slice()),
            Field::Rowid(*rowid),
            Field::Number(*place),
        ),
        Refusal::NoTarget { name } => one("84 NoTarget", Field::Name(name.as_slice())),
        Refusal::ColumnMissing { table, column } => two(
            "85 ColumnMissing",
            Field::Name(table.as_slice()),
            Field::Name(column.as_slice()),
        ),
        Refusal::ColumnUnknown { table, column } => two(
            "86 ColumnUnknown",
            Field::Name(table.as_slice()),
            Field::Name(column.as_slice()),
        ),
        Refusal::RowidMissing { table } => one("87 RowidMissing", Field::Name(table.as_slice())),
        Refusal::KeyNull { table, rowid } => two(
            "88 KeyNull",
            Field::Name(table.as_slice()),
            Field::Rowid(*rowid),
        ),
        Refusal::KeyMismatch { table, rowid } => two(
            "89 KeyMismatch",
            Field::Name(table.as_slice()),
            Field::Rowid(*rowid),
        ),
        Refusal::KeyChanged {
            table,
            rowid,
            column,
        } => three(
            "90 KeyChanged",
            Field::Name(table.as_slice()),
            Field::Rowid(*rowid),
            Field::Name(column.as_slice()),
        ),
        Refusal::DuplicateKey {
            table,
            first,
            second,
        } => three(
            "91 DuplicateKey",
            Field::Name(table.as_slice()),
            Field::Rowid(*first),
            Field::Rowid(*second),
        ),
        Refusal::ClassChange {
            table,
            rowid,
            column,
        } => three(
            "92 ClassChange",
            Field::Name(table.as_slice()),
            Field::Rowid(*rowid),
            Field::Name(column.as_slice()),
        ),
        Refusal::TooMuch { what, has, limit } => three(
            "93 TooMuch",
            Field::Word(what.word()),
            Field::Number(*has),
            Field::Number(*limit),
        ),
        Refusal::DataRecord {
            table,
            rowid,
            cause,
        } => three(
            "95 DataRecord",
            Field::Name(table.as_slice()),
            Field::Rowid(*rowid),
            Field::Number(*cause),
        ),
        Refusal::TargetRecord {
            table,
            rowid,
            cause,
        } => three(
            "96 TargetRecord",
            Field::Name(table.as_slice()),
            Field::Rowid(*rowid),
            Field::Number(*cause),
        ),
        Refusal::LogHeader => none("100 LogHeader"),
        Refusal::LogFrame { number } => one("101 LogFrame", Field::Number(*number)),
        Refusal::OalShort { has, needs } => two(
            "102 OalShort",
            Field::Number(*has),
            Field::Number(*needs),
        ),
        Refusal::OalFrame { number } => one("103 OalFrame", Field::Number(*number)),
        Refusal::NotState => none("110 NotState"),
        Refusal::StateKey { key } => one("111 StateKey", Field::Number(*key)),
        Refusal::WalPresent => none("120 WalPresent"),
        Refusal::JournalPresent => none("121 JournalPresent"),
        Refusal::WalMissing => none("122 WalMissing"),
    }
}
