// The line and the status of an answer.
ghost use Rattle.std.specs.Prelude.{◌≡◌, ◌≤◌, ◌+◌, ◌++◌, ◌⊎◌, codes, length, false, IsTrue, IfOk, IfSome, IfNone, OnOk, OnErr};
ghost use Rattle.std.specs.Fmt.{decimal, signed_decimal};
ghost use Rattle.std.specs.List.{AllByRecursion, flat_map, list_any};
ghost use Rattle.arrayvec.specs.ArrayString.{array_string_len};
ghost use Rattle.update_spec.specs.Text.{answer_status, answer_text, line};
ghost use Rattle.update_spec.specs.declared.Answer.{Answer};
ghost use Rattle.update_spec.specs.declared.Answer.TheVariants.{Ended, NoMemory};
ghost use Rattle.answer_lines.specs.Fields.{IsShort, field_text, is_name, takes_memory};
ghost use Rattle.answer_lines.specs.Line.{line_bytes, own_lines as lines_of};

use crate::fields::{Field, fields_of};
use arrayvec::ArrayString;
use itoa::Buffer;
use std::alloc::{AllocError, Global};
use update_spec::{Answer, Outcome};

/// The text of an answer: a line with its line feed, or the lines that are printed.
#[derive(Drop)]
pub enum Line {
    /// A line without a name: a front and five fields of at most 25 bytes each.
    Short(ArrayString<160>),
    /// A line with a name.
    Long(Vec<u8>),
    /// The lines that the answer has by itself.
    Whole,
}

// The lines that an answer has by itself.
fn own_lines(answer: &Answer) -> &[u8]
    ensures { result.now ≡ lines_of answer.now }
{
    match answer {
        Answer::Printed { text } => text.as_slice(),
        Answer::Usage => b"",
        Answer::Ended { .. } => b"",
        Answer::Fault { .. } => b"",
        Answer::NoMemory => b"",
    }
}

/// The bytes of an answer's text.
pub fn text_of<'a>(answer: &'a Answer, line: &'a Line) -> &'a [u8]
    ensures { result.now ≡ line_bytes answer.now line.now }
{
    match line {
        Line::Short(text) => text.as_bytes(),
        Line::Long(bytes) => bytes.as_slice(),
        Line::Whole => own_lines(answer),
    }
}

/// The number with which the program ends.
pub fn status_of(answer: &Answer) -> u8
    ensures { result ≡ answer_status answer.now }
{
    match answer {
        Answer::Usage => 2,
        Answer::Ended { outcome } => match outcome {
            Outcome::Done => 0,
            Outcome::KeyPresent { .. } => 3,
            Outcome::Refused { .. } => 4,
        },
        Answer::Printed { .. } => 0,
        Answer::Fault { .. } => 6,
        Answer::NoMemory => 7,
    }
}

// The line that says that memory is wanting.
fn no_memory_line() -> Line
    ensures { line_bytes NoMemory result ≡ answer_text NoMemory }
{
    let mut text = ArrayString::new();
    text.push_str("no memory\n");
    Line::Short(text)
}

// Appends a number in decimal digits.
fn push_number(line: &mut ArrayString<160>, number: u64)
    requires { array_string_len line.old + 20 ≤ 160 }
    ensures bytes { line.new.bytes ≡ line.old.bytes ++ decimal number }
    ensures len { array_string_len line.new ≤ array_string_len line.old + 20 }
{
    let mut digits = Buffer::new();
    line.push_str(digits.format(number));
}

// Appends a rowid.
fn push_rowid(line: &mut ArrayString<160>, rowid: i64)
    requires { array_string_len line.old + 20 ≤ 160 }
    ensures bytes { line.new.bytes ≡ line.old.bytes ++ signed_decimal rowid }
    ensures len { array_string_len line.new ≤ array_string_len line.old + 20 }
{
    let mut digits = Buffer::new();
    line.push_str(digits.format(rowid));
}

// Appends a field that is no name, and tells whether it is one.
fn push_unless_name(line: &mut ArrayString<160>, field: &Field<'_>) -> bool
    requires room { array_string_len line.old + 25 ≤ 160 }
    requires short { IsShort field.now }
    ensures name { result ≡ is_name field.now }
    ensures bytes { result ≡ false → line.new.bytes ≡ line.old.bytes ++ field_text field.now }
    ensures len { array_string_len line.new ≤ array_string_len line.old + 25 }
{
    match field {
        Field::Nothing => false,
        Field::Word(word) => {
            line.push_str(" ");
            line.push_str(word);
            false
        }
        Field::Number(number) => {
            line.push_str(" ");
            push_number(line, *number);
            false
        }
        Field::Rowid(rowid) => {
            line.push_str(" ");
            push_rowid(line, *rowid);
            false
        }
        Field::Name(_) => true,
    }
}

// A line without names, which takes no memory.
fn short_line(front: &'static str, fields: &[Field<'_>]) -> Option<ArrayString<160>>
    requires front { length front.now ≤ 24 }
    requires few { length fields.now ≤ 5 }
    requires short { AllByRecursion IsShort fields.now }
    ensures line { IfSome result (λ text. text.bytes ≡ line (front.now ++ flat_map field_text fields.now)) }
    ensures names { IfNone result (IsTrue (list_any is_name fields.now)) }
{
    let mut text = ArrayString::new();
    text.push_str(front);
    let mut left = fields;
    while let [field, rest @ ..] = left {
        if push_unless_name(&mut text, field) {
            return None;
        }
        left = rest;
    }
    text.push_str("\n");
    Some(text)
}

// Appends bytes behind a space.
fn extend_behind_space(line: &mut Vec<u8>, bytes: &[u8]) -> Result<(), AllocError>
    ensures { OnOk result (line.new.items ≡ line.old.items ++ (codes " " ++ bytes.now)) }
{
    line.extend_from_slice(b" ")?;
    line.extend_from_slice(bytes)
}

// Appends a number behind a space.
fn extend_number(line: &mut Vec<u8>, number: u64) -> Result<(), AllocError>
    ensures { OnOk result (line.new.items ≡ line.old.items ++ (codes " " ++ decimal number)) }
{
    let mut digits = Buffer::new();
    extend_behind_space(line, digits.format(number).as_bytes())
}

// Appends a rowid behind a space.
fn extend_rowid(line: &mut Vec<u8>, rowid: i64) -> Result<(), AllocError>
    ensures { OnOk result (line.new.items ≡ line.old.items ++ (codes " " ++ signed_decimal rowid)) }
{
    let mut digits = Buffer::new();
    extend_behind_space(line, digits.format(rowid).as_bytes())
}

// Appends a field.
fn extend_field(line: &mut Vec<u8>, field: &Field<'_>) -> Result<(), AllocError>
    ensures { OnOk result (line.new.items ≡ line.old.items ++ field_text field.now) }
{
    match field {
        Field::Nothing => Ok(()),
        Field::Word(word) => extend_behind_space(line, word.as_bytes()),
        Field::Number(number) => extend_number(line, *number),
        Field::Rowid(rowid) => extend_rowid(line, *rowid),
        Field::Name(name) => extend_behind_space(line, name),
    }
}

// Any line.
fn long_line(
    alloc: Global,
    front: &'static str,
    fields: &[Field<'_>],
) -> Result<Vec<u8>, AllocError>
    ensures { IfOk result (λ text. text.items ≡ line (front.now ++ flat_map field_text fields.now)) }
{
    let mut text = Vec::new(alloc);
    text.extend_from_slice(front.as_bytes())?;
    let mut left = fields;
    while let [field, rest @ ..] = left {
        extend_field(&mut text, field)?;
        left = rest;
    }
    text.extend_from_slice(b"\n")?;
    Ok(text)
}

// A line, which takes memory only where it has a name.
fn line_with(alloc: Global, front: &'static str, fields: &[Field<'_>]) -> Result<Line, AllocError>
    requires front { length front.now ≤ 24 }
    requires few { length fields.now ≤ 5 }
    requires short { AllByRecursion IsShort fields.now }
    ensures line { IfOk result (λ text. (answer : Answer) → line_bytes answer text ≡ line (front.now ++ flat_map field_text fields.now)) }
    ensures memory { OnErr result (IsTrue (list_any is_name fields.now)) }
{
    match short_line(front, fields) {
        Some(text) => Ok(Line::Short(text)),
        None => match long_line(alloc, front, fields) {
            Ok(text) => Ok(Line::Long(text)),
            Err(error) => Err(error),
        },
    }
}

// The line of an outcome.
fn outcome_line(alloc: Global, outcome: &Outcome) -> Result<Line, AllocError>
    ensures line { IfOk result (λ text. (answer : Answer) → line_bytes answer text ≡ answer_text (Ended outcome.now)) }
    ensures memory { OnErr result (IsTrue (takes_memory (Ended outcome.now))) }
{
    match outcome {
        Outcome::Done => line_with(alloc, "done", &[]),
        Outcome::KeyPresent { table, data_rowid } => line_with(
            alloc,
            "constraint key-present",
            &[Field::Name(table.as_slice()), Field::Rowid(*data_rowid)],
        ),
        Outcome::Refused { refusal } => line_with(alloc, "refused", &fields_of(refusal)),
    }
}

// The line of an answer, which takes memory only where it has a name.
fn line_of(alloc: Global, answer: &Answer) -> Result<Line, AllocError>
    ensures line { IfOk result (λ text. line_bytes answer.now text ≡ answer_text answer.now) }
    ensures memory { OnErr result (IsTrue (takes_memory answer.now)) }
{
    match answer {
        Answer::Usage => line_with(alloc, "usage", &[]),
        Answer::Ended { outcome } => outcome_line(alloc, outcome),
        Answer::Printed { .. } => Ok(Line::Whole),
        Answer::Fault { file, call } => line_with(
            alloc,
            "fault",
            &[Field::Word(file.word()), Field::Word(call.word())],
        ),
        Answer::NoMemory => line_with(alloc, "no memory", &[]),
    }
}

/// The answer with its text; want of memory where the text takes memory and there is none.
pub fn tellable(alloc: Global, answer: Answer) -> (Answer, Line)
    ensures line { line_bytes result.0 result.1 ≡ answer_text result.0 }
    ensures answer { (result.0 ≡ answer) ⊎ ((result.0 ≡ NoMemory) × IsTrue (takes_memory answer)) }
{
    match line_of(alloc, &answer) {
        Ok(line) => (answer, line),
        Err(_) => (Answer::NoMemory, no_memory_line()),
    }
}
