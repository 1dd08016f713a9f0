// What is to be done with a prepared row.
ghost use Rattle.std.specs.Prelude.{◌≡◌, ◌⊎◌, IfOk, IfErr, length, map};
ghost use Rattle.rbu_rows.specs.declared.control.ControlFault.{ControlFault};
ghost use Rattle.common_spec.specs.Reading.{OrFault, ReadsOrWants};
ghost use Rattle.rbu_rows.specs.Controls.{IsMemory, IsControl, HasFault, TextHasFault, LetterHasFault, letter_of};

use owned_list::OwnedList;
use rbu_value::Value;
use std::alloc::{AllocError, AllocFailed, Global};

/// What is to be done with a prepared row (The RBU Extension, section 2.1).
#[derive(Drop)]
pub enum Control {
    /// The row is inserted.
    Insert,
    /// The row is inserted, and replaces a row of the same key.
    Replace,
    /// The row of the key is deleted.
    Delete,
    /// Of the row of the key the marked columns are changed. A mark for each column.
    Update(OwnedList<bool>),
}

/// Why a value says nothing of what is to be done with its row.
#[derive(Debug, Clone, Copy, PartialEq, Eq)]
pub enum ControlFault {
    /// The value is neither 0, 1 or 2 nor a text: refusal 80.
    ControlValue,
    /// The text has not a letter for each column: refusal 81. How many it has, and how many columns there are.
    ControlLength { has: u64, needs: u64 },
    /// A letter is none of `x`, `.`, `d` and `f`: refusal 82. The place counts from 0.
    ControlLetter { place: u64 },
    /// A letter is `d` or `f`, which ask for a delta: refusal 83. The place counts from 0.
    DeltaColumn { place: u64 },
    /// There is no memory for the marks.
    Memory(AllocError),
}

impl From<AllocError> for ControlFault {
    ghost from_gives = { λ error fault. fault ≡ ControlFault.Memory error };

    fn from(error: AllocError) -> ControlFault {
        ControlFault::Memory(error)
    }
}

impl<T: Drop> From<AllocFailed<T>> for ControlFault {
    ghost from_gives = { λ _ fault. IsMemory fault };

    fn from(_: AllocFailed<T>) -> ControlFault {
        ControlFault::Memory(AllocError)
    }
}

// Whether the column of the letter at this place is marked.
fn read_letter(letter: u8, place: u64) -> Result<bool, ControlFault>
    ensures found { IfOk result (λ mark. letter ≡ letter_of mark) }
    ensures fault { IfErr result (LetterHasFault letter place) }
{
    match letter {
        b'x' => Ok(true),
        b'.' => Ok(false),
        b'd' | b'f' => Err(ControlFault::DeltaColumn { place }),
        _ => Err(ControlFault::ControlLetter { place }),
    }
}

// The marks of a text.
fn read_marks(alloc: Global, text: &[u8], columns: u32) -> Result<OwnedList<bool>, ControlFault>
    ensures found { IfOk result (λ marks. (text.now ≡ map letter_of marks) × (length marks ≡ columns)) }
    ensures fault { IfErr result (λ fault. IsMemory fault ⊎ TextHasFault text.now columns fault) }
{
    let has = text.len() as u64;
    let needs = u64::from(columns);
    if has != needs {
        return Err(ControlFault::ControlLength { has, needs });
    }
    let mut marks = Vec::with_capacity(alloc, text.len())?;
    let mut left = text;
    while let [letter, rest @ ..] = left {
        let mark = read_letter(*letter, marks.len() as u64)?;
        marks.push(mark)?;
        left = rest;
    }
    Ok(OwnedList::from_vec(marks))
}

/// What the value of `rbu_control` says of its row, where the table has this many columns that letters go with. The length of a text is tested before its letters, and these from the left.
pub fn read_control(alloc: Global, value: &Value, columns: u32) -> Result<Control, ControlFault>
    ensures { ReadsOrWants (λ control. control) IsMemory (OrFault (IsControl value.now columns) (HasFault value.now columns)) result }
{
    match value {
        Value::Int(0) => Ok(Control::Insert),
        Value::Int(1) => Ok(Control::Delete),
        Value::Int(2) => Ok(Control::Replace),
        Value::Text(text) => Ok(Control::Update(read_marks(alloc, text.as_slice(), columns)?)),
        _ => Err(ControlFault::ControlValue),
    }
}
