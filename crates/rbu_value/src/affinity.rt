// The affinity of columns.
ghost use Rattle.std.specs.Prelude.{◌≡◌, ◌<◌, ◌↔◌, ◌++◌, map, length, List, ℕ, IsTrue, IsFalse};
ghost use Rattle.std.specs.Char.{to_ascii_lowercase};
ghost use Rattle.rbu_value.specs.Affinity.{Mentions, MeansInteger, MeansText, MeansBlob, MeansReal, HasAffinity, ChangesClass};

use crate::Value;
use crate::numeric::is_numeric;

/// What a column prefers to store (Datatypes In SQLite, section 3).
#[derive(Clone, Copy, Debug, PartialEq, Eq)]
pub enum Affinity {
    Integer,
    Text,
    Blob,
    Real,
    Numeric,
}

/// The affinity of a column by its declared type, which is empty where it has none (Datatypes In SQLite, section 3.1).
pub fn affinity_of(type_text: &[u8]) -> Affinity
    ensures { (affinity : Affinity) → (result ≡ affinity) ↔ HasAffinity type_text.now affinity }
{
    if means_integer(type_text) {
        Affinity::Integer
    } else if means_text(type_text) {
        Affinity::Text
    } else if means_blob(type_text) {
        Affinity::Blob
    } else if means_real(type_text) {
        Affinity::Real
    } else {
        Affinity::Numeric
    }
}

/// Whether a column of this affinity stores the value in the value's own class (Datatypes In SQLite, section 3). It does not where it would make a text of an integer, or a number of a text.
///
/// Under REAL an integer and a text count as kept, though SQLite would store a floating point value: tables with such columns are not updated.
pub fn keeps_class(value: &Value, affinity: Affinity) -> bool
    ensures { IsFalse result ↔ ChangesClass value.now affinity }
{
    match (value, affinity) {
        (Value::Int(_), Affinity::Text) => false,
        (Value::Text(text), Affinity::Integer | Affinity::Numeric) => !is_numeric(text.as_slice()),
        _ => true,
    }
}

fn means_integer(type_text: &[u8]) -> bool
    ensures { IsTrue result ↔ MeansInteger type_text.now }
{
    mentions(type_text, b"INT")
}

fn means_text(type_text: &[u8]) -> bool
    ensures { IsTrue result ↔ MeansText type_text.now }
{
    mentions(type_text, b"CHAR") || mentions(type_text, b"CLOB") || mentions(type_text, b"TEXT")
}

fn means_blob(type_text: &[u8]) -> bool
    ensures { IsTrue result ↔ MeansBlob type_text.now }
{
    mentions(type_text, b"BLOB") || type_text.is_empty()
}

fn means_real(type_text: &[u8]) -> bool
    ensures { IsTrue result ↔ MeansReal type_text.now }
{
    mentions(type_text, b"REAL") || mentions(type_text, b"FLOA") || mentions(type_text, b"DOUB")
}

// The text contains the word, where the case of ASCII letters does not count.
fn mentions(text: &[u8], word: &[u8]) -> bool
    requires { 0 < length word.now }
    ensures { IsTrue result ↔ Mentions text.now word.now }
{
    for at in 0..text.len() {
        if begins_with(&text[at..], word) {
            return true;
        }
    }
    false
}

// The text begins with the word, where the case of ASCII letters does not count.
fn begins_with(text: &[u8], word: &[u8]) -> bool
    ensures { IsTrue result ↔ ((rest : List ℕ)
        × (map to_ascii_lowercase text.now ≡ map to_ascii_lowercase word.now ++ rest)) }
{
    word.len() <= text.len() && text[..word.len()].eq_ignore_ascii_case(word)
}
