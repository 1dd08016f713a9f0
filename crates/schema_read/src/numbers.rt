// The numbers of automatic indexes, by their names (The Schema Table, section 2).
ghost use Rattle.std.specs.Prelude.{◌≡◌, ◌^◌, ◌<◌, ◌≤◌, ℕ, decimal, drop, IfSome, IsTrue, Some};
ghost use Rattle.database_spec.specs.Catalogs.{automatic_name as automatic_name_of};
ghost use Rattle.schema_spec.specs.Words.{same_name as same_name_of};

use std::str;

// The number that these digits spell.
fn number_of(digits: &[u8]) -> Option<usize>
    ensures { (n : ℕ) → n < 2 ^ 64 → digits.now ≡ decimal n → result ≡ Some n }
{
    match str::from_utf8(digits) {
        Ok(text) => match text.parse::<usize>() {
            Ok(number) => Some(number),
            Err(_) => None,
        },
        Err(_) => None,
    }
}

// The bytes from a place on.
fn behind(name: &[u8], place: usize) -> &[u8]
    ensures { result.now ≡ drop place name.now }
{
    if place < name.len() {
        return &name[place..];
    }
    b""
}

// The bytes behind the name of the table in that of its automatic index: "sqlite_autoindex_" has 17, and one parts the two.
fn digits<'a>(name: &'a [u8], table: &[u8]) -> &'a [u8]
    ensures { (n : ℕ) → IsTrue (same_name_of name.now (automatic_name_of table.now n)) → n < 2 ^ 64 → result.now ≡ decimal n }
{
    behind(name, table.len() + 18)
}

/// The number of the automatic index of a table that has this name, if it is one from 1 to `most`. Which other names have a number is not said.
pub(crate) fn number_in(name: &[u8], table: &[u8], most: usize) -> Option<usize>
    ensures within { IfSome result (λ n. (1 ≤ n) × (n ≤ most)) }
    ensures only { (n : ℕ) → 1 ≤ n → n ≤ most → IsTrue (same_name_of name.now (automatic_name_of table.now n)) → result ≡ Some n }
{
    match number_of(digits(name, table)) {
        Some(number) => {
            if number == 0 || most < number {
                return None;
            }
            Some(number)
        }
        None => None,
    }
}
