// The words of a command, read by hand.
ghost use Rattle.std.specs.Prelude.{◌≡◌, ◌≢◌, ◌≤◌, ◌↔◌, ℕ, map, string_bytes, length, slice_index, IsTrue, IfSome, Some, [], ◌∷◌};
ghost use Rattle.update_spec.specs.Words.{AreWords, IsNumber};
ghost use Rattle.update_spec.specs.declared.Command.{Command};

use update_spec::Command;

/// Whether the word has neither a plus sign nor a leading zero.
fn is_plain(word: &[u8]) -> bool
    ensures { IsTrue result ↔ ((slice_index word.now 0 ≢ 43) × (slice_index word.now 0 ≡ 48 → length word.now ≤ 1)) }
{
    match word {
        [b'+', ..] => false,
        [b'0', _, ..] => false,
        _ => true,
    }
}

/// A number in decimal digits, without sign or leading zero, from `least` to `most`.
fn number(word: &str, least: u32, most: u32) -> Option<u32>
    ensures found { IfSome result (IsNumber word.now least most) }
    ensures only { (n : ℕ) → IsNumber word.now least most n → result ≡ Some n }
{
    let Ok(n) = word.parse::<u32>() else {
        return None;
    };
    if is_plain(word.as_bytes()) && least <= n && n <= most {
        Some(n)
    } else {
        None
    }
}

/// The command that is one word.
fn of_one(name: &str) -> Option<Command>
    ensures found { IfSome result (AreWords (name.now ∷ [])) }
    ensures only { (command : Command) → AreWords (name.now ∷ []) command → result ≡ Some command }
{
    match name {
        "state" => Some(Command::State),
        "check" => Some(Command::Check),
        _ => None,
    }
}

/// The command that is two words.
fn of_two(name: &str, word: &str) -> Option<Command>
    ensures found { IfSome result (AreWords (name.now ∷ word.now ∷ [])) }
    ensures only { (command : Command) → AreWords (name.now ∷ word.now ∷ []) command → result ≡ Some command }
{
    match name {
        "apply" => Some(Command::Apply {
            steps: number(word, 1, u32::MAX)?,
        }),
        "dump" => Some(Command::Dump),
        _ => None,
    }
}

/// The command that is three words.
fn of_three(name: &str, first: &str, second: &str) -> Option<Command>
    ensures found { IfSome result (AreWords (name.now ∷ first.now ∷ second.now ∷ [])) }
    ensures only { (command : Command) → AreWords (name.now ∷ first.now ∷ second.now ∷ []) command → result ≡ Some command }
{
    match name {
        "make" => Some(Command::Make {
            count: number(first, 1, 200_000)?,
            seed: number(second, 0, u32::MAX)?,
        }),
        "beside" => Some(Command::Beside {
            readers: number(first, 1, 16)?,
            reads: number(second, 1, 1000)?,
        }),
        _ => None,
    }
}

/// The command that is four words.
fn of_four(name: &str, first: &str, second: &str, third: &str) -> Option<Command>
    ensures found { IfSome result (AreWords (name.now ∷ first.now ∷ second.now ∷ third.now ∷ [])) }
    ensures only { (command : Command) → AreWords (name.now ∷ first.now ∷ second.now ∷ third.now ∷ []) command → result ≡ Some command }
{
    match name {
        "trial" => Some(Command::Trial {
            count: number(first, 1, 200_000)?,
            seed: number(second, 0, u32::MAX)?,
            steps: number(third, 1, u32::MAX)?,
        }),
        _ => None,
    }
}

/// The command that has these words, or `None` where no command has them.
pub fn command_of(words: &[String]) -> Option<Command>
    ensures found { IfSome result (AreWords (map string_bytes words.now)) }
    ensures only { (command : Command) → AreWords (map string_bytes words.now) command → result ≡ Some command }
{
    match words {
        [name] => of_one(name.as_str()),
        [name, word] => of_two(name.as_str(), word.as_str()),
        [name, first, second] => of_three(name.as_str(), first.as_str(), second.as_str()),
        [name, first, second, third] => of_four(
            name.as_str(),
            first.as_str(),
            second.as_str(),
            third.as_str(),
        ),
        _ => None,
    }
}
