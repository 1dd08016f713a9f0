// Texts that are numbers, read from their front in one pass.
ghost use Rattle.std.specs.Prelude.{◌≡◌, ◌≤◌, ◌==◌, ◌↔◌, List, ℕ, IsTrue, MatchOption, length};
ghost use Rattle.std.specs.Char.{is_ascii_digit};
ghost use Rattle.rbu_value.specs.NumericText.{is_space, is_sign, IsDecimal, IsOptionalExponent, IsNumericText};
ghost use Rattle.rbu_value.specs.Scan.{skip_while, skip_one, Behind, TakesOff, EndsDecimal, EndsExponent};

/// The text is a number as SQLite reads one (Datatypes In SQLite, section 3), with white space at its ends or without.
pub(crate) fn is_numeric(text: &[u8]) -> bool
    ensures { IsTrue result ↔ IsNumericText text.now }
{
    let unspaced = skip_spaces(text);
    let unsigned = skip_sign(unspaced);
    match skip_decimal(unsigned) {
        Some(rest) => skip_spaces(skip_exponent(rest)).is_empty(),
        None => false,
    }
}

// The text behind digits with at most one point among them, where there is a digit.
fn skip_decimal(text: &[u8]) -> Option<&[u8]>
    ensures { MatchOption result
        ((other : List ℕ) → Behind IsDecimal text.now other → ¬ (EndsDecimal other))
        (λ rest. TakesOff IsDecimal EndsDecimal text.now rest.now) }
{
    let behind_whole = skip_digits(text);
    let fraction = skip_point(behind_whole);
    let rest = skip_digits(fraction);
    let digits = (text.len() - behind_whole.len()) + (fraction.len() - rest.len());
    if digits > 0 { Some(rest) } else { None }
}

// The text behind an exponent, or the text where it begins with none.
fn skip_exponent(text: &[u8]) -> &[u8]
    ensures { TakesOff IsOptionalExponent EndsExponent text.now result.now }
{
    let [b'e' | b'E', behind_letter @ ..] = text else {
        return text;
    };
    let power = skip_sign(behind_letter);
    let rest = skip_digits(power);
    if rest.len() < power.len() { rest } else { text }
}

fn skip_spaces(mut text: &[u8]) -> &[u8]
    ensures { result.now ≡ skip_while is_space text.entry.now }
{
    while let [b'\t'..=b'\r' | b' ', rest @ ..] = text {
        text = rest;
    }
    text
}

fn skip_digits(mut text: &[u8]) -> &[u8]
    ensures rest { result.now ≡ skip_while is_ascii_digit text.entry.now }
    ensures shorter { length result.now ≤ length text.entry.now }
{
    while let [b'0'..=b'9', rest @ ..] = text {
        text = rest;
    }
    text
}

fn skip_sign(text: &[u8]) -> &[u8]
    ensures { result.now ≡ skip_one is_sign text.now }
{
    match text {
        [b'+' | b'-', rest @ ..] => rest,
        _ => text,
    }
}

fn skip_point(text: &[u8]) -> &[u8]
    ensures rest { result.now ≡ skip_one (λ b. b == 46) text.now }
    ensures shorter { length result.now ≤ length text.now }
{
    match text {
        [b'.', rest @ ..] => rest,
        _ => text,
    }
}
