//! The arguments of a message, and how its text names them.
ghost use Rattle.std.specs.Prelude.{◌≡◌, ℕ, ◌+◌, ◌<◌, ◌≤◌, List, ◌∷◌, IfSome, IfOk, IfErr, map, option_map, chars};
ghost use Rattle.std.specs.Bool.{OnTrue};
ghost use Rattle.serde_json.specs.View.{view};
ghost use Rattle.sarif_findings.specs.Placeholders as said;

use serde_json::Value;

/// The least number of nine digits, which are the most digits of the number of an argument.
const LEAST_OF_NINE_DIGITS: u32 = 100_000_000;

/// Whether a character is one more digit of an argument's number.
fn takes_digit(number: u32, count: u32, c: char) -> bool
    ensures said { result ≡ said.takes_digit number count c }
    ensures low { OnTrue result (48 ≤ c) }
    ensures high { OnTrue result (c ≤ 57) }
    ensures room { OnTrue result (number < said.least_of_nine_digits) }
    ensures first { OnTrue result (0 < count → 0 < number) }
{
    c.is_ascii_digit() && number < LEAST_OF_NINE_DIGITS && (count == 0 || number != 0)
}

/// Reads one more character of an argument's number, after some of its digits. Returns the number with this
/// digit, or what was found if the character is not a digit: the number and its count of digits before a `}`.
pub(crate) fn read_digit(number: u32, count: u32, c: char) -> Result<u32, Option<(u32, u32)>>
    requires small { number < 1000000000 }
    requires few { count ≤ number + 1 }
    ensures less { IfOk result (λ next. next < 1000000000) }
    ensures more { IfOk result (λ next. count + 1 ≤ next + 1) }
    ensures goes { IfOk result (λ next. (cs : List ℕ)
        → said.index_from number count (c ∷ cs) ≡ said.index_from next (count + 1) cs) }
    ensures ends { IfErr result (λ found. (cs : List ℕ)
        → said.index_from number count (c ∷ cs) ≡ found) }
    ensures counted { IfErr result (λ found. IfSome found (λ p. p.1 ≤ 1000000000)) }
{
    if c == '}' {
        return Err(if count == 0 {
            None
        } else {
            Some((number, count))
        });
    }
    if !takes_digit(number, count, c) {
        return Err(None);
    }
    Ok(number * 10 + (c as u32 - 48))
}

/// The number of an argument before the next `}`, and its count of digits.
pub(crate) fn index_in(rest: &str) -> Option<(u32, u32)>
    ensures few { IfSome result (λ p. p.1 ≤ 1000000000) }
    ensures said { result ≡ said.index_from 0 0 (chars rest.now) }
{
    let mut number: u32 = 0;
    let mut count: u32 = 0;
    for c in rest.chars() {
        match read_digit(number, count, c) {
            Ok(next) => number = next,
            Err(found) => return found,
        }
        count += 1;
    }
    None
}

/// The argument with that number, if it is a string.
pub(crate) fn argument_at<'a>(args: &'a [Value], number: u32) -> Option<&'a str>
    ensures { option_map (λ s. s.now) result ≡ said.argument_at (map view args.now) number }
{
    args.get(number as usize)?.as_str()
}
