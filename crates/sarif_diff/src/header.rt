//! The header of a hunk: `@@ -L[,S] +C[,D] @@`, then anything.
ghost use Rattle.std.specs.Prelude.{◌≡◌, ◌≤◌, ◌+◌, None, Some, true, option_map, IfSome};
ghost use Rattle.std.specs.Option.{ForSome};
ghost use Rattle.std.specs.Char.{is_ascii_digit};
ghost use Rattle.sarif_diff.specs.Header as said;

use crate::lines::begins;

/// The greatest number of a line.
const LAST_LINE: u64 = 4_294_967_295;

/// Lines of a file.
#[derive(Clone, Copy)]
pub struct Range {
    /// The number of the first line, from 1; of the line before it if the range is empty.
    pub first: u64,
    /// How many lines it has.
    pub count: u64,
}

/// Returns a number with one more digit at its end.
fn with_digit(so_far: Option<u64>, digit: u8) -> u64
    requires small { ForSome so_far (λ n. n ≤ said.last_line) }
    requires digit { is_ascii_digit digit ≡ true }
    ensures { result ≡ said.with_digit so_far digit }
{
    match so_far {
        None => (digit - b'0') as u64,
        Some(number) => number * 10 + (digit - b'0') as u64,
    }
}

/// Returns a number and what follows it, if it has a digit.
fn number_and_rest(so_far: Option<u64>, rest: &[u8]) -> Option<(u64, &[u8])>
    ensures is { option_map (λ p. (p.0, p.1.now)) result ≡ said.ended so_far rest.now }
    ensures same { IfSome result (λ p. so_far ≡ Some p.0) }
{
    match so_far {
        Some(number) => Some((number, rest)),
        None => None,
    }
}

/// Returns the number that these bytes begin with and what follows it. Returns `None` if it begins with none, or with one
/// that is greater than the last line's.
#[tactic(auto, using(crate::proofs::HeaderMore::goes, crate::proofs::HeaderMore::too_great, crate::proofs::HeaderMore::ends, crate::proofs::HeaderMore::at_end))]
fn number(text: &[u8]) -> Option<(u64, &[u8])>
    ensures is { option_map (λ p. (p.0, p.1.now)) result ≡ said.number_from None text.now }
    ensures small { IfSome result (λ p. p.0 ≤ said.last_line) }
{
    let mut so_far: Option<u64> = None;
    for (i, byte) in text.iter().enumerate() {
        if !byte.is_ascii_digit() {
            return number_and_rest(so_far, &text[i..]);
        }
        let next = with_digit(so_far, *byte);
        if next > LAST_LINE {
            return None;
        }
        so_far = Some(next);
    }
    number_and_rest(so_far, &text[text.len()..])
}

/// Returns the lines that these bytes begin with, and what follows them.
fn range_of(text: &[u8]) -> Option<(Range, &[u8])>
    ensures is { option_map (λ p. (p.0, p.1.now)) result ≡ said.range_of text.now }
    ensures first { IfSome result (λ p. p.0.first ≤ said.last_line) }
    ensures count { IfSome result (λ p. p.0.count ≤ said.last_line) }
{
    let (first, rest) = number(text)?;
    if !begins(rest, b",") {
        return Some((Range { first, count: 1 }, rest));
    }
    let (count, rest) = number(&rest[1..])?;
    Some((Range { first, count }, rest))
}

/// Returns the lines that follow this word, and what follows them.
fn range_after<'a>(word: &[u8], text: &'a [u8]) -> Option<(Range, &'a [u8])>
    ensures is { option_map (λ p. (p.0, p.1.now)) result ≡ said.range_after word.now text.now }
    ensures first { IfSome result (λ p. p.0.first ≤ said.last_line) }
    ensures count { IfSome result (λ p. p.0.count ≤ said.last_line) }
{
    if !begins(text, word) {
        return None;
    }
    range_of(&text[word.len()..])
}

/// Returns whether the lines of a range have numbers of lines.
fn is_within(range: Range) -> bool
    requires first { range.first ≤ said.last_line }
    requires count { range.count ≤ said.last_line }
    ensures { result ≡ said.is_within range }
{
    range.count == 0 || (1 <= range.first && range.first + range.count <= LAST_LINE + 1)
}

/// Returns the old and the new lines of a hunk with this header.
pub(crate) fn ranges_of(line: &[u8]) -> Option<(Range, Range)>
    ensures is { result ≡ said.ranges_of line.now }
    ensures first { IfSome result (λ p. p.1.first ≤ said.last_line) }
    ensures count { IfSome result (λ p. p.1.count ≤ said.last_line) }
{
    let (old, rest) = range_after(b"@@ -", line)?;
    let (new, rest) = range_after(b" +", rest)?;
    if !begins(rest, b" @@") {
        return None;
    }
    if !is_within(old) || !is_within(new) || (old.count == 0 && new.count == 0) {
        return None;
    }
    Some((old, new))
}
