//! Placeholders that are replaced by nothing. A message may have many of them.
ghost use Rattle.std.specs.Prelude.{◌≡◌, ◌≤◌, drop, length, map, chars};
ghost use Rattle.std.specs.Bool.{OnTrue};
ghost use Rattle.std.specs.Str.{IsCharBoundary};
ghost use Rattle.serde_json.specs.View.{view};
ghost use Rattle.sarif_findings.specs.Internal.Unlinked.{IsEmptied, NamesEmpty, PassesEmpties};

use crate::arguments::argument_at;
use serde_json::Value;

/// Returns whether this is the digit of an argument that is the empty string.
fn names_empty(args: &[Value], digit: u8) -> bool
    ensures { OnTrue result (NamesEmpty (map view args.now) digit) }
{
    if !digit.is_ascii_digit() {
        return false;
    }
    match argument_at(args, (digit - b'0') as u32) {
        Some(text) => text.is_empty(),
        None => false,
    }
}

/// Returns whether these bytes are a placeholder with one digit that is replaced by nothing.
fn is_emptied(args: &[Value], first: u8, digit: u8, last: u8) -> bool
    ensures { OnTrue result (IsEmptied (map view args.now) first digit last) }
{
    first == b'{' && last == b'}' && names_empty(args, digit)
}

/// Returns how many bytes of a string, from its first on, are such placeholders.
fn empties_end(args: &[Value], text: &str) -> usize
    ensures cut { IsCharBoundary text.now result }
    ensures same { PassesEmpties (map view args.now) (drop result text.now) text.now }
{
    let bytes = text.as_bytes();
    let mut end: usize = 0;
    while bytes.len() - end > 2 {
        if !is_emptied(args, bytes[end], bytes[end + 1], bytes[end + 2]) {
            return end;
        }
        end += 3;
    }
    end
}

/// Returns the text without the placeholders with one digit that it begins with and that are replaced by nothing.
pub(crate) fn after_empties<'a>(args: &[Value], text: &'a str) -> &'a str
    ensures same { PassesEmpties (map view args.now) result.now text.now }
    ensures shorter { length result.now ≤ length text.now }
{
    &text[empties_end(args, text)..]
}
