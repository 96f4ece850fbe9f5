//! Whether a number is held as an integer of 64 bits.
ghost use Rattle.std.specs.Prelude.{◌≡◌};
ghost use Rattle.json_parts.specs.Indexed.{json_at};
ghost use Rattle.json_texts.specs.Whole as said;
ghost use Rattle.json_texts.specs.Internal.Walking.{IsWritable};

use crate::walking::{items_in, take_item};
use json_parts::{Element, parse_number};

/// Whether the number that a token writes isn't held as an integer.
fn is_fraction(text: &str) -> bool
    ensures { result ≡ said.is_fraction text.now }
{
    match parse_number(text) {
        Some(number) => number.is_f64(),
        None => true,
    }
}

/// Whether this is a number that isn't held as an integer, or an array that holds one directly or within arrays.
#[cycle(fractions)]
pub(crate) fn is_fractional(element: &Element<'_, '_>) -> bool
    requires { IsWritable element.now }
    ensures { result ≡ said.is_fractional (json_at element.now) }
{
    if let Some(text) = element.as_number() {
        return is_fraction(text);
    }
    let Some(mut items) = items_in(element) else {
        return false;
    };
    'items: while let Some(item) = take_item(&mut items) {
        if is_fractional(&item) {
            return true;
        }
    }
    false
}
