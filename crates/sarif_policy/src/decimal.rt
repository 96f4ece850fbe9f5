//! Decimals, compared as numbers of any length.
ghost use Rattle.std.specs.Prelude.{◌≡◌, ◌≤◌, ◌+◌, ◌++◌, drop, length, position, true, IfOk, OnOk, IfSome, ◌<◌, ◌==◌, option_map};
ghost use Rattle.std.specs.List.{list_all};
ghost use Rattle.std.specs.Str.Parse.{AllDigits};
ghost use Rattle.sarif_policy.specs.Decimal as said;

use sarif_model::Sequence;
use std::alloc::{AllocError, Global};
use std::marker::Model;

/// A number of one or more digits, or of these, a dot and one or more digits. Its digits are kept, so it is exact for any
/// length.
#[derive(Debug, Drop)]
pub struct Decimal {
    /// Its digits before and after the dot, without leading zeros.
    digits: Sequence<u8>,
    /// How many of them are before the dot.
    whole: usize,
}

impl Model for Decimal {
    ghost use Rattle.sarif_policy.specs.Decimal.{Number, IsDecimal};

    ghost Value = { Number };

    ghost view = { λ d. record { digits = d.digits; whole = d.whole } };

    ghost invariant = { λ d. IsDecimal (record { digits = d.digits; whole = d.whole }) };
}

/// Returns the digit at this place; past the end it is a zero.
#[tactic(auto, using(crate::proofs::DecimalLoops::next_there, crate::proofs::DecimalLoops::next_past))]
fn digit_at(digits: &[u8], at: usize) -> u8
    ensures { result ≡ said.next_of (drop at digits.now) }
{
    if at < digits.len() { digits[at] } else { b'0' }
}

/// Returns whether one fraction is at most the other, by their digits after the dot.
#[tactic(auto, using(crate::proofs::DecimalLoops::goes_on, crate::proofs::DecimalLoops::stops, crate::proofs::DecimalLoops::at_end))]
fn are_in_order(digits: &[u8], others: &[u8]) -> bool
    ensures { result ≡ said.in_order digits.now others.now }
{
    for (at, digit) in digits.iter().enumerate() {
        let other = digit_at(others, at);
        if *digit != other {
            return *digit < other;
        }
    }
    true
}

/// Returns where the first dot is.
fn dot_at(text: &[u8]) -> Option<usize>
    ensures is { result ≡ position (λ b. b == 46) text.now }
    ensures within { IfSome result (λ n. n < length text.now) }
{
    text.iter().position(|b| *b == b'.')
}

/// Returns what is before the first dot of a string, and what is after it, if there is one.
#[tactic(auto, using(std::proofs::lemmas::List::take_rest))]
fn parts_of(text: &[u8]) -> (&[u8], Option<&[u8]>)
    ensures before { result.0.now ≡ (said.parts_of text.now).0 }
    ensures after { option_map (λ after. after.now) result.1 ≡ (said.parts_of text.now).1 }
{
    match dot_at(text) {
        Some(at) => (&text[..at], Some(&text[at + 1..])),
        None => (text, None),
    }
}

/// Returns whether a byte is a digit.
fn is_digit(byte: u8) -> bool
    ensures { result ≡ said.is_digit byte }
{
    b'0' <= byte && byte <= b'9'
}

/// Returns whether all bytes are digits.
fn have_digits(text: &[u8]) -> bool
    ensures { result ≡ list_all said.is_digit text.now }
{
    text.iter().all(|b| is_digit(*b))
}

/// Returns whether a string is one or more digits, and nothing else.
fn are_digits(text: &[u8]) -> bool
    ensures { result ≡ said.are_digits text.now }
{
    !text.is_empty() && have_digits(text)
}

/// Returns digits without leading zeros.
#[tactic(auto, using(crate::proofs::DecimalLoops::skips_zero, crate::proofs::DecimalLoops::stops_at_digit, crate::proofs::DecimalLoops::zeros_end))]
fn without_zeros(digits: &[u8]) -> &[u8]
    ensures { result.now ≡ said.without_zeros digits.now }
{
    for (at, digit) in digits.iter().enumerate() {
        if *digit != b'0' {
            return &digits[at..];
        }
    }
    &digits[digits.len()..]
}

/// Adds digits to others.
fn push_all(digits: &mut Sequence<u8>, more: &[u8]) -> Result<(), AllocError>
    ensures { OnOk result (digits.new ≡ digits.old ++ more.now) }
{
    for digit in more {
        digits.push(*digit)?;
    }
    Ok(())
}

impl Decimal {
    /// Returns the decimal with these digits before and after the dot.
    #[tactic(auto, using(crate::proofs::DecimalLoops::decimal_with))]
    fn with_parts(alloc: Global, whole: &[u8], fraction: &[u8]) -> Result<Decimal, AllocError>
        requires whole { list_all said.is_digit whole.now ≡ true }
        requires fraction { list_all said.is_digit fraction.now ≡ true }
        ensures { IfOk result (λ d. d ≡ said.number_with whole.now fraction.now) }
    {
        let front = without_zeros(whole);
        let mut digits = Sequence::new(alloc);
        push_all(&mut digits, front)?;
        push_all(&mut digits, fraction)?;
        Ok(Decimal {
            digits,
            whole: front.len(),
        })
    }

    /// Returns the decimal that a string represents: one or more digits, or these, a dot and one or more digits, all of
    /// them ASCII. Returns `None` for any other string, and `AllocError` if memory for the digits runs out.
    pub fn read(alloc: Global, text: &str) -> Result<Option<Decimal>, AllocError>
        ensures { IfOk result (λ found. found ≡ said.decimal_of text.now) }
    {
        let (whole, fraction) = parts_of(text.as_bytes());
        if !are_digits(whole) {
            return Ok(None);
        }
        match fraction {
            None => Ok(Some(Decimal::with_parts(alloc, whole, &[])?)),
            Some(fraction) => {
                if are_digits(fraction) {
                    Ok(Some(Decimal::with_parts(alloc, whole, fraction)?))
                } else {
                    Ok(None)
                }
            }
        }
    }

    /// Returns whether this is at least the other, as numbers.
    #[tactic(auto, using(crate::proofs::DecimalOrder::same_whole, crate::proofs::DecimalOrder::whole_decides))]
    pub fn is_at_least(&self, least: &Decimal) -> bool
        ensures { result ≡ said.at_most least.now self.now }
    {
        if self.whole == least.whole {
            are_in_order(least.digits.as_slice(), self.digits.as_slice())
        } else {
            least.whole < self.whole
        }
    }
}
