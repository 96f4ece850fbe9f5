//! Names that are quoted as C quotes strings.
ghost use Rattle.std.specs.Prelude.{◌≡◌, ℕ, List, ◌∷◌, IfOk, IfSome, IfNone, Ok, Err};
ghost use Rattle.sarif_model.specs.Internal.Refusal.{IfFault};
ghost use Rattle.sarif_diff.specs.Name as said;
ghost use Rattle.sarif_diff.specs.declared.quoted.Escape.TheVariants as escape;

use crate::fault::LineFault;
use crate::name::Name;
use sarif_model::Refusal;
use std::alloc::Global;

/// How far an escape of a quoted name is read.
#[derive(Clone, Copy)]
pub enum Escape {
    /// No escape has begun.
    Outside,
    /// The backslash was read.
    Begun,
    /// A backslash and one octal digit, which is this number, were read.
    OneDigit(u8),
    /// A backslash and two octal digits, which are this number, were read.
    TwoDigits(u8),
}

/// What the next byte of a quoted name means.
#[derive(Clone, Copy)]
pub enum Meaning {
    /// A part of an escape.
    Goes(Escape),
    /// This byte of the name, which it completes.
    Gives(u8),
    /// The closing quote.
    Ends,
    /// A byte that no escape has there.
    Fails,
}

/// Returns the byte that a backslash and this letter are.
fn unescape(byte: u8) -> Option<u8>
    ensures { result ≡ said.escaped byte }
{
    if byte == b'a' {
        Some(7)
    } else if byte == b'b' {
        Some(8)
    } else if byte == b't' {
        Some(9)
    } else if byte == b'n' {
        Some(10)
    } else if byte == b'v' {
        Some(11)
    } else if byte == b'f' {
        Some(12)
    } else if byte == b'r' {
        Some(13)
    } else if byte == b'"' {
        Some(34)
    } else if byte == b'\\' {
        Some(92)
    } else {
        None
    }
}

/// Returns whether a byte is a digit up to this one.
fn is_digit_to(last: u8, byte: u8) -> bool
    ensures { result ≡ said.is_digit_to last byte }
{
    b'0' <= byte && byte <= last
}

/// Returns what the byte after the backslash means.
fn meaning_in_escape(byte: u8) -> Meaning
    ensures is { result ≡ said.meaning_of escape.Begun byte }
    ensures low { said.GoesLow result }
{
    if is_digit_to(b'3', byte) {
        return Meaning::Goes(Escape::OneDigit(byte - b'0'));
    }
    match unescape(byte) {
        Some(given) => Meaning::Gives(given),
        None => Meaning::Fails,
    }
}

/// Returns what a byte of a quoted name means, in an escape or outside.
fn meaning_of(escape: Escape, byte: u8) -> Meaning
    requires { said.IsLow escape }
    ensures is { result ≡ said.meaning_of escape byte }
    ensures low { said.GoesLow result }
{
    match escape {
        Escape::Outside => {
            if byte == b'"' {
                Meaning::Ends
            } else if byte == b'\\' {
                Meaning::Goes(Escape::Begun)
            } else {
                Meaning::Gives(byte)
            }
        }
        Escape::Begun => meaning_in_escape(byte),
        Escape::OneDigit(number) => {
            if is_digit_to(b'7', byte) {
                Meaning::Goes(Escape::TwoDigits(number * 8 + (byte - b'0')))
            } else {
                Meaning::Fails
            }
        }
        Escape::TwoDigits(number) => {
            if is_digit_to(b'7', byte) {
                Meaning::Gives(number * 8 + (byte - b'0'))
            } else {
                Meaning::Fails
            }
        }
    }
}

/// Adds what the next byte means to the name so far. Returns how far an escape is read then, or `None` at the closing
/// quote.
#[tactic(auto, using(crate::proofs::QuotedMore::by_goes, crate::proofs::QuotedMore::by_gives, crate::proofs::QuotedMore::by_ends, crate::proofs::QuotedMore::by_fails))]
fn take_byte(
    name: &mut Name,
    escape: Escape,
    byte: u8,
) -> Result<Option<Escape>, Refusal<LineFault>>
    requires { said.IsLow escape }
    ensures low { IfOk result (λ o. IfSome o said.IsLow) }
    ensures goes { IfOk result (λ o. IfSome o (λ next. (rest : List ℕ)
        → said.after_front name.new (said.unquoted next rest)
        ≡ said.after_front name.old (said.unquoted escape (byte ∷ rest)))) }
    ensures ends { IfOk result (λ o. IfNone o ((rest : List ℕ)
        → said.after_front name.old (said.unquoted escape (byte ∷ rest)) ≡ Ok (name.new, rest))) }
    ensures err { IfFault result (λ fault. (rest : List ℕ)
        → said.after_front name.old (said.unquoted escape (byte ∷ rest)) ≡ Err fault) }
{
    match meaning_of(escape, byte) {
        Meaning::Goes(next) => Ok(Some(next)),
        Meaning::Gives(given) => {
            name.push(given)?;
            Ok(Some(Escape::Outside))
        }
        Meaning::Ends => Ok(None),
        Meaning::Fails => Err(Refusal::Fault(LineFault::BadHeader)),
    }
}

/// Returns the name up to its closing quote, and what follows that. `text` is what follows the opening quote.
#[tactic(auto, using(crate::proofs::QuotedMore::begins, crate::proofs::QuotedMore::at_end, crate::proofs::QuotedMore::goes_on, crate::proofs::QuotedMore::stops, crate::proofs::QuotedMore::ends))]
pub(crate) fn unquote(alloc: Global, text: &[u8]) -> Result<(Name, &[u8]), Refusal<LineFault>>
    ensures ok { IfOk result
        (λ q. said.unquoted escape.Outside text.now ≡ Ok (q.0, q.1.now)) }
    ensures err { IfFault result (λ fault. said.unquoted escape.Outside text.now ≡ Err fault) }
{
    let mut name = Name::new(alloc);
    let mut escape = Escape::Outside;
    for (i, byte) in text.iter().enumerate() {
        let next = match take_byte(&mut name, escape, *byte) {
            Ok(next) => next,
            Err(refusal) => return Err(refusal),
        };
        match next {
            Some(next) => escape = next,
            None => return Ok((name, &text[i + 1..])),
        }
    }
    Err(Refusal::Fault(LineFault::BadHeader))
}
