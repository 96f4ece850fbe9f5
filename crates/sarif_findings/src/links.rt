//! Where links of a message begin and end, and what follows their text.
ghost use Rattle.std.specs.Prelude.{◌≡◌, map, chars, false};
ghost use Rattle.std.specs.List.{list_all};
ghost use Rattle.serde_json.specs.View.{view};
ghost use Rattle.sarif_findings.specs.Internal.Brackets.{closes_link};
ghost use Rattle.sarif_findings.specs.Links as said;
ghost use Rattle.sarif_findings.specs.Placeholders.{index_from};
ghost use Rattle.std.specs.Char.{is_ascii_digit};

use crate::arguments::{argument_at, index_in};
use crate::brackets::from_bracket;
use serde_json::Value;

/// The parts of a message, as far as links are concerned.
#[derive(Clone, Copy)]
pub(crate) enum Part {
    /// Outside of links.
    Outside,
    /// The second character of a pair outside of links.
    OutsidePair,
    /// The text of a link.
    LinkText,
    /// The second character of a pair in the text of a link.
    TextPair,
    /// What follows the text of a link.
    Target,
}

/// Returns whether a pair begins with this character: a backslash, and a bracket or a backslash after it.
fn begins_pair(c: char, rest: &str) -> bool
    ensures { result ≡ said.begins_pair c (chars rest.now) }
{
    if c != '\\' {
        return false;
    }
    match rest.chars().next() {
        Some(next) => next == '[' || next == ']' || next == '\\',
        None => false,
    }
}

/// Returns whether these are one or more digits and a `)`.
fn ends_number(text: &str) -> bool
    ensures { result ≡ said.ends_number false (chars text.now) }
{
    let mut some = false;
    for c in text.chars() {
        if c == ')' {
            return some;
        }
        if !c.is_ascii_digit() {
            return false;
        }
        some = true;
    }
    false
}

/// Returns whether all bytes are digits.
fn are_digits(bytes: &[u8]) -> bool
    ensures { result ≡ list_all is_ascii_digit bytes.now }
{
    bytes.iter().all(|byte| byte.is_ascii_digit())
}

/// Returns whether the argument with that index is a number: a string of digits.
fn is_number_argument(args: &[Value], index: u32) -> bool
    ensures { result ≡ said.is_number_argument (map view args.now) index }
{
    match argument_at(args, index) {
        Some(text) => !text.is_empty() && are_digits(text.as_bytes()),
        None => false,
    }
}

/// Returns whether the character with that index is a `)`.
fn closes_at(text: &str, index: u32) -> bool
    ensures { result ≡ said.closes_at (chars text.now) index }
{
    match text.chars().nth(index as usize) {
        Some(c) => c == ')',
        None => false,
    }
}

/// Returns whether these are the number of an argument that is a number, and `})`.
fn names_number(args: &[Value], text: &str) -> bool
    ensures { result
        ≡ said.names_number (map view args.now) (index_from 0 0 (chars text.now)) (chars text.now) }
{
    match index_in(text) {
        Some((index, count)) => is_number_argument(args, index) && closes_at(text, count + 1),
        None => false,
    }
}

/// Returns whether these are a placeholder of an argument that is a number, and `)`.
fn ends_placeholder(args: &[Value], text: &str) -> bool
    ensures { result ≡ said.ends_placeholder (map view args.now) (chars text.now) }
{
    let mut rest = text.chars();
    match rest.next() {
        Some(c) => c == '{' && names_number(args, rest.as_str()),
        None => false,
    }
}

/// Returns whether these are the number of a target, and `)`.
fn ends_target(args: &[Value], text: &str) -> bool
    ensures { result ≡ said.ends_target (map view args.now) (chars text.now) }
{
    ends_number(text) || ends_placeholder(args, text)
}

/// Returns whether the target of a link follows: `(N)`.
fn begins_target(args: &[Value], text: &str) -> bool
    ensures { result ≡ said.begins_target (map view args.now) (chars text.now) }
{
    let mut rest = text.chars();
    match rest.next() {
        Some(c) => c == '(' && ends_target(args, rest.as_str()),
        None => false,
    }
}

/// Returns whether these begin with a `]` with a target after it.
fn closes_link(args: &[Value], text: &str) -> bool
    ensures { result ≡ closes_link (map view args.now) (chars text.now) }
{
    let mut rest = text.chars();
    match rest.next() {
        Some(c) => c == ']' && begins_target(args, rest.as_str()),
        None => false,
    }
}

/// Returns whether the first bracket that is not in a pair is a `]` with a target after it.
fn ends_link(args: &[Value], text: &str) -> bool
    ensures { result ≡ said.ends_link (map view args.now) false (chars text.now) }
{
    closes_link(args, from_bracket(text))
}

/// Returns whether a link begins with this character.
fn begins_link(args: &[Value], c: char, rest: &str) -> bool
    ensures { result ≡ said.begins_link (map view args.now) c (chars rest.now) }
{
    c == '[' && ends_link(args, rest)
}

/// The part outside of links that follows a character there.
fn part_outside(args: &[Value], c: char, rest: &str) -> Part
    ensures { result ≡ said.part_after (map view args.now) Part.Outside c (chars rest.now) }
{
    if begins_pair(c, rest) {
        Part::OutsidePair
    } else if begins_link(args, c, rest) {
        Part::LinkText
    } else {
        Part::Outside
    }
}

/// The part that follows a character in the text of a link.
fn part_in_text(c: char, rest: &str) -> Part
    ensures { result ≡ said.part_in_text c (chars rest.now) }
{
    if begins_pair(c, rest) {
        Part::TextPair
    } else if c == ']' {
        Part::Target
    } else {
        Part::LinkText
    }
}

/// The part that follows a character.
pub(crate) fn part_after(args: &[Value], part: Part, c: char, rest: &str) -> Part
    ensures { result ≡ said.part_after (map view args.now) part c (chars rest.now) }
{
    match part {
        Part::Outside => part_outside(args, c, rest),
        Part::OutsidePair => Part::Outside,
        Part::LinkText => part_in_text(c, rest),
        Part::TextPair => Part::LinkText,
        Part::Target => {
            if c == ')' {
                Part::Outside
            } else {
                Part::Target
            }
        }
    }
}

/// Returns whether a character stays that is between these parts: of a link its text stays, without the
/// backslashes of pairs.
pub(crate) fn stays_between(part: Part, next: Part) -> bool
    ensures { result ≡ said.stays_between part next }
{
    match part {
        Part::Outside => !matches!(next, Part::LinkText),
        Part::LinkText => matches!(next, Part::LinkText),
        Part::OutsidePair | Part::TextPair => true,
        Part::Target => false,
    }
}
