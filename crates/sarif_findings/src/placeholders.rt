//! A message as it is shown, without its links and with its placeholders filled in.
ghost use Rattle.std.specs.Prelude.{◌≡◌, ◌∷◌, [], OnOk, IfOk, IfSome, ◌≤◌, map, chars};
ghost use Rattle.serde_json.specs.View.{view};
ghost use Rattle.sarif_findings.specs.Links.{unlinked};
ghost use Rattle.sarif_findings.specs.Placeholders as said;
ghost use Rattle.sarif_findings.specs.Internal.ShownSoFar.{Fills, TakesCharacters, Writes};
ghost use Rattle.sarif_findings.specs.Internal.Unlinked.{left};

use crate::arguments::{argument_at, read_digit};
use crate::shown_text::ShownText;
use crate::unlinked::Unlinked;
use serde_json::Value;
use std::alloc::{AllocError, Global};

/// Returns whether the characters that are left start with this one.
fn starts_left(rest: &Unlinked<'_>, c: char) -> bool
    ensures { result ≡ said.first_is c (left rest.now) }
{
    let mut rest = *rest;
    match rest.next() {
        Some(first) => first == c,
        None => false,
    }
}

/// The number of an argument before the next `}` of the characters that are left, and its count of digits.
fn index_left(from: &Unlinked<'_>) -> Option<(u32, u32)>
    ensures few { IfSome result (λ p. p.1 ≤ 1000000000) }
    ensures said { result ≡ said.index_from 0 0 (left from.now) }
{
    let mut rest = *from;
    let mut number: u32 = 0;
    let mut count: u32 = 0;
    while let Some(c) = rest.next() {
        match read_digit(number, count, c) {
            Ok(next) => number = next,
            Err(found) => return found,
        }
        count += 1;
    }
    None
}

/// Shows the argument with that number, or the unchanged placeholder if that argument is not a string.
fn push_argument(
    alloc: Global,
    so_far: &mut ShownText,
    args: &[Value],
    number: u32,
) -> Result<(), AllocError>
    ensures { OnOk result (TakesCharacters so_far.old so_far.new
        (chars (said.argument_or_placeholder (map view args.now) number))) }
{
    match argument_at(args, number) {
        Some(text) => so_far.push_str(text)?,
        None => {
            let placeholder = format!(in alloc; "{{{number}}}")?;
            so_far.push_str(placeholder.as_str())?;
        }
    }
    Ok(())
}

/// Shows the replacement for a `{`. Returns how many of the characters after it are part of the same placeholder.
fn push_brace(
    alloc: Global,
    so_far: &mut ShownText,
    args: &[Value],
    rest: &Unlinked<'_>,
) -> Result<u32, AllocError>
    ensures { IfOk result (λ more. Writes so_far.old so_far.new more
        (said.written_for (map view args.now) (said.index_from 0 0 (left rest.now)))) }
{
    match index_left(rest) {
        Some((number, count)) => {
            push_argument(alloc, so_far, args, number)?;
            Ok(count + 1)
        }
        None => {
            so_far.push('{')?;
            Ok(0)
        }
    }
}

/// Shows the replacement for a character. Returns how many of the characters after it are part of the same
/// placeholder.
fn push_piece(
    alloc: Global,
    so_far: &mut ShownText,
    args: &[Value],
    c: char,
    rest: &Unlinked<'_>,
) -> Result<u32, AllocError>
    ensures { IfOk result (λ more. Writes so_far.old so_far.new more
        (said.piece_of (map view args.now) c (left rest.now))) }
{
    if c == '{' && !starts_left(rest, '{') {
        return push_brace(alloc, so_far, args, rest);
    }
    so_far.push(c)?;
    if (c == '{' || c == '}') && starts_left(rest, c) {
        return Ok(1);
    }
    Ok(0)
}

/// Shows the replacement for a character, unless it is one of `skip` characters of a placeholder that was replaced.
/// Returns how many of the characters after it are part of the same placeholder.
fn push_next(
    alloc: Global,
    so_far: &mut ShownText,
    args: &[Value],
    skip: u32,
    c: char,
    rest: &Unlinked<'_>,
) -> Result<u32, AllocError>
    ensures { IfOk result
        (Fills so_far.old so_far.new (map view args.now) skip c (left rest.now)) }
{
    if skip > 0 {
        return Ok(skip - 1);
    }
    let more = push_piece(alloc, so_far, args, c, rest)?;
    Ok(more)
}

/// Shows a message without its links, with its placeholders replaced.
pub(crate) fn push_filled(
    alloc: Global,
    so_far: &mut ShownText,
    args: &[Value],
    text: &str,
) -> Result<(), AllocError>
    ensures { OnOk result (TakesCharacters so_far.old so_far.new
        (said.filled_from (map view args.now) 0 (unlinked (map view args.now) (chars text.now)))) }
{
    let mut skip: u32 = 0;
    let mut rest = Unlinked::new(args, text);
    rest.pass_empties(args, skip);
    while let Some(c) = rest.next() {
        if so_far.is_full() {
            return Ok(());
        }
        skip = push_next(alloc, so_far, args, skip, c, &rest)?;
        rest.pass_empties(args, skip);
    }
    Ok(())
}

/// Shows a message without its links. Its placeholders stay.
pub(crate) fn push_unlinked(
    so_far: &mut ShownText,
    args: &[Value],
    text: &str,
) -> Result<(), AllocError>
    ensures { OnOk result (TakesCharacters so_far.old so_far.new
        (unlinked (map view args.now) (chars text.now))) }
{
    let mut rest = Unlinked::new(args, text);
    while let Some(c) = rest.next() {
        if so_far.is_full() {
            return Ok(());
        }
        so_far.push(c)?;
    }
    Ok(())
}
