//! The lines of the code of a result, made safe to show.
ghost use Rattle.std.specs.Prelude.{◌≡◌, ◌<◌, ◌≤◌, ◌+◌, ◌-◌, ◌++◌, ◌^◌, drop, length, map, replicate, take, true, option_map, option_and_then, IfOk, OnOk};
ghost use Rattle.std.specs.List.{list_all, prefix_len, suffix_len};
ghost use Rattle.sarif_findings.specs.Code as said;
ghost use Rattle.sarif_findings.specs.Code.{is_space, spread_line};
ghost use Rattle.sarif_findings.specs.Internal.CodeParts as parts;
ghost use Rattle.sarif_findings.specs.Internal.CodeParts.{excerpt_of};
ghost use Rattle.sarif_findings.specs.Internal.ShownSoFar.{is_printable, KeepsAll};

use crate::code::Code;
use crate::code_excerpt::Excerpt;
use crate::code_indented::Indented;
use crate::shown_text::{ShownText, all_printable, plain};
use sarif_model::{Sequence, Text};
use std::alloc::{AllocError, Global};

/// The maximum number of characters of a line.
const MOST_OF_LINE: u32 = 120;

/// Returns how many spaces a character is shown as, or 0 if it isn't shown as spaces.
fn spaces_of(c: char) -> u32
    ensures count { result ≡ prefix_len is_space (said.spread c) }
    ensures few { result ≤ 4 }
{
    if c == '\t' {
        4
    } else if plain(c) == ' ' {
        1
    } else {
        0
    }
}

/// Reads the indentation of a line.
fn indented(line: &str) -> Indented<'_>
    ensures { parts.line_of result ≡ spread_line line.now }
{
    let mut indent = 0u128;
    let mut left = line;
    let mut rest = line.chars();
    while let Some(c) = rest.next() {
        let spaces = spaces_of(c);
        if spaces == 0 {
            return Indented {
                indent,
                rest: left,
                blank: false,
            };
        }
        indent += spaces as u128;
        left = rest.as_str();
    }
    Indented {
        indent,
        rest: left,
        blank: true,
    }
}

/// Reads the indentation of each of these lines.
fn indented_lines<'a>(alloc: Global, lines: &[&'a str]) -> Result<Vec<Indented<'a>>, AllocError>
    ensures { IfOk result (λ made. map parts.line_of made.items
        ≡ map spread_line (map (λ line. line.now) lines.now)) }
{
    let mut made = Vec::with_capacity(alloc, lines.len())?;
    for line in lines {
        made.push(indented(line))?;
    }
    Ok(made)
}

/// Returns how many blank lines come first.
fn blank_lines_first(lines: &[Indented<'_>]) -> usize
    ensures { result ≡ prefix_len (λ line. line.blank) lines.now }
{
    for (index, line) in lines.iter().enumerate() {
        if !line.blank {
            return index;
        }
    }
    lines.len()
}

/// Returns how many lines come before the blank lines at the end.
fn before_blank_lines(lines: &[Indented<'_>]) -> usize
    ensures { result ≡ length lines.now - suffix_len (λ line. line.blank) lines.now }
{
    let mut end = lines.len();
    while end > 0 && lines[end - 1].blank {
        end -= 1;
    }
    end
}

/// Returns the lesser of two numbers, or the one that is there.
fn least_of(least: Option<u128>, indent: u128) -> Option<u128>
    ensures { result ≡ Some (parts.lesser least indent) }
{
    match least {
        Some(least) if least < indent => Some(least),
        _ => Some(indent),
    }
}

/// Returns how many spaces each of these lines begins with that isn't blank.
fn common_indent(lines: &[Indented<'_>]) -> u128
    ensures { result ≡ said.common_indent (map parts.line_of lines.now) }
{
    let mut least = None;
    for line in lines {
        if !line.blank {
            least = least_of(least, line.indent);
        }
    }
    least.unwrap_or(0)
}

/// Adds that many spaces.
fn push_spaces(text: &mut ShownText, count: u128) -> Result<(), AllocError>
    ensures { OnOk result (KeepsAll text.old text.new (replicate count 32)) }
{
    let mut left = count;
    while left > 0 && !text.is_full() {
        text.keep(' ')?;
        left -= 1;
    }
    Ok(())
}

/// Adds a character: a tab as four spaces, and a space instead of another character that isn't shown.
fn push_spread(text: &mut ShownText, c: char) -> Result<(), AllocError>
    ensures { OnOk result (KeepsAll text.old text.new (said.spread c)) }
{
    if c == '\t' {
        return push_spaces(text, 4);
    }
    text.keep(plain(c))?;
    Ok(())
}

/// Returns the first characters of a line, as many as there is room for, if all of these are printable, otherwise none;
/// and the rest.
fn split_line<'l>(text: &ShownText, line: &'l str) -> (&'l str, &'l str)
    ensures all { line.now ≡ result.0.now ++ result.1.now }
    ensures printable { list_all is_printable result.0.now ≡ true }
    ensures room { length result.0.now ≤ text.now.room }
{
    let end = line.len().min(text.room());
    match line.split_at_checked(end) {
        Some((first, rest)) if all_printable(first.as_bytes()) => (first, rest),
        _ => ("", line),
    }
}

/// Adds the characters of a line, one by one.
fn push_each(text: &mut ShownText, line: &str) -> Result<(), AllocError>
    ensures { OnOk result (KeepsAll text.old text.new (spread_line line.now)) }
{
    for c in line.chars() {
        if text.is_full() {
            return Ok(());
        }
        push_spread(text, c)?;
    }
    Ok(())
}

/// Adds the characters of a line: the first as one string if all of these are printable.
fn push_line(text: &mut ShownText, line: &str) -> Result<(), AllocError>
    ensures { OnOk result (KeepsAll text.old text.new (spread_line line.now)) }
{
    let (first, rest) = split_line(text, line);
    text.keep_whole(first)?;
    push_each(text, rest)?;
    Ok(())
}

/// Returns a line without the given number of its first spaces: its first 120 characters, and `…` if there are more.
fn cut_line(alloc: Global, line: Indented<'_>, common: u128) -> Result<Text, AllocError>
    ensures { IfOk result (λ cut. cut ≡ parts.cut_of common line.entry) }
{
    if line.blank {
        return Text::copy_of(alloc, "");
    }
    let mut text = ShownText::with_room(alloc, MOST_OF_LINE)?;
    push_spaces(&mut text, line.indent.saturating_sub(common))?;
    push_line(&mut text, line.rest)?;
    Text::from_string(text.finish())
}

/// Returns these lines without the given number of their first spaces.
fn cut_lines(
    alloc: Global,
    lines: &[Indented<'_>],
    common: u128,
) -> Result<Sequence<Text>, AllocError>
    ensures { IfOk result (λ cut. cut ≡ map (parts.cut_of common) lines.now) }
{
    let mut cut = Sequence::new(alloc);
    for line in lines {
        cut.push(cut_line(alloc, *line, common)?)?;
    }
    Ok(cut)
}

/// Returns the number of the line that follows the given number of lines.
fn number_after(number: Option<u32>, lines: usize) -> Option<u64>
    requires { lines < 2 ^ 63 }
    ensures { result ≡ option_map (λ first. first + lines) number }
{
    match number {
        Some(number) => Some(number as u64 + lines as u64),
        None => None,
    }
}

/// Returns the index of the hit line among the lines from the first to the end, if it is one of them.
fn hit_within(hit: Option<usize>, first: usize, end: usize) -> Option<usize>
    ensures { result
        ≡ option_and_then (said.index_among first) (option_and_then (said.if_before end) hit) }
{
    let hit = hit?;
    if first <= hit && hit < end {
        Some(hit - first)
    } else {
        None
    }
}

/// Returns the lines from the first to the end.
fn lines_between<'l, 'a>(lines: &'l [Indented<'a>], first: usize, end: usize) -> &'l [Indented<'a>]
    requires ordered { first ≤ end }
    requires within { end ≤ length lines.now }
    ensures { result.now ≡ drop first (take end lines.now) }
{
    &lines[..end][first..]
}

/// Returns the code that is made from these lines; `None` if all of them are blank. Returns `AllocError` if memory for
/// it runs out.
pub(crate) fn code_from(alloc: Global, excerpt: Excerpt<'_>) -> Result<Option<Code>, AllocError>
    ensures { IfOk result (λ code. code ≡ said.unless_empty (said.cut_lines (said.trimmed_lines
        (said.spread_lines (excerpt_of excerpt.entry))))) }
{
    let all = indented_lines(alloc, excerpt.lines.as_slice())?;
    let all = all.as_slice();
    let first = blank_lines_first(all);
    let end = before_blank_lines(all);
    if end <= first {
        return Ok(None);
    }
    let written = lines_between(all, first, end);
    let lines = cut_lines(alloc, written, common_indent(written))?;
    Ok(Some(Code {
        lines,
        first_number: number_after(excerpt.first_number, first),
        hit_line: hit_within(excerpt.hit_line, first, end),
    }))
}
