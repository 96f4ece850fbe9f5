//! The explanation of an error in a diff.
ghost use Rattle.std.specs.Prelude.{◌≡◌, ◌++◌, ℕ, List, IfOk, OnOk, codes, string_bytes};
ghost use Rattle.sarif_explain.specs.Internal.Diff as said;
ghost use Rattle.sarif_explain.specs.Internal.Lines.{file_line, line_of};

use crate::advice::advice_on;
use crate::explaining::{FaultSource, push_sentence};
use crate::hint::Hint;
use crate::lines::{push_file, push_line, push_number, shorten};
use crate::whole::wanted_by;
use json_parts::without_mark;
use sarif_model::{At, MergeFault};
use std::alloc::{AllocError, Global};

/// Returns what follows the first line feed.
fn past_line(bytes: &[u8]) -> &[u8]
    ensures { result.now ≡ said.past_line bytes.now }
{
    for (i, byte) in bytes.iter().enumerate() {
        if *byte == b'\n' {
            return &bytes[i + 1..];
        }
    }
    &[]
}

/// Returns what is before the first line feed.
fn first_line(bytes: &[u8]) -> &[u8]
    ensures { result.now ≡ said.first_line bytes.now }
{
    for (i, byte) in bytes.iter().enumerate() {
        if *byte == b'\n' {
            return &bytes[..i];
        }
    }
    bytes
}

/// Returns the line of that number, from 1, without its line feed; nothing after the last line.
fn line_at(bytes: &[u8], number: usize) -> &[u8]
    ensures { result.now ≡ said.line_at number bytes.now }
{
    let mut rest = bytes;
    let mut left = number;
    while left > 1 {
        rest = past_line(rest);
        left -= 1;
    }
    first_line(rest)
}

/// Returns how a line is shown: its beginning, or that it has no bytes or isn't text.
fn found_in(alloc: Global, line: &[u8]) -> Result<String, AllocError>
    ensures { IfOk result (λ s. string_bytes s ≡ said.found_in line.now) }
{
    if line.is_empty() {
        return String::from_str(alloc, "nothing");
    }
    match str::from_utf8(line) {
        Ok(text) => shorten(alloc, text),
        Err(_) => String::from_str(alloc, "bytes that are not UTF-8"),
    }
}

/// Adds the number of the line at which the error is, and what was found there.
fn push_spot(alloc: Global, lines: &mut String, at: At, bytes: &[u8]) -> Result<(), AllocError>
    ensures { OnOk result
        (string_bytes lines.new ≡ string_bytes lines.old ++ said.spot_of at bytes.now) }
{
    let At::Line(number) = at else {
        return Ok(());
    };
    push_number(alloc, lines, "line", number)?;
    let found = found_in(alloc, line_at(without_mark(bytes), number))?;
    push_line(alloc, lines, "found", found.as_str())
}

/// Returns the explanation of an error in a diff: the lines `file`, `line`, `found`, `wanted` and `advice` of
/// [`explanation`](crate::explanation). `line` and `found` are there only if the error is at a line: its number, and
/// the beginning of the line, or `nothing` if it has no bytes. Returns `AllocError` if memory runs out.
pub fn diff_explanation(
    alloc: Global,
    fault: &MergeFault,
    source: &FaultSource<'_>,
) -> Result<String, AllocError>
    ensures { IfOk result (λ s. (wanted : List ℕ) × (advice : List ℕ)
        × (string_bytes s ≡ file_line source.now.file.now
        ++ (said.spot_of fault.now.at source.now.bytes.now
        ++ (line_of (codes "wanted") wanted ++ line_of (codes "advice") advice)))) }
{
    let mut lines = String::new(alloc);
    push_file(alloc, &mut lines, source.file)?;
    push_spot(alloc, &mut lines, fault.at, source.bytes)?;
    push_sentence(alloc, &mut lines, wanted_by(fault))?;
    push_line(alloc, &mut lines, "advice", advice_on(fault, Hint::None))?;
    Ok(lines)
}
