//! The arguments that the bytes of a file give.
ghost use Rattle.std.specs.Prelude.{◌≡◌, Ok, Err, IfOk, MatchResult, filter, map, string_bytes};
ghost use Rattle.std.specs.List.{list_any};
ghost use Rattle.std.specs.Str.Lines.{lines};
ghost use Rattle.sarif_arguments.specs.File as said;
ghost use Rattle.sarif_arguments.specs.Replaced.{IfDone};

use crate::file_fault::ArgumentFileFault;
use crate::limits::{MOST_FILE_BYTES, MOST_FILE_LINES};
use json_parts::without_mark;
use sarif_model::Refusal;
use std::alloc::{AllocError, Global};

/// Returns the arguments in a file with these bytes: one leading byte order mark is dropped, a line that is empty or
/// begins with `#` holds none, and every other line is one argument. A line ends with a line feed, which the
/// last may lack; one carriage return right before a line feed is dropped. Returns `TooLong`, `NotUtf8`, `HasNul`,
/// `TooManyLines` or `Nested`, the first of these that holds, if the bytes are not a file of arguments; `OutOfMemory` if
/// memory runs out.
pub fn arguments_in(alloc: Global, bytes: &[u8]) -> Result<Vec<String>, Refusal<ArgumentFileFault>>
    ensures { IfDone (λ all. all ≡ said.arguments_in bytes.now) result }
{
    match text_of(bytes) {
        Ok(text) => arguments_on(alloc, lines_of(alloc, text)?.as_slice()),
        Err(fault) => Err(Refusal::Fault(fault)),
    }
}

/// Returns the text of a file without its order mark, or why it has none.
fn text_of(bytes: &[u8]) -> Result<&str, ArgumentFileFault>
    ensures { MatchResult result
        (λ text. said.text_of bytes.now ≡ Ok text.now)
        (λ fault. said.text_of bytes.now ≡ Err fault) }
{
    if bytes.len() > MOST_FILE_BYTES {
        return Err(ArgumentFileFault::TooLong);
    }
    text_in(without_mark(bytes))
}

/// Returns bytes as text, or why they are none.
#[tactic(auto, using(crate::proofs::Texts::no_text, crate::proofs::Texts::nul_text, crate::proofs::Texts::whole_text))]
fn text_in(bytes: &[u8]) -> Result<&str, ArgumentFileFault>
    ensures { MatchResult result
        (λ text. said.text_in bytes.now ≡ Ok text.now)
        (λ fault. said.text_in bytes.now ≡ Err fault) }
{
    match str::from_utf8(bytes) {
        Ok(text) if !bytes.contains(&0) => Ok(text),
        Ok(_) => Err(ArgumentFileFault::HasNul),
        Err(_) => Err(ArgumentFileFault::NotUtf8),
    }
}

/// Returns the lines of a string.
fn lines_of(alloc: Global, text: &str) -> Result<Vec<&str>, AllocError>
    ensures { IfOk result (λ all. map (λ line. line.now) all.items ≡ lines text.now) }
{
    text.lines().collect(alloc)
}

/// Returns the arguments on these lines, or why they have none.
fn arguments_on(alloc: Global, lines: &[&str]) -> Result<Vec<String>, Refusal<ArgumentFileFault>>
    ensures { IfDone (λ all. all ≡ said.arguments_on (map (λ line. line.now) lines.now)) result }
{
    if lines.len() > MOST_FILE_LINES {
        return Err(Refusal::Fault(ArgumentFileFault::TooManyLines));
    }
    if have_nested(lines) {
        return Err(Refusal::Fault(ArgumentFileFault::Nested));
    }
    Ok(copies_of(alloc, lines)?)
}

/// Returns whether one of these lines begins with `@`.
fn have_nested(lines: &[&str]) -> bool
    ensures { result ≡ list_any said.is_nested (map (λ line. line.now) lines.now) }
{
    for line in lines {
        if is_nested(line) {
            return true;
        }
    }
    false
}

/// Returns those of these lines that are arguments.
fn copies_of(alloc: Global, lines: &[&str]) -> Result<Vec<String>, AllocError>
    ensures { IfOk result (λ words. map string_bytes words.items
        ≡ filter said.is_argument (map (λ line. line.now) lines.now)) }
{
    let mut words = Vec::new(alloc);
    for line in lines {
        if is_argument(line) {
            words.push(String::from_str(alloc, line)?)?;
        }
    }
    Ok(words)
}

/// Returns whether a line begins with `@`.
fn is_nested(line: &str) -> bool
    ensures { result ≡ said.is_nested line.now }
{
    match line.as_bytes() {
        [first, ..] => *first == b'@',
        [] => false,
    }
}

/// Returns whether a line is an argument: it is not empty and does not begin with `#`.
fn is_argument(line: &str) -> bool
    ensures { result ≡ said.is_argument line.now }
{
    match line.as_bytes() {
        [first, ..] => *first != b'#',
        [] => false,
    }
}
