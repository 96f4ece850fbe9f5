//! Submodules, symbolic links, and pointers to files that are kept elsewhere.
ghost use Rattle.std.specs.Prelude.{◌≡◌, ◌≤◌, length, position};
ghost use Rattle.std.specs.List.{position_or_len};
ghost use Rattle.sarif_diff.specs.Lines as lines;
ghost use Rattle.sarif_diff.specs.Words as said;

use crate::lines::{begins, ends, first_line};
use crate::words::is_section;

/// Returns whether the line of a mode says that the file is a symbolic link.
pub(crate) fn is_link(line: &[u8]) -> bool
    ensures { result ≡ said.is_link line.now }
{
    ends(line, b" 120000")
}

/// Returns whether the line of a mode says that the file is a submodule.
pub(crate) fn is_submodule(line: &[u8]) -> bool
    ensures { result ≡ said.is_submodule line.now }
{
    ends(line, b" 160000")
}

/// Returns where the first byte is that is not a hexadecimal digit.
fn no_digit_at(text: &[u8]) -> Option<usize>
    ensures { result ≡ position said.is_no_digit text.now }
{
    text.iter().position(|b| !b.is_ascii_hexdigit())
}

/// Returns how many hexadecimal digits these bytes begin with.
#[tactic(auto, using(crate::proofs::PiecesMore::place_is, crate::proofs::PiecesMore::place_within))]
fn digits_in(text: &[u8]) -> usize
    ensures is { result ≡ said.digits_in text.now }
    ensures within { result ≤ length text.now }
{
    no_digit_at(text).unwrap_or(text.len())
}

/// Returns whether an added line is a pointer of Git LFS to a file that is kept elsewhere.
pub(crate) fn is_pointer(text: &[u8]) -> bool
    ensures { result ≡ said.is_pointer text.now }
{
    begins(text, b"oid sha256:") && text.len() == 75 && digits_in(&text[11..]) == 64
}

/// Returns whether nothing follows the number of a commit, or that files changed after it.
fn ends_commit(rest: &[u8]) -> bool
    ensures { result ≡ said.ends_commit rest.now }
{
    rest.is_empty() || (begins(rest, b"-dirty") && rest.len() == 6)
}

/// Returns whether these bytes are the number of a commit.
fn is_number_of_commit(text: &[u8]) -> bool
    ensures { result ≡ said.is_number_of_commit text.now }
{
    let digits = digits_in(text);
    40 <= digits && digits <= 64 && ends_commit(&text[digits..])
}

/// Returns whether an added line is the commit of a submodule.
pub(crate) fn is_commit(text: &[u8]) -> bool
    ensures { result ≡ said.is_commit text.now }
{
    begins(text, b"Subproject commit ") && is_number_of_commit(&text[18..])
}

/// Returns whether these bytes begin with a hexadecimal digit.
fn begins_digits(text: &[u8]) -> bool
    ensures { result ≡ said.begins_digits text.now }
{
    0 < digits_in(text)
}

/// Returns what follows two or three dots.
fn after_dots(text: &[u8]) -> &[u8]
    requires { 2 ≤ length text.now }
    ensures { result.now ≡ said.after_dots text.now }
{
    if begins(text, b"...") {
        return &text[3..];
    }
    &text[2..]
}

/// Returns whether these bytes begin with two or three dots and a hexadecimal digit.
fn begins_dots(text: &[u8]) -> bool
    ensures { result ≡ said.begins_dots text.now }
{
    begins(text, b"..") && begins_digits(after_dots(text))
}

/// Returns whether these bytes begin with two commits and the dots between them.
fn begins_commits(text: &[u8]) -> bool
    ensures { result ≡ said.begins_commits text.now }
{
    begins_digits(text) && begins_dots(&text[digits_in(text)..])
}

/// Returns whether two commits follow a space somewhere in these bytes.
fn has_commits(text: &[u8]) -> bool
    ensures { result ≡ said.has_commits text.now }
{
    for i in 0..text.len() {
        if text[i] == b' ' && begins_commits(&text[i + 1..]) {
            return true;
        }
    }
    false
}

/// Returns whether a line of text is about the new commit of a submodule.
fn is_log(line: &[u8]) -> bool
    ensures { result ≡ said.is_log line.now }
{
    begins(line, b"Submodule ")
        && (ends(line, b" contains modified content") || has_commits(&line[10..]))
}

/// Returns whether it says that its changes follow, or that it was removed. `next` is the next line.
fn is_told(line: &[u8], next: &[u8]) -> bool
    ensures { result ≡ said.is_told line.now next.now }
{
    is_section(next) || begins(next, b"Submodule ") || ends(line, b"(submodule deleted)")
}

/// Returns whether a line of text changes files of a submodule that it doesn't name. `rest` is what follows the line.
pub(crate) fn hides_files(line: &[u8], rest: &[u8]) -> bool
    ensures { result ≡ said.hides_files line.now (lines.lines_of rest.now) }
{
    is_log(line) && (ends(line, b"(commits not present)") || !is_told(line, first_line(rest)))
}
