//! The names of files in the lines of a section.
ghost use Rattle.std.specs.Prelude.{◌≡◌, ◌≤◌, IfOk, Ok, Err, length};
ghost use Rattle.std.specs.Bool.{OnTrue};
ghost use Rattle.sarif_model.specs.Internal.Refusal.{IfFault};
ghost use Rattle.sarif_diff.specs.Name as said;

use crate::fault::LineFault;
use crate::lines::begins;
use crate::name::Name;
use crate::pieces::piece_length;
use crate::quoted::unquote;
use sarif_model::Refusal;
use std::alloc::Global;

/// A name that is empty or badly quoted.
const BAD: Refusal<LineFault> = Refusal::Fault(LineFault::BadHeader);

/// Returns whether these bytes begin with a quote.
fn is_quoted(text: &[u8]) -> bool
    ensures is { result ≡ said.is_quoted text.now }
    ensures some { OnTrue result (1 ≤ length text.now) }
{
    begins(text, b"\"")
}

/// Returns whether a name begins with a prefix that git puts there.
fn has_prefix(name: &[u8]) -> bool
    ensures is { result ≡ said.has_prefix name.now }
    ensures two { OnTrue result (2 ≤ length name.now) }
{
    match name {
        [letter, slash, ..] => {
            matches!(
                *letter,
                b'a' | b'b' | b'c' | b'i' | b'o' | b'w' | b'1' | b'2'
            ) && *slash == b'/'
        }
        _ => false,
    }
}

/// Returns a name without git's prefix.
fn bare(name: &[u8]) -> &[u8]
    ensures { result.now ≡ said.bare name.now }
{
    if has_prefix(name) {
        return &name[2..];
    }
    name
}

/// Returns a name that is not empty.
fn some_name(name: Name) -> Result<Name, LineFault>
    ensures { result ≡ said.some_name name }
{
    if name.as_slice().is_empty() {
        return Err(LineFault::BadHeader);
    }
    Ok(name)
}

/// Returns the name that is all of these bytes.
fn whole_name(alloc: Global, text: &[u8]) -> Result<Name, Refusal<LineFault>>
    ensures ok { IfOk result (λ name. said.whole_name text.now ≡ Ok name) }
    ensures err { IfFault result (λ fault. said.whole_name text.now ≡ Err fault) }
{
    if is_quoted(text) {
        let (name, rest) = unquote(alloc, &text[1..])?;
        if !rest.is_empty() {
            return Err(BAD);
        }
        return Ok(name);
    }
    Ok(Name::copy_of(alloc, text)?)
}

/// Returns the name of a line on a rename or a copy.
pub(crate) fn moved_name(alloc: Global, text: &[u8]) -> Result<Name, Refusal<LineFault>>
    ensures ok { IfOk result (λ name. said.moved_name text.now ≡ Ok name) }
    ensures err { IfFault result (λ fault. said.moved_name text.now ≡ Err fault) }
{
    let name = whole_name(alloc, text)?;
    Ok(some_name(name)?)
}

/// Returns what comes before the first tab.
fn before_tab(text: &[u8]) -> &[u8]
    ensures { result.now ≡ said.before_tab text.now }
{
    &text[..piece_length(text, b'\t')]
}

/// Returns the name in a line `--- ` or `+++ `.
fn tabbed_name(alloc: Global, text: &[u8]) -> Result<Name, Refusal<LineFault>>
    ensures ok { IfOk result (λ name. said.tabbed_name text.now ≡ Ok name) }
    ensures err { IfFault result (λ fault. said.tabbed_name text.now ≡ Err fault) }
{
    if is_quoted(text) {
        let (name, rest) = unquote(alloc, &text[1..])?;
        if rest.is_empty() || begins(rest, b"\t") {
            return Ok(name);
        }
        return Err(BAD);
    }
    Ok(Name::copy_of(alloc, before_tab(text))?)
}

/// Returns whether a name says that there is no file.
fn is_null(name: &[u8]) -> bool
    ensures { result ≡ said.is_null name.now }
{
    name == b"/dev/null".as_slice()
}

/// Returns the file of a line `--- ` or `+++ `, or none.
pub(crate) fn file_of(alloc: Global, text: &[u8]) -> Result<Option<Name>, Refusal<LineFault>>
    ensures ok { IfOk result (λ file. said.file_of text.now ≡ Ok file) }
    ensures err { IfFault result (λ fault. said.file_of text.now ≡ Err fault) }
{
    let name = tabbed_name(alloc, text)?;
    if is_null(name.as_slice()) {
        return Ok(None);
    }
    let file = Name::copy_of(alloc, bare(name.as_slice()))?;
    Ok(Some(some_name(file)?))
}

/// Returns the file that both names are without their prefixes, if it is one.
fn one_file(alloc: Global, old: &[u8], new: &[u8]) -> Result<Option<Name>, Refusal<LineFault>>
    ensures ok { IfOk result (λ file. said.one_file old.now new.now ≡ Ok file) }
    ensures err { IfFault result (λ fault. said.one_file old.now new.now ≡ Err fault) }
{
    let old = bare(old);
    let new = bare(new);
    if old.is_empty() || new.is_empty() {
        return Err(BAD);
    }
    if old != new {
        return Ok(None);
    }
    Ok(Some(Name::copy_of(alloc, new)?))
}

/// Returns the file of two names of one length with a space between them.
fn halves(alloc: Global, text: &[u8]) -> Result<Option<Name>, Refusal<LineFault>>
    ensures ok { IfOk result (λ file. said.halves text.now ≡ Ok file) }
    ensures err { IfFault result (λ fault. said.halves text.now ≡ Err fault) }
{
    let half = text.len() / 2;
    if text.len() == 2 * half + 1 && text[half] == b' ' {
        return one_file(alloc, &text[..half], &text[half + 1..]);
    }
    Ok(None)
}

/// Returns the file of a quoted name and what follows it: a space and a second name.
fn after_quoted(alloc: Global, old: &[u8], rest: &[u8]) -> Result<Option<Name>, Refusal<LineFault>>
    ensures ok { IfOk result (λ file. said.after_quoted (old.now, rest.now) ≡ Ok file) }
    ensures err { IfFault result (λ fault. said.after_quoted (old.now, rest.now) ≡ Err fault) }
{
    if !begins(rest, b" ") {
        return Err(BAD);
    }
    let new = whole_name(alloc, &rest[1..])?;
    one_file(alloc, old, new.as_slice())
}

/// Returns the file of a line `diff --git `, if its two names are one file.
pub(crate) fn git_file(alloc: Global, text: &[u8]) -> Result<Option<Name>, Refusal<LineFault>>
    ensures ok { IfOk result (λ file. said.git_file text.now ≡ Ok file) }
    ensures err { IfFault result (λ fault. said.git_file text.now ≡ Err fault) }
{
    if !is_quoted(text) {
        return halves(alloc, text);
    }
    let (old, rest) = unquote(alloc, &text[1..])?;
    after_quoted(alloc, old.as_slice(), rest)
}
