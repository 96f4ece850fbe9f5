//! A URI read as a path.
ghost use Rattle.std.specs.Prelude.{◌≡◌, ◌++◌, IfOk, IfSome, IfNone, true, false, chars, drop};
ghost use Rattle.std.specs.Prelude.{length, nat_eq, option_map, if◌then◌else◌};
ghost use Rattle.std.specs.List.{starts_with};
ghost use Rattle.std.specs.Cow.{cow_str_bytes};
ghost use Rattle.std.specs.Str.{is_utf8};
ghost use Rattle.percent_encoding.specs.Percent.{percent_decode as decoded_bytes};
ghost use Rattle.sarif_findings.specs.PathOf as said;

use crate::first_char::begins_with;
use percent_encoding::{DecodeError, percent_decode};
use sarif_model::Text;
use std::alloc::{AllocError, Global};
use std::borrow::CowStr;

/// Returns whether the string starts with two hexadecimal digits.
fn begins_with_digits(bytes: &[u8]) -> bool
    ensures { result ≡ said.begins_with_digits bytes.now }
{
    match bytes {
        [high, low, ..] => high.is_ascii_hexdigit() && low.is_ascii_hexdigit(),
        _ => false,
    }
}

/// Whether each `%` has two hexadecimal digits after it.
fn is_escaped(uri: &[u8]) -> bool
    ensures { result ≡ said.is_escaped uri.now }
{
    for i in 0..uri.len() {
        if uri[i] == b'%' && !begins_with_digits(&uri[i + 1..]) {
            return false;
        }
    }
    true
}

/// The decoded URI, if the decoded bytes are UTF-8.
fn decode(alloc: Global, uri: &str) -> Result<Option<CowStr<'_, Global>>, AllocError>
    ensures some { IfOk result (λ o. IfSome o (λ s. (cow_str_bytes s ≡ decoded_bytes uri.now)
        × (is_utf8 (decoded_bytes uri.now) ≡ true))) }
    ensures none { IfOk result (λ o. IfNone o (is_utf8 (decoded_bytes uri.now) ≡ false)) }
{
    match percent_decode(uri.as_bytes()).decode_utf8(alloc) {
        Ok(text) => Ok(Some(text)),
        Err(DecodeError::OutOfMemory) => Err(AllocError),
        Err(DecodeError::Utf8(_)) => Ok(None),
    }
}

/// The path without this root, if it begins with it.
fn strip_root<'a>(root: &str, path: &'a str) -> Option<&'a str>
    ensures { option_map (λ s. s.now) result ≡ (if starts_with nat_eq path.now root.now
        then Some (drop (length root.now) path.now) else None) }
{
    path.strip_prefix(root)
}

/// The rest of a path that begins with the root. An empty root is ignored.
fn after_root<'a>(root: &str, path: &'a str) -> Option<&'a str>
    ensures { option_map (λ s. s.now) result ≡ said.after_root root.now path.now }
{
    if root.is_empty() {
        return None;
    }
    strip_root(root, path)
}

/// The path without the first of these roots that it begins with.
fn without_root<'a>(roots: &[Text], path: &'a str) -> &'a str
    ensures { result.now ≡ said.without_root roots.now path.now }
{
    for root in roots {
        if let Some(rest) = after_root(root.as_str(), path) {
            return rest;
        }
    }
    path
}

/// Returns whether this is the `.` of a `./`.
fn begins_here(c: char, rest: &str) -> bool
    ensures { result ≡ said.begins_here c (chars rest.now) }
{
    c == '.' && begins_with(rest, '/')
}

/// Returns whether a character that follows a `./` is removed with it: a slash, or the `.` of one more `./`.
fn is_removed(c: char, rest: &str) -> bool
    ensures { result ≡ said.is_removed c (chars rest.now) }
{
    c == '/' || begins_here(c, rest)
}

/// What follows a `./`, without the slashes and the further `./` that it begins with.
fn after_here(path: &str) -> &str
    ensures { chars result.now ≡ said.after_here (chars path.now) }
{
    let mut left = path;
    let mut rest = path.chars();
    while let Some(c) = rest.next() {
        if !is_removed(c, rest.as_str()) {
            return left;
        }
        left = rest.as_str();
    }
    left
}

/// The path without the `./` that it begins with, and without the slashes that follow them.
fn without_here(path: &str) -> &str
    ensures { chars result.now ≡ said.without_here (chars path.now) }
{
    let mut rest = path.chars();
    match rest.next() {
        Some(c) => {
            if begins_here(c, rest.as_str()) {
                after_here(rest.as_str())
            } else {
                path
            }
        }
        None => path,
    }
}

/// The decoded URI if all escapes are complete and the decoded bytes are UTF-8; otherwise the URI unchanged.
pub(crate) fn decode_or_keep(alloc: Global, uri: &str) -> Result<CowStr<'_, Global>, AllocError>
    ensures { IfOk result (λ s. cow_str_bytes s ≡ said.decoded uri.now) }
{
    if is_escaped(uri.as_bytes()) {
        if let Some(text) = decode(alloc, uri)? {
            return Ok(text);
        }
    }
    Ok(CowStr::Borrowed(uri))
}

/// A path without its root and without the `./` that it begins with then.
pub(crate) fn bare_path<'a>(roots: &[Text], path: &'a str) -> &'a str
    ensures { chars result.now
        ≡ said.without_here (chars (said.without_root roots.now path.now)) }
{
    without_here(without_root(roots, path))
}
