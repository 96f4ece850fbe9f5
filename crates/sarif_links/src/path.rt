//! The paths that addresses may have.
ghost use Rattle.std.specs.Prelude.{◌≡◌, ◌++◌, ◌==◌, IfOk, OnOk, map, string_bytes};
ghost use Rattle.std.specs.List.{list_all, list_any};
ghost use Rattle.sarif_links.specs.Template as said;

use percent_encoding::percent_encode_byte;
use std::alloc::{AllocError, Global};

/// Whether a byte of a path is in an address as it is: a letter, a digit, or one of `-._~/`.
fn is_plain(byte: u8) -> bool
    ensures { result ≡ said.is_plain byte }
{
    matches!(
        byte,
        b'A'..=b'Z' | b'a'..=b'z' | b'0'..=b'9' | b'-' | b'.' | b'_' | b'~' | b'/'
    )
}

fn are_plain(bytes: &[u8]) -> bool
    ensures { result ≡ list_all said.is_plain bytes.now }
{
    bytes.iter().all(|byte| is_plain(*byte))
}

/// Adds a byte of a path.
fn push_byte(to: &mut String, byte: u8) -> Result<(), AllocError>
    ensures { OnOk result (string_bytes to.new ≡ string_bytes to.old ++ said.encoded_byte byte) }
{
    if is_plain(byte) {
        to.push(byte as char)?;
    } else {
        to.push_str(percent_encode_byte(byte))?;
    }
    Ok(())
}

/// Adds each byte of a path.
fn push_each(text: &mut String, path: &str) -> Result<(), AllocError>
    ensures { OnOk result (string_bytes text.new ≡ string_bytes text.old ++ said.encoded path.now) }
{
    for byte in path.as_bytes() {
        push_byte(text, *byte)?;
    }
    Ok(())
}

/// Adds a path, encoded.
#[tactic(auto, using(crate::proofs::Encoded::stays))]
pub(crate) fn push_encoded(text: &mut String, path: &str) -> Result<(), AllocError>
    ensures { OnOk result (string_bytes text.new ≡ string_bytes text.old ++ said.encoded path.now) }
{
    if !are_plain(path.as_bytes()) {
        return push_each(text, path);
    }
    text.push_str(path)?;
    Ok(())
}

/// Whether a segment names a folder by its place, or nothing.
fn is_relative(segment: &str) -> bool
    ensures { result ≡ said.is_relative segment.now }
{
    segment == "" || segment == "." || segment == ".."
}

fn is_any_relative(segments: &[&str]) -> bool
    ensures { result ≡ list_any said.is_relative (map (λ segment. segment.now) segments.now) }
{
    for segment in segments {
        if is_relative(segment) {
            return true;
        }
    }
    false
}

fn has_colon(segment: &str) -> bool
    ensures { result ≡ list_any (λ byte. byte == 58) segment.now }
{
    segment.as_bytes().iter().any(|byte| *byte == b':')
}

/// Whether a colon is in the first of these segments.
fn has_scheme(segments: &[&str]) -> bool
    ensures { result ≡ said.has_scheme (map (λ segment. segment.now) segments.now) }
{
    match segments {
        [] => false,
        [first, ..] => has_colon(first),
    }
}

/// What is between the slashes of a path.
fn segments_of<'a>(alloc: Global, path: &'a str) -> Result<Vec<&'a str>, AllocError>
    ensures { IfOk result
        (λ segments. map (λ segment. segment.now) segments.items ≡ said.segments_of path.now) }
{
    path.split('/').collect(alloc)
}

/// Whether each segment of a path is a name, and the first can't be a scheme or a drive.
pub(crate) fn is_linkable(alloc: Global, path: &str) -> Result<bool, AllocError>
    ensures { IfOk result (λ is. is ≡ said.is_linkable path.now) }
{
    let segments = segments_of(alloc, path)?;
    let segments = segments.as_slice();
    Ok(!is_any_relative(segments) && !has_scheme(segments))
}
