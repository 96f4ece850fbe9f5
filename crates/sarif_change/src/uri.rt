//! The paths that a URI may represent.
ghost use Rattle.std.specs.Prelude.{◌≡◌, ◌≤◌, ◌<◌, ◌++◌, ◌∷◌, [], true, IfOk, OnOk, length, map, option_map, is_some, position, if◌then◌else◌};
ghost use Rattle.std.specs.List.{list_any, position_or_len};
ghost use Rattle.std.specs.Option.{option_to_list};
ghost use Rattle.std.specs.Char.{is_ascii_hexdigit};
ghost use Rattle.sarif_change.specs.Uri as said;
ghost use Rattle.sarif_change.specs.Parts.{parts_of};
ghost use Rattle.sarif_change.specs.Internal.Sought.{seen, keyed, rooted_keys, all_readings, four_times, is_special, plain_path};

use crate::parts::key_of;
use sarif_model::Text;
use std::alloc::{AllocError, Global};

/// A path that a URI may represent.
#[derive(Drop)]
pub struct SoughtPath {
    /// Whether it is absolute.
    pub absolute: bool,
    /// The key of its parts.
    pub key: Vec<u8>,
}

/// Returns where the first `?` or `#` is.
fn cut_at(uri: &[u8]) -> Option<usize>
    ensures { result ≡ position said.is_cut uri.now }
{
    uri.iter().position(|b| *b == b'?' || *b == b'#')
}

/// Returns how many bytes come before the first `?` or `#`, or the length if there is none.
#[tactic(auto, using(sarif_diff::proofs::PiecesMore::place_is, sarif_diff::proofs::PiecesMore::place_within))]
fn cut_length(uri: &[u8]) -> usize
    ensures is { result ≡ position_or_len said.is_cut uri.now }
    ensures within { result ≤ length uri.now }
{
    cut_at(uri).unwrap_or(uri.len())
}

/// Returns what comes before the first `?` or `#`.
fn before_cut(uri: &[u8]) -> &[u8]
    ensures { result.now ≡ said.before_cut uri.now }
{
    &uri[..cut_length(uri)]
}

/// Returns the value of a hexadecimal digit.
fn hex_value(digit: u8) -> u8
    requires { is_ascii_hexdigit digit ≡ true }
    ensures is { result ≡ said.hex_value digit }
    ensures small { result < 16 }
{
    if digit <= b'9' {
        digit - 48
    } else if digit <= b'F' {
        digit - 55
    } else {
        digit - 87
    }
}

/// Returns the byte that a `%` and the two hexadecimal digits after it represent, if such digits follow.
fn hex_byte(rest: &[u8]) -> Option<u8>
    ensures { result ≡ said.hex_byte rest.now }
{
    match rest {
        [first, second, ..] => {
            if first.is_ascii_hexdigit() && second.is_ascii_hexdigit() {
                Some(hex_value(*first) * 16 + hex_value(*second))
            } else {
                None
            }
        }
        _ => None,
    }
}

/// Returns the byte that this byte and the two digits after it represent, if this byte is `%` and they follow.
fn escaped(byte: u8, rest: &[u8]) -> Option<u8>
    ensures { result ≡ said.escaped byte rest.now }
{
    if byte == b'%' { hex_byte(rest) } else { None }
}

/// Returns how many bytes belong to the one before them.
fn digits_after(escaped: Option<u8>) -> usize
    ensures { result ≡ said.digits_after escaped }
{
    if escaped.is_some() { 2 } else { 0 }
}

/// Returns a URI with each `%` and two hexadecimal digits after it as that byte.
#[tactic(auto, using(crate::proofs::UriMore::skips, crate::proofs::UriMore::goes, crate::proofs::UriMore::at_end))]
fn decode(alloc: Global, uri: &[u8]) -> Result<Vec<u8>, AllocError>
    ensures { IfOk result (λ bytes. bytes.items ≡ said.decoded uri.now) }
{
    let mut bytes: Vec<u8> = Vec::new(alloc);
    let mut skipped: usize = 0;
    for at in 0..uri.len() {
        if skipped > 0 {
            skipped -= 1;
            continue;
        }
        let escape = escaped(uri[at], &uri[at + 1..]);
        bytes.push(escape.unwrap_or(uri[at]))?;
        skipped = digits_after(escape);
    }
    Ok(bytes)
}

/// Returns whether a byte may be in a scheme.
fn is_in_scheme(byte: u8) -> bool
    ensures { result ≡ said.is_in_scheme byte }
{
    byte.is_ascii_alphanumeric() || byte == b'+' || byte == b'-' || byte == b'.'
}

/// Returns whether a scheme goes on with these bytes and ends with `:`.
fn ends_scheme(bytes: &[u8]) -> bool
    ensures { result ≡ said.ends_scheme bytes.now }
{
    for byte in bytes {
        if *byte == b':' {
            return true;
        }
        if !is_in_scheme(*byte) {
            return false;
        }
    }
    false
}

/// Returns whether a reading is absolute.
fn is_absolute(reading: &[u8]) -> bool
    ensures { result ≡ said.is_absolute reading.now }
{
    match reading {
        [first, rest @ ..] => {
            *first == b'/' || *first == b'\\' || (first.is_ascii_alphabetic() && ends_scheme(rest))
        }
        [] => false,
    }
}

/// Returns what follows the first of these roots that a reading begins with.
fn after_root<'r>(roots: &[Text], reading: &'r [u8]) -> Option<&'r [u8]>
    ensures { option_map (λ rest. rest.now) result ≡ said.after_root roots.now reading.now }
{
    for root in roots {
        let root = root.as_str().as_bytes();
        if reading.starts_with(root) {
            return Some(&reading[root.len()..]);
        }
    }
    None
}

/// Adds a path of a reading, as it is.
fn push_path(
    alloc: Global,
    paths: &mut Vec<SoughtPath>,
    absolute: bool,
    path: &[u8],
) -> Result<(), AllocError>
    ensures { OnOk result (map seen paths.new.items
        ≡ map seen paths.old.items ++ keyed (absolute, parts_of path.now) ∷ []) }
{
    let key = key_of(alloc, path)?;
    paths.push(SoughtPath { absolute, key })?;
    Ok(())
}

/// The readings of a URI.
#[derive(Drop)]
struct UriReadings<'u> {
    /// All of it.
    whole: &'u [u8],
    /// Up to the first `?` or `#`.
    cut: &'u [u8],
    /// All of it, decoded.
    decoded: Vec<u8>,
    /// Up to the first `?` or `#`, decoded.
    cut_decoded: Vec<u8>,
}

/// Adds what follows a root in a reading, if it begins with one, as a relative path.
fn push_rooted(
    alloc: Global,
    paths: &mut Vec<SoughtPath>,
    roots: &[Text],
    reading: &[u8],
) -> Result<(), AllocError>
    ensures { OnOk result (map seen paths.new.items ≡ map seen paths.old.items
        ++ rooted_keys (option_to_list (said.after_root roots.now reading.now))) }
{
    if let Some(rest) = after_root(roots, reading) {
        push_path(alloc, paths, false, rest)?;
    }
    Ok(())
}

/// Adds a reading as a path.
fn push_own(alloc: Global, paths: &mut Vec<SoughtPath>, reading: &[u8]) -> Result<(), AllocError>
    ensures { OnOk result (map seen paths.new.items
        ≡ map seen paths.old.items ++ keyed (said.own_path reading.now) ∷ []) }
{
    push_path(alloc, paths, is_absolute(reading), reading)
}

/// Returns what follows a root in the readings that begin with one.
#[tactic(auto, using(crate::proofs::PathsMore::four_rooted))]
fn rooted_paths(
    alloc: Global,
    roots: &[Text],
    readings: &UriReadings<'_>,
) -> Result<Vec<SoughtPath>, AllocError>
    ensures { IfOk result (λ paths. map seen paths.items
        ≡ rooted_keys (said.after_roots roots.now (all_readings readings.now))) }
{
    let mut paths = Vec::new(alloc);
    push_rooted(alloc, &mut paths, roots, readings.whole)?;
    push_rooted(alloc, &mut paths, roots, readings.cut)?;
    push_rooted(alloc, &mut paths, roots, readings.decoded.as_slice())?;
    push_rooted(alloc, &mut paths, roots, readings.cut_decoded.as_slice())?;
    Ok(paths)
}

/// Returns the readings as paths.
fn own_paths(alloc: Global, readings: &UriReadings<'_>) -> Result<Vec<SoughtPath>, AllocError>
    ensures { IfOk result (λ paths. map seen paths.items
        ≡ map keyed (map said.own_path (all_readings readings.now))) }
{
    let mut paths = Vec::new(alloc);
    push_own(alloc, &mut paths, readings.whole)?;
    push_own(alloc, &mut paths, readings.cut)?;
    push_own(alloc, &mut paths, readings.decoded.as_slice())?;
    push_own(alloc, &mut paths, readings.cut_decoded.as_slice())?;
    Ok(paths)
}

/// Returns the readings of a URI.
fn readings_of<'u>(alloc: Global, uri: &'u [u8]) -> Result<UriReadings<'u>, AllocError>
    ensures { IfOk result (λ readings. all_readings readings ≡ said.readings_of uri.now) }
{
    let cut = before_cut(uri);
    Ok(UriReadings {
        whole: uri,
        cut,
        decoded: decode(alloc, uri)?,
        cut_decoded: decode(alloc, cut)?,
    })
}

/// Returns the paths that a URI may represent, with these roots.
pub(crate) fn paths_of(
    alloc: Global,
    roots: &[Text],
    uri: &[u8],
) -> Result<Vec<SoughtPath>, AllocError>
    ensures { IfOk result
        (λ paths. map seen paths.items ≡ map keyed (said.paths_of roots.now uri.now)) }
{
    let readings = readings_of(alloc, uri)?;
    let paths = rooted_paths(alloc, roots, &readings)?;
    if !paths.is_empty() {
        return Ok(paths);
    }
    let own = own_paths(alloc, &readings)?;
    Ok(own)
}

/// Returns whether one of the bytes is `%`, `?` or `#`.
fn has_special(uri: &[u8]) -> bool
    ensures { result ≡ list_any is_special uri.now }
{
    uri.iter().any(|b| *b == b'%' || *b == b'?' || *b == b'#')
}

/// Returns whether a URI has no `%`, `?` and `#`. Then all its readings are the URI itself.
#[tactic(auto, using(crate::proofs::PlainUri::one_reading))]
pub(crate) fn is_plain(uri: &[u8]) -> bool
    ensures { result ≡ true → said.readings_of uri.now ≡ four_times uri.now }
{
    !has_special(uri)
}

/// Returns the path that a URI without `%`, `?` and `#` represents, with these roots.
pub(crate) fn plain_path(
    alloc: Global,
    roots: &[Text],
    uri: &[u8],
) -> Result<SoughtPath, AllocError>
    ensures { IfOk result (λ path. seen path ≡ keyed (plain_path roots.now uri.now)) }
{
    match after_root(roots, uri) {
        Some(rest) => {
            let key = key_of(alloc, rest)?;
            Ok(SoughtPath {
                absolute: false,
                key,
            })
        }
        None => {
            let key = key_of(alloc, uri)?;
            Ok(SoughtPath {
                absolute: is_absolute(uri),
                key,
            })
        }
    }
}
