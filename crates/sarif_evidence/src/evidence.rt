//! Whether there is evidence that two results are the same. A member is filled if its value isn't the empty string.
ghost use Rattle.std.specs.Prelude.{◌≡◌, ◌&&◌, ◌==◌, not, bytes_eq, length, option_map};
ghost use Rattle.sarif_evidence.specs.EqualParts.{is_empty, pairs_eq};
ghost use Rattle.sarif_evidence.specs.Internal.InStep.{after_first_member, after_first_byte};
ghost use Rattle.sarif_evidence.specs.Seen.{filled, packed, packed_snippet, seen};
ghost use Rattle.sarif_evidence.specs.Evidence.{are_same_members, has_evidence, has_no_members};
ghost use Rattle.sarif_evidence.specs.Evidence.{has_other_evidence, is_same_guid};

use crate::seeing::is_filled;
use crate::sharing::share_member;
use sarif_model::{Record, Text, is_white_space};

/// Whether there is evidence that two results are the same: their snippets decide, if both have one; otherwise a GUID,
/// a fingerprint or all partial fingerprints are the same, or neither has a fingerprint of either type.
pub fn has_evidence(current: &Record, partner: &Record) -> bool
    ensures { result ≡ has_evidence (seen current.now) (seen partner.now) }
{
    match filled_snippet(current) {
        Some(snippet) => match filled_snippet(partner) {
            Some(other) => are_same_packed(snippet, other),
            None => has_other_evidence(current, partner),
        },
        None => has_other_evidence(current, partner),
    }
}

/// The snippet of a result, unless it is white space alone.
fn filled_snippet(finding: &Record) -> Option<&str>
    ensures { option_map (λ text. packed text.now) result ≡ packed_snippet finding.now.snippet }
{
    let snippet = finding.snippet.as_ref()?;
    if is_white_alone(snippet.as_str().as_bytes()) {
        return None;
    }
    Some(snippet.as_str())
}

/// Whether a GUID, a fingerprint or all partial fingerprints are the same, or neither has a fingerprint.
fn has_other_evidence(current: &Record, partner: &Record) -> bool
    ensures { result ≡ has_other_evidence (seen current.now) (seen partner.now) }
{
    is_same_guid(current.guid, partner.guid)
        || share_member(current.full.as_slice(), partner.full.as_slice())
        || are_same_members(current.partial.as_slice(), partner.partial.as_slice())
        || (has_no_members(current) && has_no_members(partner))
}

/// Whether both have a GUID, and the same one.
fn is_same_guid(guid: Option<u128>, other: Option<u128>) -> bool
    ensures { result ≡ is_same_guid guid other }
{
    match guid {
        Some(guid) => match other {
            Some(other) => guid == other,
            None => false,
        },
        None => false,
    }
}

/// Whether two members have the same name and the same value.
pub(crate) fn is_same(other: &(Text, Text), member: &(Text, Text)) -> bool
    ensures { result ≡ (bytes_eq other.now.0 member.now.0 && bytes_eq other.now.1 member.now.1) }
{
    other.0 == member.0 && other.1 == member.1
}

/// Whether both have the same filled members, at least one.
fn are_same_members(members: &[(Text, Text)], others: &[(Text, Text)]) -> bool
    ensures { result ≡ are_same_members (filled members.now) (filled others.now) }
{
    has_filled(members) && are_alike(members, others)
}

/// Whether both have the same filled members, in the same order.
fn are_alike(members: &[(Text, Text)], others: &[(Text, Text)]) -> bool
    ensures { result ≡ pairs_eq (filled members.now) (filled others.now) }
{
    let mut rest = others;
    for member in members {
        if is_filled(member) {
            match after_first_member(rest, member) {
                Some(more) => rest = more,
                None => return false,
            }
        }
    }
    !has_filled(rest)
}

/// What follows the first filled member, if it is this one.
fn after_first_member<'a>(
    members: &'a [(Text, Text)],
    first: &(Text, Text),
) -> Option<&'a [(Text, Text)]>
    ensures { option_map (λ rest. filled rest.now) result
        ≡ after_first_member first.now (filled members.now) }
{
    for (number, member) in members.iter().enumerate() {
        if is_filled(member) {
            return if is_same(first, member) {
                Some(&members[number + 1..])
            } else {
                None
            };
        }
    }
    None
}

/// Whether a member is filled.
fn has_filled(members: &[(Text, Text)]) -> bool
    ensures { result ≡ not (is_empty (filled members.now)) }
{
    for member in members {
        if is_filled(member) {
            return true;
        }
    }
    false
}

/// Whether a result has neither fingerprints nor partial fingerprints that are filled.
fn has_no_members(finding: &Record) -> bool
    ensures { result ≡ has_no_members (seen finding.now) }
{
    !has_filled(finding.full.as_slice()) && !has_filled(finding.partial.as_slice())
}

/// Whether two strings are the same except for white space.
pub fn are_same_packed(text: &str, other: &str) -> bool
    ensures { result ≡ bytes_eq (packed text.now) (packed other.now) }
{
    let mut rest = other.as_bytes();
    for byte in text.as_bytes() {
        if !is_white_space(*byte) {
            match after_first_byte(rest, *byte) {
                Some(more) => rest = more,
                None => return false,
            }
        }
    }
    is_white_alone(rest)
}

/// What follows the first byte that isn't white space, if it is this one.
fn after_first_byte(bytes: &[u8], first: u8) -> Option<&[u8]>
    ensures { option_map (λ rest. packed rest.now) result
        ≡ after_first_byte first (packed bytes.now) }
{
    for (number, byte) in bytes.iter().enumerate() {
        if !is_white_space(*byte) {
            return if *byte == first {
                Some(&bytes[number + 1..])
            } else {
                None
            };
        }
    }
    None
}

/// Whether there is nothing but white space.
fn is_white_alone(bytes: &[u8]) -> bool
    ensures { result ≡ (length (packed bytes.now) == 0) }
{
    for byte in bytes {
        if !is_white_space(*byte) {
            return false;
        }
    }
    true
}
