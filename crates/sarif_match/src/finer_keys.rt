//! The key of a result at each tier that only version 3 has.
ghost use Rattle.std.specs.Prelude.{◌≡◌};
ghost use Rattle.std.specs.Option.{option_map};
ghost use Rattle.sarif_match.specs.Key.{key_of};
ghost use Rattle.sarif_match.specs.KeyParts.{parts_of};
ghost use Rattle.sarif_match.specs.declared.tier.Tier.TheVariants.{FingerprintHere};
ghost use Rattle.sarif_match.specs.declared.tier.Tier.TheVariants.{Same, SameText};
ghost use Rattle.sarif_match.specs.declared.tier.Tier.TheVariants.{PlaceText, PlaceLeft};

use crate::group::group_of;
use crate::tier_key::Key;
use sarif_model::{Record, Text};

pub(crate) fn same_key(finding: &Record) -> Option<Key<'_>>
    ensures { option_map parts_of result ≡ key_of finding.now Same }
{
    if finding.guid.is_some() {
        return None;
    }
    let region = finding.region?;
    Some(Key::Same {
        group: group_of(finding),
        full: &finding.full,
        partial: &finding.partial,
        snippet: &finding.snippet,
        region,
    })
}

pub(crate) fn same_text_key(finding: &Record) -> Option<Key<'_>>
    ensures { option_map parts_of result ≡ key_of finding.now SameText }
{
    if finding.guid.is_some() {
        return None;
    }
    let snippet = finding.snippet.as_ref()?;
    Some(Key::SameText {
        group: group_of(finding),
        full: &finding.full,
        partial: &finding.partial,
        snippet,
    })
}

pub(crate) fn place_text_key(finding: &Record) -> Option<Key<'_>>
    ensures { option_map parts_of result ≡ key_of finding.now PlaceText }
{
    if finding.guid.is_some() {
        return None;
    }
    let snippet = finding.snippet.as_ref()?;
    Some(Key::PlaceText {
        group: group_of(finding),
        snippet,
    })
}

pub(crate) fn place_left_key(finding: &Record) -> Option<Key<'_>>
    ensures { option_map parts_of result ≡ key_of finding.now PlaceLeft }
{
    if finding.guid.is_some() {
        return None;
    }
    Some(Key::PlaceLeft {
        group: group_of(finding),
    })
}

pub(crate) fn fingerprint_here_key<'a>(finding: &'a Record, name: &Text) -> Option<Key<'a>>
    ensures { option_map parts_of result ≡ key_of finding.now (FingerprintHere name.now) }
{
    for member in finding.full.as_slice() {
        if member.0 == *name {
            return Some(Key::FingerprintHere {
                group: group_of(finding),
                member,
            });
        }
    }
    None
}
