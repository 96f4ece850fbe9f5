//! The key of a result at each tier.
ghost use Rattle.std.specs.Prelude.{◌≡◌, not};
ghost use Rattle.std.specs.Option.{option_map};
ghost use Rattle.sarif_match.specs.Key.{key_of, is_unnamed};
ghost use Rattle.sarif_evidence.specs.EqualParts.{is_empty};
ghost use Rattle.sarif_match.specs.KeyParts.{parts_of};
ghost use Rattle.sarif_match.specs.declared.tier.Tier.TheVariants.{Guid, Fingerprint};

use crate::finer_keys::{
    fingerprint_here_key, place_left_key, place_text_key, same_key, same_text_key,
};
use crate::tier::Tier;
use crate::tier_key::Key;
use sarif_model::{Record, Text};

/// The key of a result at a tier.
pub(crate) fn key_at<'a>(finding: &'a Record, tier: &Tier) -> Option<Key<'a>>
    ensures { option_map parts_of result ≡ key_of finding.now tier.now }
{
    match tier {
        Tier::Guid => guid_key(finding),
        Tier::Fingerprint(name) => fingerprint_key(finding, name),
        Tier::PartialHere if has_partial(finding) => Some(Key::PartialHere {
            tool: &finding.tool,
            rule_id: &finding.rule_id,
            place: &finding.place,
            partial: &finding.partial,
        }),
        Tier::PartialMoved if has_partial(finding) => Some(Key::PartialMoved {
            tool: &finding.tool,
            rule_id: &finding.rule_id,
            partial: &finding.partial,
        }),
        Tier::Place if is_unnamed(finding) => Some(Key::Place {
            tool: &finding.tool,
            rule_id: &finding.rule_id,
            place: &finding.place,
            message: &finding.message,
        }),
        Tier::Same => same_key(finding),
        Tier::SameText => same_text_key(finding),
        Tier::FingerprintHere(name) => fingerprint_here_key(finding, name),
        Tier::PlaceText => place_text_key(finding),
        Tier::PlaceLeft => place_left_key(finding),
        _ => None,
    }
}

fn guid_key(finding: &Record) -> Option<Key<'_>>
    ensures { option_map parts_of result ≡ key_of finding.now Guid }
{
    let guid = finding.guid?;
    Some(Key::Guid {
        tool: &finding.tool,
        guid,
    })
}

fn fingerprint_key<'a>(finding: &'a Record, name: &Text) -> Option<Key<'a>>
    ensures { option_map parts_of result ≡ key_of finding.now (Fingerprint name.now) }
{
    for (own, value) in finding.full.as_slice() {
        if own == name {
            return Some(Key::Fingerprint {
                tool: &finding.tool,
                name: own,
                value,
            });
        }
    }
    None
}

/// Whether the result has partial fingerprints.
fn has_partial(finding: &Record) -> bool
    ensures { result ≡ not (is_empty finding.now.partial) }
{
    !finding.partial.as_slice().is_empty()
}

/// Returns whether the result has neither a GUID nor fingerprints nor partial fingerprints.
fn is_unnamed(finding: &Record) -> bool
    ensures { result ≡ is_unnamed finding.now }
{
    finding.guid.is_none()
        && finding.full.as_slice().is_empty()
        && finding.partial.as_slice().is_empty()
}
