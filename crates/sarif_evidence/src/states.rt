//! The baseline state of a current result.
ghost use Rattle.std.specs.Prelude.{◌≡◌};
ghost use Rattle.std.specs.Option.{option_copied};
ghost use Rattle.sarif_evidence.specs.Evidence.{state_in};
ghost use Rattle.sarif_evidence.specs.State.{is_unchanged, state_of};

use crate::evidence::has_evidence;
use crate::version::MatchingVersion;
use sarif_model::{Record, State};

/// The baseline state of a current result in version 2, given its match (SARIF 2.1.0, "baselineState property"): new
/// without a match, unchanged if kind, effective level, message and place are equal, otherwise updated.
pub fn state(current: &Record, partner: Option<&Record>) -> State
    ensures { result ≡ state_of current.now (option_copied partner.entry) }
{
    let Some(partner) = partner else {
        return State::New;
    };
    if is_unchanged(current, partner) {
        State::Unchanged
    } else {
        State::Updated
    }
}

/// The baseline state of a current result in a version, given its match (SARIF 2.1.0, "baselineState property"). In
/// version 3 a result is unchanged only if there is evidence, too: two snippets are the same except for white space,
/// or, where one is missing, a GUID, a fingerprint or all partial fingerprints are the same, or neither result has a
/// fingerprint.
pub fn state_in(version: MatchingVersion, current: &Record, partner: Option<&Record>) -> State
    ensures { result ≡ state_in version current.now (option_copied partner.entry) }
{
    match (version, partner) {
        (MatchingVersion::Two, _) => state(current, partner),
        (MatchingVersion::Three, None) => State::New,
        (MatchingVersion::Three, Some(partner)) => {
            if is_unchanged(current, partner) && has_evidence(current, partner) {
                State::Unchanged
            } else {
                State::Updated
            }
        }
    }
}

/// Whether kind, effective level, message and place are equal.
fn is_unchanged(current: &Record, partner: &Record) -> bool
    ensures { result ≡ is_unchanged current.now partner.now }
{
    current.kind == partner.kind
        && current.level == partner.level
        && current.message == partner.message
        && current.place == partner.place
}
