//! What matching and a policy say about a current result.
ghost use Rattle.std.specs.Prelude.{◌≡◌};
ghost use Rattle.std.specs.Option.{option_copied};
ghost use Rattle.sarif_known.specs.Standing as said;

use sarif_evidence::{MatchingVersion, has_evidence, state_in};
use sarif_model::{Record, State};

/// What matching and a policy say about a current result.
#[derive(Clone, Copy, Debug, PartialEq, Eq)]
pub struct Standing {
    /// The baseline state.
    pub state: State,
    /// Whether it has a match, but nothing shows that the two are the same.
    pub doubtful: bool,
    /// Whether it is a hit of a condition of the policy, or would be one inside the change; `None` without a policy.
    pub would_hit: Option<bool>,
}

/// Returns what matching by a version says about a current result with this match. It says nothing about a policy.
pub fn standing_of(version: MatchingVersion, current: &Record, partner: Option<&Record>) -> Standing
    ensures { result ≡ said.standing_of version current.now (option_copied partner.entry) }
{
    let state = state_in(version, current, partner);
    let doubtful = is_doubtful(version, current, partner);
    Standing {
        state,
        doubtful,
        would_hit: None,
    }
}

/// Whether a match is without evidence.
fn is_doubtful(version: MatchingVersion, current: &Record, partner: Option<&Record>) -> bool
    ensures { result ≡ said.is_doubtful version current.now (option_copied partner.entry) }
{
    match (version, partner) {
        (MatchingVersion::Three, Some(partner)) => !has_evidence(current, partner),
        _ => false,
    }
}
