//! The verdict of the gate on the counts.
ghost use Rattle.std.specs.Prelude.{◌≡◌, ◌+◌, ◌<◌, ◌≤◌, ◌^◌};
ghost use Rattle.sarif_counts.specs.Hits.{hits_at, hits_of, verdict_of};
ghost use Rattle.sarif_counts.specs.Counts.{count_at, tally_at};
ghost use Rattle.sarif_counts.specs.Tally.{tally_total};

use crate::counts::Counts;
use crate::gate_verdict::Verdict;
use sarif_model::State;
use sarif_options::Policy;

/// How many hits there are: active results of a state that the policy lists, at least of its level
/// `fail_on`.
pub fn hits(counts: &Counts, policy: &Policy) -> u32
    ensures { result ≡ hits_of (count_at counts.now) policy.now }
{
    hits_in(counts, policy, State::New)
        + hits_in(counts, policy, State::Unchanged)
        + hits_in(counts, policy, State::Updated)
        + hits_in(counts, policy, State::Absent)
}

/// How many of the hits are of one state.
fn hits_in(counts: &Counts, policy: &Policy, state: State) -> u32
    ensures hits { result ≡ hits_at (count_at counts.now) policy.now state }
    ensures bound { result ≤ tally_total (tally_at counts.now state) }
{
    if policy.states.lists(state) {
        counts.of(state).active.at_least(policy.fail_on)
    } else {
        0
    }
}

/// Fail where the policy lets fewer results pass than there are hits.
pub fn verdict(counts: &Counts, policy: &Policy) -> Verdict
    ensures { result ≡ verdict_of (count_at counts.now) policy.now }
{
    if hits(counts, policy) > policy.max {
        Verdict::Fail
    } else {
        Verdict::Pass
    }
}
