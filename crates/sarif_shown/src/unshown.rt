//! The reported results that reports don't show.
ghost use Rattle.std.specs.Prelude.{◌≡◌};
ghost use Rattle.sarif_counts.specs.Counts.{count_at};
ghost use Rattle.sarif_shown.specs.Unshown as said;

use sarif_counts::{Counts, hits};
use sarif_findings::Show;
use sarif_model::Level;
use sarif_options::Policy;
use sarif_scope::{ChangeFacts, hits_told};

/// How many results are reported: as many as there would be hits if results of every level were hits.
fn reported_number(counts: &Counts, policy: &Policy) -> u32
    ensures { result ≡ said.reported_number (count_at counts.now) policy.now }
{
    let policy = Policy {
        fail_on: Level::NoLevel,
        states: policy.states,
        max: policy.max,
    };
    hits(counts, &policy)
}

/// Returns how many results are reported, with a change or without one.
fn reported_told(counts: &Counts, policy: &Policy, change: &Option<ChangeFacts>) -> u32
    ensures { result ≡ said.reported_told change.now (count_at counts.now) policy.now }
{
    let reported = reported_number(counts, policy);
    match change {
        None => reported,
        Some(facts) => reported.saturating_sub(facts.unreported),
    }
}

/// Returns how many of the reported results are not shown. With a change, those outside of it are not reported.
pub fn unshown_number(
    show: Show,
    counts: &Counts,
    policy: &Policy,
    change: &Option<ChangeFacts>,
) -> u32
    ensures { result ≡ said.unshown_number change.now show (count_at counts.now) policy.now }
{
    match show {
        Show::Hits => {
            let hits = hits_told(counts, policy, change);
            reported_told(counts, policy, change).saturating_sub(hits)
        }
        Show::All => 0,
    }
}
