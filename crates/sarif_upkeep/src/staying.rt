//! The hits that stay.
ghost use Rattle.std.specs.Prelude.{◌≡◌, ◌≤◌, ◌&&◌, not, length, map, IfSome};
ghost use Rattle.sarif_model.specs.declared.kinds.State.TheVariants.{Absent};
ghost use Rattle.sarif_counts.specs.Hits.{count_if};
ghost use Rattle.sarif_entries.specs.File.{File};
ghost use Rattle.sarif_suppress.specs.Suppressing as suppressing;
ghost use Rattle.sarif_results.specs.Drafts.{applied_of};
ghost use Rattle.sarif_accept.specs.Adding.{is_hit, may_hit, stays};
ghost use Rattle.sarif_upkeep.specs.Internal.Hiding.{lent};
ghost use Rattle.sarif_upkeep.specs.Merge.{shown_by};
ghost use Rattle.sarif_upkeep.specs.Renewed as said;

use crate::accepting::{has_suppressions, is_hit};
use crate::hiding::is_hidden;
use sarif_model::{Record, State, Status};
use sarif_options::Policy;
use sarif_results::Draft;
use sarif_suppress::all_accepted;

/// How many hits with suppressions this result is: 1 or 0.
fn count_one(policy: Policy, record: &Record, draft: &Draft, state: State) -> usize
    ensures count { (file : File) → draft.now.applied ≡ applied_of file «record».now
        → result ≡ count_if (is_hit (may_hit policy) file «record».now state
        && stays file «record».now) 1 }
    ensures few { result ≤ 1 }
{
    if is_hit(policy, record, draft, state) && has_suppressions(record, draft) {
        1
    } else {
        0
    }
}

/// Returns how many hits among those of these results that aren't hidden have suppressions, and so stay hits.
pub(crate) fn staying_among(
    policy: Policy,
    records: &[Record],
    drafts: &[Draft],
    states: &[State],
    hidden: Option<&[bool]>,
) -> usize
    requires drafts { length drafts.now ≡ length records.now }
    requires states { length states.now ≡ length records.now }
    requires hidden { IfSome (lent hidden) (λ marks. length marks ≡ length records.now) }
    ensures count { (file : File)
        → map (λ draft. draft.applied) drafts.now ≡ map (applied_of file) records.now
        → result ≡ said.staying_among (may_hit policy) file
        (shown_by (lent hidden.entry) records.now) (shown_by (lent hidden.entry) states.now) }
    ensures few { result ≤ length records.now }
{
    let mut count = 0;
    for (number, record) in records.iter().enumerate() {
        if is_hidden(hidden, number) {
            continue;
        }
        count += count_one(policy, record, &drafts[number], states[number]);
    }
    count
}

/// Whether suppressions of these statuses suppress: there is one, and all are accepted.
fn suppress(statuses: &[Status]) -> bool
    ensures { result ≡ suppressing.statuses_suppress statuses.now }
{
    !statuses.is_empty() && all_accepted(statuses)
}

/// How many absent hits this result is: 1 or 0.
fn count_absent(policy: Policy, record: &Record, is_taken: bool) -> usize
    ensures count { (file : File) → result ≡ count_if (not is_taken
        && is_hit (may_hit policy) (said.no_entries file) «record».now Absent) 1 }
    ensures few { result ≤ 1 }
{
    let counts = policy.counts(State::Absent, record.level);
    if !is_taken && counts && !suppress(record.held.as_slice()) {
        1
    } else {
        0
    }
}

/// Returns how many of the results that no current result matches are hits.
pub(crate) fn absent_hits(policy: Policy, records: &[Record], taken: &[bool]) -> usize
    requires { length taken.now ≡ length records.now }
    ensures count { (file : File)
        → result ≡ said.absent_hits (may_hit policy) file records.now taken.now }
    ensures few { result ≤ length records.now }
{
    let mut count = 0;
    for (number, record) in records.iter().enumerate() {
        count += count_absent(policy, record, taken[number]);
    }
    count
}
