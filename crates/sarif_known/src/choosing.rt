//! Which results of a run become known.
ghost use Rattle.std.specs.Prelude.{◌≡◌, ◌≤◌, length, map, IfOk};
ghost use Rattle.sarif_model.specs.Limits.{most_results};
ghost use Rattle.sarif_results.specs.Drafts.{applied_of};
ghost use Rattle.sarif_suppress.specs.Suppressing.{matching_numbers, is_suppressed};
ghost use Rattle.sarif_known.specs.Chosen.{chosen_of};
ghost use Rattle.sarif_known.specs.Selected as said;
ghost use Rattle.sarif_known.specs.Selected.{kept_of, known_of, unmatched_of};

use crate::chosen::KnownRun;
use crate::standing::Standing;
use sarif_model::{Record, State, Text};
use sarif_options::Policy;
use sarif_results::Draft;
use sarif_suppress::{Applied, Suppressions};
use std::alloc::{AllocError, Global};

/// By what results become known.
#[derive(Clone, Copy)]
pub struct Choice<'a> {
    /// The suppression file.
    pub file: &'a Suppressions,
    /// What the gate fails on.
    pub policy: Policy,
    /// Whether new hits and new suppressed results become known too.
    pub adopt: bool,
}

/// The results of a run of a log.
#[derive(Clone, Copy)]
pub struct Results<'a, 's> {
    /// Their records.
    pub records: &'a [Record],
    /// What matching and a policy say about each.
    pub standings: &'s [Standing],
    /// What is written for each of them.
    pub drafts: &'s [Draft],
}

/// Whether a result is new, or doubtful whether it isn't.
fn may_be_new(standing: Standing) -> bool
    ensures { result ≡ said.may_be_new standing }
{
    standing.state == State::New || standing.doubtful
}

/// Whether a result is a hit, or would be one inside the change: of a condition if there is a policy, otherwise by the options.
fn would_hit(policy: Policy, found: &Record, standing: Standing) -> bool
    ensures { result ≡ said.would_hit policy found.now standing }
{
    match standing.would_hit {
        Some(hit) => hit,
        None => policy.counts(standing.state, found.level),
    }
}

/// Whether a current result doesn't become known.
fn is_left_out(choice: &Choice<'_>, found: &Record, standing: Standing, applied: &Applied) -> bool
    requires entries { applied.now.entries ≡ matching_numbers choice.now.file.now found.now }
    requires verdict { applied.now.suppressed ≡ is_suppressed choice.now.file.now found.now }
    ensures { result ≡ said.is_left_out choice.now.file.now choice.now.policy choice.now.adopt
        found.now standing }
{
    if applied.suppressed && !choice.file.suppresses_for_good(found, applied) {
        return true;
    }
    if choice.adopt || !may_be_new(standing) {
        return false;
    }
    applied.suppressed || would_hit(choice.policy, found, standing)
}

/// Returns which results of a run of a log become known: those that aren't suppressed thanks to entries with an
/// expiry date only; and of the new and the doubtful ones, unless the choice adopts them, those that are neither hits
/// nor suppressed. Returns `AllocError` if memory for the list runs out.
pub fn know_run<'a>(
    alloc: Global,
    choice: &Choice<'_>,
    tool: &'a Text,
    results: &Results<'a, '_>,
) -> Result<KnownRun<'a>, AllocError>
    requires few { length results.now.records.now ≤ most_results }
    requires standings { length results.now.standings.now ≡ length results.now.records.now }
    requires drafts { map (λ d. d.applied) results.now.drafts.now
        ≡ map (applied_of choice.now.file.now) results.now.records.now }
    ensures { IfOk result (λ run. chosen_of run ≡ record {
      tool = tool.now;
      records = known_of choice.now.file.now choice.now.policy choice.now.adopt
          results.now.records.now results.now.standings.now;
    }) }
{
    let mut records = Vec::new(alloc);
    for (at, found) in results.records.iter().enumerate() {
        let applied = &results.drafts[at].applied;
        if !is_left_out(choice, found, results.standings[at], applied) {
            records.push(found)?;
        }
    }
    Ok(KnownRun { tool, records })
}

/// The unmatched results.
fn list_unmatched<'a>(
    alloc: Global,
    records: &'a [Record],
    taken: &[bool],
) -> Result<Vec<&'a Record>, AllocError>
    requires { length taken.now ≡ length records.now }
    ensures unmatched { IfOk result
        (λ list. map (λ r. r.now) list.items ≡ unmatched_of records.now taken.now) }
    ensures few { IfOk result (λ list. length list.items ≤ length records.now) }
{
    let mut list = Vec::new(alloc);
    for (at, found) in records.iter().enumerate() {
        if !taken[at] {
            list.push(found)?;
        }
    }
    Ok(list)
}

/// Returns which results of a run of a baseline stay known: if its tool was heard none, otherwise those that no
/// current result matches. Returns `AllocError` if memory for the list runs out.
pub fn keep_run<'a>(
    alloc: Global,
    tool: &'a Text,
    records: &'a [Record],
    taken: &[bool],
    heard: bool,
) -> Result<KnownRun<'a>, AllocError>
    requires few { length records.now ≤ most_results }
    requires taken { length taken.now ≡ length records.now }
    ensures { IfOk result (λ run. chosen_of run
        ≡ record { tool = tool.now; records = kept_of heard records.now taken.now }) }
{
    let records = if heard {
        Vec::new(alloc)
    } else {
        list_unmatched(alloc, records, taken)?
    };
    Ok(KnownRun { tool, records })
}
