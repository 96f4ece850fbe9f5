//! The verdict and the numbers that reports show.
ghost use Rattle.std.specs.Prelude.{◌≡◌, ◌≤◌, IfOk, length, string_bytes};
ghost use Rattle.sarif_conditions.specs.Facts.{failed_told};
ghost use Rattle.sarif_shown.specs.Facts.{facts_of};
ghost use Rattle.sarif_shown.specs.Ruled as said;
ghost use Rattle.sarif_shown.specs.Sentences as sentences;

use crate::noted::Noted;
use crate::sentences::{conditions_end, gate_end};
use crate::stopping::Stopping;
use crate::told::ReportInput;
use crate::unshown::unshown_number;
use sarif_conditions::{PolicyFacts, verdict_of_policy};
use sarif_counts::Verdict;
use sarif_findings::Show;
use sarif_scope::{hits_told, outside_told, verdict_told};
use std::alloc::{AllocError, Global};

/// Returns the verdict of the gate.
pub fn gate_verdict(told: &ReportInput<'_>) -> Verdict
    ensures { result ≡ said.gate_verdict (facts_of told.now) }
{
    match told.ruling {
        None => verdict_told(told.counts, told.policy, &told.change),
        Some(ruling) => verdict_of_policy(ruling),
    }
}

/// Returns how many results the gate counts.
pub fn gate_hits(told: &ReportInput<'_>) -> u32
    ensures { result ≡ said.gate_hits (facts_of told.now) }
{
    match told.ruling {
        None => hits_told(told.counts, told.policy, &told.change),
        Some(ruling) => ruling.hits,
    }
}

/// Returns how many conditions failed.
fn failed_number(ruling: &PolicyFacts) -> usize
    ensures { result ≡ failed_told ruling.now }
{
    let conditions = ruling.conditions.as_slice();
    conditions
        .iter()
        .filter(|condition| condition.fails)
        .count()
}

/// What follows the verdict of the options.
fn ending_alone(alloc: Global, hits: u32, max: u32) -> Result<String, AllocError>
    ensures text { IfOk result (λ s. string_bytes s ≡ sentences.gate_end hits max) }
    ensures few { IfOk result (λ s. length (string_bytes s) ≤ 47) }
{
    gate_end(alloc, hits, max)
}

/// What follows the verdict of a policy.
fn ending_of(alloc: Global, ruling: &PolicyFacts) -> Result<String, AllocError>
    ensures text { IfOk result (λ s. string_bytes s ≡ sentences.conditions_end ruling.now.hits
        (failed_told ruling.now) (length ruling.now.conditions)) }
    ensures few { IfOk result (λ s. length (string_bytes s) ≤ 81) }
{
    let failed = failed_number(ruling);
    let all = ruling.conditions.as_slice().len();
    conditions_end(alloc, ruling.hits, failed, all)
}

/// Returns what follows the verdict: the hits, and how many of them are allowed, or how many conditions failed. Returns
/// `AllocError` if memory runs out.
pub fn gate_ending(alloc: Global, told: &ReportInput<'_>) -> Result<String, AllocError>
    ensures text { IfOk result (λ s. string_bytes s ≡ said.gate_ending (facts_of told.now)) }
    ensures few { IfOk result
        (λ s. length (string_bytes s) ≤ said.most_of_ending (facts_of told.now).ruling) }
{
    match told.ruling {
        None => {
            let hits = hits_told(told.counts, told.policy, &told.change);
            ending_alone(alloc, hits, told.policy.max)
        }
        Some(ruling) => ending_of(alloc, ruling),
    }
}

/// Returns which hits stop the change.
pub fn gate_stopping(told: &ReportInput<'_>) -> Stopping
    ensures { result ≡ said.gate_stopping (facts_of told.now) }
{
    if told.ruling.is_some() {
        return Stopping::MarkedHit;
    }
    match verdict_told(told.counts, told.policy, &told.change) {
        Verdict::Fail => Stopping::EachHit,
        Verdict::Pass => Stopping::NoHit,
    }
}

/// How many results that a condition reports are not shown.
fn left_by(show: Show, ruling: &PolicyFacts) -> u32
    ensures { result ≡ said.left_by show ruling.now }
{
    match show {
        Show::Hits => ruling.reported.saturating_sub(ruling.hits),
        Show::All => 0,
    }
}

/// Returns how many reported results are not shown.
pub fn unshown_results(told: &ReportInput<'_>) -> u32
    ensures { result ≡ said.unshown_results (facts_of told.now) }
{
    match told.ruling {
        None => unshown_number(told.show, told.counts, told.policy, &told.change),
        Some(ruling) => left_by(told.show, ruling),
    }
}

/// Returns the numbers of what wasn't checked.
pub fn noted_in(told: &ReportInput<'_>) -> Noted
    ensures { result ≡ said.noted_in (facts_of told.now) }
{
    let (without, unused) = (told.without, told.unused);
    match told.ruling {
        None => Noted {
            without,
            unused,
            filters: 0,
            outside: outside_told(&told.change),
            unchecked: 0,
        },
        Some(ruling) => Noted {
            without,
            unused,
            filters: ruling.unused_filters,
            outside: 0,
            unchecked: ruling.unchecked,
        },
    }
}
