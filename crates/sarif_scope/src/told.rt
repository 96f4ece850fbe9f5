//! The gate, its verdict and the summary, with a change or without one.
ghost use Rattle.std.specs.Prelude.{◌≡◌, false, IfOk, string_bytes};
ghost use Rattle.serde_json.specs.View.{view};
ghost use Rattle.serde_json.specs.Written.{has_float};
ghost use Rattle.sarif_counts.specs.Counts.{count_at};
ghost use Rattle.sarif_scope.specs.Told as said;

use crate::facts::ChangeFacts;
use crate::gate::gate_value_of_change;
use crate::hits::{hits_inside, verdict_inside};
use crate::summary::summary_of_change;
use sarif_counts::{Counts, Verdict, gate_value, hits, summary, verdict};
use sarif_options::Policy;
use serde_json::Value;
use std::alloc::{AllocError, Global};

/// Returns the value of `properties.gate` of a merged log, with a change or without one. See
/// [`gate_value`](sarif_counts::gate_value). Returns `AllocError` if memory for it runs out.
pub fn gate_value_told(
    alloc: Global,
    counts: &Counts,
    policy: &Policy,
    without: u32,
    unused: u32,
    change: &Option<ChangeFacts>,
) -> Result<Value, AllocError>
    ensures value { IfOk result (λ v. view v
        ≡ said.gate_told change.now (count_at counts.now) policy.now without unused) }
    ensures whole { IfOk result (λ v. has_float (view v) ≡ false) }
{
    match change {
        None => gate_value(alloc, counts, policy, without, unused),
        Some(facts) => gate_value_of_change(alloc, counts, policy, without, unused, facts),
    }
}

/// Returns how many results are hits, with a change or without one.
pub fn hits_told(counts: &Counts, policy: &Policy, change: &Option<ChangeFacts>) -> u32
    ensures { result ≡ said.hits_told change.now (count_at counts.now) policy.now }
{
    match change {
        None => hits(counts, policy),
        Some(facts) => hits_inside(counts, policy, facts.outside),
    }
}

/// Returns how many results would be hits without the change, and aren't inside. Without a change there are none.
pub fn outside_told(change: &Option<ChangeFacts>) -> u32
    ensures { result ≡ said.outside_told change.now }
{
    match change {
        None => 0,
        Some(facts) => facts.outside,
    }
}

/// Returns the verdict of the gate, with a change or without one.
pub fn verdict_told(counts: &Counts, policy: &Policy, change: &Option<ChangeFacts>) -> Verdict
    ensures { result ≡ said.verdict_told change.now (count_at counts.now) policy.now }
{
    match change {
        None => verdict(counts, policy),
        Some(facts) => verdict_inside(counts, policy, facts.outside),
    }
}

/// Returns the summary, with a change or without one. Returns `AllocError` if memory for it runs out.
pub fn summary_told(
    alloc: Global,
    counts: &Counts,
    policy: &Policy,
    change: &Option<ChangeFacts>,
) -> Result<String, AllocError>
    ensures { IfOk result (λ s. string_bytes s
        ≡ said.summary_told change.now (count_at counts.now) policy.now) }
{
    match change {
        None => summary(alloc, counts, policy),
        Some(facts) => summary_of_change(alloc, counts, policy, facts),
    }
}
