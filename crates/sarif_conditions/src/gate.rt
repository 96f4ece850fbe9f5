//! The gate object of a log whose gate has a policy.
ghost use Rattle.std.specs.Prelude.{◌≡◌, Some, None, false, map, IfOk};
ghost use Rattle.serde_json.specs.View.{view};
ghost use Rattle.serde_json.specs.Written.{has_float};
ghost use Rattle.sarif_counts.specs.Counts.{count_at};
ghost use Rattle.sarif_conditions.specs.Gate as said;

use crate::facts::{ConditionFacts, PolicyFacts, verdict_of_policy};
use sarif_counts::{Counts, counts_value};
use sarif_scope::ChangeFacts;
use serde_json::{Value, json};
use std::alloc::{AllocError, Global};

/// The facts about a condition, as an object.
fn condition_value(alloc: Global, facts: &ConditionFacts) -> Result<Value, AllocError>
    ensures { IfOk result (λ v. view v ≡ said.condition_data facts.now) }
{
    let hits = facts.hits;
    let limit = facts.limit;
    let name = facts.name.as_str();
    let word = facts.verdict().name();
    match facts.outside {
        None => json!(in alloc; {
            "hits": hits,
            "limit": limit,
            "name": name,
            "verdict": word
        }),
        Some(outside) => json!(in alloc; {
            "hits": hits,
            "limit": limit,
            "name": name,
            "outside": outside,
            "verdict": word
        }),
    }
}

/// The facts about each condition, as objects.
fn condition_values(alloc: Global, facts: &[ConditionFacts]) -> Result<Vec<Value>, AllocError>
    ensures { IfOk result (λ values. map view values.items ≡ map said.condition_data facts.now) }
{
    let mut values = Vec::new(alloc);
    for condition in facts {
        values.push(condition_value(alloc, condition)?)?;
    }
    Ok(values)
}

/// The facts about the conditions, as an array.
fn conditions_value(alloc: Global, facts: &[ConditionFacts]) -> Result<Value, AllocError>
    ensures { IfOk result (λ v. view v ≡ said.conditions_data facts.now) }
{
    Ok(Value::Array(condition_values(alloc, facts)?))
}

/// The facts about a change, as an object.
fn change_value(alloc: Global, change: &ChangeFacts) -> Result<Value, AllocError>
    ensures { IfOk result (λ v. view v ≡ said.change_data change.now) }
{
    let files = change.files;
    let lines = change.lines;
    json!(in alloc; {"files": files, "lines": lines})
}

/// The gate without a change.
fn gate_alone(
    alloc: Global,
    counts: &Counts,
    facts: &PolicyFacts,
    without: u32,
    unused: u32,
) -> Result<Value, AllocError>
    ensures { IfOk result (λ v. view v
        ≡ said.gate_of_policy None (count_at counts.now) facts.now without unused) }
{
    let conditions = conditions_value(alloc, facts.conditions.as_slice())?;
    let by_state = counts_value(alloc, counts)?;
    let hits = facts.hits;
    let unchecked = facts.unchecked;
    let filters = facts.unused_filters;
    let word = verdict_of_policy(facts).name();
    json!(in alloc; {
        "conditions": conditions,
        "counts": by_state,
        "hits": hits,
        "runsWithoutResults": without,
        "unchecked": unchecked,
        "unusedFilters": filters,
        "unusedSuppressions": unused,
        "verdict": word
    })
}

/// The gate with this change.
fn gate_with(
    alloc: Global,
    change: &ChangeFacts,
    counts: &Counts,
    facts: &PolicyFacts,
    without: u32,
    unused: u32,
) -> Result<Value, AllocError>
    ensures { IfOk result (λ v. view v ≡ said.gate_of_policy (Some change.now)
        (count_at counts.now) facts.now without unused) }
{
    let conditions = conditions_value(alloc, facts.conditions.as_slice())?;
    let by_state = counts_value(alloc, counts)?;
    let diff = change_value(alloc, change)?;
    let hits = facts.hits;
    let unchecked = facts.unchecked;
    let filters = facts.unused_filters;
    let word = verdict_of_policy(facts).name();
    json!(in alloc; {
        "conditions": conditions,
        "counts": by_state,
        "diff": diff,
        "hits": hits,
        "runsWithoutResults": without,
        "unchecked": unchecked,
        "unusedFilters": filters,
        "unusedSuppressions": unused,
        "verdict": word
    })
}

/// The gate, with a change or without one.
fn gate_object(
    alloc: Global,
    counts: &Counts,
    facts: &PolicyFacts,
    without: u32,
    unused: u32,
    change: &Option<ChangeFacts>,
) -> Result<Value, AllocError>
    ensures { IfOk result (λ v. view v ≡ said.gate_of_policy change.now
        (count_at counts.now) facts.now without unused) }
{
    match change {
        None => gate_alone(alloc, counts, facts, without, unused),
        Some(change) => gate_with(alloc, change, counts, facts, without, unused),
    }
}

/// Returns the value of `properties.gate` of a merged log whose gate has a policy, with a change or without one: the facts
/// about the conditions, the counts of all results, the change, the number of hits, the number of runs without results
/// (`without`), of active current results that no condition checks, of filters that match no current result, and of unused
/// entries of the suppression file (`unused`), and the verdict. Returns `AllocError` if memory for it runs out.
#[tactic(auto, using(crate::proofs::PolicyWhole::gate_whole))]
pub fn gate_value_of_policy(
    alloc: Global,
    counts: &Counts,
    facts: &PolicyFacts,
    without: u32,
    unused: u32,
    change: &Option<ChangeFacts>,
) -> Result<Value, AllocError>
    ensures value { IfOk result (λ v. view v ≡ said.gate_of_policy change.now
        (count_at counts.now) facts.now without unused) }
    ensures whole { IfOk result (λ v. has_float (view v) ≡ false) }
{
    let gate = gate_object(alloc, counts, facts, without, unused, change)?;
    Ok(gate)
}
