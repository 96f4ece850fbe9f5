//! What the conditions of a policy decide about the results of a merge.
ghost use Rattle.std.specs.Prelude.{◌≡◌, ◌<◌, ◌^◌, ◌++◌, ◌∷◌, [], List, map, length, IfOk, OnOk};
ghost use Rattle.sarif_conditions.specs.Facts.{decided_of};
ghost use Rattle.sarif_conditions.specs.Internal.Deciding.{deciding_of};
ghost use Rattle.sarif_conditions.specs.Judged.{Judged, judged_of};
ghost use Rattle.sarif_policy.specs.declared.condition.GateCondition.{GateCondition as Condition};

use crate::checking::outcomes_of;
use crate::deciding::Deciding;
use crate::facts::PolicyFacts;
use crate::judged::JudgedResult;
use crate::standing::{count_hits, count_reported, count_unchecked, impacts_of, known_of};
use crate::trying::try_condition;
use sarif_counts::Impact;
use sarif_model::Sequence;
use sarif_policy::{GateCondition, GatePolicy};
use std::alloc::{AllocError, Global};
use std::hash::BuildHasher;

/// What the conditions of a policy decide about the results of a merge.
#[derive(Debug, Drop)]
pub struct Decided {
    /// What the gate says about the conditions.
    pub facts: PolicyFacts,
    /// What each result does to the gate, in the order of the results. One that isn't reported has none.
    pub impacts: Sequence<Option<Impact>>,
    /// Whether each result is a hit, the `diff` of each condition left aside.
    pub known: Sequence<bool>,
}

/// Adds what a condition decides.
fn add_condition<S: BuildHasher + Copy>(
    alloc: Global,
    hasher: S,
    all: &mut Deciding,
    condition: &GateCondition,
    results: &[JudgedResult],
) -> Result<(), AllocError>
    requires few { length results.now < 2 ^ 32 }
    requires all { length all.old.standings ≡ length results.now }
    ensures { OnOk result ((before : List Condition)
        → all.old ≡ deciding_of before (map judged_of results.now)
        → all.new ≡ deciding_of (before ++ condition.now ∷ []) (map judged_of results.now)) }
{
    let tried = try_condition(alloc, hasher, condition, results)?;
    let outcomes = outcomes_of(alloc, condition, results, &tried)?;
    all.add(
        alloc,
        condition,
        &outcomes,
        tried.only.unused,
        tried.except.unused,
    )?;
    Ok(())
}

/// Returns what these conditions decide about the results.
fn decide_each<S: BuildHasher + Copy>(
    alloc: Global,
    hasher: S,
    conditions: &[GateCondition],
    results: &[JudgedResult],
) -> Result<Deciding, AllocError>
    requires { length results.now < 2 ^ 32 }
    ensures { IfOk result (λ all. all ≡ deciding_of conditions.now (map judged_of results.now)) }
{
    let mut all = Deciding::before(alloc, results)?;
    for condition in conditions {
        add_condition(alloc, hasher, &mut all, condition, results)?;
    }
    Ok(all)
}

/// Returns the facts at the end.
#[tactic(auto, using(crate::proofs::DecidingMore::decided_is))]
fn said_of(alloc: Global, all: Deciding) -> Result<Decided, AllocError>
    requires { length all.standings < 2 ^ 32 }
    ensures { (cs : List Condition) (rs : List Judged) → all ≡ deciding_of cs rs
        → IfOk result (λ d. d ≡ decided_of cs rs) }
{
    let Deciding {
        standings,
        facts,
        unused,
    } = all;
    let impacts = impacts_of(alloc, standings.as_slice())?;
    let known = known_of(alloc, standings.as_slice())?;
    let hits = count_hits(standings.as_slice()) as u32;
    let reported = count_reported(standings.as_slice()) as u32;
    let unchecked = count_unchecked(standings.as_slice()) as u32;
    Ok(Decided {
        facts: PolicyFacts {
            conditions: facts,
            hits,
            reported,
            unchecked,
            unused_filters: unused,
        },
        impacts,
        known,
    })
}

/// Returns what the conditions of the policy decide about these results, and what the gate says about them. The results are
/// all of a merge, and fewer than 2^32. Tables of filters hash with `hasher`, on which nothing depends. Returns `AllocError` if
/// memory runs out.
pub fn decide<S: BuildHasher + Copy>(
    alloc: Global,
    hasher: S,
    policy: &GatePolicy,
    results: &[JudgedResult],
) -> Result<Decided, AllocError>
    requires { length results.now < 2 ^ 32 }
    ensures { IfOk result
        (λ d. d ≡ decided_of policy.now.conditions (map judged_of results.now)) }
{
    let all = decide_each(alloc, hasher, policy.conditions.as_slice(), results)?;
    let decided = said_of(alloc, all)?;
    Ok(decided)
}
