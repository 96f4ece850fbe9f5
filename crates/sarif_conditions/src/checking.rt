//! What a condition decides about all results.
ghost use Rattle.std.specs.Prelude.{◌≡◌, ◌&&◌, not, length, map, IfOk};
ghost use Rattle.sarif_conditions.specs.Internal.Deciding as said;
ghost use Rattle.sarif_conditions.specs.Internal.Tried.{outcomes_by, AreTried};
ghost use Rattle.sarif_conditions.specs.Judged.{judged_of};

use crate::judged::JudgedResult;
use crate::outcome::{Outcome, outcome_if};
use crate::trying::TriedCondition;
use sarif_policy::GateCondition;
use std::alloc::{AllocError, Global};

/// Returns whether a condition checks a result: `only` chooses it, and `except` doesn't leave it out.
fn is_checked(chosen: bool, left_out: bool) -> bool
    ensures { result ≡ (chosen && not left_out) }
{
    chosen && !left_out
}

/// Returns what the condition decides about each result, by which of them `only` chooses, and which `except` leaves out.
fn list_outcomes(
    alloc: Global,
    condition: &GateCondition,
    results: &[JudgedResult],
    only: &[bool],
    except: &[bool],
) -> Result<Vec<Outcome>, AllocError>
    requires only { length only.now ≡ length results.now }
    requires except { length except.now ≡ length results.now }
    ensures { IfOk result (λ all. all.items
        ≡ outcomes_by condition.now (map judged_of results.now) only.now except.now) }
{
    let mut all = Vec::with_capacity(alloc, results.len())?;
    for (number, found) in results.iter().enumerate() {
        let checked = is_checked(only[number], except[number]);
        all.push(outcome_if(checked, condition, found))?;
    }
    Ok(all)
}

/// Returns what the condition decides about each result, by what its filters say about them.
#[tactic(auto, using(crate::proofs::TryingMore::tried_long, crate::proofs::TryingMore::outcomes_tried))]
pub(crate) fn outcomes_of(
    alloc: Global,
    condition: &GateCondition,
    results: &[JudgedResult],
    tried: &TriedCondition,
) -> Result<Vec<Outcome>, AllocError>
    requires { AreTried condition.now (map judged_of results.now) tried.now }
    ensures { IfOk result (λ all. all.items
        ≡ map (said.outcome_of condition.now) (map judged_of results.now)) }
{
    let only = tried.only.matched.as_slice();
    let except = tried.except.matched.as_slice();
    let all = list_outcomes(alloc, condition, results, only, except)?;
    Ok(all)
}
