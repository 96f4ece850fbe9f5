//! The gate object of a merged log.
ghost use Rattle.std.specs.Prelude.{◌≡◌, ◌++◌, IfOk, OnOk, map, false};
ghost use Rattle.serde_json.specs.Data.{array};
ghost use Rattle.serde_json.specs.View.{view, items_of};
ghost use Rattle.serde_json.specs.Written.{has_float};
ghost use Rattle.sarif_counts.specs.Counts.{count_at};
ghost use Rattle.sarif_counts.specs.Gate.{gate_of, counts_data, state_data, levels_data, listed_names, if_listed};
ghost use Rattle.sarif_counts.specs.Tally.{at_level, at_side};

use crate::counts::Counts;
use crate::decision::{hits, verdict};
use crate::tally::{ByLevel, Tally};
use sarif_model::State;
use sarif_options::{Policy, States};
use serde_json::{Value, json};
use std::alloc::{AllocError, Global};

/// Returns the value of `properties.gate` of a merged log (SARIF 2.1.0, "property bags"): the counts, the policy,
/// its hits and verdict, the number of runs without results (`without`), and the number of unused entries of the
/// suppression file (`unused`). Returns `AllocError` if memory for it runs out.
#[tactic(auto, using(crate::proofs::GateNumbers::gate_whole))]
pub fn gate_value(
    alloc: Global,
    counts: &Counts,
    policy: &Policy,
    without: u32,
    unused: u32,
) -> Result<Value, AllocError>
    ensures value { IfOk result
        (λ v. view v ≡ gate_of (count_at counts.now) policy.now without unused) }
    ensures whole { IfOk result (λ v. has_float (view v) ≡ false) }
{
    let by_state = counts_value(alloc, counts)?;
    let gate = gate_object(alloc, by_state, counts, policy, without, unused)?;
    Ok(gate)
}

fn gate_object(
    alloc: Global,
    by_state: Value,
    counts: &Counts,
    policy: &Policy,
    without: u32,
    unused: u32,
) -> Result<Value, AllocError>
    requires counts { view by_state ≡ counts_data (count_at counts.now) }
    ensures { IfOk result
        (λ v. view v ≡ gate_of (count_at counts.now) policy.now without unused) }
{
    let states = states_value(alloc, policy.states)?;
    let fail_on = policy.fail_on.name();
    let found = hits(counts, policy);
    let max = policy.max;
    let word = verdict(counts, policy).name();
    json!(in alloc; {
        "counts": by_state,
        "failOn": fail_on,
        "hits": found,
        "max": max,
        "runsWithoutResults": without,
        "states": states,
        "unusedSuppressions": unused,
        "verdict": word
    })
}

/// Returns the member `counts` of `properties.gate` of a merged log, made from these counts. Returns `AllocError` if
/// memory for it runs out.
pub fn counts_value(alloc: Global, counts: &Counts) -> Result<Value, AllocError>
    ensures { IfOk result (λ v. view v ≡ counts_data (count_at counts.now)) }
{
    let absent = tally_value(alloc, counts.of(State::Absent))?;
    let fresh = tally_value(alloc, counts.of(State::New))?;
    let unchanged = tally_value(alloc, counts.of(State::Unchanged))?;
    let updated = tally_value(alloc, counts.of(State::Updated))?;
    json!(in alloc; {
        "absent": absent,
        "new": fresh,
        "unchanged": unchanged,
        "updated": updated
    })
}

fn tally_value(alloc: Global, tally: Tally) -> Result<Value, AllocError>
    ensures { IfOk result
        (λ v. view v ≡ state_data (λ level side. at_level (at_side tally side) level)) }
{
    let active = levels_value(alloc, tally.active)?;
    let suppressed = levels_value(alloc, tally.suppressed)?;
    json!(in alloc; {"active": active, "suppressed": suppressed})
}

fn levels_value(alloc: Global, numbers: ByLevel) -> Result<Value, AllocError>
    ensures { IfOk result (λ v. view v ≡ levels_data (at_level numbers)) }
{
    let error = numbers.error;
    let warning = numbers.warning;
    let note = numbers.note;
    let none = numbers.none;
    json!(in alloc; [error, warning, note, none])
}

fn states_value(alloc: Global, states: States) -> Result<Value, AllocError>
    ensures { IfOk result (λ v. view v ≡ array (items_of (listed_names states))) }
{
    let mut names = Vec::new(alloc);
    push_listed(alloc, &mut names, states, State::Absent)?;
    push_listed(alloc, &mut names, states, State::New)?;
    push_listed(alloc, &mut names, states, State::Unchanged)?;
    push_listed(alloc, &mut names, states, State::Updated)?;
    Ok(Value::Array(names))
}

fn push_listed(
    alloc: Global,
    names: &mut Vec<Value>,
    states: States,
    state: State,
) -> Result<(), AllocError>
    ensures { OnOk result
        (map view names.new.items ≡ map view names.old.items ++ if_listed states state) }
{
    if states.lists(state) {
        let name = Value::try_from_str(alloc, state.name())?;
        names.push(name)?;
    }
    Ok(())
}
