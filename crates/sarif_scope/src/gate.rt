//! The gate object of a log whose gate is for one change.
ghost use Rattle.std.specs.Prelude.{◌≡◌, ◌-◌, false, IfOk, OnOk};
ghost use Rattle.serde_json.specs.Data.{put};
ghost use Rattle.serde_json.specs.View.{view, members_view};
ghost use Rattle.serde_json.specs.Written.{has_float};
ghost use Rattle.sarif_counts.specs.Counts.{count_at};
ghost use Rattle.sarif_counts.specs.Hits.{hits_of};
ghost use Rattle.sarif_scope.specs.Gate as said;
ghost use Rattle.sarif_scope.specs.Internal.Narrowed.{narrowed};

use crate::facts::{ChangeFacts, scope_name};
use crate::hits::{hits_inside, verdict_inside};
use sarif_counts::{Counts, Verdict, gate_value};
use sarif_options::Policy;
use serde_json::{Map, Value, json};
use std::alloc::{AllocError, Global};

/// What a gate says about a change, as an object.
fn facts_value(alloc: Global, facts: &ChangeFacts) -> Result<Value, AllocError>
    ensures { IfOk result (λ v. view v ≡ said.diff_data facts.now) }
{
    let files = facts.files;
    let lines = facts.lines;
    let outside = facts.outside;
    let scope = scope_name(facts.scope);
    json!(in alloc; {
        "files": files,
        "lines": lines,
        "outside": outside,
        "scope": scope
    })
}

/// Sets a member.
fn put_member(
    alloc: Global,
    members: &mut Map<String, Value>,
    name: &str,
    value: Value,
) -> Result<(), AllocError>
    ensures { OnOk result (members_view members.new.entries
        ≡ put name.now (view value) (members_view members.old.entries)) }
{
    let key = String::from_str(alloc, name)?;
    let old = members.insert(key, value)?;
    drop(old);
    Ok(())
}

/// A gate object whose hits and verdict are replaced by these, and which has these facts.
fn narrow(
    alloc: Global,
    gate: Value,
    facts: &ChangeFacts,
    found: u32,
    verdict: Verdict,
) -> Result<Value, AllocError>
    ensures { IfOk result (λ v. view v ≡ narrowed facts.now found verdict (view gate)) }
{
    let diff = facts_value(alloc, facts)?;
    let word = Value::try_from_str(alloc, verdict.name())?;
    match gate {
        Value::Object(mut members) => {
            put_member(alloc, &mut members, "diff", diff)?;
            put_member(alloc, &mut members, "hits", Value::from(found))?;
            put_member(alloc, &mut members, "verdict", word)?;
            Ok(Value::Object(members))
        }
        _ => Ok(gate),
    }
}

/// Returns the value of `properties.gate` of a merged log whose gate is for one change: the counts are those of all
/// results, and the hits and the verdict those of the results inside. See [`gate_value`](sarif_counts::gate_value) for
/// the rest. Returns `AllocError` if memory for it runs out.
#[tactic(auto, using(crate::proofs::GateOfChange::gate_is, crate::proofs::GateOfChange::narrowed_whole))]
pub fn gate_value_of_change(
    alloc: Global,
    counts: &Counts,
    policy: &Policy,
    without: u32,
    unused: u32,
    facts: &ChangeFacts,
) -> Result<Value, AllocError>
    ensures value { IfOk result (λ v. view v ≡ said.gate_of_change (count_at counts.now)
        (hits_of (count_at counts.now) policy.now - facts.now.outside)
        facts.now policy.now without unused) }
    ensures whole { IfOk result (λ v. has_float (view v) ≡ false) }
{
    let gate = gate_value(alloc, counts, policy, without, unused)?;
    let found = hits_inside(counts, policy, facts.outside);
    let verdict = verdict_inside(counts, policy, facts.outside);
    let narrow = narrow(alloc, gate, facts, found, verdict)?;
    Ok(narrow)
}
