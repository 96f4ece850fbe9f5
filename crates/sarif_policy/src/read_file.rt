//! Reading a policy file: first its form, then its conditions in order.
ghost use Rattle.std.specs.Prelude.{◌≡◌, ◌≤◌, [], length, map, Ok, Err, Some, None, IfOk, OnOk};
ghost use Rattle.serde_json.specs.View.{view};
ghost use Rattle.json_parts.specs.Indexed.{json_of};
ghost use Rattle.sarif_model.specs.Members.{result_map};
ghost use Rattle.sarif_model.specs.Internal.Refusal.{IfFault};
ghost use Rattle.sarif_policy.specs.Fault.{whole};
ghost use Rattle.sarif_policy.specs.File as said;
ghost use Rattle.sarif_policy.specs.declared.fault.PolicyCause.TheVariants as causes;
ghost use Rattle.sarif_policy.specs.Limits.{most_conditions};

use crate::condition::{GateCondition, GatePolicy};
use crate::fault::{PolicyCause, PolicyFault};
use crate::limits::MOST_CONDITIONS;
use crate::members::Part;
use crate::read_condition::{condition_of, unless_fault};
use json_parts::without_mark;
use sarif_model::{Refusal, Sequence};
use serde_json::Value;
use std::alloc::Global;

/// Returns the elements of `conditions` of an object of known members. Returns `NotPolicy` if it is anything else.
#[tactic(auto, using(sarif_model::proofs::Elements::elements_items_view))]
fn check_list(policy: &Value) -> Result<&[Value], PolicyFault>
    ensures { result_map (λ vs. map view vs.now) result ≡ said.check_list (view policy.now) }
{
    if !Part::Policy.is_object(policy) {
        return Err(PolicyFault::whole(PolicyCause::NotPolicy));
    }
    match policy.get("conditions").and_then(Value::as_array) {
        Some(conditions) => Ok(conditions.as_slice()),
        None => Err(PolicyFault::whole(PolicyCause::NotPolicy)),
    }
}

/// Returns whether `version` is the integer 1.
fn is_first(policy: &Value) -> bool
    ensures { result ≡ said.is_first (view policy.now) }
{
    match policy.get("version").and_then(Value::as_u64) {
        Some(number) => number == 1,
        None => false,
    }
}

/// Checks that there are 1 to `MOST_CONDITIONS` conditions.
fn check_count(conditions: &[Value]) -> Result<(), PolicyFault>
    ensures passes { result ≡ said.check_count (map view conditions.now) }
    ensures some { OnOk result (1 ≤ length conditions.now) }
    ensures few { OnOk result (length conditions.now ≤ most_conditions) }
{
    if conditions.is_empty() {
        Err(PolicyFault::whole(PolicyCause::NoCondition))
    } else if conditions.len() <= MOST_CONDITIONS {
        Ok(())
    } else {
        Err(PolicyFault::whole(PolicyCause::TooMany))
    }
}

/// Returns the conditions, or the first error among them.
#[tactic(auto, using(crate::proofs::FromConditions::goes_on, crate::proofs::FromConditions::stops, crate::proofs::FromConditions::at_end))]
fn conditions_from(
    alloc: Global,
    has_diff: bool,
    values: &[Value],
) -> Result<Sequence<GateCondition>, Refusal<PolicyFault>>
    requires { length values.now ≤ most_conditions }
    ensures size { IfOk result (λ cs. length cs ≡ length values.now) }
    ensures ok { IfOk result (λ cs.
        said.conditions_from has_diff 0 [] (map view values.now) ≡ Ok cs) }
    ensures err { IfFault result (λ found.
        said.conditions_from has_diff 0 [] (map view values.now) ≡ Err found) }
{
    let mut conditions = Sequence::new(alloc);
    for (number, value) in values.iter().enumerate() {
        let condition = condition_of(alloc, has_diff, number as u32, conditions.as_slice(), value)?;
        conditions.push(condition)?;
    }
    Ok(conditions)
}

/// Returns the JSON value of `bytes`. Returns `NotJson` if they have none.
#[tactic(auto, using(json_parts::proofs::Utf8::json_of_read, json_parts::proofs::Utf8::json_of_refused))]
fn read_json(alloc: Global, bytes: &[u8]) -> Result<Value, Refusal<PolicyFault>>
    ensures ok { IfOk result (λ v. json_of bytes.now ≡ Some (view v)) }
    ensures err { IfFault result
        (λ fault. (fault ≡ whole causes.NotJson) × (json_of bytes.now ≡ None)) }
{
    match Value::from_slice(alloc, bytes) {
        Ok(value) => Ok(value),
        Err(error) => {
            if error.is_memory() {
                Err(Refusal::OutOfMemory)
            } else {
                Err(Refusal::Fault(PolicyFault::whole(PolicyCause::NotJson)))
            }
        }
    }
}

/// Returns the policy that a value represents.
#[tactic(auto, unfolding(crate::specs::File::policy_of_value))]
fn read_value(
    alloc: Global,
    value: &Value,
    has_diff: bool,
) -> Result<GatePolicy, Refusal<PolicyFault>>
    ensures ok { IfOk result (λ policy.
        said.policy_of_value has_diff (view value.now) ≡ Ok policy.conditions) }
    ensures err { IfFault result
        (λ found. said.policy_of_value has_diff (view value.now) ≡ Err found) }
{
    let values = check_list(value)?;
    unless_fault(
        is_first(value),
        PolicyFault::whole(PolicyCause::WrongVersion),
    )?;
    check_count(values)?;
    let conditions = conditions_from(alloc, has_diff, values)?;
    Ok(GatePolicy { conditions })
}

/// Reads a policy file, an object with `version` and `conditions`. `has_diff` says whether the gate has a diff. It makes
/// the checks in this order and returns the first error: `NotJson`, `NotPolicy`, `WrongVersion`, `NoCondition`,
/// `TooMany`, and then for each condition `BadCondition`, for each filter of `only` and then of `except` `BadFilter` and
/// `EmptyFilter`, `SameName` and `NeedsDiff`. Returns `OutOfMemory` if memory runs out.
#[tactic(auto, unfolding(crate::specs::File::policy_of))]
pub fn read_policy(
    alloc: Global,
    bytes: &[u8],
    has_diff: bool,
) -> Result<GatePolicy, Refusal<PolicyFault>>
    ensures ok { IfOk result
        (λ policy. said.policy_of bytes.now has_diff ≡ Ok policy.conditions) }
    ensures err { IfFault result (λ found. said.policy_of bytes.now has_diff ≡ Err found) }
{
    let value = read_json(alloc, without_mark(bytes))?;
    read_value(alloc, &value, has_diff)
}
