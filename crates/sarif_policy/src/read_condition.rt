//! Reading a condition of a policy. Each check succeeds or returns its error.
ghost use Rattle.std.specs.Prelude.{◌≡◌, ◌≤◌, [], ℕ, List, Option, map, option_map, option_and_then, length, Ok, Err, Some, None, IfOk, IfSome};
ghost use Rattle.std.specs.List.{list_any, list_all};
ghost use Rattle.serde_json.specs.Find.{as_str};
ghost use Rattle.serde_json.specs.View.{view};
ghost use Rattle.sarif_model.specs.Members.{result_map};
ghost use Rattle.sarif_model.specs.Internal.Refusal.{IfFault};
ghost use Rattle.sarif_model.specs.State.{state_named};
ghost use Rattle.sarif_policy.specs.Fault as faults;
ghost use Rattle.sarif_policy.specs.Limits.{most_filters};
ghost use Rattle.sarif_policy.specs.Reading as said;

use crate::condition::{GateCondition, Minimum, Unrated};
use crate::decimal::Decimal;
use crate::fault::{PolicyCause, PolicyFault};
use crate::limits::LONGEST_NAME;
use crate::members::{Part, array_at, max_at, ratchet_at};
use crate::read_filter::{except_of, filters_at, only_of};
use sarif_change::Scope;
use sarif_model::members::text_at;
use sarif_model::{Level, Refusal, Sequence, State, Text};
use sarif_options::{Policy, States};
use serde_json::Value;
use std::alloc::Global;

/// Returns whether the name of a condition may have this byte.
fn is_name_byte(byte: u8) -> bool
    ensures { result ≡ said.is_name_byte byte }
{
    (b'A' <= byte && byte <= b'Z')
        || (b'a' <= byte && byte <= b'z')
        || (b'0' <= byte && byte <= b'9')
        || byte == b'.'
        || byte == b'_'
        || byte == b'-'
        || byte == b' '
}

/// Returns whether the name of a condition may have all these bytes.
fn are_name_bytes(text: &[u8]) -> bool
    ensures { result ≡ list_all said.is_name_byte text.now }
{
    text.iter().all(|b| is_name_byte(*b))
}

/// Returns whether a string may be the name of a condition.
fn is_name(text: &[u8]) -> bool
    ensures { result ≡ said.is_name text.now }
{
    !text.is_empty()
        && text.len() <= LONGEST_NAME
        && are_name_bytes(text)
        && text[0] != b' '
        && text[text.len() - 1] != b' '
}

/// Returns the name of a condition.
fn name_at(alloc: Global, value: &Value, wrong: PolicyFault) -> Result<Text, Refusal<PolicyFault>>
    ensures ok { IfOk result (λ name. said.name_at wrong (view value.now) ≡ Ok name) }
    ensures err { IfFault result (λ found. said.name_at wrong (view value.now) ≡ Err found) }
{
    match text_at(value, "name", wrong)? {
        None => Err(Refusal::Fault(wrong)),
        Some(text) => {
            if is_name(text.as_bytes()) {
                Ok(Text::copy_of(alloc, text)?)
            } else {
                Err(Refusal::Fault(wrong))
            }
        }
    }
}

/// Returns the minimum level of a hit; `error` if it is missing.
fn level_at(value: &Value, wrong: PolicyFault) -> Result<Level, PolicyFault>
    ensures { result ≡ said.level_at wrong (view value.now) }
{
    match text_at(value, "level", wrong)? {
        None => Ok(Level::Error),
        Some(text) => Level::from_name(text).ok_or(wrong),
    }
}

/// Returns no state.
fn no_states() -> States
    ensures { result ≡ said.no_states }
{
    States {
        absent: false,
        fresh: false,
        unchanged: false,
        updated: false,
    }
}

/// Returns these states and this one.
fn with_state(states: States, state: State) -> States
    ensures { result ≡ said.with_state states state }
{
    match state {
        State::New => States {
            fresh: true,
            ..states
        },
        State::Unchanged => States {
            unchanged: true,
            ..states
        },
        State::Updated => States {
            updated: true,
            ..states
        },
        State::Absent => States {
            absent: true,
            ..states
        },
    }
}

/// Returns the state that a value names.
fn state_of(value: &Value) -> Option<State>
    ensures { result ≡ option_and_then state_named (as_str (view value.now)) }
{
    State::from_name(value.as_str()?)
}

/// Returns these states and the one that a value names, if it isn't among them.
fn one_more(states: States, value: &Value) -> Option<States>
    ensures { result ≡ option_and_then (said.one_more states)
        (option_and_then state_named (as_str (view value.now))) }
{
    let state = state_of(value)?;
    if states.lists(state) {
        None
    } else {
        Some(with_state(states, state))
    }
}

/// Returns the states that the values name, if each names one that no earlier one does.
#[tactic(auto, using(crate::proofs::FromStates::goes_on, crate::proofs::FromStates::stops, crate::proofs::FromStates::at_end))]
fn states_of(values: &[Value]) -> Option<States>
    ensures { result ≡ said.states_from said.no_states (map view values.now) }
{
    let mut states = no_states();
    for value in values {
        match one_more(states, value) {
            Some(more) => states = more,
            None => return None,
        }
    }
    Some(states)
}

/// Returns the states of hits; `new` and `updated` if the member is missing.
fn states_at(value: &Value, wrong: PolicyFault) -> Result<States, PolicyFault>
    ensures { result ≡ said.states_at wrong (view value.now) }
{
    match array_at(value, "states", wrong)? {
        None => Ok(Policy::default().states),
        Some(values) => {
            if values.is_empty() {
                Err(wrong)
            } else {
                states_of(values).ok_or(wrong)
            }
        }
    }
}

/// Returns the minimum security severity, if there is one.
fn least_at(
    alloc: Global,
    value: &Value,
    wrong: PolicyFault,
) -> Result<Option<Decimal>, Refusal<PolicyFault>>
    ensures ok { IfOk result (λ least. said.least_at wrong (view value.now) ≡ Ok least) }
    ensures err { IfFault result (λ found. said.least_at wrong (view value.now) ≡ Err found) }
{
    match text_at(value, "minSecuritySeverity", wrong)? {
        None => Ok(None),
        Some(text) => match Decimal::read(alloc, text)? {
            Some(least) => Ok(Some(least)),
            None => Err(Refusal::Fault(wrong)),
        },
    }
}

/// Returns whether a result without a rating meets the minimum, if the member is there.
fn unrated_at(value: &Value, wrong: PolicyFault) -> Result<Option<Unrated>, PolicyFault>
    ensures { result ≡ said.unrated_at wrong (view value.now) }
{
    match text_at(value, "unrated", wrong)? {
        None => Ok(None),
        Some(text) => {
            if text == "count" {
                Ok(Some(Unrated::Count))
            } else if text == "skip" {
                Ok(Some(Unrated::Skip))
            } else {
                Err(wrong)
            }
        }
    }
}

/// Returns the minimum security severity, and whether a result without a rating meets it.
#[tactic(auto, unfolding(crate::specs::Reading::minimum_at))]
fn minimum_at(
    alloc: Global,
    value: &Value,
    wrong: PolicyFault,
) -> Result<Option<Minimum>, Refusal<PolicyFault>>
    ensures ok { IfOk result (λ minimum. said.minimum_at wrong (view value.now) ≡ Ok minimum) }
    ensures err { IfFault result (λ found. said.minimum_at wrong (view value.now) ≡ Err found) }
{
    let least = least_at(alloc, value, wrong)?;
    let unrated = unrated_at(value, wrong)?;
    match least {
        Some(least) => Ok(Some(Minimum {
            least,
            unrated: unrated.unwrap_or(Unrated::Count),
        })),
        None => {
            if unrated.is_some() {
                Err(Refusal::Fault(wrong))
            } else {
                Ok(None)
            }
        }
    }
}

/// Returns the scope in which results must be inside the change, if there is one.
fn scope_at(value: &Value, wrong: PolicyFault) -> Result<Option<Scope>, PolicyFault>
    ensures { result ≡ said.scope_at wrong (view value.now) }
{
    match text_at(value, "diff", wrong)? {
        None => Ok(None),
        Some(text) => {
            if text == "lines" {
                Ok(Some(Scope::Lines))
            } else if text == "files" {
                Ok(Some(Scope::Files))
            } else {
                Err(wrong)
            }
        }
    }
}

/// Returns whether a condition may have all three. An absent result makes a limit grow and is never inside a change, so
/// `absent`, `ratchet` and `diff` exclude each other.
fn go_together(states: States, ratchet: bool, diff: Option<Scope>) -> bool
    ensures { result ≡ said.go_together states ratchet diff }
{
    !(states.absent && (ratchet || diff.is_some())) && !(ratchet && diff.is_some())
}

/// Returns the error, unless the test passes.
pub(crate) fn unless_fault(passes: bool, fault: PolicyFault) -> Result<(), PolicyFault>
    ensures { result ≡ faults.unless_fault passes fault }
{
    if passes { Ok(()) } else { Err(fault) }
}

/// Returns a condition without its filters, minimum security severity and scope.
#[tactic(auto, unfolding(crate::specs::Reading::plain_of))]
fn plain_of(
    alloc: Global,
    value: &Value,
    wrong: PolicyFault,
) -> Result<GateCondition, Refusal<PolicyFault>>
    ensures ok { IfOk result (λ plain. said.plain_of wrong (view value.now) ≡ Ok plain) }
    ensures err { IfFault result (λ found. said.plain_of wrong (view value.now) ≡ Err found) }
{
    let name = name_at(alloc, value, wrong)?;
    let level = level_at(value, wrong)?;
    let states = states_at(value, wrong)?;
    let max = max_at(value, wrong)?;
    let ratchet = ratchet_at(value, wrong)?;
    Ok(GateCondition {
        name,
        level,
        states,
        max,
        ratchet,
        only: None,
        except: Sequence::new(alloc),
        minimum: None,
        diff: None,
    })
}

/// Returns a condition with a minimum security severity and a scope, if they go together.
fn with_scope(
    plain: GateCondition,
    minimum: Option<Minimum>,
    diff: Option<Scope>,
    wrong: PolicyFault,
) -> Result<GateCondition, PolicyFault>
    ensures { result ≡ said.with_scope plain minimum diff wrong }
{
    let mut condition = plain;
    condition.minimum = minimum;
    condition.diff = diff;
    if go_together(condition.states, condition.ratchet, diff) {
        Ok(condition)
    } else {
        Err(wrong)
    }
}

/// Returns a condition without its filters.
#[tactic(auto, unfolding(crate::specs::Reading::bare_of))]
fn bare_of(
    alloc: Global,
    value: &Value,
    wrong: PolicyFault,
) -> Result<GateCondition, Refusal<PolicyFault>>
    ensures ok { IfOk result (λ bare. said.bare_of wrong (view value.now) ≡ Ok bare) }
    ensures err { IfFault result (λ found. said.bare_of wrong (view value.now) ≡ Err found) }
{
    unless_fault(Part::Condition.is_object(value), wrong)?;
    let plain = plain_of(alloc, value, wrong)?;
    let minimum = minimum_at(alloc, value, wrong)?;
    let diff = scope_at(value, wrong)?;
    Ok(with_scope(plain, minimum, diff, wrong)?)
}

/// Returns a condition with the filters of both lists.
#[tactic(auto, unfolding(crate::specs::Reading::with_filters))]
fn with_filters(
    alloc: Global,
    number: u32,
    bare: GateCondition,
    only: Option<&[Value]>,
    except: Option<&[Value]>,
) -> Result<GateCondition, Refusal<PolicyFault>>
    requires only { IfSome only (λ vs. length vs.now ≤ most_filters) }
    requires except { IfSome except (λ vs. length vs.now ≤ most_filters) }
    ensures ok { IfOk result (λ c. said.with_filters number bare
        (option_map (λ vs. map view vs.now) only.entry)
        (option_map (λ vs. map view vs.now) except.entry)
        ≡ Ok c) }
    ensures err { IfFault result (λ found. said.with_filters number bare
        (option_map (λ vs. map view vs.now) only.entry)
        (option_map (λ vs. map view vs.now) except.entry)
        ≡ Err found) }
{
    let mut condition = bare;
    condition.only = only_of(alloc, number, only)?;
    condition.except = except_of(alloc, number, except)?;
    Ok(condition)
}

/// Returns the condition with this number, with its filters.
#[tactic(auto, unfolding(crate::specs::Reading::filtered_of))]
fn filtered_of(
    alloc: Global,
    number: u32,
    value: &Value,
) -> Result<GateCondition, Refusal<PolicyFault>>
    ensures ok { IfOk result (λ c. said.filtered_of number (view value.now) ≡ Ok c) }
    ensures err { IfFault result (λ found. said.filtered_of number (view value.now) ≡ Err found) }
{
    let wrong = PolicyFault::in_condition(number, PolicyCause::BadCondition);
    let only = filters_at(value, "only", wrong)?;
    let except = filters_at(value, "except", wrong)?;
    let bare = bare_of(alloc, value, wrong)?;
    with_filters(alloc, number, bare, only, except)
}

/// Returns whether an earlier condition has the name of this one.
fn has_same_name(earlier: &[GateCondition], condition: &GateCondition) -> bool
    ensures { result ≡ said.has_same_name earlier.now condition.now }
{
    earlier.iter().any(|other| other.name == condition.name)
}

/// Returns the condition with this number, if no earlier one has its name, and there is a diff if it needs one.
fn if_accepted(
    has_diff: bool,
    number: u32,
    earlier: &[GateCondition],
    condition: GateCondition,
) -> Result<GateCondition, PolicyFault>
    ensures { result ≡ said.if_accepted has_diff number earlier.now condition }
{
    if has_same_name(earlier, &condition) {
        Err(PolicyFault::in_condition(number, PolicyCause::SameName))
    } else if has_diff || condition.diff.is_none() {
        Ok(condition)
    } else {
        Err(PolicyFault::in_condition(number, PolicyCause::NeedsDiff))
    }
}

/// Returns the condition with this number, after earlier ones. `has_diff`: whether there is a diff.
#[tactic(auto, unfolding(crate::specs::Reading::condition_of))]
pub(crate) fn condition_of(
    alloc: Global,
    has_diff: bool,
    number: u32,
    earlier: &[GateCondition],
    value: &Value,
) -> Result<GateCondition, Refusal<PolicyFault>>
    ensures ok { IfOk result
        (λ c. said.condition_of has_diff number earlier.now (view value.now) ≡ Ok c) }
    ensures err { IfFault result
        (λ found. said.condition_of has_diff number earlier.now (view value.now) ≡ Err found) }
{
    let condition = filtered_of(alloc, number, value)?;
    Ok(if_accepted(has_diff, number, earlier, condition)?)
}
