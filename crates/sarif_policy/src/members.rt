//! Which members the objects of a policy file may have, and reading them by type.
ghost use Rattle.std.specs.Prelude.{◌≡◌, map, option_map};
ghost use Rattle.serde_json.specs.View.{view, members_view};
ghost use Rattle.sarif_model.specs.Members.{result_map};
ghost use Rattle.sarif_policy.specs.Reading as said;
ghost use Rattle.sarif_policy.specs.declared.members.Part.TheVariants as PartOf;

use crate::fault::PolicyFault;
use sarif_entries::ConditionKind;
use sarif_model::members::member_at;
use serde_json::{Map, Value};

/// The kinds of objects in a policy file.
#[derive(Clone, Copy, Debug, PartialEq, Eq)]
pub(crate) enum Part {
    /// The policy.
    Policy,
    /// A condition.
    Condition,
    /// A filter.
    Filter,
}

/// Returns whether a filter may have a member of that name: the members of an entry of a suppression file that are
/// conditions.
fn is_filter_member(name: &str) -> bool
    ensures { result ≡ said.is_filter_member name.now }
{
    ConditionKind::ALL.iter().any(|kind| name == kind.name())
}

/// Returns whether a condition may have a member of that name.
fn is_condition_member(name: &str) -> bool
    ensures { result ≡ said.has_member PartOf.Condition name.now }
{
    name == "name"
        || name == "level"
        || name == "states"
        || name == "max"
        || name == "ratchet"
        || name == "only"
        || name == "except"
        || name == "minSecuritySeverity"
        || name == "unrated"
        || name == "diff"
}

impl Part {
    /// Returns whether it may have a member of that name.
    fn has_member(self, name: &str) -> bool
        ensures { result ≡ said.has_member self name.now }
    {
        match self {
            Part::Policy => name == "version" || name == "conditions" || name == "$schema",
            Part::Condition => is_condition_member(name),
            Part::Filter => is_filter_member(name),
        }
    }

    /// Returns whether it may have all these members.
    fn has_members(self, members: &Map<String, Value>) -> bool
        ensures { result ≡ said.are_members_of self (members_view members.now.entries) }
    {
        for (name, _) in members.iter() {
            if !self.has_member(name.as_str()) {
                return false;
            }
        }
        true
    }

    /// Returns whether a value is an object of members that it may have.
    pub(crate) fn is_object(self, value: &Value) -> bool
        ensures { result ≡ said.is_object_of self (view value.now) }
    {
        match value.as_object() {
            Some(members) => self.has_members(members),
            None => false,
        }
    }
}

/// Returns the elements of the array `name`, if it is there.
#[tactic(auto, using(sarif_model::proofs::Elements::elements_items_view))]
pub(crate) fn array_at<'a>(
    value: &'a Value,
    name: &str,
    wrong: PolicyFault,
) -> Result<Option<&'a [Value]>, PolicyFault>
    ensures { result_map (option_map (λ vs. map view vs.now)) result
        ≡ said.array_at wrong name.now (view value.now) }
{
    match member_at(value, name) {
        None => Ok(None),
        Some(member) => match member.as_array() {
            Some(items) => Ok(Some(items.as_slice())),
            None => Err(wrong),
        },
    }
}

/// Returns the integer `max` from 0 to 4,294,967,295; 0 if it is missing.
pub(crate) fn max_at(value: &Value, wrong: PolicyFault) -> Result<u32, PolicyFault>
    ensures { result ≡ said.max_at wrong (view value.now) }
{
    match member_at(value, "max") {
        None => Ok(0),
        Some(member) => match member.as_u64() {
            Some(number) => {
                if number <= u32::MAX as u64 {
                    Ok(number as u32)
                } else {
                    Err(wrong)
                }
            }
            None => Err(wrong),
        },
    }
}

/// Returns the boolean `ratchet`; false if it is missing.
pub(crate) fn ratchet_at(value: &Value, wrong: PolicyFault) -> Result<bool, PolicyFault>
    ensures { result ≡ said.ratchet_at wrong (view value.now) }
{
    match member_at(value, "ratchet") {
        None => Ok(false),
        Some(member) => match member.as_bool() {
            Some(flag) => Ok(flag),
            None => Err(wrong),
        },
    }
}
