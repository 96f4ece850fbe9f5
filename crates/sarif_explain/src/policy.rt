//! The error in a policy.
use crate::checks::{Check, Need, entry_checks};
use crate::mismatch::{Found, Mismatch, mismatch_in};
use crate::place::JsonPlace;
use crate::policy_wanted::PolicyWanted;
use crate::wanted::Wanted;
use Need::{May, Must};
use sarif_model::{At, Fault};
use serde_json::Value;
use std::alloc::{AllocError, Global};

/// The members that a policy may have.
const FILE_NAMES: &[&str] = &["version", "conditions", "$schema"];

/// The members that a condition may have.
const CONDITION_NAMES: &[&str] = &[
    "name",
    "level",
    "states",
    "max",
    "ratchet",
    "only",
    "except",
    "minSecuritySeverity",
    "unrated",
    "diff",
];

/// The members that a filter may have.
const FILTER_NAMES: &[&str] = &[
    "tool",
    "ruleId",
    "uri",
    "uriPrefix",
    "guid",
    "fingerprints",
    "partialFingerprints",
    "message",
    "messageId",
    "messageArguments",
    "snippet",
];

const FILE: &[Check] = &[Check(&[], Must, Wanted::Policy(PolicyWanted::File))];

const CONDITIONS: &[Check] = &[Check(
    &["conditions"],
    Must,
    Wanted::Policy(PolicyWanted::Conditions),
)];

const VERSION: &[Check] = &[Check(&["version"], Must, Wanted::Policy(PolicyWanted::Version))];

const NO_CONDITION: &[Check] = &[Check(
    &["conditions"],
    Must,
    Wanted::Policy(PolicyWanted::SomeConditions),
)];

const MANY_CONDITIONS: &[Check] = &[Check(
    &["conditions"],
    Must,
    Wanted::Policy(PolicyWanted::FewConditions),
)];

const CONDITION: &[Check] = &[Check(&[], Must, Wanted::Policy(PolicyWanted::Condition))];

const CONDITION_MEMBERS: &[Check] = &[
    Check(&["name"], Must, Wanted::Policy(PolicyWanted::Name)),
    Check(&["level"], May, Wanted::Policy(PolicyWanted::Level)),
    Check(&["states"], May, Wanted::Policy(PolicyWanted::States)),
    Check(&["max"], May, Wanted::Policy(PolicyWanted::Limit)),
    Check(&["ratchet"], May, Wanted::Policy(PolicyWanted::Flag)),
    Check(&["only"], May, Wanted::Policy(PolicyWanted::Filters)),
    Check(&["except"], May, Wanted::Policy(PolicyWanted::Filters)),
    Check(
        &["minSecuritySeverity"],
        May,
        Wanted::Policy(PolicyWanted::Decimal),
    ),
    Check(&["unrated"], May, Wanted::Policy(PolicyWanted::Unrated)),
    Check(&["diff"], May, Wanted::Policy(PolicyWanted::Scope)),
];

const RATED: &[Check] = &[Check(
    &["minSecuritySeverity"],
    Must,
    Wanted::Policy(PolicyWanted::Decimal),
)];

const SAME_NAME: &[Check] = &[Check(&["name"], Must, Wanted::Policy(PolicyWanted::OtherName))];

const NEEDS_DIFF: &[Check] = &[Check(&["diff"], Must, Wanted::Policy(PolicyWanted::Change))];

const FILTER: &[Check] = &[Check(&[], Must, Wanted::Policy(PolicyWanted::Filter))];

const EMPTY_FILTER: &[Check] = &[Check(&[], Must, Wanted::Condition)];

/// Returns the first member of an object that has none of these names.
fn mismatch_of_names<'a>(
    alloc: Global,
    place: &JsonPlace<'a>,
    names: &[&str],
    wanted: PolicyWanted,
) -> Found<'a> {
    let Value::Object(members) = place.value else {
        return Ok(None);
    };
    for (name, member) in members.iter() {
        if !names.iter().any(|own| *own == name.as_str()) {
            let place = place.member(alloc, name.as_str(), member)?;
            return Ok(Some(Mismatch::at(place, Wanted::Policy(wanted))));
        }
    }
    Ok(None)
}

/// Returns what is wrong in a value that is not an object of members with these names, or that has a member that fails
/// one of the checks.
fn mismatch_of_object<'a>(
    alloc: Global,
    place: &JsonPlace<'a>,
    form: &[Check],
    names: (&[&str], PolicyWanted),
    checks: &[Check],
) -> Found<'a> {
    let found = mismatch_in(alloc, place, form)?;
    if found.is_some() {
        return Ok(found);
    }
    let found = mismatch_of_names(alloc, place, names.0, names.1)?;
    if found.is_some() {
        return Ok(found);
    }
    mismatch_in(alloc, place, checks)
}

/// Returns what is wrong in a whole policy that has this error.
pub(crate) fn mismatch_of_policy<'a>(
    alloc: Global,
    root: &JsonPlace<'a>,
    fault: Fault,
) -> Found<'a> {
    match fault {
        Fault::NotPolicy => {
            let names = (FILE_NAMES, PolicyWanted::FileMembers);
            mismatch_of_object(alloc, root, FILE, names, CONDITIONS)
        }
        Fault::WrongVersion => mismatch_in(alloc, root, VERSION),
        Fault::NoCondition => mismatch_in(alloc, root, NO_CONDITION),
        Fault::TooMany => mismatch_in(alloc, root, MANY_CONDITIONS),
        _ => Ok(None),
    }
}

/// Returns what is wrong in the members of a condition: one of them, or that there is `unrated` and no minimum.
fn mismatch_of_members<'a>(alloc: Global, condition: &JsonPlace<'a>) -> Found<'a> {
    let names = (CONDITION_NAMES, PolicyWanted::ConditionMembers);
    let found = mismatch_of_object(alloc, condition, CONDITION, names, CONDITION_MEMBERS)?;
    if found.is_some() {
        return Ok(found);
    }
    match condition.value.get("unrated") {
        None | Some(Value::Null) => Ok(None),
        Some(_) => mismatch_in(alloc, condition, RATED),
    }
}

/// Returns what is wrong in a condition that has this error.
fn mismatch_of_condition<'a>(alloc: Global, condition: &JsonPlace<'a>, fault: Fault) -> Found<'a> {
    match fault {
        Fault::BadCondition => mismatch_of_members(alloc, condition),
        Fault::SameName => mismatch_in(alloc, condition, SAME_NAME),
        Fault::NeedsDiff => mismatch_in(alloc, condition, NEEDS_DIFF),
        _ => Ok(None),
    }
}

/// Returns what is wrong in a filter that has this error.
fn mismatch_of_filter<'a>(alloc: Global, filter: &JsonPlace<'a>, fault: Fault) -> Found<'a> {
    match fault {
        Fault::BadFilter => {
            let names = (FILTER_NAMES, PolicyWanted::FilterMembers);
            mismatch_of_object(alloc, filter, FILTER, names, entry_checks(Fault::BadEntry))
        }
        Fault::EmptyFilter => mismatch_in(alloc, filter, EMPTY_FILTER),
        _ => Ok(None),
    }
}

/// Returns what is wrong in the filter of that number in a list of a condition.
fn mismatch_in_list<'a>(
    alloc: Global,
    condition: JsonPlace<'a>,
    list: &str,
    number: u32,
    fault: Fault,
    wanted: Wanted,
) -> Result<Mismatch<'a>, AllocError> {
    match condition.nth(alloc, &[list], number as usize)? {
        Some(filter) => match mismatch_of_filter(alloc, &filter, fault)? {
            Some(mismatch) => Ok(mismatch),
            None => Ok(Mismatch::at(filter, wanted)),
        },
        None => Ok(Mismatch::at(condition, wanted)),
    }
}

/// Returns what is wrong in the condition or the filter of a policy at which the error is. `wanted` is what is expected
/// of it.
pub(crate) fn mismatch_in_policy<'a>(
    alloc: Global,
    root: JsonPlace<'a>,
    number: u32,
    at: At,
    fault: Fault,
    wanted: Wanted,
) -> Result<Mismatch<'a>, AllocError> {
    let Some(condition) = root.nth(alloc, &["conditions"], number as usize)? else {
        return Ok(Mismatch::at(root, wanted));
    };
    match at {
        At::Only(_, filter) => mismatch_in_list(alloc, condition, "only", filter, fault, wanted),
        At::Except(_, filter) => {
            mismatch_in_list(alloc, condition, "except", filter, fault, wanted)
        }
        _ => match mismatch_of_condition(alloc, &condition, fault)? {
            Some(mismatch) => Ok(mismatch),
            None => Ok(Mismatch::at(condition, wanted)),
        },
    }
}
