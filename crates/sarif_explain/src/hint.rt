//! What the advice depends on, besides the error.
use crate::form::Form;
use crate::place::find;
use sarif_model::{At, Fault, Source};
use serde_json::Value;

/// What was found in a source that the advice depends on.
#[derive(Clone, Copy, Debug, PartialEq, Eq)]
pub(crate) enum Hint {
    /// Nothing of the following.
    None,
    /// A member is missing.
    Missing,
    /// The log is a merged log.
    MergedLog,
    /// The log or the policy is a suppression file.
    SuppressionFile,
    /// The log is a policy.
    Policy,
    /// The log has no runs, so it is another file.
    OtherJson,
    /// The file is not JSON, and has this form.
    Form(Form),
    /// The source is a folder.
    Folder,
}

/// Returns whether a value has what a merge writes into each merged log: the gate with its counts and its verdict.
fn is_merged_log(value: &Value) -> bool {
    let counts = find(value, &["properties", "gate", "counts"]);
    let verdict = find(value, &["properties", "gate", "verdict"]);
    matches!(
        (counts, verdict),
        (Some(Value::Object(_)), Some(Value::String(_)))
    )
}

/// Returns whether a value has the list of a suppression file.
fn is_suppression_file(value: &Value) -> bool {
    matches!(value.get("suppressions"), Some(Value::Array(_)))
}

/// Returns whether a value has the list of a policy.
fn is_policy(value: &Value) -> bool {
    matches!(value.get("conditions"), Some(Value::Array(_)))
}

/// Returns what the advice on this error in a source with this value depends on. If `is_missing` is set, a member is
/// missing.
pub(crate) fn hint_of(value: &Value, fault: Fault, is_missing: bool) -> Hint {
    match fault {
        Fault::AbsentInput if is_merged_log(value) => Hint::MergedLog,
        Fault::NotLog | Fault::NotPolicy if is_suppression_file(value) => Hint::SuppressionFile,
        Fault::NotLog if is_policy(value) => Hint::Policy,
        Fault::NotLog if value.get("runs").is_none() => Hint::OtherJson,
        _ if is_missing => Hint::Missing,
        _ => Hint::None,
    }
}

/// Returns what the advice on a source that is not JSON depends on. No analyser writes a policy, so there its form says
/// nothing.
pub(crate) fn hint_of_form(at: At, form: Form) -> Hint {
    match at {
        At::Whole(Source::Policy) => Hint::None,
        _ => Hint::Form(form),
    }
}
