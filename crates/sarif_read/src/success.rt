//! Whether the analysis of a run was successful.
ghost use Rattle.std.specs.Prelude.{◌≡◌, map};
ghost use Rattle.std.specs.List.{list_any};
ghost use Rattle.serde_json.specs.View.{view};
ghost use Rattle.sarif_read.specs.Failed as said;

use serde_json::Value;

/// Whether an invocation says that it was not successful; without a boolean it doesn't say so.
fn is_unsuccessful(invocation: &Value) -> bool
    ensures { result ≡ said.is_unsuccessful (view invocation.now) }
{
    match invocation
        .get("executionSuccessful")
        .and_then(Value::as_bool)
    {
        Some(successful) => !successful,
        None => false,
    }
}

fn is_any_unsuccessful(invocations: &[Value]) -> bool
    ensures { result ≡ list_any said.is_unsuccessful (map view invocations.now) }
{
    for invocation in invocations {
        if is_unsuccessful(invocation) {
            return true;
        }
    }
    false
}

/// Whether one of the invocations of a run was not successful.
#[tactic(auto, using(sarif_model::proofs::Elements::items_back))]
pub(crate) fn has_unsuccessful(run: &Value) -> bool
    ensures { result ≡ list_any said.is_unsuccessful (said.invocations_in (view run.now)) }
{
    match run.get("invocations").and_then(Value::as_array) {
        Some(invocations) => is_any_unsuccessful(invocations),
        None => false,
    }
}
