//! Returns whether a result is suppressed, from its written suppressions.
ghost use Rattle.std.specs.Prelude.{◌≡◌, codes, map};
ghost use Rattle.serde_json.specs.Find.{get};
ghost use Rattle.serde_json.specs.View.{view, items_of};
ghost use Rattle.sarif_counts.specs.CountOf.{suppresses, all_accepted, accepts};

use sarif_model::Status;
use serde_json::Value;

/// Whether a suppression's status is `accepted`, as it counts where it is absent.
fn is_accepted(suppression: &Value) -> bool
    ensures { result ≡ accepts (get (codes "status") (view suppression.now)) }
{
    match suppression.get("status") {
        None | Some(Value::Null) => true,
        Some(Value::String(text)) => match Status::from_name(text.as_str()) {
            Some(Status::Accepted) => true,
            _ => false,
        },
        Some(_) => false,
    }
}

fn are_accepted(suppressions: &[Value]) -> bool
    ensures { result ≡ all_accepted (items_of (map view suppressions.now)) }
{
    for suppression in suppressions {
        if !is_accepted(suppression) {
            return false;
        }
    }
    true
}

/// Whether a result with these suppressions is suppressed: there is one, and all are accepted (SARIF 2.1.0, result
/// object, "suppressions property").
pub fn is_suppressing(suppressions: &[Value]) -> bool
    ensures { result ≡ suppresses (items_of (map view suppressions.now)) }
{
    !suppressions.is_empty() && are_accepted(suppressions)
}
