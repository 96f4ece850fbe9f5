//! The mark of a result that is absent.
ghost use Rattle.std.specs.Prelude.{◌≡◌};
ghost use Rattle.serde_json.specs.View.{view as seen};
ghost use Rattle.sarif_model.specs.Run.{is_absent_result};

use serde_json::Value;

/// Returns whether the `baselineState` of a result is the string `absent` (SARIF 2.1.0, "baselineState property").
pub fn is_marked_absent(found: &Value) -> bool
    ensures { result ≡ is_absent_result (seen found.now) }
{
    match found.get("baselineState").and_then(Value::as_str) {
        Some("absent") => true,
        _ => false,
    }
}
