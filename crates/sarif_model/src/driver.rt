//! Reading a log: JSON, stripping, and the form of the log and of its runs.
ghost use Rattle.std.specs.Prelude.{◌≡◌, option_map};
ghost use Rattle.serde_json.specs.View.{view};
ghost use Rattle.sarif_model.specs.Driver as said;

use serde_json::Value;

/// The `name` of the driver of the run's tool, if it is a string.
pub fn driver_name(run: &Value) -> Option<&str>
    ensures { option_map (λ s. s.now) result ≡ said.driver_name (view run.now) }
{
    run.get("tool")?.get("driver")?.get("name")?.as_str()
}
