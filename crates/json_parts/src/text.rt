//! Adding the text of a value to a string.
ghost use Rattle.std.specs.Prelude.{◌≡◌, ◌++◌, ◌∷◌, [], OnOk, false, string_bytes};
ghost use Rattle.serde_json.specs.View.{view};
ghost use Rattle.serde_json.specs.Written.{compact_text, has_float};
ghost use Rattle.json_parts.specs.Internal.Around.{name_text};

use serde_json::Value;
use std::alloc::{AllocError, Global};

/// Adds the compact text of a value that holds no number with a fraction. Returns `AllocError` if memory runs out;
/// some of it may then have been added.
pub fn push_value(alloc: Global, text: &mut String, value: &Value) -> Result<(), AllocError>
    requires whole { has_float (view value.now) ≡ false }
    ensures added { OnOk result
        (string_bytes text.new ≡ string_bytes text.old ++ compact_text (view value.now)) }
{
    text.push_str(value.to_string(alloc)?.as_str())?;
    Ok(())
}

/// Adds a member's name, with its colon.
pub(crate) fn push_name(alloc: Global, text: &mut String, name: String) -> Result<(), AllocError>
    ensures added { OnOk result
        (string_bytes text.new ≡ string_bytes text.old ++ name_text (string_bytes name)) }
{
    push_value(alloc, text, &Value::String(name))?;
    text.push_str(":")?;
    Ok(())
}
