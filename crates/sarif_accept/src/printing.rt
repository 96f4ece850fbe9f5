//! The text of a suppression file.
ghost use Rattle.std.specs.Prelude.{◌≡◌, ◌≤◌, Some, false, string_bytes, IfOk};
ghost use Rattle.serde_json.specs.Data.{Members, object, depth};
ghost use Rattle.serde_json.specs.Read.{max_depth};
ghost use Rattle.serde_json.specs.View.{view};
ghost use Rattle.serde_json.specs.Written.{has_float};
ghost use Rattle.json_parts.specs.Indexed.{json_of};
ghost use Rattle.json_parts.specs.Mark.{without_mark};
ghost use Rattle.sarif_accept.specs.NewFile as said;

use serde_json::Value;
use std::alloc::{AllocError, Global};

/// The text of an object without fractions that nests at most `MAX_DEPTH` deep, each value on its line, and a line feed.
/// It is read as this object.
#[tactic(auto, using(crate::proofs::FileText::text_is, crate::proofs::FileText::text_reads))]
pub(crate) fn print_file(alloc: Global, file: &Value) -> Result<String, AllocError>
    requires shallow { depth (view file.now) ≤ max_depth }
    requires object { (ms : Members) × (view file.now ≡ object ms) }
    requires whole { has_float (view file.now) ≡ false }
    ensures text { IfOk result (λ s. string_bytes s ≡ said.file_text (view file.now)) }
    ensures reads { IfOk result
        (λ s. json_of (without_mark (string_bytes s)) ≡ Some (view file.now)) }
{
    let mut text = file.to_string_pretty(alloc)?;
    text.push_str("\n")?;
    Ok(text)
}
