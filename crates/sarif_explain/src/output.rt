//! The explanation of an output that would be too large for later merges.
ghost use Rattle.std.specs.Prelude.{◌≡◌, ◌++◌, ℕ, List, IfOk, codes, option_map, string_bytes};
ghost use Rattle.json_parts.specs.Indexed.{json_of};
ghost use Rattle.serde_json.specs.View.{view};
ghost use Rattle.sarif_explain.specs.Internal.Lines.{file_line, line_of};
ghost use Rattle.sarif_explain.specs.Internal.PastLimit as said;

use crate::advice::advice_on_output;
use crate::explaining::push_sentence;
use crate::lines::{push_file, push_line};
use crate::whole::wanted_by;
use json_parts::without_mark;
use sarif_model::{Cause, Fault, MOST_BYTES, MOST_ENTRIES, MergeFault};
use serde_json::Value;
use std::alloc::{AllocError, Global};

/// Returns the explanation of an output with this file name that would be past a limit, so that no later merge could
/// read it: the lines `file`, `wanted` and `advice` of [`explanation`](crate::explanation). Returns `AllocError` if
/// memory runs out.
pub fn output_explanation(
    alloc: Global,
    fault: &MergeFault,
    file: &str,
) -> Result<String, AllocError>
    ensures { IfOk result (λ s. (wanted : List ℕ) × (advice : List ℕ)
        × (string_bytes s ≡ file_line file.now
        ++ (line_of (codes "wanted") wanted ++ line_of (codes "advice") advice))) }
{
    let mut lines = String::new(alloc);
    push_file(alloc, &mut lines, file)?;
    push_sentence(alloc, &mut lines, wanted_by(fault))?;
    push_line(alloc, &mut lines, "advice", advice_on_output(fault.at))?;
    Ok(lines)
}

/// Returns whether the suppression file with these bytes is past the limit of this cause itself. Otherwise an error with
/// this cause is one of the new suppression file. Returns `AllocError` if memory runs out.
pub fn is_past_limit(alloc: Global, cause: Cause, bytes: &[u8]) -> Result<bool, AllocError>
    ensures { IfOk result (λ is. is ≡ said.is_past_limit cause bytes.now) }
{
    match cause {
        Cause::TooLong => Ok(bytes.len() > MOST_BYTES),
        Cause::Of(Fault::TooMany) => has_many_in(alloc, without_mark(bytes)),
        _ => Ok(true),
    }
}

/// Returns whether these bytes are a suppression file with more entries than a merge reads.
#[tactic(auto, using(crate::proofs::PastLimitMore::many_in_value, crate::proofs::PastLimitMore::not_many_in_none))]
fn has_many_in(alloc: Global, bytes: &[u8]) -> Result<bool, AllocError>
    ensures { IfOk result (λ is. is ≡ said.has_many_in bytes.now) }
{
    match value_of(alloc, bytes)? {
        Some(file) => Ok(has_many_entries(&file)),
        None => Ok(false),
    }
}

/// Returns the value of these bytes, or `None` if they are not JSON.
#[tactic(auto, using(json_parts::proofs::Utf8::json_of_read, json_parts::proofs::Utf8::json_of_refused))]
fn value_of(alloc: Global, bytes: &[u8]) -> Result<Option<Value>, AllocError>
    ensures { IfOk result (λ value. json_of bytes.now ≡ option_map view value) }
{
    match Value::from_slice(alloc, bytes) {
        Ok(value) => Ok(Some(value)),
        Err(error) => {
            if error.is_memory() {
                Err(AllocError)
            } else {
                Ok(None)
            }
        }
    }
}

/// Returns whether a suppression file has more entries than a merge reads.
#[tactic(auto, using(sarif_model::proofs::Elements::length_elements))]
fn has_many_entries(file: &Value) -> bool
    ensures { result ≡ said.has_many_entries (view file.now) }
{
    match file.get("suppressions").and_then(Value::as_array) {
        Some(entries) => entries.len() > MOST_ENTRIES,
        None => false,
    }
}
