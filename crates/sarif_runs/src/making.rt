//! The record of a result.
ghost use Rattle.std.specs.Prelude.{◌≡◌, Ok, Err, IfOk};
ghost use Rattle.serde_json.specs.View.{view};
ghost use Rattle.sarif_model.specs.Internal.Refusal.{IfFault};
ghost use Rattle.sarif_runs.specs.Reading.{Gives};
ghost use Rattle.sarif_runs.specs.Record.{rule_id_of, if_placed, record_by, record_in};
ghost use Rattle.sarif_model.specs.Driver.{tool_name};
ghost use Rattle.sarif_read.specs.Internal.Listed.{value_at};

use crate::head::RunHead;
use crate::ignoring::without_names;
use crate::run_options::RecordOptions;
use json_parts::Node;
use sarif_members::{Parts, read_members, read_node_members};
use sarif_model::{Fault, Place, Record, Refusal, Sequence, Text, driver_name};
use serde_json::Value;
use std::alloc::{AllocError, Global};

/// Makes the record of a result of a run with that head and that tool (SARIF 2.1.0, "result object"). The errors
/// are those of [`read_members`](sarif_members::read_members), and then `BadIndex` if the component, the rule, the
/// invocation or, without a `uri`, the artifact is past the end of its table. Returns `OutOfMemory` if memory runs
/// out. With `options.regions` the record has the region and the snippet of the first location, if that names an
/// artifact. It has no fingerprint of either type with one of the names in `options.ignored`.
#[tactic(auto, unfolding(crate::specs::Record::record_in))]
pub fn make_record_of(
    alloc: Global,
    head: &RunHead,
    tool: &Text,
    result_value: &Value,
    options: &RecordOptions<'_>,
) -> Result<Record, Refusal<Fault>>
    ensures ok { IfOk result
        (λ made. record_in options.now head.now tool.now (view result_value.now) ≡ Ok made) }
    ensures err { IfFault result
        (λ fault. record_in options.now head.now tool.now (view result_value.now) ≡ Err fault) }
{
    let parts = read_members(alloc, result_value, options.regions)?;
    finish_record(alloc, head, tool, parts, options)
}

/// Makes the record of a result of an indexed log, as [`make_record_of`] does of its stripped value, with the same errors
/// in the same order. No value of the result is made.
#[tactic(auto, unfolding(crate::specs::Record::record_in))]
pub(crate) fn make_node_record(
    alloc: Global,
    head: &RunHead,
    tool: &Text,
    found: &Node<'_, '_>,
    options: &RecordOptions<'_>,
) -> Result<Record, Refusal<Fault>>
    ensures ok { IfOk result
        (λ made. record_in options.now head.now tool.now (value_at found.now) ≡ Ok made) }
    ensures err { IfFault result
        (λ fault. record_in options.now head.now tool.now (value_at found.now) ≡ Err fault) }
{
    let parts = read_node_members(alloc, found, options.regions)?;
    finish_record(alloc, head, tool, parts, options)
}

/// The name of the run's driver (SARIF 2.1.0, toolComponent object, "name property"), or the empty string. Returns
/// `AllocError` if memory for it runs out.
pub fn copy_tool_name(alloc: Global, run: &Value) -> Result<Text, AllocError>
    ensures { IfOk result (λ name. name ≡ tool_name (view run.now)) }
{
    match driver_name(run) {
        Some(name) => Text::copy_of(alloc, name),
        None => Text::copy_of(alloc, ""),
    }
}

/// A region or a snippet of a result of that place: without a `uri` and a base there is none.
fn keep_if_placed<T: Drop>(place: &Place, found: Option<T>) -> Option<T>
    ensures { result ≡ if_placed place.now found }
{
    if place.uri.is_some() || place.base.is_some() {
        found
    } else {
        None
    }
}

/// The record of a result with these own members, without the fingerprints whose names the options ignore.
#[tactic(auto, unfolding(crate::specs::Record::record_by))]
fn finish_record(
    alloc: Global,
    head: &RunHead,
    tool: &Text,
    parts: Parts,
    options: &RecordOptions<'_>,
) -> Result<Record, Refusal<Fault>>
    ensures { Gives result (record_by options.now.ignored head.now tool.now parts) }
{
    let tool = tool.clone()?;
    let ignored = options.ignored.as_slice();
    let descriptor = head.descriptor(&parts)?;
    let level = head.level_with(&parts, descriptor)?;
    let place = head.place_with(parts.uri, parts.base, parts.artifact)?;
    let rule_id = head.rule_id(alloc, parts.rule_id, descriptor)?;
    let region = keep_if_placed(&place, parts.region);
    let snippet = keep_if_placed(&place, parts.snippet);
    let full = without_names(alloc, ignored, parts.full)?;
    let partial = without_names(alloc, ignored, parts.partial)?;
    Ok(Record {
        tool,
        rule_id,
        kind: parts.kind,
        level,
        message: parts.message,
        place,
        guid: parts.guid,
        full,
        partial,
        held: parts.held,
        region,
        snippet,
        admitted: Sequence::new(alloc),
    })
}
