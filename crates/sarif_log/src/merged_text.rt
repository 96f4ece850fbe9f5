//! The text of the merged log.
ghost use Rattle.std.specs.Prelude.{◌≡◌, ◌++◌, List, IfOk, false, map, length, string_bytes};
ghost use Rattle.std.specs.List.{AllByRecursion};
ghost use Rattle.serde_json.specs.Data.{Data};
ghost use Rattle.serde_json.specs.View.{view};
ghost use Rattle.serde_json.specs.Written.{compact_text, has_float};
ghost use Rattle.sarif_log.specs.Internal.Texts.{counts_in_parts, left_texts, runs_texts, IsWholeRun};
ghost use Rattle.sarif_log.specs.Log.{log_with};
ghost use Rattle.sarif_log.specs.Internal.Side.{IsSide, texts_of_runs, texts_of_left};

use crate::run_parts::RunParts;
use crate::runs_text::{push_left_runs, push_runs};
use json_parts::push_value;
use sarif_model::State;
use sarif_results::Draft;
use serde_json::Value;
use std::alloc::{AllocError, Global};

/// The runs of all logs, or those of all baselines, with their results.
#[derive(Drop)]
pub struct Side {
    /// The runs in order, their results apart.
    pub runs: Vec<RunParts>,
    /// All their results, in the order of runs and results.
    pub drafts: Vec<Draft>,
    /// The baseline state of each; none where it isn't written.
    pub states: Vec<Option<State>>,
}

/// Returns the text of the log with this gate, the runs of the logs, and those runs of the baselines that have a
/// result with a state. Returns `AllocError` if memory for it runs out.
pub fn log_text(
    alloc: Global,
    gate: &Value,
    current: Side,
    baseline: Side,
) -> Result<String, AllocError>
    requires gate { has_float (view gate.now) ≡ false }
    requires current { IsSide current }
    requires baseline { IsSide baseline }
    ensures { IfOk result (λ s. (runs : List Data)
        → map compact_text runs ≡ texts_of_runs current ++ texts_of_left baseline
        → string_bytes s ≡ compact_text (log_with (view gate.now) runs)) }
{
    let later = !current.runs.is_empty();
    let mut text = String::new(alloc);
    text.push_str("{\"properties\":{\"gate\":")?;
    push_value(alloc, &mut text, gate)?;
    text.push_str("},\"runs\":[")?;
    let Side {
        runs,
        drafts,
        states,
    } = current;
    push_runs(alloc, &mut text, runs, &drafts, &states)?;
    let Side {
        runs,
        drafts,
        states,
    } = baseline;
    push_left_runs(alloc, &mut text, later, runs, &drafts, &states)?;
    text.push_str("],\"version\":\"2.1.0\"}")?;
    Ok(text)
}
