//! The text of a run of the merged log.
ghost use Rattle.std.specs.Prelude.{◌≡◌, ◌++◌, OnOk, Some, None, false, length, string_bytes};
ghost use Rattle.serde_json.specs.View.{members_view};
ghost use Rattle.serde_json.specs.Written.{members_have_float};
ghost use Rattle.sarif_log.specs.Internal.Texts.{parts_text, run_text, texts_of, IsWholeRun};

use crate::results_text::push_results;
use crate::run_parts::RunParts;
use json_parts::{push_value, text_around};
use sarif_model::State;
use sarif_results::Draft;
use serde_json::{Map, Value};
use std::alloc::{AllocError, Global};

/// Adds the text of a run that has no `results` (SARIF 2.1.0, run object, "results property"): these
/// members.
pub(crate) fn push_bare_run(
    alloc: Global,
    text: &mut String,
    members: Map<String, Value>,
) -> Result<(), AllocError>
    requires whole { members_have_float (members_view members.entries) ≡ false }
    ensures added { OnOk result (string_bytes text.new
        ≡ string_bytes text.old ++ run_text (members_view members.entries) None) }
{
    push_value(alloc, text, &Value::Object(members))?;
    Ok(())
}

/// Adds the text of a run with these members and those of these results that have a state. There is a
/// state, or none, for each result.
pub(crate) fn push_run(
    alloc: Global,
    text: &mut String,
    members: Map<String, Value>,
    drafts: &[Draft],
    states: &[Option<State>],
) -> Result<(), AllocError>
    requires whole { members_have_float (members_view members.entries) ≡ false }
    requires count { length states.now ≡ length drafts.now }
    ensures added { OnOk result (string_bytes text.new ≡ string_bytes text.old
        ++ run_text (members_view members.entries) (Some (texts_of drafts.now states.now))) }
{
    let around = text_around(alloc, members, "results")?;
    text.push_str(around.before())?;
    text.push_str("[")?;
    push_results(text, drafts, states)?;
    text.push_str("]")?;
    text.push_str(around.after())?;
    Ok(())
}

/// Adds the text of a run with those of these results that have a state. There is a state, or none,
/// for each result.
pub(crate) fn push_parts(
    alloc: Global,
    text: &mut String,
    parts: RunParts,
    drafts: &[Draft],
    states: &[Option<State>],
) -> Result<(), AllocError>
    requires whole { IsWholeRun parts }
    requires count { length states.now ≡ length drafts.now }
    ensures added { OnOk result (string_bytes text.new
        ≡ string_bytes text.old ++ parts_text parts drafts.now states.now) }
{
    let RunParts { members, results } = parts;
    match results {
        Some(_) => push_run(alloc, text, members, drafts, states),
        None => push_bare_run(alloc, text, members),
    }
}
