//! The JSON of results, each with its baseline state.
ghost use Rattle.std.specs.Prelude.{◌≡◌, ◌++◌, OnOk, false, length, string_bytes};
ghost use Rattle.serde_json.specs.Data.{string};
ghost use Rattle.serde_json.specs.Written.{comma_if, compact_text};
ghost use Rattle.sarif_model.specs.State.{state_name};
ghost use Rattle.sarif_log.specs.Internal.Texts.{joined, texts_of};

use sarif_model::State;
use sarif_results::Draft;
use std::alloc::AllocError;

/// A baseline state as JSON (SARIF 2.1.0, "baselineState property").
fn state_text(state: State) -> &'static str
    ensures { result.now ≡ compact_text (string (state_name state)) }
{
    match state {
        State::New => "\"new\"",
        State::Unchanged => "\"unchanged\"",
        State::Updated => "\"updated\"",
        State::Absent => "\"absent\"",
    }
}

/// Adds a comma, if something is before it.
pub(crate) fn push_comma(text: &mut String, later: bool) -> Result<(), AllocError>
    ensures { OnOk result (string_bytes text.new ≡ string_bytes text.old ++ comma_if later) }
{
    if later {
        text.push_str(",")?;
    }
    Ok(())
}

/// Adds the JSON of the results that have a state, with commas between them. There is a state, or none, for each
/// result. If memory runs out, some of the text may have been added.
pub(crate) fn push_results(
    text: &mut String,
    drafts: &[Draft],
    states: &[Option<State>],
) -> Result<(), AllocError>
    requires count { length states.now ≡ length drafts.now }
    ensures added { OnOk result (string_bytes text.new
        ≡ string_bytes text.old ++ joined false (texts_of drafts.now states.now)) }
{
    let mut later = false;
    for (at, draft) in drafts.iter().enumerate() {
        if let Some(state) = states[at] {
            push_comma(text, later)?;
            draft.text.push_filled(text, state_text(state))?;
            later = true;
        }
    }
    Ok(())
}
