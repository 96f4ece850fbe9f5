//! The JSON of the runs of the merged log.
ghost use Rattle.std.specs.Prelude.{◌≡◌, ◌++◌, ◌==◌, Bool, not, OnOk, IfOk, false, is_some, length, string_bytes};
ghost use Rattle.std.specs.List.{AllByRecursion, list_any};
ghost use Rattle.sarif_log.specs.Internal.Texts.{count_in_parts, counts_in_parts, joined, left_texts, runs_texts, IsWholeRun};

use crate::results_text::push_comma;
use crate::run_parts::RunParts;
use crate::run_text::push_parts;
use sarif_model::State;
use sarif_results::Draft;
use std::alloc::{AllocError, Global};

/// How many results the run has.
pub(crate) fn count_of(parts: &RunParts) -> usize
    ensures { result ≡ count_in_parts parts.now }
{
    match parts.results {
        Some(count) => count as usize,
        None => 0,
    }
}

/// Whether some of them is a state.
fn has_any(states: &[Option<State>]) -> bool
    ensures { result ≡ list_any is_some states.now }
{
    states.iter().any(|state| state.is_some())
}

/// Adds the JSON of runs, with commas between them. The drafts are those of all their results in order, with a
/// state, or none, for each; a result without a state is left out. If memory runs out, some of the text may have
/// been added.
pub(crate) fn push_runs(
    alloc: Global,
    text: &mut String,
    runs: Vec<RunParts>,
    mut drafts: &[Draft],
    mut states: &[Option<State>],
) -> Result<(), AllocError>
    requires whole { AllByRecursion IsWholeRun runs.items }
    requires drafts { length drafts.now ≡ counts_in_parts runs.items }
    requires states { length states.now ≡ length drafts.now }
    ensures added { OnOk result (string_bytes text.new
        ≡ string_bytes text.old ++ joined false (runs_texts runs.items drafts.now states.now)) }
{
    let mut later = false;
    for parts in runs {
        let count = count_of(&parts);
        let (these, more_drafts) = drafts.split_at(count);
        let (theirs, more_states) = states.split_at(count);
        push_comma(text, later)?;
        push_parts(alloc, text, parts, these, theirs)?;
        later = true;
        drafts = more_drafts;
        states = more_states;
    }
    Ok(())
}

/// Adds the JSON of only the runs that have a result with a state, as [`push_runs`] does, after other runs if there
/// are any.
pub(crate) fn push_left_runs(
    alloc: Global,
    text: &mut String,
    mut later: bool,
    runs: Vec<RunParts>,
    mut drafts: &[Draft],
    mut states: &[Option<State>],
) -> Result<(), AllocError>
    requires whole { AllByRecursion IsWholeRun runs.items }
    requires drafts { length drafts.now ≡ counts_in_parts runs.items }
    requires states { length states.now ≡ length drafts.now }
    ensures added { OnOk result (string_bytes text.new
        ≡ string_bytes text.old ++ joined later (left_texts runs.items drafts.now states.now)) }
{
    for parts in runs {
        let count = count_of(&parts);
        let (these, more_drafts) = drafts.split_at(count);
        let (theirs, more_states) = states.split_at(count);
        if has_any(theirs) {
            push_comma(text, later)?;
            push_parts(alloc, text, parts, these, theirs)?;
            later = true;
        }
        drafts = more_drafts;
        states = more_states;
    }
    Ok(())
}
