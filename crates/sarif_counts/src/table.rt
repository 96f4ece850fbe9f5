//! The table of counts that is printed after a merge.
ghost use Rattle.std.specs.Prelude.{◌≡◌, ◌<◌, ◌^◌, IfOk, string_bytes};
ghost use Rattle.sarif_counts.specs.Counts.{count_at};
ghost use Rattle.sarif_counts.specs.Summary.{summary_of, row_of, name_column, gate_line};
ghost use Rattle.sarif_counts.specs.Tally.{at_level, at_side, tally_total};

use crate::counts::Counts;
use crate::decision::{hits, verdict};
use crate::gate_verdict::Verdict;
use crate::tally::Tally;
use sarif_model::State;
use sarif_options::Policy;
use std::alloc::{AllocError, Global};

/// The names of the columns: a state's active results by level, and all its suppressed ones.
const HEADING: &str = "state           error    warning       note       none suppressed\n";

/// Returns a table of the counts in six lines, each with a newline: a heading, one line for each of the states
/// new, unchanged, updated and absent, and the verdict with the hits and the policy's `max`. Returns `AllocError`
/// if memory for it runs out.
pub fn summary(alloc: Global, counts: &Counts, policy: &Policy) -> Result<String, AllocError>
    ensures { IfOk result (λ s. string_bytes s ≡ summary_of (count_at counts.now) policy.now) }
{
    let mut text = String::from_str(alloc, HEADING)?;
    text.push_str(state_row(alloc, counts, State::New)?.as_str())?;
    text.push_str(state_row(alloc, counts, State::Unchanged)?.as_str())?;
    text.push_str(state_row(alloc, counts, State::Updated)?.as_str())?;
    text.push_str(state_row(alloc, counts, State::Absent)?.as_str())?;
    let gate = gate_row(
        alloc,
        verdict(counts, policy),
        hits(counts, policy),
        policy.max,
    )?;
    text.push_str(gate.as_str())?;
    Ok(text)
}

/// The line of one state.
fn state_row(alloc: Global, counts: &Counts, state: State) -> Result<String, AllocError>
    ensures { IfOk result
        (λ s. string_bytes s ≡ row_of (name_column state) (count_at counts.now state)) }
{
    let row = tally_row(alloc, padded_name(state), counts.of(state))?;
    Ok(row)
}

/// The name of a state, ten columns wide.
fn padded_name(state: State) -> &'static str
    ensures { result.now ≡ name_column state }
{
    match state {
        State::New => "new       ",
        State::Unchanged => "unchanged ",
        State::Updated => "updated   ",
        State::Absent => "absent    ",
    }
}

#[tactic(auto, using(crate::proofs::Columns::padded))]
fn tally_row(alloc: Global, name: &str, tally: Tally) -> Result<String, AllocError>
    requires { tally_total tally < 2 ^ 32 }
    ensures { IfOk result
        (λ s. string_bytes s
        ≡ row_of name.now (λ level side. at_level (at_side tally side) level)) }
{
    let error = tally.active.error;
    let warning = tally.active.warning;
    let note = tally.active.note;
    let none = tally.active.none;
    let suppressed = tally.suppressed.total();
    format!(in alloc; "{name}{error:>11}{warning:>11}{note:>11}{none:>11}{suppressed:>11}\n")
}

fn gate_row(alloc: Global, verdict: Verdict, hits: u32, max: u32) -> Result<String, AllocError>
    ensures { IfOk result (λ s. string_bytes s ≡ gate_line verdict hits max) }
{
    let word = verdict.name();
    format!(in alloc; "gate: {word}, hits {hits}, max {max}\n")
}
