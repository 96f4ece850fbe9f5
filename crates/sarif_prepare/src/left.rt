//! What is left of the baselines when their results are matched: the results that no current result is paired
//! with, as absent.
ghost use Rattle.std.specs.Prelude.{◌≡◌, ◌≤◌, Some, IfOk, List, length, map};
ghost use Rattle.sarif_model.specs.declared.kinds.State.TheVariants.{Absent};
ghost use Rattle.sarif_prepare.specs.Internal.Leftover.{not_taken};
ghost use Rattle.sarif_runs.specs.Placed.{Placed};
ghost use Rattle.sarif_prepare.specs.Internal.Baselines.{baseline_drafts, AreBaselines, IsLeft};

use crate::baselines::Baselines;
use crate::leftovers::{draft_leftovers, list_leftovers};
use crate::parts_of_runs::left_parts;
use sarif_log::Side;
use sarif_model::{Record, State};
use sarif_results::Draft;
use std::alloc::{AllocError, Global};
use std::thread::Threads;

/// The drafts of the results that are left, made in at most `threads` threads, this one among them.
pub(crate) fn left_drafts<R: Threads + Sync>(
    rt: &R,
    alloc: Global,
    baselines: &Baselines<'_, '_>,
    taken: &[bool],
    threads: u32,
) -> Result<Vec<Draft>, AllocError>
    requires threads { 1 ≤ threads }
    requires baselines { (runs : List Placed) × AreBaselines runs baselines.now }
    requires taken { length taken.now ≡ length baselines.now.records.items }
    ensures { IfOk result (λ drafts. (runs : List Placed) → AreBaselines runs baselines.now
        → drafts.items ≡ not_taken taken.now (baseline_drafts runs)) }
{
    let left = list_leftovers(
        alloc,
        &baselines.runs,
        &baselines.spots,
        &baselines.records,
        taken,
    )?;
    draft_leftovers(rt, alloc, &left, threads)
}

/// Returns the states of a number of absent results.
pub(crate) fn absent_states(
    alloc: Global,
    drafts: &[Draft],
) -> Result<Vec<Option<State>>, AllocError>
    ensures { IfOk result (λ states. states.items ≡ map (λ _. Some Absent) drafts.now) }
{
    let mut states = Vec::with_capacity(alloc, drafts.len())?;
    for _draft in drafts {
        states.push(Some(State::Absent))?;
    }
    Ok(states)
}

/// What is written for the runs of baselines.
#[derive(Drop)]
pub(crate) struct Left {
    pub(crate) side: Side,
    /// The records of all their results.
    pub(crate) records: Vec<Record>,
}

/// Returns what is written for the runs of baselines, whose results are partly taken; the others have these
/// drafts.
pub(crate) fn left_side(
    alloc: Global,
    baselines: Baselines<'_, '_>,
    taken: &[bool],
    drafts: Vec<Draft>,
) -> Result<Left, AllocError>
    requires baselines { (runs : List Placed) × AreBaselines runs baselines }
    requires taken { length taken.now ≡ length baselines.records.items }
    ensures { IfOk result (λ left. (runs : List Placed) → AreBaselines runs baselines.entry
        → drafts.items ≡ not_taken taken.now (baseline_drafts runs)
        → IsLeft runs taken.now left.side) }
{
    let Baselines {
        runs,
        counts,
        records,
        ..
    } = baselines;
    let runs = left_parts(alloc, runs, &counts, taken)?;
    let states = absent_states(alloc, &drafts)?;
    let side = Side {
        runs,
        drafts,
        states,
    };
    Ok(Left { side, records })
}
