//! The parts of the runs of logs, and of the runs of baselines with their unmatched results.
ghost use Rattle.std.specs.Prelude.{◌≡◌, ◌≤◌, IfOk, length, map};
ghost use Rattle.std.specs.List.{AllByRecursion};
ghost use Rattle.serde_json.specs.View.{members_view};
ghost use Rattle.sarif_runs.specs.Judging.{run_values};
ghost use Rattle.sarif_runs.specs.Internal.Opened.{placed_of};
ghost use Rattle.sarif_results.specs.Drafts.{members_in};
ghost use Rattle.sarif_log.specs.MergedRuns.{bare};
ghost use Rattle.sarif_log.specs.Internal.Texts.{own_count, present_results, ArePartsOf, IsWholeRun};
ghost use Rattle.sarif_prepare.specs.Internal.LeftParts.{left_count, present_counts, AreLeftParts};

use crate::run_parts::make_parts;
use sarif_log::RunParts;
use sarif_runs::OpenedRun;
use std::alloc::{AllocError, Global};

/// How many results the run has, where it has an array of them.
pub(crate) fn count_listed(run: &OpenedRun<'_, '_>) -> Option<u32>
    ensures { result ≡ own_count (placed_of run.now).run }
{
    if run.has_results() {
        Some(run.len())
    } else {
        None
    }
}

/// The parts of a run of a log.
fn current_run(alloc: Global, run: OpenedRun<'_, '_>) -> RunParts
    ensures members { members_view result.members.entries
        ≡ bare (members_in (placed_of run.entry).run) }
    ensures results { result.results ≡ own_count (placed_of run.entry).run }
    ensures whole { IsWholeRun result }
{
    let results = count_listed(&run);
    make_parts(alloc, run.into_bare(), results)
}

/// Returns the parts of the runs of logs, in order. Returns `AllocError` if memory for the list runs out.
pub(crate) fn current_parts(
    alloc: Global,
    runs: Vec<OpenedRun<'_, '_>>,
) -> Result<Vec<RunParts>, AllocError>
    ensures parts { IfOk result
        (λ all. ArePartsOf own_count all.items (run_values (map placed_of runs.entry.items))) }
    ensures whole { IfOk result (λ all. AllByRecursion IsWholeRun all.items) }
{
    let mut all = Vec::with_capacity(alloc, runs.len())?;
    for run in runs {
        all.push(current_run(alloc, run))?;
    }
    Ok(all)
}

/// Returns how many of these are not taken.
pub(crate) fn count_left(taken: &[bool]) -> usize
    ensures count { result ≡ left_count taken.now }
    ensures few { result ≤ length taken.now }
{
    let mut count = 0;
    for is_taken in taken {
        if !*is_taken {
            count += 1;
        }
    }
    count
}

/// Returns the parts of a run that is written with this number of results.
pub(crate) fn run_with(alloc: Global, run: OpenedRun<'_, '_>, results: Option<u32>) -> RunParts
    ensures members { members_view result.members.entries
        ≡ bare (members_in (placed_of run.entry).run) }
    ensures results { result.results ≡ results }
    ensures whole { IsWholeRun result }
{
    make_parts(alloc, run.into_bare(), results)
}

/// Returns the parts of baseline runs, each with the number of its unmatched results. For each run, `counts` has the
/// number of its results that are not already absent. For each of these results, `taken` says whether a current result
/// matches it. Returns `AllocError` if memory for the list runs out.
pub(crate) fn left_parts(
    alloc: Global,
    runs: Vec<OpenedRun<'_, '_>>,
    counts: &[u32],
    mut taken: &[bool],
) -> Result<Vec<RunParts>, AllocError>
    requires counts { counts.now ≡ present_counts (map placed_of runs.items) }
    requires taken { length taken.now
        ≡ length (present_results (run_values (map placed_of runs.items))) }
    ensures parts { IfOk result
        (λ all. AreLeftParts all.items taken.entry.now
        (run_values (map placed_of runs.entry.items))) }
    ensures whole { IfOk result (λ all. AllByRecursion IsWholeRun all.items) }
{
    let mut all = Vec::with_capacity(alloc, runs.len())?;
    let mut number = 0;
    for run in runs {
        let (these, later) = taken.split_at(counts[number] as usize);
        all.push(run_with(alloc, run, Some(count_left(these) as u32)))?;
        taken = later;
        number += 1;
    }
    Ok(all)
}
