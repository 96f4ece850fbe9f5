//! Findings and copies in one list again, with what matching gives the findings.
ghost use Rattle.std.specs.Prelude.{◌≡◌, ◌≤◌, length, map, slice_index_or, List, None, Some, IfOk};
ghost use Rattle.std.specs.List.{AllByRecursion};
ghost use Rattle.serde_json.specs.Data.{Data};
ghost use Rattle.serde_json.specs.View.{members_view};
ghost use Rattle.sarif_log.specs.Internal.Texts.{IsWholeRun};
ghost use Rattle.sarif_log.specs.LogBy.{expired_of, listing_of, runs_without_results};
ghost use Rattle.sarif_log.specs.MergedRuns.{bare};
ghost use Rattle.sarif_model.specs.Limits.{most_runs};
ghost use Rattle.sarif_model.specs.declared.kinds.State.{State as Stand};
ghost use Rattle.sarif_model.specs.declared.record.Record.{Record as Found};
ghost use Rattle.sarif_once.specs.Once.{without_copies};
ghost use Rattle.sarif_results.specs.Drafts.{applied_of, drafts_by, members_in};
ghost use Rattle.sarif_runs.specs.Internal.Opened.{placed_of};
ghost use Rattle.sarif_runs.specs.Judging.{records_of, run_values};
ghost use Rattle.sarif_runs.specs.Placed.{Placed};
ghost use Rattle.sarif_suppress.specs.Suppressing.{unused_of};
ghost use Rattle.sarif_prepare.specs.Internal.Apart.{left_counts, total, AreBaselineCopies, AreCurrentCopies};
ghost use Rattle.sarif_prepare.specs.Internal.Baselines.{baseline_drafts, AreBaselines};
ghost use Rattle.sarif_prepare.specs.Internal.Halves.{IsCurrent};
ghost use Rattle.sarif_prepare.specs.Internal.Leftover.{not_taken};
ghost use Rattle.sarif_prepare.specs.Internal.Woven.{AreCurrentWoven, AreLeftWoven, AreWhole};

use crate::baselines::Baselines;
use crate::copies::{BaselineCopies, CurrentCopies};
use crate::halves::Half;
use crate::keeping::list_there;
use crate::left::{Left, absent_states};
use crate::parts_of_runs::{count_left, run_with};
use crate::preparing::CurrentSide;
use crate::run_parts::count_without;
use crate::unused::{count_expired, count_unused};
use sarif_log::{RunParts, Side};
use sarif_model::State;
use sarif_once::{LeftDrafts, spread_marks, spread_states, weave_drafts, weave_left};
use sarif_results::Draft;
use sarif_runs::OpenedRun;
use sarif_suppress::Suppressions;
use std::alloc::{AllocError, Global};

// ---- the parts of runs

/// The number of results of the run with this number, or none past the end.
fn count_at(counts: &[Option<u32>], number: usize) -> Option<u32>
    ensures { result ≡ slice_index_or counts.now number None }
{
    match counts.get(number) {
        Some(count) => *count,
        None => None,
    }
}

/// The parts of runs that are written with these numbers of results.
fn parts_with(
    alloc: Global,
    runs: Vec<OpenedRun<'_, '_>>,
    counts: &[Option<u32>],
) -> Result<Vec<RunParts>, AllocError>
    requires { length counts.now ≡ length runs.items }
    ensures members { IfOk result (λ all. map (λ p. members_view p.members.entries) all.items
        ≡ map (λ run. bare (members_in (placed_of run).run)) runs.entry.items) }
    ensures results { IfOk result (λ all. map (λ p. p.results) all.items ≡ counts.now) }
    ensures whole { IfOk result (λ all. AllByRecursion IsWholeRun all.items) }
{
    let mut all = Vec::with_capacity(alloc, runs.len())?;
    let mut number = 0;
    for run in runs {
        all.push(run_with(alloc, run, count_at(counts, number)))?;
        number += 1;
    }
    Ok(all)
}

/// For each run how many of its results aren't matched. `counts` says how many each has.
fn list_left(
    alloc: Global,
    counts: &[u32],
    mut taken: &[bool],
) -> Result<Vec<Option<u32>>, AllocError>
    requires { total counts.now ≡ length taken.now }
    ensures { IfOk result (λ left. left.items ≡ left_counts counts.now taken.entry.now) }
{
    let mut left = Vec::with_capacity(alloc, counts.len())?;
    for count in counts {
        let (these, later) = taken.split_at(*count as usize);
        left.push(Some(count_left(these) as u32))?;
        taken = later;
    }
    Ok(left)
}

// ---- results of logs

/// What is written for the runs of logs, and which of their results are copies.
#[derive(Drop)]
pub(crate) struct CurrentWoven {
    pub(crate) side: CurrentSide,
    pub(crate) copies: Vec<bool>,
}

/// Returns what is written for the runs of logs: their findings, which have these states, and the copies of these.
pub(crate) fn weave_logs(
    alloc: Global,
    current: Half<'_, '_>,
    copies: CurrentCopies,
    states: &[Option<State>],
    file: &Suppressions,
) -> Result<CurrentWoven, AllocError>
    requires { (runs : List Placed) × IsCurrent file.now (without_copies runs) current
        × AreCurrentCopies file.now runs copies × (length runs ≤ most_runs) }
    ensures woven { IfOk result (λ made. (xs : List Stand) (now before : List Placed)
        → states.now ≡ map Some xs → AreWhole now before
        → IsCurrent file.now (without_copies now) current.entry
        → AreCurrentCopies file.now now copies
        → AreCurrentWoven file.now xs now made.copies.items made.side.side) }
    ensures without { IfOk result (λ made. (now : List Placed)
        → IsCurrent file.now (without_copies now) current.entry
        → AreCurrentCopies file.now now copies
        → made.side.without ≡ runs_without_results (run_values now)) }
    ensures unused { IfOk result (λ made. (rs : List Found) (ds : List Data)
        → length rs ≡ length ds
        → current.entry.drafts.items ≡ drafts_by (listing_of file.now) (applied_of file.now) rs ds
        → made.side.unused ≡ unused_of file.now rs) }
    ensures expired { IfOk result
        (λ made. (rs : List Found) → made.side.expired ≡ expired_of file.now rs) }
{
    let Half {
        runs,
        records,
        drafts,
    } = current;
    let CurrentCopies {
        marks,
        numbers,
        counts,
        drafts: copied,
    } = copies;
    let unused = count_unused(alloc, file, &drafts)?;
    let expired = count_expired(file);
    let runs = parts_with(alloc, runs, &counts)?;
    let without = count_without(&runs);
    let drafts = weave_drafts(alloc, drafts, copied, &marks)?;
    let found = list_there(alloc, states)?;
    let states = spread_states(alloc, &numbers, &found)?;
    let side = Side {
        runs,
        drafts,
        states,
    };
    let side = CurrentSide {
        side,
        without,
        unused,
        expired,
        records,
    };
    Ok(CurrentWoven {
        side,
        copies: marks,
    })
}

// ---- results of baselines

/// What is written for the runs of baselines, and which of the written results are copies.
#[derive(Drop)]
pub(crate) struct LeftWoven {
    pub(crate) left: Left,
    pub(crate) copies: Vec<bool>,
}

/// Returns what is written for the runs of baselines, whose findings are partly taken: the other findings, which have
/// these drafts, and the copies of these.
pub(crate) fn weave_baselines(
    alloc: Global,
    baselines: Baselines<'_, '_>,
    copies: BaselineCopies,
    taken: &[bool],
    drafts: Vec<Draft>,
) -> Result<LeftWoven, AllocError>
    requires { (now before : List Placed) × AreWhole now before
        × AreBaselines (without_copies before) baselines × AreBaselineCopies before copies }
    ensures { IfOk result (λ made. (now before : List Placed) → AreWhole now before
        → AreBaselines (without_copies before) baselines.entry → AreBaselineCopies before copies
        → length taken.now ≡ length (records_of (without_copies before))
        → drafts.items ≡ not_taken taken.now (baseline_drafts (without_copies before))
        → AreLeftWoven taken.now before made.copies.items made.left.side) }
{
    let BaselineCopies {
        marks,
        numbers,
        counts,
        drafts: copied,
    } = copies;
    let Baselines { runs, records, .. } = baselines;
    let taken = spread_marks(alloc, &numbers, taken)?;
    let left = list_left(alloc, &counts, &taken)?;
    let runs = parts_with(alloc, runs, &left)?;
    let LeftDrafts { drafts, copies } = weave_left(alloc, drafts, copied, &marks, &taken)?;
    let states = absent_states(alloc, &drafts)?;
    let side = Side {
        runs,
        drafts,
        states,
    };
    let left = Left { side, records };
    Ok(LeftWoven { left, copies })
}
