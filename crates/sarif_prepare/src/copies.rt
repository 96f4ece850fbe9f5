//! The copies among the results of runs, apart from the findings. Drafts of copies are made while the runs still have
//! them.
ghost use Rattle.std.specs.Prelude.{◌≡◌, ◌≤◌, ◌<◌, ◌++◌, false, true, IfOk, OnOk, map, length};
ghost use Rattle.std.specs.List.{All};
ghost use Rattle.sarif_entries.specs.File.{File};
ghost use Rattle.sarif_copies.specs.Copies.{copies_of};
ghost use Rattle.sarif_model.specs.Run.{result_at, results_of};
ghost use Rattle.sarif_once.specs.Once.{copy_marks, marked};
ghost use Rattle.sarif_results.specs.Internal.Judged.{placed_in, IsJudged};
ghost use Rattle.sarif_runs.specs.Judging.{records_of};
ghost use Rattle.sarif_runs.specs.Internal.Opened.{placed_of};
ghost use Rattle.sarif_runs.specs.Internal.Spots.{IsSpotOf};
ghost use Rattle.sarif_prepare.specs.Internal.Apart.{copy_draft, copy_drafts, own_counts, AreSplitBaselines, AreSplitLogs};
ghost use Rattle.sarif_prepare.specs.Internal.Baselines.{baseline_drafts};
ghost use Rattle.sarif_prepare.specs.Internal.Leftover.{found_at, leftover_draft};

use crate::baselines::count_present;
use crate::changes::{Changes, change_drafts};
use crate::halves::take_drafts;
use crate::leftover::Leftover;
use crate::leftovers::draft_leftovers;
use crate::limiting::{ChangesOnce, changes_once};
use crate::parts_of_runs::count_listed;
use sarif_once::{CopyMarks, Parted, mark_copies, part_runs};
use sarif_results::{Draft, Judged, Outcome};
use sarif_runs::{Item, OpenedRun, Spot, list_spots};
use sarif_suppress::Suppressions;
use std::alloc::{AllocError, Global};
use std::hash::RandomState;
use std::thread::Threads;

/// What is needed of the copies of logs when their findings are matched.
#[derive(Drop)]
pub(crate) struct CurrentCopies {
    /// Whether each result is a copy.
    pub(crate) marks: Vec<bool>,
    /// For each result the number of its finding among the findings.
    pub(crate) numbers: Vec<u32>,
    /// How many results each run has, where it has an array of them.
    pub(crate) counts: Vec<Option<u32>>,
    /// The drafts of the copies.
    pub(crate) drafts: Vec<Draft>,
}

/// What is needed of the copies of baselines when their findings are matched. Results that are absent already aren't
/// among the results here.
#[derive(Drop)]
pub(crate) struct BaselineCopies {
    /// Whether each result is a copy.
    pub(crate) marks: Vec<bool>,
    /// For each result the number of its finding among the findings.
    pub(crate) numbers: Vec<u32>,
    /// How many results each run has.
    pub(crate) counts: Vec<u32>,
    /// The drafts of the copies.
    pub(crate) drafts: Vec<Draft>,
}

/// Runs of logs without their copies, what changes for their results, and what is needed of the copies.
#[derive(Drop)]
pub(crate) struct SplitLogs<'t, 'a> {
    pub(crate) rest: Judged<'t, 'a>,
    pub(crate) changes: Changes,
    pub(crate) copies: CurrentCopies,
}

/// Runs of baselines without their copies, and what is needed of the copies.
#[derive(Drop)]
pub(crate) struct SplitBaselines<'t, 'a> {
    pub(crate) rest: Judged<'t, 'a>,
    pub(crate) copies: BaselineCopies,
}

/// How many results each run has, where it has an array of them.
fn list_counts(alloc: Global, runs: &[OpenedRun<'_, '_>]) -> Result<Vec<Option<u32>>, AllocError>
    ensures { IfOk result (λ counts. counts.items ≡ own_counts (map placed_of runs.now)) }
{
    let mut counts = Vec::with_capacity(alloc, runs.len())?;
    for run in runs {
        counts.push(count_listed(run))?;
    }
    Ok(counts)
}

/// Takes the copies out of runs of logs. Tables hash with `seed`, on which nothing depends.
pub(crate) fn split_logs<'t, 'a>(
    alloc: Global,
    seed: RandomState,
    judged: Judged<'t, 'a>,
    file: &Suppressions,
) -> Result<SplitLogs<'t, 'a>, AllocError>
    requires { IsJudged file.now false judged }
    ensures { IfOk result (AreSplitLogs file.now (placed_in judged.entry)) }
{
    let CopyMarks { marks, apart } = mark_copies(alloc, seed, &judged)?;
    let counts = list_counts(alloc, &judged.runs)?;
    let ChangesOnce { findings, copies } = changes_once(alloc, &judged, &apart, file)?;
    let Parted { rest, marked } = part_runs(alloc, judged, &marks)?;
    let drafts = take_drafts(alloc, marked)?;
    let drafts = change_drafts(alloc, drafts, copies)?;
    let copies = CurrentCopies {
        marks: apart.copies,
        numbers: apart.numbers,
        counts,
        drafts,
    };
    Ok(SplitLogs {
        rest,
        changes: findings,
        copies,
    })
}

/// Adds a baseline result, if it is marked and has a record.
fn push_copy<'w, 't, 'a>(
    copies: &mut Vec<Leftover<'w, 't, 'a>>,
    is_copy: bool,
    item: &'w Item,
    run: &'w OpenedRun<'t, 'a>,
    seq: u32,
) -> Result<(), AllocError>
    requires { seq < length (results_of (placed_of run.now).run) }
    ensures { OnOk result (map leftover_draft copies.new.items
        ≡ map leftover_draft copies.old.items
        ++ copy_draft is_copy item.now (result_at (placed_of run.now).run seq)) }
{
    if !is_copy {
        return Ok(());
    }
    match item {
        Item::Sound(record) => copies.push(Leftover { run, seq, record })?,
        Item::Bad(_) | Item::Skipped => {}
    }
    Ok(())
}

/// Returns the marked ones of the baseline results at these spots of `runs`. For each spot, `outcomes` and `marks` have
/// an element at the same position.
fn list_copies<'w, 't, 'a>(
    alloc: Global,
    runs: &'w [OpenedRun<'t, 'a>],
    spots: &[Spot],
    outcomes: &'w [Outcome],
    marks: &[bool],
) -> Result<Vec<Leftover<'w, 't, 'a>>, AllocError>
    requires within { All (IsSpotOf (map placed_of runs.now)) spots.now }
    requires spots { length spots.now ≡ length outcomes.now }
    requires marks { length marks.now ≡ length outcomes.now }
    ensures { IfOk result (λ copies. map leftover_draft copies.items
        ≡ copy_drafts marks.now (map (λ o. o.item) outcomes.now)
        (map (found_at (map placed_of runs.now)) spots.now)) }
{
    let mut copies = Vec::new(alloc);
    for (number, spot) in spots.iter().enumerate() {
        let run = &runs[spot.run as usize];
        let item = &outcomes[number].item;
        push_copy(&mut copies, marks[number], item, run, spot.seq)?;
    }
    Ok(copies)
}

/// The drafts of the copies among the results of baselines. At most `threads` threads make them, including this one.
fn draft_copies<R: Threads + Sync>(
    rt: &R,
    alloc: Global,
    judged: &Judged<'_, '_>,
    marks: &[bool],
    threads: u32,
) -> Result<Vec<Draft>, AllocError>
    requires threads { 1 ≤ threads }
    requires judged { (file : File) × IsJudged file true judged.now }
    requires marks { marks.now ≡ copy_marks (placed_in judged.now) }
    ensures { IfOk result (λ drafts. drafts.items
        ≡ marked (copies_of (records_of (placed_in judged.now)))
        (baseline_drafts (placed_in judged.now))) }
{
    let spots = list_spots(alloc, &judged.runs)?;
    let copies = list_copies(alloc, &judged.runs, &spots, &judged.outcomes, marks)?;
    draft_leftovers(rt, alloc, &copies, threads)
}

/// Takes the copies out of runs of baselines. Tables hash with `seed`, on which nothing depends. At most `threads`
/// threads make drafts, including this one.
pub(crate) fn split_baselines<'t, 'a, R: Threads + Sync>(
    rt: &R,
    alloc: Global,
    seed: RandomState,
    judged: Judged<'t, 'a>,
    threads: u32,
) -> Result<SplitBaselines<'t, 'a>, AllocError>
    requires threads { 1 ≤ threads }
    requires judged { (file : File) × IsJudged file true judged }
    ensures { IfOk result (λ split. (file : File) → IsJudged file true judged.entry
        → AreSplitBaselines file (placed_in judged.entry) split) }
{
    let CopyMarks { marks, apart } = mark_copies(alloc, seed, &judged)?;
    let counts = count_present(alloc, &judged.runs, &judged.outcomes)?;
    let drafts = draft_copies(rt, alloc, &judged, &marks, threads)?;
    let Parted { rest, .. } = part_runs(alloc, judged, &marks)?;
    let copies = BaselineCopies {
        marks: apart.copies,
        numbers: apart.numbers,
        counts,
        drafts,
    };
    Ok(SplitBaselines { rest, copies })
}
