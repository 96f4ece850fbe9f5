//! Marking the results that are outside of a change.
ghost use Rattle.std.specs.Prelude.{◌≡◌, ◌<◌, ◌≤◌, ◌++◌, ◌∷◌, [], ◌&&◌, IfOk, OnOk, length, map};
ghost use Rattle.std.specs.List.{All};
ghost use Rattle.sarif_model.specs.Limits.{most_runs};
ghost use Rattle.sarif_model.specs.Run.{result_at, results_of};
ghost use Rattle.sarif_runs.specs.Internal.Opened.{placed_of};
ghost use Rattle.sarif_runs.specs.Internal.Spots.{spots_from, IsSpotOf};
ghost use Rattle.sarif_scope.specs.Inside as inside;
ghost use Rattle.sarif_scope.specs.declared.gated.GatedChange.{GatedChange as AnyChange};
ghost use Rattle.sarif_outside.specs.Marks as said;
ghost use Rattle.sarif_outside.specs.Internal.Asked.{AreLookedFor, looked_as, mark_by, placed_looked, scoped};

use crate::asked::{AskedResult, LookedRun};
use crate::places::places_of;
use crate::scoped::ScopedChange;
use sarif_runs::{OpenedRun, Spot, list_spots};
use sarif_scope::{GatedChange, artifacts_in};
use sarif_share::{Sharing, each_of, share_jobs};
use std::alloc::{AllocError, Global};
use std::thread::Threads;

/// For fewer results it is not worth starting another thread.
const LEAST_SHARED: usize = 32;

/// A run, with what a change says about its artifacts.
#[tactic(auto, using(crate::proofs::BareArtifacts::bare_artifacts))]
fn look_at_run<'w, 't, 'a>(
    alloc: Global,
    change: ScopedChange<'w>,
    opened: &'w OpenedRun<'t, 'a>,
) -> Result<LookedRun<'w, 't, 'a>, AllocError>
    ensures { IfOk result (λ run. looked_as run ≡ (scoped change.entry, placed_of opened.now)) }
{
    let artifacts = artifacts_in(alloc, opened.bare())?;
    let gated = change.change;
    let roots = gated.roots.as_slice();
    let known = gated
        .changed
        .know_artifacts(alloc, roots, change.scope, artifacts)?;
    Ok(LookedRun {
        opened,
        change,
        known,
    })
}

/// Each of these runs, with what a change says about its artifacts.
fn look_at_each<'w, 't, 'a>(
    alloc: Global,
    change: ScopedChange<'w>,
    runs: &'w [OpenedRun<'t, 'a>],
) -> Result<Vec<LookedRun<'w, 't, 'a>>, AllocError>
    ensures { IfOk result (λ made. map looked_as made.items
        ≡ map (λ run. (scoped change.entry, placed_of run)) runs.now) }
{
    let mut made = Vec::with_capacity(alloc, runs.len())?;
    for opened in runs {
        made.push(look_at_run(alloc, change, opened)?)?;
    }
    Ok(made)
}

/// Each of these runs, with what a change says about its artifacts.
fn look_at_runs<'w, 't, 'a>(
    alloc: Global,
    change: ScopedChange<'w>,
    runs: &'w [OpenedRun<'t, 'a>],
) -> Result<Vec<LookedRun<'w, 't, 'a>>, AllocError>
    ensures placed { IfOk result (λ made. map placed_looked made.items ≡ map placed_of runs.now) }
    ensures looked { IfOk result (λ made. AreLookedFor (scoped change.entry) made.items) }
{
    let made = look_at_each(alloc, change, runs)?;
    Ok(made)
}

/// Adds a result of a run, if it is requested.
fn push_asked<'l, 'w, 't, 'a>(
    list: &mut Vec<Option<AskedResult<'l, 'w, 't, 'a>>>,
    run: &'l LookedRun<'w, 't, 'a>,
    seq: u32,
    is_asked: bool,
) -> Result<(), AllocError>
    requires { seq < length (results_of (placed_looked run.now).run) }
    ensures { OnOk result (map mark_by list.new.items ≡ map mark_by list.old.items
        ++ (is_asked && inside.is_outside_of (scoped run.now.change) (placed_looked run.now).run
        (result_at (placed_looked run.now).run seq)) ∷ []) }
{
    if is_asked {
        list.push(Some(AskedResult { run, seq }))?;
    } else {
        list.push(None)?;
    }
    Ok(())
}

/// The results at these places that are requested. There is a mark for each.
fn list_asked<'l, 'w, 't, 'a>(
    alloc: Global,
    runs: &'l [LookedRun<'w, 't, 'a>],
    spots: &[Spot],
    asked: &[bool],
) -> Result<Vec<Option<AskedResult<'l, 'w, 't, 'a>>>, AllocError>
    requires within { All (IsSpotOf (map placed_looked runs.now)) spots.now }
    requires each { length asked.now ≡ length spots.now }
    ensures { IfOk result (λ list. (change : AnyChange) → AreLookedFor change runs.now
        → map mark_by list.items ≡ said.both asked.now
        (map (said.is_outside_at change (map placed_looked runs.now)) spots.now)) }
{
    let mut list = Vec::with_capacity(alloc, spots.len())?;
    for (number, spot) in spots.iter().enumerate() {
        let run = &runs[spot.run as usize];
        push_asked(&mut list, run, spot.seq, asked[number])?;
    }
    Ok(list)
}

/// Whether a result of a run is outside by its places.
fn is_outside_in(alloc: Global, run: &LookedRun<'_, '_, '_>, seq: u32) -> Result<bool, AllocError>
    requires { seq < length (results_of (placed_looked run.now).run) }
    ensures { IfOk result (λ outside. outside
        ≡ inside.is_outside_of (scoped run.now.change) (placed_looked run.now).run
        (result_at (placed_looked run.now).run seq)) }
{
    let places = places_of(alloc, run.opened.node(seq))?;
    let outside = run.known.is_outside(alloc, &places)?;
    Ok(outside)
}

/// Whether a result is requested, and outside by its places.
fn mark(alloc: Global, asked: &Option<AskedResult<'_, '_, '_, '_>>) -> Result<bool, AllocError>
    ensures { IfOk result (λ mark. mark ≡ mark_by asked.now) }
{
    match asked {
        Some(asked) => is_outside_in(alloc, asked.run, asked.seq),
        None => Ok(false),
    }
}

/// The marks of these results, made in at most `threads` threads, this one among them.
fn mark_all<'s, 'l, 'w, 't, 'a, R: Threads + Sync>(
    rt: &R,
    alloc: Global,
    asked: &'s [Option<AskedResult<'l, 'w, 't, 'a>>],
    threads: u32,
) -> Result<Vec<bool>, AllocError>
    ensures { IfOk result (λ marks. marks.items ≡ map mark_by asked.now) }
{
    let sharing = Sharing {
        rt,
        alloc,
        threads,
        least: LEAST_SHARED,
    };
    let one = move |found|
        ensures { IfOk result (λ mark. mark ≡ mark_by found.now) }
    { mark(alloc, found) };
    let each = each_of(alloc, asked)?;
    let marks = share_jobs(&sharing, each, &one)?;
    Ok(marks)
}

/// Returns for each result of these runs whether it is requested, and outside of the change by its places, in the scope
/// that comes with the change. It doesn't read the others. At most `threads` threads do it, this one among them. Returns
/// `AllocError` if memory runs out.
pub fn mark_outside_in<R: Threads + Sync>(
    rt: &R,
    alloc: Global,
    change: &ScopedChange<'_>,
    runs: &[OpenedRun<'_, '_>],
    asked: &[bool],
    threads: u32,
) -> Result<Vec<bool>, AllocError>
    requires few { length runs.now ≤ most_runs }
    requires each { length asked.now ≡ length (spots_from 0 (map placed_of runs.now)) }
    ensures { IfOk result (λ marks. marks.items
        ≡ said.outside_marks (said.in_scope change.now.scope change.now.change.now)
        (map placed_of runs.now) asked.now) }
{
    let spots = list_spots(alloc, runs)?;
    let looked = look_at_runs(alloc, *change, runs)?;
    let list = list_asked(alloc, &looked, &spots, asked)?;
    let marks = mark_all(rt, alloc, &list, threads)?;
    Ok(marks)
}

/// Does the same in the scope of the change.
pub fn mark_outside<R: Threads + Sync>(
    rt: &R,
    alloc: Global,
    change: &GatedChange,
    runs: &[OpenedRun<'_, '_>],
    asked: &[bool],
    threads: u32,
) -> Result<Vec<bool>, AllocError>
    requires few { length runs.now ≤ most_runs }
    requires each { length asked.now ≡ length (spots_from 0 (map placed_of runs.now)) }
    ensures { IfOk result (λ marks. marks.items
        ≡ said.outside_marks change.now (map placed_of runs.now) asked.now) }
{
    let scope = change.scope;
    let marks = mark_outside_in(
        rt,
        alloc,
        &ScopedChange { change, scope },
        runs,
        asked,
        threads,
    )?;
    Ok(marks)
}
