//! Collecting the findings of results, from the logs and baselines that they were read from.
ghost use Rattle.std.specs.Prelude.{◌≡◌, ◌<◌, ◌≤◌, ◌++◌, ◌∷◌, [], IfOk, OnOk, Some, length, map};
ghost use Rattle.std.specs.List.{All, cons_option};
ghost use Rattle.sarif_model.specs.Run.{result_at, results_of};
ghost use Rattle.sarif_prepare.specs.Internal.Leftover.{not_taken};
ghost use Rattle.sarif_runs.specs.Internal.Opened.{placed_of};
ghost use Rattle.sarif_runs.specs.Internal.Spots.{spots_from, IsSpotOf};
ghost use Rattle.sarif_prepare.specs.Internal.Telling.{pair_at, placed_told, told_as, told_by, told_each};
ghost use Rattle.sarif_log.specs.Told.{if_asked};
ghost use Rattle.sarif_prepare.specs.Asked.{reporting_in};
ghost use Rattle.sarif_model.specs.Limits.{most_runs};

use crate::asked::Asked;
use crate::baselines::Baselines;
use crate::halves::Half;
use crate::pairing::Paired;
use crate::snippets::snippets_in;
use crate::told::{ReportedResult, ReportedRun};
use sarif_findings::{Finding, NamedRun, Reporting, ToldResult, finding_of};
use sarif_model::State;
use sarif_results::Draft;
use sarif_runs::{OpenedRun, Spot, list_spots};
use sarif_share::{Sharing, each_of, share_jobs};
use std::alloc::{AllocError, Global};
use std::thread::Threads;

/// For fewer results it is not worth starting another thread.
const LEAST_SHARED: usize = 32;

/// Each of these runs, with the names that are looked up for its results.
#[tactic(auto, using(crate::proofs::RunsAlike::bare_told))]
fn name_runs<'w, 't, 'a>(
    alloc: Global,
    runs: &'w [OpenedRun<'t, 'a>],
) -> Result<Vec<ReportedRun<'w, 't, 'a>>, AllocError>
    ensures { IfOk result (λ made. map placed_told made.items ≡ map placed_of runs.now) }
{
    let mut made = Vec::with_capacity(alloc, runs.len())?;
    for opened in runs {
        let named = NamedRun::new(alloc, opened.bare())?;
        made.push(ReportedRun { opened, named })?;
    }
    Ok(made)
}

/// Adds the result at this place of a run, if it is written and shown.
fn push_told<'l, 'w, 't, 'a>(
    told: &mut Vec<ReportedResult<'l, 'w, 't, 'a>>,
    reporting: &Reporting,
    run: &'l ReportedRun<'w, 't, 'a>,
    seq: u32,
    draft: &Draft,
    state: Option<State>,
) -> Result<(), AllocError>
    requires { seq < length (results_of (placed_told run.now).run) }
    ensures { OnOk result (map (told_by reporting.now) told.new.items
        ≡ map (told_by reporting.now) told.old.items ++ cons_option (told_as reporting.now
        (placed_told run.now).run (result_at (placed_told run.now).run seq) draft.now state) []) }
{
    let Some(state) = state else {
        return Ok(());
    };
    let level = draft.level;
    if reporting.shows(state, level) && !draft.suppressed {
        told.push(ReportedResult {
            run,
            seq,
            level,
            state,
        })?;
    }
    Ok(())
}

/// Returns the findings of the reported results at these spots. There are a draft and a state, or none, for each.
fn list_told<'l, 'w, 't, 'a>(
    alloc: Global,
    reporting: &Reporting,
    runs: &'l [ReportedRun<'w, 't, 'a>],
    spots: &[Spot],
    drafts: &[Draft],
    states: &[Option<State>],
) -> Result<Vec<ReportedResult<'l, 'w, 't, 'a>>, AllocError>
    requires within { All (IsSpotOf (map placed_told runs.now)) spots.now }
    requires drafts { length drafts.now ≡ length spots.now }
    requires states { length states.now ≡ length spots.now }
    ensures { IfOk result (λ told. map (told_by reporting.now) told.items ≡ told_each reporting.now
        (map (pair_at (map placed_told runs.now)) spots.now) drafts.now states.now) }
{
    let mut told = Vec::new(alloc);
    for (number, spot) in spots.iter().enumerate() {
        let run = &runs[spot.run as usize];
        push_told(
            &mut told,
            reporting,
            run,
            spot.seq,
            &drafts[number],
            states[number],
        )?;
    }
    Ok(told)
}

/// Returns the finding of one of them.
#[tactic(auto, using(sarif_findings::proofs::AtLocation::whole_at))]
fn tell(
    alloc: Global,
    reporting: &Reporting,
    told: &ReportedResult<'_, '_, '_, '_>,
) -> Result<Finding, AllocError>
    ensures { IfOk result (λ finding. finding ≡ told_by reporting.now told.now) }
{
    let run = told.run;
    let message = run.opened.message(alloc, told.seq)?;
    let result = ToldResult {
        rule: run.opened.rule_reference(told.seq),
        message: message.reference,
        arguments: message.arguments.as_slice(),
        location: run.opened.first_location(told.seq),
        snippets: snippets_in(run.opened.node(told.seq)),
    };
    let named = &run.named;
    finding_of(alloc, reporting, named, &result, told.level, told.state)
}

/// Returns the findings of these. At most `threads` threads collect them, including this one.
fn tell_all<'s, 'l, 'w, 't, 'a, R: Threads + Sync>(
    rt: &R,
    alloc: Global,
    reporting: &Reporting,
    told: &'s [ReportedResult<'l, 'w, 't, 'a>],
    threads: u32,
) -> Result<Vec<Finding>, AllocError>
    ensures { IfOk result (λ findings. findings.items ≡ map (told_by reporting.now) told.now) }
{
    let sharing = Sharing {
        rt,
        alloc,
        threads,
        least: LEAST_SHARED,
    };
    let one = move |told|
        ensures { IfOk result (λ finding. finding ≡ told_by reporting.entry.now told.now) }
    { tell(alloc, reporting, told) };
    let each = each_of(alloc, told)?;
    let findings = share_jobs(&sharing, each, &one)?;
    Ok(findings)
}

/// Returns the findings of the results of logs, which have these states.
pub(crate) fn tell_current<R: Threads + Sync>(
    rt: &R,
    alloc: Global,
    asked: &Asked<'_>,
    current: &Half<'_, '_>,
    states: &[Option<State>],
) -> Result<Vec<Finding>, AllocError>
    requires runs { length current.now.runs.items ≤ most_runs }
    requires drafts { length current.now.drafts.items
        ≡ length (spots_from 0 (map placed_of current.now.runs.items)) }
    requires states { length states.now ≡ length current.now.drafts.items }
    ensures { IfOk result (λ findings. findings.items ≡ if_asked (reporting_in asked.now)
        (λ reporting. told_each reporting (map (pair_at (map placed_of current.now.runs.items))
        (spots_from 0 (map placed_of current.now.runs.items)))
        current.now.drafts.items states.now)) }
{
    let Some(reporting) = asked.reporting else {
        return Ok(Vec::new(alloc));
    };
    let spots = list_spots(alloc, &current.runs)?;
    let runs = name_runs(alloc, &current.runs)?;
    let drafts = &current.drafts;
    let told = list_told(alloc, reporting, &runs, &spots, drafts, states)?;
    tell_all(rt, alloc, reporting, &told, asked.options.workers)
}

/// Adds a spot, unless its baseline result is matched.
fn push_unless(left: &mut Vec<Spot>, is_taken: bool, spot: Spot) -> Result<(), AllocError>
    ensures { OnOk result
        (left.new.items ≡ left.old.items ++ not_taken (is_taken ∷ []) (spot ∷ [])) }
{
    if !is_taken {
        left.push(spot)?;
    }
    Ok(())
}

/// Returns the spots of baseline results that are not matched.
fn left_spots(alloc: Global, spots: &[Spot], taken: &[bool]) -> Result<Vec<Spot>, AllocError>
    requires { length taken.now ≡ length spots.now }
    ensures { IfOk result (λ left. left.items ≡ not_taken taken.now spots.now) }
{
    let mut left = Vec::new(alloc);
    for (number, spot) in spots.iter().enumerate() {
        push_unless(&mut left, taken[number], *spot)?;
    }
    Ok(left)
}

/// Returns the findings of the baseline results that are not matched, which have these states.
pub(crate) fn tell_left<R: Threads + Sync>(
    rt: &R,
    alloc: Global,
    asked: &Asked<'_>,
    baselines: &Baselines<'_, '_>,
    paired: &Paired,
    states: &[Option<State>],
) -> Result<Vec<Finding>, AllocError>
    requires within { All (IsSpotOf (map placed_of baselines.now.runs.items))
        baselines.now.spots.items }
    requires taken { length paired.now.taken.items ≡ length baselines.now.spots.items }
    requires drafts { length paired.now.left.items
        ≡ length (not_taken paired.now.taken.items baselines.now.spots.items) }
    requires states { length states.now ≡ length paired.now.left.items }
    ensures { IfOk result (λ findings. findings.items ≡ if_asked (reporting_in asked.now)
        (λ reporting. told_each reporting (map (pair_at (map placed_of baselines.now.runs.items))
        (not_taken paired.now.taken.items baselines.now.spots.items)) paired.now.left.items
        states.now)) }
{
    let Some(reporting) = asked.reporting else {
        return Ok(Vec::new(alloc));
    };
    let spots = left_spots(alloc, &baselines.spots, &paired.taken)?;
    let drafts = &paired.left;
    let runs = name_runs(alloc, &baselines.runs)?;
    let told = list_told(alloc, reporting, &runs, &spots, drafts, states)?;
    tell_all(rt, alloc, reporting, &told, asked.options.workers)
}
