//! Matching results where copies aren't counted: findings alone are matched, and a copy has what its finding has.
ghost use Rattle.std.specs.Prelude.{◌≡◌, false, true, List, Some, IfOk, IfErr};
ghost use Rattle.sarif_log.specs.LogBy.{expired_of};
ghost use Rattle.sarif_model.specs.declared.record.Record.{Record};
ghost use Rattle.sarif_once.specs.Once.{without_copies};
ghost use Rattle.sarif_prepare.specs.Asked.{choice_in, reporting_in, upkeep_in};
ghost use Rattle.sarif_prepare.specs.Chosen.{chosen_merge};
ghost use Rattle.sarif_prepare.specs.Internal.Woven.{flags_of, AreApart, AreWoven};
ghost use Rattle.sarif_prepare.specs.Kept.{bytes_of, change_in, IsKept, IsUnkept};
ghost use Rattle.sarif_prepare.specs.Once.{IsPreparedOnce};
ghost use Rattle.sarif_prepare.specs.Ruled.{policy_in};
ghost use Rattle.sarif_results.specs.Internal.Judged.{placed_in, IsJudged};
ghost use Rattle.sarif_runs.specs.Placed.{Placed};
ghost use Rattle.sarif_upkeep.specs.Internal.IsMatched.{IsFileOf};

use crate::asked::Asked;
use crate::baselines::{Baselines, gather_baselines};
use crate::changes::Changes;
use crate::copies::{
    BaselineCopies, CurrentCopies, SplitBaselines, SplitLogs, split_baselines, split_logs,
};
use crate::file_read::FileRead;
use crate::halves::{Half, current_half};
use crate::pairing::{Paired, PairedSides, pair_sides};
use crate::preparing::CurrentSide;
use crate::reporting::{ReportedSides, report_sides};
use crate::woven::{CurrentWoven, LeftWoven, weave_baselines, weave_logs};
use sarif_log::{CopyFlags, Prepared, Spent};
use sarif_model::MergeFault;
use sarif_results::Judged;
use std::alloc::{AllocError, Global};
use std::thread::Threads;

/// The two sides without their copies, what changes for the findings of logs, and what is needed of the copies.
#[derive(Drop)]
pub(crate) struct SplitSides<'t, 'a> {
    pub(crate) current: Half<'t, 'a>,
    pub(crate) changes: Changes,
    pub(crate) baselines: Baselines<'t, 'a>,
    pub(crate) current_copies: CurrentCopies,
    pub(crate) baseline_copies: BaselineCopies,
}

/// Takes the copies out of both sides.
fn split_sides<'t, 'a, R: Threads + Sync>(
    rt: &R,
    alloc: Global,
    current: Judged<'t, 'a>,
    baseline: Judged<'t, 'a>,
    rules: &FileRead<'_>,
    asked: &Asked<'_>,
) -> Result<SplitSides<'t, 'a>, AllocError>
    requires current { IsJudged rules.now.file.now false current }
    requires baseline { IsJudged rules.now.file.now true baseline }
    ensures { IfOk result (AreApart rules.now.file.now (placed_in current.entry)
        (placed_in baseline.entry)) }
{
    let seed = asked.options.seed;
    let threads = asked.options.workers + 1;
    let SplitLogs {
        rest,
        changes,
        copies,
    } = split_logs(alloc, seed, current, rules.file)?;
    let current = current_half(alloc, rest)?;
    let current_copies = copies;
    let SplitBaselines { rest, copies } = split_baselines(rt, alloc, seed, baseline, threads)?;
    let baselines = gather_baselines(alloc, rest)?;
    Ok(SplitSides {
        current,
        changes,
        baselines,
        current_copies,
        baseline_copies: copies,
    })
}

/// Returns what is written of both sides, with what is reported and what is for later merges.
fn put_together(logs: CurrentWoven, baselines: LeftWoven, reported: ReportedSides) -> Prepared
    requires { AreWoven logs baselines }
    ensures current { result.current ≡ logs.side.side }
    ensures baseline { result.baseline ≡ baselines.left.side }
    ensures copies { result.copies ≡ Some (flags_of logs.copies baselines.copies) }
    ensures without { result.without ≡ logs.side.without }
    ensures unused { result.unused ≡ logs.side.unused }
    ensures expired { result.expired ≡ logs.side.expired }
    ensures findings { result.findings ≡ reported.findings }
    ensures change { result.change ≡ reported.change }
    ensures ruling { result.ruling ≡ reported.ruling }
    ensures life { result.life ≡ reported.life }
{
    let ReportedSides {
        findings,
        change,
        ruling,
        life,
    } = reported;
    let CurrentWoven { side, copies } = logs;
    let LeftWoven {
        left,
        copies: marks,
    } = baselines;
    let CurrentSide {
        side,
        without,
        unused,
        expired,
        records,
    } = side;
    Prepared {
        current: side,
        baseline: left.side,
        without,
        unused,
        expired,
        findings,
        change,
        ruling,
        life,
        copies: Some(CopyFlags {
            current: copies,
            baseline: marks,
        }),
        spent: Spent {
            current: records,
            baseline: left.records,
        },
    }
}

/// Matches the findings of logs with those of baselines, and takes out of all results what is written, and of the
/// findings what is reported and what is for later merges.
fn prepare_split<R: Threads + Sync>(
    rt: &R,
    alloc: Global,
    split: SplitSides<'_, '_>,
    rules: &FileRead<'_>,
    asked: &Asked<'_>,
) -> Result<Prepared, MergeFault>
    requires read { IsFileOf (bytes_of rules.now) rules.now.file.now }
    requires apart { (now before : List Placed) × AreApart rules.now.file.now now before split }
    ensures prepared { IfOk result (λ prepared. (now before : List Placed)
        → AreApart rules.now.file.now now before split.entry
        → IsPreparedOnce asked.now.options.now.checks.matching rules.now.file.now now before
        (change_in rules.now) asked.now.options.now.policy (policy_in rules.now)
        (reporting_in asked.now) prepared) }
    ensures expired { IfOk result
        (λ prepared. (rs : List Record) → prepared.expired ≡ expired_of rules.now.file.now rs) }
    ensures kept { (now before : List Placed)
        → AreApart rules.now.file.now now before split.entry
        → IfOk result (λ prepared. IsKept (chosen_merge (policy_in rules.now)
        asked.now.options.now.checks rules.now.file.now (bytes_of rules.now) (change_in rules.now)
        asked.now.options.now.policy (choice_in asked.now)
        (without_copies now) (without_copies before)) (upkeep_in asked.now) prepared.life) }
    ensures unkept { (now before : List Placed)
        → AreApart rules.now.file.now now before split.entry
        → IfErr result (IsUnkept (chosen_merge (policy_in rules.now)
        asked.now.options.now.checks rules.now.file.now (bytes_of rules.now) (change_in rules.now)
        asked.now.options.now.policy (choice_in asked.now)
        (without_copies now) (without_copies before)) (upkeep_in asked.now)) }
{
    let SplitSides {
        current,
        changes,
        baselines,
        current_copies,
        baseline_copies,
    } = split;
    let sides = pair_sides(rt, alloc, current, changes, baselines, asked.options)?;
    let reported = report_sides(rt, alloc, &sides, rules, asked)?;
    let PairedSides {
        current,
        baselines,
        paired,
    } = sides;
    let Paired {
        states,
        taken,
        left,
        ..
    } = paired;
    let there = weave_baselines(alloc, baselines, baseline_copies, &taken, left)?;
    let here = weave_logs(alloc, current, current_copies, &states, rules.file)?;
    Ok(put_together(here, there, reported))
}

/// Returns what [`prepare`](crate::prepare) returns, if copies aren't counted. A copy is a result of logs, or of
/// baselines, that has a URI and a region and whose record is equal to that of an earlier one, its finding. Only
/// findings are matched, counted, reported and kept for later merges. A copy is written as any result: with the
/// baseline state of its finding, and absent if its finding is. The errors are those of `prepare`.
pub fn prepare_once<R: Threads + Sync>(
    rt: &R,
    alloc: Global,
    current: Judged<'_, '_>,
    baseline: Judged<'_, '_>,
    rules: &FileRead<'_>,
    asked: &Asked<'_>,
) -> Result<Prepared, MergeFault>
    requires read { IsFileOf (bytes_of rules.now) rules.now.file.now }
    requires current { IsJudged rules.now.file.now false current }
    requires baseline { IsJudged rules.now.file.now true baseline }
    ensures prepared { IfOk result (IsPreparedOnce asked.now.options.now.checks.matching
        rules.now.file.now (placed_in current.entry) (placed_in baseline.entry)
        (change_in rules.now) asked.now.options.now.policy (policy_in rules.now)
        (reporting_in asked.now)) }
    ensures expired { IfOk result
        (λ prepared. (rs : List Record) → prepared.expired ≡ expired_of rules.now.file.now rs) }
    ensures kept { IfOk result
        (λ prepared. IsKept (chosen_merge (policy_in rules.now)
        asked.now.options.now.checks rules.now.file.now (bytes_of rules.now) (change_in rules.now)
        asked.now.options.now.policy (choice_in asked.now)
        (without_copies (placed_in current.entry)) (without_copies (placed_in baseline.entry)))
        (upkeep_in asked.now) prepared.life) }
    ensures unkept { IfErr result (IsUnkept (chosen_merge (policy_in rules.now)
        asked.now.options.now.checks rules.now.file.now (bytes_of rules.now) (change_in rules.now)
        asked.now.options.now.policy (choice_in asked.now)
        (without_copies (placed_in current.entry)) (without_copies (placed_in baseline.entry)))
        (upkeep_in asked.now)) }
{
    let split = split_sides(rt, alloc, current, baseline, rules, asked)?;
    let prepared = prepare_split(rt, alloc, split, rules, asked)?;
    Ok(prepared)
}
