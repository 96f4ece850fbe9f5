//! What is made of the results of logs and of baselines once they are matched.
ghost use Rattle.std.specs.Prelude.{◌≡◌, ◌≤◌, false, true, not, is_some, count_by, length, map, Option, List, IfOk, IfErr};
ghost use Rattle.std.specs.List.{AllByRecursion};
ghost use Rattle.serde_json.specs.Data.{Data};
ghost use Rattle.sarif_model.specs.declared.record.Record.{Record};
ghost use Rattle.sarif_entries.specs.File.{File};
ghost use Rattle.sarif_suppress.specs.Suppressing.{unused_of};
ghost use Rattle.sarif_runs.specs.Judging.{run_values};
ghost use Rattle.sarif_runs.specs.Internal.Opened.{placed_of};
ghost use Rattle.sarif_runs.specs.Placed.{Placed};
ghost use Rattle.sarif_results.specs.Drafts.{applied_of, drafts_by};
ghost use Rattle.sarif_log.specs.Internal.Texts.{own_count, ArePartsOf, IsWholeRun};
ghost use Rattle.sarif_log.specs.LogBy.{expired_of, listing_of};
ghost use Rattle.sarif_log.specs.Internal.Prepared.{IsPrepared};
ghost use Rattle.sarif_results.specs.Internal.Judged.{placed_in, IsJudged};
ghost use Rattle.sarif_upkeep.specs.Internal.IsMatched.{IsFileOf};
ghost use Rattle.sarif_prepare.specs.Chosen.{chosen_merge};
ghost use Rattle.sarif_prepare.specs.Kept.{bytes_of, change_in, IsKept, IsUnkept};
ghost use Rattle.sarif_prepare.specs.Asked.{choice_in, reporting_in, upkeep_in};
ghost use Rattle.sarif_prepare.specs.Ruled.{policy_in};
ghost use Rattle.sarif_prepare.specs.Told.{ruled_for, told_for};
ghost use Rattle.sarif_prepare.specs.Internal.Together.{AreTogether, IsPaired};
ghost use Rattle.sarif_model.specs.Limits.{most_runs};

use crate::asked::Asked;
use crate::baselines::gather_baselines;
use crate::file_read::FileRead;
use crate::halves::{Half, current_half};
use crate::left::left_side;
use crate::limiting::changes_of_all;
use crate::pairing::{Paired, PairedSides, pair_sides};
use crate::parts_of_runs::current_parts;
use crate::reporting::report_sides;
use crate::run_parts::count_without;
use crate::unused::{count_expired, count_unused};
use sarif_log::{Prepared, Side, Spent};
use sarif_model::{MergeFault, Record, State};
use sarif_results::Judged;
use sarif_suppress::Suppressions;
use std::alloc::{AllocError, Global};
use std::thread::Threads;

/// What is written for the runs of logs.
#[derive(Drop)]
pub(crate) struct CurrentSide {
    pub(crate) side: Side,
    /// How many of the runs have no results.
    pub(crate) without: u32,
    /// How many entries of the suppression file match no result.
    pub(crate) unused: u32,
    /// How many of these are expired.
    pub(crate) expired: u32,
    /// The records of their results.
    pub(crate) records: Vec<Record>,
}

/// Returns what is written for the runs of logs, whose results have these states.
fn current_side(
    alloc: Global,
    current: Half<'_, '_>,
    states: Vec<Option<State>>,
    file: &Suppressions,
) -> Result<CurrentSide, AllocError>
    requires few { length current.runs.items ≤ most_runs }
    ensures parts { IfOk result (λ made. ArePartsOf own_count made.side.runs.items
        (run_values (map placed_of current.entry.runs.items))) }
    ensures whole { IfOk result (λ made. AllByRecursion IsWholeRun made.side.runs.items) }
    ensures drafts { IfOk result
        (λ made. made.side.drafts.items ≡ current.entry.drafts.items) }
    ensures states { IfOk result (λ made. made.side.states.items ≡ states.items) }
    ensures without { IfOk result (λ made. made.without
        ≡ count_by (λ parts. not (is_some parts.results)) made.side.runs.items) }
    ensures unused { IfOk result (λ made. (rs : List Record) (ds : List Data)
        → length rs ≡ length ds
        → current.entry.drafts.items ≡ drafts_by (listing_of file.now) (applied_of file.now) rs ds
        → made.unused ≡ unused_of file.now rs) }
    ensures expired { IfOk result
        (λ made. (rs : List Record) → made.expired ≡ expired_of file.now rs) }
{
    let Half {
        runs,
        records,
        drafts,
    } = current;
    let unused = count_unused(alloc, file, &drafts)?;
    let expired = count_expired(file);
    let runs = current_parts(alloc, runs)?;
    let without = count_without(&runs);
    let side = Side {
        runs,
        drafts,
        states,
    };
    Ok(CurrentSide {
        side,
        without,
        unused,
        expired,
        records,
    })
}

/// Takes out of matched results what is written and reported, and what is for later merges.
fn prepare_sides<R: Threads + Sync>(
    rt: &R,
    alloc: Global,
    sides: PairedSides<'_, '_>,
    rules: &FileRead<'_>,
    asked: &Asked<'_>,
) -> Result<Prepared, MergeFault>
    requires read { IsFileOf (bytes_of rules.now) rules.now.file.now }
    requires together { (current_runs : List Placed) × (baseline_runs : List Placed)
        × AreTogether rules.now.file.now current_runs baseline_runs sides.current sides.baselines }
    requires paired { IsPaired asked.now.options.now.checks.matching
        sides.current sides.baselines sides.paired }
    ensures prepared { IfOk result (λ prepared. (current_runs baseline_runs : List Placed)
        → AreTogether rules.now.file.now current_runs baseline_runs
        sides.entry.current sides.entry.baselines
        → IsPrepared asked.now.options.now.checks.matching rules.now.file.now
        current_runs baseline_runs (change_in rules.now) asked.now.options.now.policy
        (ruled_for rules.now asked.now current_runs baseline_runs)
        (told_for rules.now asked.now current_runs baseline_runs) prepared) }
    ensures kept { (current_runs baseline_runs : List Placed)
        → AreTogether rules.now.file.now current_runs baseline_runs
        sides.entry.current sides.entry.baselines
        → IfOk result (λ prepared. IsKept (chosen_merge (policy_in rules.now)
        asked.now.options.now.checks rules.now.file.now (bytes_of rules.now) (change_in rules.now)
        asked.now.options.now.policy (choice_in asked.now) current_runs baseline_runs)
        (upkeep_in asked.now)
        prepared.life) }
    ensures unkept { (current_runs baseline_runs : List Placed)
        → AreTogether rules.now.file.now current_runs baseline_runs
        sides.entry.current sides.entry.baselines
        → IfErr result (IsUnkept (chosen_merge (policy_in rules.now)
        asked.now.options.now.checks rules.now.file.now (bytes_of rules.now) (change_in rules.now)
        asked.now.options.now.policy (choice_in asked.now) current_runs baseline_runs)
        (upkeep_in asked.now)) }
{
    let reported = report_sides(rt, alloc, &sides, rules, asked)?;
    let PairedSides {
        current,
        baselines,
        paired,
    } = sides;
    let Paired {
        states,
        taken,
        left,
        ..
    } = paired;
    let unmatched = left_side(alloc, baselines, &taken, left)?;
    let CurrentSide {
        side,
        without,
        unused,
        expired,
        records,
    } = current_side(alloc, current, states, rules.file)?;
    let spent = Spent {
        current: records,
        baseline: unmatched.records,
    };
    Ok(Prepared {
        current: side,
        baseline: unmatched.side,
        without,
        unused,
        expired,
        findings: reported.findings,
        change: reported.change,
        ruling: reported.ruling,
        life: reported.life,
        copies: None,
        spent,
    })
}

/// Returns everything that is written for runs of logs and baselines without errors: each current result with its
/// level, its baseline state and its suppressions, and the unmatched baseline results as absent (SARIF 2.1.0,
/// "baselineState property"). Matching uses tables that hash with the options' seed, on which no result depends; the
/// threads of the options share the work. If findings are requested, the result has them too, and if something is
/// requested for later merges, that. With a change, only results inside of it are reported, accepted and chosen. It
/// then returns `NoHit` at the first place of a choice that fits no chosen hit, otherwise at the first such rule, then
/// `TooMany` or `TooLong` at the suppression file if the new one could not be read again, then `TooLong` at the known
/// log if this one could not. Returns `OutOfMemory` without a place if memory runs out.
pub fn prepare<R: Threads + Sync>(
    rt: &R,
    alloc: Global,
    current: Judged<'_, '_>,
    baseline: Judged<'_, '_>,
    rules: &FileRead<'_>,
    asked: &Asked<'_>,
) -> Result<Prepared, MergeFault>
    requires read { IsFileOf (bytes_of rules.now) rules.now.file.now }
    requires current { IsJudged rules.now.file.now false current }
    requires baseline { IsJudged rules.now.file.now true baseline }
    ensures prepared { IfOk result (IsPrepared asked.now.options.now.checks.matching
        rules.now.file.now (placed_in current.entry) (placed_in baseline.entry)
        (change_in rules.now) asked.now.options.now.policy
        (ruled_for rules.now asked.now (placed_in current.entry) (placed_in baseline.entry))
        (told_for rules.now asked.now (placed_in current.entry) (placed_in baseline.entry))) }
    ensures kept { IfOk result
        (λ prepared. IsKept (chosen_merge (policy_in rules.now)
        asked.now.options.now.checks rules.now.file.now (bytes_of rules.now) (change_in rules.now)
        asked.now.options.now.policy (choice_in asked.now)
        (placed_in current.entry) (placed_in baseline.entry))
        (upkeep_in asked.now) prepared.life) }
    ensures unkept { IfErr result (IsUnkept (chosen_merge (policy_in rules.now)
        asked.now.options.now.checks rules.now.file.now (bytes_of rules.now) (change_in rules.now)
        asked.now.options.now.policy (choice_in asked.now)
        (placed_in current.entry) (placed_in baseline.entry))
        (upkeep_in asked.now)) }
{
    let changes = changes_of_all(alloc, &current, rules.file)?;
    let current = current_half(alloc, current)?;
    let baselines = gather_baselines(alloc, baseline)?;
    let sides = pair_sides(rt, alloc, current, changes, baselines, asked.options)?;
    let prepared = prepare_sides(rt, alloc, sides, rules, asked)?;
    Ok(prepared)
}
