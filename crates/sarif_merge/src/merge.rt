//! The merge of logs.
ghost use Rattle.std.specs.Prelude.{◌≡◌, ◌≤◌, ◌+◌, ◌⊎◌, [], Ok, Some, length, option_map, IfOk, IfErr};
ghost use Rattle.sarif_model.specs.MergeFault.{IsQuiet};
ghost use Rattle.sarif_log.specs.Beside.{IsMadeBy};
ghost use Rattle.sarif_log.specs.Assembled.{HasGate};
ghost use Rattle.sarif_prepare.specs.Asked.{choice_in, reporting_in, upkeep_in};
ghost use Rattle.sarif_model.specs.FirstFault.{IsOutOfResources};
ghost use Rattle.sarif_inputs.specs.Faults.{faults_of, first_fault};
ghost use Rattle.sarif_inputs.specs.PolicyIn.{conditions_in};
ghost use Rattle.sarif_merge.specs.Given.{inputs_of};
ghost use Rattle.sarif_merge.specs.Life.{IsLifeOf, IsRefusal, no_life};
ghost use Rattle.sarif_merge.specs.Merged.{HoldsFirst, IsMerged};
ghost use Rattle.sarif_merge.specs.MergedLog.{change_given, copies_in_log, expired_in, inputs_in_log, output_text, ruling_given, runs_counted, unused_counted, without_of};
ghost use Rattle.sarif_merge.specs.Internal.Steps.{AreBaselinesOpened, AreLogsOpened, IsChangeIn, IsFileIn, IsPolicyIn, IsReady, IsRejection};
ghost use Rattle.sarif_model.specs.Limits.{most_sources};

use crate::steps::{FilesRead, Merging};
use json::Scratch;
use sarif_gather::Gate;
use sarif_inputs::{Runs, check_numbers};
use sarif_log::{Facts, Merged, Prepared};
use sarif_model::MergeFault;
use sarif_options::Options;
use sarif_prepare::Asked;
use sarif_streams::SourceBytes;
use sarif_suppress::Suppressions;
use std::alloc::{AllocError, Global};
use std::sync::Wait;
use std::thread::Threads;

/// Everything that is written for a merge of these runs: steps 4 to 6. It owns no more than the runs, since what a
/// function owns at each of its exits costs most of its proof.
fn judge_few<G: Gate + Sync, R: Threads + Wait + Sync>(
    rt: &R,
    alloc: Global,
    merging: &Merging<'_, '_>,
    runs: Runs<'_, '_>,
    files: &FilesRead<'_>,
    observer: &G,
) -> Result<Prepared, MergeFault>
    requires logs { AreLogsOpened merging.now runs.current.items }
    requires baselines { AreBaselinesOpened merging.now runs.baseline.items }
    requires file { IsFileIn merging.now files.now.file.now }
    requires policy { IsPolicyIn merging.now (conditions_in files.now.policy.now) }
    requires change { IsChangeIn merging.now files.now.change.now }
    ensures prepared { IfOk result (IsReady merging.now) }
    ensures refused { IfErr result (IsRejection merging.now) }
{
    let Runs { current, baseline } = merging.read_snippets(runs, files);
    let logs = merging.judge_logs(rt, alloc, current, files, observer)?;
    let baselines = merging.judge_baselines(rt, alloc, baseline, files, observer)?;
    merging.prepare(rt, alloc, logs, baselines, files)
}

/// Everything that is written for a merge of these runs with this suppression file: reads the policy and the diff, and
/// then steps 4 to 6. The policy and the change are released at its end.
fn judge_change<G: Gate + Sync, R: Threads + Wait + Sync>(
    rt: &R,
    alloc: Global,
    merging: &Merging<'_, '_>,
    runs: Runs<'_, '_>,
    file: &Suppressions,
    observer: &G,
) -> Result<Prepared, MergeFault>
    requires logs { AreLogsOpened merging.now runs.current.items }
    requires baselines { AreBaselinesOpened merging.now runs.baseline.items }
    requires file { IsFileIn merging.now file.now }
    ensures prepared { IfOk result (IsReady merging.now) }
    ensures refused { IfErr result (IsRejection merging.now) }
{
    let policy = merging.read_policy(alloc, file)?;
    let change = merging.read_diff(alloc, &policy)?;
    let files = FilesRead {
        file,
        policy: &policy,
        change: &change,
    };
    judge_few(rt, alloc, merging, runs, &files, observer)
}

/// Everything that is written for a merge: steps 1 to 3, and then those on what they found. The indexes and the
/// suppression file are released at its end.
fn prepare_few<G: Gate + Sync, R: Threads + Wait + Sync>(
    rt: &R,
    alloc: Global,
    merging: &Merging<'_, '_>,
    scratches: &mut [Scratch],
    observer: &G,
) -> Result<Prepared, MergeFault>
    requires scratches { length scratches.old ≡ length merging.now.sources.now.logs.items
        + length merging.now.sources.now.baselines.items }
    requires few_logs { length merging.now.sources.now.logs.items ≤ most_sources }
    requires few_baselines { length merging.now.sources.now.baselines.items ≤ most_sources }
    ensures prepared { IfOk result (IsReady merging.now) }
    ensures refused { IfErr result (IsRejection merging.now) }
{
    let indexes = (&*merging).index(rt, alloc, scratches)?;
    let runs = merging.open(rt, alloc, &indexes)?;
    let file = merging.read_file(alloc)?;
    judge_change(rt, alloc, merging, runs, &file, observer)
}

/// Merges at most `MOST_SOURCES` logs and as many baselines. Returns the merge and what `tell` computed from it.
#[tactic(auto, using(crate::proofs::StepFacts::merge_is, crate::proofs::StepFacts::life_is, crate::proofs::StepFacts::refusal_is, crate::proofs::StepFacts::refusal_exits))]
pub(crate) fn merge_few<
    G: Gate + Sync,
    R: Threads + Wait + Sync,
    B: Drop,
    Tell: FnOnce(&Facts<'_>) -> Result<B, AllocError>,
>(
    rt: &R,
    alloc: Global,
    sources: &SourceBytes,
    asked: &Asked<'_>,
    observer: &G,
    tell: Tell,
) -> Result<(Merged, B), MergeFault>
    requires few_logs { length sources.now.logs.items ≤ most_sources }
    requires few_baselines { length sources.now.baselines.items ≤ most_sources }
    requires tells { Tell.IsAlwaysCallable tell }
    ensures merged { IfOk result (λ made. IsMerged (inputs_of sources.now asked.now.options.now)
        asked.now.options.now.policy (reporting_in asked.now) made.0) }
    ensures life { IfOk result (λ made. IsLifeOf (inputs_of sources.now asked.now.options.now)
        asked.now.options.now.policy (choice_in asked.now) (upkeep_in asked.now) made.0.life) }
    ensures told { IfOk result (λ made. IsMadeBy Tell.FnOnce tell made.0 (Ok made.1)) }
    ensures refused { IfErr result (IsRefusal (inputs_of sources.now asked.now.options.now)
        asked.now.options.now.policy (choice_in asked.now) (upkeep_in asked.now)) }
    ensures quiet { IsQuiet result }
{
    let merging = Merging { sources, asked };
    let mut scratches = merging.make_scratches(alloc)?;
    let prepared = prepare_few(rt, alloc, &merging, &mut scratches, observer)?;
    let made = merging.assemble(rt, alloc, prepared, scratches, tell)?;
    Ok(made)
}

/// Nothing, of any merge.
pub(crate) fn tell_nothing(_facts: &Facts<'_>) -> Result<(), AllocError> {
    Ok(())
}

/// Merges logs with baselines: gives each current result its effective level, its baseline state and its
/// suppressions, adds the unmatched results of the baselines as absent, and computes the gate's verdict. If there is a
/// diff, only results inside its change can be hits; if there is a policy, its conditions say what is a hit and what
/// fails. The merged log and its counts depend only on the sources, the options' policy and today's date, and neither on
/// the number of workers nor on their order. `observer` observes the judging of results. A rejection is the first error of the inputs with its place: `TooMany` if there are too many logs or
/// baselines, and then the errors of reading the logs and the baselines, of the suppression file, of the policy, of the
/// diff, of the logs' runs and results, and of the baselines' runs and results. Its cause is any except `TooLong`,
/// `ReadFailed` and `WriteFailed`. `OutOfMemory`, if memory runs out, and `NoWorker`, if a thread cannot be started,
/// have no place, and may be returned instead of any of these.
#[tactic(auto, using(crate::proofs::Alone::life_alone, crate::proofs::Alone::refusal_alone))]
pub fn merge_bytes<G: Gate + Sync, R: Threads + Wait + Sync>(
    rt: &R,
    alloc: Global,
    sources: &SourceBytes,
    options: &Options,
    observer: &G,
) -> Result<Merged, MergeFault>
    // Ok is returned only if there are no errors.
    ensures faultless { IfOk result (λ _. faults_of (inputs_of sources.now options.now) ≡ []) }
    // The log begins with the input runs: each result once, in its run's order, with its level, its state and
    // its suppressions.
    ensures inputs { IfOk result
        (λ merged. HoldsFirst (inputs_in_log (inputs_of sources.now options.now)) merged.log) }
    // After these come exactly the unmatched results of the baselines, as absent, and nothing after the log.
    ensures log { IfOk result (λ merged. merged.log
        ≡ output_text (inputs_of sources.now options.now) options.now.policy) }
    // Counts, verdict and numbers are those of the results that are written and counted. With a diff, the hits and
    // the verdict are those of the results inside its change; with a policy, the verdict is that of its conditions.
    ensures gate { let inputs = inputs_of sources.now options.now in
        IfOk result (HasGate (runs_counted inputs) (change_given inputs) options.now.policy
        (ruling_given inputs) (without_of inputs) (unused_counted inputs)) }
    // The number of unused entries that are expired is counted.
    ensures expired { IfOk result
        (λ merged. merged.expired ≡ expired_in (inputs_of sources.now options.now)) }
    // If copies aren't counted, the gate names them, and there are that many.
    ensures copies { IfOk result (λ merged. merged.copies
        ≡ option_map length (copies_in_log (inputs_of sources.now options.now))) }
    // The merge has no findings.
    ensures untold { IfOk result (λ merged. merged.findings.items ≡ []) }
    // Nothing is for later merges.
    ensures life { IfOk result (λ merged. merged.life ≡ no_life) }
    ensures refusals { IfErr result (λ fault. IsOutOfResources fault
        ⊎ (first_fault (inputs_of sources.now options.now) ≡ Some fault)) }
    ensures quiet { IsQuiet result }
{
    check_numbers(sources.logs.len(), sources.baselines.len())?;
    let asked = Asked {
        options,
        reporting: None,
        upkeep: None,
        choice: None,
    };
    let (merged, ()) = merge_few(rt, alloc, sources, &asked, observer, tell_nothing)?;
    Ok(merged)
}
