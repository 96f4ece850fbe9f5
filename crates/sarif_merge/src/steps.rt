//! The steps of a merge. Each step requires what the steps before it made, and each of its
//! rejections is one of the merge. One definition states what a step makes, and only the proof of
//! this step opens it.
ghost use Rattle.std.specs.Prelude.{◌≡◌, ◌≤◌, ◌+◌, Ok, length, option_map, IfOk, IfErr, OnOk};
ghost use Rattle.sarif_inputs.specs.PolicyIn.{conditions_in};
ghost use Rattle.sarif_log.specs.Beside.{IsMadeBy};
ghost use Rattle.sarif_model.specs.Limits.{most_sources};

use json::Scratch;
use json_parts::{Index, IndexFault};
use sarif_gather::Gate;
use sarif_inputs::{
    Opening, Runs, index_sources, look_at_change, look_at_policy, open_sources, read_file,
    read_snippets,
};
use sarif_judge::{Team, judge_runs};
use sarif_log::{Facts, Merged, Prepared, assemble};
use sarif_model::MergeFault;
use sarif_policy::GatePolicy;
use sarif_prepare::{Asked, FileRead, prepare_by};
use sarif_results::Judged;
use sarif_runs::OpenedRun;
use sarif_scope::GatedChange;
use sarif_streams::SourceBytes;
use sarif_suppress::Suppressions;
use std::alloc::{AllocError, Global};
use std::sync::Wait;
use std::thread::Threads;

/// The bytes that may be there.
fn slice_of(bytes: &Option<Vec<u8>>) -> Option<&[u8]>
    ensures { option_map (λ b. b.now) result ≡ option_map (λ v. v.items) bytes.now }
{
    bytes.as_ref().map(Vec::as_slice)
}

/// Returns the change, if there is one.
fn change_of(change: &Option<GatedChange>) -> Option<&GatedChange>
    ensures { option_map (λ c. c.now) result ≡ change.now }
{
    change.as_ref()
}

/// Returns the policy, if there is one.
fn policy_of(policy: &Option<GatePolicy>) -> Option<&GatePolicy>
    ensures { option_map (λ p. p.now.conditions) result ≡ conditions_in policy.now }
{
    match policy {
        Some(policy) => Some(policy),
        None => None,
    }
}

/// A number of scratches.
fn make_scratches(alloc: Global, count: usize) -> Result<Vec<Scratch>, AllocError>
    ensures { IfOk result (λ scratches. length scratches.items ≡ count) }
{
    let mut scratches = Vec::with_capacity(alloc, count)?;
    for _source in 0..count {
        scratches.push(Scratch::new(alloc))?;
    }
    Ok(scratches)
}

/// The suppression file of a merge, its policy, if there is one, and the change that its gate checks, if there is one.
#[derive(Clone, Copy)]
pub(crate) struct FilesRead<'f> {
    pub(crate) file: &'f Suppressions,
    pub(crate) policy: &'f Option<GatePolicy>,
    pub(crate) change: &'f Option<GatedChange>,
}

/// A merge: its sources, and what is requested.
#[derive(Clone, Copy)]
pub(crate) struct Merging<'m, 'o: 'm> {
    pub(crate) sources: &'m SourceBytes,
    pub(crate) asked: &'m Asked<'o>,
}

impl<'m, 'o: 'm> Merging<'m, 'o> {
    ghost use Rattle.std.specs.Prelude.{◌≡◌, ◌≤◌, ◌+◌, Ok, length, IfOk, IfErr, OnOk};
    ghost use Rattle.sarif_inputs.specs.PolicyIn.{conditions_in};
    ghost use Rattle.sarif_log.specs.Beside.{IsMadeBy};
    ghost use Rattle.sarif_merge.specs.Internal.Steps.{AreBaselinesJudged, AreBaselinesOpened, AreBaselinesReady, AreIndexesIn, AreLogsJudged, AreLogsOpened, AreLogsReady, AreLogsSound, IsChangeIn, IsFileIn, IsMergeOf, IsPolicyIn, IsReady, IsRead, IsRejection};
    ghost use Rattle.sarif_model.specs.Limits.{most_sources};

    /// Returns a scratch for each source, in which it is indexed.
    #[tactic(auto, using(crate::proofs::StepFacts::lacks_memory))]
    pub(crate) fn make_scratches(&self, alloc: Global) -> Result<Vec<Scratch>, MergeFault>
        ensures scratches { IfOk result (λ scratches. length scratches.items
            ≡ length self.now.sources.now.logs.items
            + length self.now.sources.now.baselines.items) }
        ensures refused { IfErr result (IsRejection self.now) }
    {
        let count = self.sources.logs.len() + self.sources.baselines.len();
        let scratches = make_scratches(alloc, count)?;
        Ok(scratches)
    }

    /// Indexes the sources, the logs first.
    #[tactic(auto, using(crate::proofs::StepFacts::lacks_memory))]
    pub(crate) fn index<'a, R: Threads + Sync>(
        &'a self,
        rt: &R,
        alloc: Global,
        scratches: &'a mut [Scratch],
    ) -> Result<Vec<Result<Index<'a>, IndexFault>>, MergeFault>
        requires scratches { length scratches.old
            ≡ length self.now.sources.now.logs.items + length self.now.sources.now.baselines.items }
        requires few_logs { length self.now.sources.now.logs.items ≤ most_sources }
        requires few_baselines { length self.now.sources.now.baselines.items ≤ most_sources }
        ensures indexes { IfOk result (λ indexes. AreIndexesIn self.now indexes.items) }
        ensures refused { IfErr result (IsRejection self.now) }
    {
        let logs = self.sources.logs.as_slice();
        let baselines = self.sources.baselines.as_slice();
        let threads = self.asked.options.workers + 1;
        let indexes = index_sources(rt, alloc, logs, baselines, scratches, threads)?;
        Ok(indexes)
    }

    /// Opens the runs of the sources.
    pub(crate) fn open<'t, 'a, R: Threads + Sync>(
        &'t self,
        rt: &R,
        alloc: Global,
        indexes: &'t [Result<Index<'a>, IndexFault>],
    ) -> Result<Runs<'t, 'a>, MergeFault>
        requires indexes { AreIndexesIn self.now indexes.now }
        ensures logs { IfOk result (λ runs. AreLogsOpened self.now runs.current.items) }
        ensures baselines { IfOk result (λ runs. AreBaselinesOpened self.now runs.baseline.items) }
        ensures read { OnOk result (IsRead self.now) }
        ensures refused { IfErr result (IsRejection self.now) }
    {
        let options = self.asked.options;
        let opening = Opening {
            checks: &options.checks,
            seed: options.seed,
        };
        let logs = self.sources.logs.len();
        let runs = open_sources(rt, alloc, opening, indexes, logs, options.workers + 1)?;
        Ok(runs)
    }

    /// Reads the suppression file, if there is one.
    pub(crate) fn read_file(&self, alloc: Global) -> Result<Suppressions, MergeFault>
        requires { IsRead self.now }
        ensures file { IfOk result (IsFileIn self.now) }
        ensures refused { IfErr result (IsRejection self.now) }
    {
        let options = self.asked.options;
        let bytes = slice_of(&self.sources.suppressions);
        let file = read_file(alloc, options.seed, bytes, options.today)?;
        Ok(file)
    }

    /// Has the results of these runs read with their snippets, if a filter of the policy or an entry of the suppression
    /// file compares snippets.
    pub(crate) fn read_snippets<'t, 'a>(
        &self,
        runs: Runs<'t, 'a>,
        files: &FilesRead<'_>,
    ) -> Runs<'t, 'a>
        requires logs { AreLogsOpened self.now runs.current.items }
        requires baselines { AreBaselinesOpened self.now runs.baseline.items }
        requires file { IsFileIn self.now files.now.file.now }
        requires policy { IsPolicyIn self.now (conditions_in files.now.policy.now) }
        ensures logs { AreLogsReady self.now result.current.items }
        ensures baselines { AreBaselinesReady self.now result.baseline.items }
    {
        let Runs {
            mut current,
            mut baseline,
        } = runs;
        read_snippets(files.policy, files.file, &mut current);
        read_snippets(files.policy, files.file, &mut baseline);
        Runs { current, baseline }
    }

    /// Reads the policy, if there is one. A condition on the change needs a diff.
    pub(crate) fn read_policy(
        &self,
        alloc: Global,
        file: &Suppressions,
    ) -> Result<Option<GatePolicy>, MergeFault>
        requires { IsFileIn self.now file.now }
        ensures policy { IfOk result (λ policy. IsPolicyIn self.now (conditions_in policy)) }
        ensures refused { IfErr result (IsRejection self.now) }
    {
        let bytes = slice_of(&self.sources.policy);
        let has_diff = self.sources.diff.is_some();
        let policy = look_at_policy(alloc, bytes, has_diff)?;
        Ok(policy)
    }

    /// Reads the diff, if there is one.
    pub(crate) fn read_diff(
        &self,
        alloc: Global,
        policy: &Option<GatePolicy>,
    ) -> Result<Option<GatedChange>, MergeFault>
        requires { IsPolicyIn self.now (conditions_in policy.now) }
        ensures change { IfOk result (IsChangeIn self.now) }
        ensures refused { IfErr result (IsRejection self.now) }
    {
        let options = self.asked.options;
        let bytes = slice_of(&self.sources.diff);
        let change = look_at_change(alloc, options.seed, bytes, &options.checks)?;
        Ok(change)
    }

    /// Has workers judge the results of the logs.
    pub(crate) fn judge_logs<'t, 'a, G: Gate + Sync, R: Threads + Wait + Sync>(
        &self,
        rt: &R,
        alloc: Global,
        runs: Vec<OpenedRun<'t, 'a>>,
        files: &FilesRead<'_>,
        observer: &G,
    ) -> Result<Judged<'t, 'a>, MergeFault>
        requires runs { AreLogsReady self.now runs.items }
        requires file { IsFileIn self.now files.now.file.now }
        requires change { IsChangeIn self.now files.now.change.now }
        ensures judged { IfOk result (AreLogsJudged self.now) }
        ensures sound { OnOk result (AreLogsSound self.now) }
        ensures refused { IfErr result (IsRejection self.now) }
    {
        let team = Team::in_merge(self.asked.options.workers);
        let judged = judge_runs(rt, alloc, runs, files.file, team, observer)?;
        Ok(judged)
    }

    /// Has workers judge the results of the baselines.
    pub(crate) fn judge_baselines<'t, 'a, G: Gate + Sync, R: Threads + Wait + Sync>(
        &self,
        rt: &R,
        alloc: Global,
        runs: Vec<OpenedRun<'t, 'a>>,
        files: &FilesRead<'_>,
        observer: &G,
    ) -> Result<Judged<'t, 'a>, MergeFault>
        requires runs { AreBaselinesReady self.now runs.items }
        requires file { IsFileIn self.now files.now.file.now }
        requires change { IsChangeIn self.now files.now.change.now }
        requires logs { AreLogsSound self.now }
        ensures judged { IfOk result (AreBaselinesJudged self.now) }
        ensures refused { IfErr result (IsRejection self.now) }
    {
        let team = Team::in_merge(self.asked.options.workers);
        let judged = judge_runs(rt, alloc, runs, files.file, team, observer)?;
        Ok(judged)
    }

    /// Matches the results of the logs with those of the baselines, and takes out of them what is written.
    pub(crate) fn prepare<R: Threads + Sync>(
        &self,
        rt: &R,
        alloc: Global,
        logs: Judged<'_, '_>,
        baselines: Judged<'_, '_>,
        files: &FilesRead<'_>,
    ) -> Result<Prepared, MergeFault>
        requires file { IsFileIn self.now files.now.file.now }
        requires policy { IsPolicyIn self.now (conditions_in files.now.policy.now) }
        requires change { IsChangeIn self.now files.now.change.now }
        requires logs { AreLogsJudged self.now logs }
        requires baselines { AreBaselinesJudged self.now baselines }
        ensures prepared { IfOk result (IsReady self.now) }
        ensures refused { IfErr result (IsRejection self.now) }
    {
        let rules = FileRead {
            file: files.file,
            bytes: slice_of(&self.sources.suppressions),
            policy: policy_of(files.policy),
            change: change_of(files.change),
        };
        let prepared = prepare_by(rt, alloc, logs, baselines, &rules, self.asked)?;
        Ok(prepared)
    }

    /// Assembles the merged log, and releases the scratches meanwhile.
    #[tactic(auto, using(crate::proofs::StepFacts::lacks_memory))]
    pub(crate) fn assemble<
        R: Threads + Sync,
        B: Drop,
        Tell: FnOnce(&Facts<'_>) -> Result<B, AllocError>,
    >(
        &self,
        rt: &R,
        alloc: Global,
        prepared: Prepared,
        scratches: Vec<Scratch>,
        tell: Tell,
    ) -> Result<(Merged, B), MergeFault>
        requires prepared { IsReady self.now prepared }
        requires tells { Tell.IsAlwaysCallable tell }
        ensures merged { IfOk result (λ made. IsMergeOf self.now made.0) }
        ensures told { IfOk result (λ made. IsMadeBy Tell.FnOnce tell made.0 (Ok made.1)) }
        ensures refused { IfErr result (IsRejection self.now) }
    {
        let options = self.asked.options;
        let made = assemble(rt, alloc, prepared, options, scratches, tell)?;
        Ok(made)
    }
}
