//! Opening the runs of all sources of a merge.
ghost use Rattle.std.specs.Prelude.{◌≡◌, ◌≤◌, ◌+◌, ◌++◌, [], Ok, ℕ, Bool, List, map, length, false, OnOk, IfErr, IfOk};
ghost use Rattle.std.specs.List.{list_any};
ghost use Rattle.serde_json.specs.Written.{has_float};
ghost use Rattle.sarif_read.specs.Internal.Indexed.{run_of};
ghost use Rattle.sarif_read.specs.Reading.{log_of};
ghost use Rattle.sarif_model.specs.Run.{results_total};
ghost use Rattle.sarif_model.specs.MergeFault.{IsQuiet};
ghost use Rattle.sarif_model.specs.Internal.SourceKind.{source_of};
ghost use Rattle.sarif_model.specs.FirstFault.{Answers};
ghost use Rattle.sarif_inputs.specs.Faults.{IsTooMany, number_faults};
ghost use Rattle.sarif_runs.specs.Judging.{run_values};
ghost use Rattle.sarif_inputs.specs.Inputs as said;
ghost use Rattle.sarif_inputs.specs.Inputs.{numbered, placed, placed_from, readable};
ghost use Rattle.sarif_inputs.specs.Internal.Indexes.{AreIndexesOf};
ghost use Rattle.sarif_inputs.specs.Internal.Parsed.{AreParsedFrom, IsParsedFrom};
ghost use Rattle.sarif_inputs.specs.Internal.ReadRun.{placed_read};
ghost use Rattle.sarif_inputs.specs.Internal.ReadSoFar.{IsCounted, faults_with, sources_of};
ghost use Rattle.sarif_inputs.specs.Internal.Runs.{AreRunsOf};
ghost use Rattle.sarif_inputs.specs.SourceFaults.{fault_of_reading, reading_faults, limit_faults, source_faults};
ghost use Rattle.sarif_model.specs.Limits.{most_results, most_runs, most_sources};

use crate::opening::open_each;
use crate::read_run::ReadRun;
use crate::reading::{ReadLog, read_kinds};
use json_parts::{Index, IndexFault};
use sarif_evidence::MatchingVersion;
use sarif_model::{
    At, Cause, Fault, MOST_RESULTS, MOST_RUNS, MOST_SOURCES, MergeFault, Refusal, Source,
    SourceKind,
};
use sarif_options::Checks;
use sarif_read::{IndexedRun, ReadFault, read_runs_hold_no_fraction};
use sarif_runs::{IgnoredNames, OpenedRun, RecordOptions, RunOptions};
use std::alloc::{AllocError, Global};
use std::hash::RandomState;
use std::thread::Threads;

/// The runs of all sources of a merge, opened.
#[derive(Drop)]
pub struct Runs<'t, 'a> {
    /// The runs of the logs, in the order of logs and runs.
    pub current: Vec<OpenedRun<'t, 'a>>,
    /// The runs of the baselines, in the order of baselines and runs.
    pub baseline: Vec<OpenedRun<'t, 'a>>,
}

/// The runs of all sources in order, those of the logs first.
#[derive(Drop)]
struct AllRuns<'t, 'a> {
    all: Vec<ReadRun<'t, 'a>>,
    /// How many of them are those of logs.
    inputs: u32,
}

/// Checks that there are at most `MOST_SOURCES` logs and at most `MOST_SOURCES` baselines. Returns `TooMany` at the
/// first log past the limit, if there is one, otherwise at the first baseline past it.
pub fn check_numbers(logs: usize, baselines: usize) -> Result<(), MergeFault>
    ensures faults { (ls bs : List (List ℕ)) → length ls ≡ logs → length bs ≡ baselines
        → Answers (number_faults Source.Log ls ++ number_faults Source.Baseline bs) result }
    ensures too_many { IfErr result (IsTooMany logs baselines) }
    ensures few_logs { OnOk result (logs ≤ most_sources) }
    ensures few_baselines { OnOk result (baselines ≤ most_sources) }
    ensures quiet { IsQuiet result }
{
    if logs > MOST_SOURCES {
        return Err(too_many(Source::Log(MOST_SOURCES as u32)));
    }
    if baselines > MOST_SOURCES {
        return Err(too_many(Source::Baseline(MOST_SOURCES as u32)));
    }
    Ok(())
}

fn too_many(source: Source) -> MergeFault
    ensures { result ≡ record { at = At.Whole source; cause = Cause.Of Fault.TooMany } }
{
    MergeFault::with_place(At::Whole(source), Cause::Of(Fault::TooMany))
}

/// Returns an error of reading a source with its place.
fn fault_in(source: Source, fault: ReadFault) -> MergeFault
    ensures { result ≡ fault_of_reading source fault }
{
    let at = match fault.run {
        Some(run) => At::Run(source, run),
        None => At::Whole(source),
    };
    MergeFault::with_place(at, Cause::Of(fault.fault))
}

/// The log that was read from a source, or its error with its place.
#[tactic(auto, using(sarif_model::proofs::QuietFaults::quiet_fault, crate::proofs::ReadIndexes::reading_refused))]
fn log_of_source<'t, 'a>(
    source: Source,
    parsed: ReadLog<'t, 'a>,
) -> Result<Vec<IndexedRun<'t, 'a>>, MergeFault>
    ensures runs { (allow : Bool) (bytes : List ℕ) → IsParsedFrom allow bytes parsed.entry
        → IfOk result (λ log. log_of allow bytes ≡ Ok (map run_of log.items)) }
    ensures same { IfOk result (λ log. parsed.entry ≡ Ok log) }
    ensures faults { (allow : Bool) (bytes : List ℕ) → IsParsedFrom allow bytes parsed.entry
        → Answers (reading_faults source (log_of allow bytes)) result }
    ensures quiet { IsQuiet result }
{
    match parsed {
        Ok(log) => Ok(log),
        Err(Refusal::Fault(fault)) => Err(fault_in(source, fault)),
        Err(Refusal::OutOfMemory) => Err(MergeFault::from(AllocError)),
    }
}

/// At most `MOST_RUNS` runs and `MOST_RESULTS` results in the sources up to this one: otherwise returns `TooMany` at it.
fn check_limits(source: Source, runs: usize, results: u32) -> Result<(), MergeFault>
    ensures faults { Answers (limit_faults source runs results) result }
    ensures few_runs { OnOk result (runs ≤ most_runs) }
    ensures few_results { OnOk result (results ≤ most_results) }
    ensures quiet { IsQuiet result }
{
    if runs > MOST_RUNS || results as usize > MOST_RESULTS {
        Err(too_many(source))
    } else {
        Ok(())
    }
}

/// How many results the runs have.
fn count_results(runs: &[IndexedRun<'_, '_>]) -> u32
    requires { results_total (map run_of runs.now) ≤ most_results }
    ensures count { result ≡ results_total (map run_of runs.now) }
    ensures few { result ≤ most_results }
{
    let mut results = 0;
    for run in runs {
        results += run.len();
    }
    results
}

/// Whether the analysis of a run of this source must have been successful.
fn must_succeed(checks: &Checks, source: Source) -> bool
    ensures { result ≡ said.must_succeed checks.now source }
{
    match source {
        Source::Log(_) => checks.require_success,
        _ => false,
    }
}

/// Whether a version of matching reads regions and snippets.
fn looks_at_regions(version: MatchingVersion) -> bool
    ensures { result ≡ said.looks_at_regions version }
{
    match version {
        MatchingVersion::Two => false,
        MatchingVersion::Three => true,
    }
}

/// What the records of results have.
fn record_options<'o>(checks: &'o Checks) -> RecordOptions<'o>
    ensures { result ≡ said.record_options checks.now }
{
    RecordOptions {
        regions: looks_at_regions(checks.matching) || checks.once,
        ignored: IgnoredNames::new(checks.ignored.as_slice()),
    }
}

/// How the runs of this source are read.
fn run_options<'o>(checks: &'o Checks, source: Source) -> RunOptions<'o>
    ensures { result ≡ said.run_options checks.now source }
{
    RunOptions {
        must_succeed: must_succeed(checks, source),
        records: record_options(checks),
    }
}

/// Adds the runs of a source with their numbers.
fn place_runs<'t, 'a>(
    checks: &'t Checks,
    source: Source,
    runs: Vec<IndexedRun<'t, 'a>>,
    all: &mut Vec<ReadRun<'t, 'a>>,
) -> Result<(), AllocError>
    requires few { length runs.items ≤ most_runs }
    requires whole { list_any has_float (map run_of runs.items) ≡ false }
    ensures { OnOk result (map placed_read all.new.items
        ≡ map placed_read all.old.items
        ++ placed_from checks.now source 0 (map run_of runs.entry.items)) }
{
    let mut number = 0;
    for run in runs {
        let read = ReadRun::new(source, number, run_options(checks, source), run);
        all.push(read)?;
        number += 1;
    }
    Ok(())
}

/// What was read so far.
#[derive(Drop)]
struct ReadSoFar<'t, 'a> {
    runs: Vec<ReadRun<'t, 'a>>,
    /// How many results the runs have.
    results: u32,
}

impl<'t, 'a> ReadSoFar<'t, 'a> {
    /// Nothing.
    fn new(alloc: Global) -> ReadSoFar<'t, 'a>
        ensures runs { result.runs.items ≡ [] }
        ensures results { result.results ≡ 0 }
    {
        ReadSoFar {
            runs: Vec::new(alloc),
            results: 0,
        }
    }

    /// Adds the runs that were read from a source.
    fn add(
        &mut self,
        checks: &'t Checks,
        source: Source,
        parsed: ReadLog<'t, 'a>,
    ) -> Result<(), MergeFault>
        requires counted { IsCounted self.old }
        requires parsed { (bytes : List ℕ) × IsParsedFrom checks.now.allow_external bytes parsed }
        ensures runs { (bytes : List ℕ) → IsParsedFrom checks.now.allow_external bytes parsed.entry
            → OnOk result (map placed_read self.new.runs.items
            ≡ map placed_read self.old.runs.items
            ++ placed_from checks.now source 0 (readable (log_of checks.now.allow_external bytes))) }
        ensures results { (bytes : List ℕ)
            → IsParsedFrom checks.now.allow_external bytes parsed.entry
            → OnOk result (self.new.results
            ≡ self.old.results
            + results_total (readable (log_of checks.now.allow_external bytes))) }
        ensures counted { OnOk result (IsCounted self.new) }
        ensures faults { (bytes : List ℕ)
            → IsParsedFrom checks.now.allow_external bytes parsed.entry
            → Answers (faults_with source (log_of checks.now.allow_external bytes)
            (length self.old.runs.items) self.old.results) result }
        ensures quiet { IsQuiet result }
    {
        read_runs_hold_no_fraction();
        let log = log_of_source(source, parsed)?;
        let results = self.results + count_results(log.as_slice());
        check_limits(source, self.runs.len() + log.len(), results)?;
        place_runs(checks, source, log, &mut self.runs)?;
        self.results = results;
        Ok(())
    }

    /// Adds the runs that were read from the sources of a kind, in order.
    fn add_all(
        &mut self,
        checks: &'t Checks,
        kind: SourceKind,
        logs: Vec<ReadLog<'t, 'a>>,
    ) -> Result<(), MergeFault>
        requires few { length logs.items ≤ most_sources }
        requires counted { IsCounted self.old }
        requires parsed { (sources : List (List ℕ))
            × AreParsedFrom checks.now.allow_external sources logs.items }
        ensures runs { (sources : List (List ℕ))
            → AreParsedFrom checks.now.allow_external sources logs.entry.items
            → OnOk result (map placed_read self.new.runs.items
            ≡ map placed_read self.old.runs.items
            ++ placed (numbered checks.now (source_of kind) 0 sources)) }
        ensures counted { OnOk result (IsCounted self.new) }
        ensures faults { (sources : List (List ℕ))
            → AreParsedFrom checks.now.allow_external sources logs.entry.items
            → Answers (source_faults (length self.old.runs.items) self.old.results
            (numbered checks.now (source_of kind) 0 sources)) result }
        ensures quiet { IsQuiet result }
    {
        let mut number = 0;
        for parsed in logs {
            self.add(checks, kind.source(number), parsed)?;
            number += 1;
        }
        Ok(())
    }
}

/// The runs of all sources: the first `logs` indexes are those of the logs, the others those of the baselines. At
/// most `threads` threads read them, including this one.
fn read_all<'t, 'a, R: Threads + Sync>(
    rt: &R,
    alloc: Global,
    checks: &'t Checks,
    indexes: &'t [Result<Index<'a>, IndexFault>],
    logs: usize,
    threads: u32,
) -> Result<AllRuns<'t, 'a>, MergeFault>
    requires threads { 1 ≤ threads }
    requires indexes { (ls : List (List ℕ)) × (bs : List (List ℕ))
        × AreIndexesOf ls bs indexes.now logs }
    ensures all { (ls bs : List (List ℕ)) → AreIndexesOf ls bs indexes.now logs
        → IfOk result (λ runs. map placed_read runs.all.items
        ≡ placed (sources_of checks.now ls bs)) }
    ensures inputs { (ls bs : List (List ℕ)) → AreIndexesOf ls bs indexes.now logs
        → IfOk result (λ runs. runs.inputs
        ≡ length (placed (numbered checks.now Source.Log 0 ls))) }
    ensures few { IfOk result (λ runs. length runs.all.items ≤ most_runs) }
    ensures few_results { IfOk result
        (λ runs. results_total (run_values (map placed_read runs.all.items)) ≤ most_results) }
    ensures faults { (ls bs : List (List ℕ)) → AreIndexesOf ls bs indexes.now logs
        → Answers (source_faults 0 0 (sources_of checks.now ls bs)) result }
    ensures quiet { IsQuiet result }
{
    let (first, second) = read_kinds(rt, alloc, indexes, logs, threads, checks.allow_external)?;
    let mut reading = ReadSoFar::new(alloc);
    reading.add_all(checks, SourceKind::Log, first)?;
    let inputs = reading.runs.len() as u32;
    reading.add_all(checks, SourceKind::Baseline, second)?;
    let ReadSoFar { runs: all, .. } = reading;
    Ok(AllRuns { all, inputs })
}

/// How runs are read and opened.
#[derive(Clone, Copy)]
pub struct Opening<'o> {
    /// What is required of runs beyond the form of a log.
    pub checks: &'o Checks,
    /// What the tables of their rules and overrides hash with; no result depends on it.
    pub seed: RandomState,
}

/// Opens the runs of the logs, which are the first `logs` of the indexes, and those of the baselines. At most
/// `threads` threads, including this one, read the runs and make their heads. A rejection is the first error of the sources in order:
/// `NotJson`, `NotLog` or `WrongVersion` of a source; `TooMany` at a source of more than `MOST_RUNS` runs, or with
/// which there are more than `MOST_RUNS` runs or `MOST_RESULTS` results; `BadRun`, `ExternalProperties` or
/// `TooMany` at a run. `OutOfMemory` has no place. An error of a run's head is not returned: it is kept with the run.
pub fn open_sources<'t, 'a, R: Threads + Sync>(
    rt: &R,
    alloc: Global,
    opening: Opening<'t>,
    indexes: &'t [Result<Index<'a>, IndexFault>],
    logs: usize,
    threads: u32,
) -> Result<Runs<'t, 'a>, MergeFault>
    requires threads { 1 ≤ threads }
    requires indexes { (ls : List (List ℕ)) × (bs : List (List ℕ))
        × AreIndexesOf ls bs indexes.now logs }
    ensures runs { (ls bs : List (List ℕ)) → AreIndexesOf ls bs indexes.now logs
        → IfOk result (AreRunsOf opening.entry.checks.now ls bs) }
    ensures faults { (ls bs : List (List ℕ)) → AreIndexesOf ls bs indexes.now logs
        → Answers (source_faults 0 0 (sources_of opening.entry.checks.now ls bs)) result }
    ensures quiet { IsQuiet result }
{
    let AllRuns { all, inputs } = read_all(rt, alloc, opening.checks, indexes, logs, threads)?;
    let mut current = open_each(rt, alloc, opening.seed, all, threads)?;
    let baseline = current.split_off(inputs as usize)?;
    Ok(Runs { current, baseline })
}
