//! Reading a log by its index: the form of the log and of its runs, without making a result.
ghost use Rattle.std.specs.Prelude.{◌≡◌, ◌≤◌, ◌+◌, Ok, Err, None, Some, codes, map, length};
ghost use Rattle.std.specs.Prelude.{IfOk, IfErr, OnOk};
ghost use Rattle.serde_json.specs.Find.{get};
ghost use Rattle.json_parts.specs.Indexed.{data_of};
ghost use Rattle.json_parts.specs.Internal.Ordered.{IsOrdered};
ghost use Rattle.sarif_model.specs.Run.{results_of, results_total};
ghost use Rattle.sarif_read.specs.Reading as said;
ghost use Rattle.sarif_model.specs.Run as said2;
ghost use Rattle.sarif_read.specs.Internal.Listed.{value_at, nodes_of, listed_member, AreOrdered};
ghost use Rattle.sarif_read.specs.Internal.Indexed.{run_of};
ghost use Rattle.sarif_read.specs.Internal.ReadRefusal.{refusal_at};
ghost use Rattle.sarif_model.specs.Internal.Refusal.{IfFault};
ghost use Rattle.sarif_model.specs.Limits.{most_results, most_runs};

use crate::indexed_run::IndexedRun;
use crate::listed::Listed;
use crate::nodes::{are_all_objects, elements_of, is_null, kept_member, text_of};
use crate::read_fault::{ReadFault, refused_whole};
use crate::reading::{check_external, check_tool};
use json_parts::{Index, Node};
use sarif_model::{Fault, MOST_RESULTS, MOST_RUNS, Refusal};
use std::alloc::Global;

/// The value at `results` of a run: an array of objects, null or missing, otherwise `BadRun`.
#[tactic(auto, using(crate::proofs::ListResults::list_steps))]
fn list_results<'t, 'a>(alloc: Global, run: &Node<'t, 'a>) -> Result<Listed<'t, 'a>, Refusal<Fault>>
    requires { IsOrdered (data_of run.now) }
    ensures ok { IfOk result (λ listed.
        listed_member listed ≡ get (codes "results") (value_at run.now)) }
    ensures checked { OnOk result (said.check_results (value_at run.now) ≡ Ok tt) }
    ensures err { IfFault result (λ fault. said.check_results (value_at run.now) ≡ Err fault) }
{
    let Some(found) = kept_member(run, "results") else {
        return Ok(Listed::Missing);
    };
    if is_null(&found) {
        return Ok(Listed::Null);
    }
    let Some(nodes) = elements_of(alloc, &found)? else {
        return Err(Refusal::Fault(Fault::BadRun));
    };
    if are_all_objects(nodes.as_slice()) {
        Ok(Listed::Array(nodes))
    } else {
        Err(Refusal::Fault(Fault::BadRun))
    }
}

/// The form of one run, after `before` results in the runs before it.
#[tactic(auto, using(crate::proofs::IndexRun::run_steps), unfolding(crate::specs::Reading::check_run))]
fn index_run<'t, 'a>(
    alloc: Global,
    before: usize,
    run: &Node<'t, 'a>,
    allow_external: bool,
) -> Result<IndexedRun<'t, 'a>, Refusal<Fault>>
    requires few { before ≤ most_results }
    requires ordered { IsOrdered (data_of run.now) }
    ensures ok { IfOk result (λ made. run_of made ≡ value_at run.now) }
    ensures checked { OnOk result (said.check_run allow_external before (value_at run.now)
        ≡ Ok (before + length (results_of (value_at run.now)))) }
    ensures few { OnOk result (before + length (results_of (value_at run.now)) ≤ most_results) }
    ensures err { IfFault result (λ fault. said.check_run allow_external before (value_at run.now)
        ≡ Err fault) }
{
    let bare = run.to_value_without(alloc, "results")?;
    check_tool(&bare)?;
    check_external(allow_external, &bare)?;
    let results = list_results(alloc, run)?;
    if results.len() > MOST_RESULTS - before {
        return Err(Refusal::Fault(Fault::TooMany));
    }
    Ok(IndexedRun::new(bare, results))
}

/// Returns the error of run `number`; `OutOfMemory` names no run.
fn refused_at(number: u32, refusal: Refusal<Fault>) -> Refusal<ReadFault>
    ensures { result ≡ refusal_at number refusal }
{
    match refusal {
        Refusal::Fault(fault) => Refusal::Fault(ReadFault {
            run: Some(number),
            fault,
        }),
        Refusal::OutOfMemory => Refusal::OutOfMemory,
    }
}

/// The runs, if each has the form of a run, with at most `MOST_RESULTS` results in all.
fn index_each<'t, 'a>(
    alloc: Global,
    nodes: &[Node<'t, 'a>],
    allow_external: bool,
) -> Result<Vec<IndexedRun<'t, 'a>>, Refusal<ReadFault>>
    requires few { length nodes.now ≤ most_runs }
    requires ordered { AreOrdered nodes.now }
    ensures ok { IfOk result (λ runs. map run_of runs.items ≡ map value_at nodes.now) }
    ensures checked { OnOk result (said.check_each allow_external 0 0 (map value_at nodes.now)
        ≡ Ok tt) }
    ensures few { IfOk result (λ runs. results_total (map run_of runs.items) ≤ most_results) }
    ensures err { IfFault result (λ e. said.check_each allow_external 0 0 (map value_at nodes.now)
        ≡ Err e) }
{
    let mut runs = Vec::with_capacity(alloc, nodes.len())?;
    let mut number: u32 = 0;
    let mut before = 0;
    for node in nodes {
        let run = match index_run(alloc, before, node, allow_external) {
            Ok(run) => run,
            Err(refusal) => return Err(refused_at(number, refusal)),
        };
        before += run.len() as usize;
        runs.push(run)?;
        number += 1;
    }
    Ok(runs)
}

/// The nodes of the runs of an object whose `runs` is an array or null; otherwise `NotLog`.
#[tactic(auto, using(crate::proofs::ListRuns::list_steps))]
fn list_runs<'t, 'a>(alloc: Global, log: &Node<'t, 'a>) -> Result<Vec<Node<'t, 'a>>, Refusal<Fault>>
    requires { IsOrdered (data_of log.now) }
    ensures ok { IfOk result
        (λ nodes. map value_at nodes.items ≡ said2.runs_of (value_at log.now)) }
    ensures ordered { IfOk result (λ nodes. AreOrdered nodes.items) }
    ensures checked { OnOk result (said.check_runs (value_at log.now) ≡ Ok tt) }
    ensures err { IfFault result (λ fault. said.check_runs (value_at log.now) ≡ Err fault) }
{
    let Some(found) = kept_member(log, "runs") else {
        return Err(Refusal::Fault(Fault::NotLog));
    };
    if is_null(&found) {
        return Ok(Vec::new(alloc));
    }
    elements_of(alloc, &found)?.ok_or(Refusal::Fault(Fault::NotLog))
}

/// The `version` is the string `2.1.0`; otherwise `WrongVersion`.
fn check_version(log: &Node<'_, '_>) -> Result<(), Fault>
    requires { IsOrdered (data_of log.now) }
    ensures { result ≡ said.check_version (value_at log.now) }
{
    let Some(version) = kept_member(log, "version") else {
        return Err(Fault::WrongVersion);
    };
    match text_of(&version) {
        Some("2.1.0") => Ok(()),
        _ => Err(Fault::WrongVersion),
    }
}

/// The places of the runs of a log whose own form is right.
#[tactic(auto, using(crate::proofs::ListRuns::count_runs), unfolding(crate::specs::Reading::check_log))]
fn checked_runs<'t, 'a>(
    alloc: Global,
    log: &Node<'t, 'a>,
) -> Result<Vec<Node<'t, 'a>>, Refusal<Fault>>
    requires { IsOrdered (data_of log.now) }
    ensures ok { IfOk result
        (λ nodes. map value_at nodes.items ≡ said2.runs_of (value_at log.now)) }
    ensures ordered { IfOk result (λ nodes. AreOrdered nodes.items) }
    ensures few { IfOk result (λ nodes. length nodes.items ≤ most_runs) }
    ensures checked { OnOk result (said.check_log (value_at log.now) ≡ Ok tt) }
    ensures err { IfFault result (λ fault. said.check_log (value_at log.now) ≡ Err fault) }
{
    let nodes = list_runs(alloc, log)?;
    check_version(log)?;
    if nodes.len() > MOST_RUNS {
        return Err(Refusal::Fault(Fault::TooMany));
    }
    Ok(nodes)
}

/// The runs of an indexed log (SARIF 2.1.0, "sarifLog object"). Each of them is stripped and has the form of a run.
/// For their results, allocates only the list of their places. With `allow_external` a run may name external
/// property files, if none of them holds artifacts, tool components, invocations or results: these are the parts of
/// a run that are read (SARIF 2.1.0, "externalPropertyFileReferences property").
///
/// Returns the first error of the log:
/// `NotLog`, `WrongVersion` or `TooMany` without a run, `BadRun`, `ExternalProperties` or `TooMany`
/// with the run's number, counted from 0.
#[tactic(auto, unfolding(crate::specs::Reading::log_of_value))]
pub fn index_log<'t, 'a>(
    alloc: Global,
    index: &'t Index<'a>,
    allow_external: bool,
) -> Result<Vec<IndexedRun<'t, 'a>>, Refusal<ReadFault>>
    ensures ok { IfOk result (λ runs.
        said.log_of_value allow_external (value_at index.now) ≡ Ok (map run_of runs.items)) }
    ensures few { IfOk result (λ runs. results_total (map run_of runs.items) ≤ most_results) }
    ensures few_runs { IfOk result (λ runs. length runs.items ≤ most_runs) }
    ensures err { IfFault result (λ e. said.log_of_value allow_external (value_at index.now)
        ≡ Err e) }
{
    let log = index.root();
    let nodes = checked_runs(alloc, &log).map_err(refused_whole)?;
    index_each(alloc, nodes.as_slice(), allow_external)
}
