//! The findings of a whole merged log. Only tests and callers outside this program use this call: the merge makes the
//! finding of a result as it writes it.
ghost use Rattle.std.specs.Prelude.{◌≡◌, ◌++◌, Some, IfOk, OnOk, map};
ghost use Rattle.std.specs.List.{filter_map};
ghost use Rattle.serde_json.specs.View.{view};
ghost use Rattle.sarif_counts.specs.CountOf.{suppresses, items_in};
ghost use Rattle.sarif_findings.specs.Reported as said;

use crate::finding::Finding;
use crate::lookup::{elements_in, text_in};
use crate::named_run::NamedRun;
use crate::reported_results::finding_of;
use crate::reporting::Reporting;
use crate::told_result::told_of;
use sarif_counts::is_suppressing;
use sarif_model::{Level, State};
use serde_json::Value;
use std::alloc::{AllocError, Global};

/// Whether a result is suppressed that has this at `suppressions`.
#[tactic(auto, using(crate::proofs::ReportedMore::items_in_array))]
fn suppresses_by(found: &Value) -> bool
    ensures { result ≡ suppresses (items_in (Some (view found.now))) }
{
    match found.as_array() {
        Some(suppressions) => is_suppressing(suppressions.as_slice()),
        None => false,
    }
}

/// Whether a result isn't suppressed.
fn is_active(found: &Value) -> bool
    ensures { result ≡ said.is_active (view found.now) }
{
    match found.get("suppressions") {
        Some(suppressions) => !suppresses_by(suppressions),
        None => true,
    }
}

fn level_in(found: &Value) -> Option<Level>
    ensures { result ≡ said.level_in (view found.now) }
{
    Level::from_name(text_in(found, "level")?)
}

fn state_in(found: &Value) -> Option<State>
    ensures { result ≡ said.state_in (view found.now) }
{
    State::from_name(text_in(found, "baselineState")?)
}

/// The finding of a whole result of a run.
fn finding_of_whole(
    alloc: Global,
    reporting: &Reporting,
    run: &NamedRun<'_>,
    found: &Value,
    level: Level,
    state: State,
) -> Result<Finding, AllocError>
    ensures { IfOk result (λ finding. finding
        ≡ said.finding_of reporting.now (view run.now) (view found.now) level state) }
{
    let told = told_of(found);
    finding_of(alloc, reporting, run, &told, level, state)
}

/// The finding of a result of a run, if it is shown. Nothing more is read from a result that is not shown.
fn finding_if(
    alloc: Global,
    reporting: &Reporting,
    run: &NamedRun<'_>,
    found: &Value,
) -> Result<Option<Finding>, AllocError>
    ensures { IfOk result (λ o. o ≡ said.finding_if reporting.now (view run.now) (view found.now)) }
{
    let Some(level) = level_in(found) else {
        return Ok(None);
    };
    let Some(state) = state_in(found) else {
        return Ok(None);
    };
    if !reporting.shows(state, level) || !is_active(found) {
        return Ok(None);
    }
    let finding = finding_of_whole(alloc, reporting, run, found, level, state)?;
    Ok(Some(finding))
}

/// Adds the findings of the shown results among these results of a run.
fn push_told(
    alloc: Global,
    findings: &mut Vec<Finding>,
    reporting: &Reporting,
    run: &NamedRun<'_>,
    results: &[Value],
) -> Result<(), AllocError>
    ensures { OnOk result (findings.new.items ≡ findings.old.items
        ++ filter_map (said.finding_if reporting.now (view run.now)) (map view results.now)) }
{
    for found in results {
        if let Some(finding) = finding_if(alloc, reporting, run, found)? {
            findings.push(finding)?;
        }
    }
    Ok(())
}

/// Adds the findings of the shown results of a run.
fn push_reported(
    alloc: Global,
    findings: &mut Vec<Finding>,
    reporting: &Reporting,
    run: &Value,
) -> Result<(), AllocError>
    ensures { OnOk result (findings.new.items
        ≡ findings.old.items ++ said.reported_in reporting.now (view run.now)) }
{
    let named = NamedRun::new(alloc, run)?;
    push_told(
        alloc,
        findings,
        reporting,
        &named,
        elements_in(run, "results"),
    )?;
    Ok(())
}

/// Returns the findings of the shown results, in the order of this merged log: the active results whose baseline state
/// is in the policy, or only the hits among them. Such a result is a hit if its level is at least the policy's level.
/// Returns `AllocError` if memory runs out.
pub fn findings_in_log(
    alloc: Global,
    reporting: &Reporting,
    log: &Value,
) -> Result<Vec<Finding>, AllocError>
    ensures { IfOk result
        (λ findings. findings.items ≡ said.reported_of reporting.now (view log.now)) }
{
    let mut findings = Vec::new(alloc);
    for run in elements_in(log, "runs") {
        push_reported(alloc, &mut findings, reporting, run)?;
    }
    Ok(findings)
}
