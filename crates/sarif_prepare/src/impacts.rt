//! The findings of the results that the conditions of a policy report, each with what it does to the gate.
ghost use Rattle.std.specs.Prelude.{◌≡◌, ◌+◌, ◌++◌, [], List, Option, IfOk, OnOk, length, map};
ghost use Rattle.std.specs.List.{cons_option};
ghost use Rattle.sarif_deciding.specs.Ruling.{ruling_in};
ghost use Rattle.sarif_entries.specs.File.{File};
ghost use Rattle.sarif_log.specs.LogBy.{runs_by};
ghost use Rattle.sarif_log.specs.Told.{if_asked};
ghost use Rattle.sarif_policy.specs.declared.condition.GateCondition.{GateCondition};
ghost use Rattle.sarif_prepare.specs.Asked.{reporting_in};
ghost use Rattle.sarif_prepare.specs.Internal.Impacts as said;
ghost use Rattle.sarif_prepare.specs.Internal.Together.{AreTogether, IsPaired};
ghost use Rattle.sarif_prepare.specs.Ruled.{matched_in};
ghost use Rattle.sarif_prepare.specs.Told as told;
ghost use Rattle.sarif_runs.specs.Placed.{Placed};
ghost use Rattle.sarif_scope.specs.declared.gated.GatedChange.{GatedChange};

use crate::asked::Asked;
use crate::left::absent_states;
use crate::marking::copy_of_texts;
use crate::pairing::Sides;
use crate::telling::{tell_current, tell_left};
use sarif_counts::Impact;
use sarif_findings::{Finding, Reporting, Show};
use sarif_log::mask_states;
use sarif_model::Level;
use sarif_options::{Options, Policy, States};
use std::alloc::{AllocError, Global};
use std::thread::Threads;

/// The policy by which each active result is a hit.
pub(crate) fn any_policy() -> Policy
    ensures { result ≡ told.any_policy }
{
    Policy {
        fail_on: Level::NoLevel,
        states: States {
            absent: true,
            fresh: true,
            unchanged: true,
            updated: true,
        },
        max: 0,
    }
}

/// The reports with the same roots that show each active result.
pub(crate) fn report_of_all(alloc: Global, reporting: &Reporting) -> Result<Reporting, AllocError>
    ensures { IfOk result (λ all. all ≡ told.of_all reporting.now) }
{
    Ok(Reporting {
        policy: any_policy(),
        show: Show::All,
        roots: copy_of_texts(alloc, reporting.roots.as_slice())?,
    })
}

/// Returns what a reported result does to the gate, if it is shown.
fn shown_by(show: Show, impact: Option<Impact>) -> Option<Impact>
    ensures { result ≡ told.shown_by show impact }
{
    match impact {
        Some(impact) => {
            if show.has(impact.is_hit()) {
                Some(impact)
            } else {
                None
            }
        }
        None => None,
    }
}

/// Returns, for each result, what its finding says it does to the gate, or `None` if it isn't shown.
fn list_shown(
    alloc: Global,
    show: Show,
    impacts: &[Option<Impact>],
) -> Result<Vec<Option<Impact>>, AllocError>
    ensures { IfOk result (λ shown. shown.items ≡ map (told.shown_by show) impacts.now) }
{
    let mut shown = Vec::with_capacity(alloc, impacts.len())?;
    for impact in impacts {
        shown.push(shown_by(show, *impact))?;
    }
    Ok(shown)
}

/// Marks the results that aren't shown.
fn mark_hidden(alloc: Global, shown: &[Option<Impact>]) -> Result<Vec<bool>, AllocError>
    ensures { IfOk result (λ hidden. hidden.items ≡ map said.is_hidden shown.now) }
{
    let mut hidden = Vec::with_capacity(alloc, shown.len())?;
    for impact in shown {
        hidden.push(impact.is_none())?;
    }
    Ok(hidden)
}

/// Adds what a result does to the gate, if it is shown.
fn push_shown(list: &mut Vec<Impact>, impact: Option<Impact>) -> Result<(), AllocError>
    ensures { OnOk result (list.new.items ≡ list.old.items ++ cons_option impact []) }
{
    if let Some(impact) = impact {
        list.push(impact)?;
    }
    Ok(())
}

/// What the results that are shown do to the gate.
fn list_impacts(alloc: Global, shown: &[Option<Impact>]) -> Result<Vec<Impact>, AllocError>
    ensures { IfOk result (λ list. list.items ≡ said.all_shown shown.now) }
{
    let mut list = Vec::new(alloc);
    for impact in shown {
        push_shown(&mut list, *impact)?;
    }
    Ok(list)
}

/// The finding, with what it does to the gate.
fn put_impact(finding: Finding, impact: Impact) -> Finding
    ensures { result ≡ said.put_impact finding impact }
{
    let mut finding = finding;
    finding.impact = impact;
    finding
}

/// The findings, each with what it does to the gate.
fn put_impacts(
    alloc: Global,
    findings: Vec<Finding>,
    impacts: Vec<Impact>,
) -> Result<Vec<Finding>, AllocError>
    ensures { IfOk result (λ put. put.items ≡ said.put_impacts findings.items impacts.items) }
{
    let mut put = Vec::with_capacity(alloc, findings.len())?;
    let mut impacts = impacts.into_iter();
    for finding in findings {
        match impacts.next() {
            Some(impact) => put.push(put_impact(finding, impact))?,
            None => put.push(finding)?,
        }
    }
    Ok(put)
}

/// Returns the findings of the results of logs that are shown.
fn tell_here<R: Threads + Sync>(
    rt: &R,
    alloc: Global,
    all: &Asked<'_>,
    sides: &Sides<'_, '_, '_>,
    shown: &[Option<Impact>],
) -> Result<Vec<Finding>, AllocError>
    requires together { (file : File) × (current_runs : List Placed)
        × (baseline_runs : List Placed) × AreTogether file current_runs baseline_runs
        sides.now.current.now sides.now.baselines.now }
    requires paired { IsPaired all.now.options.now.checks.matching
        sides.now.current.now sides.now.baselines.now sides.now.paired.now }
    requires each { length shown.now ≡ length sides.now.current.now.drafts.items }
    ensures { IfOk result (λ findings. findings.items ≡ said.put_impacts
        (if_asked (reporting_in all.now) (said.told_here sides.now shown.now))
        (said.all_shown shown.now)) }
{
    let hidden = mark_hidden(alloc, shown)?;
    let states = mask_states(alloc, &sides.paired.states, &hidden)?;
    let findings = tell_current(rt, alloc, all, sides.current, &states)?;
    let impacts = list_impacts(alloc, shown)?;
    let put = put_impacts(alloc, findings, impacts)?;
    Ok(put)
}

/// Returns the findings of the results that are left of baselines and are shown.
fn tell_there<R: Threads + Sync>(
    rt: &R,
    alloc: Global,
    all: &Asked<'_>,
    sides: &Sides<'_, '_, '_>,
    shown: &[Option<Impact>],
) -> Result<Vec<Finding>, AllocError>
    requires together { (file : File) × (current_runs : List Placed)
        × (baseline_runs : List Placed) × AreTogether file current_runs baseline_runs
        sides.now.current.now sides.now.baselines.now }
    requires paired { IsPaired all.now.options.now.checks.matching
        sides.now.current.now sides.now.baselines.now sides.now.paired.now }
    requires each { length shown.now ≡ length sides.now.paired.now.left.items }
    ensures { IfOk result (λ findings. findings.items ≡ said.put_impacts
        (if_asked (reporting_in all.now) (said.told_there sides.now shown.now))
        (said.all_shown shown.now)) }
{
    let hidden = mark_hidden(alloc, shown)?;
    let absent = absent_states(alloc, &sides.paired.left)?;
    let states = mask_states(alloc, &absent, &hidden)?;
    let findings = tell_left(rt, alloc, all, sides.baselines, sides.paired, &states)?;
    let impacts = list_impacts(alloc, shown)?;
    let put = put_impacts(alloc, findings, impacts)?;
    Ok(put)
}

/// Returns the findings of the results that are shown, in a report of all.
fn tell_parts<'o, R: Threads + Sync>(
    rt: &R,
    alloc: Global,
    options: &'o Options,
    all: &'o Reporting,
    sides: &Sides<'_, '_, '_>,
    shown: &[Option<Impact>],
) -> Result<Vec<Finding>, AllocError>
    requires together { (file : File) × (current_runs : List Placed)
        × (baseline_runs : List Placed) × AreTogether file current_runs baseline_runs
        sides.now.current.now sides.now.baselines.now }
    requires paired { IsPaired options.now.checks.matching
        sides.now.current.now sides.now.baselines.now sides.now.paired.now }
    requires each { length shown.now ≡ length sides.now.current.now.drafts.items
        + length sides.now.paired.now.left.items }
    ensures { IfOk result
        (λ findings. findings.items ≡ said.told_parts sides.now shown.now all.now) }
{
    let whole = Asked {
        options,
        reporting: Some(all),
        upkeep: None,
        choice: None,
    };
    let (here, there) = shown.split_at(sides.current.drafts.len());
    let mut findings = tell_here(rt, alloc, &whole, sides, here)?;
    let mut absent = tell_there(rt, alloc, &whole, sides, there)?;
    findings.append(&mut absent)?;
    Ok(findings)
}

/// Returns the findings of the results that conditions report and that these reports show. `impacts` is what each result
/// does to the gate, those of logs first.
fn tell_shown<R: Threads + Sync>(
    rt: &R,
    alloc: Global,
    options: &Options,
    reporting: &Reporting,
    sides: &Sides<'_, '_, '_>,
    impacts: &[Option<Impact>],
) -> Result<Vec<Finding>, AllocError>
    requires together { (file : File) × (current_runs : List Placed)
        × (baseline_runs : List Placed) × AreTogether file current_runs baseline_runs
        sides.now.current.now sides.now.baselines.now }
    requires paired { IsPaired options.now.checks.matching
        sides.now.current.now sides.now.baselines.now sides.now.paired.now }
    requires each { length impacts.now ≡ length sides.now.current.now.drafts.items
        + length sides.now.paired.now.left.items }
    ensures { IfOk result (λ findings. (file : File) (current_runs baseline_runs : List Placed)
        → AreTogether file current_runs baseline_runs
        sides.now.current.now sides.now.baselines.now
        → (change : Option GatedChange) (cs : List GateCondition)
        → impacts.now ≡ (ruling_in cs (matched_in options.now.checks.matching file
        change current_runs baseline_runs)).impacts
        → findings.items ≡ told.told_ruled cs (matched_in options.now.checks.matching file change
        current_runs baseline_runs) reporting.now
        (runs_by options.now.checks.matching file current_runs baseline_runs)) }
{
    let all = report_of_all(alloc, reporting)?;
    let shown = list_shown(alloc, reporting.show, impacts)?;
    let findings = tell_parts(rt, alloc, options, &all, sides, &shown)?;
    Ok(findings)
}

/// Returns them if reports are requested.
pub(crate) fn tell_ruled<R: Threads + Sync>(
    rt: &R,
    alloc: Global,
    asked: &Asked<'_>,
    sides: &Sides<'_, '_, '_>,
    impacts: &[Option<Impact>],
) -> Result<Vec<Finding>, AllocError>
    requires together { (file : File) × (current_runs : List Placed)
        × (baseline_runs : List Placed) × AreTogether file current_runs baseline_runs
        sides.now.current.now sides.now.baselines.now }
    requires paired { IsPaired asked.now.options.now.checks.matching
        sides.now.current.now sides.now.baselines.now sides.now.paired.now }
    requires each { length impacts.now ≡ length sides.now.current.now.drafts.items
        + length sides.now.paired.now.left.items }
    ensures { IfOk result (λ findings. (file : File) (current_runs baseline_runs : List Placed)
        → AreTogether file current_runs baseline_runs
        sides.now.current.now sides.now.baselines.now
        → (change : Option GatedChange) (cs : List GateCondition)
        → impacts.now ≡ (ruling_in cs (matched_in asked.now.options.now.checks.matching file
        change current_runs baseline_runs)).impacts
        → findings.items ≡ if_asked (reporting_in asked.now) (λ reporting.
        told.told_ruled cs (matched_in asked.now.options.now.checks.matching file change
        current_runs baseline_runs) reporting
        (runs_by asked.now.options.now.checks.matching file current_runs baseline_runs))) }
{
    match asked.reporting {
        Some(reporting) => tell_shown(rt, alloc, asked.options, reporting, sides, impacts),
        None => Ok(Vec::new(alloc)),
    }
}
