//! The reported results in the order of reports: first what stops the change, then the other hits, and of each the worst
//! level first.
ghost use Rattle.std.specs.Prelude.{◌≡◌, ◌++◌, map, IfOk, OnOk};
ghost use Rattle.sarif_shown.specs.Listed as said;

use sarif_counts::Impact;
use sarif_findings::Finding;
use sarif_model::Level;
use std::alloc::{AllocError, Global};

/// Returns whether a finding does this to the gate.
fn does(finding: &Finding, impact: Impact) -> bool
    ensures { result ≡ said.does impact finding.now }
{
    match impact {
        Impact::Stops => matches!(finding.impact, Impact::Stops),
        Impact::Hit => matches!(finding.impact, Impact::Hit),
        Impact::None => matches!(finding.impact, Impact::None),
    }
}

/// Adds the findings of this level that do this to the gate, in their order.
fn push_level<'f>(
    listed: &mut Vec<&'f Finding>,
    findings: &'f [Finding],
    impact: Impact,
    level: Level,
) -> Result<(), AllocError>
    ensures { OnOk result (map (λ f. f.now) listed.new.items
        ≡ map (λ f. f.now) listed.old.items
        ++ said.of_level level (said.doing impact findings.now)) }
{
    for finding in findings {
        if does(finding, impact) && finding.level == level {
            listed.push(finding)?;
        }
    }
    Ok(())
}

/// Adds the findings that do this to the gate, the worst level first.
#[tactic(auto, unfolding(crate::specs::Listed::by_level))]
fn push_levels<'f>(
    listed: &mut Vec<&'f Finding>,
    findings: &'f [Finding],
    impact: Impact,
) -> Result<(), AllocError>
    ensures { OnOk result (map (λ f. f.now) listed.new.items
        ≡ map (λ f. f.now) listed.old.items
        ++ said.by_level (said.doing impact findings.now)) }
{
    push_level(listed, findings, impact, Level::Error)?;
    push_level(listed, findings, impact, Level::Warning)?;
    push_level(listed, findings, impact, Level::Note)?;
    push_level(listed, findings, impact, Level::NoLevel)?;
    Ok(())
}

/// Adds the hits among these findings: those that stop the change, then the others, of each the worst level first, and
/// within a level in their order. Returns `AllocError` if memory for the list runs out.
pub fn push_hits<'f>(
    listed: &mut Vec<&'f Finding>,
    findings: &'f [Finding],
) -> Result<(), AllocError>
    ensures { OnOk result (map (λ f. f.now) listed.new.items
        ≡ map (λ f. f.now) listed.old.items ++ said.hits_among findings.now) }
{
    push_levels(listed, findings, Impact::Stops)?;
    push_levels(listed, findings, Impact::Hit)?;
    Ok(())
}

/// Adds the other findings among these, the worst level first, and within a level in their order. Returns `AllocError`
/// if memory for the list runs out.
pub fn push_others<'f>(
    listed: &mut Vec<&'f Finding>,
    findings: &'f [Finding],
) -> Result<(), AllocError>
    ensures { OnOk result (map (λ f. f.now) listed.new.items
        ≡ map (λ f. f.now) listed.old.items ++ said.others_among findings.now) }
{
    push_levels(listed, findings, Impact::None)
}

/// Returns the findings in the order in which reports list them: the hits that stop the change, then the other hits, then
/// the others, the worst level of each first, and within a level in the order of the merged log. Returns `AllocError` if memory for their list runs out.
pub fn list_findings<'f>(
    alloc: Global,
    findings: &'f [Finding],
) -> Result<Vec<&'f Finding>, AllocError>
    ensures { IfOk result
        (λ listed. map (λ f. f.now) listed.items ≡ said.listed findings.now) }
{
    let mut listed = Vec::with_capacity(alloc, findings.len())?;
    push_hits(&mut listed, findings)?;
    push_others(&mut listed, findings)?;
    Ok(listed)
}
