//! The report that people, editors and problem matchers read.
ghost use Rattle.std.specs.Prelude.{◌≡◌, ◌++◌, IfOk, OnOk, flat_map, map, string_bytes};
ghost use Rattle.sarif_shown.specs.TextReport as said;

use crate::listing::list_findings;
use crate::place::push_place;
use sarif_findings::Finding;
use std::alloc::{AllocError, Global};

/// Adds the rule in brackets, if there is one.
pub(crate) fn push_bracketed(text: &mut String, rule: &str) -> Result<(), AllocError>
    ensures { OnOk result
        (string_bytes text.new ≡ string_bytes text.old ++ said.bracketed rule.now) }
{
    if !rule.is_empty() {
        text.push_str(" [")?;
        text.push_str(rule)?;
        text.push_str("]")?;
    }
    Ok(())
}

/// Adds the level and the message.
fn push_said(text: &mut String, finding: &Finding) -> Result<(), AllocError>
    ensures { OnOk result
        (string_bytes text.new ≡ string_bytes text.old ++ said.level_and_message finding.now) }
{
    text.push_str(": ")?;
    text.push_str(finding.level.name())?;
    text.push_str(": ")?;
    text.push_str(finding.message.as_str())?;
    Ok(())
}

/// Adds the tool and the state.
pub(crate) fn push_source(text: &mut String, finding: &Finding) -> Result<(), AllocError>
    ensures { OnOk result
        (string_bytes text.new ≡ string_bytes text.old ++ said.tool_and_state finding.now) }
{
    text.push_str(" (")?;
    text.push_str(finding.tool.as_str())?;
    text.push_str(", ")?;
    text.push_str(finding.state.name())?;
    text.push_str(")")?;
    Ok(())
}

/// Adds the line of a result, without its end. Returns `AllocError` if memory runs out.
pub fn push_result_line(text: &mut String, finding: &Finding) -> Result<(), AllocError>
    ensures { OnOk result
        (string_bytes text.new ≡ string_bytes text.old ++ said.result_line finding.now) }
{
    push_place(text, finding)?;
    push_said(text, finding)?;
    push_bracketed(text, finding.rule.as_str())?;
    push_source(text, finding)?;
    Ok(())
}

/// Adds the line of a result.
fn push_line(text: &mut String, finding: &Finding) -> Result<(), AllocError>
    ensures { OnOk result
        (string_bytes text.new ≡ string_bytes text.old ++ said.text_line finding.now) }
{
    push_result_line(text, finding)?;
    text.push_str("\n")?;
    Ok(())
}

/// Adds the lines of these results.
fn push_lines(text: &mut String, listed: &[&Finding]) -> Result<(), AllocError>
    ensures { OnOk result (string_bytes text.new
        ≡ string_bytes text.old ++ flat_map said.text_line (map (λ f. f.now) listed.now)) }
{
    for finding in listed {
        push_line(text, finding)?;
    }
    Ok(())
}

/// Returns the report for people, editors and problem matchers, one line per result, those of the hits first:
/// `PLACE: LEVEL: MESSAGE [RULE] (TOOL, STATE)`. Returns `AllocError` if memory for it runs out.
pub fn text_report(alloc: Global, findings: &[Finding]) -> Result<String, AllocError>
    ensures { IfOk result (λ s. string_bytes s ≡ said.text_lines_of findings.now) }
{
    let listed = list_findings(alloc, findings)?;
    let mut text = String::new(alloc);
    push_lines(&mut text, listed.as_slice())?;
    Ok(text)
}
