//! A test case of the report in JUnit XML.
ghost use Rattle.std.specs.Prelude.{◌≡◌, ◌++◌, OnOk, string_bytes};
ghost use Rattle.sarif_reports.specs.JunitReport as said;

use crate::junit_parts::{failure_end, push_attribute, skipped_end};
use sarif_findings::Finding;
use sarif_model::Text;
use sarif_shown::{Stopping, push_result_line};
use std::alloc::{AllocError, Global};

/// Adds the path, if there is one.
fn push_file(alloc: Global, text: &mut String, path: &Option<Text>) -> Result<(), AllocError>
    ensures { OnOk result
        (string_bytes text.new ≡ string_bytes text.old ++ said.file_attribute path.now) }
{
    if let Some(path) = path {
        push_attribute(alloc, text, " file=\"", path.as_str())?;
        text.push_str("\"")?;
    }
    Ok(())
}

/// Adds the line, if there is one.
fn push_line(alloc: Global, text: &mut String, line: Option<u32>) -> Result<(), AllocError>
    ensures { OnOk result
        (string_bytes text.new ≡ string_bytes text.old ++ said.line_attribute line) }
{
    if let Some(line) = line {
        let written = format!(in alloc; " line=\"{line}\"")?;
        text.push_str(written.as_str())?;
    }
    Ok(())
}

/// The path, or the tool if there is no path.
fn class_of(finding: &Finding) -> &str
    ensures { result.now ≡ said.class_of finding.now }
{
    match &finding.path {
        Some(path) => path.as_str(),
        None => finding.tool.as_str(),
    }
}

/// Adds the beginning of a test case, with its attributes.
#[tactic(auto, unfolding(crate::specs::JunitReport::case_begin))]
fn push_begin(
    alloc: Global,
    text: &mut String,
    name: &str,
    finding: &Finding,
) -> Result<(), AllocError>
    ensures { OnOk result
        (string_bytes text.new ≡ string_bytes text.old ++ said.case_begin name.now finding.now) }
{
    push_attribute(alloc, text, "<testcase name=\"", name)?;
    push_attribute(alloc, text, "\" classname=\"", class_of(finding))?;
    text.push_str("\"")?;
    push_file(alloc, text, &finding.path)?;
    push_line(alloc, text, finding.line)?;
    Ok(())
}

/// Adds the line of the text report, after the tag that it follows.
#[tactic(auto, unfolding(crate::specs::JunitReport::shown_line))]
fn push_shown_line(alloc: Global, text: &mut String, finding: &Finding) -> Result<(), AllocError>
    ensures { OnOk result (string_bytes text.new
        ≡ string_bytes text.old ++ said.shown_line finding.now) }
{
    let mut line = String::new(alloc);
    push_result_line(&mut line, finding)?;
    push_attribute(alloc, text, "\">", line.as_str())?;
    Ok(())
}

/// Adds the end of the test case of a hit that stops the change.
#[tactic(auto, unfolding(crate::specs::JunitReport::failure))]
fn push_failure(alloc: Global, text: &mut String, finding: &Finding) -> Result<(), AllocError>
    ensures { OnOk result
        (string_bytes text.new ≡ string_bytes text.old ++ said.failure finding.now) }
{
    push_attribute(alloc, text, "><failure type=\"", finding.level.name())?;
    push_attribute(alloc, text, "\" message=\"", finding.message.as_str())?;
    push_shown_line(alloc, text, finding)?;
    text.push_str(failure_end())?;
    Ok(())
}

/// Adds the end of the test case of another hit.
#[tactic(auto, unfolding(crate::specs::JunitReport::skipped))]
fn push_skipped(alloc: Global, text: &mut String, finding: &Finding) -> Result<(), AllocError>
    ensures { OnOk result
        (string_bytes text.new ≡ string_bytes text.old ++ said.skipped finding.now) }
{
    push_attribute(
        alloc,
        text,
        "><skipped message=\"",
        finding.message.as_str(),
    )?;
    text.push_str(skipped_end())?;
    Ok(())
}

/// Adds the end of a test case.
fn push_end(
    alloc: Global,
    text: &mut String,
    stopping: Stopping,
    finding: &Finding,
) -> Result<(), AllocError>
    ensures { OnOk result
        (string_bytes text.new ≡ string_bytes text.old ++ said.case_end stopping finding.now) }
{
    if stopping.stops(finding.impact) {
        return push_failure(alloc, text, finding);
    }
    if finding.impact.is_hit() {
        return push_skipped(alloc, text, finding);
    }
    text.push_str("/>\n")?;
    Ok(())
}

/// Adds the test case of a result.
pub(crate) fn push_case(
    alloc: Global,
    text: &mut String,
    stopping: Stopping,
    name: &str,
    finding: &Finding,
) -> Result<(), AllocError>
    ensures { OnOk result (string_bytes text.new
        ≡ string_bytes text.old ++ said.test_case stopping name.now finding.now) }
{
    push_begin(alloc, text, name, finding)?;
    push_end(alloc, text, stopping, finding)?;
    Ok(())
}
