//! The report for Azure Pipelines.
ghost use Rattle.std.specs.Prelude.{◌≡◌, ◌++◌, IfOk, OnOk, string_bytes, map};
ghost use Rattle.sarif_shown.specs.AzureReport as said;

use crate::escaping::Escaping;
use crate::listing::list_findings;
use itoa::Buffer;
use sarif_findings::Finding;
use sarif_model::{Level, Text};
use std::alloc::{AllocError, Global};

/// The type of an issue of this level.
fn issue_type(level: Level) -> &'static str
    ensures { result.now ≡ said.issue_type level }
{
    match level {
        Level::Error => "type=error;",
        Level::Warning | Level::Note | Level::NoLevel => "type=warning;",
    }
}

/// Adds a property with this name.
#[tactic(auto, unfolding(crate::specs::AzureReport::property))]
fn push_property(
    alloc: Global,
    text: &mut String,
    name: &str,
    value: &str,
) -> Result<(), AllocError>
    ensures { OnOk result (string_bytes text.new
        ≡ string_bytes text.old ++ said.property name.now value.now) }
{
    text.push_str(name)?;
    Escaping::IssueProperty.push_str(alloc, text, value)?;
    text.push_str(";")?;
    Ok(())
}

/// Adds the path, if there is one.
fn push_path(alloc: Global, text: &mut String, path: &Option<Text>) -> Result<(), AllocError>
    ensures { OnOk result
        (string_bytes text.new ≡ string_bytes text.old ++ said.source_path path.now) }
{
    if let Some(path) = path {
        push_property(alloc, text, "sourcepath=", path.as_str())?;
    }
    Ok(())
}

/// Adds a number under a name, if there is one.
fn push_number(text: &mut String, name: &str, number: Option<u32>) -> Result<(), AllocError>
    ensures { OnOk result
        (string_bytes text.new ≡ string_bytes text.old ++ said.issue_number name.now number) }
{
    if let Some(number) = number {
        let mut digits = Buffer::new();
        text.push_str(name)?;
        text.push_str(digits.format(number))?;
        text.push_str(";")?;
    }
    Ok(())
}

/// Adds the rule, if there is one.
fn push_code(alloc: Global, text: &mut String, rule: &str) -> Result<(), AllocError>
    ensures { OnOk result
        (string_bytes text.new ≡ string_bytes text.old ++ said.issue_code rule.now) }
{
    if !rule.is_empty() {
        push_property(alloc, text, "code=", rule)?;
    }
    Ok(())
}

/// Adds the properties of a result.
#[tactic(auto, unfolding(crate::specs::AzureReport::issue_properties))]
fn push_properties(alloc: Global, text: &mut String, finding: &Finding) -> Result<(), AllocError>
    ensures { OnOk result
        (string_bytes text.new ≡ string_bytes text.old ++ said.issue_properties finding.now) }
{
    text.push_str(issue_type(finding.level))?;
    push_path(alloc, text, &finding.path)?;
    push_number(text, "linenumber=", finding.line)?;
    push_number(text, "columnnumber=", finding.column)?;
    push_code(alloc, text, finding.rule.as_str())?;
    Ok(())
}

/// Adds the message and the tool of a result.
#[tactic(auto, unfolding(crate::specs::AzureReport::message_and_tool))]
fn push_message(alloc: Global, text: &mut String, finding: &Finding) -> Result<(), AllocError>
    ensures { OnOk result
        (string_bytes text.new ≡ string_bytes text.old ++ said.message_and_tool finding.now) }
{
    Escaping::IssueMessage.push_str(alloc, text, finding.message.as_str())?;
    text.push_str(" (")?;
    Escaping::IssueMessage.push_str(alloc, text, finding.tool.as_str())?;
    Ok(())
}

/// Adds the level and the state of a result.
#[tactic(auto, unfolding(crate::specs::AzureReport::level_and_state))]
fn push_level(text: &mut String, finding: &Finding) -> Result<(), AllocError>
    ensures { OnOk result
        (string_bytes text.new ≡ string_bytes text.old ++ said.level_and_state finding.now) }
{
    text.push_str(", ")?;
    text.push_str(finding.level.name())?;
    text.push_str(", ")?;
    text.push_str(finding.state.name())?;
    text.push_str(")")?;
    Ok(())
}

#[tactic(auto, unfolding(crate::specs::AzureReport::issue_begin))]
fn issue_begin() -> &'static str
    ensures { result.now ≡ said.issue_begin }
{
    "##vso[task.logissue "
}

/// Adds the line of a result.
#[tactic(auto, unfolding(crate::specs::AzureReport::azure_line))]
fn push_line(alloc: Global, text: &mut String, finding: &Finding) -> Result<(), AllocError>
    ensures { OnOk result
        (string_bytes text.new ≡ string_bytes text.old ++ said.azure_line finding.now) }
{
    text.push_str(issue_begin())?;
    push_properties(alloc, text, finding)?;
    text.push_str("]")?;
    push_message(alloc, text, finding)?;
    push_level(text, finding)?;
    text.push_str("\n")?;
    Ok(())
}

/// The lines of these results.
fn azure_lines(alloc: Global, findings: &[&Finding]) -> Result<String, AllocError>
    ensures { IfOk result
        (λ s. string_bytes s ≡ said.azure_lines_of (map (λ f. f.now) findings.now)) }
{
    let mut text = String::new(alloc);
    for finding in findings {
        push_line(alloc, &mut text, finding)?;
    }
    Ok(text)
}

/// Returns the report for Azure Pipelines, one logging command per result, those of the hits first:
/// `##vso[task.logissue type=TYPE;sourcepath=PATH;linenumber=LINE;columnnumber=COLUMN;code=RULE;]MESSAGE (TOOL, LEVEL,
/// STATE)`. Returns `AllocError` if memory for it runs out.
pub fn azure_report(alloc: Global, findings: &[Finding]) -> Result<String, AllocError>
    ensures { IfOk result (λ s. string_bytes s ≡ said.azure_of findings.now) }
{
    let listed = list_findings(alloc, findings)?;
    azure_lines(alloc, listed.as_slice())
}
