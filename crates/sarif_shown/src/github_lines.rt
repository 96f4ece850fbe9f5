//! The report for GitHub Actions.
ghost use Rattle.std.specs.Prelude.{◌≡◌, ◌++◌, IfOk, OnOk, flat_map, map, string_bytes};
ghost use Rattle.sarif_shown.specs.GithubReport as said;

use crate::escaping::Escaping;
use crate::listing::list_findings;
use itoa::Buffer;
use sarif_findings::Finding;
use sarif_model::{Level, Text};
use std::alloc::{AllocError, Global};

/// The workflow command of a level, with the text around it.
fn command(level: Level) -> &'static str
    ensures { result.now ≡ said.command_of level }
{
    match level {
        Level::Error => "::error ",
        Level::Warning => "::warning ",
        Level::Note | Level::NoLevel => "::notice ",
    }
}

/// Adds the path, if there is one.
fn push_file(alloc: Global, text: &mut String, path: &Option<Text>) -> Result<(), AllocError>
    ensures { OnOk result
        (string_bytes text.new ≡ string_bytes text.old ++ said.file_property path.now) }
{
    if let Some(path) = path {
        text.push_str("file=")?;
        Escaping::Property.push_str(alloc, text, path.as_str())?;
        text.push_str(",")?;
    }
    Ok(())
}

/// Adds a number under a name, if there is one.
fn push_number(text: &mut String, name: &str, number: Option<u32>) -> Result<(), AllocError>
    ensures { OnOk result (string_bytes text.new
        ≡ string_bytes text.old ++ said.number_property name.now number) }
{
    if let Some(number) = number {
        let mut digits = Buffer::new();
        text.push_str(name)?;
        text.push_str(digits.format(number))?;
        text.push_str(",")?;
    }
    Ok(())
}

/// Adds the rule and the tool.
fn push_title(alloc: Global, text: &mut String, rule: &str, tool: &str) -> Result<(), AllocError>
    ensures { OnOk result
        (string_bytes text.new ≡ string_bytes text.old ++ said.title rule.now tool.now) }
{
    if rule.is_empty() {
        Escaping::Property.push_str(alloc, text, tool)?;
        return Ok(());
    }
    Escaping::Property.push_str(alloc, text, rule)?;
    text.push_str(" (")?;
    Escaping::Property.push_str(alloc, text, tool)?;
    text.push_str(")")?;
    Ok(())
}

/// Adds the properties with the place of the result.
fn push_position(alloc: Global, text: &mut String, finding: &Finding) -> Result<(), AllocError>
    ensures { OnOk result
        (string_bytes text.new ≡ string_bytes text.old ++ said.position_of finding.now) }
{
    push_file(alloc, text, &finding.path)?;
    push_number(text, "line=", finding.line)?;
    push_number(text, "col=", finding.column)?;
    Ok(())
}

/// Adds the title and the message, and ends the line.
fn push_said(alloc: Global, text: &mut String, finding: &Finding) -> Result<(), AllocError>
    ensures { OnOk result
        (string_bytes text.new ≡ string_bytes text.old ++ said.title_and_message finding.now) }
{
    text.push_str("title=")?;
    push_title(alloc, text, finding.rule.as_str(), finding.tool.as_str())?;
    text.push_str("::")?;
    Escaping::Message.push_str(alloc, text, finding.message.as_str())?;
    text.push_str("\n")?;
    Ok(())
}

/// Adds the line of a result.
fn push_line(alloc: Global, text: &mut String, finding: &Finding) -> Result<(), AllocError>
    ensures { OnOk result
        (string_bytes text.new ≡ string_bytes text.old ++ said.github_line finding.now) }
{
    text.push_str(command(finding.level))?;
    push_position(alloc, text, finding)?;
    push_said(alloc, text, finding)?;
    Ok(())
}

/// Adds the commands of these results.
fn push_lines(alloc: Global, text: &mut String, listed: &[&Finding]) -> Result<(), AllocError>
    ensures { OnOk result (string_bytes text.new
        ≡ string_bytes text.old ++ flat_map said.github_line (map (λ f. f.now) listed.now)) }
{
    for finding in listed {
        push_line(alloc, text, finding)?;
    }
    Ok(())
}

/// Returns the report for GitHub Actions: one workflow command per result, those of the hits first. Returns
/// `AllocError` if memory for it runs out.
pub fn github_report(alloc: Global, findings: &[Finding]) -> Result<String, AllocError>
    ensures { IfOk result (λ s. string_bytes s ≡ said.github_of findings.now) }
{
    let listed = list_findings(alloc, findings)?;
    let mut text = String::new(alloc);
    push_lines(alloc, &mut text, listed.as_slice())?;
    Ok(text)
}
