//! The object of a result in the report for GitLab.
ghost use Rattle.std.specs.Prelude.{◌≡◌, ◌++◌, string_bytes, OnOk};
ghost use Rattle.serde_json.specs.Written.{compact_text};
ghost use Rattle.sarif_reports.specs.GitlabReport as said;
ghost use Rattle.sarif_reports.specs.GitlabParts.{quoted_text, rule_text, location_text, severity_text};

use crate::quoted::push_quoted;
use itoa::Buffer;
use sarif_findings::Finding;
use sarif_model::Level;
use std::alloc::{AllocError, Global};

/// Adds a member's text: the text before its value, and the value.
fn push_member(
    alloc: Global,
    text: &mut String,
    before: &str,
    value: &str,
) -> Result<(), AllocError>
    ensures { OnOk result (string_bytes text.new
        ≡ string_bytes text.old ++ (before.now ++ quoted_text value.now)) }
{
    text.push_str(before)?;
    push_quoted(alloc, text, value)?;
    Ok(())
}

fn severity(level: Level) -> &'static str
    ensures { result.now ≡ said.severity level }
{
    match level {
        Level::Error => "critical",
        Level::Warning => "major",
        Level::Note => "minor",
        Level::NoLevel => "info",
    }
}

/// The rule, or `unknown` without one.
#[tactic(auto, unfolding(crate::specs::GitlabReport::or_unknown))]
fn or_unknown(rule: &str) -> &str
    ensures { result.now ≡ said.or_unknown rule.now }
{
    if rule.is_empty() { "unknown" } else { rule }
}

/// Adds the rule and the message.
#[tactic(auto, unfolding(crate::specs::GitlabParts::rule_text))]
fn push_rule(alloc: Global, text: &mut String, finding: &Finding) -> Result<(), AllocError>
    ensures { OnOk result
        (string_bytes text.new ≡ string_bytes text.old ++ rule_text finding.now) }
{
    let rule = or_unknown(finding.rule.as_str());
    push_member(alloc, text, "{\"check_name\":", rule)?;
    push_member(alloc, text, ",\"description\":", finding.message.as_str())?;
    Ok(())
}

/// Adds the line and the path.
#[tactic(auto, unfolding(crate::specs::GitlabParts::location_text))]
fn push_location(alloc: Global, text: &mut String, finding: &Finding) -> Result<(), AllocError>
    ensures { OnOk result
        (string_bytes text.new ≡ string_bytes text.old ++ location_text finding.now) }
{
    let line = finding.line.unwrap_or(1);
    let path = match &finding.path {
        Some(path) => path.as_str(),
        None => "unknown",
    };
    let mut digits = Buffer::new();
    text.push_str(",\"location\":{\"lines\":{\"begin\":")?;
    text.push_str(digits.format(line))?;
    text.push_str("},\"path\":")?;
    push_quoted(alloc, text, path)?;
    text.push_str("}")?;
    Ok(())
}

/// Adds the severity.
#[tactic(auto, unfolding(crate::specs::GitlabParts::severity_text))]
fn push_severity(alloc: Global, text: &mut String, level: Level) -> Result<(), AllocError>
    ensures { OnOk result (string_bytes text.new
        ≡ string_bytes text.old ++ severity_text level) }
{
    push_member(alloc, text, ",\"severity\":", severity(level))?;
    text.push_str("}")?;
    Ok(())
}

/// Adds the object of a result, by its fingerprint.
pub(crate) fn push_quality(
    alloc: Global,
    text: &mut String,
    finding: &Finding,
    mark: &str,
) -> Result<(), AllocError>
    ensures { OnOk result (string_bytes text.new
        ≡ string_bytes text.old ++ compact_text (said.quality_of finding.now mark.now)) }
{
    push_rule(alloc, text, finding)?;
    push_member(alloc, text, ",\"fingerprint\":", mark)?;
    push_location(alloc, text, finding)?;
    push_severity(alloc, text, finding.level)?;
    Ok(())
}
