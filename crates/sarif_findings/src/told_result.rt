//! A result as its finding reads it.
ghost use Rattle.std.specs.Prelude.{◌≡◌, Some, codes, map, option_map, option_and_then};
ghost use Rattle.std.specs.Option.{option_or};
ghost use Rattle.serde_json.specs.Find.{get};
ghost use Rattle.serde_json.specs.View.{view};
ghost use Rattle.sarif_model.specs.Internal.FirstLocation as said;
ghost use Rattle.sarif_model.specs.Internal.FirstLocation.{IsFirstLocation};
ghost use Rattle.sarif_model.specs.Internal.References as references;
ghost use Rattle.sarif_model.specs.Internal.References.{IsMessageReference, IsRuleReference};
ghost use Rattle.sarif_findings.specs.Internal.SnippetsOf as snippets_of;
ghost use Rattle.sarif_findings.specs.Internal.SnippetsOf.{IsSnippets};
ghost use Rattle.sarif_findings.specs.Internal.Told.{IsTold};

use crate::lookup::{elements_in, number_in, text_in};
use crate::snippets::Snippets;
use sarif_model::{FirstLocation, MessageReference, RuleReference};
use serde_json::Value;

/// What a finding reads of its result, besides its level and its state.
#[derive(Clone, Copy)]
pub struct ToldResult<'r> {
    /// How the result refers to its rule.
    pub rule: RuleReference<'r>,
    /// How the result refers to the text of its message.
    pub message: MessageReference<'r>,
    /// The arguments of its message.
    pub arguments: &'r [Value],
    /// The result's first location.
    pub location: FirstLocation<'r>,
    /// The snippets of its first location.
    pub snippets: Snippets<'r>,
}

/// `locations[0].physicalLocation` of a result.
fn physical_location(found: &Value) -> Option<&Value>
    ensures { option_map (λ v. view v.now) result ≡ said.first_physical (view found.now) }
{
    match elements_in(found, "locations") {
        [] => None,
        [first, ..] => first.get("physicalLocation"),
    }
}

/// The member of that name.
fn member_in<'a>(found: Option<&'a Value>, name: &str) -> Option<&'a Value>
    ensures { option_map (λ v. view v.now) result
        ≡ option_and_then (get name.now) (option_map (λ v. view v.now) found.entry) }
{
    found?.get(name)
}

/// The string of that name.
fn text_within<'a>(found: Option<&'a Value>, name: &str) -> Option<&'a str>
    ensures { option_map (λ text. text.now) result
        ≡ said.string_in name.now (option_map (λ v. view v.now) found.entry) }
{
    text_in(found?, name)
}

/// The integer of that name, which is at least 0.
fn number_within(found: Option<&Value>, name: &str) -> Option<u64>
    ensures { result ≡ said.integer_in name.now (option_map (λ v. view v.now) found.entry) }
{
    number_in(found?, name)
}

/// What reports show of the first location of a result.
fn first_location(found: &Value) -> FirstLocation<'_>
    ensures { IsFirstLocation result (view found.now) }
{
    let physical = physical_location(found);
    let artifact = member_in(physical, "artifactLocation");
    let region = member_in(physical, "region");
    FirstLocation {
        uri: text_within(artifact, "uri"),
        artifact: number_within(artifact, "index"),
        line: number_within(region, "startLine"),
        column: number_within(region, "startColumn"),
    }
}

/// The text of the snippet of a region.
fn snippet_of(region: Option<&Value>) -> Option<&str>
    ensures { option_map (λ text. text.now) result
        ≡ snippets_of.snippet_of (option_map (λ v. view v.now) region.entry) }
{
    text_within(member_in(region, "snippet"), "text")
}

/// The snippets of the first location of a result.
fn snippets_in(found: &Value) -> Snippets<'_>
    ensures { IsSnippets result (view found.now) }
{
    let physical = physical_location(found);
    let context = member_in(physical, "contextRegion");
    Snippets {
        region: snippet_of(member_in(physical, "region")),
        context: snippet_of(context),
        context_line: number_within(context, "startLine"),
    }
}

/// `ruleId`, otherwise `rule.id`.
fn rule_id(found: &Value) -> Option<&str>
    ensures { option_map (λ id. id.now) result ≡ references.rule_id (view found.now) }
{
    match text_in(found, "ruleId") {
        Some(id) => Some(id),
        None => text_within(found.get("rule"), "id"),
    }
}

/// `rule.index`, otherwise `ruleIndex`.
fn rule_index(found: &Value) -> Option<u64>
    ensures { result ≡ references.rule_index (view found.now) }
{
    match number_within(found.get("rule"), "index") {
        Some(index) => Some(index),
        None => number_in(found, "ruleIndex"),
    }
}

/// How a result refers to its rule.
fn rule_reference(found: &Value) -> RuleReference<'_>
    ensures { IsRuleReference result (view found.now) }
{
    let component = member_in(found.get("rule"), "toolComponent");
    RuleReference {
        id: rule_id(found),
        index: rule_index(found),
        extension: number_within(component, "index"),
    }
}

/// How a result refers to the text of its message.
fn message_reference(found: &Value) -> MessageReference<'_>
    ensures { IsMessageReference result (view found.now) }
{
    let message = found.get("message");
    MessageReference {
        text: text_within(message, "text"),
        id: text_within(message, "id"),
    }
}

/// The arguments of a result's message.
fn arguments_of(found: &Value) -> &[Value]
    ensures { map view result.now ≡ references.arguments_in (view found.now) }
{
    match found.get("message") {
        Some(message) => elements_in(message, "arguments"),
        None => &[],
    }
}

/// What the finding of a whole result reads of it.
pub(crate) fn told_of(found: &Value) -> ToldResult<'_>
    ensures { IsTold result (view found.now) }
{
    ToldResult {
        rule: rule_reference(found),
        message: message_reference(found),
        arguments: arguments_of(found),
        location: first_location(found),
        snippets: snippets_in(found),
    }
}
