//! A run with the names that are looked up for each of its results.
ghost use Rattle.std.specs.Prelude.{◌≡◌, chars, codes, map, option_map, slice_get, IfOk};
ghost use Rattle.std.specs.Option.{option_flatten};
ghost use Rattle.serde_json.specs.Find.{get};
ghost use Rattle.serde_json.specs.View.{view};
ghost use Rattle.sarif_findings.specs.Located.{descriptor_at};
ghost use Rattle.sarif_findings.specs.Lookup as said;
ghost use Rattle.sarif_findings.specs.Internal.RulesOf.{rules_in, rules_of, extensions_of};
ghost use Rattle.sarif_findings.specs.PathOf.{decoded};
ghost use Rattle.sarif_findings.specs.Shown.{shown};
ghost use Rattle.sarif_findings.specs.Internal.Subject.{IsDescribed};
ghost use Rattle.sarif_model.specs.Driver.{tool_name};

use crate::artifacts::paths_of_artifacts;
use crate::lookup::{driver_of, elements_in};
use crate::rules::Rules;
use crate::shown_text::shown_copy;
use crate::subject::Subject;
use crate::told_result::ToldResult;
use sarif_model::{RuleReference, Text, driver_name};
use serde_json::Value;
use std::alloc::{AllocError, Global};
use std::marker::Model;

/// A run with what its results name: its tool as it is shown, the rules of the tool's components by their ids, and
/// the URIs of its artifacts read as paths (SARIF 2.1.0, "run object"). Contracts see the run.
#[derive(Drop)]
pub struct NamedRun<'r> {
    run: &'r Value,
    tool: Text,
    driver: Rules<'r>,
    extensions: Vec<Rules<'r>>,
    artifacts: Vec<Option<Text>>,
}

impl<'r> Model for NamedRun<'r> {
    ghost use Rattle.std.specs.Prelude.{◌≡◌, chars, codes, map};
    ghost use Rattle.std.specs.Coded.{codes as coded_by};
    ghost use Rattle.serde_json.specs.Find.{get};
    ghost use Rattle.serde_json.specs.contracts.value.Value as json;
    ghost use Rattle.serde_json.specs.declared.value.Value.{Value as Json};
    ghost use Rattle.serde_json.specs.View.{view as seen};
    ghost use Rattle.sarif_findings.specs.Lookup.{driver_of};
    ghost use Rattle.sarif_model.specs.Driver.{tool_name};
    ghost use Rattle.sarif_findings.specs.Internal.RulesOf.{rules_in, rules_of, extensions_of};
    ghost use Rattle.sarif_findings.specs.Internal.ArtifactsOf.{artifact_paths};
    ghost use Rattle.sarif_findings.specs.Shown.{shown};

    ghost Value = { Json };

    ghost coded = { Prim.hlevel (coded_by, json.the_row.coded) };

    ghost view = { λ named. named.run.now };

    ghost invariant = { λ named. (named.tool ≡ shown (chars (tool_name (seen named.run.now))))
        × (map seen named.driver ≡ rules_of (driver_of (seen named.run.now)))
        × (map (map seen) named.extensions.items
        ≡ map rules_in (extensions_of (get (codes "tool") (seen named.run.now))))
        × (named.artifacts.items ≡ artifact_paths (seen named.run.now)) };
}

fn tool_name(run: &Value) -> &str
    ensures { result.now ≡ tool_name (view run.now) }
{
    driver_name(run).unwrap_or("")
}

fn driver_rules<'r>(run: &'r Value) -> &'r [Value]
    ensures { map view result.now ≡ rules_of (said.driver_of (view run.now)) }
{
    match driver_of(run) {
        Some(driver) => elements_in(driver, "rules"),
        None => &[],
    }
}

fn extensions_in<'r>(run: &'r Value) -> &'r [Value]
    ensures { map view result.now ≡ extensions_of (get (codes "tool") (view run.now)) }
{
    match run.get("tool") {
        Some(tool) => elements_in(tool, "extensions"),
        None => &[],
    }
}

/// The rules of each of these components.
fn rules_of_each<'r>(alloc: Global, components: &'r [Value]) -> Result<Vec<Rules<'r>>, AllocError>
    ensures { IfOk result
        (λ made. map (map view) made.items ≡ map rules_in (map view components.now)) }
{
    let mut made = Vec::with_capacity(alloc, components.len())?;
    for component in components {
        made.push(Rules::new(alloc, elements_in(component, "rules"))?)?;
    }
    Ok(made)
}

/// The rules of the component of that number.
fn rules_at<'s, 'r>(components: &'s [Rules<'r>], index: u64) -> Option<&'s Rules<'r>>
    ensures { option_map (λ rules. rules.now) result ≡ slice_get components.now index }
{
    components.get(index as usize)
}

/// The path with that number, if there is one.
fn path_at(paths: &[Option<Text>], index: u64) -> Option<&Text>
    ensures { option_map (λ path. path.now) result ≡ option_flatten (slice_get paths.now index) }
{
    match paths.get(index as usize) {
        Some(Some(path)) => Some(path),
        _ => None,
    }
}

impl<'r> NamedRun<'r> {
    /// Looks up what the results of the run may name. Returns `AllocError` if memory runs out.
    pub fn new(alloc: Global, run: &'r Value) -> Result<NamedRun<'r>, AllocError>
        ensures { IfOk result (λ named. named ≡ run.now) }
    {
        let tool = shown_copy(alloc, tool_name(run))?;
        let driver = Rules::new(alloc, driver_rules(run))?;
        let extensions = rules_of_each(alloc, extensions_in(run))?;
        let artifacts = paths_of_artifacts(alloc, run)?;
        Ok(NamedRun {
            run,
            tool,
            driver,
            extensions,
            artifacts,
        })
    }

    /// The name of its tool as it is shown.
    pub(crate) fn tool(&self) -> &Text
        ensures { result.now ≡ shown (chars (tool_name (view self.now))) }
    {
        &self.tool
    }

    /// The URI of the artifact with that index, read as a path.
    pub(crate) fn artifact_path(&self, index: u64) -> Option<&Text>
        ensures { option_map (λ path. path.now) result
            ≡ option_map decoded (said.artifact_uri (view self.now) index) }
    {
        path_at(self.artifacts.as_slice(), index)
    }

    /// The descriptor that a result of the run refers to. Takes no search through the rules.
    fn descriptor_of(&self, rule: &RuleReference<'_>) -> Option<&'r Value>
        ensures { option_map (λ rule. view rule.now) result
            ≡ descriptor_at (view self.now) rule.now }
    {
        match rule.extension {
            None => self.driver.named_by(rule),
            Some(index) => rules_at(self.extensions.as_slice(), index)?.named_by(rule),
        }
    }

    /// A result, in this run.
    pub(crate) fn subject<'s>(&'s self, told: &'s ToldResult<'s>) -> Subject<'s>
        ensures run { result.run.now ≡ self.now }
        ensures told { result.told.now ≡ told.now }
        ensures described { IsDescribed result }
    {
        let run = self.run;
        let descriptor = self.descriptor_of(&told.rule);
        Subject {
            run,
            told,
            descriptor,
        }
    }
}
