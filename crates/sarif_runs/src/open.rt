//! Reading the rules, overrides and artifacts of a run.
ghost use Rattle.std.specs.Prelude.{◌≡◌, IfOk, map, option_map};
ghost use Rattle.sarif_model.specs.Internal.Refusal.{IfFault};
ghost use Rattle.sarif_model.specs.Members.{objects_at, read_each};
ghost use Rattle.serde_json.specs.View.{view};
ghost use Rattle.sarif_runs.specs.Reading.{Gives, before, list_if_there};
ghost use Rattle.sarif_runs.specs.Rules.{rule_of, rules_of, driver_of, components_of};
ghost use Rattle.sarif_runs.specs.Overrides.{override_of, override_lists, invocations_of};
ghost use Rattle.sarif_runs.specs.Place.{artifact_of, artifacts_of};
ghost use Rattle.sarif_runs.specs.Head.{head_of};

use crate::component::{Component, Rule};
use crate::head::{RunHead, find_descriptor};
use crate::invocation::{Invocation, Override};
use crate::reading::{level_within, objects_within};
use sarif_model::members::{
    elements_at, index_within, object_at, object_within, objects_at, text_at, text_within,
};
use sarif_model::{Fault, Place, Refusal, Sequence, Text, copy_if_there};
use serde_json::Value;
use std::alloc::{AllocError, Global};
use std::hash::RandomState;

/// Reads the rules, overrides and artifacts of a run. It does not read the results, which may be missing. It
/// returns the first error in this order: for the driver and then each extension (SARIF 2.1.0, "toolComponent
/// object"), rule by rule, `BadRules`, and `BadLevel` for its default level; for the artifacts `BadLocation`; for
/// the invocations `BadMember`, and then for each override `BadMember`, `BadIndex`, `BadLevel`. It returns
/// `OutOfMemory` if memory runs out. The head's tables hash with `seed`, which no log can know; no result depends
/// on it.
#[tactic(auto, unfolding(crate::specs::Head::head_of))]
pub fn open_value(alloc: Global, seed: RandomState, run: &Value) -> Result<RunHead, Refusal<Fault>>
    ensures ok { IfOk result (λ head. head_of (view run.now) ≡ Ok head) }
    ensures err { IfFault result (λ fault. head_of (view run.now) ≡ Err fault) }
{
    let components = read_components(alloc, seed, run)?;
    let artifacts = read_artifacts(alloc, run)?;
    let invocations = read_invocations(alloc, seed, components.as_slice(), run)?;
    Ok(RunHead {
        components,
        invocations,
        artifacts,
    })
}

#[tactic(auto, unfolding(crate::specs::Rules::components_of))]
fn read_components(
    alloc: Global,
    seed: RandomState,
    run: &Value,
) -> Result<Sequence<Component>, Refusal<Fault>>
    ensures { Gives result (components_of (view run.now)) }
{
    let extensions = objects_within(run.get("tool"), "extensions", Fault::BadRules)?;
    let driver = read_driver(alloc, seed, driver_of(run))?;
    let mut components = Sequence::new(alloc);
    components.push(driver)?;
    read_extensions(alloc, seed, components, extensions)
}

fn driver_of(run: &Value) -> Option<&Value>
    ensures { option_map (λ v. view v.now) result ≡ driver_of (view run.now) }
{
    run.get("tool")?.get("driver")
}

fn read_driver(
    alloc: Global,
    seed: RandomState,
    driver: Option<&Value>,
) -> Result<Component, Refusal<Fault>>
    ensures { Gives result (list_if_there rules_of (option_map (λ v. view v.now) driver.entry)) }
{
    match driver {
        Some(driver) => read_component(alloc, seed, driver),
        None => Ok(Component::new(alloc, seed, Vec::new(alloc))?),
    }
}

/// Adds the extensions after the components so far.
fn read_extensions(
    alloc: Global,
    seed: RandomState,
    mut components: Sequence<Component>,
    extensions: &[Value],
) -> Result<Sequence<Component>, Refusal<Fault>>
    ensures { Gives result (before components (read_each rules_of (map view extensions.now))) }
{
    for extension in extensions {
        let component = read_component(alloc, seed, extension)?;
        components.push(component)?;
    }
    Ok(components)
}

#[tactic(auto, unfolding(crate::specs::Rules::rules_of))]
fn read_component(
    alloc: Global,
    seed: RandomState,
    component: &Value,
) -> Result<Component, Refusal<Fault>>
    ensures { Gives result (rules_of (view component.now)) }
{
    let rules = elements_at(component, "rules", Fault::BadRules)?;
    let rules = read_rules(alloc, rules)?;
    Ok(Component::new(alloc, seed, rules)?)
}

fn read_rules(alloc: Global, values: &[Value]) -> Result<Vec<Rule>, Refusal<Fault>>
    ensures ok { IfOk result (λ rules. read_each rule_of (map view values.now) ≡ Ok rules.items) }
    ensures err { IfFault result (λ fault. read_each rule_of (map view values.now) ≡ Err fault) }
{
    let mut rules = Vec::new(alloc);
    for value in values {
        let rule = read_rule(alloc, value)?;
        rules.push(rule)?;
    }
    Ok(rules)
}

#[tactic(auto, unfolding(crate::specs::Rules::rule_of))]
fn read_rule(alloc: Global, rule: &Value) -> Result<Rule, Refusal<Fault>>
    ensures { Gives result (rule_of (view rule.now)) }
{
    let Some(id) = text_at(rule, "id", Fault::BadRules)? else {
        return Err(Refusal::Fault(Fault::BadRules));
    };
    let level = level_within(object_at(rule, "defaultConfiguration", Fault::BadRules)?)?;
    let id = Text::copy_of(alloc, id)?;
    Ok(Rule { id, level })
}

#[tactic(auto, unfolding(crate::specs::Place::artifacts_of))]
fn read_artifacts(alloc: Global, run: &Value) -> Result<Sequence<Place>, Refusal<Fault>>
    ensures { Gives result (artifacts_of (view run.now)) }
{
    let artifacts = objects_at(run, "artifacts", Fault::BadLocation)?;
    read_places(alloc, artifacts)
}

fn read_places(alloc: Global, artifacts: &[Value]) -> Result<Sequence<Place>, Refusal<Fault>>
    ensures { Gives result (read_each artifact_of (map view artifacts.now)) }
{
    let mut places = Sequence::new(alloc);
    for artifact in artifacts {
        let place = read_artifact(alloc, artifact)?;
        places.push(place)?;
    }
    Ok(places)
}

#[tactic(auto, unfolding(crate::specs::Place::artifact_of))]
fn read_artifact(alloc: Global, artifact: &Value) -> Result<Place, Refusal<Fault>>
    ensures { Gives result (artifact_of (view artifact.now)) }
{
    let location = object_at(artifact, "location", Fault::BadLocation)?;
    let uri = text_within(location, "uri", Fault::BadLocation)?;
    let base = text_within(location, "uriBaseId", Fault::BadLocation)?;
    let uri = copy_if_there(alloc, uri)?;
    let base = copy_if_there(alloc, base)?;
    Ok(Place { uri, base })
}

#[tactic(auto, unfolding(crate::specs::Overrides::invocations_of))]
fn read_invocations(
    alloc: Global,
    seed: RandomState,
    components: &[Component],
    run: &Value,
) -> Result<Sequence<Invocation>, Refusal<Fault>>
    ensures { Gives result (invocations_of components.now (view run.now)) }
{
    let invocations = objects_at(run, "invocations", Fault::BadMember)?;
    let lists = override_lists(alloc, invocations)?;
    read_lists(alloc, seed, components, lists.as_slice())
}

/// The overrides of each invocation, unchanged.
fn override_lists<'a>(
    alloc: Global,
    invocations: &'a [Value],
) -> Result<Vec<&'a [Value]>, Refusal<Fault>>
    ensures ok { IfOk result (λ lists. override_lists (map view invocations.now)
        ≡ Ok (map (λ l. map view l.now) lists.items)) }
    ensures err { IfFault result (λ fault. override_lists (map view invocations.now) ≡ Err fault) }
{
    let mut lists = Vec::new(alloc);
    for invocation in invocations {
        let list = objects_at(invocation, "ruleConfigurationOverrides", Fault::BadMember)?;
        lists.push(list)?;
    }
    Ok(lists)
}

fn read_lists(
    alloc: Global,
    seed: RandomState,
    components: &[Component],
    lists: &[&[Value]],
) -> Result<Sequence<Invocation>, Refusal<Fault>>
    ensures { Gives result
        (read_each (read_each (override_of components.now)) (map (λ l. map view l.now) lists.now)) }
{
    let mut invocations = Sequence::new(alloc);
    for list in lists {
        let overrides = read_overrides(alloc, components, list)?;
        let invocation = Invocation::new(alloc, seed, overrides)?;
        invocations.push(invocation)?;
    }
    Ok(invocations)
}

fn read_overrides(
    alloc: Global,
    components: &[Component],
    values: &[Value],
) -> Result<Vec<Override>, Refusal<Fault>>
    ensures ok { IfOk result (λ overrides.
        read_each (override_of components.now) (map view values.now) ≡ Ok overrides.items) }
    ensures err { IfFault result
        (λ fault. read_each (override_of components.now) (map view values.now) ≡ Err fault) }
{
    let mut overrides = Vec::new(alloc);
    for value in values {
        let entry = read_override(components, value)?;
        overrides.push(entry)?;
    }
    Ok(overrides)
}

#[tactic(auto, unfolding(crate::specs::Overrides::override_of))]
fn read_override(components: &[Component], entry: &Value) -> Result<Override, Fault>
    ensures { result ≡ override_of components.now (view entry.now) }
{
    let named = object_at(entry, "descriptor", Fault::BadMember)?;
    let id = text_within(named, "id", Fault::BadMember)?;
    let component = object_within(named, "toolComponent", Fault::BadMember)?;
    let configuration = object_at(entry, "configuration", Fault::BadMember)?;
    let index = index_within(named, "index", Fault::BadIndex)?;
    let extension = index_within(component, "index", Fault::BadIndex)?;
    let descriptor = find_descriptor(components, extension, index, id)?;
    let level = level_within(configuration)?;
    Ok(Override { descriptor, level })
}
