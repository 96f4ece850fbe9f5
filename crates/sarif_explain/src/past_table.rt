//! Indexes that are past the table that they point into.
use crate::mismatch::{Found, Mismatch};
use crate::place::{JsonPlace, find, items_of};
use crate::wanted::Wanted;
use serde_json::Value;
use std::alloc::Global;

/// The index at the end of a way, where it is 0 or more.
fn index_at(value: &Value, way: &[&str]) -> Option<u64> {
    find(value, way)?.as_u64()
}

/// The index at the end of the way, where the table has no element of it.
fn mismatch_past<'a>(
    alloc: Global,
    place: &JsonPlace<'a>,
    way: &[&str],
    table: &[Value],
    wanted: Wanted,
) -> Found<'a> {
    match index_at(place.value, way) {
        Some(index) if index >= table.len() as u64 => {
            Ok(Some(Mismatch::at(place.along(alloc, way)?, wanted)))
        }
        _ => Ok(None),
    }
}

/// The rules of the driver, or of the extension of that index.
fn rules_of<'a>(run: &JsonPlace<'a>, extension: Option<u64>) -> &'a [Value] {
    let component = match extension {
        None => find(run.value, &["tool", "driver"]),
        Some(index) => run.elements(&["tool", "extensions"]).get(index as usize),
    };
    match component.and_then(|value| value.get("rules")) {
        Some(rules) => items_of(rules),
        None => &[],
    }
}

/// The index of a rule's component, otherwise the index of the rule, if it is past the end of its table.
pub(crate) fn mismatch_of_rule<'a>(
    alloc: Global,
    run: &JsonPlace<'_>,
    place: &JsonPlace<'a>,
    component: &[&str],
    rule: &[&str],
) -> Found<'a> {
    let extensions = run.elements(&["tool", "extensions"]);
    let found = mismatch_past(alloc, place, component, extensions, Wanted::Extension)?;
    if found.is_some() {
        return Ok(found);
    }
    let rules = rules_of(run, index_at(place.value, component));
    mismatch_past(alloc, place, rule, rules, Wanted::Rule)
}

/// The way to the index of a result's rule.
fn way_to_rule(value: &Value) -> &'static [&'static str] {
    match index_at(value, &["rule", "index"]) {
        Some(_) => &["rule", "index"],
        None => &["ruleIndex"],
    }
}

/// The index of the artifact of a result's first location, where it is past its table and there is no `uri`.
fn mismatch_of_artifact<'a>(
    alloc: Global,
    run: &JsonPlace<'_>,
    place: &JsonPlace<'a>,
) -> Found<'a> {
    let Some(first) = place.nth(alloc, &["locations"], 0)? else {
        return Ok(None);
    };
    let artifact = first.along(alloc, &["physicalLocation", "artifactLocation"])?;
    match artifact.value.get("uri") {
        Some(Value::String(_)) => Ok(None),
        _ => {
            let artifacts = run.elements(&["artifacts"]);
            mismatch_past(alloc, &artifact, &["index"], artifacts, Wanted::Artifact)
        }
    }
}

/// The first index of a result that is past its table.
pub(crate) fn mismatch_past_tables<'a>(
    alloc: Global,
    run: &JsonPlace<'_>,
    place: &JsonPlace<'a>,
) -> Found<'a> {
    let component = &["rule", "toolComponent", "index"];
    let found = mismatch_of_rule(alloc, run, place, component, way_to_rule(place.value))?;
    if found.is_some() {
        return Ok(found);
    }
    let invocations = run.elements(&["invocations"]);
    let way = &["provenance", "invocationIndex"];
    let found = mismatch_past(alloc, place, way, invocations, Wanted::Invocation)?;
    if found.is_some() {
        return Ok(found);
    }
    mismatch_of_artifact(alloc, run, place)
}
