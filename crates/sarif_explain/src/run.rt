//! The error in a run, outside its results.
use crate::checks::{
    artifact_checks, component_checks, invocation_checks, override_checks, rule_checks, run_checks,
};
use crate::mismatch::{Found, mismatch_in, mismatch_in_each};
use crate::past_table::mismatch_of_rule;
use crate::place::JsonPlace;
use sarif_model::Fault;
use std::alloc::Global;

/// In the rules of the driver, or of an extension.
fn mismatch_of_component<'a>(alloc: Global, component: &JsonPlace<'a>, fault: Fault) -> Found<'a> {
    let found = mismatch_in(alloc, component, component_checks(fault))?;
    if found.is_some() {
        return Ok(found);
    }
    mismatch_in_each(alloc, component, &["rules"], rule_checks(fault))
}

/// In the rules of the driver, and then of each extension.
fn mismatch_of_components<'a>(alloc: Global, run: &JsonPlace<'a>, fault: Fault) -> Found<'a> {
    let driver = run.along(alloc, &["tool", "driver"])?;
    let found = mismatch_of_component(alloc, &driver, fault)?;
    if found.is_some() {
        return Ok(found);
    }
    let list = run.along(alloc, &["tool", "extensions"])?;
    for (index, value) in run.elements(&["tool", "extensions"]).iter().enumerate() {
        let extension = list.element(alloc, index, value)?;
        let found = mismatch_of_component(alloc, &extension, fault)?;
        if found.is_some() {
            return Ok(found);
        }
    }
    Ok(None)
}

/// In an override of a rule's configuration.
fn mismatch_of_override<'a>(
    alloc: Global,
    run: &JsonPlace<'_>,
    place: &JsonPlace<'a>,
    fault: Fault,
) -> Found<'a> {
    let found = mismatch_in(alloc, place, override_checks(fault))?;
    if found.is_some() || fault != Fault::BadIndex {
        return Ok(found);
    }
    let component = &["descriptor", "toolComponent", "index"];
    mismatch_of_rule(alloc, run, place, component, &["descriptor", "index"])
}

/// In the overrides of an invocation.
fn mismatch_of_overrides<'a>(
    alloc: Global,
    run: &JsonPlace<'_>,
    invocation: &JsonPlace<'a>,
    fault: Fault,
) -> Found<'a> {
    let way = &["ruleConfigurationOverrides"];
    let list = invocation.along(alloc, way)?;
    for (index, value) in invocation.elements(way).iter().enumerate() {
        let place = list.element(alloc, index, value)?;
        let found = mismatch_of_override(alloc, run, &place, fault)?;
        if found.is_some() {
            return Ok(found);
        }
    }
    Ok(None)
}

/// In the invocations: first the forms of all, then their overrides.
fn mismatch_of_invocations<'a>(alloc: Global, run: &JsonPlace<'a>, fault: Fault) -> Found<'a> {
    let found = mismatch_in_each(alloc, run, &["invocations"], invocation_checks(fault))?;
    if found.is_some() {
        return Ok(found);
    }
    let list = run.along(alloc, &["invocations"])?;
    for (index, value) in run.elements(&["invocations"]).iter().enumerate() {
        let invocation = list.element(alloc, index, value)?;
        let found = mismatch_of_overrides(alloc, run, &invocation, fault)?;
        if found.is_some() {
            return Ok(found);
        }
    }
    Ok(None)
}

/// Returns what is wrong in a run that has this error, outside its results.
pub(crate) fn mismatch_of_run<'a>(alloc: Global, run: &JsonPlace<'a>, fault: Fault) -> Found<'a> {
    let found = mismatch_in(alloc, run, run_checks(fault))?;
    if found.is_some() {
        return Ok(found);
    }
    let found = mismatch_of_components(alloc, run, fault)?;
    if found.is_some() {
        return Ok(found);
    }
    let found = mismatch_in_each(alloc, run, &["artifacts"], artifact_checks(fault))?;
    if found.is_some() {
        return Ok(found);
    }
    mismatch_of_invocations(alloc, run, fault)
}
