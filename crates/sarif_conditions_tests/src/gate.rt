//! The gate object and the summary.
use sarif_change::Scope;
use sarif_conditions::{
    ConditionFacts, PolicyFacts, gate_value_of_policy, summary_of_policy, verdict_of_policy,
};
use sarif_counts::{Counts, Verdict};
use sarif_model::{Level, Sequence, State, Text};
use sarif_scope::ChangeFacts;
use std::alloc::{AllocError, Global};
use std::test::Fail;

/// The counts of a new error and a new note.
fn two_results() -> Counts {
    let mut counts = Counts::new();
    counts.add(State::New, Level::Error, false);
    counts.add(State::New, Level::Note, false);
    counts
}

/// A change of one line of two files.
fn change() -> Option<ChangeFacts> {
    Some(ChangeFacts {
        files: 2,
        lines: 1,
        outside: 7,
        unreported: 8,
        scope: Scope::Lines,
    })
}

/// A condition `c` that has one hit and allows none.
fn failing(alloc: Global) -> Result<ConditionFacts, AllocError> {
    Ok(ConditionFacts {
        name: Text::copy_of(alloc, "c")?,
        hits: 1,
        limit: 0,
        outside: None,
        fails: true,
    })
}

/// A condition `d e` that has one hit, allows more than 2^32 of them, and has three results outside.
fn passing(alloc: Global) -> Result<ConditionFacts, AllocError> {
    Ok(ConditionFacts {
        name: Text::copy_of(alloc, "d e")?,
        hits: 1,
        limit: 4294967297,
        outside: Some(3),
        fails: false,
    })
}

/// What a gate says about the first.
fn one_condition(alloc: Global) -> Result<PolicyFacts, AllocError> {
    let mut conditions = Sequence::new(alloc);
    conditions.push(failing(alloc)?)?;
    Ok(PolicyFacts {
        conditions,
        hits: 1,
        reported: 2,
        unchecked: 0,
        unused_filters: 0,
    })
}

/// What a gate says about the second and then the first.
fn two_conditions(alloc: Global) -> Result<PolicyFacts, AllocError> {
    let mut conditions = Sequence::new(alloc);
    conditions.push(passing(alloc)?)?;
    conditions.push(failing(alloc)?)?;
    Ok(PolicyFacts {
        conditions,
        hits: 2,
        reported: 9,
        unchecked: 4,
        unused_filters: 5,
    })
}

/// Those counts in the form of the gate object.
const COUNTS: &str =
    r#""counts":{"absent":{"active":[0,0,0,0],"suppressed":[0,0,0,0]},"new":{"active":[1,0,1,0],"suppressed":[0,0,0,0]},"unchanged":{"active":[0,0,0,0],"suppressed":[0,0,0,0]},"updated":{"active":[0,0,0,0],"suppressed":[0,0,0,0]}}"#;

#[test]
fn the_gate_has_an_object_for_each_condition(rt: HostRuntime) -> Result<(), Fail> {
    let alloc = rt.alloc();
    let facts = one_condition(alloc)?;
    let gate = gate_value_of_policy(alloc, &two_results(), &facts, 0, 0, &None)?;
    let wanted = format!(in alloc;
        "{{\"conditions\":[{{\"hits\":1,\"limit\":0,\"name\":\"c\",\"verdict\":\"fail\"}}],{COUNTS},\"hits\":1,\"runsWithoutResults\":0,\"unchecked\":0,\"unusedFilters\":0,\"unusedSuppressions\":0,\"verdict\":\"fail\"}}"
    )?;
    assert_eq!(rt; gate.to_string(alloc)?.as_str(), wanted.as_str());
    Ok(())
}

#[test]
fn the_gate_has_the_change_and_what_is_outside(rt: HostRuntime) -> Result<(), Fail> {
    let alloc = rt.alloc();
    let facts = two_conditions(alloc)?;
    let gate = gate_value_of_policy(alloc, &two_results(), &facts, 6, 7, &change())?;
    let wanted = format!(in alloc;
        "{{\"conditions\":[{{\"hits\":1,\"limit\":4294967297,\"name\":\"d e\",\"outside\":3,\"verdict\":\"pass\"}},{{\"hits\":1,\"limit\":0,\"name\":\"c\",\"verdict\":\"fail\"}}],{COUNTS},\"diff\":{{\"files\":2,\"lines\":1}},\"hits\":2,\"runsWithoutResults\":6,\"unchecked\":4,\"unusedFilters\":5,\"unusedSuppressions\":7,\"verdict\":\"fail\"}}"
    )?;
    assert_eq!(rt; gate.to_string(alloc)?.as_str(), wanted.as_str());
    Ok(())
}

#[test]
fn the_summary_has_a_line_for_each_condition(rt: HostRuntime) -> Result<(), Fail> {
    let alloc = rt.alloc();
    let facts = two_conditions(alloc)?;
    let text = summary_of_policy(alloc, &two_results(), &facts, &None)?;
    let wanted = "\ncondition d e: pass, hits 1, limit 4294967297, outside 3\n\
        condition c: fail, hits 1, limit 0\ngate: fail, hits 2, conditions 2, failed 1\n";
    assert!(rt; text.as_str().ends_with(wanted));
    assert!(rt; !text.as_str().contains("diff:"));
    Ok(())
}

#[test]
fn the_summary_names_the_change_before_the_conditions(rt: HostRuntime) -> Result<(), Fail> {
    let alloc = rt.alloc();
    let facts = one_condition(alloc)?;
    let text = summary_of_policy(alloc, &two_results(), &facts, &change())?;
    let wanted = "\ndiff: files 2, lines 1\ncondition c: fail, hits 1, limit 0\n\
        gate: fail, hits 1, conditions 1, failed 1\n";
    assert!(rt; text.as_str().ends_with(wanted));
    let row = "new                 1          0          1          0          0\n";
    assert!(rt; text.as_str().contains(row));
    Ok(())
}

#[test]
fn the_verdict_is_that_of_the_conditions(rt: HostRuntime) -> Result<(), Fail> {
    let facts = two_conditions(rt.alloc())?;
    assert_eq!(rt; verdict_of_policy(&facts), Verdict::Fail);
    Ok(())
}
