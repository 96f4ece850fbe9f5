//! What the gate and the summary say about a change.
use sarif_change::Scope;
use sarif_counts::{Counts, Verdict, gate_value, summary, verdict};
use sarif_model::{Level, State};
use sarif_options::Policy;
use sarif_scope::{
    ChangeFacts, gate_value_told, hits_inside, scope_name, summary_of_change, summary_told,
    verdict_inside, verdict_told,
};
use std::test::Fail;

/// A change of one line of one file, with this many hits outside.
fn facts(outside: u32, scope: Scope) -> ChangeFacts {
    ChangeFacts {
        files: 1,
        lines: 1,
        outside,
        unreported: outside,
        scope,
    }
}

/// The counts of two new errors.
fn two_errors() -> Counts {
    let mut counts = Counts::new();
    counts.add(State::New, Level::Error, false);
    counts.add(State::New, Level::Error, false);
    counts
}

/// The counts of four new errors.
fn four_errors() -> Counts {
    let mut counts = Counts::new();
    counts.add(State::New, Level::Error, false);
    counts.add(State::New, Level::Error, false);
    counts.add(State::New, Level::Error, false);
    counts.add(State::New, Level::Error, false);
    counts
}

/// The counts of a new error, one that is suppressed, and a new result without a level.
fn one_error() -> Counts {
    let mut counts = Counts::new();
    counts.add(State::New, Level::Error, false);
    counts.add(State::New, Level::Error, true);
    counts.add(State::New, Level::NoLevel, false);
    counts
}

#[test]
fn the_gate_has_all_counts_and_the_hits_inside(rt: HostRuntime) -> Result<(), Fail> {
    let change = Some(facts(3, Scope::Lines));
    let gate = gate_value_told(
        rt.alloc(),
        &four_errors(),
        &Policy::default(),
        5,
        6,
        &change,
    )?;
    let text = gate.to_string(rt.alloc())?;
    let first =
        "{\"counts\":{\"absent\":{\"active\":[0,0,0,0],\"suppressed\":[0,0,0,0]},\"new\":{\"active\":[4,0,0,0],\"suppressed\":[0,0,0,0]},";
    assert!(rt; text.as_str().starts_with(first));
    let last =
        "},\"diff\":{\"files\":1,\"lines\":1,\"outside\":3,\"scope\":\"lines\"},\"failOn\":\"error\",\"hits\":1,\"max\":0,\"runsWithoutResults\":5,\"states\":[\"new\",\"updated\"],\"unusedSuppressions\":6,\"verdict\":\"fail\"}";
    assert!(rt; text.as_str().ends_with(last));
    Ok(())
}

#[test]
fn the_summary_names_the_change_before_the_gate(rt: HostRuntime) -> Result<(), Fail> {
    let row = "new                 4          0          0          0          0\n";
    let ends = [
        (
            3,
            "diff: files 1, lines 1, outside 3\ngate: fail, hits 1, max 0\n",
        ),
        (
            1,
            "diff: files 1, lines 1, outside 1\ngate: fail, hits 3, max 0\n",
        ),
        (
            4,
            "diff: files 1, lines 1, outside 4\ngate: pass, hits 0, max 0\n",
        ),
    ];
    for (outside, last) in ends {
        let change = facts(outside, Scope::Lines);
        let text = summary_of_change(rt.alloc(), &four_errors(), &Policy::default(), &change)?;
        assert!(rt; text.as_str().contains(row));
        assert!(rt; text.as_str().ends_with(last));
    }
    Ok(())
}

#[test]
fn results_that_are_no_hits_are_not_outside(rt: HostRuntime) -> Result<(), Fail> {
    let policy = Policy {
        fail_on: Level::Note,
        max: 1,
        ..Policy::default()
    };
    let change = facts(0, Scope::Lines);
    let text = summary_of_change(rt.alloc(), &one_error(), &policy, &change)?;
    let last = "diff: files 1, lines 1, outside 0\ngate: pass, hits 1, max 1\n";
    assert!(rt; text.as_str().ends_with(last));
    Ok(())
}

#[test]
fn the_verdict_is_that_of_the_hits_inside(rt: HostRuntime) {
    let policy = Policy::default();
    let counts = two_errors();
    assert_eq!(rt; hits_inside(&counts, &policy, 1), 1);
    assert_eq!(rt; hits_inside(&counts, &policy, 2), 0);
    assert_eq!(rt; verdict_inside(&counts, &policy, 1), Verdict::Fail);
    let none = Some(facts(2, Scope::Files));
    assert_eq!(rt; verdict_told(&counts, &policy, &none), Verdict::Pass);
    assert_eq!(rt;
        verdict_told(&counts, &policy, &None),
        verdict(&counts, &policy)
    );
}

#[test]
fn without_a_change_nothing_changes(rt: HostRuntime) -> Result<(), Fail> {
    let policy = Policy::default();
    let counts = four_errors();
    let told = gate_value_told(rt.alloc(), &counts, &policy, 5, 6, &None)?;
    let gate = gate_value(rt.alloc(), &counts, &policy, 5, 6)?;
    assert_eq!(rt;
        told.to_string(rt.alloc())?.as_str(),
        gate.to_string(rt.alloc())?.as_str()
    );
    let told = summary_told(rt.alloc(), &counts, &policy, &None)?;
    let text = summary(rt.alloc(), &counts, &policy)?;
    assert_eq!(rt; told.as_str(), text.as_str());
    Ok(())
}

#[test]
fn scopes_have_the_names_of_the_option(rt: HostRuntime) {
    assert_eq!(rt; scope_name(Scope::Lines), "lines");
    assert_eq!(rt; scope_name(Scope::Files), "files");
}
