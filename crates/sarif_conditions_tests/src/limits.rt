//! Hits, limits and the verdict.
use crate::told::{Told, decided_of, gone_error, lines_of, new_error, new_note};
use sarif_conditions::verdict_of_policy;
use sarif_counts::Verdict;
use sarif_model::{Level, State};
use std::test::Fail;

#[test]
fn a_condition_fails_above_its_limit(rt: HostRuntime) -> Result<(), Fail> {
    let alloc = rt.alloc();
    let results = [new_error("R1"), new_note("R2")];
    let lines = lines_of(alloc, r#"{"name":"c"}"#, &results)?;
    let wanted =
        "\ncondition c: fail, hits 1, limit 0\ngate: fail, hits 1, conditions 1, failed 1\n";
    assert!(rt; lines.as_str().ends_with(wanted));
    let lines = lines_of(alloc, r#"{"name":"c","max":1}"#, &results)?;
    let wanted =
        "\ncondition c: pass, hits 1, limit 1\ngate: pass, hits 1, conditions 1, failed 0\n";
    assert!(rt; lines.as_str().ends_with(wanted));
    Ok(())
}

#[test]
fn a_result_is_one_hit_whatever_the_conditions(rt: HostRuntime) -> Result<(), Fail> {
    let conditions = r#"{"name":"one","only":[{"ruleId":"R1"},{"ruleId":"R2"}],"max":1},
        {"name":"two","only":[{"ruleId":"R2"}],"max":1}"#;
    let results = [new_error("R1"), new_error("R2"), new_error("R3")];
    let lines = lines_of(rt.alloc(), conditions, &results)?;
    let wanted = "\ncondition one: fail, hits 2, limit 1\ncondition two: pass, hits 1, limit 1\n\
        gate: fail, hits 2, conditions 2, failed 1\n";
    assert!(rt; lines.as_str().ends_with(wanted));
    Ok(())
}

#[test]
fn the_gate_fails_if_one_condition_does(rt: HostRuntime) -> Result<(), Fail> {
    let alloc = rt.alloc();
    let results = [new_error("R1")];
    let rows = [
        (r#"{"name":"a"},{"name":"b","max":1}"#, Verdict::Fail),
        (r#"{"name":"b","max":1},{"name":"a"}"#, Verdict::Fail),
        (
            r#"{"name":"a","max":1},{"name":"b","max":1}"#,
            Verdict::Pass,
        ),
    ];
    for (conditions, wanted) in rows {
        let decided = decided_of(alloc, conditions, &results)?;
        assert_eq!(rt; verdict_of_policy(&decided.facts), wanted);
    }
    Ok(())
}

#[test]
fn conditions_have_verdicts_of_their_own(rt: HostRuntime) -> Result<(), Fail> {
    let conditions = r#"{"name":"a"},{"name":"b","max":1}"#;
    let decided = decided_of(rt.alloc(), conditions, &[new_error("R1")])?;
    let wanted = [Verdict::Fail, Verdict::Pass];
    for (facts, wanted) in decided.facts.conditions.as_slice().iter().zip(&wanted) {
        assert_eq!(rt; facts.verdict(), *wanted);
    }
    Ok(())
}

/// Members of a condition, and how many hits it has of an error that is new, updated, unchanged, suppressed or absent,
/// and a new warning.
const ASKED: [(&str, u32); 6] = [
    ("", 2),
    (r#","states":["new"]"#, 1),
    (r#","states":["unchanged","updated"]"#, 2),
    (r#","states":["absent"]"#, 1),
    (r#","level":"warning""#, 3),
    (
        r#","level":"none","states":["absent","new","unchanged","updated"]"#,
        5,
    ),
];

/// Those results.
fn six_results() -> [Told<'static>; 6] {
    [
        new_error("R1"),
        Told {
            state: State::Updated,
            ..new_error("R1")
        },
        Told {
            state: State::Unchanged,
            ..new_error("R1")
        },
        Told {
            suppressed: true,
            ..new_error("R1")
        },
        gone_error("R1"),
        Told {
            level: Level::Warning,
            ..new_error("R1")
        },
    ]
}

#[test]
fn hits_are_active_and_have_a_state_and_a_level(rt: HostRuntime) -> Result<(), Fail> {
    let alloc = rt.alloc();
    let results = six_results();
    for (members, wanted) in ASKED {
        let condition = format!(in alloc; "{{\"name\":\"c\"{members}}}")?;
        let decided = decided_of(alloc, condition.as_str(), &results)?;
        assert_eq!(rt; decided.facts.hits, wanted);
    }
    Ok(())
}
