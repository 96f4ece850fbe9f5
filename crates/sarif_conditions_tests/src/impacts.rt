//! What each result does to the gate.
use crate::told::{Told, decided_of, gone_error, new_error, new_note};
use sarif_counts::Impact;
use std::test::Fail;

#[test]
fn hits_of_a_failing_condition_stop_the_change(rt: HostRuntime) -> Result<(), Fail> {
    let conditions = r#"{"name":"one","only":[{"ruleId":"R1"}],"max":1},
        {"name":"two","only":[{"ruleId":"R2"},{"ruleId":"R3"}]}"#;
    let results = [new_error("R1"), new_note("R2"), new_error("R3")];
    let decided = decided_of(rt.alloc(), conditions, &results)?;
    let wanted = [Some(Impact::Hit), Some(Impact::None), Some(Impact::Stops)];
    assert_eq!(rt; decided.impacts.as_slice(), wanted.as_slice());
    assert_eq!(rt; decided.facts.hits, 2);
    assert_eq!(rt; decided.facts.reported, 3);
    Ok(())
}

#[test]
fn a_hit_of_one_that_passes_and_one_that_fails_stops(rt: HostRuntime) -> Result<(), Fail> {
    let conditions = r#"{"name":"one"},{"name":"two","max":1}"#;
    let decided = decided_of(rt.alloc(), conditions, &[new_error("R1")])?;
    let wanted = [Some(Impact::Stops)];
    assert_eq!(rt; decided.impacts.as_slice(), wanted.as_slice());
    Ok(())
}

#[test]
fn what_no_condition_reports_does_nothing(rt: HostRuntime) -> Result<(), Fail> {
    let condition = r#"{"name":"c","only":[{"ruleId":"R1"}]}"#;
    let results = [
        new_error("R2"),
        gone_error("R1"),
        Told {
            suppressed: true,
            ..new_error("R1")
        },
    ];
    let decided = decided_of(rt.alloc(), condition, &results)?;
    let wanted = [None, None, None];
    assert_eq!(rt; decided.impacts.as_slice(), wanted.as_slice());
    assert_eq!(rt; decided.facts.reported, 0);
    Ok(())
}
