//! Conditions with a minimum of the security severity.
use crate::told::{Told, decided_of, new_error};
use std::test::Fail;

/// What a result says, and whether it is a hit of a condition with the minimum 7.0 if results without a rating count,
/// and if they are skipped.
const RATED: [(Option<&str>, u32, u32); 6] = [
    (Some("7.0"), 1, 1),
    (Some("10.0"), 1, 1),
    (Some("6.9"), 0, 0),
    (Some("0.7"), 0, 0),
    (Some("high"), 1, 1),
    (None, 1, 0),
];

#[test]
fn hits_have_a_rating_that_meets_the_minimum(rt: HostRuntime) -> Result<(), Fail> {
    let alloc = rt.alloc();
    let counting = r#"{"name":"c","minSecuritySeverity":"7.0"}"#;
    let skipping = r#"{"name":"c","minSecuritySeverity":"7.0","unrated":"skip"}"#;
    for (severity, counted, skipped) in RATED {
        let results = [Told {
            severity,
            ..new_error("R1")
        }];
        assert_eq!(rt; decided_of(alloc, counting, &results)?.facts.hits, counted);
        assert_eq!(rt; decided_of(alloc, skipping, &results)?.facts.hits, skipped);
    }
    Ok(())
}

#[test]
fn results_with_a_lower_rating_are_checked_and_reported(rt: HostRuntime) -> Result<(), Fail> {
    let condition = r#"{"name":"c","minSecuritySeverity":"7.0"}"#;
    let results = [Told {
        severity: Some("6.9"),
        ..new_error("R1")
    }];
    let decided = decided_of(rt.alloc(), condition, &results)?;
    assert_eq!(rt; decided.facts.reported, 1);
    assert_eq!(rt; decided.facts.unchecked, 0);
    Ok(())
}
