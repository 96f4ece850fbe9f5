//! Conditions with filters, results that no condition checks, and filters that match nothing.
use crate::told::{Told, decided_of, gone_error, new_error};
use std::test::Fail;

/// Errors of three rules; the second has a message.
fn three_errors() -> [Told<'static>; 3] {
    [
        new_error("R1"),
        Told {
            message: Some("R2"),
            ..new_error("R2")
        },
        new_error("R3"),
    ]
}

/// Members of a condition, and of those errors its hits and how many it doesn't check, and how many of its filters are
/// unused.
const FILTERED: [(&str, u32, u32, u32); 6] = [
    ("", 3, 0, 0),
    (r#","only":[{"ruleId":"R1"},{"ruleId":"R2"}]"#, 2, 1, 0),
    (r#","only":[{"ruleId":"R1","message":"R2"}]"#, 0, 3, 1),
    (
        r#","except":[{"ruleId":"R1"},{"message":"R2"},{"tool":"b"}]"#,
        1,
        2,
        1,
    ),
    (
        r#","only":[{"ruleId":"R1"},{"ruleId":"R2"}],"except":[{"ruleId":"R2"}]"#,
        1,
        2,
        0,
    ),
    (
        r#","only":[{"ruleId":"R4"}],"except":[{"ruleId":"R5"}]"#,
        0,
        3,
        2,
    ),
];

#[test]
fn filters_choose_what_a_condition_checks(rt: HostRuntime) -> Result<(), Fail> {
    let alloc = rt.alloc();
    let results = three_errors();
    for (members, hits, unchecked, unused) in FILTERED {
        let condition = format!(in alloc; "{{\"name\":\"c\"{members}}}")?;
        let decided = decided_of(alloc, condition.as_str(), &results)?;
        assert_eq!(rt; decided.facts.hits, hits);
        assert_eq!(rt; decided.facts.unchecked, unchecked);
        assert_eq!(rt; decided.facts.unused_filters, unused);
    }
    Ok(())
}

/// Eight filters that match none of these errors.
const OTHERS: &str = concat!(
    r#"{"ruleId":"S1"},{"uri":"S2"},{"message":"S3"},{"uriPrefix":"S4"},"#,
    r#"{"fingerprints":{"f":"S5"}},{"tool":"S6"},{"partialFingerprints":{"f":"S7"}},"#,
    r#"{"guid":"0f14d0ab-9605-4a62-a9e4-5ed26688389b"}"#
);

/// Lists of filters, and of the errors and an absent one the hits of a condition with that `only`, those of one with that
/// `except`, and how many of the filters are unused.
const FILED: [(&str, u32, u32, u32); 4] = [
    (r#"{"ruleId":"R1"}"#, 1, 2, 0),
    (r#"{"ruleId":"R1"},{"message":"R2"}"#, 2, 1, 0),
    (r#"{"ruleId":"R1","message":"R2"},{"tool":"lint"}"#, 3, 0, 1),
    (r#"{"ruleId":"R4"},{"ruleId":"R3"}"#, 1, 2, 1),
];

#[test]
fn many_filters_choose_what_few_would(rt: HostRuntime) -> Result<(), Fail> {
    let alloc = rt.alloc();
    let [one, two, three] = three_errors();
    let results = [one, two, three, gone_error("R4")];
    for (filters, only, except, unused) in FILED {
        for (name, hits) in [("only", only), ("except", except)] {
            let list = format!(in alloc; "[{filters},{OTHERS}]")?;
            let condition = format!(in alloc; "{{\"name\":\"c\",\"{name}\":{list}}}")?;
            let decided = decided_of(alloc, condition.as_str(), &results)?;
            assert_eq!(rt; decided.facts.hits, hits);
            assert_eq!(rt; decided.facts.unused_filters, unused + 8);
        }
    }
    Ok(())
}

#[test]
fn filters_of_all_conditions_are_counted(rt: HostRuntime) -> Result<(), Fail> {
    let conditions = r#"{"name":"a","only":[{"ruleId":"R1"},{"ruleId":"R4"}]},
        {"name":"b","only":[{"ruleId":"R5"}],"except":[{"ruleId":"R1"},{"ruleId":"R4"}]}"#;
    let decided = decided_of(rt.alloc(), conditions, &three_errors())?;
    assert_eq!(rt; decided.facts.unused_filters, 3);
    assert_eq!(rt; decided.facts.unchecked, 2);
    Ok(())
}

#[test]
fn an_absent_result_uses_no_filter_and_is_not_unchecked(rt: HostRuntime) -> Result<(), Fail> {
    let condition = r#"{"name":"c","only":[{"ruleId":"R1"}]}"#;
    let results = [gone_error("R1"), gone_error("R2")];
    let decided = decided_of(rt.alloc(), condition, &results)?;
    assert_eq!(rt; decided.facts.unused_filters, 1);
    assert_eq!(rt; decided.facts.unchecked, 0);
    Ok(())
}

#[test]
fn a_suppressed_result_uses_a_filter_and_is_not_unchecked(rt: HostRuntime) -> Result<(), Fail> {
    let condition = r#"{"name":"c","only":[{"ruleId":"R1"}]}"#;
    let results = [
        Told {
            suppressed: true,
            ..new_error("R1")
        },
        Told {
            suppressed: true,
            ..new_error("R2")
        },
    ];
    let decided = decided_of(rt.alloc(), condition, &results)?;
    assert_eq!(rt; decided.facts.unused_filters, 0);
    assert_eq!(rt; decided.facts.unchecked, 0);
    assert_eq!(rt; decided.facts.hits, 0);
    Ok(())
}
