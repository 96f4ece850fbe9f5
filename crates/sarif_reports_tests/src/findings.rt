//! Findings of logs that a merge rejects.
use sarif_findings::{Finding, Reporting, Show, findings_in_log};
use sarif_model::Sequence;
use sarif_options::Policy;
use serde_json::Value;
use std::alloc::Global;
use std::test::Fail;

/// The findings of this log under the default policy.
fn findings_of(alloc: Global, log: &str) -> Result<Vec<Finding>, Fail> {
    let reporting = Reporting {
        policy: Policy::default(),
        show: Show::All,
        roots: Sequence::new(alloc),
    };
    let log = Value::from_str(alloc, log)?;
    Ok(findings_in_log(alloc, &reporting, &log)?)
}

/// Each log has a note whose message has an argument that isn't a string.
const NOTES: [(&str, &str); 2] = [
    (
        r#"{"runs":[{"results":[{"baselineState":"new","level":"note","message":{"arguments":[7],"text":"[here]({0})"}}]}]}"#,
        "[here]({0})",
    ),
    (
        r#"{"runs":[{"results":[{"baselineState":"new","level":"note","message":{"arguments":[7,"b"],"text":"{0}}}} {1}}}"}}]}]}"#,
        "{0}}} b}",
    ),
];

#[test]
fn an_argument_that_is_no_string_leaves_its_placeholder(rt: HostRuntime) -> Result<(), Fail> {
    for (log, wanted) in NOTES {
        let findings = findings_of(rt.alloc(), log)?;
        assert_eq!(rt; findings.len(), 1);
        assert_eq!(rt; findings[0].message.as_str(), wanted);
    }
    Ok(())
}

#[test]
fn nothing_is_reported_of_what_is_no_log(rt: HostRuntime) -> Result<(), Fail> {
    for text in ["null", "[]", "{\"runs\":{}}", "{\"runs\":[1,{}]}"] {
        assert_eq!(rt; findings_of(rt.alloc(), text)?.len(), 0);
    }
    Ok(())
}
