//! Marking the results of a log with two runs.
use crate::marked::{Marking, read_marks};
use sarif_change::Scope;
use std::test::Fail;

/// A log of two runs with three results each. Those of the second run name their files by the index of an artifact.
const LOG: &str = r#"{"version":"2.1.0","runs":[{"results":[
    {"locations":[{"physicalLocation":{"artifactLocation":{"uri":"a.c"},"region":{"startLine":2}}}]},
    {"locations":[{"physicalLocation":{"artifactLocation":{"uri":"a.c"},"region":{"startLine":3}}}]},
    {"locations":[{"physicalLocation":{"artifactLocation":{"uri":"b.c"},"region":{"startLine":2}}}]}
    ],"tool":{"driver":{"name":"one"}}},{"results":[
    {"locations":[{"physicalLocation":{"artifactLocation":{"index":1},"region":{"startLine":2}}}]},
    {"locations":[{"physicalLocation":{"artifactLocation":{"index":0},"region":{"startLine":2}}}]},
    {"locations":[{"physicalLocation":{"artifactLocation":{"index":1},"region":{"startLine":3}}}]}
    ],"artifacts":[{"location":{"uri":"b.c"}},{"location":{"uri":"a.c"}}],"tool":{"driver":{"name":"two"}}}]}"#;

/// All results but the third.
const ASKED: [bool; 6] = [true, true, false, true, true, true];

#[test]
fn requested_results_outside_are_marked(rt: HostRuntime) -> Result<(), Fail> {
    let marks = read_marks(
        &rt,
        &Marking {
            log: LOG,
            asked: &ASKED,
            scope: None,
        },
    )?;
    let wanted = [false, true, false, false, true, true];
    assert_eq!(rt; marks.as_slice(), wanted.as_slice());
    Ok(())
}

#[test]
fn results_in_a_changed_file_are_not_marked_in_the_scope_of_files(
    rt: HostRuntime,
) -> Result<(), Fail> {
    let marks = read_marks(
        &rt,
        &Marking {
            log: LOG,
            asked: &ASKED,
            scope: Some(Scope::Files),
        },
    )?;
    let wanted = [false, false, false, false, true, false];
    assert_eq!(rt; marks.as_slice(), wanted.as_slice());
    Ok(())
}
