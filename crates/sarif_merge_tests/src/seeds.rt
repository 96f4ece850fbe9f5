//! The merged log has the same bytes for any seed of the tables.
use std::alloc::{AllocError, Global};
use std::test::Fail;
use test_merges::{Bytes, ExpectedCounts, Given, NOTHING, beside, expect_log};

/// Pushes the members of a result, by whose number its rule, artifact and fingerprint differ.
fn push_members(text: &mut String, alloc: Global, number: u32) -> Result<(), AllocError> {
    let members = format!(in alloc;
        "\"fingerprints\":{{\"f{number}/v1\":\"x\"}},\"level\":\"warning\",\"locations\":[{{\
        \"physicalLocation\":{{\"artifactLocation\":{{\"uri\":\"{number}.c\"}}}}}}],\
        \"message\":{{\"text\":\"m\"}},\"ruleId\":\"R{number}\""
    )?;
    text.push_str(members.as_str())
}

/// Adds a result as it is in a log.
fn push_result(text: &mut String, alloc: Global, number: u32) -> Result<(), AllocError> {
    text.push_str(" {")?;
    push_members(text, alloc, number)?;
    text.push_str("}")
}

/// Pushes a result as it is written, with this state and these suppressions.
fn push_written(
    text: &mut String,
    alloc: Global,
    number: u32,
    state: &str,
    suppressions: &str,
) -> Result<(), AllocError> {
    let front = format!(in alloc; " {{\"baselineState\":\"{state}\",")?;
    let back = format!(in alloc; ",\"suppressions\":[{suppressions}]}}")?;
    text.push_str(front.as_str())?;
    push_members(text, alloc, number)?;
    text.push_str(back.as_str())
}

/// A log with results 0 to 29, a baseline with 39 down to 10, and a suppression file that names the
/// rule of 3, the artifact of 5, the fingerprint of 8 and a rule of none.
fn given_rows(alloc: Global) -> Result<Given, Fail> {
    let mut now = String::from_str(alloc, "lint:")?;
    for number in 0..30 {
        push_result(&mut now, alloc, number)?;
    }
    let mut before = String::from_str(alloc, "lint:")?;
    for number in (10..40).rev() {
        push_result(&mut before, alloc, number)?;
    }
    let mut given = beside(alloc, now.as_str(), before.as_str())?;
    let entries = concat!(
        r#"{"ruleId":"R3"},{"uri":"5.c"},"#,
        r#"{"fingerprints":{"f8/v1":"x"}},{"ruleId":"NOPE"}"#
    );
    given.entries(alloc, 1, entries)?;
    Ok(given)
}

const ACCEPTED: &str = r#"{"kind":"external","status":"accepted"}"#;

/// Their merge: 0 to 9 are new, 10 to 29 unchanged, and 39 down to 30 absent.
fn written_rows(alloc: Global) -> Result<String, AllocError> {
    let mut text = String::from_str(alloc, "lint:")?;
    for number in 0..30 {
        let state = if number < 10 { "new" } else { "unchanged" };
        let is_named = matches!(number, 3 | 5 | 8);
        let suppressions = if is_named { ACCEPTED } else { "" };
        push_written(&mut text, alloc, number, state, suppressions)?;
    }
    text.push_str("; lint:")?;
    for number in (30..40).rev() {
        push_written(&mut text, alloc, number, "absent", "")?;
    }
    Ok(text)
}

#[test]
fn the_log_is_the_same_for_all_seeds(rt: HostRuntime) -> Result<(), Fail> {
    let mut given = given_rows(rt.alloc())?;
    let wanted = ExpectedCounts {
        absent: "0,10,0,0",
        new: "0,7,0,0",
        suppressed: "0,3,0,0",
        unchanged: "0,20,0,0",
        unused: 1,
        ..NOTHING
    };
    let runs = written_rows(rt.alloc())?;
    for (first, step) in [(0, 0), (0, 1), (255, 0), (90, 165), (7, 31)] {
        given.bytes = Bytes { first, step };
        expect_log(&rt, &given, wanted, runs.as_str())?;
    }
    Ok(())
}
