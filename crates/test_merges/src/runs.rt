//! Runs in few words, and logs of them.
use std::alloc::{AllocError, Global};
use std::test::Fail;

/// The JSON of the result with this name: in a log, or as a merge writes it in a state.
fn result_named(name: &str) -> Option<&'static str> {
    match name {
        "M" => Some(r#"{"message":{"text":"m"}}"#),
        "A" => Some(r#"{"message":{"text":"m"},"ruleId":"R1"}"#),
        "E" => Some(r#"{"level":"error","message":{"text":"m"},"ruleId":"R1"}"#),
        "A_NEW" => Some(concat!(
            r#"{"baselineState":"new","level":"warning","message":{"text":"m"},"#,
            r#""ruleId":"R1","suppressions":[]}"#
        )),
        "A_UNCHANGED" => Some(concat!(
            r#"{"baselineState":"unchanged","level":"warning","message":{"text":"m"},"#,
            r#""ruleId":"R1","suppressions":[]}"#
        )),
        "A_ABSENT" => Some(concat!(
            r#"{"baselineState":"absent","level":"warning","message":{"text":"m"},"#,
            r#""ruleId":"R1","suppressions":[]}"#
        )),
        _ => result_at_line(name),
    }
}

/// The JSON of a result with a region: H is at line 314 of `h.c`, and B at line 1 of `b.c`.
fn result_at_line(name: &str) -> Option<&'static str> {
    match name {
        "H" => Some(concat!(
            r#"{"locations":[{"physicalLocation":{"artifactLocation":{"uri":"h.c"},"#,
            r#""region":{"startLine":314}}}],"message":{"text":"m"}}"#
        )),
        "B" => Some(concat!(
            r#"{"locations":[{"physicalLocation":{"artifactLocation":{"uri":"b.c"},"#,
            r#""region":{"startLine":1}}}],"message":{"text":"m"}}"#
        )),
        "H_NEW" => Some(concat!(
            r#"{"baselineState":"new","level":"warning","locations":[{"physicalLocation":{"#,
            r#""artifactLocation":{"uri":"h.c"},"region":{"startLine":314}}}],"#,
            r#""message":{"text":"m"},"suppressions":[]}"#
        )),
        "H_UNCHANGED" => Some(concat!(
            r#"{"baselineState":"unchanged","level":"warning","locations":[{"physicalLocation":{"#,
            r#""artifactLocation":{"uri":"h.c"},"region":{"startLine":314}}}],"#,
            r#""message":{"text":"m"},"suppressions":[]}"#
        )),
        "H_ABSENT" => Some(concat!(
            r#"{"baselineState":"absent","level":"warning","locations":[{"physicalLocation":{"#,
            r#""artifactLocation":{"uri":"h.c"},"region":{"startLine":314}}}],"#,
            r#""message":{"text":"m"},"suppressions":[]}"#
        )),
        "B_NEW" => Some(concat!(
            r#"{"baselineState":"new","level":"warning","locations":[{"physicalLocation":{"#,
            r#""artifactLocation":{"uri":"b.c"},"region":{"startLine":1}}}],"#,
            r#""message":{"text":"m"},"suppressions":[]}"#
        )),
        _ => None,
    }
}

fn push_result(text: &mut String, name: &str) -> Result<(), AllocError> {
    match result_named(name) {
        Some(result) => text.push_str(result),
        None => text.push_str(name),
    }
}

fn push_results(text: &mut String, names: &str) -> Result<(), AllocError> {
    let mut is_first = true;
    for name in names.split(' ') {
        if name.is_empty() {
            continue;
        }
        if !is_first {
            text.push_str(",")?;
        }
        is_first = false;
        push_result(text, name)?;
    }
    Ok(())
}

fn push_run(text: &mut String, run: &str) -> Result<(), Fail> {
    let (tool, names) = run.split_once(": ").ok_or("no tool")?;
    text.push_str(r#"{"results":["#)?;
    push_results(text, names)?;
    text.push_str(r#"],"tool":{"driver":{"name":""#)?;
    text.push_str(tool)?;
    text.push_str(r#""}}}"#)?;
    Ok(())
}

/// The runs as they are in a log, their members in the order in which they are written.
pub fn json_of_runs(alloc: Global, runs: &str) -> Result<String, Fail> {
    let mut text = String::from_str(alloc, "[")?;
    let mut is_first = true;
    for run in runs.split("; ") {
        if !is_first {
            text.push_str(",")?;
        }
        is_first = false;
        push_run(&mut text, run)?;
    }
    text.push_str("]")?;
    Ok(text)
}

/// The log with these runs, given as JSON.
pub fn log_with(alloc: Global, runs: &str) -> Result<String, AllocError> {
    format!(in alloc; "{{\"version\":\"2.1.0\",\"runs\":{runs}}}")
}

/// The log with these runs.
pub fn log_of(alloc: Global, runs: &str) -> Result<String, Fail> {
    let runs = json_of_runs(alloc, runs)?;
    let log = log_with(alloc, runs.as_str())?;
    Ok(log)
}
