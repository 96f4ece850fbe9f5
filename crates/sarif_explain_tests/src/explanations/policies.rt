//! Errors of policies.
use super::check;
use sarif_model::{At, Cause, Fault, Source};
use std::alloc::Global;
use std::process::Abort;
use std::test::Fail;

const FILE: At = At::Whole(Source::Policy);

/// That this is the explanation of that error.
fn explains(
    rt: &impl Abort,
    alloc: Global,
    at: At,
    fault: Fault,
    text: &str,
    wanted: &str,
) -> Result<(), Fail> {
    check(rt, alloc, at, Cause::Of(fault), text, wanted)
}

#[test]
fn a_policy_is_one_object_of_its_version(rt: HostRuntime) -> Result<(), Fail> {
    for (fault, text, wanted) in [
        (
            Fault::NotJson,
            "",
            r#"  file: found.sarif
  line: 1
  column: 0
  found: an empty file
  wanted: JSON in UTF-8, nested at most 127 deep
  advice: fix the file there; a policy is one JSON object in UTF-8
"#,
        ),
        (
            Fault::NotPolicy,
            "[]",
            r#"  file: found.sarif
  where: 
  found: []
  wanted: an object with an array conditions
  advice: check that you passed the right file; a policy has an array conditions
"#,
        ),
        (
            Fault::NotPolicy,
            r#"{"conditions":[],"max":0}"#,
            r#"  file: found.sarif
  where: /max
  found: 0
  wanted: only the members version, conditions and $schema
  advice: check that you passed the right file; a policy has an array conditions
"#,
        ),
        (
            Fault::NotPolicy,
            r#"{"version":1}"#,
            r#"  file: found.sarif
  where: 
  found: nothing
  wanted: the member conditions, an array
  advice: check that you passed the right file; a policy has an array conditions
"#,
        ),
        (
            Fault::NotPolicy,
            r#"{"version":4,"suppressions":[]}"#,
            r#"  file: found.sarif
  where: /suppressions
  found: []
  wanted: only the members version, conditions and $schema
  advice: this is a suppression file; pass it with --suppress
"#,
        ),
    ] {
        explains(&rt, rt.alloc(), FILE, fault, text, wanted)?;
    }
    Ok(())
}

#[test]
fn a_policy_has_a_version_and_some_conditions(rt: HostRuntime) -> Result<(), Fail> {
    for (fault, text, wanted) in [
        (
            Fault::WrongVersion,
            r#"{"version":1.0,"conditions":[]}"#,
            r#"  file: found.sarif
  where: /version
  found: 1.0
  wanted: the integer 1, written without a fraction
  advice: write the file in version 1, with "version": 1
"#,
        ),
        (
            Fault::WrongVersion,
            r#"{"conditions":[]}"#,
            r#"  file: found.sarif
  where: 
  found: nothing
  wanted: the member version, the integer 1, written without a fraction
  advice: add "version": 1 to the file
"#,
        ),
        (
            Fault::NoCondition,
            r#"{"version":1,"conditions":[]}"#,
            r#"  file: found.sarif
  where: /conditions
  found: []
  wanted: at least one condition
  advice: add a condition; without one, the gate would always pass
"#,
        ),
        (
            Fault::TooMany,
            r#"{"version":1,"conditions":[]}"#,
            r#"  file: found.sarif
  where: /conditions
  found: []
  wanted: at most 100 conditions
  advice: write fewer conditions: one condition may have many filters
"#,
        ),
    ] {
        explains(&rt, rt.alloc(), FILE, fault, text, wanted)?;
    }
    Ok(())
}

/// A condition that is wrong, where it is wrong, what is found there, and what is expected.
const BAD: [[&str; 4]; 15] = [
    ["5", "/conditions/1", "5", "an object with a name"],
    [
        r#"{"name":"b","Level":"note"}"#,
        "/conditions/1/Level",
        r#""note""#,
        "only the members name, level, states, max, ratchet, only, except, minSecuritySeverity, unrated and diff",
    ],
    [
        r#"{"level":"note"}"#,
        "/conditions/1",
        "nothing",
        "the member name, a string of 1 to 50 of the characters A-Z a-z 0-9 . _ - and space, without a space at its beginning or end",
    ],
    [
        r#"{"name":"b "}"#,
        "/conditions/1/name",
        r#""b ""#,
        "a string of 1 to 50 of the characters A-Z a-z 0-9 . _ - and space, without a space at its beginning or end",
    ],
    [
        r#"{"name":"b","level":"high"}"#,
        "/conditions/1/level",
        r#""high""#,
        "error, warning, note or none",
    ],
    [
        r#"{"name":"b","states":["new","new"]}"#,
        "/conditions/1/states",
        r#"["new","new"]"#,
        "an array of one or more of new, updated, unchanged and absent, each once",
    ],
    [
        r#"{"name":"b","states":[]}"#,
        "/conditions/1/states",
        "[]",
        "an array of one or more of new, updated, unchanged and absent, each once",
    ],
    [
        r#"{"name":"b","max":1.0}"#,
        "/conditions/1/max",
        "1.0",
        "an integer from 0 to 4294967295",
    ],
    [
        r#"{"name":"b","ratchet":1}"#,
        "/conditions/1/ratchet",
        "1",
        "true or false",
    ],
    [
        r#"{"name":"b","only":[]}"#,
        "/conditions/1/only",
        "[]",
        "an array of 1 to 1000 filters",
    ],
    [
        r#"{"name":"b","minSecuritySeverity":"7."}"#,
        "/conditions/1/minSecuritySeverity",
        r#""7.""#,
        "a string of digits, or of digits, a dot and digits, for example 7.0",
    ],
    [
        r#"{"name":"b","minSecuritySeverity":"7.0","unrated":"drop"}"#,
        "/conditions/1/unrated",
        r#""drop""#,
        "count or skip",
    ],
    [
        r#"{"name":"b","unrated":"skip"}"#,
        "/conditions/1",
        "nothing",
        "the member minSecuritySeverity, a string of digits, or of digits, a dot and digits, for example 7.0",
    ],
    [
        r#"{"name":"b","diff":"line"}"#,
        "/conditions/1/diff",
        r#""line""#,
        "lines or files",
    ],
    [
        r#"{"name":"b","ratchet":true,"diff":"files"}"#,
        "/conditions/1",
        r#"{"diff":"files","name":"b","ratchet":true}"#,
        "at most one of a ratchet, a diff and the state absent",
    ],
];

#[test]
fn a_condition_has_members_of_their_types(rt: HostRuntime) -> Result<(), Fail> {
    for [condition, place, found, wanted] in &BAD {
        let text = format!(in rt.alloc();
            "{{\"version\":1,\"conditions\":[{{\"name\":\"a\",\"max\":null}},{condition}]}}"
        )?;
        let lines = format!(in rt.alloc();
            "  file: found.sarif\n  where: {place}\n  found: {found}\n  wanted: {wanted}\n  \
             advice: fix the condition, or validate the file against its JSON Schema\n"
        )?;
        let at = At::Condition(1);
        let (text, lines) = (text.as_str(), lines.as_str());
        explains(&rt, rt.alloc(), at, Fault::BadCondition, text, lines)?;
    }
    Ok(())
}

#[test]
fn conditions_have_names_of_their_own_and_the_diff_that_they_need(
    rt: HostRuntime,
) -> Result<(), Fail> {
    let text = r#"{"version":1,"conditions":[{"name":"a"},{"name":"a","diff":"lines"}]}"#;
    for (fault, wanted) in [
        (
            Fault::SameName,
            r#"  file: found.sarif
  where: /conditions/1/name
  found: "a"
  wanted: a name that no earlier condition has
  advice: give each condition its own name
"#,
        ),
        (
            Fault::NeedsDiff,
            r#"  file: found.sarif
  where: /conditions/1/diff
  found: "lines"
  wanted: a diff of the change, since the condition has a scope
  advice: pass the diff of the change with --diff, or remove diff from the condition
"#,
        ),
    ] {
        explains(&rt, rt.alloc(), At::Condition(1), fault, text, wanted)?;
    }
    Ok(())
}

#[test]
fn a_filter_has_the_conditions_of_an_entry(rt: HostRuntime) -> Result<(), Fail> {
    let text =
        r#"{"version":1,"conditions":[{"name":"a","only":[{"tool":5},7],"except":[{},{"expires":20270101}]}]}"#;
    for (at, fault, wanted) in [
        (
            At::Only(0, 0),
            Fault::BadFilter,
            r#"  file: found.sarif
  where: /conditions/0/only/0/tool
  found: 5
  wanted: a string
  advice: fix the filter, or validate the file against its JSON Schema
"#,
        ),
        (
            At::Only(0, 1),
            Fault::BadFilter,
            r#"  file: found.sarif
  where: /conditions/0/only/1
  found: 7
  wanted: an object
  advice: fix the filter, or validate the file against its JSON Schema
"#,
        ),
        (
            At::Except(0, 0),
            Fault::EmptyFilter,
            r#"  file: found.sarif
  where: /conditions/0/except/0
  found: {}
  wanted: at least one of tool, ruleId, uri, uriPrefix, guid, fingerprints, partialFingerprints, message, messageId, messageArguments and snippet
  advice: add a member; without one, the filter would match every result
"#,
        ),
        (
            At::Except(0, 1),
            Fault::BadFilter,
            r#"  file: found.sarif
  where: /conditions/0/except/1/expires
  found: 20270101
  wanted: only the members tool, ruleId, uri, uriPrefix, guid, fingerprints, partialFingerprints, message, messageId, messageArguments and snippet
  advice: fix the filter, or validate the file against its JSON Schema
"#,
        ),
    ] {
        explains(&rt, rt.alloc(), at, fault, text, wanted)?;
    }
    Ok(())
}

#[test]
fn a_policy_passed_as_a_log_is_known(rt: HostRuntime) -> Result<(), Fail> {
    let text = r#"{"version":1,"conditions":[{"name":"a"}]}"#;
    let wanted = r#"  file: found.sarif
  where: 
  found: nothing
  wanted: the member runs, an array of runs, or null
  advice: this is a policy; pass it with --policy
"#;
    let at = At::Whole(Source::Log(0));
    explains(&rt, rt.alloc(), at, Fault::NotLog, text, wanted)
}
