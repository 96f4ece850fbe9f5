//! Errors of results.
use super::check;
use sarif_model::{At, Cause, Fault, Source};
use std::alloc::Global;
use std::process::Abort;
use std::test::Fail;

/// That this is explained of a result of a run without rules, artifacts and invocations.
fn check_result(
    rt: &impl Abort,
    alloc: Global,
    cause: Cause,
    result_text: &str,
    wanted: &str,
) -> Result<(), Fail> {
    let at = At::Single(Source::Baseline(0), 1, 0);
    let log = format!(in alloc;
        "{{\"version\":\"2.1.0\",\"runs\":[{{}},\
         {{\"tool\":{{\"driver\":{{\"name\":\"t\"}}}},\"results\":[{result_text}]}}]}}"
    )?;
    check(rt, alloc, at, cause, log.as_str(), wanted)
}

#[test]
fn a_guid_is_told_at_its_result(rt: HostRuntime) -> Result<(), Fail> {
    let text =
        r#"{"version":"2.1.0","runs":[{"tool":{"driver":{"name":"t"}},"results":[{},{},{},{},{},{},{},{"correlationGuid":"x"}]}]}"#;
    let wanted = r#"  file: found.sarif
  where: /runs/0/results/7/correlationGuid
  found: "x"
  wanted: a GUID, for example 0f14d0ab-9605-4a62-a9e4-5ed26688389b
  advice: report it to the developers of the analyser, or fix or drop the member before the merge
"#;
    let at = At::Single(Source::Log(0), 0, 7);
    check(&rt, rt.alloc(), at, Cause::Of(Fault::BadGuid), text, wanted)
}

#[test]
fn state_kind_and_level_are_of_their_texts(rt: HostRuntime) -> Result<(), Fail> {
    for (cause, text, wanted) in [
        (
            Cause::Of(Fault::AbsentInput),
            r#"{"baselineState":"absent"}"#,
            r#"  file: found.sarif
  where: /runs/1/results/0/baselineState
  found: "absent"
  wanted: no baselineState, or one other than absent: a log may contain only current results
  advice: pass the file with --baseline, or merge the analyser's own log instead
"#,
        ),
        (
            Cause::Of(Fault::BadKind),
            r#"{"kind":"bad"}"#,
            r#"  file: found.sarif
  where: /runs/1/results/0/kind
  found: "bad"
  wanted: pass, open, informational, notApplicable, review or fail
  advice: report it to the developers of the analyser, or fix or drop the member before the merge
"#,
        ),
        (
            Cause::Of(Fault::BadLevel),
            r#"{"level":["error"]}"#,
            r#"  file: found.sarif
  where: /runs/1/results/0/level
  found: ["error"]
  wanted: error, warning, note or none
  advice: report it to the developers of the analyser, or fix or drop the member before the merge
"#,
        ),
    ] {
        check_result(&rt, rt.alloc(), cause, text, wanted)?;
    }
    Ok(())
}

#[test]
fn fingerprints_are_told_by_their_names(rt: HostRuntime) -> Result<(), Fail> {
    for (text, wanted) in [
        (
            r#"{"fingerprints":{"a":"x","b/c~d":1,"e":null}}"#,
            r#"  file: found.sarif
  where: /runs/1/results/0/fingerprints/b~1c~0d
  found: 1
  wanted: a string or null
  advice: report it to the developers of the analyser, or fix or drop the member before the merge
"#,
        ),
        (
            r#"{"fingerprints":{"a":null},"partialFingerprints":["x"]}"#,
            r#"  file: found.sarif
  where: /runs/1/results/0/partialFingerprints
  found: ["x"]
  wanted: an object whose members are strings or null
  advice: report it to the developers of the analyser, or fix or drop the member before the merge
"#,
        ),
    ] {
        check_result(
            &rt,
            rt.alloc(),
            Cause::Of(Fault::BadFingerprint),
            text,
            wanted,
        )?;
    }
    Ok(())
}

#[test]
fn suppressions_have_a_kind_and_a_status(rt: HostRuntime) -> Result<(), Fail> {
    for (text, wanted) in [
        (
            r#"{"suppressions":[null]}"#,
            r#"  file: found.sarif
  where: /runs/1/results/0/suppressions/0
  found: null
  wanted: an object
  advice: report it to the developers of the analyser, or fix or drop the member before the merge
"#,
        ),
        (
            r#"{"suppressions":[{"kind":"inSource"},{}]}"#,
            r#"  file: found.sarif
  where: /runs/1/results/0/suppressions/1
  found: nothing
  wanted: the member kind, inSource or external
  advice: report it to the developers of the analyser, or fix or drop the member before the merge
"#,
        ),
        (
            r#"{"suppressions":[{"kind":"external","status":"new"}]}"#,
            r#"  file: found.sarif
  where: /runs/1/results/0/suppressions/0/status
  found: "new"
  wanted: accepted, underReview or rejected
  advice: report it to the developers of the analyser, or fix or drop the member before the merge
"#,
        ),
    ] {
        check_result(
            &rt,
            rt.alloc(),
            Cause::Of(Fault::BadSuppression),
            text,
            wanted,
        )?;
    }
    Ok(())
}

#[test]
fn message_rule_and_provenance_are_of_their_kinds(rt: HostRuntime) -> Result<(), Fail> {
    for (text, wanted) in [
        (
            r#"{"message":{"arguments":["a",null]}}"#,
            r#"  file: found.sarif
  where: /runs/1/results/0/message/arguments/1
  found: null
  wanted: a string
  advice: report it to the developers of the analyser, or fix or drop the member before the merge
"#,
        ),
        (
            r#"{"ruleId":1.5,"rule":{"toolComponent":0}}"#,
            r#"  file: found.sarif
  where: /runs/1/results/0/rule/toolComponent
  found: 0
  wanted: an object
  advice: report it to the developers of the analyser, or fix or drop the member before the merge
"#,
        ),
        (
            r#"{"provenance":"0123456789012345678901234567890123456789012345678901234567890123456789012345678"}"#,
            r#"  file: found.sarif
  where: /runs/1/results/0/provenance
  found: "0123456789012345678901234567890123456789012345678901234567890123456789012345678...
  wanted: an object
  advice: report it to the developers of the analyser, or fix or drop the member before the merge
"#,
        ),
        (
            r#"{"provenance":"\u202e23456789012345678901234567890123456789012345678901234567890123456789012345678"}"#,
            r#"  file: found.sarif
  where: /runs/1/results/0/provenance
  found: " 23456789012345678901234567890123456789012345678901234567890123456789012345678"
  wanted: an object
  advice: report it to the developers of the analyser, or fix or drop the member before the merge
"#,
        ),
    ] {
        check_result(&rt, rt.alloc(), Cause::Of(Fault::BadMember), text, wanted)?;
    }
    Ok(())
}

#[test]
fn indexes_are_whole_numbers_within_their_tables(rt: HostRuntime) -> Result<(), Fail> {
    for (text, wanted) in [
        (
            r#"{"ruleIndex":4294967296}"#,
            r#"  file: found.sarif
  where: /runs/1/results/0/ruleIndex
  found: 4294967296
  wanted: an integer from -1 to 4294967295
  advice: report it to the developers of the analyser, or fix or drop the member before the merge
"#,
        ),
        (
            r#"{"rule":{"index":-1},"ruleIndex":0}"#,
            r#"  file: found.sarif
  where: /runs/1/results/0/ruleIndex
  found: 0
  wanted: the index of one of the rules of the component, or -1
  advice: report it to the developers of the analyser, or fix or drop the member before the merge
"#,
        ),
        (
            r#"{"rule":{"toolComponent":{"index":2}}}"#,
            r#"  file: found.sarif
  where: /runs/1/results/0/rule/toolComponent/index
  found: 2
  wanted: the index of one of the extensions of the tool, or -1
  advice: report it to the developers of the analyser, or fix or drop the member before the merge
"#,
        ),
        (
            r#"{"provenance":{"invocationIndex":0}}"#,
            r#"  file: found.sarif
  where: /runs/1/results/0/provenance/invocationIndex
  found: 0
  wanted: the index of one of the invocations of the run, or -1
  advice: report it to the developers of the analyser, or fix or drop the member before the merge
"#,
        ),
        (
            r#"{"locations":[{"physicalLocation":{"artifactLocation":{"index":1}}}]}"#,
            r#"  file: found.sarif
  where: /runs/1/results/0/locations/0/physicalLocation/artifactLocation/index
  found: 1
  wanted: the index of one of the artifacts of the run, or -1
  advice: report it to the developers of the analyser, or fix or drop the member before the merge
"#,
        ),
    ] {
        check_result(&rt, rt.alloc(), Cause::Of(Fault::BadIndex), text, wanted)?;
    }
    Ok(())
}

#[test]
fn the_first_location_is_of_its_form(rt: HostRuntime) -> Result<(), Fail> {
    for (text, wanted) in [
        (
            r#"{"locations":[7,{}]}"#,
            r#"  file: found.sarif
  where: /runs/1/results/0/locations/0
  found: 7
  wanted: an object
  advice: report it to the developers of the analyser, or fix or drop the member before the merge
"#,
        ),
        (
            r#"{"locations":[{"physicalLocation":{"artifactLocation":{"uri":"a.c","uriBaseId":{}}}}]}"#,
            r#"  file: found.sarif
  where: /runs/1/results/0/locations/0/physicalLocation/artifactLocation/uriBaseId
  found: {}
  wanted: a string
  advice: report it to the developers of the analyser, or fix or drop the member before the merge
"#,
        ),
    ] {
        check_result(&rt, rt.alloc(), Cause::Of(Fault::BadLocation), text, wanted)?;
    }
    Ok(())
}
