//! Errors of runs.
use super::check;
use sarif_model::{At, Cause, Fault, Source};
use std::alloc::Global;
use std::process::Abort;
use std::test::Fail;

const RUN: At = At::Run(Source::Log(0), 0);

/// That this is explained of a log with one run.
fn check_run(
    rt: &impl Abort,
    alloc: Global,
    cause: Cause,
    run: &str,
    wanted: &str,
) -> Result<(), Fail> {
    let log = format!(in alloc; "{{\"version\":\"2.1.0\",\"runs\":[{run}]}}")?;
    check(rt, alloc, RUN, cause, log.as_str(), wanted)
}

#[test]
fn a_run_has_a_tool_with_a_named_driver(rt: HostRuntime) -> Result<(), Fail> {
    for (run, wanted) in [
        (
            "7",
            r#"  file: found.sarif
  where: /runs/0
  found: 7
  wanted: an object with a tool whose driver has a name
  advice: report it to the developers of the analyser, or fix the run before the merge
"#,
        ),
        (
            r#"{"results":[]}"#,
            r#"  file: found.sarif
  where: /runs/0
  found: nothing
  wanted: the member tool, an object
  advice: report it to the developers of the analyser, or fix the run before the merge
"#,
        ),
        (
            r#"{"tool":null}"#,
            r#"  file: found.sarif
  where: /runs/0/tool
  found: null
  wanted: an object
  advice: report it to the developers of the analyser, or fix the run before the merge
"#,
        ),
        (
            r#"{"tool":{"driver":"lint"}}"#,
            r#"  file: found.sarif
  where: /runs/0/tool/driver
  found: "lint"
  wanted: an object
  advice: report it to the developers of the analyser, or fix the run before the merge
"#,
        ),
        (
            r#"{"tool":{"driver":{}}}"#,
            r#"  file: found.sarif
  where: /runs/0/tool/driver
  found: nothing
  wanted: the member name, a string
  advice: report it to the developers of the analyser, or fix the run before the merge
"#,
        ),
    ] {
        check_run(&rt, rt.alloc(), Cause::Of(Fault::BadRun), run, wanted)?;
    }
    Ok(())
}

#[test]
fn results_are_objects(rt: HostRuntime) -> Result<(), Fail> {
    for (run, wanted) in [
        (
            r#"{"tool":{"driver":{"name":"t"}},"results":{}}"#,
            r#"  file: found.sarif
  where: /runs/0/results
  found: {}
  wanted: an array of objects
  advice: report it to the developers of the analyser, or fix the run before the merge
"#,
        ),
        (
            r#"{"tool":{"driver":{"name":"t"}},"results":[{},"r"]}"#,
            r#"  file: found.sarif
  where: /runs/0/results/1
  found: "r"
  wanted: an object
  advice: report it to the developers of the analyser, or fix the run before the merge
"#,
        ),
    ] {
        check_run(&rt, rt.alloc(), Cause::Of(Fault::BadRun), run, wanted)?;
    }
    Ok(())
}

#[test]
fn a_run_stands_in_one_log_and_within_the_limits(rt: HostRuntime) -> Result<(), Fail> {
    for (cause, run, wanted) in [
        (
            Cause::Of(Fault::ExternalProperties),
            r#"{"tool":{"driver":{"name":"t"}},"externalPropertyFileReferences":{"results":[]}}"#,
            r#"  file: found.sarif
  where: /runs/0/externalPropertyFileReferences
  found: {"results":[]}
  wanted: an empty object, or no such member
  advice: if the other files hold no results, artifacts, invocations, driver or extensions, pass --allow-external-properties; otherwise drop the references, if you don't need what is in those files: jq 'del(.runs[].externalPropertyFileReferences)' LOG > NEW_LOG
"#,
        ),
        (
            Cause::Of(Fault::TooMany),
            r#"{"tool":{"driver":{"name":"t"}},"results":[]}"#,
            r#"  file: found.sarif
  where: /runs/0/results
  found: []
  wanted: at most 1000000 results
  advice: split the analysis, or drop what you don't need
"#,
        ),
    ] {
        check_run(&rt, rt.alloc(), cause, run, wanted)?;
    }
    Ok(())
}

#[test]
fn rules_are_objects_with_an_id(rt: HostRuntime) -> Result<(), Fail> {
    for (run, wanted) in [
        (
            r#"{"tool":{"driver":{"name":"t"},"extensions":[1]}}"#,
            r#"  file: found.sarif
  where: /runs/0/tool/extensions/0
  found: 1
  wanted: an object
  advice: report it to the developers of the analyser, or fix the run before the merge
"#,
        ),
        (
            r#"{"tool":{"driver":{"name":"t","rules":"R1"}}}"#,
            r#"  file: found.sarif
  where: /runs/0/tool/driver/rules
  found: "R1"
  wanted: an array
  advice: report it to the developers of the analyser, or fix the run before the merge
"#,
        ),
        (
            r#"{"tool":{"driver":{"name":"t","rules":[{"id":"R1"},{"name":"R2"},null]}}}"#,
            r#"  file: found.sarif
  where: /runs/0/tool/driver/rules/1
  found: nothing
  wanted: the member id, a string
  advice: report it to the developers of the analyser, or fix the run before the merge
"#,
        ),
        (
            r#"{"tool":{"driver":{"name":"t"},"extensions":[{},{"rules":[null]}]}}"#,
            r#"  file: found.sarif
  where: /runs/0/tool/extensions/1/rules/0
  found: null
  wanted: an object
  advice: report it to the developers of the analyser, or fix the run before the merge
"#,
        ),
    ] {
        check_run(&rt, rt.alloc(), Cause::Of(Fault::BadRules), run, wanted)?;
    }
    Ok(())
}

#[test]
fn levels_of_a_run_are_of_the_four(rt: HostRuntime) -> Result<(), Fail> {
    for (run, wanted) in [
        (
            r#"{"tool":{"driver":{"name":"t","rules":[{"id":"R1","defaultConfiguration":{"level":"high"}}]}}}"#,
            r#"  file: found.sarif
  where: /runs/0/tool/driver/rules/0/defaultConfiguration/level
  found: "high"
  wanted: error, warning, note or none
  advice: report it to the developers of the analyser, or fix or drop the member before the merge
"#,
        ),
        (
            r#"{"tool":{"driver":{"name":"t"}},"invocations":[{},{"ruleConfigurationOverrides":[{"configuration":{"level":3}}]}]}"#,
            r#"  file: found.sarif
  where: /runs/0/invocations/1/ruleConfigurationOverrides/0/configuration/level
  found: 3
  wanted: error, warning, note or none
  advice: report it to the developers of the analyser, or fix or drop the member before the merge
"#,
        ),
    ] {
        check_run(&rt, rt.alloc(), Cause::Of(Fault::BadLevel), run, wanted)?;
    }
    Ok(())
}

#[test]
fn artifacts_and_overrides_are_of_their_kinds(rt: HostRuntime) -> Result<(), Fail> {
    for (cause, run, wanted) in [
        (
            Cause::Of(Fault::BadLocation),
            r#"{"tool":{"driver":{"name":"t"}},"artifacts":[{},{"location":{"uri":1}}]}"#,
            r#"  file: found.sarif
  where: /runs/0/artifacts/1/location/uri
  found: 1
  wanted: a string
  advice: report it to the developers of the analyser, or fix or drop the member before the merge
"#,
        ),
        (
            Cause::Of(Fault::BadMember),
            r#"{"tool":{"driver":{"name":"t"}},"invocations":[{"ruleConfigurationOverrides":[{"descriptor":1}]},{"ruleConfigurationOverrides":{}}]}"#,
            r#"  file: found.sarif
  where: /runs/0/invocations/1/ruleConfigurationOverrides
  found: {}
  wanted: an array of objects
  advice: report it to the developers of the analyser, or fix or drop the member before the merge
"#,
        ),
        (
            Cause::Of(Fault::BadMember),
            r#"{"tool":{"driver":{"name":"t"}},"invocations":[{"ruleConfigurationOverrides":[{"descriptor":1}]}]}"#,
            r#"  file: found.sarif
  where: /runs/0/invocations/0/ruleConfigurationOverrides/0/descriptor
  found: 1
  wanted: an object
  advice: report it to the developers of the analyser, or fix or drop the member before the merge
"#,
        ),
    ] {
        check_run(&rt, rt.alloc(), cause, run, wanted)?;
    }
    Ok(())
}

#[test]
fn indexes_of_overrides_are_within_their_tables(rt: HostRuntime) -> Result<(), Fail> {
    for (run, wanted) in [
        (
            r#"{"tool":{"driver":{"name":"t"}},"invocations":[{"ruleConfigurationOverrides":[{"descriptor":{"index":0}},{"descriptor":{"index":-2}}]}]}"#,
            r#"  file: found.sarif
  where: /runs/0/invocations/0/ruleConfigurationOverrides/0/descriptor/index
  found: 0
  wanted: the index of one of the rules of the component, or -1
  advice: report it to the developers of the analyser, or fix or drop the member before the merge
"#,
        ),
        (
            r#"{"tool":{"driver":{"name":"t"}},"invocations":[{"ruleConfigurationOverrides":[{"descriptor":{"index":-1,"toolComponent":{"index":"0"}}}]}]}"#,
            r#"  file: found.sarif
  where: /runs/0/invocations/0/ruleConfigurationOverrides/0/descriptor/toolComponent/index
  found: "0"
  wanted: an integer from -1 to 4294967295
  advice: report it to the developers of the analyser, or fix or drop the member before the merge
"#,
        ),
    ] {
        check_run(&rt, rt.alloc(), Cause::Of(Fault::BadIndex), run, wanted)?;
    }
    Ok(())
}

#[test]
fn a_run_is_successful_and_has_results(rt: HostRuntime) -> Result<(), Fail> {
    for (run, wanted) in [
        (
            r#"{"tool":{"driver":{"name":"t"}},"invocations":[{"executionSuccessful":true},{"executionSuccessful":false}]}"#,
            r#"  file: found.sarif
  where: /runs/0/invocations/1/executionSuccessful
  found: false
  wanted: a run with results whose analysis was successful
  advice: run the analysis again, or read the analyser's own output to see what failed
"#,
        ),
        (
            r#"{"tool":{"driver":{"name":"t"}},"invocations":[{"executionSuccessful":null}]}"#,
            r#"  file: found.sarif
  where: /runs/0
  found: {"invocations":[{"executionSuccessful":null}],"tool":{"driver":{"name":"t"}}}
  wanted: a run with results whose analysis was successful
  advice: run the analysis again, or read the analyser's own output to see what failed
"#,
        ),
    ] {
        check_run(
            &rt,
            rt.alloc(),
            Cause::Of(Fault::NotSuccessful),
            run,
            wanted,
        )?;
    }
    Ok(())
}
