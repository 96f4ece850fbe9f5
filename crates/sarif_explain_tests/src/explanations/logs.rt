//! Errors of whole logs, and errors without an input.
use super::check;
use sarif_explain::{FaultSource, explanation};
use sarif_model::{At, Cause, Fault, MergeFault, Source};
use std::test::Fail;

const LOG: At = At::Whole(Source::Log(0));

#[test]
fn json_tells_where_its_reading_stopped(rt: HostRuntime) -> Result<(), Fail> {
    for (text, wanted) in [
        (
            r#"{"version":"2.1.0","runs":["#,
            r#"  file: found.sarif
  line: 1
  column: 27
  wanted: JSON in UTF-8, nested at most 127 deep
  advice: fix the file there, or check that the analyser ended normally and wrote the whole file
"#,
        ),
        (
            "[1,\n x]",
            r#"  file: found.sarif
  line: 2
  column: 2
  wanted: JSON in UTF-8, nested at most 127 deep
  advice: fix the file there, or check that the analyser ended normally and wrote the whole file
"#,
        ),
    ] {
        check(
            &rt,
            rt.alloc(),
            LOG,
            Cause::Of(Fault::NotJson),
            text,
            wanted,
        )?;
    }
    Ok(())
}

#[test]
fn a_log_is_an_object_with_runs(rt: HostRuntime) -> Result<(), Fail> {
    for (text, wanted) in [
        (
            "[]",
            r#"  file: found.sarif
  where: 
  found: []
  wanted: an object with runs, an array or null
  advice: this is JSON, but not a SARIF log: check that you passed the right file, and that the analyser writes SARIF 2.1.0
"#,
        ),
        (
            "{}",
            r#"  file: found.sarif
  where: 
  found: nothing
  wanted: the member runs, an array of runs, or null
  advice: this is JSON, but not a SARIF log: check that you passed the right file, and that the analyser writes SARIF 2.1.0
"#,
        ),
        (
            r#"{"runs":{"a":1}}"#,
            r#"  file: found.sarif
  where: /runs
  found: {"a":1}
  wanted: an array of runs, or null
  advice: check that you passed the right file, and that the analyser writes SARIF 2.1.0
"#,
        ),
        (
            r#"{"runs":[1.5]}"#,
            r#"  file: found.sarif
  where: /runs
  found: [1.5]
  wanted: an array of runs, or null
  advice: check that you passed the right file, and that the analyser writes SARIF 2.1.0
"#,
        ),
    ] {
        check(&rt, rt.alloc(), LOG, Cause::Of(Fault::NotLog), text, wanted)?;
    }
    Ok(())
}

#[test]
fn a_log_has_one_version(rt: HostRuntime) -> Result<(), Fail> {
    for (text, wanted) in [
        (
            r#"{"runs":[]}"#,
            r#"  file: found.sarif
  where: 
  found: nothing
  wanted: the member version, the string 2.1.0
  advice: if the file is SARIF 2.1.0, add "version": "2.1.0" to it; otherwise configure the analyser to write SARIF 2.1.0
"#,
        ),
        (
            r#"{"version":"2.0.0","runs":[]}"#,
            r#"  file: found.sarif
  where: /version
  found: "2.0.0"
  wanted: the string 2.1.0
  advice: configure the analyser to write SARIF 2.1.0, or convert the log to it
"#,
        ),
        (
            r#"{"version":2.1,"runs":[]}"#,
            r#"  file: found.sarif
  where: /version
  found: 2.1
  wanted: the string 2.1.0
  advice: configure the analyser to write SARIF 2.1.0, or convert the log to it
"#,
        ),
    ] {
        check(
            &rt,
            rt.alloc(),
            LOG,
            Cause::Of(Fault::WrongVersion),
            text,
            wanted,
        )?;
    }
    Ok(())
}

#[test]
fn limits_are_told(rt: HostRuntime) -> Result<(), Fail> {
    let runs = r#"  file: found.sarif
  where: /runs
  found: []
  wanted: at most 1000 logs and 1000 baselines, with at most 10000 runs and 1000000 results in all
  advice: split the analysis, or drop what you don't need
"#;
    let many = r#"  file: found.sarif
  wanted: at most 1000 logs and 1000 baselines, with at most 10000 runs and 1000000 results in all
  advice: split the analysis, or drop what you don't need
"#;
    let long = r#"  file: found.sarif
  wanted: at most 67108864 bytes
  advice: split the analysis, or drop what you don't need
"#;
    let alloc = rt.alloc();
    let text = r#"{"version":"2.1.0","runs":[]}"#;
    check(&rt, alloc, LOG, Cause::Of(Fault::TooMany), text, runs)?;
    let past = At::Whole(Source::Log(1000));
    check(&rt, alloc, past, Cause::Of(Fault::TooMany), "", many)?;
    check(&rt, alloc, LOG, Cause::TooLong, "[1,2", long)
}

#[test]
fn the_system_says_why_a_call_failed(rt: HostRuntime) -> Result<(), Fail> {
    let alloc = rt.alloc();
    let read = FaultSource {
        file: "a\nb.sarif",
        bytes: b"{",
        system: Some("Permission denied (os error 13)"),
        is_folder: false,
    };
    let fault = MergeFault {
        at: At::Whole(Source::Baseline(2)),
        cause: Cause::ReadFailed,
    };
    assert_eq!(rt;
        explanation(alloc, &fault, &read)?.as_str(),
        r#"  file: a b.sarif
  wanted: a file that exists and can be read to its end
  system: Permission denied (os error 13)
  advice: check that the file exists, is not a folder and is readable
"#
    );
    let written = FaultSource {
        file: "merged.sarif",
        bytes: &[],
        system: Some("No space left on device"),
        is_folder: false,
    };
    let fault = MergeFault {
        at: At::Whole(Source::Output),
        cause: Cause::WriteFailed,
    };
    assert_eq!(rt;
        explanation(alloc, &fault, &written)?.as_str(),
        r#"  file: merged.sarif
  wanted: a file that can be written, and enough room on the disk
  system: No space left on device
  advice: check that the folder exists, that you may write there, and that the disk has room
"#
    );
    Ok(())
}

#[test]
fn faults_of_no_input_have_two_lines(rt: HostRuntime) -> Result<(), Fail> {
    for (cause, wanted) in [
        (
            Cause::OutOfMemory,
            r#"  wanted: enough memory for the inputs and the outputs
  advice: make more memory available, or merge fewer logs in one call
"#,
        ),
        (
            Cause::NoWorker,
            r#"  wanted: as many threads as --workers requests
  advice: lower --workers, or allow the program to start more threads
"#,
        ),
    ] {
        let source = FaultSource {
            file: "",
            bytes: &[],
            system: Some("no failed call"),
            is_folder: true,
        };
        let fault = MergeFault {
            at: At::Nowhere,
            cause,
        };
        assert_eq!(rt; explanation(rt.alloc(), &fault, &source)?.as_str(), wanted);
    }
    Ok(())
}
