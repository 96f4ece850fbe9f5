//! Files that are not what a merge expects: other forms than JSON, folders, and JSON that is not a log.
use super::{check, told};
use sarif_explain::{FaultSource, explanation};
use sarif_model::{At, Cause, Fault, MergeFault, Source};
use std::alloc::Global;
use std::test::Fail;

const LOG: At = At::Whole(Source::Log(0));

/// The explanation of a log with these bytes that is not JSON.
fn told_of_bytes(alloc: Global, bytes: &[u8]) -> Result<String, Fail> {
    let fault = MergeFault {
        at: LOG,
        cause: Cause::Of(Fault::NotJson),
    };
    let source = FaultSource {
        file: "found.sarif",
        bytes,
        system: None,
        is_folder: false,
    };
    Ok(explanation(alloc, &fault, &source)?)
}

#[test]
fn a_form_that_is_not_json_is_named(rt: HostRuntime) -> Result<(), Fail> {
    for (bytes, found, advice) in [
        (
            &b""[..],
            "an empty file",
            "check that the analyser ended normally and wrote its log",
        ),
        (
            &b"\xef\xbb\xbf"[..],
            "an empty file",
            "check that the analyser ended normally and wrote its log",
        ),
        (
            &b" \r\n\t"[..],
            "an empty file",
            "check that the analyser ended normally and wrote its log",
        ),
        (
            &b"\x1f\x8b\x08\x00"[..],
            "a gzip file",
            "unpack it first, for example with gzip -d",
        ),
        (
            &b"PK\x03\x04\x14\x00"[..],
            "a ZIP file",
            "unpack it first, for example with unzip",
        ),
        (
            &b"\xff\xfe{\x00}\x00"[..],
            "UTF-16 or UTF-32",
            "convert it to UTF-8, for example with iconv -f UTF-16 -t UTF-8",
        ),
        (
            &b"\xfe\xff\x00{\x00}"[..],
            "UTF-16 or UTF-32",
            "convert it to UTF-8, for example with iconv -f UTF-16 -t UTF-8",
        ),
        (
            &b"{\x00}\x00"[..],
            "UTF-16 or UTF-32",
            "convert it to UTF-8, for example with iconv -f UTF-16 -t UTF-8",
        ),
        (
            &b"\x00{\x00}"[..],
            "UTF-16 or UTF-32",
            "convert it to UTF-8, for example with iconv -f UTF-16 -t UTF-8",
        ),
        (
            &b"\x00\x00\xfe\xff"[..],
            "UTF-16 or UTF-32",
            "convert it to UTF-8, for example with iconv -f UTF-16 -t UTF-8",
        ),
        (
            &b"\n<?xml version='1.0'?>"[..],
            "HTML or XML",
            "check where the file comes from: it may be an error page, or a report in another \
             format",
        ),
        (
            &b"\n<!DOCTYPE html><title>Sign in</title>"[..],
            "HTML or XML",
            "check where the file comes from: it may be an error page, or a report in another \
             format",
        ),
        (
            &b"\xef\xbb\xbf<HTML>"[..],
            "HTML or XML",
            "check where the file comes from: it may be an error page, or a report in another \
             format",
        ),
        (
            &b"{\"a\":1}\n{\"a\":2}\n"[..],
            "several JSON values, one per line",
            "pass a SARIF log, which is one JSON object",
        ),
        (
            &b"\xef\xbb\xbf[1] \r\n\r\nx"[..],
            "several JSON values, one per line",
            "pass a SARIF log, which is one JSON object",
        ),
    ] {
        let told = told_of_bytes(rt.alloc(), bytes)?;
        let found = format!(in rt.alloc();
            "\n  found: {found}\n  wanted: JSON in UTF-8, nested at most 127 deep\n  advice: {advice}\n"
        )?;
        assert!(rt; told.as_str().ends_with(found.as_str()), "{told}{found}");
        assert!(rt;
            told.as_str().starts_with("  file: found.sarif\n  line: "),
            "{told}"
        );
    }
    Ok(())
}

#[test]
fn other_text_has_no_form(rt: HostRuntime) -> Result<(), Fail> {
    for bytes in [
        &b"{"[..],
        &b"x"[..],
        &b"P"[..],
        &b"PK\x01\x02"[..],
        &b"\x1f"[..],
        &b"\xff"[..],
        &b"PK\x05\x06"[..],
        &b"x<html>"[..],
        &b"\x0c"[..],
        // A first line that is not a JSON value, or one that nothing follows.
        &b"{\"a\":1}}"[..],
        &b"{\"a\":1} {\"a\":2}"[..],
        &b"\n{}\n{}"[..],
        &b"{\n{}\n{}"[..],
    ] {
        let told = told_of_bytes(rt.alloc(), bytes)?;
        let end =
            "\n  wanted: JSON in UTF-8, nested at most 127 deep\n  advice: fix the file there, or \
            check that the analyser ended normally and wrote the whole file\n";
        assert!(rt; told.as_str().ends_with(end), "{told}");
        assert!(rt; !told.as_str().contains("found:"), "{told}");
    }
    Ok(())
}

#[test]
fn a_position_and_a_form_are_told(rt: HostRuntime) -> Result<(), Fail> {
    let wanted = r#"  file: found.sarif
  line: 1
  column: 0
  found: an empty file
  wanted: JSON in UTF-8, nested at most 127 deep
  advice: check that the analyser ended normally and wrote its log
"#;
    let cause = Cause::Of(Fault::NotJson);
    check(&rt, rt.alloc(), LOG, cause, "", wanted)?;
    let wanted = r#"  file: found.sarif
  line: 2
  column: 1
  found: several JSON values, one per line
  wanted: JSON in UTF-8, nested at most 127 deep
  advice: pass a SARIF log, which is one JSON object
"#;
    check(&rt, rt.alloc(), LOG, cause, "{}\n{}\n", wanted)
}

#[test]
fn a_folder_is_named(rt: HostRuntime) -> Result<(), Fail> {
    for source in [Source::Log(0), Source::Baseline(2), Source::Suppress] {
        let fault = MergeFault {
            at: At::Whole(source),
            cause: Cause::ReadFailed,
        };
        let folder = FaultSource {
            file: "found.sarif",
            bytes: &[],
            system: Some("Is a directory (os error 21)"),
            is_folder: true,
        };
        assert_eq!(rt;
            explanation(rt.alloc(), &fault, &folder)?.as_str(),
            r#"  file: found.sarif
  found: a folder
  wanted: a file that exists and can be read to its end
  system: Is a directory (os error 21)
  advice: pass the file itself, not the folder that it is in
"#
        );
    }
    Ok(())
}

#[test]
fn a_merged_log_is_named(rt: HostRuntime) -> Result<(), Fail> {
    let at = At::Single(Source::Log(0), 0, 0);
    let cause = Cause::Of(Fault::AbsentInput);
    let runs =
        r#""runs":[{"tool":{"driver":{"name":"t"}},"results":[{"baselineState":"absent"}]}]"#;
    let merged = "this is a merged log; pass the logs of the analysers";
    let other = "pass the file with --baseline, or merge the analyser's own log instead";
    for (gate, advice) in [
        (
            r#""properties":{"gate":{"counts":{},"verdict":"pass"}},"#,
            merged,
        ),
        (
            r#""properties":{"gate":{"counts":{"absent":{}},"hits":0,"verdict":"fail"},"x":1},"#,
            merged,
        ),
        // Not what a merge writes.
        ("", other),
        (r#""properties":{"gate":{}},"#, other),
        (r#""properties":{"gate":{"verdict":"pass"}},"#, other),
        (r#""properties":{"gate":{"counts":{}}},"#, other),
        (
            r#""properties":{"gate":{"counts":[],"verdict":"pass"}},"#,
            other,
        ),
        (
            r#""properties":{"gate":{"counts":{},"verdict":true}},"#,
            other,
        ),
        (r#""properties":{"counts":{},"verdict":"pass"},"#, other),
    ] {
        let text = format!(in rt.alloc(); "{{{gate}\"version\":\"2.1.0\",{runs}}}")?;
        let found = told(rt.alloc(), at, cause, text.as_str())?;
        let wanted = format!(in rt.alloc();
            "  file: found.sarif\n  where: /runs/0/results/0/baselineState\n  found: \"absent\"\n  \
             wanted: no baselineState, or one other than absent: a log may contain only current \
             results\n  advice: {advice}\n"
        )?;
        assert_eq!(rt; found.as_str(), wanted.as_str());
    }
    Ok(())
}

#[test]
fn json_that_is_no_log_is_named(rt: HostRuntime) -> Result<(), Fail> {
    let cause = Cause::Of(Fault::NotLog);
    let other = "this is JSON, but not a SARIF log: check that you passed the right file, and that \
        the analyser writes SARIF 2.1.0";
    let log = "check that you passed the right file, and that the analyser writes SARIF 2.1.0";
    for (text, advice) in [
        (
            r#"{"version":4,"suppressions":[]}"#,
            "this is a suppression file; pass it with --suppress",
        ),
        (r#"{"suppressions":{}}"#, other),
        ("0", other),
        (r#""passed""#, other),
        (r#"{"status":"completed","exit":0}"#, other),
        (r#"[{"runs":[]}]"#, other),
        (r#"{"runs":[1.5]}"#, log),
        (r#"{"runs":{}}"#, log),
    ] {
        let found = told(rt.alloc(), LOG, cause, text)?;
        let end = format!(in rt.alloc(); "\n  advice: {advice}\n")?;
        assert!(rt; found.as_str().ends_with(end.as_str()), "{found}");
    }
    Ok(())
}
