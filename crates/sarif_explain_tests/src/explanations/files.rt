//! Errors of the suppression file.
use super::check;
use sarif_model::{At, Cause, Fault, Source};
use std::test::Fail;

const FILE: At = At::Whole(Source::Suppress);

#[test]
fn a_file_has_a_version_and_a_list_within_the_limit(rt: HostRuntime) -> Result<(), Fail> {
    for (cause, text, wanted) in [
        (
            Cause::Of(Fault::NotJson),
            "{]",
            r#"  file: found.sarif
  line: 1
  column: 2
  wanted: JSON in UTF-8, nested at most 127 deep
  advice: fix the file there, or check that the analyser ended normally and wrote the whole file
"#,
        ),
        (
            Cause::Of(Fault::NotList),
            r#"{"version":1}"#,
            r#"  file: found.sarif
  where: 
  found: nothing
  wanted: the member suppressions, an array
  advice: check that you passed the right file; a suppression file has an array suppressions
"#,
        ),
        (
            Cause::Of(Fault::WrongVersion),
            r#"{"version":1.0,"suppressions":[]}"#,
            r#"  file: found.sarif
  where: /version
  found: 1.0
  wanted: the integer 1, 2, 4 or 5, written without a fraction
  advice: write the file in version 4, with "version": 4
"#,
        ),
        (
            Cause::Of(Fault::WrongVersion),
            r#"{"suppressions":[]}"#,
            r#"  file: found.sarif
  where: 
  found: nothing
  wanted: the member version, the integer 1, 2, 4 or 5, written without a fraction
  advice: add "version": 4 to the file
"#,
        ),
        (
            Cause::Of(Fault::TooMany),
            r#"{"version":1,"suppressions":[]}"#,
            r#"  file: found.sarif
  where: /suppressions
  found: []
  wanted: at most 10000 entries
  advice: split the analysis, or drop what you don't need
"#,
        ),
    ] {
        check(&rt, rt.alloc(), FILE, cause, text, wanted)?;
    }
    Ok(())
}

#[test]
fn an_entry_has_the_members_of_its_version(rt: HostRuntime) -> Result<(), Fail> {
    for (text, wanted) in [
        (
            r#"{"version":1,"suppressions":[7]}"#,
            r#"  file: found.sarif
  where: /suppressions/0
  found: 7
  wanted: an object with only the members that its version has
  advice: fix the entry, or validate the file against its JSON Schema
"#,
        ),
        (
            r#"{"version":1,"suppressions":[{"tool":1,"uriPrefix":null}]}"#,
            r#"  file: found.sarif
  where: /suppressions/0/uriPrefix
  found: null
  wanted: in version 1 only the members tool, ruleId, uri, guid, fingerprints, partialFingerprints, status and justification
  advice: fix the entry, or validate the file against its JSON Schema
"#,
        ),
        (
            r#"{"version":2,"suppressions":[{"tool":"lint","until":20251231}]}"#,
            r#"  file: found.sarif
  where: /suppressions/0/until
  found: 20251231
  wanted: in version 2 only the members tool, ruleId, uri, uriPrefix, guid, fingerprints, partialFingerprints, expires, status and justification
  advice: fix the entry, or validate the file against its JSON Schema
"#,
        ),
        (
            r#"{"version":2,"suppressions":[{"tool":"lint","message":"m"}]}"#,
            r#"  file: found.sarif
  where: /suppressions/0/message
  found: "m"
  wanted: in version 2 only the members tool, ruleId, uri, uriPrefix, guid, fingerprints, partialFingerprints, expires, status and justification
  advice: fix the entry, or validate the file against its JSON Schema
"#,
        ),
        (
            r#"{"version":4,"suppressions":[{"message":"m","until":20251231}]}"#,
            r#"  file: found.sarif
  where: /suppressions/0/until
  found: 20251231
  wanted: in version 4 only the members tool, ruleId, uri, uriPrefix, guid, fingerprints, partialFingerprints, message, messageId, messageArguments, expires, status and justification
  advice: fix the entry, or validate the file against its JSON Schema
"#,
        ),
        (
            r#"{"version":4,"suppressions":[{"message":"m","snippet":"x"}]}"#,
            r#"  file: found.sarif
  where: /suppressions/0/snippet
  found: "x"
  wanted: in version 4 only the members tool, ruleId, uri, uriPrefix, guid, fingerprints, partialFingerprints, message, messageId, messageArguments, expires, status and justification
  advice: fix the entry, or validate the file against its JSON Schema
"#,
        ),
        (
            r#"{"version":5,"suppressions":[{"snippet":"x","until":20251231}]}"#,
            r#"  file: found.sarif
  where: /suppressions/0/until
  found: 20251231
  wanted: only the members tool, ruleId, uri, uriPrefix, guid, fingerprints, partialFingerprints, message, messageId, messageArguments, snippet, max, expires, status and justification
  advice: fix the entry, or validate the file against its JSON Schema
"#,
        ),
        (
            r#"{"version":5,"suppressions":[{"tool":"lint","snippet":5}]}"#,
            r#"  file: found.sarif
  where: /suppressions/0/snippet
  found: 5
  wanted: a string
  advice: fix the entry, or validate the file against its JSON Schema
"#,
        ),
        (
            r#"{"version":5,"suppressions":[{"tool":"lint","max":0}]}"#,
            r#"  file: found.sarif
  where: /suppressions/0/max
  found: 0
  wanted: an integer from 1 to 4294967295
  advice: fix the entry, or validate the file against its JSON Schema
"#,
        ),
        (
            r#"{"version":4,"suppressions":[{"messageArguments":["m",null]}]}"#,
            r#"  file: found.sarif
  where: /suppressions/0/messageArguments/1
  found: null
  wanted: a string
  advice: fix the entry, or validate the file against its JSON Schema
"#,
        ),
        (
            r#"{"version":2,"suppressions":[{"tool":1.5}]}"#,
            r#"  file: found.sarif
  where: /suppressions/0/tool
  found: 1.5
  wanted: a string
  advice: fix the entry, or validate the file against its JSON Schema
"#,
        ),
        (
            r#"{"version":2,"suppressions":[{"tool":"lint","expires":20251301}]}"#,
            r#"  file: found.sarif
  where: /suppressions/0/expires
  found: 20251301
  wanted: a date as the integer YYYYMMDD, from 10000101 to 99991231
  advice: fix the entry, or validate the file against its JSON Schema
"#,
        ),
    ] {
        check(
            &rt,
            rt.alloc(),
            At::Entry(0),
            Cause::Of(Fault::BadEntry),
            text,
            wanted,
        )?;
    }
    Ok(())
}

#[test]
fn an_entry_names_a_condition_and_may_need_the_day(rt: HostRuntime) -> Result<(), Fail> {
    for (cause, text, wanted) in [
        (
            Cause::Of(Fault::EmptyMatch),
            r#"{"version":2,"suppressions":[{"tool":"lint"},{"fingerprints":{"a":null}}]}"#,
            r#"  file: found.sarif
  where: /suppressions/1
  found: {"fingerprints":{"a":null}}
  wanted: at least one of tool, ruleId, uri, uriPrefix, guid, fingerprints, partialFingerprints, message, messageId, messageArguments and snippet
  advice: add a condition; without one, the entry would match every result
"#,
        ),
        (
            Cause::Of(Fault::NeedsToday),
            r#"{"version":2,"suppressions":[{"tool":"lint"},{"uri":"a.c","expires":20251231}]}"#,
            r#"  file: found.sarif
  where: /suppressions/1/expires
  found: 20251231
  wanted: today's date, since the entry has an expiry date
  advice: pass today's date as YYYYMMDD: --today "$(date -u +%Y%m%d)"
"#,
        ),
    ] {
        check(&rt, rt.alloc(), At::Entry(1), cause, text, wanted)?;
    }
    Ok(())
}
