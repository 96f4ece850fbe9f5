//! Which members of a result are its places.
use crate::marked::{Marking, read_marks};
use std::alloc::{AllocError, AllocGlobal, Global};
use std::random::RandomSource;
use std::test::Fail;
use std::thread::Threads;

/// A location in `uri` whose region has these members.
const LOCATIONS: [(&str, bool); 16] = [
    (r#""region":{"startLine":1,"endLine":2}"#, false),
    (r#""region":{"startLine":2,"endLine":9}"#, false),
    (r#""region":{"startLine":1,"endLine":9}"#, false),
    (r#""message":{}"#, false),
    (r#""region":{"startLine":0}"#, false),
    (r#""region":{"startLine":"2"}"#, false),
    (r#""region":{"startLine":9,"endLine":8}"#, false),
    (r#""region":{"startLine":9,"endLine":"9"}"#, false),
    (r#""region":{"startLine":9,"endLine":4294967296}"#, false),
    (r#""region":{"charOffset":9}"#, false),
    (r#""region":5"#, false),
    (r#""region":{"startLine":3,"endLine":9}"#, true),
    (r#""region":{"startLine":1,"endLine":1}"#, true),
    (r#""region":{"startLine":4294967295}"#, true),
    (r#""region":{"startLine":9,"endLine":null}"#, true),
    (r#""region":{"startLine":1}"#, true),
];

/// Further members of a result whose first location, b.c:1, is outside.
const BESIDE: [(&str, bool); 17] = [
    (
        r#""relatedLocations":[{"physicalLocation":{"artifactLocation":{"uri":"a.c"},"region":{"startLine":2}}}]"#,
        false,
    ),
    (
        r#""relatedLocations":[{"physicalLocation":{"artifactLocation":{"uri":"a.c"}}}]"#,
        false,
    ),
    (
        r#""codeFlows":[{"threadFlows":[{"locations":[{"location":{"physicalLocation":{"artifactLocation":{"uri":"a.c"},"region":{"startLine":2}}}}]}]}]"#,
        false,
    ),
    (
        r#""codeFlows":[{"threadFlows":[{"locations":[{"index":0}]}]}]"#,
        false,
    ),
    (
        r#""relatedLocations":[{"physicalLocation":{"artifactLocation":{"uri":"a.c"},"region":{"startLine":3}}}]"#,
        true,
    ),
    (r#""relatedLocations":[{}]"#, true),
    (r#""relatedLocations":[null]"#, true),
    (
        r#""relatedLocations":[{"physicalLocation":{"artifactLocation":{"uri":"b.c"},"region":{"startLine":2}}}]"#,
        true,
    ),
    (
        r#""codeFlows":[{"threadFlows":[{"locations":[{"location":{"physicalLocation":{"artifactLocation":{"uri":"a.c"},"region":{"startLine":3}}}}]}]}]"#,
        true,
    ),
    (
        r#""codeFlows":[{"threadFlows":[{"locations":[{"index":-1}]}]}]"#,
        true,
    ),
    (
        r#""codeFlows":[{"threadFlows":[{"locations":[{}]}]}]"#,
        true,
    ),
    (
        r#""codeFlows":[{"threadFlows":[{"locations":[{"location":{"message":{"text":"m"}}}]}]}]"#,
        true,
    ),
    (r#""codeFlows":[{"threadFlows":[{"locations":[5]}]}]"#, true),
    (r#""relatedLocations":5"#, true),
    (r#""codeFlows":{}"#, true),
    (
        r#""stacks":[{"frames":[{"location":{"physicalLocation":{"artifactLocation":{"uri":"a.c"},"region":{"startLine":2}}}}]}]"#,
        true,
    ),
    (r#""relatedLocations":null"#, true),
];

/// Lists of locations. The artifacts are b.c, a.c and one without a location.
const LISTS: [(&str, bool); 22] = [
    (r#"{}"#, false),
    (r#"{"locations":[]}"#, false),
    (r#"{"locations":null}"#, false),
    (r#"{"locations":[{}]}"#, false),
    (
        r#"{"locations":[{"logicalLocations":[{"name":"f"}]}]}"#,
        false,
    ),
    (
        r#"{"locations":[{"physicalLocation":{"artifactLocation":{"uriBaseId":"R"}}}]}"#,
        false,
    ),
    (
        r#"{"locations":[{"physicalLocation":{"artifactLocation":{"uri":""}}}]}"#,
        false,
    ),
    (r#"{"locations":[@,null]}"#, false),
    (r#"{"locations":[@,5]}"#, false),
    (r#"{"locations":[@,{}]}"#, false),
    (
        r#"{"locations":[@,{"physicalLocation":{"artifactLocation":{"uri":"a.c"},"region":{"startLine":2}}}]}"#,
        false,
    ),
    (
        r#"{"locations":[@,{"physicalLocation":{"artifactLocation":{"uri":"a.c"}}}]}"#,
        false,
    ),
    (
        r#"{"locations":[@,{"physicalLocation":{"artifactLocation":{"uri":"a.c"},"region":{"startLine":3}}}]}"#,
        true,
    ),
    (
        r#"{"locations":[@,{"physicalLocation":{"artifactLocation":{"uri":"b.c"}}}]}"#,
        true,
    ),
    (
        r#"{"locations":[{"physicalLocation":{"artifactLocation":{"index":0},"region":{"startLine":2}}}]}"#,
        true,
    ),
    (
        r#"{"locations":[{"physicalLocation":{"artifactLocation":{"index":1},"region":{"startLine":3}}}]}"#,
        true,
    ),
    (
        r#"{"locations":[{"physicalLocation":{"artifactLocation":{"index":1},"region":{"startLine":2}}}]}"#,
        false,
    ),
    (
        r#"{"locations":[{"physicalLocation":{"artifactLocation":{"index":2},"region":{"startLine":3}}}]}"#,
        false,
    ),
    (
        r#"{"locations":[@,{"physicalLocation":{"artifactLocation":{"index":3},"region":{"startLine":3}}}]}"#,
        false,
    ),
    (
        r#"{"locations":[@,{"physicalLocation":{"artifactLocation":{"index":-1},"region":{"startLine":3}}}]}"#,
        false,
    ),
    (
        r#"{"locations":[@,{"physicalLocation":{"artifactLocation":{"index":"0"},"region":{"startLine":3}}}]}"#,
        false,
    ),
    (
        r#"{"locations":[@,{"physicalLocation":{"artifactLocation":{"uri":5,"index":0},"region":{"startLine":3}}}]}"#,
        false,
    ),
];

/// A location at b.c:1.
const B: &str =
    r#"{"physicalLocation":{"artifactLocation":{"uri":"b.c"},"region":{"startLine":1}}}"#;

/// The text of a log with a result for each of these rows, each between these.
fn log_of(
    alloc: Global,
    rows: &[(&str, bool)],
    before: &str,
    after: &str,
) -> Result<String, AllocError> {
    let mut text = String::new(alloc);
    text.push_str(concat!(
        r#"{"version":"2.1.0","runs":[{"tool":{"driver":{"name":"t"}},"artifacts":["#,
        r#"{"location":{"uri":"b.c"}},{"location":{"uri":"a.c"}},{}],"results":["#
    ))?;
    let mut between = "";
    for (row, _) in rows {
        text.push_str(between)?;
        text.push_str(before)?;
        text.push_str(row.replace(alloc, "@", B)?.as_str())?;
        text.push_str(after)?;
        between = ",";
    }
    text.push_str("]}]}")?;
    Ok(text)
}

/// Returns the rows that are not as expected, one in a line, if each result has its row between these.
fn other_rows<R: Threads + Sync + AllocGlobal + RandomSource>(
    rt: &R,
    rows: &[(&str, bool)],
    before: &str,
    after: &str,
) -> Result<String, Fail> {
    let alloc = rt.alloc();
    let log = log_of(alloc, rows, before, after)?;
    let asked = vec![in alloc; true; rows.len()]?;
    let marks = read_marks(
        rt,
        &Marking {
            log: log.as_str(),
            asked: &asked,
            scope: None,
        },
    )?;
    let mut told = String::new(alloc);
    for (number, (row, outside)) in rows.iter().enumerate() {
        if marks.get(number) != Some(outside) {
            told.push_str(*row)?;
            told.push_str("\n")?;
        }
    }
    Ok(told)
}

#[test]
fn regions_have_lines_or_none(rt: HostRuntime) -> Result<(), Fail> {
    let before = r#"{"locations":[{"physicalLocation":{"artifactLocation":{"uri":"a.c"},"#;
    let told = other_rows(&rt, &LOCATIONS, before, "}}]}")?;
    assert_eq!(rt; told.as_str(), "");
    Ok(())
}

#[test]
fn related_locations_and_steps_are_places_too(rt: HostRuntime) -> Result<(), Fail> {
    let before = concat!(
        r#"{"locations":[{"physicalLocation":{"artifactLocation":{"uri":"b.c"},"#,
        r#""region":{"startLine":1}}}],"#
    );
    let told = other_rows(&rt, &BESIDE, before, "}")?;
    assert_eq!(rt; told.as_str(), "");
    Ok(())
}

#[test]
fn each_location_needs_a_path(rt: HostRuntime) -> Result<(), Fail> {
    let told = other_rows(&rt, &LISTS, "", "")?;
    assert_eq!(rt; told.as_str(), "");
    Ok(())
}
