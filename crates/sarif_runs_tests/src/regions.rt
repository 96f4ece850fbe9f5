//! The region of a record and its snippet. A row is what is expected, and the members of a physical location besides its
//! artifact, or all locations of a result.
use sarif_model::{Fault, Record, Refusal, Region, Text};
use sarif_read::{RawRun, read_log};
use sarif_runs::{IgnoredNames, RecordOptions, make_record, open_run};
use std::alloc::{AllocError, Global};
use std::hash::RandomState;
use std::test::Fail;

fn record_of(
    alloc: Global,
    seed: RandomState,
    run: &RawRun,
    regions: bool,
) -> Result<Record, Refusal<Fault>> {
    let head = open_run(alloc, seed, run)?;
    if run.len() == 0 {
        return Err(Refusal::Fault(Fault::NotLog));
    }
    let options = RecordOptions {
        regions,
        ignored: IgnoredNames::new(&[]),
    };
    make_record(alloc, &head, run, 0, &options)
}

/// A line or a column, or a dash.
fn number_in_words(alloc: Global, number: Option<u32>) -> Result<String, AllocError> {
    match number {
        Some(number) => format!(in alloc; "{number}"),
        None => String::from_str(alloc, "-"),
    }
}

fn region_in_words(alloc: Global, region: Option<Region>) -> Result<String, AllocError> {
    let Some(region) = region else {
        return String::from_str(alloc, "none");
    };
    let line = region.start_line;
    let column = number_in_words(alloc, region.start_column)?;
    let last = number_in_words(alloc, region.end_line)?;
    let end = number_in_words(alloc, region.end_column)?;
    format!(in alloc; "{line} {column} {last} {end}")
}

/// The region, and after a comma the snippet, if there is one.
fn record_in_words(alloc: Global, made: &Record) -> Result<String, AllocError> {
    let region = region_in_words(alloc, made.region)?;
    match made.snippet.as_ref().map(Text::as_str) {
        Some(snippet) => format!(in alloc; "{region}, {snippet}"),
        None => Ok(region),
    }
}

/// The record of a result with these locations, or its error.
fn answer(
    alloc: Global,
    seed: RandomState,
    locations: &str,
    regions: bool,
) -> Result<String, Fail> {
    let run = format!(in alloc;
        "{{\"tool\":{{\"driver\":{{\"name\":\"lint\"}}}},\"artifacts\":[{{\"location\":{{\"uriBaseId\":\"SRC\"}}}},{{}}],\"results\":[{{\"locations\":{locations}}}]}}"
    )?;
    let text = format!(in alloc; "{{\"version\":\"2.1.0\",\"runs\":[{run}]}}")?;
    let log = read_log(alloc, text.as_bytes(), false)?;
    let first = log.runs().first().ok_or("no run")?;
    match record_of(alloc, seed, first, regions) {
        Ok(made) => Ok(record_in_words(alloc, &made)?),
        Err(fault) => Ok(format!(in alloc; "{fault}")?),
    }
}

/// Each row next to the artifact `a.c`.
const BESIDE_AN_ARTIFACT: &[(&str, &str)] = &[
    ("none", r#""region":null"#),
    ("none", r#""region":{}"#),
    ("3 - - -", r#""region":{"startLine":3}"#),
    (
        "3 5 4 1",
        r#""region":{"startLine":3,"startColumn":5,"endLine":4,"endColumn":1}"#,
    ),
    ("none", r#""region":{"startLine":0}"#),
    ("none", r#""region":{"startLine":-1}"#),
    ("1 - - -", r#""region":{"startLine":1}"#),
    (
        "4294967295 4294967295 - -",
        r#""region":{"startLine":4294967295,"startColumn":4294967295}"#,
    ),
    ("none", r#""region":{"startLine":4294967296}"#),
    ("none", r#""region":{"startLine":18446744073709551616}"#),
    ("none", r#""region":{"startLine":3.0}"#),
    ("none", r#""region":{"startLine":"3"}"#),
    ("none", r#""region":[3]"#),
    ("none", r#""region":{"endLine":3,"startColumn":1}"#),
    (
        "3 - - -",
        r#""region":{"startLine":3,"startColumn":0,"endLine":true,"endColumn":4294967296}"#,
    ),
    (
        "3 - 3 -, x",
        r#""region":{"startLine":3,"endLine":3},"contextRegion":{"startLine":3,"snippet":{"text":"x"}}"#,
    ),
    (
        "3 - 4 -",
        r#""region":{"startLine":3,"endLine":4},"contextRegion":{"startLine":3,"snippet":{"text":"x"}}"#,
    ),
    (
        "3 - 3 -",
        r#""region":{"startLine":3,"endLine":3},"contextRegion":{"startLine":3,"endLine":4,"snippet":{"text":"x"}}"#,
    ),
    (
        "3 - 4 -, x",
        r#""region":{"startLine":3,"endLine":4},"contextRegion":{"startLine":3,"endLine":4,"snippet":{"text":"x"}}"#,
    ),
    (
        "3 - 3 -",
        r#""region":{"startLine":3,"endLine":3},"contextRegion":{"startLine":2,"endLine":3,"snippet":{"text":"x"}}"#,
    ),
    (
        "3 - - -, x",
        r#""region":{"startLine":3,"endLine":0},"contextRegion":{"startLine":3,"snippet":{"text":"x"}}"#,
    ),
    (
        "none",
        r#""region":{},"contextRegion":{"startLine":3,"snippet":{"text":"x"}}"#,
    ),
    (
        "none",
        r#""region":{},"contextRegion":{"snippet":{"text":"x"}}"#,
    ),
    (
        "3 - - -",
        r#""region":{"startLine":3},"contextRegion":{"snippet":{"text":"x"}}"#,
    ),
    (
        "none",
        r#""contextRegion":{"startLine":3,"snippet":{"text":"x"}}"#,
    ),
    (
        "3 - - -, y",
        r#""region":{"startLine":3,"snippet":{"text":"y"}},"contextRegion":{"startLine":3,"snippet":{"text":"x"}}"#,
    ),
    (
        "3 - - -, x",
        r#""region":{"startLine":3,"snippet":{"text":" \t\n\f\r"}},"contextRegion":{"startLine":3,"snippet":{"text":"x"}}"#,
    ),
    (
        "3 - - -, x",
        r#""region":{"startLine":3,"snippet":{"text":5}},"contextRegion":{"startLine":3,"snippet":{"text":"x"}}"#,
    ),
    (
        "3 - - -",
        r#""region":{"startLine":3,"snippet":{"text":""}},"contextRegion":{"startLine":3,"snippet":{"text":" "}}"#,
    ),
    ("none,  x", r#""region":{"snippet":{"text":" x"}}"#),
    ("none", r#""region":{"snippet":"x"}"#),
    ("none", r#""region":{"snippet":{"text":["x"]}}"#),
    ("none", r#""region":{"snippet":{"markdown":"x"}}"#),
    ("none, \u{b}", r#""region":{"snippet":{"text":"\u000b"}}"#),
    ("none, \u{a0}", r#""region":{"snippet":{"text":"\u00a0"}}"#),
];

#[test]
fn each_region_is_read(rt: HostRuntime) -> Result<(), Fail> {
    let seed = RandomState::new(&rt)?;
    for (wanted, members) in BESIDE_AN_ARTIFACT {
        let alloc = rt.alloc();
        let locations = format!(in alloc;
            "[{{\"physicalLocation\":{{\"artifactLocation\":{{\"uri\":\"a.c\"}},{members}}}}}]"
        )?;
        let found = answer(alloc, seed, locations.as_str(), true)?;
        assert_eq!(rt; found.as_str(), *wanted, "{members}");
        let found = answer(alloc, seed, locations.as_str(), false)?;
        assert_eq!(rt; found.as_str(), "none", "{members}");
    }
    Ok(())
}

/// Locations of a result.
const LOCATIONS: &[(&str, &str)] = &[
    ("none", "null"),
    ("none", "[]"),
    ("BadLocation", r#"[{"physicalLocation":5}]"#),
    ("none", r#"[{"physicalLocation":null}]"#),
    (
        "none",
        r#"[{"physicalLocation":{"region":{"startLine":3,"snippet":{"text":"x"}}}}]"#,
    ),
    (
        "none",
        r#"[{"physicalLocation":{"artifactLocation":{"uriBaseId":"SRC"},"region":{"startLine":3,"snippet":{"text":"x"}}}}]"#,
    ),
    (
        "3 - - -, x",
        r#"[{"physicalLocation":{"artifactLocation":{"index":0},"region":{"startLine":3,"snippet":{"text":"x"}}}}]"#,
    ),
    (
        "none",
        r#"[{"physicalLocation":{"artifactLocation":{"index":1},"region":{"startLine":3,"snippet":{"text":"x"}}}}]"#,
    ),
    (
        "BadIndex",
        r#"[{"physicalLocation":{"artifactLocation":{"index":2},"region":{"startLine":3,"snippet":{"text":"x"}}}}]"#,
    ),
    (
        "none",
        r#"[{"physicalLocation":{"artifactLocation":{"uri":"a.c"}}},{"physicalLocation":{"artifactLocation":{"uri":"a.c"},"region":{"startLine":3}}}]"#,
    ),
    (
        "3 - - -",
        r#"[{"physicalLocation":{"artifactLocation":{"uri":""},"region":{"startLine":3}}},7]"#,
    ),
];

#[test]
fn the_region_is_that_of_the_first_location(rt: HostRuntime) -> Result<(), Fail> {
    let seed = RandomState::new(&rt)?;
    for (wanted, locations) in LOCATIONS {
        let found = answer(rt.alloc(), seed, locations, true)?;
        assert_eq!(rt; found.as_str(), *wanted, "{locations}");
    }
    Ok(())
}
