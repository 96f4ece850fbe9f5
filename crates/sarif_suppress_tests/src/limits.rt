//! Entries with `max`, with results that were computed by hand.
use sarif_entries::{FileFault, entries_of_file};
use sarif_model::{Fault, Record, Refusal, Sequence};
use std::alloc::{AllocError, Global};
use std::test::Fail;
use test_suppress::{Plain, asked_of_file, file_of, result_at};

/// `s` if the file suppresses the result, which these entries with `max` admit, otherwise `a`.
fn side_of(
    alloc: Global,
    rules: &Plain,
    finding: Record,
    admitted: Sequence<u32>,
) -> Result<char, AllocError> {
    let mut finding = finding;
    finding.admitted = admitted;
    let applied = rules.apply(alloc, &finding)?;
    Ok(if applied.suppressed { 's' } else { 'a' })
}

/// For each of these results the numbers of the entries with `max` that admit it.
fn admitted_by(
    alloc: Global,
    rules: &Plain,
    findings: &[Record],
) -> Result<Vec<Sequence<u32>>, AllocError> {
    let mut records = Vec::with_capacity(alloc, findings.len())?;
    for finding in findings {
        records.push(finding)?;
    }
    rules.admitted(alloc, &records)
}

/// Returns one letter for each of these results, in order.
fn sides_by(alloc: Global, rules: &Plain, uris: &[&str]) -> Result<String, AllocError> {
    let mut findings = Vec::new(alloc);
    for uri in uris {
        findings.push(result_at(alloc, "R1", Some(uri))?)?;
    }
    let mut lists = admitted_by(alloc, rules, &findings)?.into_iter();
    let mut sides = String::new(alloc);
    for finding in findings {
        if let Some(admitted) = lists.next() {
            sides.push(side_of(alloc, rules, finding, admitted)?)?;
        }
    }
    Ok(sides)
}

/// Those letters for a file of version 5 that is not read yet.
fn sides_of(alloc: Global, entries: &str, uris: &[&str]) -> Result<String, Refusal<FileFault>> {
    asked_of_file(
        alloc,
        file_of(5, entries),
        |rules| sides_by(alloc, rules, uris),
    )
}

/// The entries, and which results they suppress, of `a.c`, `b.c`, `a.c` and `a.c`.
const LIMITED: [(&str, &str); 6] = [
    (r#"{"max":2,"uri":"a.c"}"#, "sasa"),
    (r#"{"max":1,"tool":"lint"},{"max":2,"uri":"a.c"}"#, "sasa"),
    (r#"{"max":1,"uri":"a.c"},{"max":1,"uri":"b.c"}"#, "ssaa"),
    (r#"{"max":1,"uri":"a.c"},{"max":1,"uri":"a.c"}"#, "saaa"),
    (r#"{"max":4294967295,"uri":"a.c"}"#, "sass"),
    (r#"{"max":null,"uri":"a.c"}"#, "sass"),
];

#[test]
fn an_entry_matches_the_first_results(rt: HostRuntime) -> Result<(), Fail> {
    let alloc = rt.alloc();
    for (entries, wanted) in LIMITED {
        let sides = sides_of(alloc, entries, &["a.c", "b.c", "a.c", "a.c"])?;
        assert_eq!(rt; sides.as_str(), wanted);
    }
    Ok(())
}

#[test]
fn each_entry_counts_by_itself(rt: HostRuntime) -> Result<(), Fail> {
    let entries = r#"{"max":1,"tool":"lint"},{"max":2,"uri":"a.c"}"#;
    let sides = sides_of(rt.alloc(), entries, &["a.c", "a.c", "a.c"])?;
    assert_eq!(rt; sides.as_str(), "ssa");
    Ok(())
}

/// Files whose only entry is rejected.
const REJECTED: [(u32, &str, Fault); 9] = [
    (5, r#"{"max":1}"#, Fault::EmptyMatch),
    (5, r#"{"max":0,"uri":"a.c"}"#, Fault::BadEntry),
    (5, r#"{"max":-1,"uri":"a.c"}"#, Fault::BadEntry),
    (5, r#"{"max":4294967296,"uri":"a.c"}"#, Fault::BadEntry),
    (5, r#"{"max":"1","uri":"a.c"}"#, Fault::BadEntry),
    (5, r#"{"max":1.5,"uri":"a.c"}"#, Fault::BadEntry),
    (5, r#"{"max":true,"uri":"a.c"}"#, Fault::BadEntry),
    (5, r#"{"max":0}"#, Fault::BadEntry),
    (4, r#"{"max":1,"uri":"a.c"}"#, Fault::BadEntry),
];

#[test]
fn max_is_a_number_from_1(rt: HostRuntime) -> Result<(), Fail> {
    let alloc = rt.alloc();
    for (version, entry, wanted) in REJECTED {
        let text = format!(in alloc; "{{\"version\":{version},\"suppressions\":[{entry}]}}")?;
        let fault = match entries_of_file(alloc, text.as_bytes(), None) {
            Err(Refusal::Fault(found)) => Some(found.fault),
            _ => None,
        };
        assert!(rt; fault == Some(wanted));
    }
    Ok(())
}
