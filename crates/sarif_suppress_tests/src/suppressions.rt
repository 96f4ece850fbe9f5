//! Suppression files with results that were computed by hand.
use sarif_entries::{FileFault, entries_of_file};
use sarif_model::{Record, Refusal, Status};
use sarif_suppress::{Marks, all_accepted};
use serde_json::Value;
use std::alloc::{AllocError, Global};
use std::test::Fail;
use test_suppress::{FileText, Plain, asked_of_file, asked_of_none, file_of, result_at};

/// A result of the rule `R1` with an accepted own suppression.
fn accepted(alloc: Global) -> Result<Record, AllocError> {
    let mut finding = result_at(alloc, "R1", None)?;
    finding.held.push(Status::Accepted)?;
    Ok(finding)
}

/// The array that this JSON represents.
fn array_of(alloc: Global, text: &str) -> Vec<Value> {
    match Value::from_str(alloc, text) {
        Ok(Value::Array(values)) => values,
        _ => Vec::new(alloc),
    }
}

/// The written suppressions of a result with these own suppressions, and whether it is suppressed.
fn written_by(
    alloc: Global,
    rules: &Plain,
    finding: &Record,
    own: &str,
) -> Result<(String, bool), AllocError> {
    let applied = rules.apply(alloc, finding)?;
    let list = rules.write_suppressions(alloc, array_of(alloc, own), &applied)?;
    Ok((Value::Array(list).to_string(alloc)?, applied.suppressed))
}

/// The written suppressions by a file that is not read yet, and whether the result is suppressed.
fn written_of(
    alloc: Global,
    file: FileText,
    finding: &Record,
    own: &str,
) -> Result<(String, bool), Refusal<FileFault>> {
    asked_of_file(alloc, file, |rules| written_by(alloc, rules, finding, own))
}

/// Own suppressions of other types, and the object of an entry in an array.
const OWN: &str =
    r#"7,"accepted",null,[{"justification":"j","kind":"external","status":"accepted"}]"#;

/// One entry, five and seven that match the result, and the objects that are written for them.
const FILES: [(&str, &str, bool); 3] = [
    (
        r#"{"ruleId":"R1","justification":"j"}"#,
        r#"{"justification":"j","kind":"external","status":"accepted"}"#,
        true,
    ),
    (
        r#"{"ruleId":"R1","justification":"j"},{"tool":"lint","justification":"j"},{"ruleId":"R1","justification":"j"},{"tool":"lint","justification":"j"},{"ruleId":"R1","justification":"j"}"#,
        r#"{"justification":"j","kind":"external","status":"accepted"}"#,
        true,
    ),
    (
        r#"{"ruleId":"R1","justification":"a"},{"ruleId":"R1"},{"ruleId":"R1","justification":"b"},{"tool":"lint","justification":"a"},{"tool":"lint","status":"underReview","justification":"a"},{"tool":"lint"},{"tool":"lint","justification":""}"#,
        r#"{"justification":"a","kind":"external","status":"accepted"},{"kind":"external","status":"accepted"},{"justification":"b","kind":"external","status":"accepted"},{"justification":"a","kind":"external","status":"underReview"},{"justification":"","kind":"external","status":"accepted"}"#,
        false,
    ),
];

#[test]
fn own_values_of_any_type_stay(rt: HostRuntime) -> Result<(), Fail> {
    let alloc = rt.alloc();
    let own = format!(in alloc; "[{OWN}]")?;
    let finding = accepted(alloc)?;
    for (entries, added, suppressed) in FILES {
        let wanted = format!(in alloc; "[{OWN},{added}]")?;
        let (list, found) = written_of(alloc, file_of(1, entries), &finding, own.as_str())?;
        assert_eq!(rt; list.as_str(), wanted.as_str());
        assert_eq!(rt; found, suppressed);
    }
    Ok(())
}

/// Sets the marks of a result with that rule id.
fn mark(alloc: Global, rules: &Plain, marks: &mut Marks, rule_id: &str) -> Result<(), AllocError> {
    let finding = result_at(alloc, rule_id, None)?;
    let applied = rules.apply(alloc, &finding)?;
    marks.set(&applied);
    Ok(())
}

/// How many entries are unmarked before any of these results, and after each of them.
fn unmarked_by(alloc: Global, rules: &Plain, rule_ids: &[&str]) -> Result<Vec<u32>, AllocError> {
    let mut marks = rules.marks(alloc)?;
    let mut counts = vec![in alloc; marks.unused()]?;
    for rule_id in rule_ids {
        mark(alloc, rules, &mut marks, rule_id)?;
        counts.push(marks.unused())?;
    }
    Ok(counts)
}

/// Returns those numbers for a file that is not read yet.
fn unmarked_of(
    alloc: Global,
    file: FileText,
    rule_ids: &[&str],
) -> Result<Vec<u32>, Refusal<FileFault>> {
    asked_of_file(alloc, file, |rules| unmarked_by(alloc, rules, rule_ids))
}

#[test]
fn marks_count_what_no_result_used(rt: HostRuntime) -> Result<(), Fail> {
    let file = file_of(
        1,
        "{\"ruleId\":\"R1\"},{\"ruleId\":\"R2\"},{\"tool\":\"lint\"}",
    );
    let counts = unmarked_of(rt.alloc(), file, &["R3", "R1"])?;
    assert!(rt; counts.as_slice() == [3, 2, 1].as_slice());
    Ok(())
}

/// How many entries there are without a file.
fn size_of_none(alloc: Global) -> Result<(u32, bool), AllocError> {
    asked_of_none(alloc, |rules| Ok((rules.len(), rules.is_empty())))
}

#[test]
fn without_a_file_there_are_no_entries(rt: HostRuntime) -> Result<(), Fail> {
    assert_eq!(rt; size_of_none(rt.alloc())?, (0, true));
    Ok(())
}

#[test]
fn suppressions_are_in_effect_if_all_are_accepted(rt: HostRuntime) -> Result<(), Fail> {
    let accepted = Status::Accepted;
    assert!(rt; all_accepted(&[]));
    assert!(rt; all_accepted(&[accepted, accepted]));
    assert!(rt; !all_accepted(&[accepted, Status::UnderReview]));
    assert!(rt; !all_accepted(&[Status::Rejected, accepted]));
    Ok(())
}

/// An entry with an expiry date.
const DATED: &str = r#"{"version":2,"suppressions":[{"uriPrefix":"gen/","expires":20250131}]}"#;

#[test]
fn any_number_serves_as_todays_date(rt: HostRuntime) {
    let fault = entries_of_file(rt.alloc(), DATED.as_bytes(), Some(0)).err();
    assert!(rt; fault.is_none());
}
