//! Results in short, and what a policy decides about them.
use sarif_conditions::{Decided, JudgedResult, decide, summary_of_policy};
use sarif_counts::Counts;
use sarif_model::{Level, Record, State, copy_if_there};
use sarif_policy::{Decimal, Rating, read_policy};
use std::alloc::{AllocError, Global};
use std::hash::{BuildHasherDefault, FoldHasher};
use std::test::Fail;
use test_suppress::result_at;

/// A result in short.
#[derive(Clone, Copy)]
pub struct Told<'a> {
    pub rule: &'a str,
    pub message: Option<&'a str>,
    pub state: State,
    pub level: Level,
    pub suppressed: bool,
    pub severity: Option<&'a str>,
    pub in_lines: bool,
    pub in_files: bool,
    pub is_gone: bool,
}

/// A new error of the tool `lint` of this rule, in no changed file.
pub fn new_error(rule: &str) -> Told<'_> {
    Told {
        rule,
        message: None,
        state: State::New,
        level: Level::Error,
        suppressed: false,
        severity: None,
        in_lines: false,
        in_files: false,
        is_gone: false,
    }
}

/// A new result of level `note`.
pub fn new_note(rule: &str) -> Told<'_> {
    Told {
        level: Level::Note,
        ..new_error(rule)
    }
}

/// An absent error of this rule that went away.
pub fn gone_error(rule: &str) -> Told<'_> {
    Told {
        state: State::Absent,
        is_gone: true,
        ..new_error(rule)
    }
}

/// A result that has its record and its rating.
#[derive(Drop)]
struct Finding<'a> {
    told: Told<'a>,
    record: Record,
    rating: Rating,
}

/// The rating that a string represents.
fn rating_of(alloc: Global, severity: Option<&str>) -> Result<Rating, AllocError> {
    match severity {
        None => Ok(Rating::Missing),
        Some(text) => match Decimal::read(alloc, text)? {
            None => Ok(Rating::Unknown),
            Some(number) => Ok(Rating::Number(number)),
        },
    }
}

/// The results with their records and ratings.
fn findings_of<'a>(alloc: Global, results: &[Told<'a>]) -> Result<Vec<Finding<'a>>, AllocError> {
    let mut findings = Vec::new(alloc);
    for told in results {
        let mut record = result_at(alloc, told.rule, None)?;
        record.message.text = copy_if_there(alloc, told.message)?;
        let rating = rating_of(alloc, told.severity)?;
        findings.push(Finding {
            told: *told,
            record,
            rating,
        })?;
    }
    Ok(findings)
}

/// A result as conditions see it.
fn judged_of<'w>(finding: &'w Finding<'_>) -> JudgedResult<'w> {
    JudgedResult {
        record: &finding.record,
        state: finding.told.state,
        level: finding.told.level,
        suppressed: finding.told.suppressed,
        rating: &finding.rating,
        in_lines: finding.told.in_lines,
        in_files: finding.told.in_files,
        is_gone: finding.told.is_gone,
    }
}

/// The results as conditions see them.
fn judge_all<'w>(
    alloc: Global,
    findings: &'w [Finding<'_>],
) -> Result<Vec<JudgedResult<'w>>, AllocError> {
    let mut judged = Vec::new(alloc);
    for finding in findings {
        judged.push(judged_of(finding))?;
    }
    Ok(judged)
}

/// What a policy file decides about these results.
fn decided_by(alloc: Global, file: &str, results: &[JudgedResult]) -> Result<Decided, Fail> {
    let policy = read_policy(alloc, file.as_bytes(), true)?;
    if 1000 < results.len() {
        return Err(Fail::new("too many results"));
    }
    let hasher = BuildHasherDefault::<FoldHasher>::new();
    let decided = decide(alloc, hasher, &policy, results)?;
    Ok(decided)
}

/// What a policy with these conditions decides about the results.
pub fn decided_of(alloc: Global, conditions: &str, results: &[Told<'_>]) -> Result<Decided, Fail> {
    let findings = findings_of(alloc, results)?;
    let judged = judge_all(alloc, &findings)?;
    let file = format!(in alloc; "{{\"version\":1,\"conditions\":[{conditions}]}}")?;
    decided_by(alloc, file.as_str(), &judged)
}

/// The summary of a policy with these conditions about the results, for counts that are 0.
pub fn lines_of(alloc: Global, conditions: &str, results: &[Told<'_>]) -> Result<String, Fail> {
    let decided = decided_of(alloc, conditions, results)?;
    let text = summary_of_policy(alloc, &Counts::new(), &decided.facts, &None)?;
    Ok(text)
}
