//! Merges of logs without a baseline.
use sarif_counts::Verdict;
use sarif_log::Merged;
use sarif_model::{Level, State};
use sarif_options::Policy;
use sarif_prepare::Asked;
use std::process::Abort;
use std::test::Fail;
use test_merges::{
    Given, NOTHING, Texts, expect_runs, log_of, merge, merge_texts, one_log, options_by,
};

/// The log of one result without a level, merged: a new warning.
const MERGED: &str = concat!(
    r#"{"properties":{"gate":{"counts":{"#,
    r#""absent":{"active":[0,0,0,0],"suppressed":[0,0,0,0]},"new":{"active":[0,1,0,0],"#,
    r#""suppressed":[0,0,0,0]},"unchanged":{"active":[0,0,0,0],"suppressed":[0,0,0,0]},"#,
    r#""updated":{"active":[0,0,0,0],"suppressed":[0,0,0,0]}},"failOn":"error","hits":0,"max":0,"#,
    r#""runsWithoutResults":0,"states":["new","updated"],"unusedSuppressions":0,"#,
    r#""verdict":"pass"}},"runs":[{"results":[{"baselineState":"new","level":"warning","#,
    r#""message":{"text":"m"},"suppressions":[]}],"tool":{"driver":{"name":"lint"}}}],"#,
    r#""version":"2.1.0"}"#
);

/// Asserts that this is the merge of that log: one new warning, which the gate lets pass.
fn assert_is_warning(rt: &impl Abort, merged: &Merged) {
    assert_eq!(rt; merged.log.as_str(), MERGED);
    assert_eq!(rt; merged.counts.get(State::New, Level::Warning, false), 1);
    assert_eq!(rt; merged.counts.get(State::New, Level::Error, false), 0);
    assert_eq!(rt; merged.verdict, Verdict::Pass);
    assert_eq!(rt; merged.without, 0);
    assert_eq!(rt; merged.unused, 0);
    assert_eq!(rt; merged.expired, 0);
}

#[test]
fn a_result_without_a_level_is_a_new_warning(rt: HostRuntime) -> Result<(), Fail> {
    let given = one_log(rt.alloc(), "lint: M")?;
    assert_is_warning(&rt, &merge(&rt, &given)?);
    Ok(())
}

#[test]
fn a_log_that_a_reader_gives(rt: HostRuntime) -> Result<(), Fail> {
    let log = log_of(rt.alloc(), "lint: M")?;
    let options = options_by(rt.alloc(), Policy::default(), None, 1)?;
    let asked = Asked {
        options: &options,
        reporting: None,
        upkeep: None,
        choice: None,
    };
    assert_is_warning(&rt, &merge_texts(&rt, Texts::of(log.as_str()), &asked)?);
    Ok(())
}

#[test]
fn no_logs_have_no_runs(rt: HostRuntime) -> Result<(), Fail> {
    let given = Given::new(rt.alloc());
    expect_runs(&rt, &given, NOTHING, "[]")?;
    Ok(())
}
