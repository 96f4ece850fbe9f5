//! Merges in which copies aren't counted. H is a result of a header, which several files include.
use std::alloc::Global;
use std::test::Fail;
use test_merges::{ExpectedCounts, Given, NOTHING, beside, expect_log, log_of, merge, one_log};

/// Adds a log with these runs, and has copies not counted.
fn with_log(mut given: Given, alloc: Global, runs: &str) -> Result<Given, Fail> {
    let log = log_of(alloc, runs)?;
    given.log(alloc, log.as_str())?;
    given.checks.once = true;
    Ok(given)
}

#[test]
fn a_header_that_two_logs_report_is_counted_once(rt: HostRuntime) -> Result<(), Fail> {
    let given = with_log(one_log(rt.alloc(), "lint: H")?, rt.alloc(), "lint: H B")?;
    let wanted = ExpectedCounts {
        copies: Some("[[1,0]]"),
        new: "0,2,0,0",
        ..NOTHING
    };
    expect_log(&rt, &given, wanted, "lint: H_NEW; lint: H_NEW B_NEW")?;
    assert_eq!(rt; merge(&rt, &given)?.copies, Some(1));
    Ok(())
}

#[test]
fn copies_in_a_run_have_the_state_of_their_finding(rt: HostRuntime) -> Result<(), Fail> {
    let mut given = beside(rt.alloc(), "lint: H H H", "lint: H")?;
    given.checks.once = true;
    let wanted = ExpectedCounts {
        copies: Some("[[0,1],[0,2]]"),
        unchanged: "0,1,0,0",
        ..NOTHING
    };
    expect_log(
        &rt,
        &given,
        wanted,
        "lint: H_UNCHANGED H_UNCHANGED H_UNCHANGED",
    )?;
    Ok(())
}

#[test]
fn a_copy_is_absent_if_its_finding_is(rt: HostRuntime) -> Result<(), Fail> {
    let mut given = beside(rt.alloc(), "lint: B", "lint: H")?;
    let copy = log_of(rt.alloc(), "lint: H")?;
    given.baseline(rt.alloc(), copy.as_str())?;
    given.checks.once = true;
    let wanted = ExpectedCounts {
        copies: Some("[[2,0]]"),
        absent: "0,1,0,0",
        new: "0,1,0,0",
        ..NOTHING
    };
    expect_log(
        &rt,
        &given,
        wanted,
        "lint: B_NEW; lint: H_ABSENT; lint: H_ABSENT",
    )?;
    Ok(())
}
