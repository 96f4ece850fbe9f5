//! The page under a policy that the command line can't give, and of a gate for one change.
use sarif_change::Scope;
use sarif_counts::Counts;
use sarif_findings::Show;
use sarif_options::{Policy, States};
use sarif_page::html_report;
use sarif_scope::ChangeFacts;
use sarif_shown::ReportInput;
use std::alloc::{AllocError, Global};
use std::hash::RandomState;
use std::test::Fail;

/// Returns the page of a log without findings.
fn empty_page<'a>(
    alloc: Global,
    seed: RandomState,
    counts: &'a Counts,
    policy: &'a Policy,
    change: Option<ChangeFacts>,
) -> Result<String, AllocError> {
    let told = ReportInput {
        counts,
        policy,
        show: Show::All,
        link: None,
        findings: &[],
        without: 0,
        unused: 0,
        life: None,
        change,
        ruling: None,
        seed,
    };
    html_report(alloc, &told)
}

#[test]
fn no_result_is_a_hit_if_no_state_counts(rt: HostRuntime) -> Result<(), Fail> {
    let policy = Policy {
        states: States {
            absent: false,
            fresh: false,
            unchanged: false,
            updated: false,
        },
        ..Policy::default()
    };
    let counts = Counts::new();
    let page = empty_page(rt.alloc(), RandomState::new(&rt)?, &counts, &policy, None)?;
    assert!(rt; page.contains("<p>No state counts, so no result is a hit.</p>"));
    Ok(())
}

#[test]
fn a_change_is_in_the_reason_and_told_after_the_counts(rt: HostRuntime) -> Result<(), Fail> {
    let facts = ChangeFacts {
        files: 1,
        lines: 1,
        outside: 2,
        unreported: 2,
        scope: Scope::Files,
    };
    let (counts, policy) = (Counts::new(), Policy::default());
    let seed = RandomState::new(&rt)?;
    let page = empty_page(rt.alloc(), seed, &counts, &policy, Some(facts))?;
    let reason = "of level error, in a file of the change, and not suppressed.</p>";
    assert!(rt; page.contains(reason));
    let outside =
        "<p class=\"mind\">2 results outside the change would be hits.</p>\n</div>\n</header>";
    assert!(rt; page.contains(outside));
    Ok(())
}
