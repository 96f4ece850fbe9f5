//! The reports of a gate with a policy.
use sarif_conditions::{ConditionFacts, PolicyFacts};
use sarif_counts::{Counts, Impact};
use sarif_findings::{Finding, Show};
use sarif_links::Template;
use sarif_model::{Level, Sequence, State, Text};
use sarif_options::Policy;
use sarif_page::html_report;
use sarif_reports::{junit_report, markdown_report};
use sarif_shown::{ReportInput, Screen, terminal_report, text_report};
use std::alloc::{AllocError, Global};
use std::hash::RandomState;
use std::test::Fail;

/// A result of the tool lint, without a place, with this rule, this message, this level and this impact.
fn finding(
    alloc: Global,
    rule: &str,
    message: &str,
    level: Level,
    impact: Impact,
) -> Result<Finding, AllocError> {
    Ok(Finding {
        tool: Text::copy_of(alloc, "lint")?,
        rule: Text::copy_of(alloc, rule)?,
        level,
        state: State::New,
        message: Text::copy_of(alloc, message)?,
        path: None,
        exact: false,
        line: None,
        column: None,
        help: None,
        rule_name: None,
        code: None,
        impact,
    })
}

/// What a gate says about a condition.
fn condition(
    alloc: Global,
    name: &str,
    hits: u32,
    limit: u64,
    outside: Option<u32>,
) -> Result<ConditionFacts, AllocError> {
    Ok(ConditionFacts {
        name: Text::copy_of(alloc, name)?,
        hits,
        limit,
        outside,
        fails: u64::from(hits) > limit,
    })
}

/// What a gate says about these conditions, with these numbers of hits and of reported results.
fn ruling(conditions: Sequence<ConditionFacts>, hits: u32, reported: u32) -> PolicyFacts {
    PolicyFacts {
        conditions,
        hits,
        reported,
        unchecked: 0,
        unused_filters: 0,
    }
}

/// What reports are made from.
fn told<'a>(
    counts: &'a Counts,
    policy: &'a Policy,
    findings: &'a [Finding],
    ruling: &'a PolicyFacts,
    seed: RandomState,
) -> ReportInput<'a> {
    ReportInput {
        counts,
        policy,
        show: Show::All,
        link: None,
        findings,
        without: 0,
        unused: 0,
        life: None,
        change: None,
        ruling: Some(ruling),
        seed,
    }
}

/// A hit of a condition that passes, a result that isn't a hit, and a hit of a condition that fails.
fn three_results(alloc: Global) -> Result<Vec<Finding>, AllocError> {
    let mut findings = Vec::new(alloc);
    findings.push(finding(alloc, "R1", "m", Level::Error, Impact::Hit)?)?;
    findings.push(finding(alloc, "R2", "m", Level::Note, Impact::None)?)?;
    findings.push(finding(alloc, "R3", "m", Level::Error, Impact::Stops)?)?;
    Ok(findings)
}

/// What a gate says about them.
fn three_ruled(alloc: Global) -> Result<PolicyFacts, AllocError> {
    let mut conditions = Sequence::new(alloc);
    conditions.push(condition(alloc, "one", 1, 1, None)?)?;
    conditions.push(condition(alloc, "two", 1, 0, None)?)?;
    Ok(ruling(conditions, 2, 3))
}

#[test]
fn what_stops_the_change_is_first_and_fails(rt: HostRuntime) -> Result<(), Fail> {
    let alloc = rt.alloc();
    let (counts, policy) = (Counts::new(), Policy::default());
    let (findings, facts) = (three_results(alloc)?, three_ruled(alloc)?);
    let told = told(&counts, &policy, &findings, &facts, RandomState::new(&rt)?);
    let text = text_report(alloc, &findings)?;
    assert_eq!(rt;
        text.as_str(),
        "-: error: m [R3] (lint, new)\n-: error: m [R1] (lint, new)\n-: note: m [R2] (lint, new)\n"
    );
    let junit = junit_report(alloc, &told)?;
    assert!(rt; junit.contains("tests=\"3\" failures=\"1\" skipped=\"1\">"));
    assert!(rt; junit.contains("<testcase name=\"-: R3\" classname=\"lint\"><failure "));
    assert!(rt; junit.contains("<testcase name=\"-: R1\" classname=\"lint\"><skipped "));
    assert!(rt; junit.contains("<testcase name=\"-: R2\" classname=\"lint\"/>"));
    Ok(())
}

#[test]
fn markdown_has_the_conditions(rt: HostRuntime) -> Result<(), Fail> {
    let alloc = rt.alloc();
    let (counts, policy) = (Counts::new(), Policy::default());
    let (findings, facts) = (three_results(alloc)?, three_ruled(alloc)?);
    let told = told(&counts, &policy, &findings, &facts, RandomState::new(&rt)?);
    let text = markdown_report(alloc, &told)?;
    assert!(rt; text.starts_with("## Gate: fail, 2 hits, 1 of 2 conditions failed\n\n| |"));
    let table = "\
| absent | 0 | 0 | 0 | 0 | 0 |

| condition | verdict | hits | limit | outside |
|---|---|--:|--:|--:|
| <code>one</code> | pass | 1 | 1 |  |
| <code>two</code> | fail | 1 | 0 |  |

| hit | level |";
    assert!(rt; text.contains(table));
    Ok(())
}

#[test]
fn the_page_has_the_conditions(rt: HostRuntime) -> Result<(), Fail> {
    let alloc = rt.alloc();
    let (counts, policy) = (Counts::new(), Policy::default());
    let (findings, facts) = (three_results(alloc)?, three_ruled(alloc)?);
    let told = told(&counts, &policy, &findings, &facts, RandomState::new(&rt)?);
    let page = html_report(alloc, &told)?;
    assert!(rt; page.contains("<title>Gate: fail, 2 hits, 1 of 2 conditions failed</title>"));
    assert!(rt; page.contains("<span>, 2 hits, 1 of 2 conditions failed</span></h1>"));
    assert!(rt;
        page.contains(
            "<p>A hit is a result that meets a condition of the policy and is not suppressed.</p>"
        )
    );
    assert!(rt; page.contains("<caption>All results by state and level</caption>"));
    assert!(rt; !page.contains("class=\"on\""));
    assert!(rt; page.contains(">one</th><td>pass</td><td>1</td><td>1</td><td></td></tr>\n<tr>"));
    assert!(rt;
        page.contains(
            ">two</th><td>fail</td><td>1</td><td>0</td><td></td></tr>\n</tbody>\n</table>\n</div>\n</header>"
        )
    );
    assert!(rt; page.contains("2 hits, 1 of them stops this change</h2>"));
    Ok(())
}

#[test]
fn what_was_not_looked_at_is_told(rt: HostRuntime) -> Result<(), Fail> {
    let alloc = rt.alloc();
    let (counts, policy) = (Counts::new(), Policy::default());
    let mut conditions = Sequence::new(alloc);
    conditions.push(condition(alloc, "lines", 1, 0, Some(3))?)?;
    let mut facts = ruling(conditions, 1, 1);
    facts.unused_filters = 1;
    facts.unchecked = 5;
    let mut findings = Vec::new(alloc);
    findings.push(finding(alloc, "R1", "m", Level::Note, Impact::Stops)?)?;
    let told = told(&counts, &policy, &findings, &facts, RandomState::new(&rt)?);
    let text = markdown_report(alloc, &told)?;
    assert!(rt; text.starts_with("## Gate: fail, 1 hit, 1 of 1 condition failed\n"));
    let notes = "\
| absent | 0 | 0 | 0 | 0 | 0 |

1 filter of the policy matches nothing.
No condition checks 5 active results.

| condition | verdict | hits | limit | outside |
|---|---|--:|--:|--:|
| <code>lines</code> | fail | 1 | 0 | 3 |
";
    assert!(rt; text.contains(notes));
    let page = html_report(alloc, &told)?;
    assert!(rt;
        page.contains(
            "<p class=\"mind\">1 filter of the policy matches nothing.</p>\n\
         <p class=\"mind\">No condition checks 5 active results.</p>\n<table"
        )
    );
    assert!(rt; page.contains("1 hit stops this change</h2>"));
    Ok(())
}

/// Six results: the first and the second are hits of a condition that passes, the third is a hit of a condition that fails,
/// and the fifth is a hit of another condition that passes.
fn six_results(alloc: Global) -> Result<Vec<Finding>, AllocError> {
    let mut findings = Vec::new(alloc);
    findings.push(finding(alloc, "N1", "N1", Level::Note, Impact::Hit)?)?;
    findings.push(finding(alloc, "W", "W", Level::Warning, Impact::Hit)?)?;
    findings.push(finding(alloc, "N2", "N2", Level::Note, Impact::Stops)?)?;
    findings.push(finding(alloc, "X", "X", Level::Warning, Impact::None)?)?;
    findings.push(finding(alloc, "E", "E", Level::Error, Impact::Hit)?)?;
    findings.push(finding(alloc, "Y", "Y", Level::NoLevel, Impact::None)?)?;
    Ok(findings)
}

/// What a gate says about them.
fn six_ruled(alloc: Global) -> Result<PolicyFacts, AllocError> {
    let mut conditions = Sequence::new(alloc);
    conditions.push(condition(alloc, "one", 2, 2, None)?)?;
    conditions.push(condition(alloc, "two", 1, 0, None)?)?;
    conditions.push(condition(alloc, "three", 1, 9, None)?)?;
    Ok(ruling(conditions, 4, 6))
}

const SIX_LINES: &str = "\
-: note: N2 [N2] (lint, new)
-: error: E [E] (lint, new)
-: warning: W [W] (lint, new)
-: note: N1 [N1] (lint, new)
-: warning: X [X] (lint, new)
-: none: Y [Y] (lint, new)
";

const FOUR_LINES: &str = "\
-: note: N2 [N2] (lint, new)
-: error: E [E] (lint, new)
-: warning: W [W] (lint, new)
-: note: N1 [N1] (lint, new)

";

#[test]
fn a_note_that_stops_is_before_an_error_that_passes(rt: HostRuntime) -> Result<(), Fail> {
    let alloc = rt.alloc();
    let (counts, policy) = (Counts::new(), Policy::default());
    let (findings, facts) = (six_results(alloc)?, six_ruled(alloc)?);
    let told = told(&counts, &policy, &findings, &facts, RandomState::new(&rt)?);
    assert_eq!(rt; text_report(alloc, &findings)?.as_str(), SIX_LINES);
    assert_eq!(rt;
        terminal_report(alloc, Screen::Plain, &findings)?.as_str(),
        FOUR_LINES
    );
    let junit = junit_report(alloc, &told)?;
    assert!(rt; junit.contains("tests=\"6\" failures=\"1\" skipped=\"3\">"));
    Ok(())
}

#[test]
fn results_that_are_not_shown_are_counted(rt: HostRuntime) -> Result<(), Fail> {
    let alloc = rt.alloc();
    let (counts, policy) = (Counts::new(), Policy::default());
    let facts = six_ruled(alloc)?;
    let mut findings = Vec::new(alloc);
    for finding in six_results(alloc)? {
        if finding.impact.is_hit() {
            findings.push(finding)?;
        }
    }
    let mut told = told(&counts, &policy, &findings, &facts, RandomState::new(&rt)?);
    told.show = Show::Hits;
    let text = markdown_report(alloc, &told)?;
    assert!(rt; text.contains("\n\n2 other results aren't shown.\n\nTo accept these hits,"));
    Ok(())
}

#[test]
fn hits_within_the_limits_pass(rt: HostRuntime) -> Result<(), Fail> {
    let alloc = rt.alloc();
    let (counts, policy) = (Counts::new(), Policy::default());
    let mut conditions = Sequence::new(alloc);
    conditions.push(condition(alloc, "r", 1, 2, None)?)?;
    let facts = ruling(conditions, 1, 1);
    let mut findings = Vec::new(alloc);
    findings.push(finding(alloc, "R1", "m", Level::Error, Impact::Hit)?)?;
    let told = told(&counts, &policy, &findings, &facts, RandomState::new(&rt)?);
    let page = html_report(alloc, &told)?;
    assert!(rt; page.contains("<title>Gate: pass, 1 hit, 0 of 1 condition failed</title>"));
    assert!(rt; page.contains("1 hit, within the limits</h2>"));
    let junit = junit_report(alloc, &told)?;
    assert!(rt; junit.contains("tests=\"1\" failures=\"0\" skipped=\"1\">"));
    Ok(())
}

/// This character as often as that.
fn repeated(alloc: Global, character: &str, times: u32) -> Result<String, AllocError> {
    let mut text = String::new(alloc);
    for _ in 0..times {
        text.push_str(character)?;
    }
    Ok(text)
}

/// What a gate says about 100 conditions with names of two digits and 48 dots, which each have 100 hits.
fn hundred_conditions(alloc: Global) -> Result<Sequence<ConditionFacts>, AllocError> {
    let dots = repeated(alloc, ".", 48)?;
    let mut conditions = Sequence::new(alloc);
    for number in 10..110 {
        let number = number % 100;
        let ten = number / 10;
        let one = number % 10;
        let name = format!(in alloc; "{ten}{one}{dots}")?;
        conditions.push(condition(alloc, name.as_str(), 100, 0, None)?)?;
    }
    Ok(conditions)
}

#[test]
fn rows_of_conditions_count_among_the_bytes(rt: HostRuntime) -> Result<(), Fail> {
    let alloc = rt.alloc();
    let (counts, policy) = (Counts::new(), Policy::default());
    let facts = ruling(hundred_conditions(alloc)?, 100, 100);
    let message = repeated(alloc, "x", 508)?;
    let mut findings = Vec::new(alloc);
    for _ in 0..100 {
        findings.push(finding(alloc, "R", message.as_str(), Level::Error, Impact::Stops)?)?;
    }
    let told = told(&counts, &policy, &findings, &facts, RandomState::new(&rt)?);
    let text = markdown_report(alloc, &told)?;
    assert!(rt; text.starts_with("## Gate: fail, 100 hits, 100 of 100 conditions failed\n"));
    assert!(rt; text.contains("\n47 more hits are in the merged log.\n"));
    assert!(rt; text.len() < 62_000);
    Ok(())
}

/// A result with a path of `characters` characters of four bytes, and with a rule and a message of 1,000 marks.
fn large_result(alloc: Global, characters: u32) -> Result<Finding, AllocError> {
    let marks = repeated(alloc, "~", 1_000)?;
    let path = repeated(alloc, "\u{10000}", characters)?;
    let mut large = finding(
        alloc,
        marks.as_str(),
        marks.as_str(),
        Level::Error,
        Impact::Stops,
    )?;
    large.tool = Text::copy_of(alloc, marks.as_str())?;
    large.path = Some(Text::from_string(path)?);
    large.exact = true;
    Ok(large)
}

/// The report in Markdown of a large result and a small one, with 100 conditions and linked places.
fn large_report(alloc: Global, seed: RandomState, characters: u32) -> Result<String, Fail> {
    let (counts, policy) = (Counts::new(), Policy::default());
    let facts = ruling(hundred_conditions(alloc)?, 2, 2);
    let link = Template::parse(alloc, "https://h/{path}")?.ok_or("no template")?;
    let mut findings = Vec::new(alloc);
    findings.push(large_result(alloc, characters)?)?;
    findings.push(finding(alloc, "R", "m", Level::Error, Impact::Stops)?)?;
    let mut told = told(&counts, &policy, &findings, &facts, seed);
    told.link = Some(&link);
    Ok(markdown_report(alloc, &told)?)
}

#[test]
fn no_table_has_a_row_that_does_not_fit(rt: HostRuntime) -> Result<(), Fail> {
    let alloc = rt.alloc();
    let seed = RandomState::new(&rt)?;
    let none = large_report(alloc, seed, 1_000)?;
    assert!(rt; !none.contains("| hit | level |"));
    assert!(rt; none.contains("|  |\n\n2 more hits are in the merged log.\n\nTo accept"));
    let both = large_report(alloc, seed, 700)?;
    assert!(rt; both.contains("|  |\n\n| hit | level |"));
    assert!(rt; !both.contains("in the merged log."));
    Ok(())
}
