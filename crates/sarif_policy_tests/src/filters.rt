//! Which results a condition checks.
use sarif_model::{Record, Refusal, copy_if_there};
use sarif_policy::{PolicyFault, read_policy};
use std::alloc::Global;
use std::test::Fail;
use test_suppress::result_at;

/// Returns whether the first condition of a policy checks the result.
fn checks(alloc: Global, filters: &str, record: &Record) -> Result<bool, Refusal<PolicyFault>> {
    let file = format!(in alloc; "{{\"version\":1,\"conditions\":[{{\"name\":\"c\"{filters}}}]}}")?;
    let policy = read_policy(alloc, file.as_bytes(), false)?;
    Ok(
        policy
            .conditions
            .as_slice()
            .iter()
            .any(|condition| condition.checks(record)),
    )
}

/// Filters, and whether a result of rule `R1` at `a.c` is checked.
const FILTERS: [(&str, bool); 6] = [
    ("", true),
    (",\"only\":[{\"ruleId\":\"R1\"},{\"ruleId\":\"R2\"}]", true),
    (",\"only\":[{\"ruleId\":\"R2\"}]", false),
    (",\"only\":[{\"ruleId\":\"R1\",\"uri\":\"b.c\"}]", false),
    (",\"except\":[{\"uriPrefix\":\"a\"}]", false),
    (
        ",\"only\":[{\"ruleId\":\"R1\"}],\"except\":[{\"ruleId\":\"R2\"},{\"uri\":\"a.c\"}]",
        false,
    ),
];

#[test]
fn a_condition_checks_what_its_filters_choose(rt: HostRuntime) -> Result<(), Fail> {
    let alloc = rt.alloc();
    let record = result_at(alloc, "R1", Some("a.c"))?;
    for (filters, wanted) in FILTERS {
        assert!(rt; checks(alloc, filters, &record)? == wanted);
    }
    Ok(())
}

/// Snippets, and whether a result with each is checked by filters that name `x=1` and the empty string.
const SNIPPETS: [(Option<&str>, bool); 4] = [
    (Some("x = 1"), true),
    (Some(" "), true),
    (Some("x=2"), false),
    (None, false),
];

#[test]
fn a_filter_may_name_a_snippet(rt: HostRuntime) -> Result<(), Fail> {
    let alloc = rt.alloc();
    for (snippet, wanted) in SNIPPETS {
        let mut record = result_at(alloc, "R1", Some("a.c"))?;
        record.snippet = copy_if_there(alloc, snippet)?;
        let filters = ",\"only\":[{\"snippet\":\" x=1\"},{\"snippet\":\"\"}]";
        assert!(rt; checks(alloc, filters, &record)? == wanted);
    }
    Ok(())
}
