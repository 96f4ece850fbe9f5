//! Policy files with an error, and its place.
use sarif_model::Refusal;
use sarif_policy::{PolicyFault, read_policy};
use std::alloc::{AllocError, Global};
use std::test::Fail;

/// Returns the error of a policy file as it is shown; `none` if it has none.
fn shown(alloc: Global, file: &str, has_diff: bool) -> Result<String, AllocError> {
    let fault: Option<PolicyFault> = match read_policy(alloc, file.as_bytes(), has_diff) {
        Err(Refusal::Fault(found)) => Some(found),
        _ => None,
    };
    match fault {
        Some(found) => format!(in alloc; "{found}"),
        None => format!(in alloc; "none"),
    }
}

/// Files, and the error of each.
const FILES: [(&str, &str); 15] = [
    ("{", "policy: NotJson"),
    ("[]", "policy: NotPolicy"),
    ("{\"version\":1}", "policy: NotPolicy"),
    ("{\"version\":1,\"conditions\":null}", "policy: NotPolicy"),
    (
        "{\"version\":1,\"conditions\":[],\"max\":0}",
        "policy: NotPolicy",
    ),
    ("{\"version\":2,\"conditions\":[]}", "policy: WrongVersion"),
    (
        "{\"version\":1.0,\"conditions\":[]}",
        "policy: WrongVersion",
    ),
    (
        "{\"version\":\"1\",\"conditions\":[]}",
        "policy: WrongVersion",
    ),
    ("{\"conditions\":[]}", "policy: WrongVersion"),
    ("{\"version\":1,\"conditions\":[]}", "policy: NoCondition"),
    (
        "{\"version\":1,\"conditions\":[{\"name\":\"c\"},{\"name\":\"d\"},{\"name\":\"c\"}]}",
        "policy, condition 2: SameName",
    ),
    (
        "{\"version\":1,\"conditions\":[{\"name\":\"c\"},{\"name\":\"d\",\"diff\":\"lines\"}]}",
        "policy, condition 1: NeedsDiff",
    ),
    (
        "{\"$schema\":5,\"version\":1,\"conditions\":[{\"name\":\"c\",\"level\":null}]}",
        "none",
    ),
    (
        "{\"$schema\":null,\"version\":1,\"conditions\":[{\"name\":\"c\"}]}",
        "none",
    ),
    (
        "{\"version\":1,\"conditions\":[{\"name\":\"c\"}],\"$schema\":[{\"max\":0}]}",
        "none",
    ),
];

#[test]
fn the_form_of_a_policy_is_checked_in_order(rt: HostRuntime) -> Result<(), Fail> {
    let alloc = rt.alloc();
    for (file, wanted) in FILES {
        assert_eq!(rt; shown(alloc, file, false)?.as_str(), wanted);
    }
    Ok(())
}

/// Second conditions of a policy that are bad.
const CONDITIONS: [&str; 18] = [
    "5",
    "{}",
    "{\"name\":\" c\"}",
    "{\"name\":\"a:b\"}",
    "{\"name\":\"123456789012345678901234567890123456789012345678901\"}",
    "{\"name\":\"d\",\"Level\":\"error\"}",
    "{\"name\":\"d\",\"failOn\":\"error\"}",
    "{\"name\":\"d\",\"level\":\"high\"}",
    "{\"name\":\"d\",\"states\":[]}",
    "{\"name\":\"d\",\"states\":[\"new\",\"new\"]}",
    "{\"name\":\"d\",\"max\":1.0}",
    "{\"name\":\"d\",\"ratchet\":1}",
    "{\"name\":\"d\",\"only\":[]}",
    "{\"name\":\"d\",\"minSecuritySeverity\":7}",
    "{\"name\":\"d\",\"unrated\":\"skip\"}",
    "{\"name\":\"d\",\"ratchet\":true,\"states\":[\"absent\"]}",
    "{\"name\":\"d\",\"ratchet\":true,\"diff\":\"lines\"}",
    "{\"name\":\"d\",\"diff\":\"files\",\"states\":[\"absent\"]}",
];

/// Returns a policy of a good condition and this one.
fn policy_with(alloc: Global, condition: &str) -> Result<String, AllocError> {
    format!(in alloc; "{{\"version\":1,\"conditions\":[{{\"name\":\"c\"}},{condition}]}}")
}

#[test]
fn a_bad_condition_is_named_by_its_number(rt: HostRuntime) -> Result<(), Fail> {
    let alloc = rt.alloc();
    for condition in CONDITIONS {
        let file = policy_with(alloc, condition)?;
        let found = shown(alloc, file.as_str(), true)?;
        assert_eq!(rt; found.as_str(), "policy, condition 1: BadCondition");
    }
    Ok(())
}

/// Conditions with filters, and the error of each.
const FILTERS: [(&str, &str); 8] = [
    (
        "\"only\":[{\"tool\":\"a\"},{\"expires\":20270101}]",
        "policy, condition 0, only 1: BadFilter",
    ),
    (
        "\"only\":[{\"tool\":\"a\"},{\"tool\":5}]",
        "policy, condition 0, only 1: BadFilter",
    ),
    (
        "\"only\":[{\"max\":1}]",
        "policy, condition 0, only 0: BadFilter",
    ),
    (
        "\"only\":[{\"snippet\":\"x\",\"max\":1}]",
        "policy, condition 0, only 0: BadFilter",
    ),
    (
        "\"except\":[{\"snippet\":\"x\"},{\"snippet\":5}]",
        "policy, condition 0, except 1: BadFilter",
    ),
    (
        "\"except\":[{\"tool\":\"a\"},{\"tool\":\"b\"},{}]",
        "policy, condition 0, except 2: EmptyFilter",
    ),
    (
        "\"except\":[{\"tool\":null}],\"only\":[{\"snippet\":5}]",
        "policy, condition 0, only 0: BadFilter",
    ),
    (
        "\"except\":[{\"snippet\":null}]",
        "policy, condition 0, except 0: EmptyFilter",
    ),
];

#[test]
fn a_bad_filter_is_named_by_its_list_and_number(rt: HostRuntime) -> Result<(), Fail> {
    let alloc = rt.alloc();
    for (filters, wanted) in FILTERS {
        let file = format!(in alloc;
            "{{\"version\":1,\"conditions\":[{{\"name\":\"c\",{filters}}}]}}"
        )?;
        assert_eq!(rt; shown(alloc, file.as_str(), false)?.as_str(), wanted);
    }
    Ok(())
}

/// Returns a policy of this many conditions.
fn policy_of(alloc: Global, count: u32) -> Result<String, AllocError> {
    let mut file = format!(in alloc; "{{\"version\":1,\"conditions\":[{{\"name\":\"c\"}}")?;
    for number in 1..count {
        let more = format!(in alloc; ",{{\"name\":\"{number}\"}}")?;
        file.push_str(more.as_str())?;
    }
    file.push_str("]}")?;
    Ok(file)
}

#[test]
fn there_are_at_most_100_conditions(rt: HostRuntime) -> Result<(), Fail> {
    let alloc = rt.alloc();
    let file = policy_of(alloc, 100)?;
    assert_eq!(rt; shown(alloc, file.as_str(), false)?.as_str(), "none");
    let file = policy_of(alloc, 101)?;
    assert_eq!(rt;
        shown(alloc, file.as_str(), false)?.as_str(),
        "policy: TooMany"
    );
    Ok(())
}

/// Returns a policy whose second condition has this many filters in the list of that name.
fn policy_with_filters(alloc: Global, list: &str, count: u32) -> Result<String, AllocError> {
    let mut condition = format!(in alloc; "{{\"name\":\"d\",\"{list}\":[{{\"tool\":\"a\"}}")?;
    for _ in 1..count {
        condition.push_str(",{\"tool\":\"a\"}")?;
    }
    condition.push_str("]}")?;
    policy_with(alloc, condition.as_str())
}

#[test]
fn there_are_at_most_1000_filters_in_a_list(rt: HostRuntime) -> Result<(), Fail> {
    let alloc = rt.alloc();
    for list in ["only", "except"] {
        let file = policy_with_filters(alloc, list, 1_000)?;
        assert_eq!(rt; shown(alloc, file.as_str(), false)?.as_str(), "none");
        let file = policy_with_filters(alloc, list, 1_001)?;
        assert_eq!(rt;
            shown(alloc, file.as_str(), false)?.as_str(),
            "policy, condition 1: BadCondition"
        );
    }
    Ok(())
}
