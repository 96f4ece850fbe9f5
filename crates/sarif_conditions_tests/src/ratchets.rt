//! Limits that grow by results that went away.
use crate::told::{Told, gone_error, lines_of, new_error};
use sarif_model::Level;
use std::alloc::Global;
use std::test::Fail;

/// The condition `r` with a ratchet for new results, and these members.
fn lines_by(alloc: Global, members: &str, results: &[Told<'_>]) -> Result<String, Fail> {
    let condition = format!(in alloc;
        "{{\"name\":\"r\",\"ratchet\":true,\"states\":[\"new\"]{members}}}"
    )?;
    lines_of(alloc, condition.as_str(), results)
}

#[test]
fn a_ratchet_allows_as_many_as_went_away(rt: HostRuntime) -> Result<(), Fail> {
    let results = [
        new_error("N1"),
        new_error("N2"),
        gone_error("O1"),
        gone_error("O2"),
    ];
    let lines = lines_by(rt.alloc(), "", &results)?;
    assert!(rt;
        lines
            .as_str()
            .contains("\ncondition r: pass, hits 2, limit 2\n")
    );
    let lines = lines_by(rt.alloc(), r#","max":4294967295"#, &results)?;
    assert!(rt;
        lines
            .as_str()
            .contains("\ncondition r: pass, hits 2, limit 4294967297\n")
    );
    Ok(())
}

#[test]
fn the_growth_is_added_to_max(rt: HostRuntime) -> Result<(), Fail> {
    let results = [new_error("N1"), new_error("N2"), gone_error("O1")];
    let lines = lines_by(rt.alloc(), "", &results)?;
    assert!(rt;
        lines
            .as_str()
            .contains("\ncondition r: fail, hits 2, limit 1\n")
    );
    let lines = lines_by(rt.alloc(), r#","max":1"#, &results)?;
    assert!(rt;
        lines
            .as_str()
            .contains("\ncondition r: pass, hits 2, limit 2\n")
    );
    Ok(())
}

#[test]
fn without_a_ratchet_no_limit_grows(rt: HostRuntime) -> Result<(), Fail> {
    let results = [new_error("N1"), gone_error("O1")];
    let lines = lines_of(rt.alloc(), r#"{"name":"r"}"#, &results)?;
    assert!(rt;
        lines
            .as_str()
            .contains("\ncondition r: fail, hits 1, limit 0\n")
    );
    Ok(())
}

/// Absent results by which the limit of a condition with `except` rule `O4` and a minimum of 7.0 doesn't grow: one of a
/// lower level, one whose tool wasn't heard or that meets a suppression entry, one that is suppressed, one that
/// `except` names, and one with a lower rating.
fn not_counted() -> [Told<'static>; 5] {
    [
        Told {
            level: Level::Note,
            ..gone_error("O1")
        },
        Told {
            is_gone: false,
            ..gone_error("O2")
        },
        Told {
            suppressed: true,
            ..gone_error("O3")
        },
        gone_error("O4"),
        Told {
            severity: Some("6.9"),
            ..gone_error("O5")
        },
    ]
}

#[test]
fn a_limit_grows_only_by_what_the_condition_asks_for(rt: HostRuntime) -> Result<(), Fail> {
    let members = r#","except":[{"ruleId":"O4"}],"minSecuritySeverity":"7.0""#;
    let lines = lines_by(rt.alloc(), members, &not_counted())?;
    assert!(rt;
        lines
            .as_str()
            .contains("\ncondition r: pass, hits 0, limit 0\n")
    );
    Ok(())
}

#[test]
fn only_absent_results_went_away(rt: HostRuntime) -> Result<(), Fail> {
    let heard = Told {
        is_gone: true,
        ..new_error("N1")
    };
    let lines = lines_by(rt.alloc(), "", &[heard])?;
    assert!(rt;
        lines
            .as_str()
            .contains("\ncondition r: fail, hits 1, limit 0\n")
    );
    Ok(())
}
