//! Conditions for a change.
use crate::told::{Told, decided_of, lines_of, new_error};
use std::test::Fail;

/// Three results of a changed file, the second on a changed line, and one of another file.
fn four_errors() -> [Told<'static>; 4] {
    let beside = Told {
        in_files: true,
        ..new_error("R1")
    };
    let changed = Told {
        in_lines: true,
        ..beside
    };
    [beside, changed, beside, new_error("R1")]
}

#[test]
fn a_condition_counts_what_is_outside_in_its_scope(rt: HostRuntime) -> Result<(), Fail> {
    let conditions = r#"{"name":"lines","diff":"lines"},{"name":"files","diff":"files","max":1},
        {"name":"all","max":4}"#;
    let lines = lines_of(rt.alloc(), conditions, &four_errors())?;
    let wanted = "\ncondition lines: fail, hits 1, limit 0, outside 3\n\
        condition files: fail, hits 3, limit 1, outside 1\ncondition all: pass, hits 4, limit 4\n\
        gate: fail, hits 4, conditions 3, failed 2\n";
    assert!(rt; lines.as_str().ends_with(wanted));
    Ok(())
}

#[test]
fn a_result_outside_is_checked_and_not_reported(rt: HostRuntime) -> Result<(), Fail> {
    let condition = r#"{"name":"c","diff":"lines"}"#;
    let decided = decided_of(rt.alloc(), condition, &four_errors())?;
    assert_eq!(rt; decided.facts.hits, 1);
    assert_eq!(rt; decided.facts.reported, 1);
    assert_eq!(rt; decided.facts.unchecked, 0);
    Ok(())
}

#[test]
fn a_result_outside_may_become_known(rt: HostRuntime) -> Result<(), Fail> {
    let condition = r#"{"name":"c","diff":"lines","only":[{"ruleId":"R1"}]}"#;
    let results = [new_error("R1"), new_error("R2")];
    let decided = decided_of(rt.alloc(), condition, &results)?;
    assert_eq!(rt; decided.known.as_slice(), [true, false].as_slice());
    Ok(())
}
