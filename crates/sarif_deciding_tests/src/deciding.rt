//! What conditions decide about the results of a log, by the diff and by security severities.
use crate::decided::decided_of;
use sarif_conditions::Decided;
use sarif_counts::Impact;
use std::alloc::{AllocError, Global};
use std::test::Fail;

/// A letter for each result: `s` if it is a hit of a condition that fails, `h` if it is another hit, and `n` if it is
/// none.
fn letters_of(alloc: Global, decided: &Decided) -> Result<String, AllocError> {
    let mut letters = String::new(alloc);
    for impact in decided.impacts.as_slice() {
        letters.push(match impact {
            Some(Impact::Stops) => 's',
            Some(Impact::Hit) => 'h',
            Some(Impact::None) | None => 'n',
        })?;
    }
    Ok(letters)
}

#[test]
fn each_condition_asks_for_results_in_its_scope(rt: HostRuntime) -> Result<(), Fail> {
    let conditions = r#"{"name":"lines","diff":"lines"},{"name":"files","diff":"files","max":2}"#;
    let decided = decided_of(&rt, conditions)?;
    let letters = letters_of(rt.alloc(), &decided)?;
    assert_eq!(rt; letters.as_str(), "shn");
    assert_eq!(rt; decided.facts.hits, 2);
    Ok(())
}

#[test]
fn a_condition_asks_for_severities(rt: HostRuntime) -> Result<(), Fail> {
    let conditions = r#"{"name":"severe","minSecuritySeverity":"7.0","max":2}"#;
    let decided = decided_of(&rt, conditions)?;
    let letters = letters_of(rt.alloc(), &decided)?;
    assert_eq!(rt; letters.as_str(), "nhh");
    assert_eq!(rt; decided.facts.hits, 2);
    Ok(())
}

#[test]
fn what_would_be_a_hit_inside_the_change_is_said(rt: HostRuntime) -> Result<(), Fail> {
    let conditions = r#"{"name":"lines","diff":"lines","minSecuritySeverity":"9"}"#;
    let decided = decided_of(&rt, conditions)?;
    let letters = letters_of(rt.alloc(), &decided)?;
    assert_eq!(rt; letters.as_str(), "nnn");
    assert_eq!(rt; decided.known.as_slice(), [false, true, false].as_slice());
    Ok(())
}
