//! The request that is served if a standard stream is a terminal.
use sarif_request::{TerminalFacts, at_terminal};
use sarif_shown::Screen;
use std::process::Abort;
use std::test::Fail;
use test_request::accepted;

/// Facts on terminals, by whether standard output and standard error are one, and whether they are to have no colours.
fn facts(out: bool, err: bool, plain: bool) -> TerminalFacts {
    TerminalFacts { out, err, plain }
}

#[test]
fn a_terminal_shows_the_hits(rt: HostRuntime) -> Result<(), Fail> {
    for (found, explain, screen) in [
        (facts(true, false, false), false, Some(Screen::Coloured)),
        (facts(true, false, true), false, Some(Screen::Plain)),
        (facts(false, true, false), true, None),
        (facts(true, true, false), true, Some(Screen::Coloured)),
        (facts(false, false, true), false, None),
    ] {
        let served = at_terminal(found, accepted(&rt, "--out o a")?);
        assert_eq!(rt; served.explain, explain);
        assert_eq!(rt; served.screen, screen);
    }
    Ok(())
}

#[test]
fn a_terminal_that_an_output_uses_shows_no_hits(rt: HostRuntime) -> Result<(), Fail> {
    for (line, screen) in [
        ("--out - a", None),
        ("--out o --text - a", None),
        ("--out o --known - a", None),
        ("--out o --text t --unused - --suppress s a", None),
        ("--out o --text t a", Some(Screen::Coloured)),
        ("--out o -", Some(Screen::Coloured)),
    ] {
        let served = at_terminal(facts(true, false, false), accepted(&rt, line)?);
        assert_eq!(rt; served.screen, screen);
    }
    Ok(())
}

#[test]
fn explanations_stay_on_off_a_terminal(rt: HostRuntime) -> Result<(), Fail> {
    let served = at_terminal(TerminalFacts::NONE, accepted(&rt, "--explain --out o a")?);
    assert!(rt; served.explain);
    Ok(())
}
