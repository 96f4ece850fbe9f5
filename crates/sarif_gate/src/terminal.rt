//! What the program knows about its standard streams.
use sarif_request::TerminalFacts;
use std::env;
use std::env::VarError;
use std::io::IsTerminal;

/// Returns which standard streams are terminals, and whether terminals are to have no colours.
pub fn terminal_facts(rt: &HostRuntime) -> TerminalFacts {
    TerminalFacts {
        out: rt.stdout().is_terminal(),
        err: rt.stderr().is_terminal(),
        plain: has_value(rt, "NO_COLOR") || is_dumb(rt),
    }
}

/// Returns whether the environment has a variable of this name that is not empty.
fn has_value(rt: &HostRuntime, name: &str) -> bool {
    match env::var(rt, name) {
        Ok(value) => !value.as_str().is_empty(),
        Err(VarError::NotPresent) => false,
        Err(_) => true,
    }
}

/// Returns whether the environment says that the terminal knows no control sequences.
fn is_dumb(rt: &HostRuntime) -> bool {
    match env::var(rt, "TERM") {
        Ok(value) => value.as_str() == "dumb",
        Err(_) => false,
    }
}
