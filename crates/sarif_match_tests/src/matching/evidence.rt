//! The states of two results, by the evidence that they are the same.
use super::words::{result_of, results_of};
use sarif_evidence::{MatchingVersion, state, state_in};
use sarif_model::{Record, State};
use std::alloc::{AllocError, Global};
use std::test::Fail;

/// Returns how a row writes a state.
pub fn sign_of(state: State) -> char {
    match state {
        State::New => 'n',
        State::Unchanged => '=',
        State::Updated => '~',
        State::Absent => 'a',
    }
}

/// Returns the state of a result with this match: without a version, in version 2 and in version 3.
fn signs_of(
    alloc: Global,
    current: &Record,
    partner: Option<&Record>,
) -> Result<String, AllocError> {
    let mut signs = String::new(alloc);
    signs.push(sign_of(state(current, partner)))?;
    for version in [MatchingVersion::Two, MatchingVersion::Three] {
        signs.push(sign_of(state_in(version, current, partner)))?;
    }
    Ok(signs)
}

/// Returns the row with the states that the library returns.
fn row_of(alloc: Global, row: &str) -> Result<String, AllocError> {
    let (one, rest) = row.split_once(" | ").unwrap_or((row, ""));
    let (other, _) = rest.split_once(" | ").unwrap_or((rest, ""));
    let current = result_of(alloc, one)?;
    let partners = results_of(alloc, other)?;
    let signs = signs_of(alloc, &current, partners.first())?;
    format!(in alloc; "{one} | {other} | {signs}")
}

/// A result, its match if it has one, and the state without a version, in version 2 and in version 3.
const ROWS: [&str; 19] = [
    // Fingerprints and GUIDs are evidence.
    "a.c | a.c | ===",
    "a.c+f/v1:x | a.c | ==~",
    "a.c+f:x | a.c+g:y | ==~",
    "a.c+f/v1:x+p=1 | a.c+f/v1:y+p=1 | ===",
    "a.c+f/v1:x+#7 | a.c+f/v1:y+#7 | ===",
    "a.c+f/v1:x+#7 | a.c+f/v1:y+#8 | ==~",
    // An empty value is left out.
    "a.c+f:+g:1 | a.c+f:+g:2 | ==~",
    "a.c+f: | a.c+p= | ===",
    // Two snippets decide.
    "a.c+'x | a.c | ===",
    "a.c+'x | a.c+'y | ==~",
    "a.c+f/v1:x+'x | a.c | ==~",
    "a.c+f/v1:y+'x | a.c+f/v1:x+' x | ===",
    "a.c+f/v1:x+'x | a.c+f/v1:x+'y | ==~",
    "a.c+f/v1:x+'  | a.c+f/v1:y+'  | ==~",
    "a.c+' \n | a.c+'x | ===",
    // A snippet is compared without white space.
    "a.c+' x\n\t\u{c}\r=1 | a.c+'x=1 | ===",
    "a.c+'\u{a0}x | a.c+'x | ==~",
    "a.c+'\u{b}x | a.c+'x | ==~",
    // Without a match a result is new.
    "a.c | none | nnn",
];

#[test]
fn states_need_evidence_in_version_3(rt: HostRuntime) -> Result<(), Fail> {
    for row in &ROWS {
        let found = row_of(rt.alloc(), row)?;
        assert_eq!(&rt; found.as_str(), *row);
    }
    Ok(())
}
