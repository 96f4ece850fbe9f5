//! The matches and states of small lists in both versions.
use super::evidence::sign_of;
use super::matched;
use super::words::results_of;
use sarif_evidence::{MatchingVersion, state_in};
use sarif_match::Matching;
use sarif_model::Record;
use std::alloc::AllocError;
use std::process::Abort;
use std::test::Fail;

/// Returns the digit of a match, or `-` without one.
fn digit_of(partner: Option<u32>) -> char {
    match partner {
        Some(number) => char::from_digit(number, 10).unwrap_or('?'),
        None => '-',
    }
}

/// Adds the match and the state of each current result.
fn push_matches(
    answer: &mut String,
    current: &[Record],
    baseline: &[Record],
    matching: &Matching,
    version: MatchingVersion,
) -> Result<(), AllocError> {
    let mut number = 0u32;
    for finding in current {
        let partner = matching.partner(number);
        let before = match partner {
            Some(j) => baseline.get(j as usize),
            None => None,
        };
        answer.push(digit_of(partner))?;
        answer.push(sign_of(state_in(version, finding, before)))?;
        answer.push(' ')?;
        number = number.saturating_add(1);
    }
    Ok(())
}

/// Adds `*` for each baseline result that is matched, and `.` for each other one.
fn push_marks(
    answer: &mut String,
    baseline: &[Record],
    matching: &Matching,
) -> Result<(), AllocError> {
    let mut number = 0u32;
    for _ in baseline {
        answer.push(if matching.taken(number) { '*' } else { '.' })?;
        number = number.saturating_add(1);
    }
    Ok(())
}

/// Returns the matches and states in a version, as a row writes them.
fn answer(
    rt: &(impl Abort + AllocGlobal),
    current: &[Record],
    baseline: &[Record],
    version: MatchingVersion,
) -> Result<String, AllocError> {
    let matching = matched(rt, current, baseline, version)?;
    let mut answer = String::new(rt.alloc());
    push_matches(&mut answer, current, baseline, &matching, version)?;
    push_marks(&mut answer, baseline, &matching)?;
    Ok(answer)
}

/// Returns the matches and states in versions 2 and 3, as a row writes them.
fn answers(
    rt: &(impl Abort + AllocGlobal),
    current: &[Record],
    baseline: &[Record],
) -> Result<String, AllocError> {
    let two = answer(rt, current, baseline, MatchingVersion::Two)?;
    let three = answer(rt, current, baseline, MatchingVersion::Three)?;
    format!(in rt.alloc(); "{two} | {three}")
}

/// Returns the row with the matches and states that the library returns.
fn row_of(rt: &(impl Abort + AllocGlobal), row: &str) -> Result<String, AllocError> {
    let (current, rest) = row.split_once(" | ").unwrap_or((row, ""));
    let (baseline, _) = rest.split_once(" | ").unwrap_or((rest, ""));
    let now = results_of(rt.alloc(), current)?;
    let before = results_of(rt.alloc(), baseline)?;
    let found = answers(rt, &now, &before)?;
    format!(in rt.alloc(); "{current} | {baseline} | {found}")
}

/// The current and the baseline results, then the matches and states in version 2 and in version 3: the number and the
/// state of each current result's match, then which baseline results are matched.
const ROWS: [&str; 36] = [
    // Equal results match in order, in version 3 from the end.
    "-, -, - | -, - | 0= 1= -n ** | -n 0= 1= **",
    "- | - | 0= * | 0= *",
    "- | -, - | 0= *. | 1= .*",
    // Without current results no baseline result is matched.
    "none | -, - | .. | ..",
    // Results with equal GUIDs match with any message, and a result with a GUID has no key by its place.
    "%+!n+#G | %+#G | 0~ * | 0~ *",
    "-+#G, -+#G | -+#G, - | 0= -n *. | -n 0= *.",
    // A result with another `kind` is updated.
    "- | -+? | 0~ * | 0~ *",
    // In version 2 other partial fingerprints don't match. A result that stayed comes before one that moved.
    "a.c+p/v1=b | a.c+p/v1=a | -n . | 0~ *",
    "b.c+p/v1=a | a.c+p/v1=a | 0~ * | 0~ *",
    "b.c+p/v1=a, c.c+p/v1=a | a.c+p/v1=a, b.c+p/v1=a | 1= 0~ ** | 1= 0~ **",
    // The greatest name of a fingerprint comes first.
    "%+f/v1:x+f/v2:y | %+f/v1:x, %+f/v2:y | 1= .* | 1= .*",
    // In version 3 a result that stayed in its file comes first.
    "a.c+f/v1:x, b.c+f/v1:x | b.c+f/v1:x, a.c+f/v1:x | 0~ 1~ ** | 1= 0= **",
    "a.c+f/v1:y | a.c+f/v1:x | -n . | 0~ *",
    "a.c+f/v1:y, a.c | a.c | -n 0= * | -n 0= *",
    "a.c+f/v1:x | a.c+f/v1:y, b.c+f/v1:x | 1~ .* | 1~ .*",
    "a.c+p=1 | a.c+p=2, b.c+p=1 | 1~ .* | 1~ .*",
    "a.c+f:x+g:y | b.c+g:y, a.c+f:x | 0~ *. | 1= .*",
    "a.c+f:x+p=1 | b.c+f:x, a.c+p=1 | 0~ *. | 1= .*",
    "a.c+f/v1:x+!n | a.c+f/v1:x, a.c+f/v1:x+!n | 0~ *. | 1= .*",
    // In version 3 results match from the end.
    "a.c+f/v1:3, a.c+f/v1:1, a.c+f/v1:4 | a.c+f/v1:1, a.c+f/v1:2 | -n 0= -n *. | -n 0= 1~ **",
    "a.c+@3, a.c+@10, a.c+@22 | a.c+@3, a.c+@20 | 0= 1= -n ** | 0= -n 1= **",
    "a.c+'y, a.c+'x | a.c+'x | 0= -n * | -n 0= *",
    // A result with a GUID doesn't match by its place. Two GUIDs don't prevent a match.
    "a.c+#G | a.c | -n . | -n .",
    "a.c+f/v1:x+#G | a.c+f/v1:x+#1 | 0= * | 0= *",
    "a.c+'x+#G | a.c+'y+#G | 0= * | 0~ *",
    // Snippets identify the result in version 3.
    "a.c+'x | a.c+'y | 0= * | 0~ *",
    "a.c+'x+@1, a.c+'x+@5 | a.c+'x+@1 | 0= -n * | 0= -n *",
    "a.c+' x\n=1 | a.c+'x=1 | 0= * | 0= *",
    "a.c+'x, a.c+@4 | a.c, a.c+'y+@4 | 0= 1= ** | 0= 1= **",
    "a.c+f/v1:y+'x | a.c+f/v1:x+'x | -n . | 0= *",
    "a.c+f/v1:l+'x, a.c+f/v1:l+'y | a.c+f/v1:l+'y | 0= -n * | -n 0= *",
    "a.c+f/v1:l+'x | a.c+f/v1:l+'y | 0= * | 0~ *",
    "a.c+f/v1:y+'x, a.c+'z | a.c+'x | -n 0= * | 0= -n *",
    "a.c+f/v1:y+'z, a.c+'w | a.c+'x | -n 0= * | -n 0~ *",
    // Partial fingerprints are compared as a whole, and version 3 ignores an empty one.
    "a.c+p=1+q=1 | a.c+p=1+q=2 | -n . | 0~ *",
    "b.c+p= | a.c+p= | 0~ * | -n .",
];

#[test]
fn small_lists_have_their_matches_and_states(rt: HostRuntime) -> Result<(), Fail> {
    for row in &ROWS {
        let found = row_of(&rt, row)?;
        assert_eq!(&rt; found.as_str(), *row);
    }
    Ok(())
}
