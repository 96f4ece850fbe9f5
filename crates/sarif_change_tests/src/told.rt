//! Which places are outside of the change of a diff, as one string.
use sarif_change::{Changed, Scope, Spot, Spots};
use sarif_diff::read_sections;
use sarif_model::{Refusal, Region, Sequence, Text};
use std::alloc::{AllocError, AllocGlobal, Global};
use std::hash::RandomState;
use std::random::RandomSource;
use std::test::Fail;

/// Returns what a diff changes.
fn change_of(alloc: Global, seed: RandomState, diff: &str) -> Result<Changed, AllocError> {
    match read_sections(alloc, diff.as_bytes()) {
        Ok(change) => Changed::new(alloc, seed, change.sections),
        Err(Refusal::OutOfMemory) => Err(AllocError),
        Err(Refusal::Fault(_)) => Changed::new(alloc, seed, Sequence::new(alloc)),
    }
}

/// Returns what a diff changes, with a table whose seed is drawn.
pub fn changed_by<R: AllocGlobal + RandomSource>(rt: &R, diff: &str) -> Result<Changed, Fail> {
    let seed = RandomState::new(rt)?;
    let changed = change_of(rt.alloc(), seed, diff)?;
    Ok(changed)
}

/// Returns the place with this URI at these lines; without a URI if it is `-`, without lines if the first is 0.
pub fn spot(alloc: Global, uri: &str, first: u32, last: u32) -> Result<Spot, AllocError> {
    let region = if first == 0 {
        None
    } else {
        Some(Region {
            start_line: first,
            start_column: None,
            end_line: Some(last),
            end_column: None,
        })
    };
    let uri = if uri == "-" {
        None
    } else {
        Some(Text::copy_of(alloc, uri)?)
    };
    Ok(Spot { uri, region })
}

/// Returns whether a result with that location alone is outside of a change.
pub fn is_outside(
    alloc: Global,
    changed: &Changed,
    roots: &[Text],
    scope: Scope,
    location: Spot,
) -> Result<bool, AllocError> {
    let mut locations = Sequence::new(alloc);
    locations.push(location)?;
    let spots = Spots {
        locations,
        others: Sequence::new(alloc),
        elsewhere: false,
    };
    changed.is_outside(alloc, roots, scope, &spots)
}

/// Returns the URIs for which a location at that line is not as expected: outside if `outside`, otherwise inside.
pub fn other_uris(
    alloc: Global,
    changed: &Changed,
    roots: &[Text],
    line: u32,
    outside: bool,
    uris: &[&str],
) -> Result<String, AllocError> {
    let mut text = String::new(alloc);
    for uri in uris {
        let location = spot(alloc, *uri, line, line)?;
        if is_outside(alloc, changed, roots, Scope::Lines, location)? != outside {
            text.push_str(*uri)?;
            text.push_str("\n")?;
        }
    }
    Ok(text)
}
