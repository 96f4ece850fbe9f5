//! The tiers of small lists, and at which of them a result has a key.
use super::words::results_of;
use sarif_evidence::MatchingVersion;
use sarif_match::{key, see, tiers};
use sarif_model::Record;
use std::alloc::{AllocError, Global};
use std::test::Fail;

/// Returns the tiers of two lists in a version. The second list may be left out.
fn tiers_of(alloc: Global, lists: &str, version: MatchingVersion) -> Result<String, AllocError> {
    let (current, baseline) = lists.split_once(" | ").unwrap_or((lists, "none"));
    let current = results_of(alloc, current)?;
    let baseline = results_of(alloc, baseline)?;
    let found = tiers(alloc, &current, &baseline, version)?;
    format!(in alloc; "{found:?}")
}

/// Two results, each with one of the fingerprints of a third one.
const NAMES: &str = "%+f/v1:x+f/v2:y | %+f/v1:x, %+f/v2:y";

/// The tiers of version 3 without names.
const NAMELESS: &str =
    "[Guid, Same, SameText, PartialHere, PartialMoved, PlaceText, Place, PlaceLeft]";

/// The tiers of version 2 with the names f/v2 and f/v1.
const NAMED: &str =
    "[Guid, Fingerprint(\"f/v2\"), Fingerprint(\"f/v1\"), PartialHere, PartialMoved, \
    Place]";

/// The tiers of version 3 with these names.
const FINER: &str = "[Guid, Same, SameText, FingerprintHere(\"f/v2\"), FingerprintHere(\"f/v1\"), \
    PartialHere, Fingerprint(\"f/v2\"), Fingerprint(\"f/v1\"), PartialMoved, PlaceText, Place, PlaceLeft]";

#[test]
fn tiers_of_names_stand_at_two_places_in_version_3(rt: HostRuntime) -> Result<(), Fail> {
    let (two, three) = (MatchingVersion::Two, MatchingVersion::Three);
    let rows = [
        ("none", two, "[Guid, PartialHere, PartialMoved, Place]"),
        (NAMES, two, NAMED),
        ("none", three, NAMELESS),
        ("%+f:", three, NAMELESS),
        (NAMES, three, FINER),
    ];
    for (lists, version, wanted) in rows {
        let found = tiers_of(rt.alloc(), lists, version)?;
        assert_eq!(&rt; found.as_str(), wanted);
    }
    Ok(())
}

/// Adds for each tier of a version `+` if a result has a key there, and `.` otherwise.
fn push_keys(
    alloc: Global,
    flags: &mut String,
    findings: &[Record],
    version: MatchingVersion,
) -> Result<(), AllocError> {
    for tier in &tiers(alloc, findings, &[], version)? {
        for finding in findings {
            flags.push(if key(finding, tier)?.is_some() {
                '+'
            } else {
                '.'
            })?;
        }
    }
    Ok(())
}

/// Returns the row with the keys that the library returns.
fn row_of(alloc: Global, row: &str) -> Result<String, AllocError> {
    let (parts, _) = row.split_once(" | ").unwrap_or((row, ""));
    let mut found = format!(in alloc; "{parts} | ")?;
    let plain = results_of(alloc, parts)?;
    push_keys(alloc, &mut found, &plain, MatchingVersion::Two)?;
    found.push_str(" | ")?;
    push_seen(alloc, &mut found, &plain)?;
    Ok(found)
}

/// Adds the keys of version 3 for these results, which it first changes.
fn push_seen(alloc: Global, flags: &mut String, plain: &[Record]) -> Result<(), AllocError> {
    let mut seen = Vec::new(alloc);
    for one in plain {
        seen.push(see(alloc, one)?)?;
    }
    push_keys(alloc, flags, &seen, MatchingVersion::Three)
}

/// A result, and at which tiers of versions 2 and 3 it has a key.
const ROWS: [&str; 8] = [
    "- | ...+ | ......++",
    "-+#G | +... | +.......",
    "a.c | ...+ | ......++",
    "a.c+'x+@3+#G | +... | +.......",
    "a.c+'x+@3 | ...+ | .++..+++",
    "a.c+f/v1:x | .+... | ...+.+...+",
    "a.c+f/v1: | .+... | ......++",
    "a.c+' \t | ...+ | ......++",
];

#[test]
fn a_result_has_a_key_where_it_has_what_the_tier_asks_for(rt: HostRuntime) -> Result<(), Fail> {
    for row in &ROWS {
        let found = row_of(rt.alloc(), row)?;
        assert_eq!(&rt; found.as_str(), *row);
    }
    Ok(())
}
