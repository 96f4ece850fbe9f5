//! Whether places of a result meet a change.
use crate::told::{changed_by, is_outside, spot};
use sarif_change::{Changed, Scope, Spots};
use sarif_model::Sequence;
use std::alloc::{AllocError, AllocGlobal, Global};
use std::process::Abort;
use std::test::Fail;

/// A diff that adds line 2 of a.c.
const DIFF: &str =
    "diff --git a/a.c b/a.c\n--- a/a.c\n+++ b/a.c\n@@ -1,3 +1,4 @@\n x\n+y\n z\n z\n";

/// Returns whether a result at b.c:1 with these other places is outside.
fn is_outside_beside(
    alloc: Global,
    changed: &Changed,
    others: &[(&str, u32)],
    elsewhere: bool,
) -> Result<bool, AllocError> {
    let mut locations = Sequence::new(alloc);
    locations.push(spot(alloc, "b.c", 1, 1)?)?;
    let mut spots = Sequence::new(alloc);
    for (uri, line) in others {
        spots.push(spot(alloc, *uri, *line, *line)?)?;
    }
    let spots = Spots {
        locations,
        others: spots,
        elsewhere,
    };
    changed.is_outside(alloc, &[], Scope::Lines, &spots)
}

#[test]
fn lines_of_places_decide(rt: HostRuntime) -> Result<(), Fail> {
    let changed = changed_by(&rt, DIFF)?;
    let rows = [
        ("a.c", 1, 2, false),
        ("a.c", 2, 9, false),
        ("a.c", 1, 9, false),
        ("a.c", 0, 0, false),
        ("a.c", 9, 8, false),
        ("a.c", 3, 9, true),
        ("a.c", 1, 1, true),
        ("a.c", 4294967295, 4294967295, true),
        ("b.c", 0, 0, true),
        ("-", 2, 2, false),
    ];
    for (uri, first, last, outside) in rows {
        let location = spot(rt.alloc(), uri, first, last)?;
        let found = is_outside(rt.alloc(), &changed, &[], Scope::Lines, location)?;
        assert_eq!(rt; found, outside);
    }
    Ok(())
}

#[test]
fn files_count_whole_in_their_scope(rt: HostRuntime) -> Result<(), Fail> {
    let changed = changed_by(&rt, DIFF)?;
    for (uri, line, outside) in [("a.c", 1, false), ("a.c", 9, false), ("b.c", 2, true)] {
        let location = spot(rt.alloc(), uri, line, line)?;
        let found = is_outside(rt.alloc(), &changed, &[], Scope::Files, location)?;
        assert_eq!(rt; found, outside);
    }
    Ok(())
}

#[test]
fn a_result_without_locations_is_inside(rt: HostRuntime) -> Result<(), Fail> {
    let changed = changed_by(&rt, DIFF)?;
    let spots = Spots {
        locations: Sequence::new(rt.alloc()),
        others: Sequence::new(rt.alloc()),
        elsewhere: false,
    };
    let found = changed.is_outside(rt.alloc(), &[], Scope::Lines, &spots)?;
    assert_eq!(rt; found, false);
    Ok(())
}

#[test]
fn other_places_meet_the_change_too(rt: HostRuntime) -> Result<(), Fail> {
    let changed = changed_by(&rt, DIFF)?;
    let met = is_outside_beside(rt.alloc(), &changed, &[("b.c", 2), ("a.c", 2)], false)?;
    assert_eq!(rt; met, false);
    let without_lines = is_outside_beside(rt.alloc(), &changed, &[("a.c", 0)], false)?;
    assert_eq!(rt; without_lines, false);
    let missed = is_outside_beside(rt.alloc(), &changed, &[("a.c", 3), ("-", 2)], false)?;
    assert_eq!(rt; missed, true);
    let elsewhere = is_outside_beside(rt.alloc(), &changed, &[], true)?;
    assert_eq!(rt; elsewhere, false);
    Ok(())
}

/// Asserts of each place, a URI with a line, whether it is outside of the change of a diff.
fn expect_lines(
    rt: &(impl Abort + AllocGlobal),
    changed: &Changed,
    rows: &[(&str, u32, bool)],
) -> Result<(), Fail> {
    for (uri, line, outside) in rows {
        let location = spot(rt.alloc(), *uri, *line, *line)?;
        let found = is_outside(rt.alloc(), changed, &[], Scope::Lines, location)?;
        assert_eq!(rt; found, *outside);
    }
    Ok(())
}

/// Two commits change the file: one adds line 2, and one adds five lines at its top.
#[test]
fn a_file_of_two_commits_is_changed_whole(rt: HostRuntime) -> Result<(), Fail> {
    let diff = concat!(
        "diff --git a/a.c b/a.c\n--- a/a.c\n+++ b/a.c\n@@ -1,3 +1,4 @@\n x\n+y\n z\n z\n",
        "diff --git a/a.c b/a.c\n--- a/a.c\n+++ b/a.c\n@@ -1 +1,6 @@\n",
        "+1\n+2\n+3\n+4\n+5\n x\n",
    );
    let changed = changed_by(&rt, diff)?;
    expect_lines(
        &rt,
        &changed,
        &[("a.c", 7, false), ("a.c", 99, false), ("b.c", 7, true)],
    )
}

/// A file is changed, and then another commit renames it: both files are changed whole.
#[test]
fn a_rename_after_a_change_is_of_both_files(rt: HostRuntime) -> Result<(), Fail> {
    let diff = concat!(
        "diff --git a/a.c b/a.c\n--- a/a.c\n+++ b/a.c\n@@ -1,3 +1,4 @@\n x\n+y\n z\n z\n",
        "diff --git a/a.c b/b.c\nsimilarity index 100%\nrename from a.c\nrename to b.c\n",
    );
    let changed = changed_by(&rt, diff)?;
    expect_lines(
        &rt,
        &changed,
        &[("a.c", 9, false), ("b.c", 9, false), ("c.c", 9, true)],
    )
}

/// A copy is changed whole, and the file that it was copied from in its lines alone.
#[test]
fn the_source_of_a_copy_keeps_its_lines(rt: HostRuntime) -> Result<(), Fail> {
    let diff = concat!(
        "diff --git a/a.c b/b.c\nsimilarity index 100%\ncopy from a.c\ncopy to b.c\n",
        "diff --git a/a.c b/a.c\n--- a/a.c\n+++ b/a.c\n@@ -1,3 +1,4 @@\n x\n+y\n z\n z\n",
    );
    let changed = changed_by(&rt, diff)?;
    expect_lines(
        &rt,
        &changed,
        &[("b.c", 9, false), ("a.c", 2, false), ("a.c", 9, true)],
    )
}
