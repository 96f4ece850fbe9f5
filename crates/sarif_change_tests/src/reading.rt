//! Results of a run whose artifacts are looked up in a change.
use crate::told::changed_by;
use sarif_change::{ArtifactName, KnownArtifacts, NamedPlace, NamedPlaces, Scope};
use sarif_model::{Place, Region, Sequence, Text};
use std::alloc::{AllocError, Global};
use std::test::Fail;

/// A diff that adds line 2 of a.c.
const DIFF: &str =
    "diff --git a/a.c b/a.c\n--- a/a.c\n+++ b/a.c\n@@ -1,3 +1,4 @@\n x\n+y\n z\n z\n";

fn artifact(alloc: Global, uri: &str) -> Result<Place, AllocError> {
    Ok(Place {
        uri: Some(Text::copy_of(alloc, uri)?),
        base: None,
    })
}

/// The artifacts b.c and a.c, and one without a location.
fn artifacts(alloc: Global) -> Result<Sequence<Place>, AllocError> {
    let mut all = Sequence::new(alloc);
    all.push(artifact(alloc, "b.c")?)?;
    all.push(artifact(alloc, "a.c")?)?;
    all.push(Place {
        uri: None,
        base: None,
    })?;
    Ok(all)
}

/// Returns whether a result with one location, at that line of the artifact with this name, is outside.
fn is_outside(
    alloc: Global,
    known: &KnownArtifacts<'_>,
    artifact: ArtifactName<'_>,
    line: u32,
) -> Result<bool, AllocError> {
    let region = Some(Region {
        start_line: line,
        start_column: None,
        end_line: None,
        end_column: None,
    });
    let mut locations = Vec::new(alloc);
    locations.push(NamedPlace { artifact, region })?;
    let places = NamedPlaces {
        locations,
        others: Vec::new(alloc),
        elsewhere: false,
    };
    known.is_outside(alloc, &places)
}

#[test]
fn artifacts_are_named_by_uri_or_index(rt: HostRuntime) -> Result<(), Fail> {
    let changed = changed_by(&rt, DIFF)?;
    let roots: Vec<Text> = Vec::new(rt.alloc());
    let artifacts = artifacts(rt.alloc())?;
    let known = changed.know_artifacts(rt.alloc(), &roots, Scope::Lines, artifacts)?;
    let rows = [
        (ArtifactName::Uri("a.c"), 2, false),
        (ArtifactName::Uri("a.c"), 3, true),
        (ArtifactName::Uri("b.c"), 2, true),
        (ArtifactName::Index(1), 2, false),
        (ArtifactName::Index(1), 3, true),
        (ArtifactName::Index(0), 2, true),
        (ArtifactName::Index(2), 3, false),
        (ArtifactName::Index(3), 3, false),
        (ArtifactName::Unnamed, 3, false),
    ];
    for (artifact, line, outside) in rows {
        let found = is_outside(rt.alloc(), &known, artifact, line)?;
        assert_eq!(rt; found, outside);
    }
    Ok(())
}
