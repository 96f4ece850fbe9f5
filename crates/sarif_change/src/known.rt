//! What a change says about the paths of artifacts.
ghost use Rattle.std.specs.Prelude.{◌≡◌, Option, IfOk};
ghost use Rattle.sarif_diff.specs.declared.section.Span.{Span as OneSpan};
ghost use Rattle.sarif_change.specs.Known as said;

use crate::changed::Changed;
use crate::found::is_any_changed;
use crate::lines::ChangedLines;
use sarif_diff::Span;
use sarif_model::{Place, Text};
use std::alloc::{AllocError, Global};

/// What a change says about the path of an artifact: the changed lines of the files that it may be.
#[derive(Drop)]
pub struct KnownPath<'c> {
    /// Whether the artifact has a URI.
    pub(crate) has_uri: bool,
    pub(crate) found: Vec<&'c ChangedLines>,
}

impl KnownPath<'_> {
    /// Returns whether a place at this path and these lines meets the change, if there is a path.
    pub(crate) fn meeting(&self, lines: Option<Span>) -> Option<bool>
        ensures { result ≡ said.known_meets lines self.now }
    {
        if !self.has_uri {
            return None;
        }
        Some(is_any_changed(&self.found, lines))
    }
}

/// Returns what a change says about the path of an artifact.
fn path_of<'c>(
    alloc: Global,
    changed: &'c Changed,
    roots: &[Text],
    artifact: &Place,
) -> Result<KnownPath<'c>, AllocError>
    ensures { IfOk result (λ path. (lines : Option OneSpan)
        → said.known_meets lines path
        ≡ said.artifact_meets changed.now roots.now lines artifact.now) }
{
    match &artifact.uri {
        None => Ok(KnownPath {
            has_uri: false,
            found: Vec::new(alloc),
        }),
        Some(uri) => {
            let found = changed.look_up(alloc, roots, uri.as_str())?;
            Ok(KnownPath {
                has_uri: true,
                found,
            })
        }
    }
}

/// Returns what a change says about the paths of these artifacts. Returns `AllocError` if memory runs out.
pub(crate) fn paths_of_all<'c>(
    alloc: Global,
    changed: &'c Changed,
    roots: &[Text],
    artifacts: &[Place],
) -> Result<Vec<KnownPath<'c>>, AllocError>
    ensures { IfOk result
        (λ paths. said.AreKnown changed.now roots.now artifacts.now paths.items) }
{
    let mut paths = Vec::with_capacity(alloc, artifacts.len())?;
    for artifact in artifacts {
        paths.push(path_of(alloc, changed, roots, artifact)?)?;
    }
    Ok(paths)
}
