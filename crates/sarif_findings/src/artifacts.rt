//! The artifacts of a run, found by their indices.
ghost use Rattle.std.specs.Prelude.{◌≡◌, codes, map, option_map, IfOk};
ghost use Rattle.serde_json.specs.View.{view};
ghost use Rattle.sarif_findings.specs.Internal.ArtifactsOf.{artifact_paths, path_of_artifact, uri_of_artifact};

use crate::lookup::{elements_in, text_in};
use crate::path::decode_or_keep;
use sarif_model::Text;
use serde_json::Value;
use std::alloc::{AllocError, Global};

/// The URI of an artifact (SARIF 2.1.0, "artifact object").
fn uri_of(artifact: &Value) -> Option<&str>
    ensures { option_map (λ s. s.now) result ≡ uri_of_artifact (view artifact.now) }
{
    text_in(artifact.get("location")?, "uri")
}

/// The URI of an artifact, read as a path.
fn path_of(alloc: Global, artifact: &Value) -> Result<Option<Text>, AllocError>
    ensures { IfOk result (λ path. path ≡ path_of_artifact (view artifact.now)) }
{
    let Some(uri) = uri_of(artifact) else {
        return Ok(None);
    };
    let path = decode_or_keep(alloc, uri)?;
    Ok(Some(Text::copy_of(alloc, path.as_str())?))
}

/// The URIs of a run's artifacts, in order, each read as a path.
pub(crate) fn paths_of_artifacts(
    alloc: Global,
    run: &Value,
) -> Result<Vec<Option<Text>>, AllocError>
    ensures { IfOk result (λ paths. paths.items ≡ artifact_paths (view run.now)) }
{
    let artifacts = elements_in(run, "artifacts");
    let mut paths = Vec::with_capacity(alloc, artifacts.len())?;
    for artifact in artifacts {
        paths.push(path_of(alloc, artifact)?)?;
    }
    Ok(paths)
}
