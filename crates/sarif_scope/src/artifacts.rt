//! The artifacts of a run.
ghost use Rattle.std.specs.Prelude.{◌≡◌, map, option_map, IfOk};
ghost use Rattle.serde_json.specs.View.{view};
ghost use Rattle.sarif_change.specs.Places.{elements_in as elements_of};
ghost use Rattle.sarif_scope.specs.Inside as said;

use sarif_model::members::{member_at, member_within};
use sarif_model::{Place, Sequence, copy_if_there};
use serde_json::Value;
use std::alloc::{AllocError, Global};

/// The elements of the array of that name.
#[tactic(auto, using(sarif_model::proofs::Elements::elements_items_view))]
fn elements_in<'a>(value: &'a Value, name: &str) -> &'a [Value]
    ensures { map view result.now ≡ elements_of name.now (view value.now) }
{
    match member_at(value, name) {
        Some(found) => match found.as_array() {
            Some(items) => items.as_slice(),
            None => &[],
        },
        None => &[],
    }
}

/// The string that a value is.
fn text_of(value: Option<&Value>) -> Option<&str>
    ensures { option_map (λ s. s.now) result
        ≡ said.text_of (option_map (λ v. view v.now) value.entry) }
{
    value?.as_str()
}

/// The place of an artifact.
fn artifact_place(alloc: Global, artifact: &Value) -> Result<Place, AllocError>
    ensures { IfOk result (λ place. place ≡ said.artifact_place (view artifact.now)) }
{
    let uri = text_of(member_within(member_at(artifact, "location"), "uri"));
    Ok(Place {
        uri: copy_if_there(alloc, uri)?,
        base: None,
    })
}

/// Returns the places of a run's artifacts, in order (SARIF 2.1.0, "artifact object"). A `uriBaseId` isn't read.
/// Returns `AllocError` if memory runs out.
pub fn artifacts_in(alloc: Global, run: &Value) -> Result<Sequence<Place>, AllocError>
    ensures { IfOk result (λ places. places ≡ said.artifacts_in (view run.now)) }
{
    let mut places = Sequence::new(alloc);
    let artifacts = elements_in(run, "artifacts");
    for artifact in artifacts {
        places.push(artifact_place(alloc, artifact)?)?;
    }
    Ok(places)
}
