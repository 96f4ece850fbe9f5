//! The first location of a result.
ghost use Rattle.std.specs.Prelude.{◌≡◌, Ok, Err, IfOk};
ghost use Rattle.serde_json.specs.View.{view as seen};
ghost use Rattle.sarif_members.specs.OwnMembers.{own_location};
ghost use Rattle.sarif_model.specs.Internal.Refusal.{IfFault};

use sarif_model::members::{elements_at, first_object, index_within, object_within, text_within};
use sarif_model::{Fault, Refusal, Text, copy_if_there};
use serde_json::Value;
use std::alloc::Global;

/// The artifact of a result's first location, as the result names it.
#[derive(Drop)]
pub(super) struct Location {
    /// `uri`.
    pub uri: Option<Text>,
    /// `uriBaseId`.
    pub base: Option<Text>,
    /// `index`, into the run's artifacts.
    pub artifact: Option<u32>,
}

/// The artifact of the first location of a result. Returns `BadLocation` if a member has the wrong type, then
/// `BadIndex` (SARIF 2.1.0, result object, "locations property").
#[tactic(auto, unfolding(crate::specs::OwnMembers::own_location))]
pub(super) fn read_location(alloc: Global, result_value: &Value) -> Result<Location, Refusal<Fault>>
    ensures ok { IfOk result (λ location. own_location (seen result_value.now) ≡ Ok location) }
    ensures err { IfFault result (λ fault. own_location (seen result_value.now) ≡ Err fault) }
{
    let wrong = Fault::BadLocation;
    let first = first_object(elements_at(result_value, "locations", wrong)?, wrong)?;
    let physical = object_within(first, "physicalLocation", wrong)?;
    let artifact = object_within(physical, "artifactLocation", wrong)?;
    let uri = text_within(artifact, "uri", wrong)?;
    let base = text_within(artifact, "uriBaseId", wrong)?;
    let index = index_within(artifact, "index", Fault::BadIndex)?;
    Ok(Location {
        uri: copy_if_there(alloc, uri)?,
        base: copy_if_there(alloc, base)?,
        artifact: index,
    })
}
