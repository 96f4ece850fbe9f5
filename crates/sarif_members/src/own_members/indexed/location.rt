//! The first location of a result of an indexed log.
ghost use Rattle.std.specs.Prelude.{◌≡◌, Ok, Err, IfOk};
ghost use Rattle.sarif_read.specs.Internal.Listed.{value_at};
ghost use Rattle.sarif_members.specs.OwnMembers.{own_location};
ghost use Rattle.sarif_model.specs.Internal.Refusal.{IfFault};

use super::super::location::Location;
use crate::node_members::{index_within, object_within, text_within};
use crate::result_node::ResultNode;
use sarif_model::{Fault, Refusal, copy_if_there};
use std::alloc::Global;

/// The artifact of the first location of a result. Returns `BadLocation` if a member has the wrong type, then
/// `BadIndex` (SARIF 2.1.0, result object, "locations property").
#[tactic(auto, using(crate::proofs::FirstObject::located))]
pub(super) fn read_location(
    alloc: Global,
    found: &ResultNode<'_, '_, '_>,
) -> Result<Location, Refusal<Fault>>
    ensures ok { IfOk result (λ location. own_location (value_at found.now) ≡ Ok location) }
    ensures err { IfFault result (λ fault. own_location (value_at found.now) ≡ Err fault) }
{
    let wrong = Fault::BadLocation;
    let first = found.first_object_at("locations", wrong)?;
    let physical = object_within(&first, "physicalLocation", wrong)?;
    let artifact = object_within(&physical, "artifactLocation", wrong)?;
    let uri = text_within(&artifact, "uri", wrong)?;
    let base = text_within(&artifact, "uriBaseId", wrong)?;
    let index = index_within(&artifact, "index", Fault::BadIndex)?;
    Ok(Location {
        uri: copy_if_there(alloc, uri)?,
        base: copy_if_there(alloc, base)?,
        artifact: index,
    })
}
