//! The first location of a result, read from the index of its log. No value is made of it.
ghost use Rattle.std.specs.Prelude.{◌≡◌, option_map, option_and_then};
ghost use Rattle.serde_json.specs.Find.{get};
ghost use Rattle.sarif_model.specs.Internal.FirstLocation as said;
ghost use Rattle.sarif_model.specs.Internal.FirstLocation.{IsFirstLocation};
ghost use Rattle.sarif_read.specs.Internal.Listed.{value_at};

use crate::members::{integer_in, member_in, string_in};
use crate::nodes::{first_element, kept_member};
use json_parts::Node;
use sarif_model::FirstLocation;

/// `locations[0].physicalLocation` of a result.
#[tactic(auto, using(crate::proofs::PickedMembers::data_ordered))]
fn physical_location<'t, 'a>(found: &Node<'t, 'a>) -> Option<Node<'t, 'a>>
    ensures { option_map value_at result ≡ said.first_physical (value_at found.now) }
{
    let locations = kept_member(found, "locations")?;
    let first = first_element(&locations)?;
    kept_member(&first, "physicalLocation")
}

/// What reports show of the first location of a result.
pub(crate) fn location_in<'a>(found: &Node<'_, 'a>) -> FirstLocation<'a>
    ensures { IsFirstLocation result (value_at found.now) }
{
    let physical = physical_location(found);
    let artifact = member_in(&physical, "artifactLocation");
    let region = member_in(&physical, "region");
    FirstLocation {
        uri: string_in(&artifact, "uri"),
        artifact: integer_in(&artifact, "index"),
        line: integer_in(&region, "startLine"),
        column: integer_in(&region, "startColumn"),
    }
}
