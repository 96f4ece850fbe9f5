//! The snippets of a result, read from the index of its log. No value is made of them.
ghost use Rattle.std.specs.Prelude.{◌≡◌, option_map, option_and_then};
ghost use Rattle.serde_json.specs.Find.{get, as_str, as_array, as_number, as_u64};
ghost use Rattle.json_parts.specs.Indexed.{data_of};
ghost use Rattle.json_parts.specs.Internal.Ordered.{IsOrdered};
ghost use Rattle.sarif_model.specs.Internal.FirstLocation as located;
ghost use Rattle.sarif_model.specs.Members as members;
ghost use Rattle.sarif_model.specs.Run.{elements_or_none};
ghost use Rattle.sarif_read.specs.Internal.Listed.{value_at};
ghost use Rattle.sarif_findings.specs.Internal.SnippetsOf as said;
ghost use Rattle.sarif_findings.specs.Internal.SnippetsOf.{IsSnippets};

use json_parts::Node;
use sarif_findings::Snippets;

/// The member `name`, if stripping leaves it.
#[tactic(auto, using(sarif_read::proofs::NodeValues::kept_steps))]
fn kept_member<'t, 'a>(node: &Node<'t, 'a>, name: &str) -> Option<Node<'t, 'a>>
    requires { IsOrdered (data_of node.now) }
    ensures { option_map value_at result ≡ get name.now (value_at node.now) }
{
    match node.get(name) {
        Some(found) => {
            if found.is_fractional() {
                None
            } else {
                Some(found)
            }
        }
        None => None,
    }
}

/// The member of that name of a value that may be missing.
#[tactic(auto, using(sarif_read::proofs::PickedMembers::data_ordered))]
fn member_in<'t, 'a>(found: &Option<Node<'t, 'a>>, name: &str) -> Option<Node<'t, 'a>>
    ensures { option_map value_at result
        ≡ option_and_then (get name.now) (option_map value_at found.now) }
{
    match found {
        Some(node) => kept_member(node, name),
        None => None,
    }
}

/// The first element of an array that may be missing.
#[tactic(auto, using(sarif_read::proofs::NodeValues::first_stripped))]
fn first_of<'t, 'a>(node: &Node<'t, 'a>) -> Option<Node<'t, 'a>>
    ensures { option_map value_at result
        ≡ members.first_of (elements_or_none (as_array (value_at node.now))) }
{
    node.first_item()
}

/// `locations[0].physicalLocation` of a result.
#[tactic(auto, using(sarif_read::proofs::PickedMembers::data_ordered))]
fn physical_location<'t, 'a>(found: &Node<'t, 'a>) -> Option<Node<'t, 'a>>
    ensures { option_map value_at result ≡ located.first_physical (value_at found.now) }
{
    let locations = kept_member(found, "locations")?;
    let first = first_of(&locations)?;
    kept_member(&first, "physicalLocation")
}

/// The text, if this is one.
#[tactic(auto, using(sarif_read::proofs::NodeValues::node_steps))]
fn text_of<'a>(node: &Node<'_, 'a>) -> Option<&'a str>
    ensures { option_map (λ s. s.now) result ≡ as_str (value_at node.now) }
{
    node.as_str()
}

/// The string of that name.
fn string_in<'a>(found: &Option<Node<'_, 'a>>, name: &str) -> Option<&'a str>
    ensures { option_map (λ text. text.now) result
        ≡ located.string_in name.now (option_map value_at found.now) }
{
    text_of(&member_in(found, name)?)
}

/// The member `name`, if it is an integer that is at least 0.
#[tactic(auto, using(sarif_read::proofs::NodeValues::integer_steps))]
fn integer_member(node: &Node<'_, '_>, name: &str) -> Option<u64>
    requires { IsOrdered (data_of node.now) }
    ensures { result ≡ option_and_then as_u64
        (option_and_then as_number (get name.now (value_at node.now))) }
{
    node.get(name)?.as_u64()
}

/// The integer of that name, which is at least 0.
#[tactic(auto, using(sarif_read::proofs::PickedMembers::data_ordered))]
fn integer_in(found: &Option<Node<'_, '_>>, name: &str) -> Option<u64>
    ensures { result ≡ located.integer_in name.now (option_map value_at found.now) }
{
    match found {
        Some(node) => integer_member(node, name),
        None => None,
    }
}

/// The text of the snippet of a region.
fn snippet_of<'a>(region: &Option<Node<'_, 'a>>) -> Option<&'a str>
    ensures { option_map (λ text. text.now) result
        ≡ said.snippet_of (option_map value_at region.now) }
{
    string_in(&member_in(region, "snippet"), "text")
}

/// The snippets of the first location of a result.
pub(crate) fn snippets_in<'a>(found: &Node<'_, 'a>) -> Snippets<'a>
    ensures { IsSnippets result (value_at found.now) }
{
    let physical = physical_location(found);
    let region = member_in(&physical, "region");
    let context = member_in(&physical, "contextRegion");
    Snippets {
        region: snippet_of(&region),
        context: snippet_of(&context),
        context_line: integer_in(&context, "startLine"),
    }
}
