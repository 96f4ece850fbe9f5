//! Reading a value of an indexed document as it is after stripping.
ghost use Rattle.std.specs.Prelude.{◌≡◌, map, is_some, option_map, option_and_then, IfOk, IfSome};
ghost use Rattle.serde_json.specs.Find.{get, as_null, as_str, as_array, as_number, as_u64};
ghost use Rattle.serde_json.specs.View.{items_of};
ghost use Rattle.json_parts.specs.Indexed.{data_of};
ghost use Rattle.json_parts.specs.Internal.Ordered.{IsOrdered};
ghost use Rattle.sarif_read.specs.Internal.Listed.{value_at, AreOrdered};
ghost use Rattle.sarif_model.specs.Members.{is_object, are_objects, first_of};
ghost use Rattle.sarif_model.specs.Run.{elements_or_none};

use json_parts::Node;
use std::alloc::{AllocError, Global};

/// The member `name`, where stripping leaves it.
#[tactic(auto, using(crate::proofs::NodeValues::kept_steps))]
pub(crate) fn kept_member<'t, 'a>(node: &Node<'t, 'a>, name: &str) -> Option<Node<'t, 'a>>
    requires { IsOrdered (data_of node.now) }
    ensures value { option_map value_at result ≡ get name.now (value_at node.now) }
    ensures ordered { IfSome result (λ found. IsOrdered (data_of found)) }
{
    match node.get(name) {
        Some(found) => {
            if found.is_fractional() {
                None
            } else {
                Some(found)
            }
        }
        None => None,
    }
}

/// The text, where this is one.
#[tactic(auto, using(crate::proofs::NodeValues::node_steps))]
pub(crate) fn text_of<'a>(node: &Node<'_, 'a>) -> Option<&'a str>
    ensures { option_map (λ s. s.now) result ≡ as_str (value_at node.now) }
{
    node.as_str()
}

/// The member `name`, where stripping leaves it and it is an integer that is at least 0. Its number is parsed once.
#[tactic(auto, using(crate::proofs::NodeValues::integer_steps))]
pub(crate) fn integer_member(node: &Node<'_, '_>, name: &str) -> Option<u64>
    requires { IsOrdered (data_of node.now) }
    ensures { result ≡ option_and_then as_u64
        (option_and_then as_number (get name.now (value_at node.now))) }
{
    node.get(name)?.as_u64()
}

/// The first element, where this is an array that has one.
#[tactic(auto, using(crate::proofs::NodeValues::first_stripped))]
pub(crate) fn first_element<'t, 'a>(node: &Node<'t, 'a>) -> Option<Node<'t, 'a>>
    ensures { option_map value_at result
        ≡ first_of (elements_or_none (as_array (value_at node.now))) }
{
    node.first_item()
}

/// Whether this is `null`.
#[tactic(auto, using(crate::proofs::NodeValues::node_steps))]
pub(crate) fn is_null(node: &Node<'_, '_>) -> bool
    ensures { result ≡ is_some (as_null (value_at node.now)) }
{
    node.is_null()
}

/// The elements, where this is an array.
#[tactic(auto, using(crate::proofs::NodeValues::node_steps))]
pub(crate) fn elements_of<'t, 'a>(
    alloc: Global,
    node: &Node<'t, 'a>,
) -> Result<Option<Vec<Node<'t, 'a>>>, AllocError>
    requires { IsOrdered (data_of node.now) }
    ensures value { IfOk result (λ found.
        option_map (λ nodes. items_of (map value_at nodes.items)) found
        ≡ as_array (value_at node.now)) }
    ensures ordered { IfOk result (λ found. IfSome found (λ nodes. AreOrdered nodes.items)) }
{
    node.items(alloc)
}

/// Whether all of these are objects.
#[tactic(auto, using(crate::proofs::NodeValues::node_steps))]
pub(crate) fn are_all_objects(nodes: &[Node<'_, '_>]) -> bool
    ensures { result ≡ are_objects (map value_at nodes.now) }
{
    for node in nodes {
        if !node.is_object() {
            return false;
        }
    }
    true
}
