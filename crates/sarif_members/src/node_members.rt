//! Reading the members of a value of an indexed log by type, as they are after stripping; no value is made of them. A
//! null member is treated as missing; `wrong` is the error for a member of another type.
ghost use Rattle.std.specs.Prelude.{◌≡◌, Ok, Err, IfOk, is_some, map, option_map, option_and_then};
ghost use Rattle.serde_json.specs.Find.{get, as_str, as_array, as_object, as_number, as_u64, as_i64};
ghost use Rattle.serde_json.specs.View.{items_of, number_view};
ghost use Rattle.sarif_read.specs.Internal.Listed.{value_at};
ghost use Rattle.sarif_model.specs.Internal.Refusal.{IfFault};
ghost use Rattle.sarif_model.specs.Members as said;
ghost use Rattle.sarif_model.specs.Members.{◌>>=◌ as and_then, result_map};
ghost use Rattle.sarif_model.specs.Run.{elements_or_none};

use json_parts::{Node, parse_number};
use sarif_model::{Fault, Refusal};
use serde_json::Number;
use std::alloc::{AllocError, Global};

/// The member `name`, where stripping leaves it.
#[tactic(auto, using(sarif_read::proofs::NodeValues::kept_steps, sarif_read::proofs::PickedMembers::data_ordered))]
pub(crate) fn kept_member<'t, 'a>(node: &Node<'t, 'a>, name: &str) -> Option<Node<'t, 'a>>
    ensures { option_map value_at result ≡ get name.now (value_at node.now) }
{
    match node.get(name) {
        Some(found) => {
            if found.is_fractional() {
                None
            } else {
                Some(found)
            }
        }
        None => None,
    }
}

/// The text, where this is one.
#[tactic(auto, using(sarif_read::proofs::NodeValues::node_steps))]
pub fn text_of<'a>(node: &Node<'_, 'a>) -> Option<&'a str>
    ensures { option_map (λ s. s.now) result ≡ as_str (value_at node.now) }
{
    node.as_str()
}

/// Whether this is an object.
#[tactic(auto, using(sarif_read::proofs::NodeValues::node_steps))]
pub fn is_object(node: &Node<'_, '_>) -> bool
    ensures { result ≡ said.is_object (value_at node.now) }
{
    node.is_object()
}

/// The member `name`, where stripping leaves it and it is not null. A value that is not an object has no members.
#[tactic(auto, using(crate::proofs::NodeMembers::null_steps))]
pub fn member_at<'t, 'a>(node: &Node<'t, 'a>, name: &str) -> Option<Node<'t, 'a>>
    ensures { option_map value_at result ≡ said.member_at name.now (value_at node.now) }
{
    match kept_member(node, name) {
        Some(found) => { if found.is_null() { None } else { Some(found) } }
        None => None,
    }
}

/// The string that a member is, if it is there. Returns `wrong` if it is not a string.
pub(crate) fn text_in<'a>(
    member: Option<Node<'_, 'a>>,
    wrong: Fault,
) -> Result<Option<&'a str>, Fault>
    ensures { result_map (option_map (λ s. s.now)) result
        ≡ said.of_kind wrong as_str (option_map value_at member.entry) }
{
    match member {
        None => Ok(None),
        Some(member) => match text_of(&member) {
            Some(text) => Ok(Some(text)),
            None => Err(wrong),
        },
    }
}

/// The string `name` of an object; `None` if the member is missing or null, or if this is not an object. Returns
/// `wrong` if the member is not a string.
fn text_at<'a>(node: &Node<'_, 'a>, name: &str, wrong: Fault) -> Result<Option<&'a str>, Fault>
    ensures { result_map (option_map (λ s. s.now)) result
        ≡ said.text_at wrong name.now (value_at node.now) }
{
    text_in(member_at(node, name), wrong)
}

/// The object that a member is, if it is there. Returns `wrong` if it is not an object.
pub(crate) fn object_in<'t, 'a>(
    member: Option<Node<'t, 'a>>,
    wrong: Fault,
) -> Result<Option<Node<'t, 'a>>, Fault>
    ensures { result_map (option_map value_at) result
        ≡ said.of_kind wrong said.itself_if_object (option_map value_at member.entry) }
{
    match member {
        None => Ok(None),
        Some(member) => {
            if is_object(&member) {
                Ok(Some(member))
            } else {
                Err(wrong)
            }
        }
    }
}

/// The object `name` of an object; `None` if the member is missing or null, or if this is not an object. Returns
/// `wrong` if the member is not an object.
fn object_at<'t, 'a>(
    node: &Node<'t, 'a>,
    name: &str,
    wrong: Fault,
) -> Result<Option<Node<'t, 'a>>, Fault>
    ensures { result_map (option_map value_at) result
        ≡ said.object_at wrong name.now (value_at node.now) }
{
    object_in(member_at(node, name), wrong)
}

/// The number, where this is one.
fn number_of(node: &Node<'_, '_>) -> Option<Number>
    ensures { option_map number_view result ≡ as_number (value_at node.now) }
{
    let element = node.element();
    let text = element.as_number()?;
    parse_number(text)
}

/// The integer, where this is one that fits 64 bits.
fn integer_of(node: &Node<'_, '_>) -> Option<i64>
    ensures { result ≡ option_and_then as_i64 (as_number (value_at node.now)) }
{
    number_of(node)?.as_i64()
}

/// The index that a member is: an integer from 0 to 2^32 - 1; `None` if it is missing or -1. Returns `wrong` if it is
/// anything else.
pub(crate) fn index_in(member: Option<Node<'_, '_>>, wrong: Fault) -> Result<Option<u32>, Fault>
    ensures { result ≡ said.index_of_member wrong (option_map value_at member.entry) }
{
    match member {
        None => Ok(None),
        Some(member) => match integer_of(&member) {
            Some(-1) => Ok(None),
            Some(number) => match u32::try_from(number) {
                Ok(index) => Ok(Some(index)),
                Err(_) => Err(wrong),
            },
            None => Err(wrong),
        },
    }
}

/// The index `name` of an object: an integer from 0 to 2^32 - 1; `None` if the member is missing, null or -1. Returns
/// `wrong` if it is anything else.
fn index_at(node: &Node<'_, '_>, name: &str, wrong: Fault) -> Result<Option<u32>, Fault>
    ensures { result ≡ said.index_at wrong name.now (value_at node.now) }
{
    index_in(member_at(node, name), wrong)
}

/// The integer, where this is one from 0 to 2^64 - 1.
#[tactic(auto, using(sarif_read::proofs::NodeValues::node_steps))]
pub fn unsigned_of(node: &Node<'_, '_>) -> Option<u64>
    ensures { result ≡ option_and_then as_u64 (as_number (value_at node.now)) }
{
    node.as_u64()
}

/// The string `name`, where stripping leaves a member of that name and it is a string.
pub(crate) fn kept_text<'a>(node: &Node<'_, 'a>, name: &str) -> Option<&'a str>
    ensures { option_map (λ s. s.now) result ≡ said.text_in name.now (value_at node.now) }
{
    text_of(&kept_member(node, name)?)
}

/// The string `name`, where the member is there and is one.
pub(crate) fn text_if_there<'a>(node: &Node<'_, 'a>, name: &str) -> Option<&'a str>
    ensures { option_map (λ s. s.now) result
        ≡ option_and_then as_str (said.member_at name.now (value_at node.now)) }
{
    text_of(&member_at(node, name)?)
}

/// The member `name` of an object that may be absent itself; `None` where the object or the member is absent, or the
/// member is null.
pub fn member_within<'t, 'a>(found: &Option<Node<'t, 'a>>, name: &str) -> Option<Node<'t, 'a>>
    ensures { option_map value_at result
        ≡ option_and_then (said.member_at name.now) (option_map value_at found.now) }
{
    match found {
        None => None,
        Some(node) => member_at(node, name),
    }
}

/// The string `name` of an object that may itself be missing; `None` if the object or the member is missing, or the
/// member is null. Returns `wrong` if the member is not a string.
pub(crate) fn text_within<'a>(
    found: &Option<Node<'_, 'a>>,
    name: &str,
    wrong: Fault,
) -> Result<Option<&'a str>, Fault>
    ensures { result_map (option_map (λ s. s.now)) result
        ≡ said.if_there (said.text_at wrong name.now) (option_map value_at found.now) }
{
    match found {
        None => Ok(None),
        Some(node) => text_at(node, name, wrong),
    }
}

/// The object `name` of an object that may itself be missing; `None` if the outer object or the member is missing, or
/// the member is null. Returns `wrong` if the member is not an object.
pub(crate) fn object_within<'t, 'a>(
    found: &Option<Node<'t, 'a>>,
    name: &str,
    wrong: Fault,
) -> Result<Option<Node<'t, 'a>>, Fault>
    ensures { result_map (option_map value_at) result
        ≡ said.if_there (said.object_at wrong name.now) (option_map value_at found.now) }
{
    match found {
        None => Ok(None),
        Some(node) => object_at(node, name, wrong),
    }
}

/// The index `name` of an object that may itself be missing, an integer from 0 to 2^32 - 1; `None` if the object or the
/// member is missing, or the member is null or -1. Returns `wrong` if the member is anything else.
pub(crate) fn index_within(
    found: &Option<Node<'_, '_>>,
    name: &str,
    wrong: Fault,
) -> Result<Option<u32>, Fault>
    ensures { result
        ≡ said.if_there (said.index_at wrong name.now) (option_map value_at found.now) }
{
    match found {
        None => Ok(None),
        Some(node) => index_at(node, name, wrong),
    }
}

/// The elements, where this is an array.
#[tactic(auto, using(sarif_read::proofs::NodeValues::node_steps))]
fn elements_of<'t, 'a>(
    alloc: Global,
    node: &Node<'t, 'a>,
) -> Result<Option<Vec<Node<'t, 'a>>>, AllocError>
    ensures { IfOk result (λ found. option_map (λ nodes. items_of (map value_at nodes.items)) found
        ≡ as_array (value_at node.now)) }
{
    node.items(alloc)
}

/// The elements of the array `name`; none if the member is missing or null, or is not an array. Returns `AllocError` if
/// memory for their list runs out.
#[tactic(auto, using(crate::proofs::NodeMembers::element_steps))]
pub fn elements_if_there<'t, 'a>(
    alloc: Global,
    node: &Node<'t, 'a>,
    name: &str,
) -> Result<Vec<Node<'t, 'a>>, AllocError>
    ensures { IfOk result (λ nodes. map value_at nodes.items
        ≡ elements_or_none
        (option_and_then as_array (said.member_at name.now (value_at node.now)))) }
{
    let Some(member) = member_at(node, name) else {
        return Ok(Vec::new(alloc));
    };
    match elements_of(alloc, &member)? {
        Some(nodes) => Ok(nodes),
        None => Ok(Vec::new(alloc)),
    }
}

/// The elements of the array that a member is; none if it is missing. Returns `wrong` if it is not an array.
#[tactic(auto, using(crate::proofs::NodeMembers::element_steps))]
fn elements_in<'t, 'a>(
    alloc: Global,
    member: Option<Node<'t, 'a>>,
    wrong: Fault,
) -> Result<Vec<Node<'t, 'a>>, Refusal<Fault>>
    ensures ok { IfOk result (λ nodes.
        said.elements_of (said.of_kind wrong as_array (option_map value_at member.entry))
        ≡ Ok (map value_at nodes.items)) }
    ensures err { IfFault result (λ fault.
        said.elements_of (said.of_kind wrong as_array (option_map value_at member.entry))
        ≡ Err fault) }
{
    match member {
        None => Ok(Vec::new(alloc)),
        Some(member) => match elements_of(alloc, &member)? {
            Some(nodes) => Ok(nodes),
            None => Err(Refusal::Fault(wrong)),
        },
    }
}

/// The elements of the array `name` of an object; none if the member is missing or null. Returns `wrong` if the member
/// is not an array.
pub(crate) fn elements_at<'t, 'a>(
    alloc: Global,
    node: &Node<'t, 'a>,
    name: &str,
    wrong: Fault,
) -> Result<Vec<Node<'t, 'a>>, Refusal<Fault>>
    ensures ok { IfOk result (λ nodes. said.elements_at wrong name.now (value_at node.now)
        ≡ Ok (map value_at nodes.items)) }
    ensures err { IfFault result
        (λ fault. said.elements_at wrong name.now (value_at node.now) ≡ Err fault) }
{
    elements_in(alloc, member_at(node, name), wrong)
}

/// Whether all of these are objects.
fn are_objects(nodes: &[Node<'_, '_>]) -> bool
    ensures { result ≡ said.are_objects (map value_at nodes.now) }
{
    for node in nodes {
        if !is_object(node) {
            return false;
        }
    }
    true
}

/// The elements of the array of objects that a member is; none if it is missing. Returns `wrong` if it is not an array,
/// or an element is not an object.
pub(crate) fn objects_in<'t, 'a>(
    alloc: Global,
    member: Option<Node<'t, 'a>>,
    wrong: Fault,
) -> Result<Vec<Node<'t, 'a>>, Refusal<Fault>>
    ensures ok { IfOk result (λ nodes. and_then
        (said.elements_of (said.of_kind wrong as_array (option_map value_at member.entry)))
        (said.if_objects wrong) ≡ Ok (map value_at nodes.items)) }
    ensures err { IfFault result (λ fault. and_then
        (said.elements_of (said.of_kind wrong as_array (option_map value_at member.entry)))
        (said.if_objects wrong) ≡ Err fault) }
{
    let nodes = elements_in(alloc, member, wrong)?;
    if are_objects(nodes.as_slice()) {
        Ok(nodes)
    } else {
        Err(Refusal::Fault(wrong))
    }
}

/// The first element, where this is an array that has one.
#[tactic(auto, using(sarif_read::proofs::NodeValues::first_stripped))]
pub(crate) fn first_element<'t, 'a>(node: &Node<'t, 'a>) -> Option<Node<'t, 'a>>
    ensures { option_map value_at result
        ≡ said.first_of (elements_or_none (as_array (value_at node.now))) }
{
    node.first_item()
}

/// Whether this is an array.
#[tactic(auto, using(crate::proofs::NodeMembers::same_is_array))]
fn is_array(node: &Node<'_, '_>) -> bool
    ensures { result ≡ is_some (as_array (value_at node.now)) }
{
    node.is_array()
}

/// The first element of an array, if there is one. Returns `wrong` if this is not an array.
#[tactic(auto, using(crate::proofs::NodeMembers::first_steps))]
fn first_of_array<'t, 'a>(node: &Node<'t, 'a>, wrong: Fault) -> Result<Option<Node<'t, 'a>>, Fault>
    ensures { result_map (option_map value_at) result ≡ result_map said.first_of
        (said.elements_of (said.or_wrong wrong (as_array (value_at node.now)))) }
{
    if is_array(node) {
        Ok(first_element(node))
    } else {
        Err(wrong)
    }
}

/// The first element of the array that a member is; `None` if it is missing or has no elements. Returns `wrong` if it is
/// not an array, or the element is not an object, even if it is null.
#[tactic(auto, using(crate::proofs::NodeMembers::then_first))]
pub(crate) fn first_object_in<'t, 'a>(
    member: Option<Node<'t, 'a>>,
    wrong: Fault,
) -> Result<Option<Node<'t, 'a>>, Fault>
    ensures { result_map (option_map value_at) result ≡ and_then
        (said.elements_of (said.of_kind wrong as_array (option_map value_at member.entry)))
        (λ ds. said.if_object wrong (said.first_of ds)) }
{
    let Some(member) = member else {
        return Ok(None);
    };
    match first_of_array(&member, wrong)? {
        None => Ok(None),
        Some(first) => {
            if is_object(&first) {
                Ok(Some(first))
            } else {
                Err(wrong)
            }
        }
    }
}
