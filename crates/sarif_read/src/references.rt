//! How a result refers to its rule and to its message, read from the index of its log. A value is made only
//! of the arguments of its message.
ghost use Rattle.std.specs.Prelude.{◌≡◌, Some, codes, map, option_map, IfOk};
ghost use Rattle.std.specs.Option.{option_or};
ghost use Rattle.serde_json.specs.Find.{get, as_array};
ghost use Rattle.serde_json.specs.View.{view};
ghost use Rattle.sarif_model.specs.Internal.FirstLocation.{string_in, integer_in};
ghost use Rattle.sarif_model.specs.Internal.References as said;
ghost use Rattle.sarif_model.specs.Internal.References.{IsRuleReference};
ghost use Rattle.sarif_model.specs.Run.{elements_or_none};
ghost use Rattle.sarif_read.specs.Internal.Listed.{value_at};
ghost use Rattle.sarif_read.specs.Internal.ReadMessage.{IsReadMessage};

use crate::filling::values_of;
use crate::members::{integer_in, member_in, string_in};
use crate::nodes::{elements_of, integer_member, kept_member, text_of};
use crate::read_message::ReadMessage;
use json_parts::Node;
use sarif_model::{MessageReference, RuleReference};
use serde_json::Value;
use std::alloc::{AllocError, Global};

/// The member `rule` or `message` of a result, for example.
#[tactic(auto, using(crate::proofs::PickedMembers::data_ordered))]
fn member_of<'t, 'a>(found: &Node<'t, 'a>, name: &str) -> Option<Node<'t, 'a>>
    ensures { option_map value_at result ≡ get name.now (value_at found.now) }
{
    kept_member(found, name)
}

/// The string of that name.
fn string_of<'a>(found: &Node<'_, 'a>, name: &str) -> Option<&'a str>
    ensures { option_map (λ text. text.now) result
        ≡ string_in name.now (Some (value_at found.now)) }
{
    text_of(&member_of(found, name)?)
}

/// `ruleId`, otherwise `rule.id`.
fn rule_id<'t, 'a>(found: &Node<'t, 'a>, rule: &Option<Node<'t, 'a>>) -> Option<&'a str>
    ensures { option_map (λ id. id.now) result
        ≡ option_or (string_in (codes "ruleId") (Some (value_at found.now)))
        (string_in (codes "id") (option_map value_at rule.now)) }
{
    match string_of(found, "ruleId") {
        Some(id) => Some(id),
        None => string_in(rule, "id"),
    }
}

/// `rule.index`, otherwise `ruleIndex`.
#[tactic(auto, using(crate::proofs::PickedMembers::data_ordered))]
fn rule_index<'t, 'a>(found: &Node<'t, 'a>, rule: &Option<Node<'t, 'a>>) -> Option<u64>
    ensures { result ≡ option_or (integer_in (codes "index") (option_map value_at rule.now))
        (integer_in (codes "ruleIndex") (Some (value_at found.now))) }
{
    match integer_in(rule, "index") {
        Some(index) => Some(index),
        None => integer_member(found, "ruleIndex"),
    }
}

/// How a result refers to its rule.
pub(crate) fn rule_in<'a>(found: &Node<'_, 'a>) -> RuleReference<'a>
    ensures { IsRuleReference result (value_at found.now) }
{
    let rule = member_of(found, "rule");
    let component = member_in(&rule, "toolComponent");
    RuleReference {
        id: rule_id(found, &rule),
        index: rule_index(found, &rule),
        extension: integer_in(&component, "index"),
    }
}

/// The values of the elements, if this is an array.
#[tactic(auto, using(crate::proofs::PickedMembers::data_ordered, crate::proofs::RunOf::elements_found))]
fn elements_in(alloc: Global, node: &Node<'_, '_>) -> Result<Vec<Value>, AllocError>
    ensures { IfOk result (λ values. map view values.items
        ≡ elements_or_none (as_array (value_at node.now))) }
{
    let Some(nodes) = elements_of(alloc, node)? else {
        return Ok(Vec::new(alloc));
    };
    let values = values_of(alloc, nodes.as_slice())?;
    Ok(values)
}

/// The arguments of a message.
fn arguments_of(alloc: Global, message: &Option<Node<'_, '_>>) -> Result<Vec<Value>, AllocError>
    ensures { IfOk result (λ values. map view values.items
        ≡ said.arguments_of (option_map value_at message.now)) }
{
    match member_in(message, "arguments") {
        Some(node) => elements_in(alloc, &node),
        None => Ok(Vec::new(alloc)),
    }
}

/// What reports read from the message of a result.
pub(crate) fn message_in<'a>(
    alloc: Global,
    found: &Node<'_, 'a>,
) -> Result<ReadMessage<'a>, AllocError>
    ensures { IfOk result (IsReadMessage (value_at found.now)) }
{
    let message = member_of(found, "message");
    let arguments = arguments_of(alloc, &message)?;
    let reference = MessageReference {
        text: string_in(&message, "text"),
        id: string_in(&message, "id"),
    };
    Ok(ReadMessage {
        reference,
        arguments,
    })
}
