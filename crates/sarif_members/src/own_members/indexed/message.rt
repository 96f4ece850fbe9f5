//! The message of a result of an indexed log, and the id of its rule.
ghost use Rattle.std.specs.Prelude.{◌≡◌, Ok, Err, IfOk, map, option_map};
ghost use Rattle.sarif_read.specs.Internal.Listed.{value_at};
ghost use Rattle.sarif_members.specs.OwnMembers.{own_message, own_rule_id, own_message_and_rule};
ghost use Rattle.sarif_members.specs.OwnMembers.{text_of as said_text, texts_within};
ghost use Rattle.sarif_model.specs.Members.{result_map, read_each};
ghost use Rattle.sarif_model.specs.Internal.Refusal.{IfFault};

use super::super::message::MessageAndRule;
use crate::node_members::{elements_at, object_within, text_of, text_within};
use crate::result_node::ResultNode;
use json_parts::Node;
use sarif_model::{Fault, Message, Refusal, Sequence, Text, copy_if_there};
use std::alloc::Global;

/// The text that this value is, or `BadMember`.
fn read_text<'a>(node: &Node<'_, 'a>) -> Result<&'a str, Fault>
    ensures { result_map (λ text. text.now) result ≡ said_text (value_at node.now) }
{
    text_of(node).ok_or(Fault::BadMember)
}

/// The strings among these values, in order.
#[tactic(auto, using(sarif_model::proofs::ReadEach::read_steps))]
fn texts_of(alloc: Global, nodes: &[Node<'_, '_>]) -> Result<Sequence<Text>, Refusal<Fault>>
    ensures ok { IfOk result
        (λ texts. read_each said_text (map value_at nodes.now) ≡ Ok texts) }
    ensures err { IfFault result
        (λ fault. read_each said_text (map value_at nodes.now) ≡ Err fault) }
{
    let mut texts = Sequence::new(alloc);
    for node in nodes {
        texts.push(Text::copy_of(alloc, read_text(node)?)?)?;
    }
    Ok(texts)
}

/// The elements of the array of strings `name` of an object that may be missing; empty if it is missing.
fn read_texts(
    alloc: Global,
    found: &Option<Node<'_, '_>>,
    name: &str,
) -> Result<Sequence<Text>, Refusal<Fault>>
    ensures ok { IfOk result (λ texts.
        texts_within name.now (option_map value_at found.now) ≡ Ok texts) }
    ensures err { IfFault result
        (λ fault. texts_within name.now (option_map value_at found.now) ≡ Err fault) }
{
    match found {
        None => Ok(Sequence::new(alloc)),
        Some(node) => {
            let elements = elements_at(alloc, node, name, Fault::BadMember)?;
            texts_of(alloc, elements.as_slice())
        }
    }
}

/// The message of a result; empty if it is missing.
#[tactic(auto, unfolding(crate::specs::OwnMembers::own_message))]
fn read_message(alloc: Global, found: &ResultNode<'_, '_, '_>) -> Result<Message, Refusal<Fault>>
    ensures ok { IfOk result (λ message. own_message (value_at found.now) ≡ Ok message) }
    ensures err { IfFault result (λ fault. own_message (value_at found.now) ≡ Err fault) }
{
    let message = found.object_at("message", Fault::BadMember)?;
    let text = text_within(&message, "text", Fault::BadMember)?;
    let id = text_within(&message, "id", Fault::BadMember)?;
    let args = read_texts(alloc, &message, "arguments")?;
    Ok(Message {
        text: copy_if_there(alloc, text)?,
        id: copy_if_there(alloc, id)?,
        args,
    })
}

/// `ruleId` of a result, otherwise its `rule.id`.
#[tactic(auto, unfolding(crate::specs::OwnMembers::own_rule_id))]
fn read_rule_id<'a>(found: &ResultNode<'_, '_, 'a>) -> Result<Option<&'a str>, Fault>
    ensures { result_map (option_map (λ id. id.now)) result ≡ own_rule_id (value_at found.now) }
{
    let own = found.text_at("ruleId", Fault::BadMember)?;
    let rule = found.object_at("rule", Fault::BadMember)?;
    let id = text_within(&rule, "id", Fault::BadMember)?;
    object_within(&rule, "toolComponent", Fault::BadMember)?;
    Ok(own.or(id))
}

/// The message of a result and its rule's id; `BadMember` if a member has the wrong type (SARIF 2.1.0, result
/// object, "message property", "ruleId property", "rule property", "provenance property").
#[tactic(auto, unfolding(crate::specs::OwnMembers::own_message_and_rule))]
pub(super) fn read_message_and_rule(
    alloc: Global,
    found: &ResultNode<'_, '_, '_>,
) -> Result<MessageAndRule, Refusal<Fault>>
    ensures ok { IfOk result (λ said. own_message_and_rule (value_at found.now) ≡ Ok said) }
    ensures err { IfFault result
        (λ fault. own_message_and_rule (value_at found.now) ≡ Err fault) }
{
    let message = read_message(alloc, found)?;
    let rule_id = read_rule_id(found)?;
    found.object_at("provenance", Fault::BadMember)?;
    Ok(MessageAndRule {
        message,
        rule_id: copy_if_there(alloc, rule_id)?,
    })
}
