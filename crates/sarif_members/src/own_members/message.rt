//! The message of a result, and the id of its rule.
ghost use Rattle.std.specs.Prelude.{◌≡◌, Ok, Err, IfOk, map, option_map};
ghost use Rattle.serde_json.specs.View.{view as seen};
ghost use Rattle.sarif_members.specs.OwnMembers.{own_message, own_rule_id, own_message_and_rule};
ghost use Rattle.sarif_members.specs.OwnMembers.{text_of, texts_within};
ghost use Rattle.sarif_model.specs.Members.{result_map, read_each};
ghost use Rattle.sarif_model.specs.Internal.Refusal.{IfFault};

use sarif_model::members::{elements_at, object_at, object_within, text_at, text_within};
use sarif_model::{Fault, Message, Refusal, Sequence, Text, copy_if_there};
use serde_json::Value;
use std::alloc::Global;

/// The message of a result, and its rule.
#[derive(Drop)]
pub(super) struct MessageAndRule {
    /// `message`.
    pub message: Message,
    /// `ruleId`, otherwise `rule.id`.
    pub rule_id: Option<Text>,
}

/// The text that `value` is, or `BadMember`.
fn read_text(value: &Value) -> Result<&str, Fault>
    ensures { result_map (λ text. text.now) result ≡ text_of (seen value.now) }
{
    value.as_str().ok_or(Fault::BadMember)
}

/// The strings among these values, in order.
#[tactic(auto, using(sarif_model::proofs::ReadEach::read_steps))]
fn texts_of(alloc: Global, values: &[Value]) -> Result<Sequence<Text>, Refusal<Fault>>
    ensures ok { IfOk result (λ texts. read_each text_of (map seen values.now) ≡ Ok texts) }
    ensures err { IfFault result (λ fault. read_each text_of (map seen values.now) ≡ Err fault) }
{
    let mut texts = Sequence::new(alloc);
    for value in values {
        texts.push(Text::copy_of(alloc, read_text(value)?)?)?;
    }
    Ok(texts)
}

/// The elements of the array of strings `name` of an object that may be missing; empty if it is missing.
fn read_texts(
    alloc: Global,
    value: Option<&Value>,
    name: &str,
) -> Result<Sequence<Text>, Refusal<Fault>>
    ensures ok { IfOk result (λ texts.
        texts_within name.now (option_map (λ v. seen v.now) value.entry) ≡ Ok texts) }
    ensures err { IfFault result
        (λ fault. texts_within name.now (option_map (λ v. seen v.now) value.entry) ≡ Err fault) }
{
    match value {
        None => Ok(Sequence::new(alloc)),
        Some(value) => texts_of(alloc, elements_at(value, name, Fault::BadMember)?),
    }
}

/// The message of a result; empty if it is missing.
#[tactic(auto, unfolding(crate::specs::OwnMembers::own_message))]
fn read_message(alloc: Global, result_value: &Value) -> Result<Message, Refusal<Fault>>
    ensures ok { IfOk result (λ message. own_message (seen result_value.now) ≡ Ok message) }
    ensures err { IfFault result (λ fault. own_message (seen result_value.now) ≡ Err fault) }
{
    let message = object_at(result_value, "message", Fault::BadMember)?;
    let text = text_within(message, "text", Fault::BadMember)?;
    let id = text_within(message, "id", Fault::BadMember)?;
    let args = read_texts(alloc, message, "arguments")?;
    Ok(Message {
        text: copy_if_there(alloc, text)?,
        id: copy_if_there(alloc, id)?,
        args,
    })
}

/// `ruleId` of a result, otherwise its `rule.id`.
#[tactic(auto, unfolding(crate::specs::OwnMembers::own_rule_id))]
fn read_rule_id(result_value: &Value) -> Result<Option<&str>, Fault>
    ensures { result_map (option_map (λ id. id.now)) result ≡ own_rule_id (seen result_value.now) }
{
    let own = text_at(result_value, "ruleId", Fault::BadMember)?;
    let rule = object_at(result_value, "rule", Fault::BadMember)?;
    let id = text_within(rule, "id", Fault::BadMember)?;
    object_within(rule, "toolComponent", Fault::BadMember)?;
    Ok(own.or(id))
}

/// The message of a result and its rule's id; `BadMember` if a member has the wrong type (SARIF 2.1.0, result
/// object, "message property", "ruleId property", "rule property", "provenance property").
#[tactic(auto, unfolding(crate::specs::OwnMembers::own_message_and_rule))]
pub(super) fn read_message_and_rule(
    alloc: Global,
    result_value: &Value,
) -> Result<MessageAndRule, Refusal<Fault>>
    ensures ok { IfOk result (λ said. own_message_and_rule (seen result_value.now) ≡ Ok said) }
    ensures err { IfFault result
        (λ fault. own_message_and_rule (seen result_value.now) ≡ Err fault) }
{
    let message = read_message(alloc, result_value)?;
    let rule_id = read_rule_id(result_value)?;
    object_at(result_value, "provenance", Fault::BadMember)?;
    Ok(MessageAndRule {
        message,
        rule_id: copy_if_there(alloc, rule_id)?,
    })
}
