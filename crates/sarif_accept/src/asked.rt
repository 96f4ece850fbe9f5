//! The conditions of the entry that accepts a result, and the members that have them.
ghost use Rattle.std.specs.Prelude.{◌≡◌, map, option_map, IfOk, OnOk};
ghost use Rattle.serde_json.specs.Data.{string};
ghost use Rattle.serde_json.specs.View.{view, members_view};
ghost use Rattle.sarif_model.specs.Guid.{guid_text};
ghost use Rattle.sarif_model.specs.Written.{with_value};
ghost use Rattle.sarif_entries.specs.Condition.{all_kinds, name_of};
ghost use Rattle.sarif_accept.specs.Entry as said;

use sarif_entries::{Condition, ConditionKind, own_of};
use sarif_model::{Record, Sequence, Text};
use serde_json::{Map, Value, put};
use std::alloc::{AllocError, Global};
use uuid::Uuid;

/// Returns whether the result has neither a GUID nor full fingerprints.
fn has_no_guid_or_full(record: &Record) -> bool
    ensures { result ≡ said.has_no_guid_or_full «record».now }
{
    record.guid.is_none() && record.full.as_slice().is_empty()
}

/// Returns whether the result has neither a GUID nor fingerprints.
fn is_unmarked(record: &Record) -> bool
    ensures { result ≡ said.is_unmarked «record».now }
{
    has_no_guid_or_full(record) && record.partial.as_slice().is_empty()
}

/// Returns whether the entry names what the result has of that kind: its tool, its rule, its snippet and its GUID;
/// without one its URI and its fingerprints; without any its partial fingerprints; without any its message.
fn is_asked(kind: ConditionKind, record: &Record) -> bool
    ensures { result ≡ said.is_asked kind «record».now }
{
    match kind {
        ConditionKind::Tool
        | ConditionKind::RuleId
        | ConditionKind::Guid
        | ConditionKind::Snippet => true,
        ConditionKind::Uri | ConditionKind::Fingerprints => record.guid.is_none(),
        ConditionKind::PartialFingerprints => has_no_guid_or_full(record),
        ConditionKind::Message | ConditionKind::MessageId | ConditionKind::MessageArguments => {
            is_unmarked(record)
        }
        ConditionKind::UriPrefix => false,
    }
}

/// Returns the condition of that kind that the entry names, if it names one.
pub(crate) fn asked_of(
    alloc: Global,
    record: &Record,
    kind: ConditionKind,
) -> Result<Option<Condition>, AllocError>
    ensures { IfOk result (λ asked. asked ≡ said.asked_of «record».now kind) }
{
    if is_asked(kind, record) {
        own_of(alloc, kind, record)
    } else {
        Ok(None)
    }
}

/// Returns the conditions of these kinds that the entry names, in order.
#[tactic(auto, using(crate::proofs::NamedBy::one_more, crate::proofs::NamedBy::none_more, crate::proofs::NamedBy::at_end))]
fn named_of(
    alloc: Global,
    record: &Record,
    kinds: &[ConditionKind],
) -> Result<Sequence<Condition>, AllocError>
    ensures { IfOk result
        (λ conditions. conditions ≡ said.named_by (said.asked_of «record».now) kinds.now) }
{
    let mut conditions = Sequence::new(alloc);
    for kind in kinds {
        if let Some(condition) = asked_of(alloc, record, *kind)? {
            conditions.push(condition)?;
        }
    }
    Ok(conditions)
}

/// Returns the conditions of the entry that accepts the result.
pub(crate) fn conditions_for(
    alloc: Global,
    record: &Record,
) -> Result<Sequence<Condition>, AllocError>
    ensures { IfOk result (λ conditions. conditions ≡ said.conditions_for «record».now) }
{
    named_of(alloc, record, ConditionKind::ALL)
}

/// The GUID in lower-case hexadecimal digits with hyphens.
fn text_of_guid(alloc: Global, guid: u128) -> Result<Value, AllocError>
    ensures { IfOk result (λ value. view value ≡ string (guid_text guid)) }
{
    let mut buffer = Uuid::encode_buffer();
    let text = Uuid::from_u128(guid).hyphenated().encode_lower(&mut buffer);
    Value::try_from_str(alloc, text)
}

/// The members of a map of strings.
pub(crate) fn texts_of(
    alloc: Global,
    pairs: &[(Text, Text)],
) -> Result<Map<String, Value>, AllocError>
    ensures { IfOk result (λ members. members_view members.entries ≡ said.texts_put pairs.now) }
{
    let mut members = Map::new(alloc);
    for (name, text) in pairs {
        let value = Value::try_from_str(alloc, text.as_str())?;
        put(&mut members, alloc, name.as_str(), value)?;
    }
    Ok(members)
}

/// The strings as values, in order.
fn strings_of(alloc: Global, texts: &[Text]) -> Result<Vec<Value>, AllocError>
    ensures { IfOk result (λ values. map view values.items ≡ map string texts.now) }
{
    let mut values = Vec::new(alloc);
    for text in texts {
        values.push(Value::try_from_str(alloc, text.as_str())?)?;
    }
    Ok(values)
}

/// Returns the value of the member that has the condition.
fn value_of(alloc: Global, condition: &Condition) -> Result<Value, AllocError>
    ensures { IfOk result (λ value. view value ≡ said.value_of condition.now) }
{
    match condition {
        Condition::Guid(guid) => text_of_guid(alloc, *guid),
        Condition::Fingerprints(pairs) | Condition::PartialFingerprints(pairs) => {
            Ok(Value::Object(texts_of(alloc, pairs.as_slice())?))
        }
        Condition::MessageArguments(texts) => {
            Ok(Value::Array(strings_of(alloc, texts.as_slice())?))
        }
        Condition::Tool(text)
        | Condition::RuleId(text)
        | Condition::Uri(text)
        | Condition::UriPrefix(text)
        | Condition::Message(text)
        | Condition::MessageId(text)
        | Condition::Snippet(text) => Value::try_from_str(alloc, text.as_str()),
    }
}

/// Sets the member of the condition of that kind, if the entry names one.
fn put_asked(
    alloc: Global,
    members: &mut Map<String, Value>,
    record: &Record,
    kind: ConditionKind,
) -> Result<(), AllocError>
    ensures { OnOk result (members_view members.new.entries
        ≡ with_value (name_of kind) (option_map said.value_of (said.asked_of «record».now kind))
        (members_view members.old.entries)) }
{
    if let Some(condition) = asked_of(alloc, record, kind)? {
        let value = value_of(alloc, &condition)?;
        put(members, alloc, kind.name(), value)?;
    }
    Ok(())
}

/// Returns the members of the conditions of these kinds that the entry names.
#[tactic(auto, using(crate::proofs::NamedBy::rows_step, crate::proofs::NamedBy::no_rows))]
fn members_of(
    alloc: Global,
    record: &Record,
    kinds: &[ConditionKind],
) -> Result<Map<String, Value>, AllocError>
    ensures { IfOk result (λ members. members_view members.entries
        ≡ said.members_from (said.rows_of (said.asked_of «record».now) kinds.now)) }
{
    let mut members = Map::new(alloc);
    let mut left = kinds.len();
    while left > 0 {
        left -= 1;
        put_asked(alloc, &mut members, record, kinds[left])?;
    }
    Ok(members)
}

/// Returns the conditions of the entry that accepts the result, as members.
pub(crate) fn asked_members(
    alloc: Global,
    record: &Record,
) -> Result<Map<String, Value>, AllocError>
    ensures { IfOk result (λ members. members_view members.entries
        ≡ said.members_from (said.rows_of (said.asked_of «record».now) all_kinds)) }
{
    members_of(alloc, record, ConditionKind::ALL)
}
