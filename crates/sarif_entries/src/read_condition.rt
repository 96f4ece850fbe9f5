//! Reading the conditions of an entry of the suppression file, each from its member.
ghost use Rattle.std.specs.Prelude.{◌≡◌, map, option_map, Ok, Err, IfOk};
ghost use Rattle.serde_json.specs.View.{view, members_view};
ghost use Rattle.sarif_model.specs.Members as told;
ghost use Rattle.sarif_model.specs.Internal.Refusal.{IfFault};
ghost use Rattle.sarif_entries.specs.Entries as said;

use crate::condition::{Condition, ConditionKind, condition_at};
use crate::fault::FileFault;
use sarif_model::members::{elements_at, member_at, text_at};
use sarif_model::{Pairs, Refusal, Sequence, Text, copy_if_there, read_guid};
use serde_json::{Map, Value};
use std::alloc::{AllocError, Global};

/// The string `name` of an entry.
pub(crate) fn own_text_at(
    alloc: Global,
    entry: &Value,
    name: &str,
    wrong: FileFault,
) -> Result<Option<Text>, Refusal<FileFault>>
    ensures ok { IfOk result (λ text. told.text_at wrong name.now (view entry.now) ≡ Ok text) }
    ensures err { IfFault result
        (λ fault. told.text_at wrong name.now (view entry.now) ≡ Err fault) }
{
    let text = text_at(entry, name, wrong)?;
    Ok(copy_if_there(alloc, text)?)
}

/// The GUID `name` of an entry.
pub(crate) fn guid_at(
    entry: &Value,
    name: &str,
    wrong: FileFault,
) -> Result<Option<u128>, FileFault>
    ensures { result ≡ said.guid_at wrong name.now (view entry.now) }
{
    match text_at(entry, name, wrong)? {
        None => Ok(None),
        Some(text) => match read_guid(text) {
            Some(guid) => Ok(Some(guid)),
            None => Err(wrong),
        },
    }
}

/// Returns whether all members are strings or null.
fn are_texts(members: &Map<String, Value>) -> bool
    ensures { result ≡ said.are_texts (members_view members.now.entries) }
{
    for (_, value) in members.iter() {
        if !value.is_string() && !value.is_null() {
            return false;
        }
    }
    true
}

/// The members that are strings, with their names.
fn pairs_of(alloc: Global, members: &Map<String, Value>) -> Result<Pairs, AllocError>
    ensures { IfOk result (λ pairs. pairs ≡ said.pairs_of (members_view members.now.entries)) }
{
    let mut pairs = Sequence::new(alloc);
    for (name, value) in members.iter() {
        if let Some(text) = value.as_str() {
            let name = Text::copy_of(alloc, name.as_str())?;
            pairs.push((name, Text::copy_of(alloc, text)?))?;
        }
    }
    Ok(pairs)
}

/// The map of strings `name` of an entry, without its null members; empty if it is missing.
pub(crate) fn pairs_at(
    alloc: Global,
    entry: &Value,
    name: &str,
    wrong: FileFault,
) -> Result<Pairs, Refusal<FileFault>>
    ensures ok { IfOk result (λ pairs. said.pairs_at wrong name.now (view entry.now) ≡ Ok pairs) }
    ensures err { IfFault result
        (λ fault. said.pairs_at wrong name.now (view entry.now) ≡ Err fault) }
{
    match member_at(entry, name) {
        None => Ok(Sequence::new(alloc)),
        Some(member) => match member.as_object() {
            Some(members) => {
                if are_texts(members) {
                    Ok(pairs_of(alloc, members)?)
                } else {
                    Err(Refusal::Fault(wrong))
                }
            }
            None => Err(Refusal::Fault(wrong)),
        },
    }
}

/// The text that `value` is; otherwise returns `wrong`.
fn read_text(value: &Value, wrong: FileFault) -> Result<&str, FileFault>
    ensures { told.result_map (λ text. text.now) result ≡ said.text_or wrong (view value.now) }
{
    value.as_str().ok_or(wrong)
}

/// The strings that these values are, in order.
#[tactic(auto, using(sarif_model::proofs::ReadEach::read_steps))]
fn texts_of(
    alloc: Global,
    values: &[Value],
    wrong: FileFault,
) -> Result<Sequence<Text>, Refusal<FileFault>>
    ensures ok { IfOk result
        (λ texts. told.read_each (said.text_or wrong) (map view values.now) ≡ Ok texts) }
    ensures err { IfFault result
        (λ fault. told.read_each (said.text_or wrong) (map view values.now) ≡ Err fault) }
{
    let mut texts = Sequence::new(alloc);
    for value in values {
        texts.push(Text::copy_of(alloc, read_text(value, wrong)?)?)?;
    }
    Ok(texts)
}

/// The array of strings `name` of an entry; empty if it is missing.
pub(crate) fn texts_at(
    alloc: Global,
    entry: &Value,
    name: &str,
    wrong: FileFault,
) -> Result<Sequence<Text>, Refusal<FileFault>>
    ensures ok { IfOk result (λ texts. said.texts_at wrong name.now (view entry.now) ≡ Ok texts) }
    ensures err { IfFault result
        (λ fault. said.texts_at wrong name.now (view entry.now) ≡ Err fault) }
{
    texts_of(alloc, elements_at(entry, name, wrong)?, wrong)
}

/// Returns the conditions of these kinds that an entry names, in order.
#[tactic(auto, using(crate::proofs::FromKinds::one_more, crate::proofs::FromKinds::none_more, crate::proofs::FromKinds::stops, crate::proofs::FromKinds::at_end, sarif_model::proofs::ReadEach::begins))]
fn conditions_from(
    alloc: Global,
    entry: &Value,
    kinds: &[ConditionKind],
    wrong: FileFault,
) -> Result<Sequence<Condition>, Refusal<FileFault>>
    ensures ok { IfOk result
        (λ conditions. said.conditions_from wrong (view entry.now) kinds.now ≡ Ok conditions) }
    ensures err { IfFault result
        (λ fault. said.conditions_from wrong (view entry.now) kinds.now ≡ Err fault) }
{
    let mut conditions = Sequence::new(alloc);
    for kind in kinds {
        if let Some(condition) = condition_at(alloc, entry, *kind, wrong)? {
            conditions.push(condition)?;
        }
    }
    Ok(conditions)
}

/// Returns the conditions that an entry names, in the order of `ConditionKind::ALL`; `wrong` if a member that has one is
/// of another type. Returns `OutOfMemory` if memory for them runs out.
#[tactic(auto, unfolding(crate::specs::Entries::conditions_of))]
pub fn conditions_of(
    alloc: Global,
    entry: &Value,
    wrong: FileFault,
) -> Result<Sequence<Condition>, Refusal<FileFault>>
    ensures ok { IfOk result
        (λ conditions. said.conditions_of wrong (view entry.now) ≡ Ok conditions) }
    ensures err { IfFault result (λ fault. said.conditions_of wrong (view entry.now) ≡ Err fault) }
{
    conditions_from(alloc, entry, ConditionKind::ALL, wrong)
}
