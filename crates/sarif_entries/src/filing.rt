//! The condition under which an entry is filed: the most specific one. An entry with `max` is filed under none of its
//! conditions, but under its number.
ghost use Rattle.std.specs.Prelude.{◌≡◌, option_map, slice_get, IfOk};
ghost use Rattle.std.specs.Option.{option_copied};
ghost use Rattle.sarif_entries.specs.Internal.Filing as said;

use crate::condition::{Condition, ConditionKind, of_kind, text_in};
use crate::entry::Entry;
use crate::message_keys::{key_of, key_of_pair};
use sarif_evidence::packed;
use sarif_model::{Sequence, Text};
use std::alloc::{AllocError, Global};

/// A condition on a string of the result.
#[derive(Clone, Copy)]
pub enum TextCondition {
    /// `uri`.
    Uri,
    /// `ruleId`.
    RuleId,
    /// `tool`.
    Tool,
}

/// A condition on fingerprints of the result.
#[derive(Clone, Copy)]
pub enum PairCondition {
    /// `fingerprints`.
    Full,
    /// `partialFingerprints`.
    Partial,
}

/// The first pair, if there is one.
fn first_of(pairs: &[(Text, Text)]) -> Option<(&Text, &Text)>
    ensures { option_map (λ p. (p.0.now, p.1.now)) result ≡ slice_get pairs.now 0 }
{
    match pairs.first() {
        Some((name, value)) => Some((name, value)),
        None => None,
    }
}

/// Returns the named fingerprints of that kind.
fn pairs_in(conditions: &[Condition], kind: ConditionKind) -> &[(Text, Text)]
    ensures { result.now ≡ said.pairs_in kind conditions.now }
{
    match of_kind(conditions, kind) {
        Some(Condition::Fingerprints(pairs) | Condition::PartialFingerprints(pairs)) => {
            pairs.as_slice()
        }
        _ => &[],
    }
}

/// Returns the named arguments of a message.
fn args_in(conditions: &[Condition]) -> &[Text]
    ensures { result.now ≡ said.args_in conditions.now }
{
    match of_kind(conditions, ConditionKind::MessageArguments) {
        Some(Condition::MessageArguments(texts)) => texts.as_slice(),
        _ => &[],
    }
}

/// Returns the named GUID, if there is one.
fn guid_in(conditions: &[Condition]) -> Option<u128>
    ensures { result ≡ said.guid_in conditions.now }
{
    match of_kind(conditions, ConditionKind::Guid) {
        Some(Condition::Guid(guid)) => Some(*guid),
        _ => None,
    }
}

/// Returns whether neither a GUID nor a snippet is named.
fn has_no_guid_or_snippet(conditions: &[Condition]) -> bool
    ensures { result ≡ said.has_no_guid_or_snippet conditions.now }
{
    guid_in(conditions).is_none() && text_in(conditions, ConditionKind::Snippet).is_none()
}

/// Returns whether none of a GUID, a snippet and full fingerprints are named.
fn has_no_guid_or_full(conditions: &[Condition]) -> bool
    ensures { result ≡ said.has_no_guid_or_full conditions.now }
{
    has_no_guid_or_snippet(conditions)
        && pairs_in(conditions, ConditionKind::Fingerprints).is_empty()
}

/// Returns the first named fingerprint, otherwise the first named partial fingerprint.
fn first_pair(conditions: &[Condition]) -> Option<(&Text, &Text)>
    ensures { option_map (λ p. (p.0.now, p.1.now)) result ≡ said.first_pair conditions.now }
{
    let full = pairs_in(conditions, ConditionKind::Fingerprints);
    if full.is_empty() {
        first_of(pairs_in(conditions, ConditionKind::PartialFingerprints))
    } else {
        first_of(full)
    }
}

/// Returns whether none of a GUID, a snippet and fingerprints are named.
fn is_unmarked(conditions: &[Condition]) -> bool
    ensures { result ≡ said.is_unmarked conditions.now }
{
    has_no_guid_or_full(conditions)
        && pairs_in(conditions, ConditionKind::PartialFingerprints).is_empty()
}

/// Returns the named text of the message, otherwise its named id.
fn head_in(conditions: &[Condition]) -> Option<&Text>
    ensures { option_copied result ≡ said.head_of conditions.now }
{
    match text_in(conditions, ConditionKind::Message) {
        Some(text) => Some(text),
        None => text_in(conditions, ConditionKind::MessageId),
    }
}

/// Returns whether nothing of the message is named.
fn has_no_message(conditions: &[Condition]) -> bool
    ensures { result ≡ said.has_no_message conditions.now }
{
    text_in(conditions, ConditionKind::Message).is_none()
        && text_in(conditions, ConditionKind::MessageId).is_none()
        && args_in(conditions).is_empty()
}

/// Returns whether neither a message nor a URI is named.
fn has_no_message_or_uri(conditions: &[Condition]) -> bool
    ensures { result ≡ said.has_no_message_or_uri conditions.now }
{
    has_no_message(conditions) && text_in(conditions, ConditionKind::Uri).is_none()
}

/// Returns whether none of a message, a URI, a URI prefix and a rule id is named.
fn has_tool_alone(conditions: &[Condition]) -> bool
    ensures { result ≡ said.has_tool_alone conditions.now }
{
    has_no_message_or_uri(conditions)
        && text_in(conditions, ConditionKind::RuleId).is_none()
        && text_in(conditions, ConditionKind::UriPrefix).is_none()
}

impl Entry {
    /// Returns the GUID that the entry names, where the entry is filed under it.
    pub fn guid_key(&self) -> Option<u128>
        ensures { result ≡ said.filed self.now (said.guid_in self.now.conditions) }
    {
        if self.limit.is_some() {
            return None;
        }
        guid_in(self.conditions.as_slice())
    }

    /// Returns the snippet that the entry names, without white space, where the entry is filed under it. Returns
    /// `AllocError` if memory for it runs out.
    pub fn snippet_key(&self, alloc: Global) -> Result<Option<Text>, AllocError>
        ensures { IfOk result
            (λ key. key ≡ said.filed self.now (said.snippet_key self.now.conditions)) }
    {
        let conditions = self.conditions.as_slice();
        if self.limit.is_some() || guid_in(conditions).is_some() {
            return Ok(None);
        }
        match text_in(conditions, ConditionKind::Snippet) {
            Some(snippet) => Ok(Some(packed(alloc, snippet.as_str())?)),
            None => Ok(None),
        }
    }

    /// Returns the key of the entry among those of its snippet: its first fingerprint, otherwise what is named of the
    /// message, each with the URI that is named. Returns `AllocError` if memory for it runs out.
    pub fn key_beside_snippet(&self, alloc: Global) -> Result<Sequence<Text>, AllocError>
        ensures { IfOk result (λ key. key ≡ said.key_beside self.now.conditions) }
    {
        let conditions = self.conditions.as_slice();
        let uri = text_in(conditions, ConditionKind::Uri);
        if let Some((name, value)) = first_pair(conditions) {
            return key_of_pair(alloc, uri, name, value);
        }
        key_of(alloc, uri, head_in(conditions), args_in(conditions))
    }

    /// The first fingerprint that is named, where the entry is filed under it.
    pub fn pair_key(&self, which: PairCondition) -> Option<(&Text, &Text)>
        ensures { option_map (λ p. (p.0.now, p.1.now)) result
            ≡ said.filed self.now (said.pair_key which self.now.conditions) }
    {
        if self.limit.is_some() {
            return None;
        }
        let conditions = self.conditions.as_slice();
        match which {
            PairCondition::Full if has_no_guid_or_snippet(conditions) => {
                first_of(pairs_in(conditions, ConditionKind::Fingerprints))
            }
            PairCondition::Partial if has_no_guid_or_full(conditions) => {
                first_of(pairs_in(conditions, ConditionKind::PartialFingerprints))
            }
            _ => None,
        }
    }

    /// The text that is named, where the entry is filed under it.
    pub fn text_key(&self, which: TextCondition) -> Option<&Text>
        ensures { option_copied result
            ≡ said.filed self.now (said.text_key which self.now.conditions) }
    {
        let conditions = self.conditions.as_slice();
        if self.limit.is_some() || !is_unmarked(conditions) {
            return None;
        }
        match which {
            TextCondition::Uri if has_no_message(conditions) => {
                text_in(conditions, ConditionKind::Uri)
            }
            TextCondition::RuleId if has_no_message_or_uri(conditions) => {
                text_in(conditions, ConditionKind::RuleId)
            }
            TextCondition::Tool if has_tool_alone(conditions) => {
                text_in(conditions, ConditionKind::Tool)
            }
            _ => None,
        }
    }

    /// What is named of the message, with the URI that is named, where the entry is filed under it.
    pub fn message_key(&self, alloc: Global) -> Result<Option<Sequence<Text>>, AllocError>
        ensures { IfOk result
            (λ key. key ≡ said.filed self.now (said.message_key self.now.conditions)) }
    {
        let conditions = self.conditions.as_slice();
        if self.limit.is_some() || !is_unmarked(conditions) || has_no_message(conditions) {
            return Ok(None);
        }
        let uri = text_in(conditions, ConditionKind::Uri);
        let key = key_of(alloc, uri, head_in(conditions), args_in(conditions))?;
        Ok(Some(key))
    }

    /// The prefix that is named, where the entry is filed under it.
    pub fn prefix_key(&self) -> Option<&Text>
        ensures { option_copied result
            ≡ said.filed self.now (said.prefix_key self.now.conditions) }
    {
        let conditions = self.conditions.as_slice();
        if self.limit.is_none()
            && is_unmarked(conditions)
            && has_no_message_or_uri(conditions)
            && text_in(conditions, ConditionKind::RuleId).is_none()
        {
            text_in(conditions, ConditionKind::UriPrefix)
        } else {
            None
        }
    }

    /// Returns whether the entry has no `max` and no key, so that it is compared with each result.
    pub fn has_no_key(&self) -> bool
        ensures { result ≡ said.asks_for_none self.now }
    {
        let conditions = self.conditions.as_slice();
        self.limit.is_none()
            && is_unmarked(conditions)
            && has_tool_alone(conditions)
            && text_in(conditions, ConditionKind::Tool).is_none()
    }
}
