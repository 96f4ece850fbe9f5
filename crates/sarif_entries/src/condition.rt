//! The conditions of entries: what each requires of a result.
ghost use Rattle.std.specs.Prelude.{◌≡◌, ℕ, Ok, Err, IfOk, IfSome, drop, true};
ghost use Rattle.std.specs.List.{list_any};
ghost use Rattle.std.specs.Option.{option_copied};
ghost use Rattle.serde_json.specs.View.{view};
ghost use Rattle.sarif_model.specs.Internal.Refusal.{IfFault};
ghost use Rattle.sarif_entries.specs.Condition as said;
ghost use Rattle.sarif_entries.specs.Entries as read;
ghost use Rattle.sarif_entries.specs.Matching.{hold as all_hold};

use crate::fault::FileFault;
use crate::read_condition::{guid_at, own_text_at, pairs_at, texts_at};
use crate::version::Version;
use sarif_evidence::are_same_packed;
use sarif_model::{Pairs, Record, Refusal, Sequence, Text};
use serde_json::Value;
use std::alloc::{AllocError, Global};

/// A condition of an entry on a result.
#[derive(Debug, Drop, PartialEq, Eq, Hash)]
pub enum Condition {
    /// `tool`: the name of the tool's driver.
    Tool(Text),
    /// `ruleId`: the rule id of the result.
    RuleId(Text),
    /// `uri`: that of the place.
    Uri(Text),
    /// `uriPrefix`: what the `uri` of the place begins with.
    UriPrefix(Text),
    /// `guid`: the result's `correlationGuid`, as a number.
    Guid(u128),
    /// `fingerprints`: each of them is among the result's fingerprints.
    Fingerprints(Pairs),
    /// `partialFingerprints`: each of them is among the result's partial fingerprints.
    PartialFingerprints(Pairs),
    /// `message`: the text of the result's message.
    Message(Text),
    /// `messageId`: the id of the result's message.
    MessageId(Text),
    /// `messageArguments`: the arguments of the result's message, all of them in order.
    MessageArguments(Sequence<Text>),
    /// `snippet`: that of the result, except for white space.
    Snippet(Text),
}

/// A kind of condition.
#[derive(Clone, Copy, Debug, PartialEq, Eq)]
pub enum ConditionKind {
    /// `Condition::Tool`.
    Tool,
    /// `Condition::RuleId`.
    RuleId,
    /// `Condition::Uri`.
    Uri,
    /// `Condition::UriPrefix`.
    UriPrefix,
    /// `Condition::Guid`.
    Guid,
    /// `Condition::Fingerprints`.
    Fingerprints,
    /// `Condition::PartialFingerprints`.
    PartialFingerprints,
    /// `Condition::Message`.
    Message,
    /// `Condition::MessageId`.
    MessageId,
    /// `Condition::MessageArguments`.
    MessageArguments,
    /// `Condition::Snippet`.
    Snippet,
}

impl ConditionKind {
    /// All of them, in the order in which they are read.
    pub const ALL: &'static [ConditionKind] = &[
        ConditionKind::Tool,
        ConditionKind::RuleId,
        ConditionKind::Uri,
        ConditionKind::UriPrefix,
        ConditionKind::Guid,
        ConditionKind::Fingerprints,
        ConditionKind::PartialFingerprints,
        ConditionKind::Message,
        ConditionKind::MessageId,
        ConditionKind::MessageArguments,
        ConditionKind::Snippet,
    ];

    /// The name of the member of an entry that has the condition.
    pub fn name(self) -> &'static str
        ensures { result.now ≡ said.name_of self }
    {
        match self {
            ConditionKind::Tool => "tool",
            ConditionKind::RuleId => "ruleId",
            ConditionKind::Uri => "uri",
            ConditionKind::UriPrefix => "uriPrefix",
            ConditionKind::Guid => "guid",
            ConditionKind::Fingerprints => "fingerprints",
            ConditionKind::PartialFingerprints => "partialFingerprints",
            ConditionKind::Message => "message",
            ConditionKind::MessageId => "messageId",
            ConditionKind::MessageArguments => "messageArguments",
            ConditionKind::Snippet => "snippet",
        }
    }

    /// The first version of the file whose entries may have the condition.
    pub(crate) fn since(self) -> Version
        ensures { result ≡ said.since self }
    {
        match self {
            ConditionKind::Tool
            | ConditionKind::RuleId
            | ConditionKind::Uri
            | ConditionKind::Guid
            | ConditionKind::Fingerprints
            | ConditionKind::PartialFingerprints => Version::First,
            ConditionKind::UriPrefix => Version::Second,
            ConditionKind::Message | ConditionKind::MessageId | ConditionKind::MessageArguments =>
                Version::Fourth,
            ConditionKind::Snippet => Version::Fifth,
        }
    }
}

/// Returns whether there is a string and it is this one.
fn is_text(text: &Text, found: &Option<Text>) -> bool
    ensures { result ≡ said.is_text text.now found.now }
{
    match found {
        None => false,
        Some(found) => text == found,
    }
}

/// Returns whether there is a string that begins with the prefix.
fn begins(prefix: &Text, found: &Option<Text>) -> bool
    ensures { result ≡ said.begins prefix.now found.now }
{
    match found {
        None => false,
        Some(found) => {
            let bytes = found.as_str().as_bytes();
            bytes.starts_with(prefix.as_str().as_bytes())
        }
    }
}

/// Returns whether there is a GUID and it is this one.
fn is_guid(guid: u128, found: Option<u128>) -> bool
    ensures { result ≡ said.is_guid guid found }
{
    match found {
        None => false,
        Some(found) => guid == found,
    }
}

/// Returns whether there is a snippet and it is this one, except for white space.
fn is_snippet(snippet: &Text, found: &Option<Text>) -> bool
    ensures { result ≡ said.is_snippet snippet.now found.now }
{
    match found {
        None => false,
        Some(found) => are_same_packed(snippet.as_str(), found.as_str()),
    }
}

/// What follows the pair, if it is there.
fn behind<'a>(found: &'a [(Text, Text)], pair: &(Text, Text)) -> Option<&'a [(Text, Text)]>
    ensures there { IfSome result
        (λ rest. list_any (λ p. said.is_pair p pair.now) found.now ≡ true) }
    ensures end { IfSome result (λ rest. (n : ℕ) × (rest.now ≡ drop n found.now)) }
{
    for (at, own) in found.iter().enumerate() {
        if own == pair {
            return Some(&found[at + 1..]);
        }
    }
    None
}

/// Returns whether each required pair is among the pairs of the result. Both are in the same order, as the members
/// of objects are, so this is a single pass.
fn are_among(wanted: &[(Text, Text)], found: &[(Text, Text)]) -> bool
    ensures { result ≡ said.are_among wanted.now found.now }
{
    let mut left = found;
    for pair in wanted {
        if let Some(rest) = behind(left, pair) {
            left = rest;
        } else if !found.contains(pair) {
            return false;
        }
    }
    true
}

impl Condition {
    /// Returns its kind.
    pub fn kind(&self) -> ConditionKind
        ensures { result ≡ said.kind_of self.now }
    {
        match self {
            Condition::Tool(_) => ConditionKind::Tool,
            Condition::RuleId(_) => ConditionKind::RuleId,
            Condition::Uri(_) => ConditionKind::Uri,
            Condition::UriPrefix(_) => ConditionKind::UriPrefix,
            Condition::Guid(_) => ConditionKind::Guid,
            Condition::Fingerprints(_) => ConditionKind::Fingerprints,
            Condition::PartialFingerprints(_) => ConditionKind::PartialFingerprints,
            Condition::Message(_) => ConditionKind::Message,
            Condition::MessageId(_) => ConditionKind::MessageId,
            Condition::MessageArguments(_) => ConditionKind::MessageArguments,
            Condition::Snippet(_) => ConditionKind::Snippet,
        }
    }

    /// Returns its value, if it is a string.
    pub fn text(&self) -> Option<&Text>
        ensures { option_copied result ≡ said.text_of self.now }
    {
        match self {
            Condition::Tool(text)
            | Condition::RuleId(text)
            | Condition::Uri(text)
            | Condition::UriPrefix(text)
            | Condition::Message(text)
            | Condition::MessageId(text)
            | Condition::Snippet(text) => Some(text),
            _ => None,
        }
    }

    /// Returns whether the result meets the condition.
    pub(crate) fn holds(&self, record: &Record) -> bool
        ensures { result ≡ said.holds self.now «record».now }
    {
        match self {
            Condition::Tool(text) => text == &record.tool,
            Condition::RuleId(text) => text == &record.rule_id,
            Condition::Uri(text) => is_text(text, &record.place.uri),
            Condition::UriPrefix(prefix) => begins(prefix, &record.place.uri),
            Condition::Guid(guid) => is_guid(*guid, record.guid),
            Condition::Fingerprints(pairs) => are_among(pairs.as_slice(), record.full.as_slice()),
            Condition::PartialFingerprints(pairs) => {
                are_among(pairs.as_slice(), record.partial.as_slice())
            }
            Condition::Message(text) => is_text(text, &record.message.text),
            Condition::MessageId(id) => is_text(id, &record.message.id),
            Condition::MessageArguments(texts) => texts == &record.message.args,
            Condition::Snippet(snippet) => is_snippet(snippet, &record.snippet),
        }
    }
}

/// Returns whether the result meets every condition.
pub(crate) fn hold(conditions: &[Condition], record: &Record) -> bool
    ensures { result ≡ all_hold conditions.now «record».now }
{
    conditions.iter().all(|condition| condition.holds(record))
}

/// Returns the first condition of that kind.
pub(crate) fn of_kind(conditions: &[Condition], kind: ConditionKind) -> Option<&Condition>
    ensures { option_copied result ≡ said.of_kind kind conditions.now }
{
    for condition in conditions {
        if condition.kind() == kind {
            return Some(condition);
        }
    }
    None
}

/// Returns the string that a condition of that kind names, if there is one.
pub fn text_in(conditions: &[Condition], kind: ConditionKind) -> Option<&Text>
    ensures { option_copied result ≡ said.text_in kind conditions.now }
{
    of_kind(conditions, kind)?.text()
}

/// The list, unless it is empty.
fn if_any<T: Drop>(list: Sequence<T>) -> Option<Sequence<T>>
    ensures { result ≡ said.if_any list }
{
    if list.as_slice().is_empty() {
        None
    } else {
        Some(list)
    }
}

/// Returns the condition of that kind that an entry names, if it names one.
pub(crate) fn condition_at(
    alloc: Global,
    entry: &Value,
    kind: ConditionKind,
    wrong: FileFault,
) -> Result<Option<Condition>, Refusal<FileFault>>
    ensures ok { IfOk result (λ found. read.condition_at wrong (view entry.now) kind ≡ Ok found) }
    ensures err { IfFault result
        (λ fault. read.condition_at wrong (view entry.now) kind ≡ Err fault) }
{
    let name = kind.name();
    Ok(match kind {
        ConditionKind::Tool => own_text_at(alloc, entry, name, wrong)?.map(Condition::Tool),
        ConditionKind::RuleId => own_text_at(alloc, entry, name, wrong)?.map(Condition::RuleId),
        ConditionKind::Uri => own_text_at(alloc, entry, name, wrong)?.map(Condition::Uri),
        ConditionKind::UriPrefix => own_text_at(alloc, entry, name, wrong)?.map(
            Condition::UriPrefix,
        ),
        ConditionKind::Guid => guid_at(entry, name, wrong)?.map(Condition::Guid),
        ConditionKind::Fingerprints => if_any(pairs_at(alloc, entry, name, wrong)?).map(
            Condition::Fingerprints,
        ),
        ConditionKind::PartialFingerprints => if_any(pairs_at(alloc, entry, name, wrong)?).map(
            Condition::PartialFingerprints,
        ),
        ConditionKind::Message => own_text_at(alloc, entry, name, wrong)?.map(Condition::Message),
        ConditionKind::MessageId => own_text_at(alloc, entry, name, wrong)?.map(
            Condition::MessageId,
        ),
        ConditionKind::MessageArguments => if_any(texts_at(alloc, entry, name, wrong)?).map(
            Condition::MessageArguments,
        ),
        ConditionKind::Snippet => own_text_at(alloc, entry, name, wrong)?.map(Condition::Snippet),
    })
}

/// A copy of the string, if there is one.
fn copy_of_text(text: &Option<Text>) -> Result<Option<Text>, AllocError>
    ensures { IfOk result (λ copy. copy ≡ text.now) }
{
    match text {
        Some(text) => Ok(Some(text.clone()?)),
        None => Ok(None),
    }
}

/// A copy of the strings.
pub(crate) fn copy_of_texts(alloc: Global, texts: &[Text]) -> Result<Sequence<Text>, AllocError>
    ensures { IfOk result (λ copy. copy ≡ texts.now) }
{
    let mut copy = Sequence::new(alloc);
    for text in texts {
        copy.push(text.clone()?)?;
    }
    Ok(copy)
}

/// A copy of the pairs.
pub(crate) fn copy_of_pairs(alloc: Global, pairs: &[(Text, Text)]) -> Result<Pairs, AllocError>
    ensures { IfOk result (λ copy. copy ≡ pairs.now) }
{
    let mut copy = Sequence::new(alloc);
    for (name, value) in pairs {
        copy.push((name.clone()?, value.clone()?))?;
    }
    Ok(copy)
}

/// Returns the condition of that kind that the result itself has, if it has one. Returns `AllocError` if memory for it
/// runs out.
pub fn own_of(
    alloc: Global,
    kind: ConditionKind,
    record: &Record,
) -> Result<Option<Condition>, AllocError>
    ensures { IfOk result (λ own. own ≡ said.own_of kind «record».now) }
{
    let message = &record.message;
    Ok(match kind {
        ConditionKind::Tool => Some(Condition::Tool(record.tool.clone()?)),
        ConditionKind::RuleId => Some(Condition::RuleId(record.rule_id.clone()?)),
        ConditionKind::Uri => copy_of_text(&record.place.uri)?.map(Condition::Uri),
        ConditionKind::UriPrefix => None,
        ConditionKind::Guid => record.guid.map(Condition::Guid),
        ConditionKind::Fingerprints => if_any(copy_of_pairs(alloc, record.full.as_slice())?).map(
            Condition::Fingerprints,
        ),
        ConditionKind::PartialFingerprints => {
            if_any(copy_of_pairs(alloc, record.partial.as_slice())?).map(
                Condition::PartialFingerprints,
            )
        }
        ConditionKind::Message => copy_of_text(&message.text)?.map(Condition::Message),
        ConditionKind::MessageId => copy_of_text(&message.id)?.map(Condition::MessageId),
        ConditionKind::MessageArguments => if_any(copy_of_texts(
            alloc,
            message.args.as_slice(),
        )?).map(Condition::MessageArguments),
        ConditionKind::Snippet => copy_of_text(&record.snippet)?.map(Condition::Snippet),
    })
}
