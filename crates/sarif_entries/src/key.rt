//! The content of an entry's object. Equal objects are found by it without comparing all of them.
ghost use Rattle.std.specs.Prelude.{◌≡◌, false, map, option_map};
ghost use Rattle.std.specs.Option.{option_map_or};
ghost use Rattle.serde_json.specs.View.{view, members_view};
ghost use Rattle.sarif_entries.specs.Internal.Keys.{texts_with, justification_of, has_key, same_key, status_in};
ghost use Rattle.sarif_entries.specs.Object as said;
ghost use Rattle.sarif_entries.specs.declared.key.EntryKey.{EntryKey};
ghost use Rattle.sarif_model.specs.Members.{text_in};

use crate::entry::Entry;
use sarif_model::{Status, Text};
use serde_json::{Map, Value};

/// The status and the justification of an entry. Objects of entries are equal if and only if these are.
#[derive(Clone, Copy, Debug, PartialEq, Eq, Hash)]
pub struct EntryKey<'a> {
    /// `status`.
    pub status: Status,
    /// `justification`, if there is one.
    pub justification: Option<&'a str>,
}

/// The key of the entry's object.
pub fn key_of(entry: &Entry) -> EntryKey<'_>
    ensures status { result.status ≡ entry.now.status }
    ensures justification { justification_of result ≡ entry.now.justification }
{
    EntryKey {
        status: entry.status,
        justification: entry.justification.as_ref().map(Text::as_str),
    }
}

/// Whether the value is that text.
fn is_string(text: &str, value: &Value) -> bool
    ensures { result ≡ said.is_string text.now (view value.now) }
{
    match value.as_str() {
        Some(found) => text == found,
        None => false,
    }
}

/// Returns whether the members are exactly these strings, each under its name.
fn are_just(texts: &[(&str, &str)], members: &Map<String, Value>) -> bool
    ensures { result ≡ said.are_just (map (λ p. (p.0.now, p.1.now)) texts.now)
        (members_view members.now.entries) }
{
    let mut at = 0;
    for (name, value) in members.iter() {
        if at >= texts.len() {
            return false;
        }
        let (wanted, text) = texts[at];
        if wanted != name.as_str() || !is_string(text, value) {
            return false;
        }
        at += 1;
    }
    at == texts.len()
}

/// A string under its name.
fn name_and_text<'a>(name: &'a str, text: &'a str) -> (&'a str, &'a str)
    ensures name { result.0.now ≡ name.now }
    ensures text { result.1.now ≡ text.now }
{
    (name, text)
}

/// Returns whether the members are exactly those of the object with that key.
fn are_members_of(key: &EntryKey, members: &Map<String, Value>) -> bool
    ensures { result ≡ said.are_just (texts_with key.now.status (justification_of key.now))
        (members_view members.now.entries) }
{
    match key.justification {
        Some(text) => are_just(
            &[
                name_and_text("justification", text),
                name_and_text("kind", "external"),
                name_and_text("status", key.status.name()),
            ],
            members,
        ),
        None => are_just(
            &[("kind", "external"), ("status", key.status.name())],
            members,
        ),
    }
}

/// Whether the value is the object with that key.
pub(crate) fn is_object_with(key: &EntryKey, value: &Value) -> bool
    ensures { result ≡ has_key key.now (view value.now) }
{
    match value.as_object() {
        Some(members) => are_members_of(key, members),
        None => false,
    }
}

/// The text of that name in an object.
fn text_at<'a>(value: &'a Value, name: &str) -> Option<&'a str>
    ensures { option_map (λ text. text.now) result ≡ text_in name.now (view value.now) }
{
    match value.get(name) {
        Some(member) => member.as_str(),
        None => None,
    }
}

/// The status of that object.
fn status_at(value: &Value) -> Option<Status>
    ensures { result ≡ status_in (view value.now) }
{
    Status::from_name(text_at(value, "status")?)
}

/// The key of the value, where it is the object of an entry.
pub fn key_in(value: &Value) -> Option<EntryKey<'_>>
    ensures { (q : EntryKey) → has_key q (view value.now)
        ≡ option_map_or (λ key. same_key key q) result false }
{
    let key = EntryKey {
        status: status_at(value)?,
        justification: text_at(value, "justification"),
    };
    if is_object_with(&key, value) {
        Some(key)
    } else {
        None
    }
}
