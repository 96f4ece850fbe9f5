//! What version 3 sees of a result: fingerprints with a value, and snippets without their white space.
ghost use Rattle.std.specs.Prelude.{◌≡◌, ◌==◌, IfOk, IsOkAnd, None, Some, not, length};
ghost use Rattle.std.specs.Prelude.{if◌then◌else◌};
ghost use Rattle.std.specs.List.{list_any};
ghost use Rattle.sarif_model.specs.WhiteSpace.{is_white_space};
ghost use Rattle.sarif_evidence.specs.Seen.{filled, packed, packed_snippet, seen};

use sarif_model::{Message, Pairs, Place, Record, Sequence, Text, is_white_space};
use std::alloc::{AllocError, Global};

/// Returns a result as version 3 sees it: without fingerprints whose value is the empty string, without white space
/// in its snippet, and without its own suppressions. Its strings are shared with it, except for its snippet. Returns
/// `AllocError` if memory runs out.
pub fn seen(alloc: Global, finding: &Record) -> Result<Record, AllocError>
    ensures { IfOk result (λ r. r ≡ seen finding.now) }
{
    Ok(Record {
        tool: finding.tool.clone()?,
        rule_id: finding.rule_id.clone()?,
        kind: finding.kind,
        level: finding.level,
        message: shared_message(alloc, &finding.message)?,
        place: shared_place(&finding.place)?,
        guid: finding.guid,
        full: filled(alloc, finding.full.as_slice())?,
        partial: filled(alloc, finding.partial.as_slice())?,
        held: Sequence::new(alloc),
        region: finding.region,
        snippet: packed_snippet(alloc, &finding.snippet)?,
        admitted: Sequence::new(alloc),
    })
}

/// The same place, whose strings are shared.
pub(crate) fn shared_place(place: &Place) -> Result<Place, AllocError>
    ensures { IfOk result (λ shared. shared ≡ place.now) }
{
    Ok(Place {
        uri: shared_if_there(&place.uri)?,
        base: shared_if_there(&place.base)?,
    })
}

/// The same message, whose strings are shared.
pub(crate) fn shared_message(alloc: Global, message: &Message) -> Result<Message, AllocError>
    ensures { IfOk result (λ shared. shared ≡ message.now) }
{
    Ok(Message {
        text: shared_if_there(&message.text)?,
        id: shared_if_there(&message.id)?,
        args: shared_texts(alloc, message.args.as_slice())?,
    })
}

/// The same string, if there is one.
pub(crate) fn shared_if_there(text: &Option<Text>) -> Result<Option<Text>, AllocError>
    ensures { IfOk result (λ shared. shared ≡ text.now) }
{
    match text {
        Some(text) => Ok(Some(text.clone()?)),
        None => Ok(None),
    }
}

/// The same strings.
fn shared_texts(alloc: Global, texts: &[Text]) -> Result<Sequence<Text>, AllocError>
    ensures { IfOk result (λ shared. shared ≡ texts.now) }
{
    let mut shared = Sequence::new(alloc);
    for text in texts {
        shared.push(text.clone()?)?;
    }
    Ok(shared)
}

/// The filled members.
fn filled(alloc: Global, members: &[(Text, Text)]) -> Result<Pairs, AllocError>
    ensures { IfOk result (λ kept. kept ≡ filled members.now) }
{
    let mut kept = Sequence::new(alloc);
    for member in members {
        if is_filled(member) {
            kept.push((member.0.clone()?, member.1.clone()?))?;
        }
    }
    Ok(kept)
}

/// A snippet without its white space, if there is one and anything is left of it.
fn packed_snippet(alloc: Global, snippet: &Option<Text>) -> Result<Option<Text>, AllocError>
    ensures { IfOk result (λ text. text ≡ packed_snippet snippet.now) }
{
    match snippet {
        Some(snippet) => filled_text(packed_text(alloc, snippet)?),
        None => Ok(None),
    }
}

/// A string without its white space. A string without any is shared.
#[tactic(auto, using(crate::proofs::PackedLemmas::none_gone))]
fn packed_text(alloc: Global, text: &Text) -> Result<Text, AllocError>
    ensures { IfOk result (λ kept. kept ≡ packed text.now) }
{
    if has_white_space(text.as_str().as_bytes()) {
        return packed(alloc, text.as_str());
    }
    text.clone()
}

/// Whether there is white space among these bytes.
fn has_white_space(bytes: &[u8]) -> bool
    ensures { result ≡ list_any is_white_space bytes.now }
{
    bytes.iter().any(|byte| is_white_space(*byte))
}

/// A string, unless it is empty.
fn filled_text(text: Text) -> Result<Option<Text>, AllocError>
    ensures { IsOkAnd result (λ kept. kept ≡ (if length text == 0 then None else Some text)) }
{
    if text.as_str().is_empty() {
        return Ok(None);
    }
    Ok(Some(text))
}

/// Returns a string without its white space. Returns `AllocError` if memory for it runs out.
pub fn packed(alloc: Global, text: &str) -> Result<Text, AllocError>
    ensures { IfOk result (λ kept. kept ≡ packed text.now) }
{
    let mut kept = String::with_capacity(alloc, text.len())?;
    for c in text.chars() {
        if !is_white_char(c) {
            kept.push(c)?;
        }
    }
    Text::from_string(kept)
}

/// Whether this is a character of white space.
fn is_white_char(c: char) -> bool
    ensures { result ≡ is_white_space c }
{
    matches!(c, ' ' | '\t' | '\n' | '\u{c}' | '\r')
}

/// Returns whether the value of a fingerprint isn't the empty string.
pub fn is_filled(member: &(Text, Text)) -> bool
    ensures { result ≡ not (length member.now.1 == 0) }
{
    !member.1.as_str().is_empty()
}
