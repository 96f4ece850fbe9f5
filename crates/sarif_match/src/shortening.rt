//! Short records: a number replaces each value that is in the keys of several tiers. So version 3 hashes and
//! compares the bytes of a value once for each result, and not once for each tier or name.
ghost use Rattle.std.specs.Prelude.{◌≡◌, ◌∷◌, [], ◌++◌, IfOk, OnOk, Some};
ghost use Rattle.sarif_match.specs.Internal.Numbers.{AreMatchedAlike, AreShort, AreShortMembers};
ghost use Rattle.sarif_match.specs.Internal.Numbers.{Grows, IsNumbered, IsShort, IsShortSnippet};
ghost use Rattle.sarif_match.specs.Internal.Numbers.{lent, message_as, place_as};
ghost use Rattle.sarif_match.specs.Partners.{seen_from_end};
ghost use Rattle.sarif_match.specs.declared.numbers.Value.TheVariants as value;

use crate::numbers::{Value, number_of};
use crate::seeing::{seen_from_end, shared_members};
use indexmap::IndexMap;
use sarif_model::{Message, Pairs, Place, Record, Sequence, Text};
use std::alloc::{AllocError, Global};
use std::hash::BuildHasher;

/// The short records of both sides.
#[derive(Drop)]
pub(crate) struct ShortSides {
    pub(crate) current: Vec<Record>,
    pub(crate) baseline: Vec<Record>,
}

/// The results of both lists as version 3 sees them, in reverse order, as short records.
pub(crate) fn short_from_end<S: BuildHasher + Copy>(
    alloc: Global,
    hasher: S,
    current: &[Record],
    baseline: &[Record],
) -> Result<ShortSides, AllocError>
    ensures { IfOk result (λ short. AreMatchedAlike short.current.items short.baseline.items
        (seen_from_end current.now) (seen_from_end baseline.now)) }
{
    let current_seen = seen_from_end(alloc, current)?;
    let baseline_seen = seen_from_end(alloc, baseline)?;
    short_sides(alloc, hasher, &current_seen, &baseline_seen)
}

/// Both lists as short records, with one table of numbers.
fn short_sides<'a, S: BuildHasher + Copy>(
    alloc: Global,
    hasher: S,
    current: &'a [Record],
    baseline: &'a [Record],
) -> Result<ShortSides, AllocError>
    ensures { IfOk result (λ short. AreMatchedAlike short.current.items short.baseline.items
        current.now baseline.now) }
{
    let mut numbers = IndexMap::with_hasher(alloc, hasher);
    let current = short_records(alloc, &mut numbers, current)?;
    let baseline = short_records(alloc, &mut numbers, baseline)?;
    Ok(ShortSides { current, baseline })
}

/// The short records of a list.
fn short_records<'a, S: BuildHasher + Copy>(
    alloc: Global,
    numbers: &mut IndexMap<Value<'a>, Text, S>,
    findings: &'a [Record],
) -> Result<Vec<Record>, AllocError>
    ensures short { IfOk result (λ short. AreShort numbers.new findings.now short.items) }
    ensures grows { OnOk result (Grows numbers.old numbers.new) }
{
    let mut short = Vec::with_capacity(alloc, findings.len())?;
    for finding in findings {
        short.push(short_record(alloc, numbers, finding)?)?;
    }
    Ok(short)
}

/// The short record of a result.
fn short_record<'a, S: BuildHasher + Copy>(
    alloc: Global,
    numbers: &mut IndexMap<Value<'a>, Text, S>,
    finding: &'a Record,
) -> Result<Record, AllocError>
    ensures short { IfOk result (λ short. IsShort numbers.new finding.now short) }
    ensures grows { OnOk result (Grows numbers.old numbers.new) }
{
    let tool = number_of(alloc, numbers, Value::Text(&finding.tool))?;
    let rule_id = number_of(alloc, numbers, Value::Text(&finding.rule_id))?;
    let place = short_place(alloc, numbers, &finding.place)?;
    let message = short_message(alloc, numbers, &finding.message)?;
    let partial = short_members(alloc, numbers, &finding.partial)?;
    let snippet = short_snippet(alloc, numbers, &finding.snippet)?;
    let full = shared_members(alloc, finding.full.as_slice())?;
    Ok(Record {
        tool,
        rule_id,
        kind: finding.kind,
        level: finding.level,
        message,
        place,
        guid: finding.guid,
        full,
        partial,
        held: Sequence::new(alloc),
        region: finding.region,
        snippet,
        admitted: Sequence::new(alloc),
    })
}

/// A place as its number.
fn short_place<'a, S: BuildHasher + Copy>(
    alloc: Global,
    numbers: &mut IndexMap<Value<'a>, Text, S>,
    place: &'a Place,
) -> Result<Place, AllocError>
    ensures short { IfOk result
        (IsNumbered numbers.new (value.Place (lent place.now)) place_as) }
    ensures grows { OnOk result (Grows numbers.old numbers.new) }
{
    let number = number_of(alloc, numbers, Value::Place(place))?;
    Ok(Place {
        uri: Some(number),
        base: None,
    })
}

/// A message as its number.
fn short_message<'a, S: BuildHasher + Copy>(
    alloc: Global,
    numbers: &mut IndexMap<Value<'a>, Text, S>,
    message: &'a Message,
) -> Result<Message, AllocError>
    ensures short { IfOk result
        (IsNumbered numbers.new (value.Message (lent message.now)) message_as) }
    ensures grows { OnOk result (Grows numbers.old numbers.new) }
{
    let number = number_of(alloc, numbers, Value::Message(message))?;
    Ok(Message {
        text: Some(number),
        id: None,
        args: Sequence::new(alloc),
    })
}

/// Partial fingerprints as one whose name and value are their number. Without any there is none.
fn short_members<'a, S: BuildHasher + Copy>(
    alloc: Global,
    numbers: &mut IndexMap<Value<'a>, Text, S>,
    members: &'a Pairs,
) -> Result<Pairs, AllocError>
    ensures short { IfOk result (AreShortMembers numbers.new members.now) }
    ensures grows { OnOk result (Grows numbers.old numbers.new) }
{
    let mut short = Sequence::new(alloc);
    if members.as_slice().is_empty() {
        return Ok(short);
    }
    let number = number_of(alloc, numbers, Value::Members(members))?;
    short.push((number.clone()?, number))?;
    Ok(short)
}

/// A snippet as its number, if there is one.
fn short_snippet<'a, S: BuildHasher + Copy>(
    alloc: Global,
    numbers: &mut IndexMap<Value<'a>, Text, S>,
    snippet: &'a Option<Text>,
) -> Result<Option<Text>, AllocError>
    ensures short { IfOk result (IsShortSnippet numbers.new snippet.now) }
    ensures grows { OnOk result (Grows numbers.old numbers.new) }
{
    match snippet {
        Some(text) => Ok(Some(number_of(alloc, numbers, Value::Snippet(text.as_str()))?)),
        None => Ok(None),
    }
}
