//! The entries that accept results, as a merge with the new file reads them: which other results they match.
ghost use Rattle.std.specs.Prelude.{◌≡◌, ◌≤◌, length, map, IfOk};
ghost use Rattle.serde_json.specs.View.{members_view};
ghost use Rattle.sarif_model.specs.Limits.{most_entries};
ghost use Rattle.sarif_entries.specs.Entries.{pairs_of};
ghost use Rattle.sarif_accept.specs.Adding as said;
ghost use Rattle.sarif_accept.specs.Entry.{conditions_for, texts_put};

use crate::asked;
use crate::asked::texts_of;
use sarif_entries::{Condition, Entry};
use sarif_model::{Pairs, Record, Sequence, Status, Text};
use sarif_options::Renewal;
use sarif_suppress::Suppressions;
use serde_json::{Map, Value};
use std::alloc::{AllocError, Global};
use std::hash::BuildHasher;

/// The members that are strings, with their names.
fn texts_in(alloc: Global, members: &Map<String, Value>) -> Result<Pairs, AllocError>
    ensures { IfOk result (λ pairs. pairs ≡ pairs_of (members_view members.now.entries)) }
{
    let mut pairs = Sequence::new(alloc);
    for (name, value) in members.iter() {
        if let Some(text) = value.as_str() {
            let name = Text::copy_of(alloc, name.as_str())?;
            pairs.push((name, Text::copy_of(alloc, text)?))?;
        }
    }
    Ok(pairs)
}

/// These pairs as a map of strings has them.
fn in_order(alloc: Global, pairs: &[(Text, Text)]) -> Result<Pairs, AllocError>
    ensures { IfOk result (λ ordered. ordered ≡ pairs_of (texts_put pairs.now)) }
{
    let members = texts_of(alloc, pairs)?;
    texts_in(alloc, &members)
}

/// A condition of an entry, as it is read.
fn as_read(alloc: Global, condition: Condition) -> Result<Condition, AllocError>
    ensures { IfOk result (λ read. read ≡ said.as_read condition) }
{
    match condition {
        Condition::Fingerprints(pairs) => {
            Ok(Condition::Fingerprints(in_order(alloc, pairs.as_slice())?))
        }
        Condition::PartialFingerprints(pairs) => {
            Ok(Condition::PartialFingerprints(in_order(alloc, pairs.as_slice())?))
        }
        other => Ok(other),
    }
}

/// The conditions of the entry that accepts a result, as they are read.
fn conditions_read(alloc: Global, record: &Record) -> Result<Sequence<Condition>, AllocError>
    ensures { IfOk result (λ conditions. conditions
        ≡ map said.as_read (conditions_for «record».now)) }
{
    let conditions = asked::conditions_for(alloc, record)?;
    let mut read = Sequence::new(alloc);
    for condition in conditions.into_vec() {
        read.push(as_read(alloc, condition)?)?;
    }
    Ok(read)
}

/// A copy of the string, if there is one. It shares its bytes.
fn copy_of_text(text: &Option<Text>) -> Result<Option<Text>, AllocError>
    ensures { IfOk result (λ copy. copy ≡ text.now) }
{
    match text {
        Some(text) => Ok(Some(text.clone()?)),
        None => Ok(None),
    }
}

/// The entry that accepts a result, as it is read.
fn entry_read(alloc: Global, record: &Record, renewal: &Renewal) -> Result<Entry, AllocError>
    ensures { IfOk result (λ entry. entry
        ≡ said.entry_read «record».now renewal.now.reason renewal.now.until) }
{
    Ok(Entry {
        conditions: conditions_read(alloc, record)?,
        expires: renewal.until,
        status: Status::Accepted,
        justification: copy_of_text(&renewal.reason)?,
        limit: None,
    })
}

/// The entries that accept these results, as they are read.
fn entries_read(
    alloc: Global,
    added: &[&Record],
    renewal: &Renewal,
) -> Result<Vec<Entry>, AllocError>
    ensures { IfOk result (λ entries. entries.items
        ≡ map (λ r. said.entry_read r.now renewal.now.reason renewal.now.until) added.now) }
{
    let mut entries = Vec::with_capacity(alloc, added.len())?;
    for record in added {
        entries.push(entry_read(alloc, *record, renewal)?)?;
    }
    Ok(entries)
}

/// Returns the file of the entries that accept these results alone, as a merge with the new file reads them. Its tables
/// hash with `hasher`, on which nothing depends. Returns `AllocError` if memory runs out.
pub fn rules_added<S: BuildHasher + Copy>(
    alloc: Global,
    hasher: S,
    added: &[&Record],
    renewal: &Renewal,
    today: Option<u32>,
) -> Result<Suppressions<S>, AllocError>
    requires { length added.now ≤ most_entries }
    ensures { IfOk result (λ file. file ≡ record {
      entries = map (λ r. said.entry_read r.now renewal.now.reason renewal.now.until) added.now;
      today = today;
    }) }
{
    let entries = entries_read(alloc, added, renewal)?;
    Suppressions::new(alloc, hasher, entries, today)
}
