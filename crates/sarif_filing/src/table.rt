//! The numbers of the entries by their conditions, so that a result is compared only with entries that may match
//! it. Each entry is filed under its most specific condition: its GUID, otherwise its snippet together with the next one
//! that it names of fingerprint, message and URI, otherwise its first fingerprint, otherwise its first partial fingerprint,
//! otherwise what it names of a message, together with its URI if it names one, otherwise its URI, otherwise its rule id,
//! otherwise its URI prefix, otherwise its tool. Entries under a prefix are in a separate table. An entry with `max` is filed
//! under its number alone: the record of a result that it admits has that number.
ghost use Rattle.std.specs.Prelude.{◌≡◌, ◌≤◌, ◌++◌, [], List, ℕ, length, nat_eq, bytes_eq, IfOk, OnOk};
ghost use Rattle.std.specs.Cmp.Lexicographic.{pointwise};
ghost use Rattle.std.specs.List.{flat_map};
ghost use Rattle.std.specs.Option.{option_map_or};
ghost use Rattle.sarif_entries.specs.Internal.Filing as said;
ghost use Rattle.sarif_entries.specs.Condition.{is_pair};
ghost use Rattle.sarif_filing.specs.Numbers.{numbers_from, numbers_at};
ghost use Rattle.sarif_filing.specs.Internal.Table.{ArePairTables, AreTextTables, IsTable, candidates};
ghost use Rattle.sarif_model.specs.Limits.{most_entries};

use crate::numbers::{add_number, numbers_for};
use crate::snippets::{Keyed, add_with_snippet, numbers_by_snippet};
use indexmap::IndexMap;
use sarif_entries::message_keys::message_keys;
use sarif_entries::{Entry, PairCondition, TextCondition};
use sarif_model::{Record, Sequence, Text};
use std::alloc::{AllocError, Global};
use std::hash::BuildHasher;

/// The numbers of the entries, rising, by the pair of strings that each is filed under.
#[derive(Drop)]
struct PairTables<S: BuildHasher + Copy> {
    full: IndexMap<(Text, Text), Vec<u32>, S>,
    partial: IndexMap<(Text, Text), Vec<u32>, S>,
}

impl<S: BuildHasher + Copy> PairTables<S> {
    /// The tables of at most `MOST_ENTRIES` entries.
    fn new(alloc: Global, hasher: S, entries: &[Entry]) -> Result<PairTables<S>, AllocError>
        requires { length entries.now ≤ most_entries }
        ensures { IfOk result (ArePairTables entries.now) }
    {
        let full = numbers_by_pair(alloc, hasher, entries, PairCondition::Full)?;
        let partial = numbers_by_pair(alloc, hasher, entries, PairCondition::Partial)?;
        Ok(PairTables { full, partial })
    }
}

/// The numbers of the entries, rising, by the text that each is filed under, or by the key of a message.
#[derive(Drop)]
struct TextTables<S: BuildHasher + Copy> {
    messages: Keyed<S>,
    uris: IndexMap<Text, Vec<u32>, S>,
    rules: IndexMap<Text, Vec<u32>, S>,
    tools: IndexMap<Text, Vec<u32>, S>,
}

impl<S: BuildHasher + Copy> TextTables<S> {
    /// The tables of at most `MOST_ENTRIES` entries.
    fn new(alloc: Global, hasher: S, entries: &[Entry]) -> Result<TextTables<S>, AllocError>
        requires { length entries.now ≤ most_entries }
        ensures { IfOk result (AreTextTables entries.now) }
    {
        let messages = numbers_by_message(alloc, hasher, entries)?;
        let uris = numbers_by_text(alloc, hasher, entries, TextCondition::Uri)?;
        let rules = numbers_by_text(alloc, hasher, entries, TextCondition::RuleId)?;
        let tools = numbers_by_text(alloc, hasher, entries, TextCondition::Tool)?;
        Ok(TextTables {
            messages,
            uris,
            rules,
            tools,
        })
    }
}

/// The numbers of the entries, rising, by what each is filed under, without those that are filed under a prefix.
#[derive(Drop)]
pub struct Table<S: BuildHasher + Copy> {
    guids: IndexMap<u128, Vec<u32>, S>,
    snippets: IndexMap<Text, Keyed<S>, S>,
    pairs: PairTables<S>,
    texts: TextTables<S>,
    /// The entries with `max`, by their numbers.
    limited: IndexMap<u32, Vec<u32>, S>,
    others: Vec<u32>,
}

impl<S: BuildHasher + Copy> Table<S> {
    /// Returns the tables of at most `MOST_ENTRIES` entries. They hash with `hasher`. Returns `AllocError` if memory for
    /// them runs out.
    pub fn new(alloc: Global, hasher: S, entries: &[Entry]) -> Result<Table<S>, AllocError>
        requires { length entries.now ≤ most_entries }
        ensures { IfOk result (IsTable entries.now) }
    {
        let others = numbers_of_others(alloc, entries)?;
        let guids = numbers_by_guid(alloc, hasher, entries)?;
        let snippets = numbers_by_snippet(alloc, hasher, entries)?;
        let pairs = PairTables::new(alloc, hasher, entries)?;
        let texts = TextTables::new(alloc, hasher, entries)?;
        let limited = numbers_by_number(alloc, hasher, entries)?;
        Ok(Table {
            guids,
            snippets,
            pairs,
            texts,
            limited,
            others,
        })
    }

    /// Returns the numbers of the entries that may match the result, in no order, without those that are filed under a
    /// prefix. A number may come more than once. Returns `AllocError` if memory runs out.
    pub fn candidates(&self, alloc: Global, record: &Record) -> Result<Vec<u32>, AllocError>
        ensures { IfOk result (λ found. (entries : List Entry) → IsTable entries self.now
            → found.items ≡ candidates entries «record».now) }
    {
        let mut found = Vec::new(alloc);
        found.extend_from_slice(numbers_with_guid(&self.guids, record.guid))?;
        add_with_snippet(alloc, &mut found, &self.snippets, record)?;
        add_with_pairs(&mut found, &self.pairs.full, record.full.as_slice())?;
        add_with_pairs(&mut found, &self.pairs.partial, record.partial.as_slice())?;
        add_with_message(alloc, &mut found, &self.texts.messages, record)?;
        found.extend_from_slice(numbers_with_text(&self.texts.uris, &record.place.uri))?;
        found.extend_from_slice(numbers_for(&self.texts.rules, &record.rule_id))?;
        found.extend_from_slice(numbers_for(&self.texts.tools, &record.tool))?;
        add_with_numbers(&mut found, &self.limited, record.admitted.as_slice())?;
        found.extend_from_slice(&self.others)?;
        Ok(found)
    }
}

/// Adds the numbers of the entries that are filed under one of these fingerprints.
fn add_with_pairs<S: BuildHasher + Copy>(
    found: &mut Vec<u32>,
    table: &IndexMap<(Text, Text), Vec<u32>, S>,
    pairs: &[(Text, Text)],
) -> Result<(), AllocError>
    ensures { OnOk result (found.new.items
        ≡ found.old.items ++ flat_map (numbers_at is_pair table.now) pairs.now) }
{
    for pair in pairs {
        found.extend_from_slice(numbers_for(table, pair))?;
    }
    Ok(())
}

/// Adds the numbers of the entries with `max` that have one of these numbers.
fn add_with_numbers<S: BuildHasher + Copy>(
    found: &mut Vec<u32>,
    table: &IndexMap<u32, Vec<u32>, S>,
    numbers: &[u32],
) -> Result<(), AllocError>
    ensures { OnOk result (found.new.items
        ≡ found.old.items ++ flat_map (numbers_at nat_eq table.now) numbers.now) }
{
    for number in numbers {
        found.extend_from_slice(numbers_for(table, number))?;
    }
    Ok(())
}

/// Adds the numbers of the entries that are filed under one of these keys.
pub(crate) fn add_with_keys<S: BuildHasher + Copy>(
    found: &mut Vec<u32>,
    table: &Keyed<S>,
    keys: &[Sequence<Text>],
) -> Result<(), AllocError>
    ensures { OnOk result (found.new.items
        ≡ found.old.items ++ flat_map (numbers_at (pointwise bytes_eq) table.now) keys.now) }
{
    for key in keys {
        found.extend_from_slice(numbers_for(table, key))?;
    }
    Ok(())
}

/// Adds the numbers of the entries that are filed under what the result's message has. If none is filed so, no key is
/// made.
fn add_with_message<S: BuildHasher + Copy>(
    alloc: Global,
    found: &mut Vec<u32>,
    table: &Keyed<S>,
    record: &Record,
) -> Result<(), AllocError>
    ensures { OnOk result (found.new.items ≡ found.old.items
        ++ flat_map (numbers_at (pointwise bytes_eq) table.now)
        (said.message_keys «record».now)) }
{
    if table.is_empty() {
        return Ok(());
    }
    let keys = message_keys(alloc, record)?;
    add_with_keys(found, table, &keys)
}

/// For each GUID the numbers of the entries that name it, rising.
fn numbers_by_guid<S: BuildHasher + Copy>(
    alloc: Global,
    hasher: S,
    entries: &[Entry],
) -> Result<IndexMap<u128, Vec<u32>, S>, AllocError>
    requires { length entries.now ≤ most_entries }
    ensures { IfOk result (λ table. (q : ℕ)
        → numbers_at nat_eq table q ≡ numbers_from (said.asks_for_guid q) 0 entries.now) }
{
    let mut table: IndexMap<u128, Vec<u32>, S> = IndexMap::with_hasher(alloc, hasher);
    for (number, entry) in entries.iter().enumerate() {
        if let Some(guid) = entry.guid_key() {
            add_number(alloc, &mut table, guid, number as u32)?;
        }
    }
    Ok(table)
}

/// For each pair of strings, the numbers of the entries that are filed under it, rising.
fn numbers_by_pair<S: BuildHasher + Copy>(
    alloc: Global,
    hasher: S,
    entries: &[Entry],
    which: PairCondition,
) -> Result<IndexMap<(Text, Text), Vec<u32>, S>, AllocError>
    requires { length entries.now ≤ most_entries }
    ensures { IfOk result (λ table. (q : List ℕ × List ℕ)
        → numbers_at is_pair table q ≡ numbers_from (said.asks_for_pair which q) 0 entries.now) }
{
    let mut table: IndexMap<(Text, Text), Vec<u32>, S> = IndexMap::with_hasher(alloc, hasher);
    for (number, entry) in entries.iter().enumerate() {
        if let Some((name, value)) = entry.pair_key(which) {
            let key = (name.clone()?, value.clone()?);
            add_number(alloc, &mut table, key, number as u32)?;
        }
    }
    Ok(table)
}

/// For each key of a message the numbers of the entries that are filed under it, rising.
fn numbers_by_message<S: BuildHasher + Copy>(
    alloc: Global,
    hasher: S,
    entries: &[Entry],
) -> Result<IndexMap<Sequence<Text>, Vec<u32>, S>, AllocError>
    requires { length entries.now ≤ most_entries }
    ensures { IfOk result (λ table. (q : List (List ℕ)) → numbers_at (pointwise bytes_eq) table q
        ≡ numbers_from (said.asks_for_message q) 0 entries.now) }
{
    let mut table: IndexMap<Sequence<Text>, Vec<u32>, S> = IndexMap::with_hasher(alloc, hasher);
    for (number, entry) in entries.iter().enumerate() {
        if let Some(key) = entry.message_key(alloc)? {
            add_number(alloc, &mut table, key, number as u32)?;
        }
    }
    Ok(table)
}

/// For each text the numbers of the entries that are filed under it, rising.
fn numbers_by_text<S: BuildHasher + Copy>(
    alloc: Global,
    hasher: S,
    entries: &[Entry],
    which: TextCondition,
) -> Result<IndexMap<Text, Vec<u32>, S>, AllocError>
    requires { length entries.now ≤ most_entries }
    ensures { IfOk result (λ table. (q : List ℕ)
        → numbers_at bytes_eq table q ≡ numbers_from (said.asks_for_text which q) 0 entries.now) }
{
    let mut table: IndexMap<Text, Vec<u32>, S> = IndexMap::with_hasher(alloc, hasher);
    for (number, entry) in entries.iter().enumerate() {
        if let Some(text) = entry.text_key(which) {
            add_number(alloc, &mut table, text.clone()?, number as u32)?;
        }
    }
    Ok(table)
}

/// For each number of an entry with `max` the numbers of the entries that have it, rising.
fn numbers_by_number<S: BuildHasher + Copy>(
    alloc: Global,
    hasher: S,
    entries: &[Entry],
) -> Result<IndexMap<u32, Vec<u32>, S>, AllocError>
    requires { length entries.now ≤ most_entries }
    ensures { IfOk result (λ table. (q : ℕ)
        → numbers_at nat_eq table q ≡ numbers_from (said.asks_for_number q) 0 entries.now) }
{
    let mut table: IndexMap<u32, Vec<u32>, S> = IndexMap::with_hasher(alloc, hasher);
    for (number, entry) in entries.iter().enumerate() {
        if let Some(limit) = entry.limit {
            add_number(alloc, &mut table, limit.number, number as u32)?;
        }
    }
    Ok(table)
}

/// The numbers of the entries that have no `max` and no key, rising.
fn numbers_of_others(alloc: Global, entries: &[Entry]) -> Result<Vec<u32>, AllocError>
    requires { length entries.now ≤ most_entries }
    ensures { IfOk result (λ numbers. numbers.items
        ≡ numbers_from said.asks_for_none 0 entries.now) }
{
    let mut numbers = Vec::new(alloc);
    for (number, entry) in entries.iter().enumerate() {
        if entry.has_no_key() {
            numbers.push(number as u32)?;
        }
    }
    Ok(numbers)
}

/// The numbers of the entries that are filed under `guid`; without one there are none.
fn numbers_with_guid<S: BuildHasher + Copy>(
    table: &IndexMap<u128, Vec<u32>, S>,
    guid: Option<u128>,
) -> &[u32]
    ensures { result.now ≡ option_map_or (numbers_at nat_eq table.now) guid [] }
{
    match guid {
        Some(guid) => numbers_for(table, &guid),
        None => &[],
    }
}

/// The numbers of the entries that are filed under `text`; without one there are none.
fn numbers_with_text<'a, S: BuildHasher + Copy>(
    table: &'a IndexMap<Text, Vec<u32>, S>,
    text: &Option<Text>,
) -> &'a [u32]
    ensures { result.now ≡ option_map_or (numbers_at bytes_eq table.now) text.now [] }
{
    match text {
        Some(text) => numbers_for(table, text),
        None => &[],
    }
}
