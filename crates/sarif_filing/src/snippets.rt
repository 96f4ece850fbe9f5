//! The entries that are filed under a snippet. They are found by the snippet without white space, and among those of one
//! snippet by the key of what else they name. So the snippet of a result is hashed at most once, and only if an entry is
//! filed under a snippet.
ghost use Rattle.std.specs.Prelude.{◌≡◌, ◌≤◌, ◌++◌, ◌&&◌, ◌∷◌, [], List, ℕ, length, bytes_eq, IfOk, OnOk, if◌then◌else◌};
ghost use Rattle.std.specs.Cmp.Lexicographic.{pointwise};
ghost use Rattle.std.specs.Option.{option_map_or};
ghost use Rattle.sarif_entries.specs.Internal.Filing as said;
ghost use Rattle.sarif_evidence.specs.Seen.{packed};
ghost use Rattle.sarif_filing.specs.Numbers.{numbers_from};
ghost use Rattle.sarif_filing.specs.Internal.Snippets.{found_within, numbers_within};
ghost use Rattle.sarif_model.specs.Limits.{most_entries};

use crate::numbers::add_number;
use crate::table::add_with_keys;
use indexmap::IndexMap;
use sarif_entries::Entry;
use sarif_entries::message_keys::keys_beside_snippet;
use sarif_evidence::packed;
use sarif_model::{Record, Sequence, Text};
use std::alloc::{AllocError, Global};
use std::hash::BuildHasher;

/// The numbers of the entries, rising, by their keys.
pub(crate) type Keyed<S> = IndexMap<Sequence<Text>, Vec<u32>, S>;

/// Adds the number after those that the table has for the snippet and the key.
fn add_within<S: BuildHasher + Copy>(
    alloc: Global,
    hasher: S,
    table: &mut IndexMap<Text, Keyed<S>, S>,
    snippet: Text,
    key: Sequence<Text>,
    number: u32,
) -> Result<(), AllocError>
    ensures { OnOk result ((text : List ℕ) (q : List (List ℕ)) → numbers_within table.new text q
        ≡ numbers_within table.old text q
        ++ (if bytes_eq snippet text && pointwise bytes_eq key q then number ∷ [] else [])) }
{
    if let Some(keyed) = table.get_mut(&snippet) {
        add_number(alloc, keyed, key, number)?;
        return Ok(());
    }
    let mut keyed: Keyed<S> = IndexMap::with_hasher(alloc, hasher);
    add_number(alloc, &mut keyed, key, number)?;
    table.insert(snippet, keyed)?;
    Ok(())
}

/// For each snippet without white space, and each key, the numbers of the entries that are filed under both, rising.
pub(crate) fn numbers_by_snippet<S: BuildHasher + Copy>(
    alloc: Global,
    hasher: S,
    entries: &[Entry],
) -> Result<IndexMap<Text, Keyed<S>, S>, AllocError>
    requires { length entries.now ≤ most_entries }
    ensures { IfOk result (λ table. (text : List ℕ) (q : List (List ℕ))
        → numbers_within table text q
        ≡ numbers_from (said.asks_for_snippet text q) 0 entries.now) }
{
    let mut table: IndexMap<Text, Keyed<S>, S> = IndexMap::with_hasher(alloc, hasher);
    for (number, entry) in entries.iter().enumerate() {
        if let Some(snippet) = entry.snippet_key(alloc)? {
            let key = entry.key_beside_snippet(alloc)?;
            add_within(alloc, hasher, &mut table, snippet, key, number as u32)?;
        }
    }
    Ok(table)
}

/// Adds the numbers of the entries that are filed under the result's snippet and one of its keys. If there is no snippet,
/// or none is filed so, nothing is made or hashed.
pub(crate) fn add_with_snippet<S: BuildHasher + Copy>(
    alloc: Global,
    found: &mut Vec<u32>,
    table: &IndexMap<Text, Keyed<S>, S>,
    record: &Record,
) -> Result<(), AllocError>
    ensures { OnOk result (found.new.items ≡ found.old.items ++ option_map_or
        (λ text. found_within table.now (packed text) (said.keys_beside «record».now))
        «record».now.snippet []) }
{
    if table.is_empty() {
        return Ok(());
    }
    let Some(snippet) = &record.snippet else {
        return Ok(());
    };
    let snippet = packed(alloc, snippet.as_str())?;
    let Some(keyed) = table.get(&snippet) else {
        return Ok(());
    };
    let keys = keys_beside_snippet(alloc, record)?;
    add_with_keys(found, keyed, &keys)?;
    Ok(())
}
